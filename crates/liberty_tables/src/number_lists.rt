//! Lists of numbers (Liberty, `index_1`, `index_2` and `values`).
ghost use Rattle.std.specs.Prelude.{◌∷◌, [], OnOk, IfOk, IfErr, IfSome};
ghost use Rattle.delay_units.specs.declared.numbers.Unit.{Unit};
ghost use Rattle.liberty_groups.specs.Tables.{attribute_at, IsAttribute};
ghost use Rattle.token_texts.specs.Pieces.{pieces_between};
ghost use Rattle.liberty_tables.specs.NumberLists.{is_parting, pieces_of};
ghost use Rattle.liberty_tables.specs.Kept.{AreKept, KeepsMore, IsListFault, texts_of};

use crate::faults::CellFault;
use delay_units::{Atto, SignedAmount, Unit, read_signed_amount};
use liberty_groups::{AttrId, GroupTree};
use std::alloc::Global;
use token_texts::{ByteClass, first_piece, is_blank};

/// The readings of some pieces, in grains, and whether each is at most 10^12 in size. Where one is not, the values do not count.
#[derive(Drop)]
pub(crate) struct Readings {
    pub values: Vec<i64>,
    pub within: bool,
}

/// The bytes that part the numbers of a list: commas and blanks.
struct Parting;

impl ByteClass for Parting {
    ghost is_in = { is_parting };

    #[inline]
    fn has(byte: u8) -> bool {
        byte == b',' || is_blank(byte)
    }
}

impl Readings {
    // No reading yet.
    fn new(alloc: Global) -> Readings
        ensures { (unit : Unit) → AreKept unit [] result.within result.values.items }
    {
        Readings {
            values: Vec::new(alloc),
            within: true,
        }
    }

    // Reads a piece.
    fn read_number(&mut self, unit: &Unit, piece: &[u8]) -> Result<(), CellFault>
        ensures kept { OnOk result (KeepsMore unit.now (piece.now ∷ []) self.old self.new) }
        ensures fault { IfErr result (IsListFault (piece.now ∷ [])) }
    {
        match read_signed_amount(unit, Atto::MOST as u128, piece) {
            SignedAmount::Unread => Err(CellFault::BadNumber),
            SignedAmount::Below | SignedAmount::Past => {
                self.within = false;
                Ok(())
            }
            SignedAmount::Within(value) => match self.values.push(value as i64) {
                Ok(_) => Ok(()),
                Err(_) => Err(CellFault::OutOfMemory),
            },
        }
    }

    // Reads the pieces of a text.
    fn read_text(&mut self, unit: &Unit, text: &[u8]) -> Result<(), CellFault>
        ensures kept { OnOk result (KeepsMore unit.now (pieces_between is_parting text.now) self.old self.new) }
        ensures fault { IfErr result (IsListFault (pieces_between is_parting text.now)) }
    {
        let mut rest = text;
        while let Some((piece, others)) = first_piece::<Parting>(rest) {
            self.read_number(unit, piece)?;
            rest = others;
        }
        Ok(())
    }
}

/// The readings of all pieces of an attribute, if it stands.
pub(crate) fn read_list(
    alloc: Global,
    tree: &GroupTree,
    attribute: Option<AttrId>,
    unit: &Unit,
) -> Result<Readings, CellFault>
    requires { IfSome attribute (λ a. IsAttribute tree.now a.0) }
    ensures kept { IfOk result
        (λ readings. AreKept unit.now (pieces_of (texts_of tree.now attribute)) readings.within readings.values.items) }
    ensures fault { IfErr result (IsListFault (pieces_of (texts_of tree.now attribute))) }
{
    let mut readings = Readings::new(alloc);
    let Some(attribute) = attribute else {
        return Ok(readings);
    };
    for place in 0..tree.value_count(attribute) {
        readings.read_text(unit, tree.value(attribute, place).bytes())?;
    }
    Ok(readings)
}
