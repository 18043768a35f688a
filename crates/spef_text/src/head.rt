//! The head of a SPEF file: the design's name, the units, and the name map.
ghost use Rattle.std.specs.Prelude.{◌≡◌, ℕ, IfOk, IfErr};
ghost use Rattle.spef_text.specs.Heads.{HeadText, unquoted, design_at, IsUnitAt, IsBadUnit, IsHeadOf, IsHeadEnd};

use crate::file::SpefFile;
use crate::head_ends::HeadEnd;
use crate::name_map::{Places, read_places};
use crate::units::Quantity;
use delay_units::{Farads, Unit};
use edge_io::{OutOfMemory, Text};
use std::alloc::Global;
use std::marker::Model;

/// The head of a SPEF file. The name map stays in the file; here is where its entries are looked for.
#[derive(Drop)]
pub struct Head {
    pub(crate) design: Text,
    pub(crate) cap_unit: Unit,
    pub(crate) res_unit: Unit,
    pub(crate) places: Places,
}

impl Model for Head {
    ghost Value = { HeadText };

    ghost view = { λ h. record { design = h.design; cap_unit = h.cap_unit; res_unit = h.res_unit } };
}

impl Head {
    /// The first token after the last `*DESIGN` without its quotes, or nothing.
    pub fn design(&self) -> &Text
        ensures { result.now ≡ self.now.design }
    {
        &self.design
    }

    /// The unit of capacitances, in grains of 10^-21 F.
    pub fn cap_unit(&self) -> Unit
        ensures { result ≡ self.now.cap_unit }
    {
        self.cap_unit
    }

    /// The unit of resistances, in grains of 10^-6 ohm.
    pub fn res_unit(&self) -> Unit
        ensures { result ≡ self.now.res_unit }
    {
        self.res_unit
    }
}

// The unit of an item, by its number's token, or the token that tells why there is none.
fn unit_at(quantity: Quantity, file: &SpefFile, item: Option<u32>) -> Result<Unit, u64>
    ensures ok { IfOk result (IsUnitAt quantity file.now item) }
    ensures bad { IfErr result (IsBadUnit quantity file.now item) }
{
    let Some(number) = item else {
        return unit_without_item(file);
    };
    let token = number as u64;
    match quantity.unit_of(file.text_of(token), file.text_of(token + 1)) {
        Some(unit) => Ok(unit),
        None => Err(token),
    }
}

// The unit where no item names one: 1 fF or 1 ohm, if no net needs it.
fn unit_without_item(file: &SpefFile) -> Result<Unit, u64>
    ensures ok { IfOk result (IsUnitAt Quantity.Capacitance file.now None) }
    ensures bad { IfErr result (IsBadUnit Quantity.Capacitance file.now None) }
{
    if file.section_count() > 0 {
        return Err(0);
    }
    Ok(Unit {
        mantissa: 1,
        exponent: Farads::FEMTOFARAD_POWER,
    })
}

// A text without the quotes round it.
fn unquoted(text: &[u8]) -> &[u8]
    ensures { result.now ≡ unquoted text.now }
{
    match text {
        [b'"', rest @ ..] => rest.split_at(rest.len().saturating_sub(1)).0,
        _ => text,
    }
}

fn design_of(alloc: Global, file: &SpefFile) -> Result<Text, OutOfMemory>
    ensures { IfOk result (λ text. text ≡ design_at file.now file.now.reading.head.design) }
{
    match file.head.design {
        Some(name) => Text::from_bytes(alloc, unquoted(file.text_of(name as u64))),
        None => Ok(Text::new(alloc)),
    }
}

/// Reads the head of a file (IEEE 1481): of several items that say one thing the last counts. It takes one pass over the
/// name map, and, where its indices do not rise from entry to entry, another with one look-up for each of them.
///
/// `BadUnit` comes exactly where a unit that counts is bad, by its number's token, or is missing while the file has a net,
/// with the token 0; the unit of capacitances comes first. Then `RepeatedIndex` comes exactly where an index stands twice in
/// the name map, by the first token at which one stands again; zeros in front make no other index.
pub fn read_head(alloc: Global, file: &SpefFile) -> Result<Head, HeadEnd>
    // What is answered is what the head says.
    ensures ok { IfOk result (IsHeadOf file.now) }
    // A refusal has its cause, and none that comes before it.
    ensures refused { IfErr result (IsHeadEnd file.now) }
    // A file that has a head is not refused, unless memory ran out.
    ensures only { (head : HeadText) → IsHeadOf file.now head → IfErr result (λ end. end ≡ HeadEnd.OutOfMemory) }
{
    let cap_unit = match unit_at(Quantity::Capacitance, file, file.head.cap_unit) {
        Ok(unit) => unit,
        Err(token) => return Err(HeadEnd::BadUnit { token }),
    };
    let res_unit = match unit_at(Quantity::Resistance, file, file.head.res_unit) {
        Ok(unit) => unit,
        Err(token) => return Err(HeadEnd::BadUnit { token }),
    };
    let places = match read_places(alloc, file) {
        Ok(places) => places,
        Err(end) => return Err(end),
    };
    match design_of(alloc, file) {
        Ok(design) => Ok(Head {
            design,
            cap_unit,
            res_unit,
            places,
        }),
        Err(_) => Err(HeadEnd::OutOfMemory),
    }
}
