//! The elements of nets, by the numbers of their nodes.
ghost use Rattle.std.specs.Prelude.{◌≡◌, ◌++◌, IfOk, OnOk};
ghost use Rattle.spef_nets.specs.Rows.{no_rows, with_rows};
ghost use Rattle.spef_nets.specs.RowsOf.{rows_of, rows_at};

use crate::parts::{Ends, Listed};
use corner_set::CornerSet;
use delay_units::{Farads, Ohms};
use edge_io::OutOfMemory;
use std::alloc::Global;

/// The elements of one net, or of many, one net behind another. Values stand row after row, and in each row by corner.
#[derive(Drop)]
pub struct Elements {
    pub conns: Vec<Listed>,
    pub loads: Vec<Farads>,
    pub caps: Vec<u32>,
    pub farads: Vec<Farads>,
    pub joints: Vec<Ends>,
    pub ohms: Vec<Ohms>,
}

impl Elements {
    /// No element, with room for so many connections, capacitances and resistors.
    pub fn with_room<C: CornerSet>(
        alloc: Global,
        conns: usize,
        caps: usize,
        ress: usize,
    ) -> Result<Elements, OutOfMemory>
        ensures { IfOk result (λ elements. rows_of elements ≡ no_rows) }
    {
        Ok(Elements {
            conns: Vec::with_capacity(alloc, conns)?,
            loads: Vec::with_capacity(alloc, conns.saturating_mul(C::COUNT))?,
            caps: Vec::with_capacity(alloc, caps)?,
            farads: Vec::with_capacity(alloc, caps.saturating_mul(C::COUNT))?,
            joints: Vec::with_capacity(alloc, ress)?,
            ohms: Vec::with_capacity(alloc, ress.saturating_mul(C::COUNT))?,
        })
    }

    /// Puts other elements behind these.
    pub fn append(&mut self, more: &ElementParts<'_>) -> Result<(), OutOfMemory>
        ensures { OnOk result (rows_of self.new ≡ with_rows (rows_of self.old) (rows_at more.now)) }
    {
        put_all(&mut self.conns, more.conns)?;
        put_all(&mut self.loads, more.loads)?;
        put_all(&mut self.caps, more.caps)?;
        put_all(&mut self.farads, more.farads)?;
        put_all(&mut self.joints, more.joints)?;
        put_all(&mut self.ohms, more.ohms)?;
        Ok(())
    }
}

/// The elements of one net, as parts of lists.
#[derive(Clone, Copy)]
pub struct ElementParts<'s> {
    pub conns: &'s [Listed],
    pub loads: &'s [Farads],
    pub caps: &'s [u32],
    pub farads: &'s [Farads],
    pub joints: &'s [Ends],
    pub ohms: &'s [Ohms],
}

/// Puts items behind others.
#[inline(always)]
pub fn put_all<T: Copy>(items: &mut Vec<T>, more: &[T]) -> Result<(), OutOfMemory>
    ensures { OnOk result (items.new.items ≡ items.old.items ++ more.now) }
{
    items.extend_from_slice(more)?;
    Ok(())
}
