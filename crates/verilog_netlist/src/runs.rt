//! The bits that are joined to a port, as runs.
ghost use Rattle.std.specs.Prelude.{◌≡◌, ◌^◌, ◌<◌, ◌≤◌, map};
ghost use Rattle.verilog_netlist.specs.ModuleNames.{range_of};
ghost use Rattle.verilog_netlist.specs.ModuleTables.{name_row};
ghost use Rattle.verilog_netlist.specs.NetModules.{bit_after, from_left, whole_run, bit_run, part_run, HasFewBits};

use crate::entries::Range;
use crate::net_names::NameRow;
use crate::ranges::whole_width;

/// What is joined to one bit of a port: a bit of a constant, or the bit of a name at this place in its range, from the left. Names
/// and places count from 0, and a name without a range has the one bit 0.
#[derive(Clone, Copy)]
pub enum Bit {
    Tied,
    Wire { name: usize, bit: usize },
}

/// So many bits: the first, and those to its right.
#[derive(Clone, Copy)]
pub struct Run {
    pub first: Bit,
    pub count: usize,
}

impl Run {
    /// The bit of this number, from the left.
    #[inline]
    pub fn bit(self, number: usize) -> Bit
        requires within { number < self.count }
        requires few { HasFewBits self }
        ensures { result ≡ bit_after self.first number }
    {
        match self.first {
            Bit::Tied => Bit::Tied,
            Bit::Wire { name, bit } => Bit::Wire {
                name,
                bit: bit + number,
            },
        }
    }
}

/// The range of a name of a module.
#[inline]
fn range_of(names: &[NameRow<'_>], number: usize) -> Option<Range>
    ensures { result ≡ range_of (map name_row names.now) number }
{
    match names.get(number) {
        Some(name) => name.range(),
        None => None,
    }
}

/// The place of a bit in a range, from the left.
#[inline]
fn from_left(range: Option<Range>, place: u32) -> usize
    ensures value { result ≡ from_left range place }
    ensures few { result ≤ 2 ^ 32 }
{
    match range {
        Some(range) => {
            if range.left < range.right {
                place.saturating_sub(range.left) as usize
            } else {
                range.left.saturating_sub(place) as usize
            }
        }
        None => 0,
    }
}

/// All bits of a name.
#[inline]
pub(crate) fn whole_run(names: &[NameRow<'_>], number: usize) -> Run
    ensures value { result ≡ whole_run (map name_row names.now) number }
    ensures few { HasFewBits result }
{
    Run {
        first: Bit::Wire {
            name: number,
            bit: 0,
        },
        count: whole_width(range_of(names, number)) as usize,
    }
}

/// One bit of a name.
#[inline]
pub(crate) fn bit_run(names: &[NameRow<'_>], number: usize, place: u32) -> Run
    ensures value { result ≡ bit_run (map name_row names.now) number place }
    ensures few { HasFewBits result }
{
    Run {
        first: Bit::Wire {
            name: number,
            bit: from_left(range_of(names, number), place),
        },
        count: 1,
    }
}

/// Some bits of a name.
#[inline]
pub(crate) fn part_run(names: &[NameRow<'_>], number: usize, select: Range) -> Run
    ensures value { result ≡ part_run (map name_row names.now) number select }
    ensures few { HasFewBits result }
{
    Run {
        first: Bit::Wire {
            name: number,
            bit: from_left(range_of(names, number), select.left),
        },
        count: select.width() as usize,
    }
}
