//! The parts of a net, by the numbers of its nodes.
ghost use Rattle.std.specs.Prelude.{◌≡◌, IfOk};

use delay_units::Ohms;
use edge_io::OutOfMemory;
use edge_io::lists::to_u32;

/// A connection of a net: a port of the design, or a pin of an instance.
#[derive(Clone, Copy)]
pub struct Listed {
    /// The number of its node.
    pub node: usize,

    /// Whether it is a port and no pin.
    pub port: bool,

    /// The byte `I`, `O` or `B`: input, output or both.
    pub direction: u8,
}

/// A resistor at one corner, between two nodes.
#[derive(Clone, Copy)]
pub struct Resistor {
    pub a: usize,
    pub b: usize,
    pub ohms: Ohms,
}

/// The nodes of a resistor.
#[derive(Clone, Copy)]
pub struct Ends {
    pub a: u32,
    pub b: u32,
}

/// The spellings of a resistor's nodes, where their indices are in the map.
#[derive(Clone, Copy)]
pub struct Joined {
    pub first: Option<u32>,
    pub second: Option<u32>,
}

impl Joined {
    /// These spellings.
    pub fn of(first: Option<usize>, second: Option<usize>) -> Result<Joined, OutOfMemory>
        ensures { IfOk result (λ joined. joined ≡ record { first = first; second = second }) }
    {
        let first = kept_spelling(first)?;
        let second = kept_spelling(second)?;
        Ok(Joined { first, second })
    }
}

fn kept_spelling(spelling: Option<usize>) -> Result<Option<u32>, OutOfMemory>
    ensures { IfOk result (λ number. number ≡ spelling) }
{
    match spelling {
        Some(spelling) => Ok(Some(to_u32(spelling)?)),
        None => Ok(None),
    }
}

/// A spelling that was kept.
pub fn spelling_of(kept: Option<u32>) -> Option<usize>
    ensures { result ≡ kept }
{
    match kept {
        Some(spelling) => Some(spelling as usize),
        None => None,
    }
}
