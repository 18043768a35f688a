//! The name of a pin of a net, which stands elsewhere.
ghost use Rattle.std.specs.Prelude.{◌≡◌, IfOk, ◌∷◌, ◌++◌};
ghost use Rattle.std.specs.Option.{option_copied};
ghost use Rattle.edge_io.specs.Bytes.{slash};
ghost use Rattle.name_table.specs.SdfNames.{part};
ghost use Rattle.rc_tree.specs.Nodes.{node_of};
ghost use Rattle.rc_tree.specs.PinNames.{pin_name, pin_sdf};

use edge_io::{OutOfMemory, Text};
use name_table::{NodeKey, NodeName, WrittenName, escape_sdf};
use std::alloc::Global;

/// The name of a pin of a net: the path of an instance and the pin's own name, or the name of a port, which is a head alone.
#[derive(Clone, Copy)]
pub struct PinName<'p> {
    pub head: &'p [u8],
    pub tail: Option<&'p [u8]>,

    /// The head as SDF spells it.
    pub head_sdf: &'p [u8],
}

impl<'p> PinName<'p> {
    /// What makes the pin's node the one that it is. Nothing is copied.
    pub(crate) fn key(&self) -> NodeKey<'p>
        ensures { result ≡ node_of (pin_name self.now) }
    {
        NodeKey::of_written(WrittenName {
            head: self.head,
            tail: self.tail,
        })
    }

    /// The name of the pin's node, in memory of its own.
    pub(crate) fn node_name(&self, alloc: Global) -> Result<NodeName, OutOfMemory>
        ensures { IfOk result (λ name. name ≡ pin_name self.now) }
    {
        let head = Text::from_bytes(alloc, self.head)?;
        let tail = match self.tail {
            Some(tail) => Some(Text::from_bytes(alloc, tail)?),
            None => None,
        };
        let sdf = self.sdf(alloc)?;
        Ok(NodeName { head, tail, sdf })
    }

    // The name of the pin's node as SDF spells it.
    fn sdf(&self, alloc: Global) -> Result<Text, OutOfMemory>
        ensures { IfOk result (λ sdf. sdf ≡ pin_sdf self.now.head_sdf.now (option_copied self.now.tail)) }
    {
        match self.tail {
            Some(tail) => sdf_with_tail(alloc, self.head_sdf, tail),
            None => Text::from_bytes(alloc, self.head_sdf),
        }
    }
}

// A head as SDF spells it, and behind it a tail.
fn sdf_with_tail(alloc: Global, head_sdf: &[u8], tail: &[u8]) -> Result<Text, OutOfMemory>
    ensures { IfOk result (λ sdf. sdf ≡ head_sdf.now ++ slash ∷ part tail.now) }
{
    let spelled = escape_sdf(alloc, tail)?;
    let mut sdf = Text::from_bytes(alloc, head_sdf)?;
    sdf.push_all(b"/")?;
    sdf.push_all(spelled.bytes())?;
    Ok(sdf)
}
