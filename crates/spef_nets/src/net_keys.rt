//! The keys of a net's nodes, one after another.
ghost use Rattle.std.specs.Prelude.{◌≡◌, ◌<◌, length, IfOk};
ghost use Rattle.spef_nets.specs.Nodes.{nodes_at};
ghost use Rattle.spef_nets.specs.NodeNames.{AreSpelled, IsKeyOf};

use crate::node_names::NodeNames;
use edge_io::OutOfMemory;
use name_table::NodeKey;
use spef_text::WrittenNames;
use std::alloc::Global;
use std::marker::Model;

/// Makes the keys of a net's nodes. Most begin with the index of the net, which is looked up once for all that stand one behind the
/// other. Contracts see the nodes.
#[derive(Drop)]
pub struct NetKeys<'s, 'f> {
    names: NodeNames<'s, 'f>,
    written: WrittenNames<'s, 'f>,
}

impl<'s, 'f> Model for NetKeys<'s, 'f> {
    ghost use Rattle.std.specs.Prelude.{◌≡◌, List};
    ghost use Rattle.name_table.specs.declared.spef_names.NodeName.{NodeName};
    ghost use Rattle.spef_nets.specs.Nodes.{nodes_at};
    ghost use Rattle.spef_nets.specs.NodeNames.{AreSpelled};

    ghost Value = { List NodeName };

    ghost view = { λ k. nodes_at k.names.file.now k.names.tokens.now };

    ghost invariant = { λ k. AreSpelled k.names.file.now k.names.head.now k.names.tokens.now
        × (k.written.file ≡ k.names.file.now) };
}

impl<'s, 'f> NetKeys<'s, 'f> {
    /// The keys of these nodes.
    pub(crate) fn new(names: NodeNames<'s, 'f>) -> NetKeys<'s, 'f>
        requires { AreSpelled names.file.now names.head.now names.tokens.now }
        ensures { result ≡ nodes_at names.entry.file.now names.entry.tokens.now }
    {
        NetKeys {
            names,
            written: WrittenNames::new(names.file, names.head),
        }
    }

    /// What makes a node the one that it is, by its number. Of most nodes nothing is copied.
    #[inline(always)]
    pub fn key(&mut self, alloc: Global, i: usize) -> Result<NodeKey<'s>, OutOfMemory>
        requires { i < length self.old }
        ensures key { IfOk result (IsKeyOf self.old i) }
        ensures same { self.new ≡ self.old }
    {
        let tokens = self.names.tokens;
        match self.written.name(tokens[i] as u64, true) {
            Some(name) => Ok(NodeKey::of_written(name)),
            None => NodeKey::of(alloc, self.names.name(alloc, i)?),
        }
    }
}
