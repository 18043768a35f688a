//! The names of a net's nodes, made of the words of a file.
ghost use Rattle.std.specs.Prelude.{◌≡◌, ◌<◌, length, slice_get, Some, IfOk};
ghost use Rattle.spef_nets.specs.Nodes.{nodes_at};
ghost use Rattle.spef_nets.specs.NodeNames.{AreSpelled, IsSdfAt};

use edge_io::{OutOfMemory, Text};
use name_table::NodeName;
use spef_text::{Head, ResolveEnd, SpefFile, WrittenNames};
use std::alloc::Global;

/// The names of a net's nodes by their numbers: the tokens where they stand first in a file, whose head this is.
#[derive(Clone, Copy)]
pub struct NodeNames<'s, 'f> {
    pub file: &'s SpefFile<'f>,
    pub head: &'s Head,
    pub tokens: &'s [u32],
}

impl<'s, 'f> NodeNames<'s, 'f> {
    /// How many nodes there are.
    pub fn count(&self) -> usize
        requires { AreSpelled self.now.file.now self.now.head.now self.now.tokens.now }
        ensures { result ≡ length (nodes_at self.now.file.now self.now.tokens.now) }
    {
        self.tokens.len()
    }

    /// The name of a node.
    pub fn name(&self, alloc: Global, node: usize) -> Result<NodeName, OutOfMemory>
        requires spelled { AreSpelled self.now.file.now self.now.head.now self.now.tokens.now }
        requires within { node < length self.now.tokens.now }
        ensures { IfOk result (λ name. slice_get (nodes_at self.now.file.now self.now.tokens.now) node ≡ Some name) }
    {
        match self
            .head
            .resolve(alloc, self.file, self.tokens[node] as u64, true)
        {
            Ok(name) => Ok(name),
            // each of these tokens names a node
            Err(ResolveEnd::UnknownIndex { token: _ }) => unreachable!(),
            Err(ResolveEnd::OutOfMemory) => Err(OutOfMemory),
        }
    }

    /// The spelling of a node in SDF. Where its name stands as it is written, nothing else of it is made.
    pub fn sdf(&self, alloc: Global, node: usize) -> Result<Text, OutOfMemory>
        requires spelled { AreSpelled self.now.file.now self.now.head.now self.now.tokens.now }
        requires within { node < length self.now.tokens.now }
        ensures { IfOk result (IsSdfAt (nodes_at self.now.file.now self.now.tokens.now) node) }
    {
        match WrittenNames::new(self.file, self.head).name(self.tokens[node] as u64, true) {
            Some(name) => name.sdf(alloc),
            None => Ok(self.name(alloc, node)?.sdf),
        }
    }
}
