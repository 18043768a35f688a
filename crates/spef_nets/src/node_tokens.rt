//! The nodes of a section, by the tokens where they stand first.
ghost use Rattle.std.specs.Prelude.{◌≡◌, [], ◌∷◌, ◌++◌, true, length, Some, OnOk, OnErr, IfSome};
ghost use Rattle.name_table.specs.declared.spef_names.NodeName.{NodeName};
ghost use Rattle.spef_text.specs.Heads.{IsHeadOf, text_of};
ghost use Rattle.spef_text.specs.References.{NamesAsWritten};
ghost use Rattle.spef_nets.specs.Nodes.{node_at, nodes_at};
ghost use Rattle.spef_nets.specs.NodeNames.{NameNodes};

use edge_io::OutOfMemory;
use name_table::WrittenName;
use spef_text::{Head, SpefFile, WrittenNames};
use std::alloc::Global;
use std::marker::Model;

/// The nodes of a section, each by a token that names it, in a file whose head this is. Contracts see the file and the nodes.
#[derive(Drop)]
pub struct NodeTokens<'r, 'f> {
    names: WrittenNames<'r, 'f>,
    tokens: Vec<u32>,
}

impl<'r, 'f> Model for NodeTokens<'r, 'f> {
    ghost use Rattle.spef_nets.specs.Nodes.{nodes_at};
    ghost use Rattle.spef_nets.specs.NodeNames.{SpelledNodes, AreSpelled};

    ghost Value = { SpelledNodes };

    ghost view = { λ n. record { file = n.names.file; nodes = nodes_at n.names.file n.tokens.items } };

    ghost invariant = { λ n. AreSpelled n.names.file n.names.head n.tokens.items };
}

impl<'r, 'f> NodeTokens<'r, 'f> {
    /// No node. It takes no memory.
    pub fn new(alloc: Global, file: &'r SpefFile<'f>, head: &'r Head) -> NodeTokens<'r, 'f>
        requires { IsHeadOf file.now head.now }
        ensures { result ≡ record { file = file.now; nodes = [] } }
    {
        NodeTokens {
            names: WrittenNames::new(file, head),
            tokens: Vec::new(alloc),
        }
    }

    /// Lets go of all nodes, and makes room for so many. The list keeps its memory.
    pub fn empty(&mut self, many: usize) -> Result<(), OutOfMemory>
        ensures { OnOk result (self.new ≡ record { file = self.old.file; nodes = [] }) }
    {
        self.tokens.clear();
        self.tokens.reserve(many)?;
        Ok(())
    }

    /// Puts the node of a token at the end.
    pub fn push(&mut self, token: u32) -> Result<(), OutOfMemory>
        requires { (node : NodeName) × (node_at self.old.file token ≡ Some node) }
        ensures { (node : NodeName) → node_at self.old.file token ≡ Some node
            → OnOk result (self.new ≡ record { file = self.old.file; nodes = self.old.nodes ++ node ∷ [] }) }
    {
        push_token(&mut self.tokens, token)
    }

    /// The file.
    pub fn file(&self) -> &'r SpefFile<'f>
        ensures { result.now ≡ self.now.file }
    {
        self.names.file()
    }

    /// The head and the tail of the node that a token of the file names, where both stand there as they are written.
    pub fn written(&mut self, token: u64) -> Option<WrittenName<'r>>
        ensures name { IfSome result (NamesAsWritten self.old.file true (text_of self.old.file token)) }
        ensures same { self.new ≡ self.old }
    {
        self.names.name(token, true)
    }

    /// How many nodes there are.
    pub fn len(&self) -> usize
        ensures { result ≡ length self.now.nodes }
    {
        self.tokens.len()
    }

    /// The tokens, in the order of the nodes.
    pub fn tokens(&self) -> &[u32]
        ensures nodes { nodes_at self.now.file result.now ≡ self.now.nodes }
        ensures each { NameNodes self.now.file result.now }
    {
        self.tokens.as_slice()
    }
}

fn push_token(tokens: &mut Vec<u32>, token: u32) -> Result<(), OutOfMemory>
    ensures ok { OnOk result (tokens.new.items ≡ tokens.old.items ++ token ∷ []) }
    ensures err { OnErr result (tokens.new.items ≡ tokens.old.items) }
{
    tokens.push(token).map_err(|_| OutOfMemory)
}
