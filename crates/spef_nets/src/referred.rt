//! The nodes that a section refers to, and which of them belong to it.
ghost use Rattle.std.specs.Prelude.{◌≡◌, ◌<◌, true, false, [], ◌∷◌, ◌++◌, length, slice_get, Some, None, IfOk, OnOk, IfSome};
ghost use Rattle.name_table.specs.declared.spef_names.NodeName.{NodeName};
ghost use Rattle.spef_text.specs.Heads.{IsHeadOf, text_of};
ghost use Rattle.spef_text.specs.References.{NamesAsWritten};
ghost use Rattle.spef_nets.specs.Nodes.{node_at, nodes_at};
ghost use Rattle.spef_nets.specs.NodeNames.{NameNodes};
ghost use Rattle.spef_nets.specs.NodeKeys.{IsKeyAt};
ghost use Rattle.spef_nets.specs.Refs.{no_refs, ArePlaced, IsNamed, IsFound, Belongs, Joins, Lists, Numbers};
ghost use Rattle.spef_nets.specs.RefsOf.{refs_of};
ghost use Rattle.spef_nets.specs.Drafts.{BelongsBy};

use crate::marks::Mark;
use crate::net_name::NetName;
use crate::node_table::NodeTable;
use crate::node_tokens::NodeTokens;
use crate::spellings::Spellings;
use edge_io::lists::{empty, push, to_u32};
use edge_io::{OutOfMemory, are_equal};
use name_table::{NodeKey, WrittenName};
use spef_text::{Head, SpefFile};
use std::alloc::Global;

/// The spellings that stand in a section, and the nodes that they name, also those that do not belong to it.
#[derive(Drop)]
pub struct Referred<'r, 'f> {
    // by the tokens of the file of the nodes
    words: Spellings,
    // of each spelling the place of its node
    places: Vec<u32>,
    table: NodeTable<'r>,
    // of each node
    marks: Vec<Mark>,
    // of each node the number of its latest spelling
    latest: Vec<u32>,
    // the nodes with a number
    nodes: NodeTokens<'r, 'f>,
}

impl<'r, 'f> Referred<'r, 'f> {
    /// No reference to a node of the file whose head this is. It takes no memory.
    pub fn new(alloc: Global, file: &'r SpefFile<'f>, head: &'r Head) -> Referred<'r, 'f>
        requires { IsHeadOf file.now head.now }
        ensures { (refs_of result).file ≡ file.now }
    {
        Referred {
            words: Spellings::new(alloc),
            places: Vec::new(alloc),
            table: NodeTable::new(alloc),
            marks: Vec::new(alloc),
            latest: Vec::new(alloc),
            nodes: NodeTokens::new(alloc, file, head),
        }
    }

    /// Lets go of all spellings, and makes room for those of so many nodes. The lists keep their memory.
    pub fn empty(&mut self, alloc: Global, nodes: usize) -> Result<(), OutOfMemory>
        ensures { OnOk result (refs_of self.new ≡ no_refs (refs_of self.old).file) }
    {
        self.words.empty(nodes)?;
        self.table.empty(alloc, nodes)?;
        self.nodes.empty(nodes)?;
        empty(&mut self.places, nodes)?;
        empty(&mut self.marks, nodes)?;
        empty(&mut self.latest, nodes)?;
        Ok(())
    }

    /// Lets go of all but the nodes with a number, where the lists have grown large: memory is not kept for a net as large again.
    pub fn leave_nodes(&mut self, alloc: Global) -> Result<(), OutOfMemory>
        ensures nodes { OnOk result ((refs_of self.new).nodes ≡ (refs_of self.old).nodes) }
        ensures file { OnOk result ((refs_of self.new).file ≡ (refs_of self.old).file) }
    {
        if self.table.are_few() {
            return Ok(());
        }
        self.words = Spellings::new(alloc);
        self.places = Vec::new(alloc);
        self.marks = Vec::new(alloc);
        self.latest = Vec::new(alloc);
        self.table.empty(alloc, 0)
    }

    /// The number of a spelling that stood before, where it is found at once.
    pub fn find(&mut self, word: &[u8]) -> Option<usize>
        ensures found { IfSome result (λ number. slice_get (refs_of self.old).words number ≡ Some word.now) }
        ensures same { refs_of self.new ≡ refs_of self.old }
    {
        self.words.find(self.nodes.file(), word)
    }

    /// The head and the tail of the node that a token names, where both stand in the file as they are written.
    pub fn written(&mut self, token: u64) -> Option<WrittenName<'r>>
        ensures name { IfSome result (NamesAsWritten (refs_of self.old).file true (text_of (refs_of self.old).file token)) }
        ensures same { refs_of self.new ≡ refs_of self.old }
    {
        self.nodes.written(token)
    }

    /// The number of a spelling, which is that of a token: its own where the node that it names was spelled so last, and else that of a
    /// new last one. This is the key of the node.
    pub fn put(
        &mut self,
        word: &[u8],
        token: u64,
        key: NodeKey<'r>,
        net: &NetName<'_>,
    ) -> Result<usize, OutOfMemory>
        requires marked { length (refs_of self.old).marks ≡ length (refs_of self.old).keys }
        requires word { word.now ≡ text_of (refs_of self.old).file token }
        requires key { IsKeyAt (refs_of self.old).file token (Some key) }
        ensures { (node : NodeName) → node_at (refs_of self.old).file token ≡ Some node
            → IfOk result (IsFound net.now (refs_of self.old) (refs_of self.new) word.now node) }
    {
        let belongs = are_equal(net.bytes(), key.head());
        let place = self.table.intern(key)?;
        if let Some(spelling) = self.spelled(place, word) {
            return Ok(spelling);
        }
        let spelling = self.words.len();
        mark_new(&mut self.marks, place, belongs)?;
        mark_latest(&mut self.latest, place, to_u32(spelling)?)?;
        push(&mut self.places, to_u32(place)?)?;
        self.words.add(to_u32(token as usize)?)?;
        Ok(spelling)
    }

    // The number of a spelling, where the node at this place was spelled so last.
    fn spelled(&mut self, place: usize, word: &[u8]) -> Option<usize>
        ensures within { IfSome result (λ _. place < length (refs_of self.old).marks) }
        ensures found { IfSome result (λ number. slice_get (refs_of self.old).words number ≡ Some word.now) }
        ensures same { refs_of self.new ≡ refs_of self.old }
    {
        if place >= self.marks.len() {
            return None;
        }
        let spelling = *self.latest.get(place)? as usize;
        if self.words.find_at(self.nodes.file(), spelling, word) {
            Some(spelling)
        } else {
            None
        }
    }

    /// How many spellings there are.
    pub fn len(&self) -> usize
        ensures { result ≡ length (refs_of self.now).places }
    {
        self.places.len()
    }

    /// Whether a node belongs to the section.
    pub fn belongs(&self, spelling: usize) -> bool
        requires within { spelling < length (refs_of self.now).places }
        requires placed { ArePlaced (refs_of self.now) }
        ensures { Belongs (refs_of self.now) spelling result }
    {
        let place = self.places[spelling] as usize;
        self.marks[place].belongs
    }

    /// The same of a node whose index may be missing in the map.
    pub fn belongs_if_known(&self, spelling: Option<usize>) -> bool
        requires within { IfSome spelling (λ word. word < length (refs_of self.now).places) }
        requires placed { ArePlaced (refs_of self.now) }
        ensures { BelongsBy (refs_of self.now) spelling result }
    {
        match spelling {
            Some(spelling) => self.belongs(spelling),
            None => false,
        }
    }

    /// Says of a node that it stands in a resistor.
    pub fn join(&mut self, spelling: usize)
        requires within { spelling < length (refs_of self.old).places }
        requires placed { ArePlaced (refs_of self.old) }
        ensures { Joins (refs_of self.old) (refs_of self.new) spelling }
    {
        let place = self.places[spelling] as usize;
        let mark = self.marks[place];
        self.marks[place] = Mark {
            listed: mark.listed,
            belongs: true,
            number: mark.number,
        };
    }

    /// Says of a node that it is listed as a connection, and tells whether it was so before.
    pub fn list(&mut self, spelling: usize) -> bool
        requires within { spelling < length (refs_of self.old).places }
        requires placed { ArePlaced (refs_of self.old) }
        ensures { Lists (refs_of self.old) (refs_of self.new) spelling result }
    {
        let place = self.places[spelling] as usize;
        let mark = self.marks[place];
        self.marks[place] = Mark {
            listed: true,
            belongs: true,
            number: mark.number,
        };
        mark.listed
    }

    /// The number of a node in the section: its own, and else that of a new last one, named by this spelling.
    #[inline]
    pub fn number(&mut self, spelling: usize) -> Result<u32, OutOfMemory>
        requires within { spelling < length (refs_of self.old).places }
        requires named { IsNamed (refs_of self.old) spelling }
        requires placed { ArePlaced (refs_of self.old) }
        ensures { IfOk result (Numbers (refs_of self.old) (refs_of self.new) spelling) }
    {
        let place = self.places[spelling] as usize;
        let mark = self.marks[place];
        match mark.number {
            Some(number) => Ok(number),
            None => {
                let number = to_u32(self.nodes.len())?;
                self.nodes.push(self.words.token(spelling))?;
                self.marks[place] = Mark {
                    listed: mark.listed,
                    belongs: mark.belongs,
                    number: Some(number),
                };
                Ok(number)
            }
        }
    }

    /// The tokens of the nodes with a number, in its order.
    pub fn nodes(&self) -> &[u32]
        ensures nodes { nodes_at (refs_of self.now).file result.now ≡ (refs_of self.now).nodes }
        ensures each { NameNodes (refs_of self.now).file result.now }
    {
        self.nodes.tokens()
    }
}

// Marks a node that was put at a new last place.
fn mark_new(marks: &mut Vec<Mark>, place: usize, belongs: bool) -> Result<(), OutOfMemory>
    ensures added { place ≡ length marks.old.items
        → OnOk result (marks.new.items ≡ marks.old.items ++ record { listed = false; belongs = belongs; number = None } ∷ []) }
    ensures held { place < length marks.old.items → OnOk result (marks.new.items ≡ marks.old.items) }
{
    if place == marks.len() {
        let mark = Mark {
            listed: false,
            belongs,
            number: None,
        };
        push(marks, mark)?;
    }
    Ok(())
}

// Keeps the latest spelling of a node.
fn mark_latest(latest: &mut Vec<u32>, place: usize, spelling: u32) -> Result<(), OutOfMemory> {
    if place < latest.len() {
        latest[place] = spelling;
        Ok(())
    } else {
        push(latest, spelling)
    }
}
