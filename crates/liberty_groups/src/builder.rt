//! Builds the tree, as tokens add to it.
ghost use Rattle.std.specs.Prelude.{◌≡◌, OnOk, IfOk};
ghost use Rattle.liberty_groups.specs.Building.{nothing_built, begun_as, behind};
ghost use Rattle.liberty_groups.specs.Modes.{root_of};
ghost use Rattle.liberty_groups.specs.Tables.{tree_of};
ghost use Rattle.liberty_groups.specs.Built.{built_of, IsBuilt};
ghost use Rattle.liberty_groups.specs.declared.events.Event.{Event};

use crate::events::Event;
use crate::filling::{RecentNames, add_all, add_name};
use crate::flat::FlatTree;
use crate::rows::{AttributeRow, OpenGroup, Span};
use crate::tree::GroupTree;
use edge_io::{OutOfMemory, Text};
use std::alloc::Global;

/// The groups that have ended, those that have not, the innermost last, and the statement that has begun.
#[derive(Drop)]
pub struct Builder {
    pub flat: FlatTree,
    pub recent: RecentNames,
    pub open_groups: Vec<OpenGroup>,
    pub name: Vec<u8>,
    pub parts: Vec<Text>,
    pub alloc: Global,
}

impl Builder {
    /// Before the first token.
    pub(crate) fn new(alloc: Global) -> Builder
        ensures built { built_of result ≡ nothing_built }
        ensures sound { IsBuilt result }
    {
        Builder {
            flat: FlatTree::new(alloc),
            recent: RecentNames::new(),
            open_groups: Vec::new(alloc),
            name: Vec::new(alloc),
            parts: Vec::new(alloc),
            alloc,
        }
    }

    /// Begins a statement of this name, or the library.
    pub(crate) fn begin(&mut self, name: &[u8]) -> Result<(), OutOfMemory>
        requires sound { IsBuilt self.old }
        ensures built { OnOk result (built_of self.new ≡ begun_as name.now (built_of self.old)) }
        ensures sound { OnOk result (IsBuilt self.new) }
    {
        self.parts.clear();
        self.name.clear();
        self.name.extend_from_slice(name)?;
        Ok(())
    }

    /// Takes what a token adds.
    #[inline(always)]
    pub(crate) fn take(&mut self, event: Event) -> Result<(), OutOfMemory>
        requires sound { IsBuilt self.old }
        ensures built { OnOk result (built_of self.new ≡ behind (built_of self.old) event) }
        ensures sound { OnOk result (IsBuilt self.new) }
    {
        match event {
            Event::Part(text) => self.part(text),
            Event::Piece(text) => self.piece(text),
            Event::Attribute => self.attribute(),
            Event::OpenLibrary => {
                self.open_groups = Vec::new(self.alloc);
                self.open_group()
            }
            Event::Open => self.open_group(),
            Event::Close => self.close(),
        }
    }

    /// Adds an argument to the statement.
    fn part(&mut self, text: Text) -> Result<(), OutOfMemory>
        requires sound { IsBuilt self.old }
        ensures built { OnOk result (built_of self.new ≡ behind (built_of self.old) (Event.Part text)) }
        ensures sound { OnOk result (IsBuilt self.new) }
    {
        match self.parts.push(text) {
            Ok(_) => Ok(()),
            Err(_) => Err(OutOfMemory),
        }
    }

    /// Adds a piece to the value: the first, or behind a space what goes on with those before it.
    fn piece(&mut self, text: Text) -> Result<(), OutOfMemory>
        requires sound { IsBuilt self.old }
        ensures built { OnOk result (built_of self.new ≡ behind (built_of self.old) (Event.Piece text)) }
        ensures sound { OnOk result (IsBuilt self.new) }
    {
        if self.parts.is_empty() {
            return self.part(text);
        }
        self.parts.truncate(1);
        let value = &mut self.parts[0];
        value.push_all(b" ")?;
        value.push_all(text.bytes())
    }

    /// Ends the statement, an attribute of the innermost group.
    fn attribute(&mut self) -> Result<(), OutOfMemory>
        requires sound { IsBuilt self.old }
        ensures built { OnOk result (built_of self.new ≡ behind (built_of self.old) Event.Attribute) }
        ensures sound { OnOk result (IsBuilt self.new) }
    {
        let row = AttributeRow {
            name: add_name(&mut self.flat.names, &mut self.recent, self.name.as_slice())?,
            values: add_all(&mut self.flat.texts, &mut self.parts)?,
        };
        self.name.clear();
        let Some(mut group) = self.open_groups.pop() else {
            return Ok(());
        };
        match group.attributes.push(row) {
            Ok(_) => {}
            Err(_) => return Err(OutOfMemory),
        }
        match self.open_groups.push(group) {
            Ok(_) => {}
            Err(_) => return Err(OutOfMemory),
        }
        Ok(())
    }

    /// Opens the body of the statement, a group.
    fn open_group(&mut self) -> Result<(), OutOfMemory>
        requires sound { IsBuilt self.old }
        ensures built { OnOk result (built_of self.new ≡ behind (built_of self.old) Event.Open) }
        ensures sound { OnOk result (IsBuilt self.new) }
    {
        let args = add_all(&mut self.flat.texts, &mut self.parts)?;
        let group = OpenGroup {
            name: Text::from_bytes(self.alloc, self.name.as_slice())?,
            args,
            attributes: Vec::new(self.alloc),
            children: Vec::new(self.alloc),
        };
        self.name.clear();
        match self.open_groups.push(group) {
            Ok(_) => {}
            Err(_) => return Err(OutOfMemory),
        }
        Ok(())
    }

    /// Ends the innermost group. The library stays open until the file ends.
    fn close(&mut self) -> Result<(), OutOfMemory>
        requires sound { IsBuilt self.old }
        ensures built { OnOk result (built_of self.new ≡ behind (built_of self.old) Event.Close) }
        ensures sound { OnOk result (IsBuilt self.new) }
    {
        self.name.clear();
        self.parts.clear();
        if self.open_groups.len() < 2 {
            return Ok(());
        }
        let (Some(inner), Some(mut outer)) = (self.open_groups.pop(), self.open_groups.pop()) else {
            return Ok(());
        };
        let id = self.flat.add_group(inner)?;
        match outer.children.push(id) {
            Ok(_) => {}
            Err(_) => return Err(OutOfMemory),
        }
        match self.open_groups.push(outer) {
            Ok(_) => {}
            Err(_) => return Err(OutOfMemory),
        }
        Ok(())
    }

    /// The tree, where nothing but the library is open.
    pub(crate) fn finish(self) -> Result<GroupTree, OutOfMemory>
        requires sound { IsBuilt self }
        ensures { IfOk result (λ tree. tree_of tree ≡ root_of (built_of self).frames) }
    {
        let mut builder = self;
        let last = match builder.open_groups.pop() {
            Some(group) => group,
            None => OpenGroup {
                name: Text::new(builder.alloc),
                args: Span { from: 0, end: 0 },
                attributes: Vec::new(builder.alloc),
                children: Vec::new(builder.alloc),
            },
        };
        let mut flat = builder.flat;
        let _root = flat.add_group(last)?;
        Ok(GroupTree::of(flat))
    }
}
