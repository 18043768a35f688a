//! What the items of the head set.
ghost use Rattle.std.specs.Prelude.{◌≡◌, OnOk};
ghost use Rattle.spef_text.specs.Entries.{Head, plain_head, with_item};

use crate::entries::{HeadItem, MapEntry, Marks};
use edge_io::OutOfMemory;
use std::alloc::Global;
use std::marker::Model;

/// What the items of the head have set so far. Contracts see the head.
#[derive(Drop)]
pub struct HeadItems {
    pub(crate) marks: Marks,
    pub(crate) design: Option<u32>,
    pub(crate) cap_unit: Option<u32>,
    pub(crate) res_unit: Option<u32>,
    map: Vec<MapEntry>,
}

impl Model for HeadItems {
    ghost Value = { Head };

    ghost view = { λ h. record { marks = h.marks; design = h.design; cap_unit = h.cap_unit; res_unit = h.res_unit; map = h.map.items } };
}

impl HeadItems {
    /// The head of a file that sets nothing.
    pub fn new(alloc: Global) -> HeadItems
        ensures { result ≡ plain_head }
    {
        HeadItems {
            marks: Marks {
                divider: b'/',
                delimiter: b':',
                left: b'[',
                right: b']',
            },
            design: None,
            cap_unit: None,
            res_unit: None,
            map: Vec::new(alloc),
        }
    }

    /// The entries of the name map.
    pub fn map(&self) -> &[MapEntry]
        ensures { result.now ≡ self.now.map }
    {
        self.map.as_slice()
    }

    /// Sets what the item sets.
    pub fn put(&mut self, item: HeadItem) -> Result<(), OutOfMemory>
        ensures { OnOk result (self.new ≡ with_item self.old item) }
    {
        match item {
            HeadItem::Divider(mark) => self.marks.divider = mark,
            HeadItem::Delimiter(mark) => self.marks.delimiter = mark,
            HeadItem::BusDelimiter(left, right) => {
                self.marks.left = left;
                self.marks.right = right;
            }
            HeadItem::Design(name) => self.design = name,
            HeadItem::CapUnit(number) => self.cap_unit = Some(number),
            HeadItem::ResUnit(number) => self.res_unit = Some(number),
            HeadItem::Mapped(entry) => {
                if self.map.push(entry).is_err() {
                    return Err(OutOfMemory);
                }
            }
        }
        Ok(())
    }
}
