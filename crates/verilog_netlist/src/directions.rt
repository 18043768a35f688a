//! Looks for a name of a header without a direction, and for a name with a direction that the header lacks.
ghost use Rattle.std.specs.Prelude.{◌≡◌, ◌^◌, ◌<◌, length};
ghost use Rattle.token_texts.specs.Spans.{text_at};
ghost use Rattle.verilog_netlist.specs.Namespaces.{name_of};
ghost use Rattle.verilog_netlist.specs.Directions.{IsFirstUnpaired};
ghost use Rattle.verilog_netlist.specs.NameKeys.{keys_in, needed_names, is_lacking, HoldsNames};

use crate::entries::Entry;
use crate::name_text::NameText;
use crate::repeats::{NameKey, NamesSoFar, Scopes, code_of};

impl NamesSoFar<'_> {
    /// Whether the name of an entry needs a pair, and has none.
    #[inline]
    fn lacks(&self, bytes: &[u8], entry: Entry, scopes: Scopes) -> bool
        ensures { result ≡ is_lacking (needed_names entry) scopes (text_at bytes.now (name_of entry)) (keys_in self.now.keys.keys) }
    {
        match entry.needed_names() {
            None => false,
            Some(among) => {
                let key = NameKey {
                    code: code_of(among),
                    scope: scopes.of(among),
                    name: NameText {
                        bytes: entry.name().of(bytes),
                    },
                };
                !self.keys.contains(&key)
            }
        }
    }

    /// The place of the first entry whose name stands in the header of its module without a direction, or has a direction and does
    /// not stand in the header, if there is one. It takes time in proportion to the bytes of the names.
    pub(crate) fn first_unpaired(&self, bytes: &[u8], entries: &[Entry]) -> Option<usize>
        requires few { length entries.now < 2 ^ 30 }
        requires keys { HoldsNames bytes.now entries.now (length entries.now) (keys_in self.now.keys.keys) }
        ensures { IsFirstUnpaired bytes.now entries.now result }
    {
        let mut scopes = Scopes::new();
        for (place, entry) in entries.iter().enumerate() {
            scopes = scopes.from(*entry);
            let is_unpaired = self.lacks(bytes, *entry, scopes);
            if is_unpaired {
                return Some(place);
            }
        }
        None
    }
}
