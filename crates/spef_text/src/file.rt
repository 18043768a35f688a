//! A SPEF file that has been read.
ghost use Rattle.std.specs.Prelude.{◌≡◌, ◌^◌, ◌<◌, ◌≤◌, length, slice_get, Some};
ghost use Rattle.spef_text.specs.Starts.{texts, short_lens};
ghost use Rattle.spef_text.specs.Entries.{section_at};
ghost use Rattle.spef_text.specs.SpefFiles.{SpefText, IsFormed, IsKept};

use crate::entries::{Cap, Conn, Res};
use crate::head_items::HeadItems;
use crate::sections::Sections;
use std::marker::Model;

/// A SPEF file: its tokens, and what they say by the grammar. Contracts see the texts of the tokens, and the reading.
#[derive(Drop)]
pub struct SpefFile<'a> {
    pub(crate) bytes: &'a [u8],
    pub(crate) starts: Vec<u32>,
    pub(crate) lens: Vec<u8>,
    pub(crate) head: HeadItems,
    pub(crate) sections: Sections,
}

impl<'a> Model for SpefFile<'a> {
    ghost Value = { SpefText };

    ghost view = { λ f. record {
      texts = texts f.bytes.now f.starts.items;
      reading = record { head = f.head; sections = f.sections.done };
    } };

    // what is kept is what the tokens say, they are few, and so are the bytes; their lengths are theirs
    ghost invariant = { λ f. IsKept
        (record { texts = texts f.bytes.now f.starts.items; reading = record { head = f.head; sections = f.sections.done } })
        × (length f.bytes.now < 2 ^ 30) × (f.lens.items ≡ short_lens (texts f.bytes.now f.starts.items)) };
}

impl<'a> SpefFile<'a> {
    /// The law of files, which its contract states: a file says what its tokens say by the grammar, has fewer than 2^30 of them,
    /// and no more sections. It does nothing when it is called.
    pub fn formed(&self)
        ensures formed { IsFormed self.now }
        ensures few { length self.now.texts < 2 ^ 30 }
        ensures sections { length self.now.reading.sections ≤ length self.now.texts }
    {
        let _ = &self.bytes;
    }

    /// How many sections the file has, one for each net.
    pub fn section_count(&self) -> usize
        ensures { result ≡ length self.now.reading.sections }
    {
        self.sections.count()
    }

    /// The token that names the net of a section.
    pub fn net_token(&self, s: usize) -> u64
        requires { s < length self.now.reading.sections }
        ensures { result ≡ (section_at self.now.reading.sections s).net }
    {
        self.sections.net(s) as u64
    }

    /// How many connections a section has.
    pub fn conn_count(&self, s: usize) -> usize
        requires { s < length self.now.reading.sections }
        ensures { result ≡ length (section_at self.now.reading.sections s).conns }
    {
        self.sections.conn_count(s)
    }

    /// A connection of a section, in the file's order.
    pub fn conn(&self, s: usize, i: usize) -> Conn
        requires section { s < length self.now.reading.sections }
        requires place { i < length (section_at self.now.reading.sections s).conns }
        ensures { slice_get (section_at self.now.reading.sections s).conns i ≡ Some result }
    {
        self.sections.conn(s, i)
    }

    /// How many capacitances a section has.
    pub fn cap_count(&self, s: usize) -> usize
        requires { s < length self.now.reading.sections }
        ensures { result ≡ length (section_at self.now.reading.sections s).caps }
    {
        self.sections.cap_count(s)
    }

    /// A capacitance of a section, in the file's order.
    pub fn cap(&self, s: usize, i: usize) -> Cap
        requires section { s < length self.now.reading.sections }
        requires place { i < length (section_at self.now.reading.sections s).caps }
        ensures { slice_get (section_at self.now.reading.sections s).caps i ≡ Some result }
    {
        self.sections.cap(s, i)
    }

    /// How many resistances a section has.
    pub fn res_count(&self, s: usize) -> usize
        requires { s < length self.now.reading.sections }
        ensures { result ≡ length (section_at self.now.reading.sections s).ress }
    {
        self.sections.res_count(s)
    }

    /// A resistance of a section, in the file's order.
    pub fn res(&self, s: usize, i: usize) -> Res
        requires section { s < length self.now.reading.sections }
        requires place { i < length (section_at self.now.reading.sections s).ress }
        ensures { slice_get (section_at self.now.reading.sections s).ress i ≡ Some result }
    {
        self.sections.res(s, i)
    }
}
