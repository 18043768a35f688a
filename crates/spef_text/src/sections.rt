//! The sections of a file, with the entries of all of them one after another.
ghost use Rattle.std.specs.Prelude.{◌≡◌, ◌<◌, ◌∷◌, length, map, slice_get, slice_index_or, Some, OnOk};
ghost use Rattle.spef_text.specs.Entries.{section_at};
ghost use Rattle.spef_text.specs.Modes.{conn_of, cap_of, res_of};
ghost use Rattle.spef_text.specs.SectionTable.{SectionTable, AreInOrder, table_of, start, no_table, opened, with_conn_at, with_cap_at, with_res_at, closed};

use crate::entries::{Cap, CapAt, Conn, ConnAt, Res, ResAt};
use edge_io::OutOfMemory;
use std::alloc::Global;
use std::marker::Model;

/// Where a section's entries end in the lists, and its net's token.
#[derive(Clone, Copy)]
pub struct End {
    pub net: u32,
    pub conns: usize,
    pub caps: usize,
    pub ress: usize,
}

/// Where the first section's entries begin.
const START: End = End {
    net: 0,
    conns: 0,
    caps: 0,
    ress: 0,
};

/// Sections that have ended, and what has been read of the one that has begun.
#[derive(Drop)]
pub struct Sections {
    ends: Vec<End>,
    net: u32,
    conns: Vec<ConnAt>,
    caps: Vec<CapAt>,
    ress: Vec<ResAt>,
}

impl Model for Sections {
    ghost Value = { SectionTable };

    ghost view = { λ s. table_of s.ends.items s.net s.conns.items s.caps.items s.ress.items };

    ghost invariant = { λ s. AreInOrder start s.ends.items (length s.conns.items) (length s.caps.items) (length s.ress.items) };
}

impl Sections {
    /// No section yet.
    pub fn new(alloc: Global) -> Sections
        ensures { result ≡ no_table }
    {
        Sections {
            ends: Vec::new(alloc),
            net: 0,
            conns: Vec::new(alloc),
            caps: Vec::new(alloc),
            ress: Vec::new(alloc),
        }
    }

    /// Begins a section of the net that the token names.
    pub fn open(&mut self, net: u32)
        ensures { self.new ≡ opened self.old net }
    {
        self.net = net;
    }

    /// Adds a connection to the section that has begun.
    #[inline(always)]
    pub fn push_conn(&mut self, conn: ConnAt) -> Result<(), OutOfMemory>
        ensures { OnOk result (self.new ≡ with_conn_at self.old conn) }
    {
        match self.conns.push(conn) {
            Ok(_) => {}
            Err(_) => return Err(OutOfMemory),
        }
        Ok(())
    }

    /// Adds a capacitance to it.
    pub fn push_cap(&mut self, cap: CapAt) -> Result<(), OutOfMemory>
        ensures { OnOk result (self.new ≡ with_cap_at self.old cap) }
    {
        match self.caps.push(cap) {
            Ok(_) => {}
            Err(_) => return Err(OutOfMemory),
        }
        Ok(())
    }

    /// Adds a resistance to it.
    pub fn push_res(&mut self, res: ResAt) -> Result<(), OutOfMemory>
        ensures { OnOk result (self.new ≡ with_res_at self.old res) }
    {
        match self.ress.push(res) {
            Ok(_) => {}
            Err(_) => return Err(OutOfMemory),
        }
        Ok(())
    }

    /// Ends the section that has begun.
    pub fn close(&mut self) -> Result<(), OutOfMemory>
        ensures { OnOk result (self.new ≡ closed self.old) }
    {
        let end = End {
            net: self.net,
            conns: self.conns.len(),
            caps: self.caps.len(),
            ress: self.ress.len(),
        };
        match self.ends.push(end) {
            Ok(_) => {}
            Err(_) => return Err(OutOfMemory),
        }
        self.net = 0;
        Ok(())
    }

    /// How many sections have ended.
    pub fn count(&self) -> usize
        ensures { result ≡ length self.now.done }
    {
        self.ends.len()
    }

    /// The token of a section's net.
    pub fn net(&self, section: usize) -> u32
        requires { section < length self.now.done }
        ensures { result ≡ (section_at self.now.done section).net }
    {
        self.ends[section].net
    }

    /// How many connections a section has.
    pub fn conn_count(&self, section: usize) -> usize
        requires { section < length self.now.done }
        ensures { result ≡ length (section_at self.now.done section).conns }
    {
        let from = end_before(self.ends.as_slice(), section).conns;
        self.ends[section].conns - from
    }

    /// A connection of a section.
    pub fn conn(&self, section: usize, place: usize) -> Conn
        requires section { section < length self.now.done }
        requires place { place < length (section_at self.now.done section).conns }
        ensures { slice_get (section_at self.now.done section).conns place ≡ Some result }
    {
        let from = end_before(self.ends.as_slice(), section).conns;
        let conns = self.conns.as_slice().split_at(from).1;
        conn_at(conns, place)
    }

    /// How many capacitances a section has.
    pub fn cap_count(&self, section: usize) -> usize
        requires { section < length self.now.done }
        ensures { result ≡ length (section_at self.now.done section).caps }
    {
        let from = end_before(self.ends.as_slice(), section).caps;
        self.ends[section].caps - from
    }

    /// A capacitance of a section.
    pub fn cap(&self, section: usize, place: usize) -> Cap
        requires section { section < length self.now.done }
        requires place { place < length (section_at self.now.done section).caps }
        ensures { slice_get (section_at self.now.done section).caps place ≡ Some result }
    {
        let from = end_before(self.ends.as_slice(), section).caps;
        let caps = self.caps.as_slice().split_at(from).1;
        cap_at(caps, place)
    }

    /// How many resistances a section has.
    pub fn res_count(&self, section: usize) -> usize
        requires { section < length self.now.done }
        ensures { result ≡ length (section_at self.now.done section).ress }
    {
        let from = end_before(self.ends.as_slice(), section).ress;
        self.ends[section].ress - from
    }

    /// A resistance of a section.
    pub fn res(&self, section: usize, place: usize) -> Res
        requires section { section < length self.now.done }
        requires place { place < length (section_at self.now.done section).ress }
        ensures { slice_get (section_at self.now.done section).ress place ≡ Some result }
    {
        let from = end_before(self.ends.as_slice(), section).ress;
        let ress = self.ress.as_slice().split_at(from).1;
        res_at(ress, place)
    }
}

/// Where the entries of a section begin: where those of the section in front of it end.
fn end_before(ends: &[End], section: usize) -> End
    requires { section < length ends.now }
    ensures { result ≡ slice_index_or (start ∷ ends.now) section start }
{
    if section == 0 {
        START
    } else {
        ends[section - 1]
    }
}

fn conn_at(conns: &[ConnAt], place: usize) -> Conn
    requires { place < length conns.now }
    ensures { slice_get (map conn_of conns.now) place ≡ Some result }
{
    conns[place].conn()
}

fn cap_at(caps: &[CapAt], place: usize) -> Cap
    requires { place < length caps.now }
    ensures { slice_get (map cap_of caps.now) place ≡ Some result }
{
    caps[place].cap()
}

fn res_at(ress: &[ResAt], place: usize) -> Res
    requires { place < length ress.now }
    ensures { slice_get (map res_of ress.now) place ≡ Some result }
{
    ress[place].res()
}
