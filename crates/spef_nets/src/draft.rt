//! The elements of a section that have been read.
ghost use Rattle.std.specs.Prelude.{◌≡◌, ◌<◌, length, OnOk};
ghost use Rattle.spef_text.specs.Heads.{IsHeadOf};
ghost use Rattle.spef_nets.specs.Refs.{ArePlaced, IsNamed};
ghost use Rattle.spef_nets.specs.RefsOf.{refs_of};
ghost use Rattle.spef_nets.specs.Drafts.{Drafted, corners_of, AddsRow, no_draft, written_net, FaradsOf, OhmsOf, PutsConn, PutsCap, PutsRes};
ghost use Rattle.spef_nets.specs.DraftOf.{drafted};
ghost use Rattle.spef_nets.specs.Rows.{rows_in};
ghost use Rattle.spef_nets.specs.RowsOf.{rows_at};
ghost use Rattle.spef_nets.specs.TablesOf.{AddsNet};

use crate::amounts::Grains;
use crate::elements::ElementParts;
use crate::net_name::NetName;
use crate::parts::{Ends, Listed};
use crate::referred::Referred;
use crate::tables::Tables;
use corner_set::{CornerSet, Pick, corner_at};
use delay_units::{Farads, Ohms};
use edge_io::OutOfMemory;
use edge_io::lists::{empty, push};
use spef_text::{Conn, Head, SpefFile};
use std::alloc::Global;

/// With fewer capacitances a net is small.
const FEW_CAPS: usize = 32;

/// The elements that have been read of the section of a net. Its lists serve one section after another.
#[derive(Drop)]
pub struct Draft<'r, 'f> {
    pub net: NetName<'r>,
    pub refs: Referred<'r, 'f>,
    conns: Vec<Listed>,
    loads: Vec<Farads>,
    caps: Vec<u32>,
    farads: Vec<Farads>,
    joints: Vec<Ends>,
    ohms: Vec<Ohms>,
}

// Puts the values of a row at the end, one for each corner.
fn push_farads<C: CornerSet>(
    values: &mut Vec<Farads>,
    grains: Grains,
    pick: Pick,
) -> Result<(), OutOfMemory>
    ensures { OnOk result (AddsRow (corners_of C.COUNT C.number_of C.member_of pick) values.old.items values.new.items (FaradsOf grains)) }
{
    for number in 0..C::COUNT {
        let member = C::member(corner_at::<C>(number), pick);
        push(values, Farads(grains.of(member)))?;
    }
    Ok(())
}

fn push_ohms<C: CornerSet>(
    values: &mut Vec<Ohms>,
    grains: Grains,
    pick: Pick,
) -> Result<(), OutOfMemory>
    ensures { OnOk result (AddsRow (corners_of C.COUNT C.number_of C.member_of pick) values.old.items values.new.items (OhmsOf grains)) }
{
    for number in 0..C::COUNT {
        let member = C::member(corner_at::<C>(number), pick);
        push(values, Ohms(grains.of(member)))?;
    }
    Ok(())
}

// For how many spellings there is room at first. A net that is a tree has one node more than resistors; a small one gets room for
// the far nodes of its couplings besides, so that nothing has to move.
fn room_for(caps: usize, ress: usize) -> usize {
    let nodes = ress.saturating_add(1);
    if caps < FEW_CAPS {
        nodes.saturating_add(caps)
    } else {
        nodes
    }
}

impl<'r, 'f> Draft<'r, 'f> {
    /// No element, of a section of the file whose head this is. It takes no memory.
    pub fn new(alloc: Global, file: &'r SpefFile<'f>, head: &'r Head) -> Draft<'r, 'f>
        requires { IsHeadOf file.now head.now }
        ensures { (drafted result).refs.file ≡ file.now }
    {
        Draft {
            net: NetName::new(),
            refs: Referred::new(alloc, file, head),
            conns: Vec::new(alloc),
            loads: Vec::new(alloc),
            caps: Vec::new(alloc),
            farads: Vec::new(alloc),
            joints: Vec::new(alloc),
            ohms: Vec::new(alloc),
        }
    }

    /// Begins with the section of the net whose name it has, with room for so many connections, capacitances and resistors. Nothing
    /// else stays of the section before but the memory of the lists.
    pub fn begin<C: CornerSet>(
        &mut self,
        alloc: Global,
        conn_count: usize,
        cap_count: usize,
        res_count: usize,
    ) -> Result<(), OutOfMemory>
        ensures { OnOk result (drafted self.new ≡ no_draft (drafted self.old).refs.file (drafted self.old).net.net) }
    {
        self.refs.empty(alloc, room_for(cap_count, res_count))?;
        empty(&mut self.conns, conn_count)?;
        empty(&mut self.loads, conn_count.saturating_mul(C::COUNT))?;
        empty(&mut self.caps, cap_count)?;
        empty(&mut self.farads, cap_count.saturating_mul(C::COUNT))?;
        empty(&mut self.joints, res_count)?;
        empty(&mut self.ohms, res_count.saturating_mul(C::COUNT))?;
        Ok(())
    }

    /// Puts a connection at the end, whose node has this spelling and no number yet.
    pub fn put_conn<C: CornerSet>(
        &mut self,
        spelling: usize,
        conn: &Conn,
        load: Grains,
        pick: Pick,
    ) -> Result<(), OutOfMemory>
        requires within { spelling < length (refs_of self.old.refs).places }
        requires named { IsNamed (refs_of self.old.refs) spelling }
        requires placed { ArePlaced (refs_of self.old.refs) }
        ensures { OnOk result (PutsConn (corners_of C.COUNT C.number_of C.member_of pick) (drafted self.old)
            (drafted self.new) spelling conn.now load) }
    {
        let node = self.refs.number(spelling)?;
        let listed = Listed {
            node: node as usize,
            port: conn.port,
            direction: conn.direction,
        };
        push(&mut self.conns, listed)?;
        push_farads::<C>(&mut self.loads, load, pick)?;
        Ok(())
    }

    /// Puts a capacitance to ground at the end.
    pub fn put_cap<C: CornerSet>(
        &mut self,
        spelling: usize,
        value: Grains,
        pick: Pick,
    ) -> Result<(), OutOfMemory>
        requires within { spelling < length (refs_of self.old.refs).places }
        requires named { IsNamed (refs_of self.old.refs) spelling }
        requires placed { ArePlaced (refs_of self.old.refs) }
        ensures { OnOk result (PutsCap (corners_of C.COUNT C.number_of C.member_of pick) (drafted self.old)
            (drafted self.new) spelling value) }
    {
        let node = self.refs.number(spelling)?;
        push(&mut self.caps, node)?;
        push_farads::<C>(&mut self.farads, value, pick)?;
        Ok(())
    }

    /// Puts a resistor at the end.
    pub fn put_res<C: CornerSet>(
        &mut self,
        first: usize,
        second: usize,
        value: Grains,
        pick: Pick,
    ) -> Result<(), OutOfMemory>
        requires first { first < length (refs_of self.old.refs).places }
        requires first_named { IsNamed (refs_of self.old.refs) first }
        requires second { second < length (refs_of self.old.refs).places }
        requires second_named { IsNamed (refs_of self.old.refs) second }
        requires placed { ArePlaced (refs_of self.old.refs) }
        ensures { OnOk result (PutsRes (corners_of C.COUNT C.number_of C.member_of pick) (drafted self.old)
            (drafted self.new) first second value) }
    {
        let a = self.refs.number(first)?;
        let b = self.refs.number(second)?;
        push(&mut self.joints, Ends { a, b })?;
        push_ohms::<C>(&mut self.ohms, value, pick)?;
        Ok(())
    }

    /// Puts the net's rows behind those of the nets in the tables. Of its capacitances so many are written. Lists that have grown large
    /// are let go of before, so that their memory does not stand beside that of the rows.
    pub fn put_into(
        &mut self,
        alloc: Global,
        written: usize,
        tables: &mut Tables,
    ) -> Result<(), OutOfMemory>
        ensures adds { OnOk result
            (AddsNet (drafted self.old).refs.file tables.old tables.new (written_net (drafted self.old).net written)) }
        ensures file { OnOk result ((drafted self.new).refs.file ≡ (drafted self.old).refs.file) }
    {
        self.refs.leave_nodes(alloc)?;
        tables.append(self.refs.nodes(), &self.elements(), written)?;
        Ok(())
    }

    // The elements.
    fn elements(&self) -> ElementParts<'_>
        ensures { rows_at result ≡ rows_in (drafted self.now).net }
    {
        ElementParts {
            conns: self.conns.as_slice(),
            loads: self.loads.as_slice(),
            caps: self.caps.as_slice(),
            farads: self.farads.as_slice(),
            joints: self.joints.as_slice(),
            ohms: self.ohms.as_slice(),
        }
    }
}
