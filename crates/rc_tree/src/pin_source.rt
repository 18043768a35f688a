//! The pins of a net, wherever they are kept.
ghost use Rattle.std.specs.Prelude.{◌≡◌, ℕ, ◌+◌, ◌<◌, ◌≤◌, length, ◌^◌, Some, IfOk, IfErr, OnOk, slice_get};
ghost use Rattle.corner_set.specs.Places.{value_at};
ghost use Rattle.spef_nets.specs.NetElements.{NetElements as SectionElements};
ghost use Rattle.delay_units.specs.Bounds.{most_farads};
ghost use Rattle.rc_tree.specs.Pins.{Pins, pin_nodes};
ghost use Rattle.rc_tree.specs.ListedPins.{listed_pins};
ghost use Rattle.rc_tree.specs.SectionNets.{AreListed, sink_node};
ghost use Rattle.rc_tree.specs.Builds.{IsTreeEnd};
ghost use Rattle.rc_tree.specs.Searched.{IsNumbered, IsNameAt, all_nodes};

use crate::ends::TreeEnd;
use crate::listed_pins::ListedPins;
use crate::marking::number_listed;
use crate::names::section_name;
use crate::numbered::Numbered;
use crate::numbering::number_named;
use crate::pins::PinLoads;
use corner_set::CornerSet;
use delay_units::Farads;
use edge_io::OutOfMemory;
use name_table::NodeName;
use spef_nets::Net;
use std::alloc::Global;

/// What tells the pins of a net, given its section.
pub trait PinSource<C: CornerSet> {
    /// The pins.
    ghost pins: { Self → SectionElements → Pins };

    /// What they ask of a section.
    ghost fits: { Self → SectionElements → Type 0 };

    /// How many sinks there are.
    fn sink_count(&self, section: &Net<C>) -> usize
        ensures { result ≡ length (pins self.now section.now).sinks };

    /// The load of a sink at a corner.
    fn sink_load(&self, section: &Net<C>, sink: usize, corner: C::Index) -> Farads
        requires within { sink < length (pins self.now section.now).sinks }
        requires next { sink + 1 < 2 ^ 64 }
        ensures load { value_at C.COUNT (pins self.now section.now).loads sink (C.number_of corner) ≡ Some result }
        ensures most { result.0 ≤ most_farads };

    /// Numbers the nodes of the net, unless a connection of the section is none of the pins.
    fn number(
        &self,
        alloc: Global,
        section: &Net<C>,
        numbered: &mut Numbered,
    ) -> Result<(), TreeEnd>
        requires { fits self.now section.now }
        ensures numbered { OnOk result (IsNumbered section.now (pins self.now section.now) numbered.new.spots.items numbered.new.count) }
        ensures listed { OnOk result (AreListed section.now (pin_nodes (pins self.now section.now))) }
        ensures refused { IfErr result (λ end. IsTreeEnd C.COUNT section.now (pins self.now section.now) end) };

    /// The number of a sink's node.
    fn sink_number(&self, section: &Net<C>, numbered: &Numbered, sink: usize) -> usize
        requires numbered { IsNumbered section.now (pins self.now section.now) numbered.now.spots.items numbered.now.count }
        requires within { sink < length (pins self.now section.now).sinks }
        requires next { sink + 1 < 2 ^ 64 }
        ensures { slice_get (all_nodes section.now (pins self.now section.now)) result
            ≡ Some (sink_node (pins self.now section.now) sink) };

    /// The first name of the node of a number, in the order of the pins and then of the section's nodes. Each connection of the
    /// section is one of the pins.
    fn name_at(
        &self,
        alloc: Global,
        section: &Net<C>,
        numbered: &Numbered,
        number: usize,
    ) -> Result<NodeName, OutOfMemory>
        requires numbered { IsNumbered section.now (pins self.now section.now) numbered.now.spots.items numbered.now.count }
        requires listed { AreListed section.now (pin_nodes (pins self.now section.now)) }
        requires below { number < numbered.now.count }
        requires some { 0 < length section.now.nodes }
        ensures { IfOk result (λ name. IsNameAt section.now (pins self.now section.now) number name) };
}

impl<'p, C: CornerSet> PinSource<C> for PinLoads<'p, C> {
    ghost pins = { λ pins section. pins };

    ghost fits = { λ pins section. Unit {0} };

    fn sink_count(&self, _section: &Net<C>) -> usize {
        self.len()
    }

    fn sink_load(&self, _section: &Net<C>, sink: usize, corner: C::Index) -> Farads {
        self.loads[sink * C::COUNT + C::number(corner)]
    }

    fn number(
        &self,
        alloc: Global,
        section: &Net<C>,
        numbered: &mut Numbered,
    ) -> Result<(), TreeEnd> {
        number_named(alloc, self, section, numbered)
    }

    // the sinks come right after the driver, whatever the section is
    fn sink_number(&self, _section: &Net<C>, _numbered: &Numbered, sink: usize) -> usize {
        let _ = &self.sinks;
        sink + 1
    }

    fn name_at(
        &self,
        alloc: Global,
        section: &Net<C>,
        numbered: &Numbered,
        number: usize,
    ) -> Result<NodeName, OutOfMemory> {
        if number == 0 {
            return self.driver().node_name(alloc);
        }
        if number <= self.len() {
            let name = self.sink(number - 1).node_name(alloc)?;
            return Ok(name);
        }
        section.distinct();
        let name = section_name(alloc, section, numbered, number)?;
        Ok(name)
    }
}

impl<C: CornerSet> PinSource<C> for ListedPins {
    ghost pins = { λ pins section. listed_pins C.COUNT section pins.driver };

    ghost fits = { λ pins section. pins.driver < length section.conns };

    fn sink_count(&self, section: &Net<C>) -> usize {
        self.len(section)
    }

    fn sink_load(&self, section: &Net<C>, sink: usize, corner: C::Index) -> Farads {
        section.conn_load(self.place(sink), corner)
    }

    fn number(
        &self,
        _alloc: Global,
        section: &Net<C>,
        numbered: &mut Numbered,
    ) -> Result<(), TreeEnd> {
        number_listed(section, self, numbered)?;
        Ok(())
    }

    fn sink_number(&self, section: &Net<C>, numbered: &Numbered, sink: usize) -> usize {
        numbered.spots[section.conn(self.place(sink)).node] as usize
    }

    fn name_at(
        &self,
        alloc: Global,
        section: &Net<C>,
        numbered: &Numbered,
        number: usize,
    ) -> Result<NodeName, OutOfMemory> {
        section.distinct();
        let name = section_name(alloc, section, numbered, number)?;
        Ok(name)
    }
}
