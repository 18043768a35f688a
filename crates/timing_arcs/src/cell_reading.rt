//! What the arcs of a cell are read from.
ghost use Rattle.std.specs.Prelude.{◌≡◌, ◌<◌, length, slice_get, Some, All, IfSome, IfNone, IsTrue, ◌-◌, Contains};
ghost use Rattle.std.specs.List.{AllZip};
ghost use Rattle.std.specs.Option.{option_map};
ghost use Rattle.name_table.specs.Names.{AreDistinct};
ghost use Rattle.liberty_groups.specs.Tables.{tree_of, group_at, IsGroup};
ghost use Rattle.liberty_tables.specs.Library.{first_group};
ghost use Rattle.liberty_tables.specs.TableModel.{TableMeans, TransitionMeans};
ghost use Rattle.timing_arcs.specs.PinModel.{IsPin};
ghost use Rattle.timing_arcs.specs.PinTable.{entries_in};
ghost use Rattle.timing_arcs.specs.DelayTables.{delay_names};
ghost use Rattle.timing_arcs.specs.LibraryBasis.{IsBasis};
ghost use Rattle.timing_arcs.specs.CellReading.{library_of, IsReading};

use crate::library_basis::LibraryBasis;
use crate::pins::PinTable;
use cell_models::Pin;
use liberty_groups::{GroupId, GroupTree};
use liberty_tables::{CellFault, build_table, build_transition, first_group};
use nldm_lookup::Table;
use std::alloc::Global;
use std::marker::Model;

/// What the arcs of a cell are read from: its library, the names of its pins with the group of each, and the pins.
#[derive(Drop)]
pub(crate) struct CellReading<'a> {
    tree: &'a GroupTree,
    basis: &'a LibraryBasis,
    table: &'a PinTable,
    pins: &'a [Pin],
}

impl<'a> Model for CellReading<'a> {
    ghost use Rattle.timing_arcs.specs.LibraryBasis.{IsBasis};
    ghost use Rattle.timing_arcs.specs.CellReading.{CellParts, IsReading};

    ghost Value = { CellParts };

    ghost view = { λ r. record {
      tree = r.tree.now;
      units = r.basis.now.units;
      names = r.table.now.names;
      groups = r.table.now.groups.items;
      pins = r.pins.now;
    } };

    ghost invariant = { λ r. IsBasis r.tree.now r.basis.now × IsReading (record {
      tree = r.tree.now;
      units = r.basis.now.units;
      names = r.table.now.names;
      groups = r.table.now.groups.items;
      pins = r.pins.now;
    }) };
}

impl<'a> CellReading<'a> {
    /// The reading of the arcs of a cell of these pins.
    pub fn new(
        tree: &'a GroupTree,
        basis: &'a LibraryBasis,
        table: &'a PinTable,
        pins: &'a [Pin],
    ) -> CellReading<'a>
        requires basis { IsBasis tree.now basis.now }
        requires even { length table.now.names ≡ length table.now.groups.items }
        requires within { All (λ id. IsGroup tree.now id.0) table.now.groups.items }
        requires pins { AllZip (IsPin (tree_of tree.now)) (entries_in tree.now table.now.names table.now.groups.items) pins.now }
        ensures { result ≡ record {
          tree = tree.now;
          units = basis.now.units;
          names = table.now.names;
          groups = table.now.groups.items;
          pins = pins.now;
        } }
    {
        CellReading {
            tree,
            basis,
            table,
            pins,
        }
    }

    /// The tree of its library.
    pub fn tree(&self) -> &GroupTree
        ensures tree { result.now ≡ self.now.tree }
        ensures reading { IsReading self.now }
    {
        self.tree
    }

    /// How many pins there are.
    pub fn pin_count(&self) -> usize
        ensures count { result ≡ length self.now.pins }
        ensures reading { IsReading self.now }
    {
        self.pins.len()
    }

    /// A pin.
    pub fn pin(&self, place: usize) -> &Pin
        requires { place < length self.now.pins }
        ensures pin { slice_get self.now.pins place ≡ Some result.now }
        ensures reading { IsReading self.now }
    {
        let pins = self.pins;
        &pins[place]
    }

    /// The place of a name of a pin.
    pub fn place_of(&self, name: &[u8]) -> Option<usize>
        ensures distinct { AreDistinct self.now.names }
        ensures found { IfSome result (λ place. slice_get self.now.names place ≡ Some name.now) }
        ensures within { IfSome result (λ place. place < length self.now.pins) }
        ensures absent { IfNone result (¬ Contains self.now.names name.now) }
        ensures reading { IsReading self.now }
    {
        let id = self.table.names.find(name)?;
        Some(id.0 as usize)
    }

    /// The group of a pin.
    pub fn group(&self, place: usize) -> GroupId
        requires { place < length self.now.pins }
        ensures group { slice_get self.now.groups place ≡ Some result }
        ensures within { IsGroup self.now.tree result.0 }
    {
        self.table.group(place)
    }

    /// Whether the group of a pin is that of the pin before.
    pub fn repeats(&self, place: usize) -> bool
        requires { place < length self.now.pins }
        ensures behind { IsTrue result → 0 < place }
        ensures same { IsTrue result → slice_get self.now.groups (place - 1) ≡ slice_get self.now.groups place }
        ensures reading { IsReading self.now }
    {
        place > 0 && self.table.group(place - 1) == self.table.group(place)
    }

    /// The first group of this name in a group.
    pub fn first_group(&self, group: GroupId, name: &[u8]) -> Option<GroupId>
        requires { IsGroup self.now.tree group.0 }
        ensures first { option_map (λ inner. group_at self.now.tree inner.0) result
            ≡ first_group name.now (group_at self.now.tree group.0) }
        ensures within { IfSome result (λ inner. IsGroup self.now.tree inner.0) }
    {
        first_group(self.tree, group, name)
    }

    /// The table of delays of a group.
    pub fn delay_table(&self, alloc: Global, group: GroupId) -> Result<Table, CellFault>
        requires { IsGroup self.now.tree group.0 }
        ensures means { TableMeans delay_names (library_of self.now) (group_at self.now.tree group.0) self.now.units result }
        ensures reading { IsReading self.now }
    {
        build_table(
            alloc,
            self.tree,
            group,
            &self.basis.called,
            &self.basis.templates,
            &self.basis.units,
        )
    }

    /// The table of transitions of a group.
    pub fn transition_table(&self, alloc: Global, group: GroupId) -> Result<Table, CellFault>
        requires { IsGroup self.now.tree group.0 }
        ensures means { TransitionMeans delay_names (library_of self.now) (group_at self.now.tree group.0) self.now.units result }
    {
        build_transition(
            alloc,
            self.tree,
            group,
            &self.basis.called,
            &self.basis.templates,
            &self.basis.units,
        )
    }
}
