//! The nets of a file.
ghost use Rattle.std.specs.Prelude.{◌≡◌, ◌<◌, ℕ, length, map, slice_get, All, Some, Contains, IfSome, IfNone};
ghost use Rattle.spef_nets.specs.NetElements.{NetElements, AreWhole, net_names};

use crate::net::Net;
use crate::net_names::NetNames;
use crate::node_names::NodeNames;
use crate::tables::Tables;
use corner_set::CornerSet;
use edge_io::are_equal;
use spef_text::{Head, SpefFile};
use std::marker::{Model, PhantomData};

/// The nets of a file, one for each section, in the file's order. Contracts see the list of them. The elements of all of them stand in
/// one set of lists.
#[derive(Drop)]
pub struct Sections<'r, 'f, C: CornerSet> {
    pub(crate) file: &'r SpefFile<'f>,
    pub(crate) head: &'r Head,
    // the names of the nets, each numbered by its section's place
    pub(crate) nets: NetNames<'r>,
    pub(crate) tables: Tables,
    pub(crate) corners: PhantomData<C>,
}

impl<'r, 'f, C: CornerSet> Model for Sections<'r, 'f, C> {
    ghost use Rattle.std.specs.Prelude.{ℕ, List};
    ghost use Rattle.spef_nets.specs.NetElements.{NetElements};
    ghost use Rattle.spef_nets.specs.TablesOf.{nets_in, HoldNets};

    ghost Value = { List NetElements };

    ghost view = { λ s. nets_in s.file.now C.COUNT s.nets s.tables };

    // each net is whole
    ghost invariant = { λ s. HoldNets s.file.now s.head.now C.COUNT s.nets s.tables };
}

impl<'r, 'f, C: CornerSet> Sections<'r, 'f, C> {
    /// How many nets there are.
    pub fn len(&self) -> usize
        ensures { result ≡ length self.now }
    {
        self.tables.len()
    }

    /// The net of the section at a place.
    pub fn get(&self, s: usize) -> Net<'_, 'f, C>
        requires { s < length self.now }
        ensures net { slice_get self.now s ≡ Some result }
        ensures whole { AreWhole C.COUNT result }
    {
        let (from, to) = self.tables.ends_of(s);
        Net {
            net: self.nets.name(s),
            names: NodeNames {
                file: self.file,
                head: self.head,
                tokens: self.tables.nodes_between(from, to),
            },
            elements: self.tables.elements_between::<C>(from, to),
            written: to.written as usize,
            corners: PhantomData,
        }
    }

    /// The place of the section of a net, if it has one. It is one look-up, and takes no memory.
    pub fn find(&self, net: &[u8]) -> Option<usize>
        ensures found { IfSome result (λ s. slice_get (net_names self.now) s ≡ Some net.now) }
        ensures within { IfSome result (λ s. s < length self.now) }
        ensures absent { IfNone result (¬ Contains (net_names self.now) net.now) }
    {
        self.nets.find(net)
    }

    /// The same where the section is likely to stand at this place, which is looked at first: a file has its nets in the order of the
    /// netlist, as a rule.
    pub fn find_near(&self, net: &[u8], place: usize) -> Option<usize>
        ensures found { IfSome result (λ s. slice_get (net_names self.now) s ≡ Some net.now) }
        ensures within { IfSome result (λ s. s < length self.now) }
        ensures absent { IfNone result (¬ Contains (net_names self.now) net.now) }
    {
        if place < self.nets.len() && are_equal(self.nets.name(place), net) {
            Some(place)
        } else {
            self.find(net)
        }
    }

    /// Each net is whole. It does nothing when it is called.
    pub fn whole(&self)
        ensures { All (AreWhole C.COUNT) self.now }
    {
        let _ = &self.tables;
    }
}
