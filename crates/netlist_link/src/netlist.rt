//! The flat netlist of a design.
ghost use Rattle.std.specs.Prelude.{◌≡◌, ◌<◌, ◌^◌, [], length, get_or, None};
ghost use Rattle.netlist_link.specs.FlatEnds.{end_of};
ghost use Rattle.netlist_link.specs.FlatNetlist.{instance_at, net_at, port_at};
ghost use Rattle.netlist_link.specs.Grouping.{kept_at};
ghost use Rattle.netlist_link.specs.declared.ends.End.TheVariants.{Port};

use crate::ends::End;
use crate::grouping::{EndsByNet, KeptEnd};
use crate::instances::Instances;
use crate::ports::Ports;
use edge_io::{Text, TextList};
use std::marker::Model;
use text_table::FlatTexts;

/// A flat netlist. Contracts see its instances, nets and ports. All count from 0.
#[derive(Drop)]
pub struct Netlist {
    pub(crate) instances: Instances,
    pub(crate) ports: Ports,
    pub(crate) net_texts: FlatTexts,
    /// what drives each net
    pub(crate) drivers: Vec<Option<KeptEnd>>,
    /// what each net drives
    pub(crate) sinks: EndsByNet,
}

impl Model for Netlist {
    ghost use Rattle.netlist_link.specs.FlatNetlist.{FlatNetlist};
    ghost use Rattle.netlist_link.specs.NetlistTables.{netlist_of, AreNetlistTables};

    ghost Value = { FlatNetlist };

    ghost view = { λ n. netlist_of n.instances n.ports n.net_texts n.drivers.items n.sinks };

    ghost invariant = { λ n. AreNetlistTables n.instances n.ports n.net_texts n.drivers.items n.sinks };
}

// The text of a list at a place.
fn text_at(texts: &TextList, i: usize) -> &Text
    requires { i < length texts.now }
    ensures { result.now ≡ get_or texts.now i [] }
{
    &texts.as_slice()[i]
}

// The end at a place.
fn end_at(ends: &[KeptEnd], k: usize) -> End
    requires { k < length ends.now }
    ensures { result ≡ end_of (kept_at ends.now k) }
{
    ends[k].end()
}

impl Netlist {
    /// How many instances of cells there are.
    pub fn instance_count(&self) -> usize
        ensures count { result ≡ length self.now.instances }
        ensures few { result < 2 ^ 32 }
    {
        self.instances.rows.len()
    }

    /// The path of an instance, joined by `/`.
    pub fn instance_text(&self, i: usize) -> &[u8]
        requires { i < length self.now.instances }
        ensures { result.now ≡ (instance_at self.now i).text }
    {
        self.instances.names.text(i)
    }

    /// The path of an instance as SDF spells it.
    pub fn instance_sdf(&self, i: usize) -> &[u8]
        requires { i < length self.now.instances }
        ensures { result.now ≡ (instance_at self.now i).sdf }
    {
        self.instances.names.spelling(i)
    }

    /// The place of an instance's cell.
    pub fn cell_of(&self, i: usize) -> usize
        requires { i < length self.now.instances }
        ensures { result ≡ (instance_at self.now i).cell }
    {
        self.instances.rows[i].cell as usize
    }

    /// How many pins an instance has, and so a net or none for each.
    pub fn pin_count(&self, i: usize) -> usize
        requires { i < length self.now.instances }
        ensures { result ≡ length (instance_at self.now i).nets }
    {
        self.instances.rows[i].pin_count as usize
    }

    /// The net that a pin of an instance is on; none where it is not connected or tied to a constant.
    pub fn net_of(&self, i: usize, pin: usize) -> Option<usize>
        requires instance { i < length self.now.instances }
        requires pin { pin < length (instance_at self.now i).nets }
        ensures { result ≡ get_or (instance_at self.now i).nets pin None }
    {
        let net = self.instances.pin_nets[self.instances.rows[i].first_pin as usize + pin]?;
        Some(net as usize)
    }

    /// How many nets there are.
    pub fn net_count(&self) -> usize
        ensures count { result ≡ length self.now.nets }
        ensures few { result < 2 ^ 32 }
    {
        self.drivers.len()
    }

    /// The name of a net.
    pub fn net_text(&self, n: usize) -> &[u8]
        requires { n < length self.now.nets }
        ensures { result.now ≡ (net_at self.now n).text }
    {
        self.net_texts.text(n)
    }

    /// What drives a net: an output pin of an instance or an input port of the design.
    pub fn driver(&self, n: usize) -> Option<End>
        requires { n < length self.now.nets }
        ensures { result ≡ (net_at self.now n).driver }
    {
        let driver = self.drivers[n]?;
        Some(driver.end())
    }

    /// How many sinks a net has.
    pub fn sink_count(&self, n: usize) -> usize
        requires { n < length self.now.nets }
        ensures count { result ≡ length (net_at self.now n).sinks }
        ensures few { result < 2 ^ 32 }
    {
        self.sinks.count(n)
    }

    /// A sink of a net: an input pin of an instance or an output port of the design.
    pub fn sink(&self, n: usize, k: usize) -> End
        requires net { n < length self.now.nets }
        requires sink { k < length (net_at self.now n).sinks }
        ensures { result ≡ get_or (net_at self.now n).sinks k (Port 0) }
    {
        end_at(self.sinks.on(n), k)
    }

    /// The name of a bit of a port of the design, in header order and from the left.
    pub fn port_text(&self, p: usize) -> &Text
        requires { p < length self.now.ports }
        ensures { result.now ≡ (port_at self.now p).text }
    {
        text_at(&self.ports.texts, p)
    }

    /// The name of a bit of a port as SDF spells it.
    pub fn port_sdf(&self, p: usize) -> &Text
        requires { p < length self.now.ports }
        ensures { result.now ≡ (port_at self.now p).sdf }
    {
        text_at(&self.ports.spellings, p)
    }
}
