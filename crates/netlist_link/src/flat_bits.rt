//! The nets of a flat design: what each bit of each name in each visited module is on.
ghost use Rattle.std.specs.Prelude.{◌≡◌, ℕ, ◌+◌, ◌<◌, ◌≤◌, List, [], ◌∷◌, ◌++◌, length, map, replicate, Option, Some, None, IfOk, OnOk};
ghost use Rattle.verilog_netlist.specs.NetModules.{NetModule, module_at, bits_of_run, HasFewBits};
ghost use Rattle.verilog_netlist.specs.SoundModules.{AreWithin};
ghost use Rattle.hierarchy.specs.Walks.{visits};
ghost use Rattle.netlist_link.specs.FlatBits.{NetBit, bits_of_name};
ghost use Rattle.netlist_link.specs.FlatPins.{wired};
ghost use Rattle.netlist_link.specs.PathTables.{top_of, visit_at};
ghost use Rattle.netlist_link.specs.PortTables.{IsFoundBy, IsPortNamed};
ghost use Rattle.netlist_link.specs.Designs.{IsSound, HasDesign};
ghost use Rattle.netlist_link.specs.BitTables.{path_of, module_of, net_bit_of, IsBitOf, IsBitIn};
ghost use Rattle.netlist_link.specs.FlatBitTables.{IsOnNet, AreFlatBits, HasFlatBit, IsFaultless, IsKept, HoldBits, HoldVisits, HoldNames, HasVisitBits, HasKeptBit, connections_at, joined_bits, names_of, IsNameJoined, AreNamesJoined, HoldJoined};
ghost use Rattle.netlist_link.specs.declared.checking.Design.{Design};
ghost use Rattle.netlist_link.specs.NamePlaces.{bits_before, places_of_module, AreNamePlaces, HasPlace};

use crate::checking::Design;
use crate::ports::top_module;
use edge_io::OutOfMemory;
use edge_io::lists::{push, to_u32};
use std::alloc::Global;
use verilog_netlist::{Bit, Modules, Run};

/// The bit that a net has its name of: a bit of a name in a visited module.
#[derive(Clone, Copy)]
pub(crate) struct NetPlace {
    pub visit: u32,
    pub name: u32,
    pub bit: u32,
}

/// The places of the names of each module among the bits of its names.
#[derive(Drop)]
pub(crate) struct NamePlaces {
    /// for each module, the place of its first name in `bits`
    starts: Vec<u32>,
    /// for each name, the bits of the names before it in its module, and behind the last name of a module all its bits
    bits: Vec<u32>,
}

impl NamePlaces {
    /// The bits of the names of a module before this one.
    pub fn before(&self, m: usize, name: usize) -> usize
        requires { HasPlace self.now m name }
        ensures { (modules : List NetModule) → AreNamePlaces modules self.now → m < length modules
            → name ≤ length (module_at modules m).names
            → result ≡ bits_before (module_at modules m).names name }
    {
        self.bits[self.starts[m] as usize + name] as usize
    }
}

// Puts the places of the names of one module more at the end.
fn add_module(modules: &Modules<'_>, m: usize, places: &mut NamePlaces) -> Result<(), OutOfMemory>
    requires { m < length modules.now }
    ensures starts { OnOk result (places.new.starts.items ≡ places.old.starts.items ++ length places.old.bits.items ∷ []) }
    ensures bits { OnOk result (places.new.bits.items ≡ places.old.bits.items ++ places_of_module (module_at modules.now m)) }
{
    push(&mut places.starts, to_u32(places.bits.len())?)?;
    let mut before: u32 = 0;
    for i in 0..modules.name_count(m) {
        push(&mut places.bits, before)?;
        before = to_u32(before as usize + modules.width(m, i))?;
    }
    push(&mut places.bits, before)
}

/// The places of the names of all modules.
pub(crate) fn place_names(alloc: Global, modules: &Modules<'_>) -> Result<NamePlaces, OutOfMemory>
    ensures { IfOk result (AreNamePlaces modules.now) }
{
    let mut places = NamePlaces {
        starts: Vec::new(alloc),
        bits: Vec::new(alloc),
    };
    for m in 0..modules.module_count() {
        add_module(modules, m, &mut places)?;
    }
    Ok(places)
}

/// What each bit of each name in each visited module is on.
#[derive(Drop)]
pub(crate) struct FlatBits {
    /// for each visited module, the place of its first bit
    starts: Vec<u32>,
    /// the net of each bit, and none where it is on a constant
    bits: Vec<Option<u32>>,
    /// the nets
    pub nets: Vec<NetPlace>,
    names: NamePlaces,
}

impl FlatBits {
    /// What a bit in a visited module is on.
    pub fn net(&self, visit: usize, m: usize, bit: Bit) -> Option<u32>
        requires within { HasFlatBit self.now visit m bit }
        ensures on { (d : Design) → AreFlatBits d self.now → visit < length (visits d.modules.now (top_of d.walk.now))
            → m ≡ module_of d visit → IsBitIn d visit bit → IsOnNet d visit bit result }
    {
        self.kept(visit, m, bit)
    }

    // What a bit in a visited module is on, where the bits of that module are kept.
    fn kept(&self, visit: usize, m: usize, bit: Bit) -> Option<u32>
        requires within { HasKeptBit self.now visit m bit }
        ensures on { (d : Design) → (has : HasVisitBits d visit self.now) → m ≡ module_of d visit → IsBitIn d visit bit
            → IsKept has.nets (wired d.modules.now (top_of d.walk.now) (path_of d visit) bit) result }
    {
        match bit {
            Bit::Tied => None,
            Bit::Wire { name, bit } => {
                self.bits[self.starts[visit] as usize + self.names.before(m, name) + bit]
            }
        }
    }

    // Puts a new net at the end, for a bit of a name in a visited module.
    fn add_net(&mut self, place: NetPlace) -> Result<(), OutOfMemory>
        ensures { (d : Design) (started : ℕ) (targets : List (Option NetBit)) (nets : List NetBit)
            → HoldBits d started targets nets self.old
            → IsBitOf d place.visit place.name place.bit → OnOk result (HoldBits d started (targets ++ Some (net_bit_of d place) ∷ [])
            (nets ++ net_bit_of d place ∷ []) self.new) }
    {
        push(&mut self.bits, Some(to_u32(self.nets.len())?))?;
        push(&mut self.nets, place)
    }

    // Puts new nets for the bits of a name of a visited module at the end.
    fn add_nets(
        &mut self,
        design: &Design<'_>,
        visit: usize,
        name: usize,
    ) -> Result<(), OutOfMemory>
        requires sound { IsSound design.now }
        requires within { visit < length design.now.walk.now.visits }
        requires name { name < length (names_of design.now visit) }
        ensures { (started : ℕ) (targets : List (Option NetBit)) (nets : List NetBit) → HoldBits design.now started targets nets self.old
            → OnOk result (HoldBits design.now started (targets
            ++ map Some (bits_of_name design.now.modules.now (top_of design.now.walk.now) (path_of design.now visit) name))
            (nets ++ bits_of_name design.now.modules.now (top_of design.now.walk.now) (path_of design.now visit) name) self.new) }
    {
        let m = design.walk.visits()[visit].module as usize;
        let in_visit = to_u32(visit)?;
        let named = to_u32(name)?;
        for bit in 0..design.modules.width(m, name) {
            self.add_net(NetPlace {
                visit: in_visit,
                name: named,
                bit: bit as u32,
            })?;
        }
        Ok(())
    }

    // Puts what a run of bits in a visited module is on at the end.
    fn add_run(&mut self, design: &Design<'_>, visit: usize, run: Run) -> Result<(), OutOfMemory>
        requires sound { IsSound design.now }
        requires visited { visit < length design.now.walk.now.visits }
        requires has { HasVisitBits design.now visit self.old }
        requires few { HasFewBits run }
        requires within { AreWithin (names_of design.now visit) run.first run.count }
        ensures { (started : ℕ) (targets : List (Option NetBit)) (nets : List NetBit) → HoldBits design.now started targets nets self.old
            → OnOk result (HoldBits design.now started (targets
            ++ map (wired design.now.modules.now (top_of design.now.walk.now) (path_of design.now visit)) (bits_of_run run))
            nets self.new) }
    {
        let m = design.walk.visits()[visit].module as usize;
        for number in 0..run.count {
            let net = self.kept(visit, m, run.bit(number));
            push(&mut self.bits, net)?;
        }
        Ok(())
    }

    // Puts what a connection joins to the instance that a visited module is at the end.
    fn add_joined(&mut self, design: &Design<'_>, v: usize, c: usize) -> Result<(), OutOfMemory>
        requires sound { IsSound design.now }
        requires visited { v < length design.now.walk.now.visits }
        requires lower { 0 < v }
        requires within { c < length (connections_at design.now v) }
        requires has { HasVisitBits design.now (visit_at design.now.walk.now v).parent self.old }
        ensures { (started : ℕ) (targets : List (Option NetBit)) (nets : List NetBit) → HoldBits design.now started targets nets self.old
            → OnOk result (HoldBits design.now started (targets
            ++ map (wired design.now.modules.now (top_of design.now.walk.now) (path_of design.now (visit_at design.now.walk.now v).parent))
            (joined_bits design.now v c)) nets self.new) }
    {
        design.modules.sound();
        let visits = design.walk.visits();
        let parent = visits[v].parent as usize;
        let k = visits[v].instance as usize;
        let around = visits[parent].module as usize;
        for r in 0..design.modules.run_count(around, k, c) {
            self.add_run(design, parent, design.modules.run(around, k, c, r))?;
        }
        Ok(())
    }

    // Puts what the bits of a name more of a visited module are on at the end.
    fn add_name(
        &mut self,
        design: &Design<'_>,
        v: usize,
        i: usize,
        joined: Option<u32>,
    ) -> Result<(), OutOfMemory>
        requires sound { IsSound design.now }
        requires visited { v < length design.now.walk.now.visits }
        requires name { i < length (names_of design.now v) }
        requires joined { IsNameJoined design.now v i joined }
        requires held { HoldNames design.now v i self.old }
        ensures { OnOk result (HoldNames design.now v (i + 1) self.new) }
    {
        match joined {
            Some(c) => self.add_joined(design, v, c as usize)?,
            None => self.add_nets(design, v, i)?,
        }
        Ok(())
    }

    // Puts what the bits of all names of a visited module are on at the end.
    fn add_visit(
        &mut self,
        design: &Design<'_>,
        v: usize,
        joined: &[Option<u32>],
    ) -> Result<(), OutOfMemory>
        requires sound { IsSound design.now }
        requires visited { v < length design.now.walk.now.visits }
        requires joined { AreNamesJoined design.now v joined.now }
        requires held { HoldVisits design.now v self.old }
        ensures { OnOk result (HoldVisits design.now (v + 1) self.new) }
    {
        push(&mut self.starts, to_u32(self.bits.len())?)?;
        for i in 0..joined.len() {
            self.add_name(design, v, i, joined[i])?;
        }
        Ok(())
    }
}

// The number of the port of this name of a visited module.
fn port_number(design: &Design<'_>, v: usize, port: &[u8], place: usize) -> Option<usize>
    requires sound { IsSound design.now }
    requires visited { v < length design.now.walk.now.visits }
    requires within { module_of design.now v < length design.now.modules.now }
    ensures { IsFoundBy (IsPortNamed (names_of design.now v)) (length (names_of design.now v)) port.now result }
{
    let visits = design.walk.visits();
    let m = visits[v].module as usize;
    design.ports[m].find(port, place)
}

// Keeps the connection of this number for the port to which it joins something.
fn join_port(
    design: &Design<'_>,
    v: usize,
    c: usize,
    joined: &mut [Option<u32>],
) -> Result<(), OutOfMemory>
    requires sound { IsSound design.now }
    requires visited { v < length design.now.walk.now.visits }
    requires lower { 0 < v }
    requires within { c < length (connections_at design.now v) }
    requires held { HoldJoined design.now v c joined.old }
    ensures { OnOk result (HoldJoined design.now v (c + 1) joined.new) }
{
    design.modules.sound();
    let visits = design.walk.visits();
    let k = visits[v].instance as usize;
    let around = visits[visits[v].parent as usize].module as usize;
    if design.modules.bit_count(around, k, c) == 0 {
        return Ok(());
    }
    let Some(number) = port_number(design, v, design.modules.port(around, k, c), c) else {
        return Ok(());
    };
    joined[number] = Some(to_u32(c)?);
    Ok(())
}

// Keeps for each port of a visited module that is no top the connection that joins something to it.
fn join_ports(design: &Design<'_>, v: usize, joined: &mut [Option<u32>]) -> Result<(), OutOfMemory>
    requires sound { IsSound design.now }
    requires visited { v < length design.now.walk.now.visits }
    requires lower { 0 < v }
    requires held { HoldJoined design.now v 0 joined.old }
    ensures { OnOk result (HoldJoined design.now v (length (connections_at design.now v)) joined.new) }
{
    let visits = design.walk.visits();
    let k = visits[v].instance as usize;
    let around = visits[visits[v].parent as usize].module as usize;
    for c in 0..design.modules.connection_count(around, k) {
        join_port(design, v, c, joined)?;
    }
    Ok(())
}

// To so many names nothing is joined yet.
fn unjoined(alloc: Global, many: usize) -> Result<Vec<Option<u32>>, OutOfMemory>
    ensures { IfOk result (λ joined. joined.items ≡ replicate many None) }
{
    let mut joined = Vec::new(alloc);
    joined.resize(many, None)?;
    Ok(joined)
}

// The connection that joins something to each name of a visited module; none joins anything to the top.
fn joined_names(
    alloc: Global,
    design: &Design<'_>,
    v: usize,
) -> Result<Vec<Option<u32>>, OutOfMemory>
    requires sound { IsSound design.now }
    requires design { HasDesign design.now }
    requires faultless { IsFaultless design.now }
    requires top { top_of design.now.walk.now < length design.now.modules.now }
    requires visited { v < length design.now.walk.now.visits }
    ensures { IfOk result (λ joined. AreNamesJoined design.now v joined.items) }
{
    design.modules.sound();
    let visits = design.walk.visits();
    let mut joined = unjoined(alloc, design.modules.name_count(visits[v].module as usize))?;
    if v == 0 {
        return Ok(joined);
    }
    join_ports(design, v, joined.as_mut_slice())?;
    Ok(joined)
}

/// The nets of the design, by visited module, by name, and from the left. The top alone has a net for each of its names, or more.
pub(crate) fn flat_bits(alloc: Global, design: &Design<'_>) -> Result<FlatBits, OutOfMemory>
    requires sound { IsSound design.now }
    requires design { HasDesign design.now }
    requires faultless { IsFaultless design.now }
    requires top { top_of design.now.walk.now < length design.now.modules.now }
    ensures { IfOk result (AreFlatBits design.now) }
{
    let many = design.modules.name_count(top_module(design));
    let mut bits = FlatBits {
        starts: Vec::new(alloc),
        bits: Vec::with_capacity(alloc, many)?,
        nets: Vec::with_capacity(alloc, many)?,
        names: place_names(alloc, design.modules)?,
    };
    for v in 0..design.walk.visits().len() {
        let joined = joined_names(alloc, design, v)?;
        bits.add_visit(design, v, joined.as_slice())?;
    }
    Ok(bits)
}
