//! The cells that a design uses.
ghost use Rattle.std.specs.Prelude.{◌≡◌, ℕ, ◌<◌, ◌≤◌, ◌^◌, List, [], ◌∷◌, ◌++◌, length, replicate, slice_get, Some, Contains, false, IfOk, IfErr, OnOk};
ghost use Rattle.verilog_netlist.specs.NetModules.{module_at};
ghost use Rattle.hierarchy.specs.InstanceCells.{AreInstanceCells, AreMarked};
ghost use Rattle.hierarchy.specs.Uses.{IsWalkable, IsUseEnd, AreCellsUsed, cells_used};
ghost use Rattle.hierarchy.specs.Lowers.{AreLowers};
ghost use Rattle.hierarchy.specs.Orders.{IsOrderOf};
ghost use Rattle.hierarchy.specs.Limits.{IsShallow, IsOver, visited_of, limit_of};

use crate::instance_cells::InstanceCells;
use crate::lowers::Lowers;
use crate::ordering::{OrderEnd, lower_first};
use crate::passes::{depths_of, totals_of};
use crate::walking::walk_modules;
use edge_io::lists::to_u32;
use edge_io::{OutOfMemory as WantOfMemory, Text, TextList};
use name_table::{NameId, Names};
use std::alloc::Global;
use verilog_netlist::Modules;

/// Modules stand in each other at most so deep.
const MOST_DEPTH: usize = 64;

/// The most instances that are visited: 2^20.
const MOST_INSTANCES: usize = 1_048_576;

/// The most bits of names in visited modules: 2^22.
const MOST_NAME_BITS: usize = 4_194_304;

/// The most connections of visited instances: 2^22.
const MOST_CONNECTIONS: usize = 4_194_304;

/// A limit of a design.
#[derive(Clone, Copy)]
pub enum Count {
    /// Modules stand in each other at most 64 deep, the top being 1.
    Depth,
    /// At most 2^20 instances are visited, of modules and of cells.
    Instances,
    /// The names of the visited modules have at most 2^22 bits, ports included.
    Names,
    /// The visited instances have at most 2^22 connections.
    Pins,
}

/// Why a design cannot be walked through.
#[derive(Drop)]
pub enum UseEnd {
    /// The file has no module of the top's name.
    NoTop,
    /// This module, which the walk reaches, contains itself at some depth.
    Recursive(Text),
    /// A limit is passed.
    TooMany(Count),
    OutOfMemory,
}

impl From<WantOfMemory> for UseEnd {
    ghost use Rattle.hierarchy.specs.declared.uses.UseEnd.TheVariants.{OutOfMemory};

    ghost from_gives = { λ _ end. end ≡ OutOfMemory };

    fn from(_error: WantOfMemory) -> UseEnd {
        UseEnd::OutOfMemory
    }
}

/// The cells that the design of this top module uses, in the order in which the walk first meets them. Before the walk the limits are
/// counted module by module, so that a design of which the walk would never end is refused at once.
pub fn used_cells(alloc: Global, modules: &Modules, top: &Text) -> Result<TextList, UseEnd>
    ensures ok { IfOk result (AreCellsUsed modules.now top.now) }
    ensures refused { IfErr result (IsUseEnd modules.now top.now) }
{
    let Some(top) = modules.find(top.bytes()) else {
        return Err(UseEnd::NoTop);
    };
    let names = cells_below(alloc, modules, top)?;
    let used = texts_of(alloc, &names)?;
    Ok(used)
}

// The names of the cells of a design, if it can be walked through.
fn cells_below(alloc: Global, modules: &Modules, top: usize) -> Result<Names, UseEnd>
    requires within { top < length modules.now }
    ensures walkable { OnOk result (IsWalkable modules.now top) }
    ensures names { IfOk result (λ names. names ≡ cells_used modules.now top) }
    ensures refused { IfErr result (IsUseEnd modules.now (module_at modules.now top).name) }
{
    let cells = InstanceCells::of(alloc, modules)?;
    check_walk(alloc, modules, &cells, top)?;
    let names = cells_met(alloc, modules, &cells, top)?;
    Ok(names)
}

// Whether a design can be walked through.
fn check_walk(
    alloc: Global,
    modules: &Modules,
    cells: &InstanceCells,
    top: usize,
) -> Result<(), UseEnd>
    requires within { top < length modules.now }
    requires cells { AreInstanceCells modules.now cells.now }
    ensures ok { OnOk result (IsWalkable modules.now top) }
    ensures refused { IfErr result (IsUseEnd modules.now (module_at modules.now top).name) }
{
    let lowers = Lowers::of(alloc, modules, cells)?;
    let order = order_below(alloc, modules, &lowers, top)?;
    check_limits(alloc, modules, &lowers, &order, top)
}

// Whether a design is within the limits.
fn check_limits(
    alloc: Global,
    modules: &Modules,
    lowers: &Lowers,
    order: &[usize],
    top: usize,
) -> Result<(), UseEnd>
    requires within { top < length modules.now }
    requires lowers { AreLowers modules.now lowers.now }
    requires order { IsOrderOf lowers.now top order.now }
    ensures ok { OnOk result (IsWalkable modules.now top) }
    ensures refused { IfErr result (IsUseEnd modules.now (module_at modules.now top).name) }
{
    check_depth(alloc, modules, lowers, order, top)?;
    check_total(alloc, modules, lowers, order, top, Count::Instances)?;
    check_total(alloc, modules, lowers, order, top, Count::Names)?;
    check_total(alloc, modules, lowers, order, top, Count::Pins)?;
    Ok(())
}

// The modules that the top leads to, the lower ones first.
fn order_below(
    alloc: Global,
    modules: &Modules,
    lowers: &Lowers,
    top: usize,
) -> Result<Vec<usize>, UseEnd>
    requires within { top < length modules.now }
    requires lowers { AreLowers modules.now lowers.now }
    ensures order { IfOk result (λ order. IsOrderOf lowers.now top order.items) }
    ensures refused { IfErr result (IsUseEnd modules.now (module_at modules.now top).name) }
{
    match lower_first(alloc, lowers, top) {
        Ok(order) => Ok(order),
        Err(OrderEnd::Recursive(m)) => {
            let name = Text::from_bytes(alloc, modules.module_name(m))?;
            Err(UseEnd::Recursive(name))
        }
        Err(OrderEnd::OutOfMemory) => Err(UseEnd::OutOfMemory),
    }
}

// Whether modules stand in each other within the limit.
fn check_depth(
    alloc: Global,
    modules: &Modules,
    lowers: &Lowers,
    order: &[usize],
    top: usize,
) -> Result<(), UseEnd>
    requires within { top < length modules.now }
    requires lowers { AreLowers modules.now lowers.now }
    requires order { IsOrderOf lowers.now top order.now }
    ensures ok { OnOk result (IsShallow lowers.now order.now top) }
    ensures refused { IfErr result (IsUseEnd modules.now (module_at modules.now top).name) }
{
    let depths = depths_of(alloc, lowers, order)?;
    if depths[top] > MOST_DEPTH {
        return Err(UseEnd::TooMany(Count::Depth));
    }
    Ok(())
}

// Whether what is counted is within its limit.
fn check_total(
    alloc: Global,
    modules: &Modules,
    lowers: &Lowers,
    order: &[usize],
    top: usize,
    count: Count,
) -> Result<(), UseEnd>
    requires within { top < length modules.now }
    requires lowers { AreLowers modules.now lowers.now }
    requires order { IsOrderOf lowers.now top order.now }
    requires shallow { IsShallow lowers.now order.now top }
    ensures ok { OnOk result (visited_of modules.now top count ≤ limit_of count) }
    ensures refused { IfErr result (IsOver modules.now top count (limit_of count)) }
{
    let totals = totals_of(alloc, modules, lowers, order, count)?;
    if totals[top] > limit(count) {
        return Err(UseEnd::TooMany(count));
    }
    Ok(())
}

// The limit of what is counted.
fn limit(count: Count) -> usize
    ensures { result ≡ limit_of count }
{
    match count {
        Count::Depth => MOST_DEPTH,
        Count::Instances => MOST_INSTANCES,
        Count::Names => MOST_NAME_BITS,
        Count::Pins => MOST_CONNECTIONS,
    }
}

// Of so many names none is marked.
fn no_marks(alloc: Global, many: usize) -> Result<Vec<bool>, WantOfMemory>
    ensures { IfOk result (λ marks. marks.items ≡ replicate many false) }
{
    let mut marks = Vec::new(alloc);
    marks.resize(many, false)?;
    Ok(marks)
}

// Puts the name of this number at the end, unless it is marked or was there before.
fn use_name(
    cells: &InstanceCells,
    number: usize,
    marks: &mut Vec<bool>,
    names: &mut Names,
) -> Result<(), WantOfMemory>
    requires room { length names.old < 2 ^ 30 }
    requires within { number < length cells.now.names }
    requires marked { AreMarked cells.now.names marks.old.items names.old }
    ensures marked { OnOk result (AreMarked cells.now.names marks.new.items names.new) }
    ensures held { (name : List ℕ) → slice_get cells.now.names number ≡ Some name → Contains names.old name
        → OnOk result (names.new ≡ names.old) }
    ensures added { (name : List ℕ) → slice_get cells.now.names number ≡ Some name → ¬ Contains names.old name
        → OnOk result (names.new ≡ names.old ++ name ∷ []) }
{
    if marks[number] {
        return Ok(());
    }
    let id = NameId(to_u32(number)?);
    names.intern(cells.names().text(id))?;
    marks[number] = true;
    Ok(())
}

// The names of the cells, in the order in which the walk first meets them.
fn cells_along(
    alloc: Global,
    modules: &Modules,
    cells: &InstanceCells,
    top: usize,
) -> Result<Names, WantOfMemory>
    requires within { top < length modules.now }
    requires walkable { IsWalkable modules.now top }
    requires cells { AreInstanceCells modules.now cells.now }
    ensures { IfOk result (λ names. names ≡ cells_used modules.now top) }
{
    let walk = walk_modules(alloc, modules, cells, top)?;
    let visits = walk.visits();
    let mut marks = no_marks(alloc, cells.names().len())?;
    let mut names = Names::new(alloc);
    for met in walk.met() {
        if met.lower.is_none() {
            let visit = visits[met.visit as usize];
            let number = cells.number(visit.module as usize, met.instance as usize);
            use_name(cells, number, &mut marks, &mut names)?;
        }
    }
    Ok(names)
}

// The names of the cells of a file of one module, in the order in which the walk first meets them: it meets the instances of this module.
fn cells_of_one(
    alloc: Global,
    modules: &Modules,
    cells: &InstanceCells,
    top: usize,
) -> Result<Names, WantOfMemory>
    requires one { length modules.now ≡ 1 }
    requires within { top < length modules.now }
    requires walkable { IsWalkable modules.now top }
    requires cells { AreInstanceCells modules.now cells.now }
    ensures { IfOk result (λ names. names ≡ cells_used modules.now top) }
{
    let mut marks = no_marks(alloc, cells.names().len())?;
    let mut names = Names::new(alloc);
    for instance in 0..modules.instance_count(top) {
        let number = cells.number(top, instance);
        use_name(cells, number, &mut marks, &mut names)?;
    }
    Ok(names)
}

// The names of the cells, in the order in which the walk first meets them.
fn cells_met(
    alloc: Global,
    modules: &Modules,
    cells: &InstanceCells,
    top: usize,
) -> Result<Names, WantOfMemory>
    requires within { top < length modules.now }
    requires walkable { IsWalkable modules.now top }
    requires cells { AreInstanceCells modules.now cells.now }
    ensures { IfOk result (λ names. names ≡ cells_used modules.now top) }
{
    if modules.module_count() == 1 {
        return cells_of_one(alloc, modules, cells, top);
    }
    cells_along(alloc, modules, cells, top)
}

// The names as texts.
fn texts_of(alloc: Global, names: &Names) -> Result<TextList, WantOfMemory>
    ensures { IfOk result (λ texts. texts ≡ names.now) }
{
    let mut texts = TextList::new(alloc);
    for number in 0..names.len() {
        texts.push(Text::from_bytes(alloc, names.text(NameId(number as u32)))?)?;
    }
    Ok(texts)
}
