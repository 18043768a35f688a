//! What the instances of a file are of, by numbers.
ghost use Rattle.std.specs.Prelude.{◌≡◌, true, ℕ, ◌<◌, ◌≤◌, ◌^◌, List, [], length, map, slice_get, Some, IfOk, IfSome, IfNone};
ghost use Rattle.verilog_netlist.specs.NetModules.{NetModule, instance_at};
ghost use Rattle.hierarchy.specs.Hierarchy.{lower_of, instance_count};
ghost use Rattle.hierarchy.specs.InstanceCells.{AreInstanceCells, HasInstance, HasNumbers, HaveRows, HaveLowers, Grows};

use crate::naming::find_module;
use edge_io::lists::push;
use edge_io::{OutOfMemory, are_equal};
use name_table::{NameId, Names};
use std::alloc::Global;
use std::marker::Model;
use verilog_netlist::Modules;

/// At most so many names: 2^30.
const MOST_NAMES: usize = 1_073_741_824;

/// What the instances of all modules are of. Each name of a cell or a module has a number, which the instances of it have, so that a name
/// is looked up once for each instance. Contracts see the names, the numbers of each module's instances, and the module of each name.
#[derive(Drop)]
pub struct InstanceCells {
    names: Names,
    rows: Vec<Vec<u32>>,
    lowers: Vec<Option<usize>>,
}

impl Model for InstanceCells {
    ghost use Rattle.std.specs.Prelude.{map};
    ghost use Rattle.hierarchy.specs.InstanceCells.{CellTable};

    ghost Value = { CellTable };

    ghost view = { λ cells. record { names = cells.names; rows = map (λ row. row.items) cells.rows.items; lowers = cells.lowers.items } };
}

// The names that are numbered so far, and some of the numbers that were asked for last: few cells have most instances.
#[derive(Drop)]
struct Numbering {
    names: Names,
    recent: [u32; 256],
}

// Where the number of a name is kept that was asked for last. Names of cells differ mostly in their last bytes and in their lengths.
fn slot_of(name: &[u8]) -> usize
    ensures { result < 256 }
{
    match (name.first(), name.last()) {
        (Some(first), Some(last)) => {
            let inner = name[name.len() - 1 - name.len() / 6];
            let bytes = usize::from(*first) * 7 + usize::from(inner) * 13 + usize::from(*last);
            (bytes + name.len() % 64 * 31) % 256
        }
        _ => 0,
    }
}

// Whether a name has this number.
fn has_number(names: &Names, name: &[u8], number: u32) -> bool
    ensures { result ≡ true → slice_get names.now number ≡ Some name.now }
{
    (number as usize) < names.len() && are_equal(names.text(NameId(number)), name)
}

// The number of a name among these; one that is not there goes last.
fn look_up(names: &mut Names, name: &[u8]) -> Result<u32, OutOfMemory>
    ensures named { IfOk result (λ number. slice_get names.new number ≡ Some name.now) }
    ensures grows { Grows names.old names.new }
{
    if names.len() >= MOST_NAMES {
        return Err(OutOfMemory);
    }
    let id = names.intern(name)?;
    Ok(id.0)
}

impl Numbering {
    // No name has a number yet.
    fn new(alloc: Global) -> Numbering {
        Numbering {
            names: Names::new(alloc),
            recent: [0; 256],
        }
    }

    // The number of a name. It takes one look-up at most.
    fn number_of(&mut self, name: &[u8]) -> Result<u32, OutOfMemory>
        ensures named { IfOk result (λ number. slice_get self.new.names number ≡ Some name.now) }
        ensures grows { Grows self.old.names self.new.names }
    {
        let slot = slot_of(name);
        let guess = self.recent[slot];
        if has_number(&self.names, name, guess) {
            return Ok(guess);
        }
        let number = look_up(&mut self.names, name)?;
        self.recent[slot] = number;
        Ok(number)
    }
}

// The numbers of what the instances of a module are of.
fn number_instances(
    alloc: Global,
    modules: &Modules<'_>,
    m: usize,
    numbering: &mut Numbering,
) -> Result<Vec<u32>, OutOfMemory>
    requires { m < length modules.now }
    ensures numbers { IfOk result (λ row. HasNumbers modules.now numbering.new.names m (instance_count modules.now m) row.items) }
    ensures grows { Grows numbering.old.names numbering.new.names }
{
    let mut row = Vec::with_capacity(alloc, modules.instance_count(m))?;
    for k in 0..modules.instance_count(m) {
        let number = numbering.number_of(modules.instance_of(m, k))?;
        push(&mut row, number)?;
    }
    Ok(row)
}

// The numbers of what the instances of all modules are of.
fn number_all(
    alloc: Global,
    modules: &Modules<'_>,
    numbering: &mut Numbering,
) -> Result<Vec<Vec<u32>>, OutOfMemory>
    ensures { IfOk result (λ rows. HaveRows modules.now numbering.new.names (length modules.now) (map (λ row. row.items) rows.items)) }
{
    let mut rows = Vec::new(alloc);
    for m in 0..modules.module_count() {
        let row = number_instances(alloc, modules, m, numbering)?;
        push(&mut rows, row)?;
    }
    Ok(rows)
}

// The modules of these names.
fn lowers_named(
    alloc: Global,
    modules: &Modules<'_>,
    names: &Names,
) -> Result<Vec<Option<usize>>, OutOfMemory>
    ensures { IfOk result (λ lowers. HaveLowers modules.now names.now (length names.now) lowers.items) }
{
    let mut lowers = Vec::new(alloc);
    for n in 0..names.len() {
        let lower = find_module(modules, names.text(NameId(n as u32)));
        push(&mut lowers, lower)?;
    }
    Ok(lowers)
}

impl InstanceCells {
    /// Those of the modules of a file. It takes one look-up for each instance.
    pub fn of(alloc: Global, modules: &Modules<'_>) -> Result<InstanceCells, OutOfMemory>
        ensures { IfOk result (AreInstanceCells modules.now) }
    {
        let mut numbering = Numbering::new(alloc);
        let rows = number_all(alloc, modules, &mut numbering)?;
        let lowers = lowers_named(alloc, modules, &numbering.names)?;
        Ok(InstanceCells {
            names: numbering.names,
            rows,
            lowers,
        })
    }

    /// The names of cells and modules.
    pub fn names(&self) -> &Names
        ensures { result.now ≡ self.now.names }
    {
        &self.names
    }

    /// The number of the name that an instance is of.
    pub fn number(&self, m: usize, k: usize) -> usize
        requires { HasInstance self.now m k }
        ensures { (modules : List NetModule) → AreInstanceCells modules self.now → m < length modules → k < instance_count modules m
            → slice_get self.now.names result ≡ Some (instance_at modules m k).cell }
    {
        self.rows[m][k] as usize
    }

    /// The module that an instance is of, if it is of one.
    pub(crate) fn lower(&self, m: usize, k: usize) -> Option<usize>
        requires { HasInstance self.now m k }
        ensures named { (modules : List NetModule) → AreInstanceCells modules self.now → m < length modules → k < instance_count modules m
            → IfSome result (λ lower. lower ≡ lower_of modules m k) }
        ensures within { (modules : List NetModule) → AreInstanceCells modules self.now → m < length modules → k < instance_count modules m
            → IfSome result (λ lower. lower < length modules) }
        ensures none { (modules : List NetModule) → AreInstanceCells modules self.now → m < length modules → k < instance_count modules m
            → IfNone result (length modules ≤ lower_of modules m k) }
    {
        self.lowers[self.number(m, k)]
    }
}
