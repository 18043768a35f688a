//! Numbers of modules by those of their lower modules.
ghost use Rattle.std.specs.Prelude.{◌≡◌, ℕ, ◌+◌, ◌<◌, ◌≤◌, length, map, min, sum, All, IfOk};
ghost use Rattle.verilog_netlist.specs.NetModules.{module_at, name_at};
ghost use Rattle.hierarchy.specs.Lowers.{AreBelow};
ghost use Rattle.hierarchy.specs.Orders.{IsLowerFirst};
ghost use Rattle.hierarchy.specs.declared.uses.Count.TheVariants.{Names, Pins};
ghost use Rattle.hierarchy.specs.Passes.{value_at, IsPassed, IsMost, IsDepth, IsTotal, own_of, cap};

use crate::lowers::Lowers;
use crate::uses::Count;
use edge_io::OutOfMemory;
use std::alloc::Global;
use verilog_netlist::Modules;

/// Past all limits: 2^23. Totals are cut off here, so that no sum overflows.
const CAP: usize = 8_388_608;

/// How deep modules stand in each of an order, the module itself being 1.
pub(crate) fn depths_of(
    alloc: Global,
    lowers: &Lowers,
    order: &[usize],
) -> Result<Vec<usize>, OutOfMemory>
    requires sorted { IsLowerFirst lowers.now order.now }
    ensures { IfOk result (λ depths. IsPassed lowers.now order.now IsDepth depths.items (length order.now)) }
{
    let mut depths = vec![in alloc; 0; lowers.len()]?;
    for m in order {
        let most = most_of(lowers.at(*m), &depths);
        depths[*m] = most + 1;
    }
    Ok(depths)
}

/// What each module of an order has of what is counted, itself and below it, cut off at 2^23.
pub(crate) fn totals_of(
    alloc: Global,
    modules: &Modules,
    lowers: &Lowers,
    order: &[usize],
    count: Count,
) -> Result<Vec<usize>, OutOfMemory>
    requires size { length lowers.now ≡ length modules.now }
    requires sorted { IsLowerFirst lowers.now order.now }
    ensures { IfOk result (λ totals. IsPassed lowers.now order.now (IsTotal modules.now count) totals.items (length order.now)) }
{
    let mut totals = vec![in alloc; 0; lowers.len()]?;
    for m in order {
        let own = own_count(modules, *m, count);
        let total = total_of(own, lowers.at(*m), &totals);
        totals[*m] = total;
    }
    Ok(totals)
}

// The most of the values of these modules, or 0.
fn most_of(row: &[usize], values: &[usize]) -> usize
    requires { All (λ m. m < length values.now) row.now }
    ensures { IsMost (map (value_at values.now) row.now) (length row.now) result }
{
    let mut most = 0;
    for m in row {
        most = values[*m].max(most);
    }
    most
}

// What a module has itself, and the values of these modules, cut off.
fn total_of(own: usize, row: &[usize], values: &[usize]) -> usize
    requires own { own ≤ cap }
    requires within { All (λ m. m < length values.now) row.now }
    requires few { All (λ value. value ≤ cap) values.now }
    ensures { result ≡ min cap (own + sum (map (value_at values.now) row.now)) }
{
    let mut total = own;
    for m in row {
        total = (total + values[*m]).min(CAP);
    }
    total
}

// What a module has itself of what is counted, cut off.
fn own_count(modules: &Modules, m: usize, count: Count) -> usize
    requires { m < length modules.now }
    ensures { result ≡ min cap (own_of modules.now count m) }
{
    match count {
        Count::Depth => 0,
        Count::Instances => modules.instance_count(m).min(CAP),
        Count::Names => name_bits(modules, m),
        Count::Pins => connections(modules, m),
    }
}

// The bits of the names of a module, cut off.
fn name_bits(modules: &Modules, m: usize) -> usize
    requires { m < length modules.now }
    ensures { result ≡ min cap (own_of modules.now Names m) }
{
    let mut bits = 0;
    for i in 0..modules.name_count(m) {
        bits = (bits + modules.width(m, i)).min(CAP);
    }
    bits
}

// The connections of the instances of a module, cut off.
fn connections(modules: &Modules, m: usize) -> usize
    requires { m < length modules.now }
    ensures { result ≡ min cap (own_of modules.now Pins m) }
{
    let mut total = 0;
    for k in 0..modules.instance_count(m) {
        total = (total + modules.connection_count(m, k).min(CAP)).min(CAP);
    }
    total
}
