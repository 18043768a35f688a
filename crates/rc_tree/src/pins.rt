//! The pins of a net.
ghost use Rattle.std.specs.Prelude.{◌≡◌, ◌≢◌, ◌<◌, ◌≤◌, [], ◌∷◌, ◌++◌, length, Some, All, AllPairs, Contains, OnOk, OnErr, IfOk, slice_get};
ghost use Rattle.corner_set.specs.Places.{HasRow};
ghost use Rattle.delay_units.specs.Bounds.{most_farads};
ghost use Rattle.rc_tree.specs.Nodes.{node_of};
ghost use Rattle.rc_tree.specs.PinNames.{pin_name};
ghost use Rattle.rc_tree.specs.Pins.{pin_nodes, row_of};

use crate::pin_names::PinName;
use corner_set::{CornerSet, Grid};
use delay_units::Farads;
use edge_io::OutOfMemory;
use std::alloc::Global;
use std::marker::{Model, PhantomData};

/// The driver of a net, and its sinks with their loads at each corner, in the order in which they are added. No two are one
/// node. Their names stand elsewhere. Contracts see these.
#[derive(Drop)]
pub struct PinLoads<'p, C: CornerSet> {
    pub(crate) driver: PinName<'p>,
    pub(crate) sinks: Vec<PinName<'p>>,
    // row after row, and in each row by corner
    pub(crate) loads: Vec<Farads>,
    corners: PhantomData<C>,
}

impl<'p, C: CornerSet> Model for PinLoads<'p, C> {
    ghost use Rattle.std.specs.Prelude.{map};
    ghost use Rattle.rc_tree.specs.PinNames.{pin_name};
    ghost use Rattle.rc_tree.specs.Pins.{Pins, AreSound};

    ghost Value = { Pins };

    ghost view = { λ p. record { driver = pin_name p.driver; sinks = map pin_name p.sinks.items; loads = p.loads.items } };

    ghost invariant = { λ p. AreSound C.COUNT
        (record { driver = pin_name p.driver; sinks = map pin_name p.sinks.items; loads = p.loads.items }) };
}

impl<'p, C: CornerSet> PinLoads<'p, C> {
    /// A net with this driver and no sink, and room for so many.
    pub fn with_room(
        alloc: Global,
        driver: PinName<'p>,
        sinks: usize,
    ) -> Result<PinLoads<'p, C>, OutOfMemory>
        ensures { IfOk result (λ pins. pins ≡ record { driver = pin_name driver.entry; sinks = []; loads = [] }) }
    {
        let loads = Vec::with_capacity(alloc, sinks.saturating_mul(C::COUNT))?;
        let sinks = Vec::with_capacity(alloc, sinks)?;
        Ok(PinLoads {
            driver,
            sinks,
            loads,
            corners: PhantomData,
        })
    }

    /// Makes it a net with this driver and no sink. The lists keep their memory.
    pub fn restart(&mut self, driver: PinName<'p>)
        ensures { self.new ≡ record { driver = pin_name driver.entry; sinks = []; loads = [] } }
    {
        self.sinks.clear();
        self.loads.clear();
        put(&mut self.driver, driver);
    }

    /// Adds a sink, whose loads stand in a row of the grid. It is another node than the pins so far, and each load is at most
    /// 10^12.
    pub fn add(
        &mut self,
        sink: PinName<'p>,
        loads: &Grid<C, Farads>,
        row: usize,
    ) -> Result<(), OutOfMemory>
        requires row { HasRow C.COUNT loads.now.values row }
        requires other { ¬ Contains (pin_nodes self.old) (node_of (pin_name sink)) }
        requires small { All (λ load. load.0 ≤ most_farads) (row_of C.COUNT loads.now.values row) }
        ensures ok { OnOk result (self.new ≡ record {
          driver = self.old.driver;
          sinks = self.old.sinks ++ pin_name sink.entry ∷ [];
          loads = self.old.loads ++ row_of C.COUNT loads.now.values row;
        }) }
        ensures err { OnErr result (self.new ≡ self.old) }
    {
        let values = loads.as_slice();
        let start = row * C::COUNT;
        push_both(
            &mut self.sinks,
            &mut self.loads,
            sink,
            &values[start..start + C::COUNT],
        )
    }
}

impl<'p, C: CornerSet> PinLoads<'p, C> {
    /// How many sinks there are. No two pins are one node.
    pub fn len(&self) -> usize
        ensures len { result ≡ length self.now.sinks }
        ensures apart { AllPairs (λ one other. one ≢ other) (pin_nodes self.now) }
    {
        self.sinks.len()
    }

    /// The driver.
    pub fn driver(&self) -> PinName<'p>
        ensures { pin_name result ≡ self.now.driver }
    {
        self.driver
    }

    /// The sink that was added k-th, from 0.
    pub fn sink(&self, k: usize) -> PinName<'p>
        requires { k < length self.now.sinks }
        ensures { slice_get self.now.sinks k ≡ Some (pin_name result) }
    {
        self.sinks[k]
    }
}

// Puts an item in the place of another.
fn put<T: Drop>(place: &mut T, item: T)
    ensures { place.new ≡ item }
{
    *place = item;
}

// Puts a sink and its loads at the ends, or neither.
#[inline(always)]
fn push_both<'p>(
    sinks: &mut Vec<PinName<'p>>,
    loads: &mut Vec<Farads>,
    sink: PinName<'p>,
    row: &[Farads],
) -> Result<(), OutOfMemory>
    ensures sinks { OnOk result (sinks.new.items ≡ sinks.old.items ++ sink.entry ∷ []) }
    ensures loads { OnOk result (loads.new.items ≡ loads.old.items ++ row.now) }
    ensures err_sinks { OnErr result (sinks.new.items ≡ sinks.old.items) }
    ensures err_loads { OnErr result (loads.new.items ≡ loads.old.items) }
{
    let held = loads.len();
    loads.extend_from_slice(row)?;
    if sinks.push(sink).is_ok() {
        return Ok(());
    }
    loads.truncate(held);
    Err(OutOfMemory)
}
