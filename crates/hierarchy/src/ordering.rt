//! An order of the modules in a design.
ghost use Rattle.std.specs.Prelude.{◌≡◌, ◌<◌, length, replicate, slice_set, IfOk, IfErr};
ghost use Rattle.hierarchy.specs.declared.ordering.Mark.TheVariants.{New, Open};
ghost use Rattle.hierarchy.specs.Lowers.{AreBelow};
ghost use Rattle.hierarchy.specs.Orders.{IsOrderOf, IsOrderEnd};

use crate::lowers::Lowers;
use edge_io::OutOfMemory as WantOfMemory;
use edge_io::lists::push;
use std::alloc::Global;

/// Why there is no order.
#[derive(Drop)]
pub(crate) enum OrderEnd {
    /// This module, which the top leads to, contains itself.
    Recursive(usize),
    OutOfMemory,
}

impl From<WantOfMemory> for OrderEnd {
    ghost use Rattle.hierarchy.specs.declared.ordering.OrderEnd.TheVariants.{OutOfMemory};

    ghost from_gives = { λ _ end. end ≡ OutOfMemory };

    fn from(_error: WantOfMemory) -> OrderEnd {
        OrderEnd::OutOfMemory
    }
}

// How far the search has come with a module: it was not reached, stands in the search, or stands in the order.
#[derive(Clone, Copy)]
enum Mark {
    New,
    Open,
    Done,
}

// A module that stands in the search, and the next of its lower modules.
#[derive(Clone, Copy)]
struct Step {
    module: usize,
    next: usize,
}

/// The modules that the top leads to, each behind its lower modules, or one that contains itself. It takes a turn for each lower
/// module that is entered and for each that is passed.
pub(crate) fn lower_first(
    alloc: Global,
    lowers: &Lowers,
    top: usize,
) -> Result<Vec<usize>, OrderEnd>
    requires top { top < length lowers.now }
    requires below { AreBelow lowers.now }
    ensures order { IfOk result (λ order. IsOrderOf lowers.now top order.items) }
    ensures refused { IfErr result (IsOrderEnd lowers.now top) }
{
    let mut marks = marks_of(alloc, lowers.len(), top)?;
    let mut order = Vec::new(alloc);
    let mut steps = Vec::new(alloc);
    push(
        &mut steps,
        Step {
            module: top,
            next: 0,
        },
    )?;
    while let Some(step) = steps.pop() {
        let row = lowers.at(step.module);
        if step.next < row.len() {
            let lower = row[step.next];
            match marks[lower] {
                Mark::New => {
                    push(&mut steps, step)?;
                    marks[lower] = Mark::Open;
                    push(
                        &mut steps,
                        Step {
                            module: lower,
                            next: 0,
                        },
                    )?;
                }
                Mark::Open => return Err(OrderEnd::Recursive(lower)),
                Mark::Done => push(
                    &mut steps,
                    Step {
                        module: step.module,
                        next: step.next + 1,
                    },
                )?,
            }
        } else {
            marks[step.module] = Mark::Done;
            push(&mut order, step.module)?;
        }
    }
    Ok(order)
}

// The marks of so many modules, of which this one stands in the search.
fn marks_of(alloc: Global, modules: usize, first: usize) -> Result<Vec<Mark>, WantOfMemory>
    requires { first < modules }
    ensures { IfOk result (λ marks. marks.items ≡ slice_set (replicate modules New) first Open) }
{
    let mut marks = vec![in alloc; Mark::New; modules]?;
    marks[first] = Mark::Open;
    Ok(marks)
}
