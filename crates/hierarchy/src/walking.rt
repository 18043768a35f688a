//! The walk through a design, as it is kept.
ghost use Rattle.std.specs.Prelude.{◌≡◌, ◌<◌, [], ◌∷◌, ◌++◌, length, IfOk, OnOk};
ghost use Rattle.hierarchy.specs.InstanceCells.{AreInstanceCells};
ghost use Rattle.hierarchy.specs.Uses.{IsWalkable};
ghost use Rattle.hierarchy.specs.WalkTables.{AreTablesOfWalk};

use crate::instance_cells::InstanceCells;
use edge_io::OutOfMemory;
use edge_io::lists::{push, to_u32};
use std::alloc::Global;
use std::marker::Model;
use verilog_netlist::Modules;

/// A visited module: the number of the visit of the module around it, the instance of that module that it is, and which module it is.
/// The first visit is that of the top, whose other numbers are 0.
#[derive(Clone, Copy)]
pub struct Visit {
    pub parent: u32,
    pub instance: u32,
    pub module: u32,
}

/// An instance that the walk meets: the visit of the module in which it stands, its number there, and the visit of it where it is an
/// instance of a module.
#[derive(Clone, Copy)]
pub struct MetInstance {
    pub visit: u32,
    pub instance: u32,
    pub lower: Option<u32>,
}

/// A walk: the visited modules, and the instances that are met. Contracts see the two lists.
#[derive(Drop)]
pub struct Walk {
    visits: Vec<Visit>,
    met: Vec<MetInstance>,
}

impl Model for Walk {
    ghost use Rattle.hierarchy.specs.WalkTables.{WalkTables};

    ghost Value = { WalkTables };

    ghost view = { λ walk. record { visits = walk.visits.items; met = walk.met.items } };
}

impl Walk {
    /// The visited modules, each behind the one around it. The first is the top.
    pub fn visits(&self) -> &[Visit]
        ensures { result.now ≡ self.now.visits }
    {
        self.visits.as_slice()
    }

    /// The instances that are met, of modules and of cells, in the order of the walk.
    pub fn met(&self) -> &[MetInstance]
        ensures { result.now ≡ self.now.met }
    {
        self.met.as_slice()
    }
}

// A visited module of which instances may be left: its visit, which module it is, and the next instance.
#[derive(Clone, Copy)]
struct Frame {
    visit: u32,
    module: usize,
    next: usize,
}

// No instance is met yet; there is room for those of the top.
fn none_met(alloc: Global, modules: &Modules, top: usize) -> Result<Vec<MetInstance>, OutOfMemory>
    requires { top < length modules.now }
    ensures { IfOk result (λ met. met.items ≡ []) }
{
    let met = Vec::with_capacity(alloc, modules.instance_count(top))?;
    Ok(met)
}

/// Walks through a design that can be walked through. The memory is linear in the number of the instances that are met, which are at
/// least those of the top.
pub fn walk_modules(
    alloc: Global,
    modules: &Modules,
    cells: &InstanceCells,
    top: usize,
) -> Result<Walk, OutOfMemory>
    requires within { top < length modules.now }
    requires walkable { IsWalkable modules.now top }
    requires cells { AreInstanceCells modules.now cells.now }
    ensures ok { IfOk result (λ walk. AreTablesOfWalk modules.now top walk) }
{
    let mut visits = Vec::new(alloc);
    let mut met = none_met(alloc, modules, top)?;
    let mut frames = Vec::new(alloc);
    enter(0, 0, top, &mut visits, &mut frames)?;
    while let Some(frame) = frames.pop() {
        let Frame {
            visit,
            module,
            next,
        } = frame;
        if next < modules.instance_count(module) {
            let instance = to_u32(next)?;
            push(
                &mut frames,
                Frame {
                    visit,
                    module,
                    next: next + 1,
                },
            )?;
            let lower = match cells.lower(module, next) {
                Some(lower) => Some(enter(visit, instance, lower, &mut visits, &mut frames)?),
                None => None,
            };
            push(
                &mut met,
                MetInstance {
                    visit,
                    instance,
                    lower,
                },
            )?;
        }
    }
    Ok(Walk { visits, met })
}

// Visits a module, all of whose instances are left. Answers the number of the visit.
fn enter(
    parent: u32,
    instance: u32,
    module: usize,
    visits: &mut Vec<Visit>,
    frames: &mut Vec<Frame>,
) -> Result<u32, OutOfMemory>
    ensures number { IfOk result (λ visit. visit ≡ length visits.old.items) }
    ensures visit { OnOk result (visits.new.items
        ≡ visits.old.items ++ record { parent = parent; instance = instance; «module» = «module» } ∷ []) }
    ensures frame { OnOk result (frames.new.items
        ≡ frames.old.items ++ record { visit = length visits.old.items; «module» = «module»; next = 0 } ∷ []) }
{
    let visit = to_u32(visits.len())?;
    let entered = Visit {
        parent,
        instance,
        module: to_u32(module)?,
    };
    push(visits, entered)?;
    push(
        frames,
        Frame {
            visit,
            module,
            next: 0,
        },
    )?;
    Ok(visit)
}
