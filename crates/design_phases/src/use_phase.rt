//! The phase that walks through a design, for the cells that it uses.
ghost use Rattle.std.specs.Prelude.{◌≡◌};
ghost use Rattle.verdict_phases.specs.Phases.{FollowsNoFile};
ghost use Rattle.design_phases.specs.UsePhase.{limit_of, UsesCells};

use edge_io::{Text, TextList};
use hierarchy::{Count, UseEnd, used_cells};
use refusals::{LimitKind, Refusal};
use std::alloc::Global;
use verdict_phases::NoFileEnd;
use verilog_netlist::Modules;

// The limit of what is counted.
fn limit_of(count: Count) -> LimitKind
    ensures { result ≡ limit_of count }
{
    match count {
        Count::Depth => LimitKind::Depth,
        Count::Instances => LimitKind::Instances,
        Count::Names => LimitKind::Names,
        Count::Pins => LimitKind::Pins,
    }
}

/// The names of the cells that the design of the module of this name uses, each once, in the order in which a walk through the design
/// first meets them.
#[tactic(auto, using(crate::specs::UsePhase::are_used, crate::specs::UsePhase::no_top, crate::specs::UsePhase::recursive, crate::specs::UsePhase::too_many))]
pub fn use_cells(
    alloc: Global,
    modules: &Modules<'_>,
    top: &Text,
) -> Result<TextList, NoFileEnd<Refusal>>
    ensures follows { FollowsNoFile (UsesCells modules.now top.now) result }
{
    match used_cells(alloc, modules, top) {
        Ok(cells) => Ok(cells),
        Err(UseEnd::NoTop) => {
            let name = Text::from_bytes(alloc, top.bytes())?;
            Err(NoFileEnd::Refused(Refusal::NoTop { name }))
        }
        Err(UseEnd::Recursive(module)) => Err(NoFileEnd::Refused(Refusal::Recursive { module })),
        Err(UseEnd::TooMany(count)) => Err(NoFileEnd::Refused(Refusal::Limit(limit_of(count)))),
        Err(UseEnd::OutOfMemory) => Err(NoFileEnd::OutOfMemory),
    }
}
