//! The phase that puts the modules of a design together to a flat netlist.
ghost use Rattle.std.specs.Prelude.{IfOk};
ghost use Rattle.netlist_link.specs.FlatDesigns.{HasCells};
ghost use Rattle.netlist_link.specs.Linked.{IsLinked};
ghost use Rattle.verdict_phases.specs.Phases.{FollowsNoFile};
ghost use Rattle.design_phases.specs.LinkPhase.{LinksDesign};

use cell_models::CellSets;
use corner_set::CornerSet;
use edge_io::Text;
use netlist_link::{LinkEnd, Netlist, flatten_and_link};
use refusals::Refusal;
use std::alloc::Global;
use verdict_phases::NoFileEnd;
use verilog_netlist::Modules;

/// The flat netlist of the design of the module of this name, over the cells that it uses.
#[tactic(auto, using(crate::specs::LinkPhase::is_linked, crate::specs::LinkPhase::unknown_port, crate::specs::LinkPhase::width, crate::specs::LinkPhase::inout_pin, crate::specs::LinkPhase::name_clash, crate::specs::LinkPhase::several_drivers))]
pub fn link_design<C: CornerSet>(
    alloc: Global,
    modules: &Modules<'_>,
    top: &Text,
    cells: &CellSets<C>,
) -> Result<Netlist, NoFileEnd<Refusal>>
    requires cells { HasCells modules.now top.now cells.now }
    ensures follows { FollowsNoFile (LinksDesign modules.now top.now cells.now) result }
    ensures linked { IfOk result (IsLinked cells.now) }
{
    match flatten_and_link(alloc, modules, top, cells) {
        Ok(netlist) => Ok(netlist),
        Err(LinkEnd::UnknownPort { instance, port }) => {
            Err(NoFileEnd::Refused(Refusal::UnknownPort { instance, port }))
        }
        Err(
            LinkEnd::Width {
                instance,
                port,
                want,
                got,
            },
        ) => Err(NoFileEnd::Refused(Refusal::Width {
            instance,
            port,
            want,
            got,
        })),
        Err(LinkEnd::InoutPin { instance, pin }) => {
            Err(NoFileEnd::Refused(Refusal::InoutPin { instance, pin }))
        }
        Err(LinkEnd::NameClash(name)) => Err(NoFileEnd::Refused(Refusal::NameClash(name))),
        Err(LinkEnd::SeveralDrivers(net)) => Err(NoFileEnd::Refused(Refusal::SeveralDrivers(net))),
        Err(LinkEnd::OutOfMemory) => Err(NoFileEnd::OutOfMemory),
    }
}
