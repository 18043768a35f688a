//! The phases that find the loads and the Elmore sums of a design's nets.
ghost use Rattle.std.specs.Prelude.{◌≡◌, ◌<◌, ◌≤◌, ◌⊎◌, length, IfOk, IsTrue};
ghost use Rattle.delay_units.specs.Bounds.{most_farads};
ghost use Rattle.net_parasitics.specs.Inputs.{AreNamedApart, HaveSmallPins, inputs_of};
ghost use Rattle.net_parasitics.specs.NetTrees.{NoneMissing};
ghost use Rattle.net_parasitics.specs.WorkCounts.{IsWithin};
ghost use Rattle.verdict_phases.specs.Phases.{FollowsNoFile};
ghost use Rattle.refusals.specs.Refused.{OnRefusal};
ghost use Rattle.refusals.specs.EarlyRefusals.{is_early};
ghost use Rattle.delay_core.specs.DelayPhase.{net_text, IsTreeRefusal, FindsDelays};

use crate::settings::Settings;
use corner_set::CornerSet;
use edge_io::{OutOfMemory, Steps, Text};
use net_delays::NetDelays;
use net_parasitics::{ParasiticsEnd, net_delays};
use netlist_link::LinkedNetlist;
use rc_tree::TreeEnd;
use refusals::{LimitKind, Refusal};
use spef_nets::Sections;
use std::alloc::Global;
use std::sync::ledger::Ledger;
use verdict_phases::NoFileEnd;

// The refusal of a net of this name that has no tree.
#[tactic(auto, using(crate::specs::DelayPhase::strange_pin, crate::specs::DelayPhase::too_large, crate::specs::DelayPhase::unreached, crate::specs::DelayPhase::mesh))]
fn tree_refusal(net: Text, end: TreeEnd) -> Result<Refusal, OutOfMemory>
    ensures { IfOk result (IsTreeRefusal net end) }
{
    match end {
        TreeEnd::StrangePin(pin) => Ok(Refusal::StrangePin { net, pin }),
        TreeEnd::TooLarge => Ok(Refusal::Limit(LimitKind::Net(net))),
        TreeEnd::Unreached(node) => Ok(Refusal::Unreached { net, node }),
        TreeEnd::Mesh(resistor) => Ok(Refusal::Mesh { net, resistor }),
        TreeEnd::OutOfMemory => Err(OutOfMemory),
    }
}

/// The loads and the Elmore sums of the nets of a design, from the sections of a SPEF file: those of [`net_delays`], or its end as a
/// refusal.
#[tactic(auto, using(crate::specs::DelayPhase::are_delays, crate::specs::DelayPhase::missing_net, crate::specs::DelayPhase::no_tree, crate::proofs::NetEnds::missing_there, crate::proofs::NetEnds::tree_there, crate::proofs::NetEnds::is_late))]
pub fn find_delays<C: CornerSet, L: Ledger>(
    alloc: Global,
    linked: &LinkedNetlist<C>,
    sections: &Sections<'_, '_, C>,
    settings: &Settings,
    steps: &mut Steps<L>,
) -> Result<NetDelays<C>, NoFileEnd<Refusal>>
    requires apart { AreNamedApart linked.now.netlist }
    requires small_pins { HaveSmallPins linked.now.cells }
    requires small_ports { settings.now.port_load.0 ≤ most_farads }
    ensures follows { FollowsNoFile (FindsDelays (inputs_of C.COUNT linked.now.netlist linked.now.cells sections.now settings.now.port_load)
        settings.now.missing) result }
    ensures work { IsWithin (inputs_of C.COUNT linked.now.netlist linked.now.cells sections.now settings.now.port_load)
        (length linked.now.netlist.nets)
        steps.old steps.new }
    ensures no_steps { OnRefusal result (λ refusal. IsTrue (is_early refusal) → steps.new ≡ steps.old) }
    // no tree is built where a net is missing, whatever is answered
    ensures none_missing { (steps.new ≡ steps.old)
        ⊎ NoneMissing (inputs_of C.COUNT linked.now.netlist linked.now.cells sections.now settings.now.port_load) settings.now.missing }
{
    match net_delays(
        alloc,
        linked,
        sections,
        settings.port_load,
        settings.missing,
        steps,
    ) {
        Ok(nets) => Ok(nets),
        Err(ParasiticsEnd::MissingNet { net }) => {
            let net = Text::from_bytes(alloc, linked.netlist.net_text(net))?;
            Err(NoFileEnd::Refused(Refusal::MissingNet { net }))
        }
        Err(ParasiticsEnd::Tree { net, end }) => {
            let name = Text::from_bytes(alloc, linked.netlist.net_text(net))?;
            let refusal = tree_refusal(name, end)?;
            Err(NoFileEnd::Refused(refusal))
        }
        Err(ParasiticsEnd::OutOfMemory) => Err(NoFileEnd::OutOfMemory),
    }
}
