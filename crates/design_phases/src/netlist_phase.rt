//! The phase that reads the grammar of a netlist, and its names and ranges.
ghost use Rattle.std.specs.Prelude.{◌<◌, ◌^◌, length};
ghost use Rattle.verdict_phases.specs.Phases.{FollowsNoFile};
ghost use Rattle.design_phases.specs.NetlistPhase.{ParsesNetlist};

use refusals::Refusal;
use std::alloc::Global;
use verdict_phases::NoFileEnd;
use verilog_netlist::{Modules, VerilogEnd, parse};

/// Reads the modules of a netlist.
#[tactic(auto, using(crate::specs::NetlistPhase::is_netlist, crate::specs::NetlistPhase::no_netlist, crate::specs::NetlistPhase::no_structure, crate::specs::NetlistPhase::repeated_name, crate::specs::NetlistPhase::port_direction, crate::specs::NetlistPhase::bad_range))]
pub fn parse_netlist(alloc: Global, bytes: &[u8]) -> Result<Modules<'_>, NoFileEnd<Refusal>>
    requires { length bytes.now < 2 ^ 30 }
    ensures follows { FollowsNoFile (ParsesNetlist bytes.now) result }
{
    match parse(alloc, bytes) {
        Ok(modules) => Ok(modules),
        Err(VerilogEnd::Syntax { token }) => {
            Err(NoFileEnd::Refused(Refusal::NetlistSyntax { token }))
        }
        Err(VerilogEnd::NotStructural { word, token }) => {
            Err(NoFileEnd::Refused(Refusal::NotStructural { word, token }))
        }
        Err(VerilogEnd::Repeated { name }) => {
            Err(NoFileEnd::Refused(Refusal::RepeatedName { name }))
        }
        Err(VerilogEnd::PortDirection { name }) => {
            Err(NoFileEnd::Refused(Refusal::PortDirection { name }))
        }
        Err(VerilogEnd::BadRange { name }) => Err(NoFileEnd::Refused(Refusal::BadRange { name })),
        Err(VerilogEnd::OutOfMemory) => Err(NoFileEnd::OutOfMemory),
    }
}
