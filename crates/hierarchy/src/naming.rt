//! Modules by their names.
ghost use Rattle.std.specs.Prelude.{◌≡◌, ◌<◌, ◌≤◌, length, IfSome, IfNone};
ghost use Rattle.hierarchy.specs.Hierarchy.{module_named};

use verilog_netlist::Modules;

/// The number of the module of this name, if the file has it. It takes one look-up in a table.
pub(crate) fn find_module(modules: &Modules, name: &[u8]) -> Option<usize>
    ensures named { IfSome result (λ m. m ≡ module_named modules.now name.now) }
    ensures within { IfSome result (λ m. m < length modules.now) }
    ensures none { IfNone result (length modules.now ≤ module_named modules.now name.now) }
{
    modules.sound();
    modules.find(name)
}
