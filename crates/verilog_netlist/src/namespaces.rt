//! The names that must differ from one another.
ghost use Rattle.std.specs.Prelude.{◌≡◌};
ghost use Rattle.verilog_netlist.specs.Namespaces.{name_of, own_names, header_names, begins_module, begins_instance};
ghost use Rattle.verilog_netlist.specs.NameKeys.{needed_names};

use crate::entries::{Decl, Entry};
use token_texts::Span;

/// Names that must differ from one another: those of modules in a file; the names of a header, those that directions declare, those
/// that `wire` declares and those of instances in a module; the ports of an instance.
#[derive(Clone, Copy)]
pub enum Names {
    Modules,
    Headers,
    Directions,
    Wires,
    Instances,
    Ports,
}

impl Entry {
    /// The name that an entry speaks of; of a constant the constant itself.
    #[inline]
    pub fn name(self) -> Span
        ensures { result ≡ name_of self }
    {
        match self {
            Entry::Module(name) => name,
            Entry::Header(name) => name,
            Entry::Declared(_, name, _) => name,
            Entry::Instance(_, name) => name,
            Entry::Port(name) => name,
            Entry::Whole(name) => name,
            Entry::Bit(name, _) => name,
            Entry::Part(name, _) => name,
            Entry::Constant(name) => name,
        }
    }

    /// The names among which an entry's name must be new.
    #[inline]
    pub(crate) fn own_names(self) -> Option<Names>
        ensures { result ≡ own_names self }
    {
        match self {
            Entry::Module(_) => Some(Names::Modules),
            Entry::Header(_) => Some(Names::Headers),
            Entry::Declared(Decl::Wire, _, _) => Some(Names::Wires),
            Entry::Declared(_, _, _) => Some(Names::Directions),
            Entry::Instance(_, _) => Some(Names::Instances),
            Entry::Port(_) => Some(Names::Ports),
            _ => None,
        }
    }

    /// The names of the header, where a direction declares a name of it.
    #[inline]
    pub(crate) fn header_names(self) -> Option<Names>
        ensures { result ≡ header_names self }
    {
        match self {
            Entry::Declared(Decl::InHeader(_), _, _) => Some(Names::Headers),
            _ => None,
        }
    }

    /// The names among which an entry's name needs a pair, where it has none in itself.
    #[inline]
    pub(crate) fn needed_names(self) -> Option<Names>
        ensures { result ≡ needed_names self }
    {
        match self {
            Entry::Header(_) => Some(Names::Directions),
            Entry::Declared(Decl::Port(_), _, _) => Some(Names::Headers),
            _ => None,
        }
    }

    #[inline]
    pub(crate) fn begins_module(self) -> bool
        ensures { result ≡ begins_module self }
    {
        matches!(self, Entry::Module(_))
    }

    #[inline]
    pub(crate) fn begins_instance(self) -> bool
        ensures { result ≡ begins_instance self }
    {
        matches!(self, Entry::Instance(_, _))
    }
}
