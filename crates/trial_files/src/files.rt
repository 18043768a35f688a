//! The files of both shapes.
ghost use Rattle.std.specs.Prelude.{◌≡◌, ◌≤◌, IfOk};
ghost use Rattle.trial_files.specs.TrialLibrary as libraries;
ghost use Rattle.trial_files.specs.ChainNetlist as chain_netlists;
ghost use Rattle.trial_files.specs.ChainSpef as chain_spefs;
ghost use Rattle.trial_files.specs.BlockNetlist as block_netlists;
ghost use Rattle.trial_files.specs.BlockSpef as block_spefs;

use crate::block_netlist::block_netlist;
use crate::block_spef::block_spef;
use crate::chain::{chain_netlist, chain_spef};
use crate::library::trial_library;
use edge_io::{OutOfMemory, Text};
use std::alloc::Global;

/// What is calculated on: the module `top` at an input slew of 20 ps.
#[derive(Drop)]
pub struct TrialFiles {
    pub netlist: Text,
    pub library: Text,
    pub spef: Text,
}

/// Two inverters, and between them so many resistors one behind the other.
pub fn chain_files(alloc: Global, size: u32) -> Result<TrialFiles, OutOfMemory>
    requires some { 1 ≤ size }
    requires within { size ≤ 600000 }
    ensures netlist { IfOk result (λ files. files.netlist ≡ chain_netlists.chain_netlist) }
    ensures library { IfOk result (λ files. files.library ≡ libraries.trial_library) }
    ensures spef { IfOk result (λ files. files.spef ≡ chain_spefs.chain_spef size) }
{
    Ok(TrialFiles {
        netlist: chain_netlist(alloc)?,
        library: trial_library(alloc)?,
        spef: chain_spef(alloc, size)?,
    })
}

/// So many inverters one after the other.
pub fn block_files(alloc: Global, size: u32) -> Result<TrialFiles, OutOfMemory>
    requires some { 1 ≤ size }
    requires within { size ≤ 600000 }
    ensures netlist { IfOk result (λ files. files.netlist ≡ block_netlists.block_netlist size) }
    ensures library { IfOk result (λ files. files.library ≡ libraries.trial_library) }
    ensures spef { IfOk result (λ files. files.spef ≡ block_spefs.block_spef size) }
{
    Ok(TrialFiles {
        netlist: block_netlist(alloc, size)?,
        library: trial_library(alloc)?,
        spef: block_spef(alloc, size)?,
    })
}
