//! The rows of the wires of a SPEF file, added net by net once all sections are read.
ghost use Rattle.std.specs.Prelude.{◌≡◌, ◌+◌, ◌^◌, ◌<◌, ◌≤◌, [], length, IfOk, OnOk, IsTrue, Err};
ghost use Rattle.verdict_phases.specs.Phases.{FollowsNoFile};
ghost use Rattle.spef_text.specs.Heads.{IsHeadOf};
ghost use Rattle.wire_phases.specs.NetRows.{most_steps, AddsNetRows};
ghost use Rattle.refusals.specs.Refused.{OnRefusal};
ghost use Rattle.wire_phases.specs.SpefPhases.{sole_corner, NetsSpef};
ghost use Rattle.wire_phases.specs.WireNets.{NetGives, RowsOf};
ghost use Rattle.wire_phases.specs.WireRows.{SectionsGive, TextGives};
ghost use Rattle.refusals.specs.EarlyRefusals.{is_early};
ghost use Rattle.wire_phases.specs.SpefWork.{total_steps, SectionsWork, TextWork, IsWithin};

use crate::net_rows::add_net_rows;
use crate::spef_phases::{head_of, nets_of, parse_spef};
use corner_set::{Grid, Pick, Single};
use delay_units::Femto;
use edge_io::{OutOfMemory, Steps, Text};
use rc_tree::{RcTree, Scratch, Workspace};
use refusals::Refusal;
use sdf_writer::Rows;
use spef_nets::{Net, Sections};
use spef_text::{Head, SpefFile};
use std::alloc::Global;
use std::marker::Model;
use std::sync::ledger::Ledger;
use verdict_phases::NoFileEnd;

// The rows of the nets so far, and the lists that serve net after net. Contracts see the rows.
#[derive(Drop)]
struct WireRows {
    rows: Rows<Single>,
    // the delay of one row
    delay: Grid<Single, Femto>,
    workspace: Workspace,
    tree: RcTree<Single>,
    delays: Scratch<Single>,
}

impl Model for WireRows {
    ghost use Rattle.std.specs.Prelude.{◌≡◌, length};
    ghost use Rattle.sdf_writer.specs.SdfText.{SdfRows};

    ghost Value = { SdfRows };

    ghost view = { λ w. w.rows };

    ghost invariant = { λ w. length w.delay.values ≡ 1 };
}

impl WireRows {
    // No row yet, of the design that a head names.
    fn new(alloc: Global, head: &Head) -> Result<WireRows, OutOfMemory>
        ensures { IfOk result (λ rows. rows ≡ record { design = head.now.design; wires = []; paths = [] }) }
    {
        let delay = Grid::with_rows(alloc, 1, Femto(0))?;
        let delays = Scratch::reserve(alloc, 0)?;
        let tree = RcTree::new(alloc)?;
        let design = Text::from_bytes(alloc, head.design().bytes())?;
        Ok(WireRows {
            rows: Rows::new(alloc, design),
            delay,
            workspace: Workspace::new(alloc),
            tree,
            delays,
        })
    }

    // Adds the rows of a net, or refuses it.
    fn add<L: Ledger>(
        &mut self,
        alloc: Global,
        net: &Net<Single>,
        steps: &mut Steps<L>,
    ) -> Result<(), NoFileEnd<Refusal>>
        ensures rows { OnOk result (AddsNetRows net.now self.old self.new) }
        ensures refused { OnRefusal result (λ refusal. NetGives 1 net.now (Err refusal)) }
        ensures steps { steps.new ≤ steps.old + most_steps 1 net.now }
    {
        add_net_rows(
            alloc,
            net,
            &mut self.workspace,
            &mut self.tree,
            &mut self.delays,
            &mut self.delay,
            &mut self.rows,
            steps,
        )
    }

    // The rows of all nets.
    fn finish(self) -> Rows<Single>
        ensures { result ≡ self }
    {
        let WireRows {
            rows,
            delay: _,
            workspace: _,
            tree: _,
            delays: _,
        } = self;
        rows
    }
}

// Adds the rows of the nets one after another, up to the first that is refused.
fn rows_of_nets<L: Ledger>(
    alloc: Global,
    head: &Head,
    nets: &Sections<'_, '_, Single>,
    steps: &mut Steps<L>,
) -> Result<Rows<Single>, NoFileEnd<Refusal>>
    ensures follows { FollowsNoFile (RowsOf 1 (record { design = head.now.design; nets = nets.now })) result }
    ensures steps { steps.new ≤ steps.old + total_steps 1 nets.now }
{
    let mut rows = WireRows::new(alloc, head)?;
    for s in 0..nets.len() {
        rows.add(alloc, &nets.get(s), steps)?;
    }
    Ok(rows.finish())
}

// The nets of all sections of a SPEF file at one corner, where this member of each triple counts.
fn sole_nets<'r, 'f>(
    alloc: Global,
    file: &'r SpefFile<'f>,
    head: &'r Head,
    pick: Pick,
) -> Result<Sections<'r, 'f, Single>, NoFileEnd<Refusal>>
    requires { IsHeadOf file.now head.now }
    ensures follows { FollowsNoFile (NetsSpef (sole_corner pick) file.now head.now) result }
{
    nets_of::<Single>(alloc, file, head, pick)
}

// Reads the nets of all sections of a SPEF file, where this member of each triple counts, and then adds the rows of each.
#[tactic(auto, using(crate::specs::WireRows::faulty_section, crate::proofs::WireRows::sole_nets_give, crate::proofs::SpefWork::no_sections_work, crate::proofs::SpefWork::sections_work))]
fn wire_rows_of_sections<L: Ledger>(
    alloc: Global,
    file: &SpefFile,
    head: &Head,
    pick: Pick,
    steps: &mut Steps<L>,
) -> Result<Rows<Single>, NoFileEnd<Refusal>>
    requires { IsHeadOf file.now head.now }
    ensures follows { FollowsNoFile (SectionsGive (sole_corner pick) file.now head.now) result }
    ensures steps { IsWithin (SectionsWork (sole_corner pick) file.now head.now) steps.old steps.new }
    ensures no_steps { OnRefusal result (λ refusal. IsTrue (is_early refusal) → steps.new ≡ steps.old) }
{
    let nets = sole_nets(alloc, file, head, pick)?;
    rows_of_nets(alloc, head, &nets, steps)
}

/// The rows of the nets of a SPEF file's text, one for each wire: net after net, and in each its sinks in their order. This member
/// of each triple counts.
#[tactic(auto, using(crate::specs::SpefPhases::at_grammar, crate::specs::SpefPhases::at_head, crate::specs::WireRows::unread, crate::proofs::WireRows::text_gives, crate::proofs::SpefWork::no_text_work, crate::proofs::SpefWork::text_work))]
pub fn wire_rows_of_file<L: Ledger>(
    alloc: Global,
    text: Text,
    pick: Pick,
    steps: &mut Steps<L>,
) -> Result<Rows<Single>, NoFileEnd<Refusal>>
    requires { length text < 2 ^ 30 }
    ensures follows { FollowsNoFile (TextGives (sole_corner pick) text) result }
    ensures steps { IsWithin (TextWork (sole_corner pick) text) steps.old steps.new }
    ensures no_steps { OnRefusal result (λ refusal. IsTrue (is_early refusal) → steps.new ≡ steps.old) }
{
    let file = parse_spef(alloc, text.bytes())?;
    let head = head_of(alloc, &file)?;
    wire_rows_of_sections(alloc, &file, &head, pick, steps)
}
