//! The phases that read a SPEF file: its grammar, its head, and the nets of its sections.
ghost use Rattle.std.specs.Prelude.{◌^◌, ◌<◌, length};
ghost use Rattle.verdict_phases.specs.Phases.{FollowsNoFile};
ghost use Rattle.spef_text.specs.Heads.{IsHeadOf};
ghost use Rattle.spef_nets.specs.Drafts.{corners_of};
ghost use Rattle.wire_phases.specs.SpefPhases.{ParsesSpef, HeadsSpef, NetsSpef};

use corner_set::{CornerSet, Pick};
use refusals::{IndexKind, NumberKind, Refusal};
use spef_nets::{SectionEnd, Sections, read_sections};
use spef_text::{Head, HeadEnd, SpefEnd, SpefFile, parse, read_head};
use std::alloc::Global;
use verdict_phases::NoFileEnd;

/// Reads the grammar of a SPEF file.
#[tactic(auto, using(crate::specs::SpefPhases::is_spef, crate::specs::SpefPhases::no_spef, crate::specs::SpefPhases::no_form))]
pub fn parse_spef(alloc: Global, bytes: &[u8]) -> Result<SpefFile<'_>, NoFileEnd<Refusal>>
    requires { length bytes.now < 2 ^ 30 }
    ensures follows { FollowsNoFile (ParsesSpef bytes.now) result }
{
    match parse(alloc, bytes) {
        Ok(file) => Ok(file),
        Err(SpefEnd::Syntax { token }) => Err(NoFileEnd::Refused(Refusal::SpefSyntax { token })),
        Err(SpefEnd::Form { word, token }) => {
            Err(NoFileEnd::Refused(Refusal::SpefForm { word, token }))
        }
        Err(SpefEnd::OutOfMemory) => Err(NoFileEnd::OutOfMemory),
    }
}

/// Reads the head of a SPEF file.
#[tactic(auto, using(crate::specs::SpefPhases::is_head, crate::specs::SpefPhases::bad_unit, crate::specs::SpefPhases::repeated_index))]
pub fn head_of(alloc: Global, file: &SpefFile) -> Result<Head, NoFileEnd<Refusal>>
    ensures follows { FollowsNoFile (HeadsSpef file.now) result }
{
    match read_head(alloc, file) {
        Ok(head) => Ok(head),
        Err(HeadEnd::BadUnit { token }) => Err(NoFileEnd::Refused(Refusal::SpefNumber {
            kind: NumberKind::BadUnit,
            token,
        })),
        Err(HeadEnd::RepeatedIndex { token }) => Err(NoFileEnd::Refused(Refusal::NameIndex {
            kind: IndexKind::Repeated,
            token,
        })),
        Err(HeadEnd::OutOfMemory) => Err(NoFileEnd::OutOfMemory),
    }
}

/// Reads the nets of all sections of a SPEF file at each corner, where this member of each triple counts if the run has one corner.
#[tactic(auto, using(crate::specs::SpefPhases::are_nets, crate::specs::SpefPhases::unknown_index, crate::specs::SpefPhases::bad_number, crate::specs::SpefPhases::value_too_large, crate::specs::SpefPhases::repeated_net, crate::specs::SpefPhases::foreign_coupling))]
pub fn nets_of<'r, 'f, C: CornerSet>(
    alloc: Global,
    file: &'r SpefFile<'f>,
    head: &'r Head,
    pick: Pick,
) -> Result<Sections<'r, 'f, C>, NoFileEnd<Refusal>>
    requires { IsHeadOf file.now head.now }
    ensures follows { FollowsNoFile (NetsSpef (corners_of C.COUNT C.number_of C.member_of pick) file.now head.now) result }
{
    match read_sections(alloc, file, head, pick) {
        Ok(sections) => {
            sections.whole();
            Ok(sections)
        }
        Err(SectionEnd::UnknownIndex { token }) => Err(NoFileEnd::Refused(Refusal::NameIndex {
            kind: IndexKind::Unknown,
            token,
        })),
        Err(SectionEnd::BadNumber { token }) => Err(NoFileEnd::Refused(Refusal::SpefNumber {
            kind: NumberKind::BadNumber,
            token,
        })),
        Err(SectionEnd::ValueTooLarge { token }) => Err(NoFileEnd::Refused(Refusal::SpefNumber {
            kind: NumberKind::ValueTooLarge,
            token,
        })),
        Err(SectionEnd::RepeatedNet { net, token: _ }) => {
            Err(NoFileEnd::Refused(Refusal::RepeatedNet { net }))
        }
        Err(SectionEnd::ForeignCoupling { net, token }) => {
            Err(NoFileEnd::Refused(Refusal::ForeignCoupling { net, token }))
        }
        Err(SectionEnd::OutOfMemory) => Err(NoFileEnd::OutOfMemory),
    }
}
