//! The sections of a file are read.
ghost use Rattle.std.specs.Prelude.{◌≡◌, ◌⊎◌, ◌^◌, ◌<◌, [], ◌∷◌, ◌++◌, length, Contains, IfOk, IfErr, OnOk, OnErr};
ghost use Rattle.spef_text.specs.Heads.{IsHeadOf};
ghost use Rattle.spef_text.specs.Entries.{section_at};
ghost use Rattle.spef_nets.specs.NetElements.{NetElements, AreWhole};
ghost use Rattle.spef_nets.specs.Sections.{Corners, IsNet, AreNets};
ghost use Rattle.spef_nets.specs.Faults.{IsFaultless, AreFaultless, IsSectionEnd, IsLeastFault};
ghost use Rattle.spef_nets.specs.Drafts.{corners_of, written_net, IsUnless};
ghost use Rattle.spef_nets.specs.DraftOf.{drafted};
ghost use Rattle.spef_nets.specs.Reading.{IsReading};
ghost use Rattle.spef_nets.specs.Rows.{no_rows};
ghost use Rattle.spef_nets.specs.RowsOf.{rows_of};
ghost use Rattle.spef_nets.specs.TablesOf.{HoldNets, nets_in};

use crate::draft::Draft;
use crate::ends::SectionEnd;
use crate::net_name::NetName;
use crate::net_names::NetNames;
use crate::parts::Joined;
use crate::sections::Sections;
use crate::source::Source;
use crate::tables::Tables;
use corner_set::{CornerSet, Pick};
use edge_io::Text;
use spef_text::{Head, SpefFile};
use std::alloc::Global;
use std::marker::PhantomData;

fn repeated(alloc: Global, net: &NetName<'_>, token: u64) -> SectionEnd
    ensures { IsUnless (λ end. end ≡ SectionEnd.RepeatedNet net.now token) result }
{
    match Text::from_bytes(alloc, net.bytes()) {
        Ok(net) => SectionEnd::RepeatedNet { net, token },
        Err(_) => SectionEnd::OutOfMemory,
    }
}

// Numbers a net by its section's place, or refuses it where it has a section already.
fn number_net<'r>(
    alloc: Global,
    nets: &mut NetNames<'r>,
    net: &NetName<'r>,
    token: u64,
) -> Result<(), SectionEnd>
    ensures new { OnOk result (¬ Contains nets.old net.now) }
    ensures put { OnOk result (nets.new ≡ nets.old ++ net.now ∷ []) }
    ensures err { IfErr result (IsUnless (λ end. Contains nets.old net.now × (end ≡ SectionEnd.RepeatedNet net.now token))) }
{
    if !nets.put(alloc, net)? {
        return Err(repeated(alloc, net, token));
    }
    Ok(())
}

// Reads the section behind those of these nets into the draft, and puts the name of its net behind theirs.
fn read_behind<'r, 'f, C: CornerSet>(
    source: &Source<'r, 'f>,
    nets: &mut NetNames<'r>,
    draft: &mut Draft<'r, 'f>,
    joints: &mut Vec<Joined>,
) -> Result<(), SectionEnd>
    requires reading { IsReading source.now.file.now source.now.head.now nets.old }
    requires left { length nets.old < length source.now.file.now.reading.sections }
    requires file { (drafted draft.old).refs.file ≡ source.now.file.now }
    ensures ok { OnOk result (IsNet (corners_of C.COUNT C.number_of C.member_of source.now.pick) source.now.file.now
        source.now.head.now (section_at source.now.file.now.reading.sections (length nets.old))
        (written_net (drafted draft.new).net (length (section_at source.now.file.now.reading.sections (length nets.old)).caps))) }
    ensures whole { OnOk result (AreWhole C.COUNT
        (written_net (drafted draft.new).net (length (section_at source.now.file.now.reading.sections (length nets.old)).caps))) }
    ensures file { OnOk result ((drafted draft.new).refs.file ≡ source.now.file.now) }
    ensures put { OnOk result (nets.new ≡ nets.old ++ (drafted draft.new).net.net ∷ []) }
    ensures reading { OnOk result (IsReading source.now.file.now source.now.head.now nets.new) }
    ensures refused { IfErr result (IsSectionEnd source.now.file.now source.now.head.now) }
{
    let place = nets.len();
    let token = source.file.net_token(place);
    source.put_net(token, &mut draft.net)?;
    number_net(source.alloc, nets, &draft.net, token)?;
    source.read_section::<C>(place, draft, joints)?;
    Ok(())
}

// Reads the next section, and puts its net behind those before it.
fn push_next<'r, 'f, C: CornerSet>(
    source: &Source<'r, 'f>,
    nets: &mut NetNames<'r>,
    tables: &mut Tables,
    draft: &mut Draft<'r, 'f>,
    joints: &mut Vec<Joined>,
) -> Result<(), SectionEnd>
    requires reading { IsReading source.now.file.now source.now.head.now nets.old }
    requires left { length nets.old < length source.now.file.now.reading.sections }
    requires held { HoldNets source.now.file.now source.now.head.now C.COUNT nets.old tables.old }
    requires file { (drafted draft.old).refs.file ≡ source.now.file.now }
    ensures next { OnOk result ((net : NetElements)
        × IsNet (corners_of C.COUNT C.number_of C.member_of source.now.pick) source.now.file.now source.now.head.now
        (section_at source.now.file.now.reading.sections (length nets.old)) net
        × (nets_in source.now.file.now C.COUNT nets.new tables.new ≡ nets_in source.now.file.now C.COUNT nets.old tables.old ++ net ∷ [])) }
    ensures held { OnOk result (HoldNets source.now.file.now source.now.head.now C.COUNT nets.new tables.new) }
    ensures reading { OnOk result (IsReading source.now.file.now source.now.head.now nets.new) }
    ensures file { OnOk result ((drafted draft.new).refs.file ≡ source.now.file.now) }
    ensures refused { IfErr result (IsSectionEnd source.now.file.now source.now.head.now) }
{
    let written = source.file.cap_count(nets.len());
    read_behind::<C>(source, nets, draft, joints)?;
    draft.put_into(source.alloc, written, tables)?;
    Ok(())
}

// Reads all sections into the lists, which are empty.
fn push_all<'r, 'f, C: CornerSet>(
    source: &Source<'r, 'f>,
    nets: &mut NetNames<'r>,
    tables: &mut Tables,
) -> Result<(), SectionEnd>
    requires head { IsHeadOf source.now.file.now source.now.head.now }
    requires nets { nets.old ≡ [] }
    requires nodes { tables.old.nodes.items ≡ [] }
    requires rows { rows_of tables.old.elements ≡ no_rows }
    requires ends { tables.old.ends.items ≡ [] }
    ensures ok { OnOk result (AreNets (corners_of C.COUNT C.number_of C.member_of source.now.pick) source.now.file.now source.now.head.now
        (nets_in source.now.file.now C.COUNT nets.new tables.new)) }
    ensures held { OnOk result (HoldNets source.now.file.now source.now.head.now C.COUNT nets.new tables.new) }
    ensures count { OnOk result (length nets.new ≡ length source.now.file.now.reading.sections) }
    ensures refused { IfErr result (IsSectionEnd source.now.file.now source.now.head.now) }
    ensures faultless { OnOk result (AreFaultless source.now.file.now source.now.head.now) }
{
    let mut draft = Draft::new(source.alloc, source.file, source.head);
    let mut joints = Vec::new(source.alloc);
    push_each::<C>(source, nets, tables, &mut draft, &mut joints)
}

// The same with a draft and a list of joints, which are let go of in one place, where all ways out have come together.
fn push_each<'r, 'f, C: CornerSet>(
    source: &Source<'r, 'f>,
    nets: &mut NetNames<'r>,
    tables: &mut Tables,
    draft: &mut Draft<'r, 'f>,
    joints: &mut Vec<Joined>,
) -> Result<(), SectionEnd>
    requires file { (drafted draft.old).refs.file ≡ source.now.file.now }
    requires head { IsHeadOf source.now.file.now source.now.head.now }
    requires nets { nets.old ≡ [] }
    requires nodes { tables.old.nodes.items ≡ [] }
    requires rows { rows_of tables.old.elements ≡ no_rows }
    requires ends { tables.old.ends.items ≡ [] }
    ensures ok { OnOk result (AreNets (corners_of C.COUNT C.number_of C.member_of source.now.pick) source.now.file.now source.now.head.now
        (nets_in source.now.file.now C.COUNT nets.new tables.new)) }
    ensures held { OnOk result (HoldNets source.now.file.now source.now.head.now C.COUNT nets.new tables.new) }
    ensures count { OnOk result (length nets.new ≡ length source.now.file.now.reading.sections) }
    ensures refused { IfErr result (IsSectionEnd source.now.file.now source.now.head.now) }
    ensures faultless { OnOk result (AreFaultless source.now.file.now source.now.head.now) }
{
    for _ in 0..source.file.section_count() {
        push_next::<C>(source, nets, tables, draft, joints)?;
    }
    Ok(())
}

/// Reads all sections of a file (IEEE 1481). A net has its nodes by first place, the connections (of several with one node the first
/// alone), the capacitances, a coupling to ground at each of its two places whose node belongs to the section, and the resistors; each
/// value is the rounded reading of the member that counts at the corner. One number stands for all three. It takes one look-up for
/// each reference at most.
///
/// The first fault in the order of the file is told, which is the one with the least token; at one token they come in the order of
/// [`SectionEnd`]. All three members of a value are examined. The total behind a net, the lines `*N`, and the loads of later
/// connections with one node are not.
pub fn read_sections<'r, 'f, C: CornerSet>(
    alloc: Global,
    file: &'r SpefFile<'f>,
    head: &'r Head,
    pick: Pick,
) -> Result<Sections<'r, 'f, C>, SectionEnd>
    requires { IsHeadOf file.now head.now }
    // What is answered is what the sections say.
    ensures ok { IfOk result (AreNets (record { count = C.COUNT; number = C.number_of; member = λ corner. C.member_of corner pick })
        file.now head.now) }
    // A refusal is the first fault.
    ensures refused { IfErr result (IsSectionEnd file.now head.now) }
    // It is the one with the least token, and at one token the first in the order of the enum.
    ensures least { IfErr result (λ end. (end ≡ SectionEnd.OutOfMemory) ⊎ IsLeastFault file.now head.now end) }
    // A file with a fault is refused; so one without is not, unless memory ran out.
    ensures faultless { OnOk result (AreFaultless file.now head.now) }
{
    let source = Source {
        alloc,
        file,
        head,
        pick,
    };
    let mut nets = NetNames::with_room(alloc, file.section_count())?;
    let mut tables = Tables::with_room::<C>(alloc, file)?;
    file.formed();
    push_all::<C>(&source, &mut nets, &mut tables)?;
    Ok(Sections {
        file,
        head,
        nets,
        tables,
        corners: PhantomData,
    })
}
