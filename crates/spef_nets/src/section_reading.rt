//! One section is read.
ghost use Rattle.std.specs.Prelude.{◌≡◌, ◌<◌, ◌+◌, true, false, [], length, slice_get, Some, None, IfOk, OnOk, IfErr, IfSome, IfNone};
ghost use Rattle.spef_text.specs.Heads.{IsHeadOf, text_of};
ghost use Rattle.spef_text.specs.Entries.{section_at};
ghost use Rattle.spef_text.specs.declared.entries.Res.{Res};
ghost use Rattle.spef_nets.specs.Nodes.{net_at};
ghost use Rattle.spef_nets.specs.NetElements.{AreWhole};
ghost use Rattle.spef_nets.specs.Sections.{IsNet};
ghost use Rattle.spef_nets.specs.Faults.{naming, IsGood, IsFaultless};
ghost use Rattle.spef_nets.specs.Refs.{ArePlaced, IsNamed, AreRefs, IsRef, Grows, res_keys};
ghost use Rattle.spef_nets.specs.RefsOf.{refs_of};
ghost use Rattle.spef_nets.specs.Drafts.{corners_of, IsUpto, IsStop, AreSomeRefs, JoinsAt, AllJoined, AreJoined, points_upto, IsLoad, IsLoadFault, IsUnless, CountsBy, no_draft, written_net};
ghost use Rattle.spef_nets.specs.DraftOf.{drafted};

use crate::amounts::Grains;
use crate::draft::Draft;
use crate::ends::SectionEnd;
use crate::net_name::NetName;
use crate::parts::{Joined, spelling_of};
use crate::referred::Referred;
use crate::source::Source;
use corner_set::CornerSet;
use edge_io::lists::push;
use edge_io::{OutOfMemory, Text};
use spef_text::{Cap, Conn};

fn known(spelling: Option<usize>, token: u64) -> Result<usize, SectionEnd>
    ensures ok { IfOk result (λ number. spelling ≡ Some number) }
    ensures none { IfErr result (λ _. spelling ≡ None) }
    ensures err { IfErr result (λ end. end ≡ SectionEnd.UnknownIndex token) }
{
    match spelling {
        Some(spelling) => Ok(spelling),
        None => Err(SectionEnd::UnknownIndex { token }),
    }
}

fn neither(one: bool, other: bool) -> bool
    ensures yes { result ≡ true → (one ≡ false) × (other ≡ false) }
    ensures no { result ≡ false → one ≡ false → other ≡ false → ⊥ }
{
    !one && !other
}

impl<'r, 'f> Source<'r, 'f> {
    // The spelling of a node that stands in a resistor.
    fn joined_at(
        &self,
        refs: &mut Referred<'r, 'f>,
        net: &NetName<'_>,
        token: u64,
    ) -> Result<Option<usize>, OutOfMemory>
        requires head { IsHeadOf self.now.file.now self.now.head.now }
        requires refs { AreSomeRefs self.now.file.now net.now (refs_of refs.old) }
        ensures { IfOk result (JoinsAt self.now.file.now net.now token (refs_of refs.old) (refs_of refs.new)) }
    {
        match self.spelling_at(refs, net, token)? {
            Some(spelling) => {
                refs.join(spelling);
                Ok(Some(spelling))
            }
            None => Ok(None),
        }
    }

    // The nodes of the resistors, before any fault is looked for: a coupling belongs by any of them.
    fn read_joints(
        &self,
        s: usize,
        refs: &mut Referred<'r, 'f>,
        net: &NetName<'_>,
        joints: &mut Vec<Joined>,
    ) -> Result<(), OutOfMemory>
        requires section { s < length self.now.file.now.reading.sections }
        requires head { IsHeadOf self.now.file.now self.now.head.now }
        requires refs { AreRefs self.now.file.now net.now [] [] (refs_of refs.old) }
        ensures joints { OnOk result
            (AllJoined self.now.file.now (refs_of refs.new).words (section_at self.now.file.now.reading.sections s).ress joints.new.items) }
        ensures refs { OnOk result
            (AreRefs self.now.file.now net.now [] (res_keys self.now.file.now (section_at self.now.file.now.reading.sections s).ress)
            (refs_of refs.new)) }
        ensures count { OnOk result (length joints.new.items ≡ length (section_at self.now.file.now.reading.sections s).ress) }
        ensures nodes { OnOk result ((refs_of refs.new).nodes ≡ (refs_of refs.old).nodes) }
    {
        joints.clear();
        joints.reserve(self.file.res_count(s))?;
        for i in 0..self.file.res_count(s) {
            let res = self.file.res(s, i);
            let first = self.joined_at(refs, net, res.first)?;
            let second = self.joined_at(refs, net, res.second)?;
            push(joints, Joined::of(first, second)?)?;
        }
        Ok(())
    }

    // Begins with a section, of which the nodes of the resistors are known then.
    fn begin<C: CornerSet>(
        &self,
        s: usize,
        draft: &mut Draft<'r, 'f>,
        joints: &mut Vec<Joined>,
    ) -> Result<(), OutOfMemory>
        requires section { s < length self.now.file.now.reading.sections }
        requires head { IsHeadOf self.now.file.now self.now.head.now }
        requires net { net_at self.now.file.now (section_at self.now.file.now.reading.sections s).net ≡ Some (drafted draft.old).net.net }
        requires new { IsGood self.now.file.now s (section_at self.now.file.now.reading.sections s)
            (naming (section_at self.now.file.now.reading.sections s).net) }
        requires fresh { drafted draft.old ≡ no_draft self.now.file.now (drafted draft.old).net.net }
        ensures upto { OnOk result
            (IsUpto (corners_of C.COUNT C.number_of C.member_of self.now.pick) self.now.file.now self.now.head.now s
            (length (section_at self.now.file.now.reading.sections s).ress) 0 0 0 (drafted draft.new)) }
        ensures joints { OnOk result
            (AllJoined self.now.file.now (drafted draft.new).refs.words
            (section_at self.now.file.now.reading.sections s).ress joints.new.items) }
        ensures count { OnOk result (length joints.new.items ≡ length (section_at self.now.file.now.reading.sections s).ress) }
    {
        self.read_joints(s, &mut draft.refs, &draft.net, joints)?;
        Ok(())
    }

    // A connection without a load has the load 0.
    fn load_of(&self, conn: &Conn) -> Result<Grains, SectionEnd>
        ensures ok { IfOk result (IsLoad self.now.file.now self.now.head.now.cap_unit conn.now.load) }
        ensures err { IfErr result (IsLoadFault self.now.file.now self.now.head.now.cap_unit conn.now.load) }
    {
        match conn.load {
            Some(token) => self.farads_at(token),
            None => Ok(Grains {
                min: 0,
                typ: 0,
                max: 0,
            }),
        }
    }

    // Of several connections with one node the first alone counts.
    fn read_conn<C: CornerSet>(
        &self,
        s: usize,
        i: usize,
        draft: &mut Draft<'r, 'f>,
    ) -> Result<(), SectionEnd>
        requires section { s < length self.now.file.now.reading.sections }
        requires place { i < length (section_at self.now.file.now.reading.sections s).conns }
        requires head { IsHeadOf self.now.file.now self.now.head.now }
        requires upto { IsUpto (corners_of C.COUNT C.number_of C.member_of self.now.pick) self.now.file.now self.now.head.now s
            (length (section_at self.now.file.now.reading.sections s).ress) i 0 0 (drafted draft.old) }
        ensures upto { OnOk result
            (IsUpto (corners_of C.COUNT C.number_of C.member_of self.now.pick) self.now.file.now self.now.head.now s
            (length (section_at self.now.file.now.reading.sections s).ress) (i + 1) 0 0 (drafted draft.new)) }
        ensures grows { OnOk result (Grows (drafted draft.old).refs.words (drafted draft.new).refs.words) }
        ensures err { IfErr result (IsStop self.now.file.now self.now.head.now s) }
    {
        let conn = self.file.conn(s, i);
        let spelling = self.spelling_at(&mut draft.refs, &draft.net, conn.node)?;
        let spelling = known(spelling, conn.node)?;
        if draft.refs.list(spelling) {
            return Ok(());
        }
        let load = self.load_of(&conn)?;
        draft.put_conn::<C>(spelling, &conn, load, self.pick)?;
        Ok(())
    }

    fn read_conns<C: CornerSet>(
        &self,
        s: usize,
        draft: &mut Draft<'r, 'f>,
    ) -> Result<(), SectionEnd>
        requires section { s < length self.now.file.now.reading.sections }
        requires head { IsHeadOf self.now.file.now self.now.head.now }
        requires upto { IsUpto (corners_of C.COUNT C.number_of C.member_of self.now.pick) self.now.file.now self.now.head.now s
            (length (section_at self.now.file.now.reading.sections s).ress) 0 0 0 (drafted draft.old) }
        ensures upto { OnOk result
            (IsUpto (corners_of C.COUNT C.number_of C.member_of self.now.pick) self.now.file.now self.now.head.now s
            (length (section_at self.now.file.now.reading.sections s).ress)
            (length (section_at self.now.file.now.reading.sections s).conns) 0 0 (drafted draft.new)) }
        ensures grows { OnOk result (Grows (drafted draft.old).refs.words (drafted draft.new).refs.words) }
        ensures err { IfErr result (IsStop self.now.file.now self.now.head.now s) }
    {
        for i in 0..self.file.conn_count(s) {
            self.read_conn::<C>(s, i, draft)?;
        }
        Ok(())
    }

    fn foreign(&self, net: &NetName<'_>, token: u64) -> SectionEnd
        ensures { IsUnless (λ end. end ≡ SectionEnd.ForeignCoupling net.now token) result }
    {
        match Text::from_bytes(self.alloc, net.bytes()) {
            Ok(net) => SectionEnd::ForeignCoupling { net, token },
            Err(_) => SectionEnd::OutOfMemory,
        }
    }

    // Puts a capacitance to ground at a node, if it counts there.
    fn count<C: CornerSet>(
        &self,
        draft: &mut Draft<'r, 'f>,
        counts: bool,
        spelling: usize,
        value: Grains,
    ) -> Result<(), OutOfMemory>
        requires within { spelling < length (refs_of draft.old.refs).places }
        requires named { IsNamed (refs_of draft.old.refs) spelling }
        requires placed { ArePlaced (refs_of draft.old.refs) }
        ensures { OnOk result (CountsBy (corners_of C.COUNT C.number_of C.member_of self.now.pick) (drafted draft.old)
            (drafted draft.new) spelling value counts) }
    {
        if counts {
            draft.put_cap::<C>(spelling, value, self.pick)
        } else {
            Ok(())
        }
    }

    // A coupling counts at each of its two places whose node belongs.
    fn read_coupling<C: CornerSet>(
        &self,
        s: usize,
        i: usize,
        draft: &mut Draft<'r, 'f>,
        cap: &Cap,
        first: usize,
        second_token: u64,
    ) -> Result<(), SectionEnd>
        requires section { s < length self.now.file.now.reading.sections }
        requires head { IsHeadOf self.now.file.now self.now.head.now }
        requires cap { slice_get (section_at self.now.file.now.reading.sections s).caps i ≡ Some cap.now }
        requires second { cap.now.second ≡ Some second_token }
        requires first { IsRef self.now.file.now (drafted draft.old).refs.words cap.now.first (Some first) }
        requires upto { IsUpto (corners_of C.COUNT C.number_of C.member_of self.now.pick) self.now.file.now self.now.head.now s
            (length (section_at self.now.file.now.reading.sections s).ress)
            (length (section_at self.now.file.now.reading.sections s).conns) i 0 (drafted draft.old) }
        ensures upto { OnOk result
            (IsUpto (corners_of C.COUNT C.number_of C.member_of self.now.pick) self.now.file.now self.now.head.now s
            (length (section_at self.now.file.now.reading.sections s).ress) (length (section_at self.now.file.now.reading.sections s).conns)
            (i + 1) 0 (drafted draft.new)) }
        ensures grows { OnOk result (Grows (drafted draft.old).refs.words (drafted draft.new).refs.words) }
        ensures err { IfErr result (IsStop self.now.file.now self.now.head.now s) }
    {
        let second = self.spelling_at(&mut draft.refs, &draft.net, second_token)?;
        let near = draft.refs.belongs(first);
        let far = draft.refs.belongs_if_known(second);
        if neither(near, far) {
            return Err(self.foreign(&draft.net, cap.first));
        }
        let second = known(second, second_token)?;
        let value = self.farads_at(cap.value)?;
        self.count::<C>(draft, near, first, value)?;
        self.count::<C>(draft, far, second, value)?;
        Ok(())
    }

    fn read_cap<C: CornerSet>(
        &self,
        s: usize,
        i: usize,
        draft: &mut Draft<'r, 'f>,
    ) -> Result<(), SectionEnd>
        requires section { s < length self.now.file.now.reading.sections }
        requires head { IsHeadOf self.now.file.now self.now.head.now }
        requires place { i < length (section_at self.now.file.now.reading.sections s).caps }
        requires upto { IsUpto (corners_of C.COUNT C.number_of C.member_of self.now.pick) self.now.file.now self.now.head.now s
            (length (section_at self.now.file.now.reading.sections s).ress)
            (length (section_at self.now.file.now.reading.sections s).conns) i 0 (drafted draft.old) }
        ensures upto { OnOk result
            (IsUpto (corners_of C.COUNT C.number_of C.member_of self.now.pick) self.now.file.now self.now.head.now s
            (length (section_at self.now.file.now.reading.sections s).ress) (length (section_at self.now.file.now.reading.sections s).conns)
            (i + 1) 0 (drafted draft.new)) }
        ensures grows { OnOk result (Grows (drafted draft.old).refs.words (drafted draft.new).refs.words) }
        ensures err { IfErr result (IsStop self.now.file.now self.now.head.now s) }
    {
        let cap = self.file.cap(s, i);
        let first = self.spelling_at(&mut draft.refs, &draft.net, cap.first)?;
        let first = known(first, cap.first)?;
        match cap.second {
            Some(second) => self.read_coupling::<C>(s, i, draft, &cap, first, second),
            None => {
                let value = self.farads_at(cap.value)?;
                draft.put_cap::<C>(first, value, self.pick)?;
                Ok(())
            }
        }
    }

    fn read_caps<C: CornerSet>(&self, s: usize, draft: &mut Draft<'r, 'f>) -> Result<(), SectionEnd>
        requires section { s < length self.now.file.now.reading.sections }
        requires head { IsHeadOf self.now.file.now self.now.head.now }
        requires upto { IsUpto (corners_of C.COUNT C.number_of C.member_of self.now.pick) self.now.file.now self.now.head.now s
            (length (section_at self.now.file.now.reading.sections s).ress)
            (length (section_at self.now.file.now.reading.sections s).conns) 0 0 (drafted draft.old) }
        ensures upto { OnOk result
            (IsUpto (corners_of C.COUNT C.number_of C.member_of self.now.pick) self.now.file.now self.now.head.now s
            (length (section_at self.now.file.now.reading.sections s).ress) (length (section_at self.now.file.now.reading.sections s).conns)
            (length (section_at self.now.file.now.reading.sections s).caps) 0 (drafted draft.new)) }
        ensures grows { OnOk result (Grows (drafted draft.old).refs.words (drafted draft.new).refs.words) }
        ensures err { IfErr result (IsStop self.now.file.now self.now.head.now s) }
    {
        for i in 0..self.file.cap_count(s) {
            self.read_cap::<C>(s, i, draft)?;
        }
        Ok(())
    }

    fn read_res<C: CornerSet>(
        &self,
        s: usize,
        i: usize,
        draft: &mut Draft<'r, 'f>,
        joined: Joined,
    ) -> Result<(), SectionEnd>
        requires section { s < length self.now.file.now.reading.sections }
        requires head { IsHeadOf self.now.file.now self.now.head.now }
        requires place { i < length (section_at self.now.file.now.reading.sections s).ress }
        requires upto { IsUpto (corners_of C.COUNT C.number_of C.member_of self.now.pick) self.now.file.now self.now.head.now s
            (length (section_at self.now.file.now.reading.sections s).ress) (length (section_at self.now.file.now.reading.sections s).conns)
            (length (section_at self.now.file.now.reading.sections s).caps) i (drafted draft.old) }
        requires joined { (res : Res) → slice_get (section_at self.now.file.now.reading.sections s).ress i ≡ Some res
            → AreJoined self.now.file.now (drafted draft.old).refs.words res joined }
        ensures upto { OnOk result
            (IsUpto (corners_of C.COUNT C.number_of C.member_of self.now.pick) self.now.file.now self.now.head.now s
            (length (section_at self.now.file.now.reading.sections s).ress) (length (section_at self.now.file.now.reading.sections s).conns)
            (length (section_at self.now.file.now.reading.sections s).caps) (i + 1) (drafted draft.new)) }
        ensures words { OnOk result ((drafted draft.new).refs.words ≡ (drafted draft.old).refs.words) }
        ensures err { IfErr result (IsStop self.now.file.now self.now.head.now s) }
    {
        let res = self.file.res(s, i);
        let first = known(spelling_of(joined.first), res.first)?;
        let second = known(spelling_of(joined.second), res.second)?;
        let value = self.ohms_at(res.value)?;
        draft.put_res::<C>(first, second, value, self.pick)?;
        Ok(())
    }

    fn read_ress<C: CornerSet>(
        &self,
        s: usize,
        draft: &mut Draft<'r, 'f>,
        joints: &[Joined],
    ) -> Result<(), SectionEnd>
        requires section { s < length self.now.file.now.reading.sections }
        requires head { IsHeadOf self.now.file.now self.now.head.now }
        requires upto { IsUpto (corners_of C.COUNT C.number_of C.member_of self.now.pick) self.now.file.now self.now.head.now s
            (length (section_at self.now.file.now.reading.sections s).ress) (length (section_at self.now.file.now.reading.sections s).conns)
            (length (section_at self.now.file.now.reading.sections s).caps) 0 (drafted draft.old) }
        requires many { length joints.now ≡ length (section_at self.now.file.now.reading.sections s).ress }
        requires joints { AllJoined self.now.file.now (drafted draft.old).refs.words
            (section_at self.now.file.now.reading.sections s).ress joints.now }
        ensures upto { OnOk result
            (IsUpto (corners_of C.COUNT C.number_of C.member_of self.now.pick) self.now.file.now self.now.head.now s
            (length (section_at self.now.file.now.reading.sections s).ress) (length (section_at self.now.file.now.reading.sections s).conns)
            (length (section_at self.now.file.now.reading.sections s).caps) (length (section_at self.now.file.now.reading.sections s).ress)
            (drafted draft.new)) }
        ensures err { IfErr result (IsStop self.now.file.now self.now.head.now s) }
    {
        for i in 0..self.file.res_count(s) {
            self.read_res::<C>(s, i, draft, joints[i])?;
        }
        Ok(())
    }

    // Puts the elements of a section into a new draft.
    fn fill<C: CornerSet>(
        &self,
        s: usize,
        draft: &mut Draft<'r, 'f>,
        joints: &mut Vec<Joined>,
    ) -> Result<(), SectionEnd>
        requires section { s < length self.now.file.now.reading.sections }
        requires head { IsHeadOf self.now.file.now self.now.head.now }
        requires net { net_at self.now.file.now (section_at self.now.file.now.reading.sections s).net ≡ Some (drafted draft.old).net.net }
        requires new { IsGood self.now.file.now s (section_at self.now.file.now.reading.sections s)
            (naming (section_at self.now.file.now.reading.sections s).net) }
        requires fresh { drafted draft.old ≡ no_draft self.now.file.now (drafted draft.old).net.net }
        ensures upto { OnOk result
            (IsUpto (corners_of C.COUNT C.number_of C.member_of self.now.pick) self.now.file.now self.now.head.now s
            (length (section_at self.now.file.now.reading.sections s).ress) (length (section_at self.now.file.now.reading.sections s).conns)
            (length (section_at self.now.file.now.reading.sections s).caps) (length (section_at self.now.file.now.reading.sections s).ress)
            (drafted draft.new)) }
        ensures err { IfErr result (IsStop self.now.file.now self.now.head.now s) }
    {
        self.begin::<C>(s, draft, joints)?;
        self.read_conns::<C>(s, draft)?;
        self.read_caps::<C>(s, draft)?;
        self.read_ress::<C>(s, draft, joints.as_slice())?;
        Ok(())
    }

    /// Reads the section at a place into the draft, which has the name of its net. Its faults are looked for in the order of its
    /// tokens. Nothing else of what the draft and the list of the joints hold counts.
    pub fn read_section<C: CornerSet>(
        &self,
        s: usize,
        draft: &mut Draft<'r, 'f>,
        joints: &mut Vec<Joined>,
    ) -> Result<(), SectionEnd>
        requires section { s < length self.now.file.now.reading.sections }
        requires head { IsHeadOf self.now.file.now self.now.head.now }
        requires net { net_at self.now.file.now (section_at self.now.file.now.reading.sections s).net ≡ Some (drafted draft.old).net.net }
        requires new { IsGood self.now.file.now s (section_at self.now.file.now.reading.sections s)
            (naming (section_at self.now.file.now.reading.sections s).net) }
        requires file { (drafted draft.old).refs.file ≡ self.now.file.now }
        ensures ok { OnOk result (IsNet (corners_of C.COUNT C.number_of C.member_of self.now.pick) self.now.file.now
            self.now.head.now (section_at self.now.file.now.reading.sections s)
            (written_net (drafted draft.new).net (length (section_at self.now.file.now.reading.sections s).caps))) }
        ensures whole { OnOk result (AreWhole C.COUNT
            (written_net (drafted draft.new).net (length (section_at self.now.file.now.reading.sections s).caps))) }
        ensures net { OnOk result ((drafted draft.new).net.net ≡ (drafted draft.old).net.net) }
        ensures file { OnOk result ((drafted draft.new).refs.file ≡ self.now.file.now) }
        ensures faultless { OnOk result
            (IsFaultless self.now.file.now self.now.head.now s (section_at self.now.file.now.reading.sections s)) }
        ensures err { IfErr result (IsStop self.now.file.now self.now.head.now s) }
    {
        let conns = self.file.conn_count(s);
        let caps = self.file.cap_count(s);
        let ress = self.file.res_count(s);
        draft.begin::<C>(self.alloc, conns, caps, ress)?;
        self.fill::<C>(s, draft, joints)?;
        Ok(())
    }
}
