//! Reads a Liberty file in pieces, wherever they are cut.
ghost use Rattle.std.specs.Prelude.{◌≡◌, ◌+◌, ◌<◌, ◌≤◌, ◌^◌, [], ◌++◌, ℕ, List, length, IfOk, OnOk};
ghost use Rattle.liberty_groups.specs.Tokens.{line_at};
ghost use Rattle.liberty_groups.specs.Groups.{Group};
ghost use Rattle.liberty_groups.specs.Tables.{tree_of};
ghost use Rattle.liberty_groups.specs.Causes.{IsFault};
ghost use Rattle.liberty_groups.specs.Answers.{SaysTree, IfSyntax, Gives};
ghost use Rattle.liberty_groups.specs.Places.{size_of, IsOpenWithin};
ghost use Rattle.liberty_groups.specs.Feeding.{CanGoOn, Begins, HasShown, HasReadTo, HasReadAll, IsFaultOfAny, IsReady, StandsFor};

use crate::faults::{Cause, ParseEnd, SyntaxFault};
use crate::places::{Place, Scanned, ended, scan_front, scan_on, whole};
use crate::progress::{Progress, size_of};
use crate::scan::Kind;
use crate::tree::GroupTree;
use memchr::memchr;
use std::alloc::Global;
use token_texts::{Cut, ReadEnd, TokenReader};

/// What the pieces so far have led to, and the bytes at their end that begin a token or a comment and do not end it.
#[derive(Drop)]
pub struct Feeder {
    pub progress: Progress,

    /// The line of the place that has been read up to.
    pub line: u64,
    pub waiting: Vec<u8>,

    /// Where the scan of the bytes that wait stands, so that none is scanned again when the next piece comes.
    pub place: Place,
}

/// The line of a place: the count of line ends before it, and one.
pub(crate) fn line_at(bytes: &[u8], place: usize) -> u64
    requires within { place ≤ length bytes.now }
    requires bytes { length bytes.now < 2 ^ 32 }
    ensures value { result ≡ line_at bytes.now place }
    ensures within { result ≤ place + 1 }
{
    let before = bytes.split_at(place).0;
    let mut line = 1;
    let mut index = 0;
    while let Some(end) = memchr(b'\n', before.split_at(index).1) {
        line += 1;
        index += end + 1;
    }
    line
}

/// The fault of the token of this number and line.
fn fault(token: u64, line: u64, cause: Cause) -> ParseEnd
    ensures { result ≡ ParseEnd.Syntax (record { token = token; line = line; cause = cause }) }
{
    ParseEnd::Syntax(SyntaxFault { token, line, cause })
}

/// What some bytes show, from the first on.
fn scan_bytes(bytes: &[u8]) -> Scanned
    requires { length bytes.now < 2 ^ 32 }
    ensures shown { HasShown bytes.now result }
    ensures within { IsOpenWithin (length bytes.now) result }
    ensures some { result ≡ Scanned.Bad → 0 < length bytes.now }
{
    match bytes {
        [first, behind @ ..] => scan_front(*first, behind),
        [] => Scanned::Begun(Place::Slash),
    }
}

impl Feeder {
    /// Before the first piece.
    pub(crate) fn new(alloc: Global) -> Feeder
        ensures start { result.progress.start + length result.waiting.items ≡ 0 }
        ensures ready { IsReady result }
        ensures stands { StandsFor [] result }
    {
        Feeder {
            progress: Progress::new(alloc),
            line: 1,
            waiting: Vec::new(alloc),
            place: Place::Slash,
        }
    }

    /// Goes on behind the bytes that wait, which are all of the cut.
    fn take_waiting(&mut self, cut: Cut<Kind>) -> Result<(), ParseEnd>
        requires some { 0 < length self.old.waiting.items }
        requires size { size_of cut ≡ length self.old.waiting.items }
        requires bytes { self.old.progress.start + length self.old.waiting.items < 2 ^ 32 }
        requires goes_on { CanGoOn self.old.progress }
        requires lines { self.old.line ≤ self.old.progress.start + 1 }
        ensures kept { OnOk result (self.new.waiting.items ≡ self.old.waiting.items) }
        ensures start { OnOk result (self.new.progress.start ≡ self.old.progress.start + length self.old.waiting.items) }
        ensures goes_on { OnOk result (CanGoOn self.new.progress) }
        ensures lines { OnOk result (self.new.line ≤ self.new.progress.start + 1) }
        ensures ok { (all rest : List ℕ) → Begins (self.old.waiting.items ++ rest) cut
            → HasReadTo all (self.old.waiting.items ++ rest) self.old.progress self.old.line
            → OnOk result (HasReadTo all rest self.new.progress self.new.line) }
        ensures fault { (all rest : List ℕ) → Begins (self.old.waiting.items ++ rest) cut
            → HasReadTo all (self.old.waiting.items ++ rest) self.old.progress self.old.line
            → IfSyntax result (IsFaultOfAny all) }
    {
        let bytes = self.waiting.as_slice();
        match self.progress.take(cut, bytes) {
            Ok(()) => {
                self.line += line_at(bytes, bytes.len()) - 1;
                Ok(())
            }
            Err(ReadEnd::Refused(token, _place, cause)) => Err(fault(token, self.line, cause)),
            Err(ReadEnd::OutOfMemory) => Err(ParseEnd::OutOfMemory),
        }
    }

    /// Goes on behind a cut that is shorter than the bytes that wait. The others still wait.
    fn take_front(&mut self, cut: Cut<Kind>) -> Result<(), ParseEnd>
        requires some { 0 < size_of cut }
        requires shorter { size_of cut < length self.old.waiting.items }
        requires bytes { self.old.progress.start + length self.old.waiting.items < 2 ^ 32 }
        requires goes_on { CanGoOn self.old.progress }
        requires lines { self.old.line ≤ self.old.progress.start + 1 }
        ensures size { OnOk result (self.new.progress.start + length self.new.waiting.items
            ≡ self.old.progress.start + length self.old.waiting.items) }
        ensures shorter { OnOk result (length self.new.waiting.items < length self.old.waiting.items) }
        ensures goes_on { OnOk result (CanGoOn self.new.progress) }
        ensures lines { OnOk result (self.new.line ≤ self.new.progress.start + 1) }
        ensures ok { (all rest : List ℕ) → Begins (self.old.waiting.items ++ rest) cut
            → HasReadTo all (self.old.waiting.items ++ rest) self.old.progress self.old.line
            → OnOk result (HasReadTo all (self.new.waiting.items ++ rest) self.new.progress self.new.line) }
        ensures fault { (all rest : List ℕ) → Begins (self.old.waiting.items ++ rest) cut
            → HasReadTo all (self.old.waiting.items ++ rest) self.old.progress self.old.line
            → IfSyntax result (IsFaultOfAny all) }
    {
        let left = match self.waiting.split_off(size_of(cut)) {
            Ok(left) => left,
            Err(_) => return Err(ParseEnd::OutOfMemory),
        };
        match self.take_waiting(cut) {
            Ok(()) => {
                self.waiting = left;
                Ok(())
            }
            Err(end) => Err(end),
        }
    }

    /// Goes on behind a cut that ends with these bytes. Nothing waits then.
    fn take_with(&mut self, cut: Cut<Kind>, bytes: &[u8]) -> Result<(), ParseEnd>
        requires some { 0 < size_of cut }
        requires size { size_of cut ≡ length self.old.waiting.items + length bytes.now }
        requires bytes { self.old.progress.start + size_of cut < 2 ^ 32 }
        requires goes_on { CanGoOn self.old.progress }
        requires lines { self.old.line ≤ self.old.progress.start + 1 }
        ensures empty { OnOk result (self.new.waiting.items ≡ []) }
        ensures size { OnOk result (self.new.progress.start ≡ self.old.progress.start + size_of cut) }
        ensures goes_on { OnOk result (CanGoOn self.new.progress) }
        ensures lines { OnOk result (self.new.line ≤ self.new.progress.start + 1) }
        ensures ok { (all rest : List ℕ) → Begins ((self.old.waiting.items ++ bytes.now) ++ rest) cut
            → HasReadTo all ((self.old.waiting.items ++ bytes.now) ++ rest) self.old.progress self.old.line
            → OnOk result (HasReadTo all rest self.new.progress self.new.line) }
        ensures fault { (all rest : List ℕ) → Begins ((self.old.waiting.items ++ bytes.now) ++ rest) cut
            → HasReadTo all ((self.old.waiting.items ++ bytes.now) ++ rest) self.old.progress self.old.line
            → IfSyntax result (IsFaultOfAny all) }
    {
        match self.waiting.extend_from_slice(bytes) {
            Ok(()) => {}
            Err(_) => return Err(ParseEnd::OutOfMemory),
        }
        match self.take_waiting(cut) {
            Ok(()) => {
                self.waiting.clear();
                Ok(())
            }
            Err(end) => Err(end),
        }
    }

    /// Goes on with the scan of the bytes that wait, which has shown this, up to where nothing waits, and answers what is left of
    /// the piece. Where they do not end in it, nothing is left.
    fn go_on<'a>(&mut self, scan: Scanned, piece: &'a [u8]) -> Result<&'a [u8], ParseEnd>
        requires bytes { self.old.progress.start + length self.old.waiting.items + length piece.now < 2 ^ 32 }
        requires goes_on { CanGoOn self.old.progress }
        requires lines { self.old.line ≤ self.old.progress.start + 1 }
        requires shown { HasShown self.old.waiting.items scan }
        requires within { 0 < length self.old.waiting.items → IsOpenWithin (length self.old.waiting.items) scan }
        ensures ready { OnOk result (IsReady self.new) }
        ensures empty { IfOk result (λ rest. 0 < length rest.now → self.new.waiting.items ≡ []) }
        ensures left { IfOk result (λ rest. length rest.now ≤ length piece.now) }
        ensures size { IfOk result (λ rest. self.new.progress.start + length self.new.waiting.items + length rest.now
            ≡ self.old.progress.start + length self.old.waiting.items + length piece.now) }
        ensures ok { (all : List ℕ) → HasReadTo all (self.old.waiting.items ++ piece.now) self.old.progress self.old.line
            → IfOk result (λ rest. HasReadTo all (self.new.waiting.items ++ rest.now) self.new.progress self.new.line) }
        ensures fault { (all : List ℕ) → HasReadTo all (self.old.waiting.items ++ piece.now) self.old.progress self.old.line
            → IfSyntax result (IsFaultOfAny all) }
    {
        let mut now = scan;
        let mut rest = piece;
        while !self.waiting.is_empty() {
            match scan_on(now, self.waiting.len(), rest) {
                Scanned::Begun(place) => {
                    match self.waiting.extend_from_slice(rest) {
                        Ok(()) => {}
                        Err(_) => return Err(ParseEnd::OutOfMemory),
                    }
                    self.place = place;
                    return Ok(rest.split_at(rest.len()).1);
                }
                Scanned::Bad => return Err(fault(self.progress.number, self.line, Cause::BadByte)),
                Scanned::Ended(cut) => {
                    let count = size_of(cut);
                    if count < self.waiting.len() {
                        match self.take_front(cut) {
                            Ok(()) => now = scan_bytes(self.waiting.as_slice()),
                            Err(end) => return Err(end),
                        }
                    } else {
                        let (front, others) = rest.split_at(count - self.waiting.len());
                        match self.take_with(cut, front) {
                            Ok(()) => rest = others,
                            Err(end) => return Err(end),
                        }
                    }
                }
            }
        }
        Ok(rest)
    }

    /// Reads what is certain of a piece, where nothing waits, and answers what is left of it.
    fn read<'a>(&mut self, piece: &'a [u8]) -> Result<&'a [u8], ParseEnd>
        requires bytes { self.old.progress.start + length piece.now < 2 ^ 32 }
        requires goes_on { CanGoOn self.old.progress }
        requires lines { self.old.line ≤ self.old.progress.start + 1 }
        ensures kept { OnOk result (self.new.waiting.items ≡ self.old.waiting.items) }
        ensures goes_on { OnOk result (CanGoOn self.new.progress) }
        ensures lines { OnOk result (self.new.line ≤ self.new.progress.start + 1) }
        ensures size { IfOk result (λ left. self.new.progress.start + length left.now ≡ self.old.progress.start + length piece.now) }
        ensures ok { (all : List ℕ) → HasReadTo all piece.now self.old.progress self.old.line
            → IfOk result (λ left. HasReadTo all left.now self.new.progress self.new.line) }
        ensures fault { (all : List ℕ) → HasReadTo all piece.now self.old.progress self.old.line
            → IfSyntax result (IsFaultOfAny all) }
    {
        let start = self.progress.start;
        match self.progress.read(piece) {
            Ok(left) => {
                self.line += line_at(piece, piece.len() - left.len()) - 1;
                Ok(left)
            }
            Err(ReadEnd::Refused(token, place, cause)) => {
                let line = self.line + (line_at(piece, place - start) - 1);
                Err(fault(token, line, cause))
            }
            Err(ReadEnd::OutOfMemory) => Err(ParseEnd::OutOfMemory),
        }
    }

    /// Lets bytes wait that begin a token or a comment. What they end is read. A byte that begins no token is refused without
    /// a copy of what stands behind it.
    fn keep(&mut self, bytes: &[u8]) -> Result<(), ParseEnd>
        requires empty { self.old.waiting.items ≡ [] }
        requires bytes { self.old.progress.start + length bytes.now < 2 ^ 32 }
        requires goes_on { CanGoOn self.old.progress }
        requires lines { self.old.line ≤ self.old.progress.start + 1 }
        ensures ready { OnOk result (IsReady self.new) }
        ensures size { OnOk result (self.new.progress.start + length self.new.waiting.items
            ≡ self.old.progress.start + length bytes.now) }
        ensures ok { (all : List ℕ) → HasReadTo all bytes.now self.old.progress self.old.line → OnOk result (StandsFor all self.new) }
        ensures fault { (all : List ℕ) → HasReadTo all bytes.now self.old.progress self.old.line
            → IfSyntax result (IsFaultOfAny all) }
    {
        let scan = match scan_bytes(bytes) {
            Scanned::Bad => return Err(fault(self.progress.number, self.line, Cause::BadByte)),
            scan => scan,
        };
        match self.waiting.extend_from_slice(bytes) {
            Ok(()) => {}
            Err(_) => return Err(ParseEnd::OutOfMemory),
        }
        match self.go_on(scan, &[]) {
            Ok(_) => Ok(()),
            Err(end) => Err(end),
        }
    }

    /// Reads one more piece. What is refused is refused in any file that begins with the pieces.
    pub(crate) fn feed(&mut self, piece: &[u8]) -> Result<(), ParseEnd>
        requires bytes { self.old.progress.start + length self.old.waiting.items + length piece.now < 2 ^ 32 }
        requires ready { IsReady self.old }
        ensures ready { OnOk result (IsReady self.new) }
        ensures size { OnOk result (self.new.progress.start + length self.new.waiting.items
            ≡ self.old.progress.start + length self.old.waiting.items + length piece.now) }
        ensures ok { (bytes : List ℕ) → StandsFor bytes self.old → OnOk result (StandsFor (bytes ++ piece.now) self.new) }
        ensures fault { (bytes : List ℕ) → StandsFor bytes self.old → IfSyntax result (IsFaultOfAny (bytes ++ piece.now)) }
    {
        let rest = match self.go_on(Scanned::Begun(self.place), piece) {
            Ok(rest) => rest,
            Err(end) => return Err(end),
        };
        if rest.is_empty() {
            return Ok(());
        }
        match self.read(rest) {
            Ok(left) => self.keep(left),
            Err(end) => Err(end),
        }
    }

    /// Goes on behind what waits, where no more pieces come.
    fn take_last(&mut self) -> Result<(), ParseEnd>
        requires bytes { self.old.progress.start + length self.old.waiting.items < 2 ^ 32 }
        requires ready { IsReady self.old }
        ensures goes_on { OnOk result (CanGoOn self.new.progress) }
        ensures ok { (bytes : List ℕ) → StandsFor bytes self.old → OnOk result (HasReadAll bytes self.new.progress self.new.line) }
        ensures fault { (bytes : List ℕ) → StandsFor bytes self.old → IfSyntax result (IsFault bytes) }
    {
        let bytes = self.waiting.as_slice();
        if bytes.is_empty() {
            return Ok(());
        }
        match self
            .progress
            .take(whole(bytes.len(), ended(self.place)), bytes)
        {
            Ok(()) => {
                self.line += line_at(bytes, bytes.len()) - 1;
                Ok(())
            }
            Err(ReadEnd::Refused(token, _place, cause)) => Err(fault(token, self.line, cause)),
            Err(ReadEnd::OutOfMemory) => Err(ParseEnd::OutOfMemory),
        }
    }

    /// What all parts say.
    fn finish(self) -> Result<GroupTree, ParseEnd>
        requires goes_on { CanGoOn self.progress }
        ensures ok { (bytes : List ℕ) → HasReadAll bytes self.progress self.line
            → IfOk result (λ tree. SaysTree bytes (tree_of tree)) }
        ensures fault { (bytes : List ℕ) → HasReadAll bytes self.progress self.line → IfSyntax result (IsFault bytes) }
    {
        let token = self.progress.number;
        let line = self.line;
        match self.progress.reader.finish() {
            Ok(Ok(tree)) => Ok(tree),
            Ok(Err(cause)) => Err(fault(token, line, cause)),
            Err(_) => Err(ParseEnd::OutOfMemory),
        }
    }

    /// The tree of the pieces, where no more come.
    pub(crate) fn end(self) -> Result<GroupTree, ParseEnd>
        requires bytes { self.progress.start + length self.waiting.items < 2 ^ 32 }
        requires ready { IsReady self }
        ensures ok { (bytes : List ℕ) → StandsFor bytes self → IfOk result (λ tree. SaysTree bytes (tree_of tree)) }
        ensures fault { (bytes : List ℕ) → StandsFor bytes self → IfSyntax result (IsFault bytes) }
        ensures only { (bytes : List ℕ) (tree : Group) → StandsFor bytes self → SaysTree bytes tree → Gives tree_of tree result }
    {
        let mut feeder = self;
        match feeder.take_last() {
            Ok(()) => feeder.finish(),
            Err(end) => Err(end),
        }
    }
}
