//! Looks for bad ranges, selects, constants and connections.
ghost use Rattle.std.specs.Prelude.{◌≡◌, ℕ, false, ◌^◌, ◌<◌, ◌≤◌, nat_lt, length, IfSome};
ghost use Rattle.verilog_netlist.specs.Ranges.{most_bits, width_of, bits_across, has_large_bound, is_past, one_range, differ, is_bad_declaration, is_outside, declared_range, is_bad_bit, runs_against, is_bad_part, whole_width, whole_bits, bits_of, joined_width, is_bad_entry, IsFirstBadRange};
ghost use Rattle.verilog_netlist.specs.DeclaredNames.{found_in, HoldsRanged, BoundsWidths, IsAtMost};

use crate::declared::{Declaration, DeclaredNames};
use crate::entries::{Decl, Entry, Range};
use crate::repeats::Scopes;
use crate::scan::{constant_width, digits_at, distance};

/// The largest bound of a range or a select.
const LARGEST_BOUND: u32 = 1_048_575;

/// The most bits of a range, a constant or a connection.
const MOST_BITS: u64 = 65_536;

impl Range {
    /// How many bits a range has.
    #[inline]
    pub(crate) fn width(self) -> u64
        ensures value { result ≡ width_of self }
        ensures few { result ≤ 2 ^ 32 }
    {
        let ahead = if self.left < self.right {
            self.right - self.left
        } else {
            self.left - self.right
        };
        u64::from(ahead) + 1
    }

    #[inline]
    fn has_large_bound(self) -> bool
        ensures { result ≡ has_large_bound self }
    {
        self.left > LARGEST_BOUND || self.right > LARGEST_BOUND
    }

    /// How many bits a range of the file has, by its numbers as they are written; bounds that are not past the limit are these numbers.
    /// One with more bits than a connection may have counts one more than that.
    fn bits(self, bytes: &[u8]) -> u64
        ensures value { result ≡ bits_across bytes.now self }
        ensures few { result ≤ 2 ^ 32 }
    {
        if !self.has_large_bound() {
            return self.width();
        }
        let left = digits_at(bytes, self.left_at);
        let right = digits_at(bytes, self.right_at);
        let apart = if left.len() < right.len() {
            distance(right, left)
        } else {
            distance(left, right)
        };
        (u64::from(apart) + 1).min(MOST_BITS + 1)
    }

    /// Whether a bit is outside the range.
    #[inline]
    fn is_outside(self, place: u32) -> bool
        ensures { result ≡ is_outside self place }
    {
        if self.left < self.right {
            place < self.left || place > self.right
        } else {
            place < self.right || place > self.left
        }
    }

    /// Whether the bounds of a select run against the range.
    #[inline]
    fn runs_against(self, select: Range) -> bool
        ensures { result ≡ runs_against self select }
    {
        if self.left < self.right {
            select.right < select.left
        } else {
            select.left < select.right
        }
    }
}

#[inline]
fn one_range(one: Option<Range>, other: Option<Range>) -> bool
    ensures { result ≡ one_range one other }
{
    match (one, other) {
        (None, None) => true,
        (Some(one), Some(other)) => one.left == other.left && one.right == other.right,
        _ => false,
    }
}

/// Whether one is by a direction and the other by `wire`, and their ranges differ.
#[inline]
fn differ(one: Declaration, other: Declaration) -> bool
    ensures { result ≡ differ one other }
{
    !one_range(one.range, other.range)
        && matches!(one.by, Decl::Wire) != matches!(other.by, Decl::Wire)
}

#[inline]
fn is_past(range: Option<Range>) -> bool
    ensures { result ≡ is_past range }
{
    match range {
        Some(range) => range.has_large_bound() || range.width() > MOST_BITS,
        None => false,
    }
}

/// The range of a declared name.
#[inline]
fn declared_range(first: Option<Declaration>) -> Option<Range>
    ensures { result ≡ declared_range first }
{
    match first {
        Some(first) => first.range,
        None => None,
    }
}

#[inline]
pub(crate) fn whole_width(range: Option<Range>) -> u64
    ensures value { result ≡ whole_width range }
    ensures few { result ≤ 2 ^ 32 }
{
    match range {
        Some(range) => range.width(),
        None => 1,
    }
}

/// The bits of a name in the file.
#[inline]
pub(crate) fn whole_bits(bytes: &[u8], range: Option<Range>) -> u64
    ensures value { result ≡ whole_bits bytes.now range }
    ensures few { result ≤ 2 ^ 32 }
{
    match range {
        Some(range) => range.bits(bytes),
        None => 1,
    }
}

impl DeclaredNames<'_> {
    /// The bits of an expression, or nothing of what is none.
    #[inline]
    fn bits(&self, scope: u32, bytes: &[u8], entry: Entry) -> Option<u64>
        ensures value { result ≡ bits_of bytes.now (found_in self.now.rows.entries scope) entry }
        ensures few { IfSome result (λ bits. bits ≤ 2 ^ 32) }
    {
        match entry {
            Entry::Whole(name) => {
                let first = self.find(scope, name.of(bytes));
                Some(whole_bits(bytes, declared_range(first)))
            }
            Entry::Bit(_, _) => Some(1),
            Entry::Part(_, select) => Some(select.bits(bytes)),
            Entry::Constant(token) => Some(u64::from(constant_width(token.of(bytes)))),
            _ => None,
        }
    }

    /// Whether the expressions at the front of these entries have too many bits.
    fn is_wide(&self, scope: u32, bytes: &[u8], behind: &[Entry]) -> bool
        ensures { result ≡ nat_lt most_bits (joined_width bytes.now (found_in self.now.rows.entries scope) behind.now) }
    {
        let mut width = 0;
        for entry in behind {
            let Some(bits) = self.bits(scope, bytes, *entry) else {
                return false;
            };
            width += bits;
            if width > MOST_BITS {
                return true;
            }
        }
        false
    }

    /// As many bits as an expression can have, or nothing of what is none. No name is looked up.
    #[inline]
    fn most_bits(&self, bytes: &[u8], entry: Entry) -> Option<u64>
        requires { BoundsWidths bytes.now self.now.rows.entries self.now.widest }
        ensures { (scope : ℕ) → IsAtMost (bits_of bytes.now (found_in self.now.rows.entries scope) entry) result }
    {
        match entry {
            Entry::Whole(_) => Some(self.widest),
            Entry::Bit(_, _) => Some(1),
            Entry::Part(_, select) => Some(select.bits(bytes)),
            Entry::Constant(token) => Some(u64::from(constant_width(token.of(bytes)))),
            _ => None,
        }
    }

    /// Whether the expressions at the front of these entries can have too many bits, as wide as names are at most. Those of most
    /// connections cannot, and their names need not be looked up.
    fn may_be_wide(&self, bytes: &[u8], behind: &[Entry]) -> bool
        requires { BoundsWidths bytes.now self.now.rows.entries self.now.widest }
        ensures { (scope : ℕ) → result ≡ false
            → nat_lt most_bits (joined_width bytes.now (found_in self.now.rows.entries scope) behind.now) ≡ false }
    {
        let mut width = 0;
        for entry in behind {
            let Some(bits) = self.most_bits(bytes, *entry) else {
                return false;
            };
            if bits > MOST_BITS - width {
                return true;
            }
            width += bits;
        }
        false
    }

    /// Whether a declaration of a name is bad.
    #[inline(never)]
    fn is_bad_declared(&self, scope: u32, name: &[u8], this: Declaration) -> bool
        ensures { result ≡ is_bad_declaration (found_in self.now.rows.entries scope name.now) this }
    {
        if is_past(this.range) {
            return true;
        }
        match self.find(scope, name) {
            Some(first) => differ(first, this),
            None => false,
        }
    }

    /// Whether a name has no bit at this place.
    #[inline(never)]
    fn is_bad_bit(&self, scope: u32, name: &[u8], place: u32) -> bool
        ensures { result ≡ is_bad_bit (declared_range (found_in self.now.rows.entries scope name.now)) place }
    {
        match declared_range(self.find(scope, name)) {
            Some(range) => place > LARGEST_BOUND || range.is_outside(place),
            None => true,
        }
    }

    /// Whether a name does not have this select.
    #[inline(never)]
    fn is_bad_part(&self, scope: u32, name: &[u8], select: Range) -> bool
        ensures { result ≡ is_bad_part (declared_range (found_in self.now.rows.entries scope name.now)) select }
    {
        match declared_range(self.find(scope, name)) {
            Some(range) => {
                select.has_large_bound()
                    || range.is_outside(select.left)
                    || range.is_outside(select.right)
                    || range.runs_against(select)
            }
            None => true,
        }
    }

    /// Whether an entry is bad, with these entries behind it.
    #[inline]
    fn is_bad(&self, scope: u32, bytes: &[u8], entry: Entry, behind: &[Entry]) -> bool
        requires { BoundsWidths bytes.now self.now.rows.entries self.now.widest }
        ensures { result ≡ is_bad_entry bytes.now (found_in self.now.rows.entries scope) behind.now entry }
    {
        match entry {
            Entry::Declared(by, name, range) => {
                self.is_bad_declared(scope, name.of(bytes), Declaration { by, range })
            }
            Entry::Port(_) => self.may_be_wide(bytes, behind) && self.is_wide(scope, bytes, behind),
            Entry::Bit(name, place) => self.is_bad_bit(scope, name.of(bytes), place),
            Entry::Part(name, select) => self.is_bad_part(scope, name.of(bytes), select),
            Entry::Constant(token) => {
                let width = constant_width(token.of(bytes));
                width == 0 || u64::from(width) > MOST_BITS
            }
            _ => false,
        }
    }

    /// The place of the first entry with a bad range, if there is one: a range, a constant or a connection past the limits, a constant
    /// of no bits, a name by a direction and by `wire` with two ranges, or a select that its name's range does not have. A connection's
    /// fault stands at its port. It takes time in proportion to the bytes of the names.
    pub(crate) fn first_bad_range(&self, bytes: &[u8], entries: &[Entry]) -> Option<usize>
        requires few { length entries.now < 2 ^ 30 }
        requires rows { HoldsRanged bytes.now entries.now self.now.rows.entries }
        requires widest { BoundsWidths bytes.now self.now.rows.entries self.now.widest }
        ensures { IsFirstBadRange bytes.now entries.now result }
    {
        let mut scopes = Scopes::new();
        for (place, entry) in entries.iter().enumerate() {
            scopes = scopes.from(*entry);
            let behind = entries.split_at(place + 1).1;
            let is_bad = self.is_bad(scopes.modules, bytes, *entry, behind);
            if is_bad {
                return Some(place);
            }
        }
        None
    }
}
