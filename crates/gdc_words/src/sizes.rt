//! Values that are the size of a trial.
ghost use Rattle.std.specs.Prelude.{ℕ, IfSome, IfNone};
ghost use Rattle.gdc_words.specs.Sizes.{IsSize};

/// The largest size.
const MOST_SIZE: u32 = 600_000;

/// The size that a value reads as: none where it is not of digits alone, or reads as 0 or as more than the largest size.
pub(crate) fn size_of(value: &[u8]) -> Option<u32>
    ensures some { IfSome result (IsSize value.now) }
    ensures none { IfNone result ((size : ℕ) → ¬ IsSize value.now size) }
{
    let mut size: u32 = 0;
    for byte in value {
        if *byte < b'0' || b'9' < *byte {
            return None;
        }
        size = size * 10 + (*byte - b'0') as u32;
        if MOST_SIZE < size {
            return None;
        }
    }
    if size == 0 {
        return None;
    }
    Some(size)
}
