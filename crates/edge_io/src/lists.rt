//! Lists that grow by one item, and lists that are used again, with want of memory as an error.
ghost use Rattle.std.specs.Prelude.{◌≡◌, ◌++◌, ◌∷◌, [], replicate, IfOk, OnOk, OnErr};

use crate::failures::OutOfMemory;

/// Puts an item at the end. Where memory is short the item is dropped.
#[inline]
pub fn push<T: Drop>(items: &mut Vec<T>, item: T) -> Result<(), OutOfMemory>
    ensures ok { OnOk result (items.new.items ≡ items.old.items ++ item ∷ []) }
    ensures err { OnErr result (items.new.items ≡ items.old.items) }
{
    match items.push(item) {
        Ok(()) => Ok(()),
        Err(_) => Err(OutOfMemory),
    }
}

/// Empties a list, which keeps its memory, and makes room for so many items.
#[inline]
pub fn empty<T: Drop>(items: &mut Vec<T>, many: usize) -> Result<(), OutOfMemory>
    ensures { OnOk result (items.new.items ≡ []) }
{
    items.clear();
    items.reserve(many)?;
    Ok(())
}

/// Makes a list so many times one number. The list keeps its memory.
#[inline]
pub fn refill(values: &mut Vec<u32>, many: usize, value: u32) -> Result<(), OutOfMemory>
    ensures { OnOk result (values.new.items ≡ replicate many value) }
{
    empty(values, many)?;
    values.resize(many, value)?;
    Ok(())
}

/// The number as a `u32`. One past 2 ^ 32 - 1 is a want of memory: what it counts would not fit.
#[inline]
pub fn to_u32(value: usize) -> Result<u32, OutOfMemory>
    ensures { IfOk result (λ number. number ≡ value) }
{
    match u32::try_from(value) {
        Ok(number) => Ok(number),
        Err(_) => Err(OutOfMemory),
    }
}
