//! The name of the net whose section is read.
ghost use Rattle.std.specs.Prelude.{◌≡◌, [], IfOk, OnOk};
ghost use Rattle.std.specs.Cow.{cow_slice_items};

use edge_io::OutOfMemory;
use std::alloc::Global;
use std::borrow::CowSlice;
use std::marker::Model;

/// The name of a net. One that stands in the file as it is written is not copied. Contracts see its bytes.
#[derive(Drop)]
pub struct NetName<'r> {
    name: CowSlice<'r, u8>,
}

impl<'r> Model for NetName<'r> {
    ghost use Rattle.std.specs.Prelude.{ℕ, List};
    ghost use Rattle.std.specs.Cow.{cow_slice_items};

    ghost Value = { List ℕ };

    ghost view = { λ name. cow_slice_items name.name };
}

impl<'r> NetName<'r> {
    /// The empty name.
    pub fn new() -> NetName<'r>
        ensures { result ≡ [] }
    {
        NetName {
            name: CowSlice::Borrowed(&[]),
        }
    }

    /// Puts a name that stands in the file in the place of the one before.
    pub fn put(&mut self, name: &'r [u8])
        ensures { self.new ≡ name.now }
    {
        put(&mut self.name, CowSlice::Borrowed(name));
    }

    /// The same of a name that stands nowhere else, and is copied.
    pub fn put_copy(&mut self, alloc: Global, name: &[u8]) -> Result<(), OutOfMemory>
        ensures { OnOk result (self.new ≡ name.now) }
    {
        let copy = Vec::from_slice(alloc, name)?;
        put(&mut self.name, CowSlice::Owned(copy));
        Ok(())
    }

    /// The bytes, in order.
    #[inline]
    pub fn bytes(&self) -> &[u8]
        ensures { result.now ≡ self.now }
    {
        match &self.name {
            CowSlice::Borrowed(name) => name,
            CowSlice::Owned(name) => name.as_slice(),
        }
    }

    /// The name once more, to be kept.
    pub fn kept(&self, alloc: Global) -> Result<CowSlice<'r, u8>, OutOfMemory>
        ensures { IfOk result (λ name. cow_slice_items name ≡ self.now) }
    {
        match &self.name {
            CowSlice::Borrowed(name) => Ok(CowSlice::Borrowed(name)),
            CowSlice::Owned(name) => Ok(CowSlice::Owned(Vec::from_slice(alloc, name.as_slice())?)),
        }
    }
}

// Puts an item in the place of the one before.
fn put<T: Drop>(place: &mut T, item: T)
    ensures { place.new ≡ item }
{
    *place = item;
}
