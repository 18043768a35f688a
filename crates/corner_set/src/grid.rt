ghost use Rattle.std.specs.Prelude.{◌≡◌, ℕ, ◌*◌, ◌≤◌, length, IfOk, Some, replicate, slice_set, vec_capacity};
ghost use Rattle.corner_set.specs.Places.{place, HasRow, value_at};

use crate::corner::CornerSet;
use edge_io::OutOfMemory;
use std::alloc::Global;
use std::marker::{Model, PhantomData};

/// A value for each row and corner, all in one vector: rows one after another, and in each row the
/// corners by number. A contract sees the list of these values, and how many rows fit without taking memory.
#[derive(Drop)]
pub struct Grid<C: CornerSet, T: Copy> {
    values: Vec<T>,
    rows: usize,
    room: usize,
    corners: PhantomData<C>,
}

impl<C: CornerSet, T: Copy> Model for Grid<C, T> {
    ghost use Rattle.std.specs.Prelude.{◌≡◌, ◌*◌, ◌≤◌, length, vec_capacity};
    ghost use Rattle.corner_set.specs.Grids.{GridOf};

    ghost Value = { GridOf T };

    ghost view = { λ grid. record { values = grid.values.items; room = grid.room } };

    ghost invariant = { λ grid. (length grid.values.items ≡ grid.rows * C.COUNT) × (grid.rows ≤ grid.room)
        × (grid.room * C.COUNT ≤ vec_capacity grid.values) };
}

impl<C: CornerSet, T: Copy> Grid<C, T> {
    /// A grid of so many rows, with `fill` in each place, and room for no more. More places than a `usize`
    /// counts are out of memory.
    pub fn with_rows(alloc: Global, rows: usize, fill: T) -> Result<Grid<C, T>, OutOfMemory>
        ensures values { IfOk result (λ grid. grid.values ≡ replicate (rows * C.COUNT) fill) }
        ensures room { IfOk result (λ grid. grid.room ≡ rows) }
    {
        let Some(places) = rows.checked_mul(C::COUNT) else {
            return Err(OutOfMemory);
        };
        Ok(Grid {
            values: filled(alloc, places, fill)?,
            rows,
            room: rows,
            corners: PhantomData,
        })
    }

    /// Makes it a grid of so many rows, with `fill` in each place. The rows are at most its room. It takes no memory.
    pub fn reuse(&mut self, rows: usize, fill: T)
        requires room { rows ≤ self.old.room }
        ensures values { self.new.values ≡ replicate (rows * C.COUNT) fill }
        ensures room { self.new.room ≡ self.old.room }
    {
        fill_within(&mut self.values, rows * C::COUNT, fill);
        self.rows = rows;
    }

    /// How many rows it has.
    pub fn rows(&self) -> usize
        ensures { result * C.COUNT ≡ length self.now.values }
    {
        self.rows
    }

    /// How many rows it can hold without taking memory.
    pub fn room(&self) -> usize
        ensures room { result ≡ self.now.room }
        ensures fits { length self.now.values ≤ result * C.COUNT }
    {
        self.room
    }

    /// All values, row after row, and in each row by corner.
    pub fn as_slice(&self) -> &[T]
        ensures { result.now ≡ self.now.values }
    {
        self.values.as_slice()
    }

    /// The value of a row at a corner.
    pub fn get(&self, row: usize, index: C::Index) -> T
        requires { HasRow C.COUNT self.now.values row }
        ensures { value_at C.COUNT self.now.values row (C.number_of index) ≡ Some result }
    {
        self.values[row * C::COUNT + C::number(index)]
    }

    /// Sets the value of a row at a corner, and leaves all other places as they were.
    pub fn set(&mut self, row: usize, index: C::Index, value: T)
        requires { HasRow C.COUNT self.old.values row }
        ensures written { self.new.values ≡ slice_set self.old.values (place C.COUNT row (C.number_of index)) value }
        ensures held { value_at C.COUNT self.new.values row (C.number_of index) ≡ Some value }
        ensures others { (other : ℕ) (corner : C.Index) → ¬ ((other ≡ row) × (C.number_of corner ≡ C.number_of index)) →
            value_at C.COUNT self.new.values other (C.number_of corner) ≡ value_at C.COUNT self.old.values other (C.number_of corner) }
        ensures room { self.new.room ≡ self.old.room }
    {
        let values = &mut self.values;
        values[row * C::COUNT + C::number(index)] = value;
    }
}

// So many copies of a value.
fn filled<T: Copy>(alloc: Global, places: usize, fill: T) -> Result<Vec<T>, OutOfMemory>
    ensures items { IfOk result (λ values. values.items ≡ replicate places fill) }
    ensures room { IfOk result (λ values. places ≤ vec_capacity values) }
{
    let mut values = Vec::with_capacity(alloc, places).map_err(|_| OutOfMemory)?;
    fill_within(&mut values, places, fill);
    Ok(values)
}

// Makes a list so many copies of a value, in the memory that it has. Most lists had as many values before.
#[inline(always)]
fn fill_within<T: Copy>(values: &mut Vec<T>, places: usize, fill: T)
    requires { places ≤ vec_capacity values.old }
    ensures items { values.new.items ≡ replicate places fill }
    ensures room { vec_capacity values.old ≤ vec_capacity values.new }
{
    if values.len() == places {
        overwrite(values.as_mut_slice(), fill);
        return;
    }
    resize_within(values, places, fill);
}

// Puts a value in each place.
#[inline]
#[tactic(auto, using(crate::proofs::Overwriting::more_written, crate::proofs::Overwriting::all_written))]
fn overwrite<T: Copy>(values: &mut [T], fill: T)
    ensures { values.new ≡ replicate (length values.old) fill }
{
    for place in 0..values.len() {
        values[place] = fill;
    }
}

// Makes a list of another length so many copies of a value.
fn resize_within<T: Copy>(values: &mut Vec<T>, places: usize, fill: T)
    requires { places ≤ vec_capacity values.old }
    ensures items { values.new.items ≡ replicate places fill }
    ensures room { vec_capacity values.old ≤ vec_capacity values.new }
{
    values.clear();
    // There is room for them.
    let _ = values.resize(places, fill);
}
