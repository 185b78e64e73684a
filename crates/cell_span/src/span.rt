//! A run of cells as the owner of its part of the arena's allocation.
ghost use Rattle.std.specs.Prelude.{◌≡◌, ◌+◌, ◌-◌, ◌<◌, ◌≤◌, [], length, replicate, slice_get, slice_set, Some, IfOk};
ghost use Rattle.cell_span.specs.Arenas.{arena_of};
ghost use Rattle.cell_span.specs.Range.{Range, IsRange, Meet, IsWhole, IsNew, blank, front, back, joined, written};

use super::arena::Arena;
use super::cell::Cell;
use super::cells::{Base, Cells, Deed, allocate, deallocate};
use core::mem::replace_with;
use std::alloc::{AllocError, Global};
use std::marker::Model;

/// The most cells of an arena.
const MOST_CELLS: u32 = 2_147_483_648;

/// A run of cells of one arena, which owns them: no other run has any of them. Its cells lie in the arena's allocation,
/// in which they stay. The run that has the arena's first cell has the right to free the allocation.
///
/// A run may go to another thread, and be read from several. It can't be dropped: it is joined to its neighbours again,
/// and the whole arena is ended by [`Span::end`].
pub struct Span {
    base: Base<Cell>,
    first: u32,
    len: u32,
    arena: u32,
    cells: Cells<Cell>,
    deed: Option<Deed<Cell, Global>>,
    heap: Global,
}

impl Model for Span {
    ghost use Rattle.std.specs.Prelude.{◌≡◌, length, IfSome, ◌↔◌, is_some, IsTrue};
    ghost use Rattle.cell_span.specs.Range.{Range, IsRange};
    ghost use Rattle.cell_span.specs.Deeds.{IsDeed};

    ghost Value = { Range };

    ghost view = { λ s. record { first = s.first; arena = record { at = s.base.ptr; cells = s.arena }; cells = s.cells.items } };

    ghost invariant = { λ s. (s.cells.at ≡ s.base.ptr) × (s.cells.first ≡ s.first) × (s.cells.spare ≡ 0) × (length s.cells.items ≡ s.len)
        × (IsTrue (is_some s.deed) ↔ (s.first ≡ 0)) × IfSome s.deed (λ d. IsDeed s.base.ptr s.arena s.heap d)
        × IsRange (record { first = s.first; arena = record { at = s.base.ptr; cells = s.arena }; cells = s.cells.items }) };
}

// Fills the empty places of a new block with blank cells.
fn fill(cells: Cells<Cell>, base: Base<Cell>, count: usize) -> Cells<Cell>
    requires { (base.ptr ≡ cells.at) × (cells.first ≡ 0) × (cells.items ≡ []) × (cells.spare ≡ count) }
    ensures { (result.at ≡ cells.at) × (result.first ≡ 0) × (result.items ≡ replicate count blank) × (result.spare ≡ 0) }
{
    let mut cells = cells;
    for index in 0..count {
        let blank = Cell {
            tag: 0,
            words: [0; 4],
        };
        cells.push(base, index, blank);
    }
    cells
}

impl Span {
    /// The whole of a new arena of so many cells, from 1 to 2147483648, each with tag 0 and words 0. `AllocError` where
    /// memory runs out.
    pub fn new(alloc: Global, cells: u32) -> Result<Span, AllocError>
        requires some { 1 ≤ cells }
        requires few { cells ≤ MOST_CELLS }
        ensures { IfOk result (λ span. IsNew span cells) }
    {
        let (base, places, deed) = allocate(&alloc, cells as usize)?;
        Ok(Span {
            base,
            first: 0,
            len: cells,
            arena: cells,
            cells: fill(places, base, cells as usize),
            deed: Some(deed),
            heap: alloc,
        })
    }

    /// What each run keeps: it has at least one cell, lies within its arena, and the arena has at most 2147483648
    /// cells. It does nothing; its clause is what whoever holds a run can use.
    pub fn limits(&self)
        ensures { IsRange self.now }
    {
        let _ = &self.first;
    }

    /// The number of cells.
    pub fn len(&self) -> u32
        // It is the number of cells.
        ensures count { result ≡ length self.now.cells }
        // There is at least one cell, and the run lies within its arena.
        ensures range { IsRange self.now }
    {
        self.len
    }

    /// The index in the arena of the first cell.
    pub fn first(&self) -> u32
        // It is the index of the first cell.
        ensures index { result ≡ self.now.first }
        // There is at least one cell, and the run lies within its arena.
        ensures range { IsRange self.now }
    {
        self.first
    }

    /// Which arena the run is part of.
    pub fn arena(&self) -> Arena
        // It is the run's arena: where its allocation begins, and how many cells it has.
        ensures arena { arena_of result ≡ self.now.arena }
        // There is at least one cell, and the run lies within its arena.
        ensures range { IsRange self.now }
    {
        Arena {
            base: self.base,
            cells: self.arena,
        }
    }

    /// The cell at a place, counted from the run's first cell.
    #[inline(always)]
    pub fn get(&self, at: u32) -> Cell
        requires { at < length self.now.cells }
        ensures { slice_get self.now.cells at ≡ Some result }
    {
        let index = self.first as usize + at as usize;
        *self.cells.get(self.base, index)
    }

    /// Puts a cell at a place, counted from the run's first cell; all other cells stay.
    #[inline(always)]
    pub fn set(&mut self, at: u32, cell: Cell)
        requires { at < length self.old.cells }
        ensures { self.new ≡ written self.old at cell }
    {
        let index = self.first as usize + at as usize;
        self.cells.set(self.base, index, cell);
    }

    /// The first `at` cells and the others. It takes no memory and moves no cell.
    pub fn split(self, at: u32) -> (Span, Span)
        requires some { 1 ≤ at }
        requires within { at < length self.cells }
        // The first part has the first `at` cells.
        ensures front { result.0 ≡ front self at }
        // The second part has the others.
        ensures back { result.1 ≡ back self at }
    {
        let Span {
            base,
            first,
            len,
            arena,
            cells,
            deed,
            heap,
        } = self;
        let (cells, others) = cells.split(at as usize);
        let span = Span {
            base,
            first,
            len: at,
            arena,
            cells,
            deed,
            heap,
        };
        let next = Span {
            base,
            first: first + at,
            len: len - at,
            arena,
            cells: others,
            deed: None,
            heap,
        };
        (span, next)
    }

    /// Takes off the first `at` cells; the others stay. It takes no memory and moves no cell.
    pub fn split_off_front(&mut self, at: u32) -> Span
        requires some { 1 ≤ at }
        requires within { at < length self.old.cells }
        // What is given has the first `at` cells.
        ensures front { result ≡ front self.old at }
        // What stays has the others.
        ensures back { self.new ≡ back self.old at }
    {
        replace_with(self, at, Span::parted)
    }

    /// This run and the next one as one. It takes no memory and moves no cell.
    pub fn join(self, next: Span) -> Span
        requires { Meet self next }
        ensures { result ≡ joined self next }
    {
        let Span {
            base,
            first,
            len,
            arena,
            cells,
            deed,
            heap,
        } = self;
        let Span {
            base: _,
            first: _,
            len: more,
            arena: _,
            cells: others,
            deed: none,
            heap: _,
        } = next;
        match none {
            None => {}
            Some(_) => unreachable!(),
        }
        Span {
            base,
            first,
            len: len + more,
            arena,
            cells: cells.join(others),
            deed,
            heap,
        }
    }

    /// Puts the next run behind this one. It takes no memory and moves no cell.
    pub fn append(&mut self, next: Span)
        requires { Meet self.old next }
        ensures { self.new ≡ joined self.old next }
    {
        replace_with(self, next, Span::with_next)
    }

    /// Puts the run before this one in front of it. It takes no memory and moves no cell.
    pub fn prepend(&mut self, before: Span)
        requires { Meet before self.old }
        ensures { self.new ≡ joined before self.old }
    {
        replace_with(self, before, Span::with_before)
    }

    // The cells behind the first `at`, and these: what stays of a run, and what is taken off.
    fn parted(self, at: u32) -> (Span, Span)
        requires some { 1 ≤ at }
        requires within { at < length self.cells }
        ensures { (result.0 ≡ back self at) × (result.1 ≡ front self at) }
    {
        let (front, back) = self.split(at);
        (back, front)
    }

    // This run with the next one behind it.
    fn with_next(self, next: Span) -> (Span, ())
        requires { Meet self next }
        ensures { result.0 ≡ joined self next }
    {
        (self.join(next), ())
    }

    // This run with the one before in front of it.
    fn with_before(self, before: Span) -> (Span, ())
        requires { Meet before self }
        ensures { result.0 ≡ joined before self }
    {
        (before.join(self), ())
    }

    /// Gives the memory of the whole arena back. No body without `unsafe` that keeps the memory is accepted: the cells
    /// and the right to free them can't be dropped, and `deallocate` alone takes that right.
    pub fn end(self)
        requires { IsWhole self }
    {
        let Span {
            base,
            first: _,
            len: _,
            arena,
            cells,
            deed,
            heap,
        } = self;
        match deed {
            Some(deed) => deallocate(&heap, base, arena as usize, cells, deed),
            None => unreachable!(),
        }
    }
}
