//! The places of a block, as raw memory: the block's pointer, who owns which places, and who may free the block.
//!
//! All that follows the pointer stands here, each a few lines that are proved by hand.
ghost use Rattle.std.specs.Prelude.{◌≡◌, ℕ, ◌+◌, ◌-◌, ◌<◌, ◌≤◌, ◌++◌, List, [], ◌∷◌, Some, length, take, drop, slice_get, slice_set, IfOk};
ghost use Rattle.std.specs.Vec.Ownership.{FitsInBlock};
ghost use base.Fml.{ftrue};
ghost use denote.RawPtr.{Ptr};
ghost use Rattle.cell_span.specs.Ownership.{owned, lent, freed_by};

use std::alloc::{AllocError, Allocator};
use std::marker::{Model, PhantomData, Send, Sync};
use std::mem::{align_of, size_of};

/// Where a block begins. It owns nothing.
#[derive(Clone, Copy)]
pub struct Base<T> {
    ptr: *mut T,
}

unsafe impl<T> Send for Base<T> {}

unsafe impl<T> Sync for Base<T> {}

/// The owner of neighbouring places of a block: those that hold `items`, from the place `first` on, and `spare` empty
/// ones behind them. It takes no bytes; the block's pointer stands beside it.
///
/// It can't be dropped: it is split and joined, and `deallocate` alone gives a whole block's places up.
pub struct Cells<T> {
    mark: PhantomData<*const T>,
    ghost at: { Ptr },
    ghost first: { ℕ },
    ghost items: { List T },
    ghost spare: { ℕ },
}

impl<T> Model for Cells<T> {
    ghost also_owns = { λ c. owned T.row c.at c.first c.items c.spare };

    ghost also_shares = { λ c _ κ. lent T.row c.at c.first c.items c.spare κ };
}

unsafe impl<T: Send> Send for Cells<T> {}

unsafe impl<T: Sync> Sync for Cells<T> {}

/// The right to give the block of `len` places that begins at `at` back to `alloc`. It takes no bytes.
///
/// It can't be dropped: `deallocate` alone takes it, which frees the block.
pub struct Deed<T, A: Allocator> {
    mark: PhantomData<*const (T, A)>,
    ghost at: { Ptr },
    ghost len: { ℕ },
    ghost alloc: { A },
}

impl<T, A: Allocator> Model for Deed<T, A> {
    ghost also_owns = { λ d. freed_by T.row (A.dealloc_token d.alloc) d.at d.len };

    ghost also_shares = { λ _ _ _. ftrue };
}

unsafe impl<T, A: Allocator + Send> Send for Deed<T, A> {}

// Who has a `&` to it can do nothing with it.
unsafe impl<T, A: Allocator> Sync for Deed<T, A> {}

/// A new block of so many empty places.
pub(crate) fn allocate<T, A: Allocator>(
    alloc: &A,
    len: usize,
) -> Result<(Base<T>, Cells<T>, Deed<T, A>), AllocError>
    requires { FitsInBlock T.row len }
    ensures places { IfOk result (λ r. (r.1.at ≡ r.0.ptr) × (r.1.first ≡ 0) × (r.1.items ≡ []) × (r.1.spare ≡ len)) }
    ensures deed { IfOk result (λ r. (r.2.at ≡ r.0.ptr) × (r.2.len ≡ len) × (r.2.alloc ≡ alloc.now)) }
{
    match alloc.allocate(len * size_of::<T>(), align_of::<T>()) {
        Ok(block) => {
            let base = Base {
                ptr: block as *mut T,
            };
            let cells = Cells { mark: PhantomData };
            let deed = Deed { mark: PhantomData };
            Ok((base, cells, deed))
        }
        Err(refused) => Err(refused),
    }
}

/// Frees a block, all of whose places are full. The values in them are forgotten, not dropped.
pub(crate) fn deallocate<T, A: Allocator>(
    alloc: &A,
    base: Base<T>,
    len: usize,
    cells: Cells<T>,
    deed: Deed<T, A>,
)
    requires places { (cells.at ≡ base.ptr) × (cells.first ≡ 0) × (length cells.items ≡ len) × (cells.spare ≡ 0) }
    requires deed { (deed.at ≡ base.ptr) × (deed.len ≡ len) × (deed.alloc ≡ alloc.now) }
{
    let Cells { mark: _ } = cells;
    let Deed { mark: _ } = deed;
    unsafe {
        alloc.deallocate(base.ptr as *mut u8, len * size_of::<T>(), align_of::<T>());
    }
}

impl<T> Cells<T> {
    /// Puts a value into the first empty place, whose index in the block is given.
    pub(crate) fn push(&mut self, base: Base<T>, index: usize, item: T)
        requires block { base.ptr ≡ self.old.at }
        requires next { index ≡ self.old.first + length self.old.items }
        requires room { 1 ≤ self.old.spare }
        ensures places { (self.new.at ≡ self.old.at) × (self.new.first ≡ self.old.first) × (self.new.spare ≡ self.old.spare - 1) }
        ensures items { self.new.items ≡ self.old.items ++ item ∷ [] }
    {
        unsafe { base.ptr.add(index).write(item) }
    }

    /// Puts a value over the one in a full place, which is forgotten, not dropped. The place's index in the block is
    /// given.
    #[inline(always)]
    pub(crate) fn set(&mut self, base: Base<T>, index: usize, item: T)
        requires block { base.ptr ≡ self.old.at }
        requires place { (self.old.first ≤ index) × (index - self.old.first < length self.old.items) }
        ensures places { (self.new.at ≡ self.old.at) × (self.new.first ≡ self.old.first) × (self.new.spare ≡ self.old.spare) }
        ensures items { self.new.items ≡ slice_set self.old.items (index - self.old.first) item }
    {
        unsafe { base.ptr.add(index).write(item) }
    }

    /// The value in a full place, whose index in the block is given.
    #[inline(always)]
    pub(crate) fn get(&self, base: Base<T>, index: usize) -> &T
        requires block { base.ptr ≡ self.now.at }
        requires place { (self.now.first ≤ index) × (index - self.now.first < length self.now.items) }
        ensures { slice_get self.now.items (index - self.now.first) ≡ Some result.now }
    {
        unsafe { &*base.ptr.add(index) }
    }

    /// The first so many places, and the others. Nothing runs: the number tells which cut is meant.
    pub(crate) fn split(self, _count: usize) -> (Cells<T>, Cells<T>)
        requires { (_count ≤ length self.items) × (self.spare ≡ 0) }
        ensures front { (result.0.at ≡ self.at) × (result.0.first ≡ self.first) × (result.0.items ≡ take _count self.items) × (result.0.spare ≡ 0) }
        ensures back { (result.1.at ≡ self.at) × (result.1.first ≡ self.first + _count) × (result.1.items ≡ drop _count self.items) × (result.1.spare ≡ 0) }
    {
        let Cells { mark } = self;
        (Cells { mark }, Cells { mark })
    }

    /// These places, and those behind them. Nothing runs.
    pub(crate) fn join(self, next: Cells<T>) -> Cells<T>
        requires { (next.at ≡ self.at) × (next.first ≡ self.first + length self.items) × (self.spare ≡ 0) × (next.spare ≡ 0) }
        ensures { (result.at ≡ self.at) × (result.first ≡ self.first) × (result.items ≡ self.items ++ next.items) × (result.spare ≡ 0) }
    {
        let Cells { mark } = self;
        let Cells { mark: _ } = next;
        Cells { mark }
    }
}
