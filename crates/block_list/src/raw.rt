//! Memory for the items of one block. Only the functions here hold a pointer.
ghost use Rattle.std.specs.Prelude.{◌≡◌, ◌+◌, ◌<◌, List, [], ◌∷◌, ◌++◌, length, slice_index_or, IfOk};
ghost use Rattle.std.specs.Borrow.{sem};
ghost use Rattle.std.specs.Ptr.{as_ptr, as_mut_ptr};
ghost use Rattle.std.specs.Vec.Ownership.{vec_owns, vec_shares};

use std::alloc::{AllocError, Allocator};
use std::marker::{Model, PhantomData, Send, Sync};
use std::mem::{align_of, size_of};

/// How many items a block holds.
pub const BLOCK: usize = 64;

/// Room for 64 items, of which the first are written. Its owner counts them, and keeps what frees the room.
pub struct RawBlock<T, A: Allocator> {
    ptr: *mut T,
    by: PhantomData<A>,
    pub ghost items: { List T },
    pub ghost alloc: { A },
}

impl<T, A: Allocator> Model for RawBlock<T, A> {
    ghost also_owns = { λ b. vec_owns (A.dealloc_token b.alloc) T.row b.ptr (length b.items) 64 b.items };

    ghost also_shares = { λ b _ κ. vec_shares T.row b.ptr (length b.items) 64 b.items κ };
}

// It owns its items and the right to free their room, and nothing that knows of a thread.
unsafe impl<T: Send, A: Allocator + Send> Send for RawBlock<T, A> {}

// A `&` to it reaches the items alone.
unsafe impl<T: Sync, A: Allocator + Sync> Sync for RawBlock<T, A> {}

impl<T, A: Allocator> RawBlock<T, A> {
    ghost use Rattle.block_list.specs.Blocks.{FitsMemory};
    ghost use Rattle.block_list.specs.RawLends.{lends_raw};
    ghost use Rattle.block_list.specs.Addresses.{SameRoom, item_address};

    /// Room with no item in it.
    pub fn allocate(alloc: &A) -> Result<RawBlock<T, A>, AllocError>
        requires { FitsMemory T.row }
        ensures { IfOk result (λ block. (block.items ≡ []) × (block.alloc ≡ alloc.now)) }
    {
        match alloc.allocate(BLOCK * size_of::<T>(), align_of::<T>()) {
            Ok(room) => Ok(RawBlock {
                ptr: room as *mut T,
                by: PhantomData,
            }),
            Err(error) => Err(error),
        }
    }

    /// Gives the room back, in which no item is left.
    pub fn free(self, alloc: &A)
        requires { (self.items ≡ []) × (self.alloc ≡ alloc.now) }
    {
        let RawBlock { ptr, by: _ } = self;
        // The room is this block's, with the size and the alignment that it was asked for with, and no item is in it.
        unsafe {
            alloc.deallocate(ptr as *mut u8, BLOCK * size_of::<T>(), align_of::<T>());
        }
    }

    /// Writes an item after the `len` that are there.
    pub fn write(&mut self, len: usize, item: T)
        requires { (len ≡ length self.old.items) × (len < 64) }
        ensures items { self.new.items ≡ self.old.items ++ item ∷ [] }
        ensures stays { SameRoom self.old self.new }
    {
        // The place is within the room, and no item is there that would be lost.
        unsafe { self.ptr.add(len).write(item) }
    }

    /// Takes the last item, which is at `last`.
    pub fn read(&mut self, last: usize) -> T
        requires { (last + 1 ≡ length self.old.items) × (last < 64) }
        ensures items { self.old.items ≡ self.new.items ++ result ∷ [] }
        ensures stays { SameRoom self.old self.new }
    {
        // An item is there, and its place is room from now on, so that no one reads it again.
        unsafe { self.ptr.add(last).read() }
    }

    /// The item at a place.
    pub fn item(&self, i: usize) -> &T
        requires { (i < length self.now.items) × (i < 64) }
        ensures item { result.now ≡ slice_index_or self.now.items i result.now }
        ensures address { as_ptr result ≡ item_address T.row self.now.ptr i }
    {
        // An item is there, and it stays for as long as `self` is lent.
        unsafe { &*self.ptr.add(i) }
    }

    /// The item at a place, to be written.
    pub fn item_mut(&mut self, i: usize) -> &mut T
        requires { (i < length self.old.items) × (i < 64) }
        ensures* writes_back { sem 𝓛 (lends_raw T.row A.row A.Allocator self.entry i result) }
        ensures value { result.now ≡ slice_index_or self.old.items i result.now }
        ensures address { as_mut_ptr result ≡ item_address T.row self.old.ptr i }
    {
        // An item is there, and no one else reaches it while `self` is lent.
        unsafe { &mut *self.ptr.add(i) }
    }
}
