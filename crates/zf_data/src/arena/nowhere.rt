//! The allocator of boxes whose blocks are never freed.
ghost use Rattle.std.specs.Borrow.{ftrue};

use std::alloc::{AllocError, Allocator};

/// It has no memory to give and frees no block, so a block that another allocator gave stays valid in its hands. It has no size.
#[derive(Clone, Copy)]
pub struct Nowhere;

unsafe impl Allocator for Nowhere {
    ghost dealloc_token = { λ _ _ _. ftrue };

    fn allocate(&self, _size: usize, _align: usize) -> Result<*mut u8, AllocError> {
        Err(AllocError)
    }

    unsafe fn deallocate(&self, _ptr: *mut u8, _size: usize, _align: usize) {}

    unsafe fn grow<T>(
        &self,
        _ptr: *mut T,
        _len: usize,
        _old_cap: usize,
        _new_cap: usize,
    ) -> Result<*mut T, AllocError> {
        Err(AllocError)
    }

    unsafe fn shrink<T>(
        &self,
        _ptr: *mut T,
        _len: usize,
        _old_cap: usize,
        _new_cap: usize,
    ) -> Result<*mut T, AllocError> {
        Err(AllocError)
    }
}
