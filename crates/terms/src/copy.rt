//! Copies, for which memory may run out.

ghost use Rattle.std.specs.Prelude.{◌≡◌, IfOk};

use crate::memory::Memory;
use std::alloc::Global;

/// A value that can be copied. Unlike `Clone`, every copy is equal to its original.
pub trait TryCopy: Drop {
    /// A value equal to this one, on this one's allocator.
    fn copy(&self) -> Result<Self, Memory>
        ensures { IfOk result (λ copy. copy ≡ self.now) };
}

/// A copy of each value, in order. There is room for them alone: what is kept for long takes no more memory.
pub fn copy_all<T: TryCopy>(alloc: Global, items: &[T]) -> Result<Vec<T>, Memory>
    ensures { IfOk result (λ copies. copies.items ≡ items.now) }
{
    let mut copies = Vec::with_capacity(alloc, items.len())?;
    for item in items {
        copies.push(item.copy()?)?;
    }
    Ok(copies)
}
