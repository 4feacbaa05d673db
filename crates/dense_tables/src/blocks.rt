//! Lists of plain values, copied as they lie.
ghost use Rattle.std.specs.Prelude.{◌≡◌, IfOk};

use std::alloc::{AllocError, Allocator};

/// A copy of a list: one block of memory, copied whole.
pub fn copy_of<T: Copy, A: Allocator + Copy>(list: &Vec<T, A>) -> Result<Vec<T, A>, AllocError>
    ensures same { IfOk result (λ copy. copy.items ≡ list.now.items) }
{
    Vec::from_slice(*list.allocator(), list.as_slice())
}
