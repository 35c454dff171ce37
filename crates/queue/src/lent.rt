//! The queue, over memory that the caller lends.

ghost use Rattle.std.specs.Prelude.{◌≤◌, length};

use crate::coding::Coding;

pub mod calls;

/// A queue of numbers in lent memory: those from `take_at` up to `write_at` wait.
// The places stand beside the memory, since this crate takes none from the heap: the caller lends it.
#[derive(Drop)]
pub struct Queue<'a, C: Coding> {
    memory: &'a mut [C::Number],
    take_at: usize,
    write_at: usize,
    capacity: usize,
    ghost taken: { take_at ≤ write_at },
    ghost written: { write_at ≤ length memory.now },
    ghost holds: { capacity ≤ length memory.now },
}
