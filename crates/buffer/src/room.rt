// Messages in fixed memory, in the order in which they came.
ghost use Rattle.std.specs.Prelude.{◌≡◌, ◌≤◌, length};

use crate::message::Buffered;

// The first `len` of `messages` are there. An array and a count: fixed memory, which C owns.
#[derive(Clone, Copy, Drop)]
#[repr(C)]
pub struct Buffer {
    pub messages: [Buffered; 64],
    pub len: usize,
    ghost few: { len ≤ 64 },
    ghost sized: { length messages ≡ 64 },
}
