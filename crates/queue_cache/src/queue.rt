// What a queue cache holds, and what is true of it.
ghost use Rattle.std.specs.Prelude.{◌≤◌};
ghost use Rattle.std.specs.VecDeque.{deque_capacity};
ghost use Rattle.queue_cache.specs.Queue.{QueueFits};

use cache::Entry;
use std::collections::VecDeque;

pub mod calls;

#[derive(Drop)]
pub struct QueueBuffer {
    // oldest first; a block may stand here several times
    entries: VecDeque<Entry>,
    ghost fits: { QueueFits entries.items },
    ghost roomy: { 16 ≤ deque_capacity entries },
}
