// Where the memory of a card's vectors comes from.
use std::alloc::Global;

/// The allocator of all vectors of a card. A build for another heap replaces this one line.
pub type Heap = Global;
