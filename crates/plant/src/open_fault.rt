//! Why a plant is not opened.

/// Why a plant is not opened: the first of these, in this order, but that the allocator may be out
/// of memory where no other stands against it.
#[derive(Clone, Copy, PartialEq, Eq)]
pub enum OpenFault {
    /// 1: the allocator is out of memory.
    Memory,
    /// 2: there are not 1 to 16 scan workers.
    BadCount,
    /// 7: the limit is not 100 to 1,000,000, or below 500 with more than 16 buses.
    Limit,
}
