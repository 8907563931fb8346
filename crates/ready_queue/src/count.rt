//! What went through a queue.

/// How many tickets were put, taken and left. A count above `u64::MAX` is given as `u64::MAX`.
#[derive(Clone, Copy, PartialEq, Eq)]
pub struct Count {
    pub put: u64,
    pub taken: u64,
    pub left: u64,
}
