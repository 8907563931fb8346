//! The numbers that a pass carries.

ghost use Rattle.ready_queue.specs.Tally.{Counts, CountsPut, CountsTake, CountsBoth};

/// How many tickets were put and taken, each at most `u64::MAX`, and how far the puts are ahead of the
/// takes, which wraps.
#[derive(Clone, Copy)]
pub(crate) struct Tally {
    pub put: u64,
    pub taken: u64,
    pub ahead: u64,
}

impl Tally {
    pub fn new() -> Tally
        ensures { Counts 0 0 result }
    {
        Tally {
            put: 0,
            taken: 0,
            ahead: 0,
        }
    }

    pub fn with_put(self) -> Tally
        ensures { CountsPut self result }
    {
        Tally {
            put: self.put.saturating_add(1),
            taken: self.taken,
            ahead: self.ahead.wrapping_add(1),
        }
    }

    pub fn with_taken(self) -> Tally
        ensures { CountsTake self result }
    {
        Tally {
            put: self.put,
            taken: self.taken.saturating_add(1),
            ahead: self.ahead.wrapping_sub(1),
        }
    }

    /// The numbers of both.
    pub fn joined(self, other: Tally) -> Tally
        ensures { CountsBoth self other result }
    {
        Tally {
            put: self.put.saturating_add(other.put),
            taken: self.taken.saturating_add(other.taken),
            ahead: self.ahead.wrapping_add(other.ahead),
        }
    }
}
