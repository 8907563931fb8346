//! What is kept of a leg beside its board, so that nothing is walked over, and no text read again, to know it.

/// Whether a step is called, as far as that is known without its leg.
#[derive(Clone, Copy)]
pub enum Called {
    /// It is called.
    Yes,
    /// It is skipped.
    No,
    /// That is for its texts to say.
    Unknown,
}

/// Whether a step is called, by how its leg counts so far.
#[derive(Clone, Copy)]
pub struct Calls {
    pub success: Called,
    pub failure: Called,
    pub cancelled: Called,
}

/// What whoever keeps counts beside a board knows of a leg at once.
#[derive(Clone, Copy)]
pub struct LegKept {
    /// Whether it is to stop whatever its job's condition.
    pub stops_anyway: bool,
    /// Whether a done step counts as a failure.
    pub has_failed_step: bool,
    /// Whether its next step is called.
    pub calls: Calls,
}
