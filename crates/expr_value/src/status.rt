//! The status that a condition sees.

ghost use Rattle.std.specs.Prelude.{◌≡◌};

/// A status (GitHub Docs, "Evaluate expressions in workflows and actions": status check functions).
#[derive(Clone, Copy)]
pub enum Status {
    /// The status of which `success()` is true.
    Success,
    /// The status of which `failure()` is true.
    Failure,
    /// The status of which `cancelled()` is true.
    Cancelled,
    /// None of the three, as where an ancestor was skipped.
    Other,
}

impl Status {
    ghost use Rattle.expr_value.specs.Functions.{is_success, is_failure, is_cancelled};

    /// Whether it is success.
    pub fn is_success(self) -> bool
        ensures { result ≡ is_success self }
    {
        matches!(self, Status::Success)
    }

    /// Whether it is failure.
    pub(crate) fn is_failure(self) -> bool
        ensures { result ≡ is_failure self }
    {
        matches!(self, Status::Failure)
    }

    /// Whether it is cancelled.
    pub(crate) fn is_cancelled(self) -> bool
        ensures { result ≡ is_cancelled self }
    {
        matches!(self, Status::Cancelled)
    }
}
