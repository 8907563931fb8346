//! What a caller has a queue keep besides its own rule.

/// A rule of the caller's own, over the tickets in the queue, the oldest first, and the records under each
/// pass. Each call asks that the step of its own pass keeps it; so a rule can say which passes take, or put.
/// A call that is refused tells that it held when the queue was full, or empty. The queue's code knows no
/// rule, so it cannot tell that of a moment which it did not see.
pub trait HouseRule {
    ghost use Rattle.std.specs.Prelude.{ℕ, List};
    ghost use Rattle.ready_queue.specs.declared.record.Record.{Record};

    ghost holds: { List ℕ → List (List Record) → Type 0 };
}

/// The rule that asks nothing and tells nothing.
pub struct NoRule;

impl HouseRule for NoRule {
    ghost use Rattle.std.specs.Prelude.{⊤};

    ghost holds = { λ items views. ⊤ };
}
