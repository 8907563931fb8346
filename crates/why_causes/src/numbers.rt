//! Numbers that go on.

ghost use Rattle.std.specs.Prelude.{◌≡◌, IfOk, suc};

use std::alloc::AllocError;

/// The number after another. No memory holds as many as a `u64` counts.
pub(crate) fn next_number(number: u64) -> Result<u64, AllocError>
    ensures { IfOk result (λ next. next ≡ suc number) }
{
    match number.checked_add(1) {
        Some(next) => Ok(next),
        None => Err(AllocError),
    }
}
