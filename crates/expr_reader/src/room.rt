//! Growth, of which a refusal is want of memory.

ghost use Rattle.std.specs.Prelude.{◌≡◌, ◌∷◌, ◌++◌, [], OnOk, IfOk, IfErr};

use crate::fault::Refusal;
use std::alloc::Global;

/// Adds an item at the end.
pub(crate) fn add<T: Drop>(items: &mut Vec<T>, item: T) -> Result<(), Refusal>
    ensures ok { OnOk result (items.new.items ≡ items.old.items ++ item ∷ []) }
    ensures err { IfErr result (λ e. e ≡ Refusal.Memory) }
{
    items.push(item)?;
    Ok(())
}

/// A value on the heap.
pub(crate) fn boxed<T: Drop>(alloc: Global, value: T) -> Result<Box<T>, Refusal>
    ensures ok { IfOk result (λ b. b.value ≡ value) }
    ensures err { IfErr result (λ e. e ≡ Refusal.Memory) }
{
    let value = Box::new(alloc, value)?;
    Ok(value)
}
