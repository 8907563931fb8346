//! The includes: what they add to the originals, and those that stand alone.

ghost use Rattle.std.specs.Prelude.{◌≡◌, ◌++◌, IfOk, OnOk, map};
ghost use Rattle.std.specs.Option.{option_copied};
ghost use Rattle.std.specs.List.{filter, list_all};
ghost use Rattle.matrix_expand.specs.Combos.{contradicts, is_other, laid_over, overlaid, stands_alone};

use crate::same::is_same;
use flow_model::{Combo, Duplicate, Sequence, Value};
use std::alloc::{AllocError, Global};

/// Whether another value is there.
fn is_other(value: &Value, found: Option<&Value>) -> bool
    ensures { result ≡ is_other value.now (option_copied found.entry) }
{
    match found {
        Some(other) => !is_same(value.node(), other.node()),
        None => false,
    }
}

/// Whether an entry gives a variable of the original another value.
fn contradicts(original: &Combo, entry: &Combo) -> bool
    ensures { result ≡ contradicts original.now entry.now }
{
    for (name, value) in entry.iter() {
        if is_other(value, original.get(name.as_str())) {
            return true;
        }
    }
    false
}

/// Sets an entry's values in a combination.
fn lay_over(alloc: Global, entry: &Combo, combo: &mut Combo) -> Result<(), AllocError>
    ensures { OnOk result (combo.new ≡ laid_over entry.now combo.old) }
{
    for (name, value) in entry.iter() {
        combo.set(alloc, name.as_str(), value.copy(alloc)?)?;
    }
    Ok(())
}

/// An original with each entry in turn that does not contradict it.
fn overlaid(alloc: Global, entries: &Sequence<Combo>, original: &Combo) -> Result<Combo, AllocError>
    ensures { IfOk result (λ combo. combo ≡ overlaid entries.now original.now original.now) }
{
    let from = entries.as_slice();
    let mut combo = original.copy(alloc)?;
    for entry in from {
        let fits = !contradicts(original, entry);
        if fits {
            lay_over(alloc, entry, &mut combo)?;
        }
    }
    Ok(combo)
}

/// Each original with the entries that do not contradict it.
pub(crate) fn all_overlaid(
    alloc: Global,
    entries: &Sequence<Combo>,
    originals: &Sequence<Combo>,
) -> Result<Sequence<Combo>, AllocError>
    ensures { IfOk result
        (λ combos. combos ≡ map (λ o. overlaid entries.now o o) originals.now) }
{
    let from = originals.as_slice();
    let mut combos = Sequence::empty(alloc);
    for original in from {
        combos.push(overlaid(alloc, entries, original)?)?;
    }
    Ok(combos)
}

/// Whether an entry contradicts every original.
fn contradicts_all(entry: &Combo, originals: &Sequence<Combo>) -> bool
    ensures { result ≡ list_all (λ o. contradicts o entry.now) originals.now }
{
    let from = originals.as_slice();
    for original in from {
        if !contradicts(original, entry) {
            return false;
        }
    }
    true
}

/// Whether an entry makes a combination of its own.
#[tactic(auto, unfolding(crate::specs::Combos::stands_alone))]
fn stands_alone(entry: &Combo, originals: &Sequence<Combo>) -> bool
    ensures { result ≡ stands_alone originals.now entry.now }
{
    !entry.is_empty() && contradicts_all(entry, originals)
}

/// Adds the entries that make combinations of their own.
pub(crate) fn add_alone(
    alloc: Global,
    entries: &Sequence<Combo>,
    originals: &Sequence<Combo>,
    combos: &mut Sequence<Combo>,
) -> Result<(), AllocError>
    ensures { OnOk result
        (combos.new ≡ combos.old ++ filter (stands_alone originals.now) entries.now) }
{
    let from = entries.as_slice();
    for entry in from {
        if stands_alone(entry, originals) {
            combos.push(entry.copy(alloc)?)?;
        }
    }
    Ok(())
}
