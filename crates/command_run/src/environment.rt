//! The variables of this program, which programs have too.

ghost use Rattle.std.specs.Prelude.{◌≡◌, IfOk, List, OnOk, Option, ℕ};
ghost use Rattle.std.specs.Option.{option_map};
ghost use Rattle.command_run.specs.Environment as spec;

use flow_model::{Mapping, Text};
use std::alloc::{AllocError, Global};
use std::env::{Env, FillError};
use std::str;

/// A name and its value, if the name has a byte.
fn named<'t>(name: &'t str, value: &'t str) -> Option<(&'t str, &'t str)>
    ensures { option_map (λ v. (v.0.now, v.1.now)) result ≡ spec.named name.now value.now }
{
    if name.is_empty() {
        return None;
    }
    Some((name, value))
}

/// The variable that a text is: `NAME=VALUE`.
fn variable_in(text: &str) -> Option<(&str, &str)>
    ensures { option_map (λ v. (v.0.now, v.1.now)) result ≡ spec.variable_in text.now }
{
    let (name, value) = text.split_once('=')?;
    named(name, value)
}

/// The variable that an entry of an environment is. What is no text is none.
fn variable_of(entry: &[u8]) -> Option<(&str, &str)>
    ensures { option_map (λ v. (v.0.now, v.1.now)) result ≡ spec.variable_of entry.now }
{
    match str::from_utf8(entry) {
        Ok(text) => variable_in(text),
        Err(_) => None,
    }
}

/// Adds the variable that an entry is, if it is one.
fn add_entry(alloc: Global, entry: &[u8], variables: &mut Mapping<Text>) -> Result<(), AllocError>
    ensures { OnOk result (variables.new ≡ spec.with_entry entry.now variables.old) }
{
    if let Some((name, value)) = variable_of(entry) {
        variables.set(alloc, name, Text::from_str(alloc, value)?)?;
    }
    Ok(())
}

/// The entry of that number, unless it is longer than `room`: the outer `None`. The inner is the end of the environment.
fn short_entry<R: Env>(
    rt: &R,
    alloc: Global,
    number: usize,
    room: usize,
) -> Result<Option<Option<Vec<u8>>>, AllocError> {
    let mut entry = Vec::new(alloc);
    entry.resize(room, 0u8)?;
    match rt.var_at(number, entry.as_mut_slice()) {
        Ok(length) => {
            entry.truncate(length);
            Ok(Some(Some(entry)))
        },
        Err(FillError::TooLong) => Ok(None),
        Err(FillError::NotPresent) => Ok(Some(None)),
    }
}

/// What has an environment.
pub trait Environment {
    /// That its entry of this number is this, or that it has none of this number or above.
    ghost holds: { Self → ℕ → Option (List ℕ) → Type 0 };

    /// The entry of that number, unless the environment ends before it.
    ///
    /// # Errors
    ///
    /// There is no memory.
    fn entry_at(&self, alloc: Global, number: usize) -> Result<Option<Vec<u8>>, AllocError>
        ensures { IfOk result (λ found. holds self.now number (option_map (λ entry. entry.items) found)) };
}

impl Environment for HostRuntime {
    // nothing is known of an environment
    ghost holds = { λ _ _ _. Unit {0} };

    fn entry_at(&self, alloc: Global, number: usize) -> Result<Option<Vec<u8>>, AllocError> {
        let mut room = 256usize;
        for _ in 0..usize::BITS {
            if let Some(found) = short_entry(self, alloc, number, room)? {
                return Ok(found);
            }
            room = room.saturating_add(room);
        }
        Err(AllocError)
    }
}

/// The variables of an environment. An entry that is no text or has no name is left out.
///
/// # Errors
///
/// There is no memory.
pub(crate) fn variables<R: Environment>(rt: &R, alloc: Global) -> Result<Mapping<Text>, AllocError>
    ensures { IfOk result (spec.AreVariables (R.holds rt.now)) }
{
    let mut variables = Mapping::empty(alloc);
    for number in 0..usize::MAX {
        let Some(entry) = rt.entry_at(alloc, number)? else {
            return Ok(variables);
        };
        add_entry(alloc, entry.as_slice(), &mut variables)?;
    }
    // there is no memory for so many
    Err(AllocError)
}
