//! A choice of one value of each variable, by its number.

ghost use Rattle.std.specs.Prelude.{◌≡◌, ◌<◌, ◌/◌, true, length, get_or, IfOk};
ghost use Rattle.std.specs.Option.{option_copied};
ghost use Rattle.std.specs.List.{list_any};
ghost use Rattle.flow_model.specs.Mapping.{Ascends, value_at};
ghost use Rattle.flow_model.specs.Plain.{null};
ghost use Rattle.matrix_expand.specs.Choices as spec;
ghost use Rattle.matrix_expand.specs.Combos.{is_value, stands_in, takes_out};
ghost use Rattle.matrix_expand.specs.Expands.{have_values, size as size_of};

use crate::same::is_same;
use flow_model::{Combo, Duplicate, Mapping, Sequence, Value};
use std::alloc::{AllocError, Global};

/// The value of a variable, each of which stands for a block of choices.
#[tactic(auto, using(crate::proofs::Chosen::read_at))]
fn chosen_item(values: &Sequence<Value>, block: usize, rest: usize) -> &Value
    requires block { 0 < block }
    requires within { rest / block < length values.now }
    ensures { result.now ≡ get_or values.now (rest / block) null }
{
    let items = values.as_slice();
    &items[rest / block]
}

/// The pairs of a choice, each the name of a variable with the value that it is given.
pub(crate) fn row<'a>(
    alloc: Global,
    variables: &'a Mapping<Sequence<Value>>,
    size: usize,
    number: usize,
) -> Result<Vec<(&'a str, &'a Value)>, AllocError>
    requires full { have_values variables.now ≡ true }
    requires sized { size ≡ size_of variables.now }
    requires within { number < size }
    ensures pairs { IfOk result
        (λ row. spec.row_pairs row.items ≡ spec.choice variables.now number) }
    ensures ascends { IfOk result (λ row. Ascends (spec.row_pairs row.items)) }
{
    let from = variables.iter();
    let mut row = Vec::new(alloc);
    let mut block = size;
    let mut rest = number;
    for (key, values) in from {
        block = block / values.len();
        let item = chosen_item(values, block, rest);
        row.push((key.as_str(), item))?;
        rest = rest % block;
    }
    Ok(row)
}

/// The value that a row gives to a name, if the name is a variable.
fn found<'a>(row: &[(&'a str, &'a Value)], name: &str) -> Option<&'a Value>
    ensures { option_copied result ≡ value_at name.now (spec.row_pairs row.now) }
{
    for (key, item) in row {
        if name == *key {
            return Some(*item);
        }
    }
    None
}

/// Whether this is the value that is there.
fn is_value(value: &Value, found: Option<&Value>) -> bool
    ensures { result ≡ is_value value.now (option_copied found.entry) }
{
    match found {
        Some(other) => is_same(value.node(), other.node()),
        None => false,
    }
}

/// Whether all of an entry's pairs stand in a row.
fn stands_in<'a>(entry: &Combo, row: &[(&'a str, &'a Value)]) -> bool
    ensures { result ≡ stands_in entry.now (spec.row_pairs row.now) }
{
    for (name, value) in entry.iter() {
        if !is_value(value, found(row, name.as_str())) {
            return false;
        }
    }
    true
}

/// Whether an exclude takes a row out.
#[tactic(auto, unfolding(crate::specs::Combos::takes_out))]
fn takes_out<'a>(entry: &Combo, row: &[(&'a str, &'a Value)]) -> bool
    ensures { result ≡ takes_out (spec.row_pairs row.now) entry.now }
{
    !entry.is_empty() && stands_in(entry, row)
}

/// Whether one of the excludes takes a row out.
pub(crate) fn is_taken_out<'a>(excludes: &Sequence<Combo>, row: &[(&'a str, &'a Value)]) -> bool
    ensures { result ≡ list_any (takes_out (spec.row_pairs row.now)) excludes.now }
{
    let from = excludes.as_slice();
    for entry in from {
        if takes_out(entry, row) {
            return true;
        }
    }
    false
}

/// The combination that has the pairs of a row, whose names ascend.
fn combo_of<'a>(alloc: Global, row: &[(&'a str, &'a Value)]) -> Result<Combo, AllocError>
    requires { Ascends (spec.row_pairs row.now) }
    ensures { IfOk result (λ combo. combo ≡ spec.row_pairs row.now) }
{
    let mut combo = Mapping::empty(alloc);
    for (key, item) in row {
        combo.set(alloc, *key, item.copy(alloc)?)?;
    }
    Ok(combo)
}

/// The combination of a choice.
pub(crate) fn choice(
    alloc: Global,
    variables: &Mapping<Sequence<Value>>,
    size: usize,
    number: usize,
) -> Result<Combo, AllocError>
    requires full { have_values variables.now ≡ true }
    requires sized { size ≡ size_of variables.now }
    requires within { number < size }
    ensures { IfOk result (λ combo. combo ≡ spec.choice variables.now number) }
{
    let row = row(alloc, variables, size, number)?;
    combo_of(alloc, row.as_slice())
}
