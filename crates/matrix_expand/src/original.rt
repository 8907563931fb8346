//! The original combinations: the choices that no exclude takes out.

ghost use Rattle.std.specs.Prelude.{◌≡◌, ◌<◌, ◌≤◌, true, IfOk};
ghost use Rattle.matrix_expand.specs.Choices as spec;
ghost use Rattle.matrix_expand.specs.Combos.{is_original};
ghost use Rattle.matrix_expand.specs.Expands.{FindsOriginals, have_values, size as size_of};

use crate::choices::{choice, is_taken_out, row};
use crate::fault::MatrixFault;
use flow_model::{Combo, Matrix, Sequence, Value};
use std::alloc::{AllocError, Global};

/// The most combinations.
pub(crate) const MOST_COMBINATIONS: usize = 256;

/// Whether a row is an original combination.
#[tactic(auto, unfolding(crate::specs::Combos::is_original))]
fn is_original<'a>(excludes: &Sequence<Combo>, row: &[(&'a str, &'a Value)]) -> bool
    ensures { result ≡ is_original excludes.now (spec.row_pairs row.now) }
{
    !row.is_empty() && !is_taken_out(excludes, row)
}

/// Whether the choice of a number is an original combination.
fn is_chosen(alloc: Global, matrix: &Matrix, size: usize, number: usize) -> Result<bool, AllocError>
    requires full { have_values matrix.now.variables ≡ true }
    requires sized { size ≡ size_of matrix.now.variables }
    requires within { number < size }
    ensures { IfOk result (λ chosen. chosen
        ≡ is_original matrix.now.exclude (spec.choice matrix.now.variables number)) }
{
    let row = row(alloc, &matrix.variables, size, number)?;
    Ok(is_original(&matrix.exclude, row.as_slice()))
}

/// The original combinations; `TooMany` where they are more than 256.
pub(crate) fn originals(
    alloc: Global,
    matrix: &Matrix,
    size: usize,
) -> Result<Sequence<Combo>, MatrixFault>
    requires full { have_values matrix.now.variables ≡ true }
    requires sized { size ≡ size_of matrix.now.variables }
    ensures { FindsOriginals matrix.now result }
{
    let mut made = Sequence::empty(alloc);
    for number in 0..size {
        let chosen = is_chosen(alloc, matrix, size, number)?;
        if chosen {
            if made.len() == MOST_COMBINATIONS {
                return Err(MatrixFault::TooMany);
            }
            made.push(choice(alloc, &matrix.variables, size, number)?)?;
        }
    }
    Ok(made)
}
