//! The combinations of a matrix.

ghost use Rattle.std.specs.Prelude.{◌≡◌, ◌≤◌, IfOk};
ghost use Rattle.matrix_expand.specs.Combos.{combos, originals};
ghost use Rattle.matrix_expand.specs.Expands.{Expands};

use crate::fault::MatrixFault;
use crate::original::{MOST_COMBINATIONS, originals};
use crate::overlay::{add_alone, all_overlaid};
use crate::sizes::{have_values, size};
use flow_model::{Combo, Matrix, Sequence};
use std::alloc::{AllocError, Global};

/// The combinations of a matrix, 1 to 256 of them, in order. A variable without a value is
/// `EmptyVariable`; more than 65,536 choices, or more than 256 combinations, are `TooMany`; and a matrix
/// of no combination is `NoCombination`.
pub fn expand(alloc: Global, matrix: &Matrix) -> Result<Sequence<Combo>, MatrixFault>
    ensures { Expands matrix.now result }
{
    if !have_values(&matrix.variables) {
        return Err(MatrixFault::EmptyVariable);
    }
    let Some(size) = size(&matrix.variables) else {
        return Err(MatrixFault::TooMany);
    };
    let originals = originals(alloc, matrix, size)?;
    let combos = with_includes(alloc, matrix, &originals)?;
    if combos.is_empty() {
        return Err(MatrixFault::NoCombination);
    }
    if MOST_COMBINATIONS < combos.len() {
        return Err(MatrixFault::TooMany);
    }
    Ok(combos)
}

/// All combinations, of the originals.
fn with_includes(
    alloc: Global,
    matrix: &Matrix,
    found: &Sequence<Combo>,
) -> Result<Sequence<Combo>, AllocError>
    requires { found.now ≡ originals matrix.now }
    ensures { IfOk result (λ made. made ≡ combos matrix.now) }
{
    let mut made = all_overlaid(alloc, &matrix.include, found)?;
    add_alone(alloc, &matrix.include, found, &mut made)?;
    Ok(made)
}
