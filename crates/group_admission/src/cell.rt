//! One cell: a name, and who holds it.

ghost use Rattle.std.specs.Prelude.{◌≡◌};
ghost use Rattle.std.specs.Ordering.{nat_cmp};
ghost use Rattle.std.specs.Cmp.Lexicographic.{slice_cmp};
ghost use Rattle.expr_reader.specs.Fold.{fold};

use crate::held::Held;
use flow_model::{Duplicate, Text};
use std::alloc::{AllocError, Global};
use std::cmp::Ordering;

/// A folded name that was entered, and who holds it, if somebody does.
#[derive(Drop)]
pub(crate) struct Cell {
    pub(crate) name: Text,
    pub(crate) held: Option<Held>,
}

impl Duplicate for Cell {
    fn copy(&self, alloc: Global) -> Result<Cell, AllocError> {
        Ok(Cell {
            name: self.name.copy(alloc)?,
            held: self.held,
        })
    }
}

/// How a name, once folded, stands to a folded one in byte order. It takes no memory.
pub(crate) fn folded_order(name: &str, folded: &str) -> Ordering
    ensures { result ≡ slice_cmp nat_cmp (fold name.now) folded.now }
{
    let bytes = name.as_bytes();
    let mut rest = folded.as_bytes();
    for byte in bytes {
        match rest {
            [] => return Ordering::Greater,
            [first, others @ ..] => match byte.to_ascii_lowercase().cmp(first) {
                Ordering::Equal => rest = others,
                Ordering::Less => return Ordering::Less,
                Ordering::Greater => return Ordering::Greater,
            },
        }
    }
    if rest.is_empty() {
        Ordering::Equal
    } else {
        Ordering::Less
    }
}
