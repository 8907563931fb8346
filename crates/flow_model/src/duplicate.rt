//! Copies that are equal to what they were made from.

ghost use Rattle.std.specs.Prelude.{◌≡◌, IfOk, OnOk, option_map, Some, None};

use std::alloc::{AllocError, Global};

/// A value that can be copied.
pub trait Duplicate {
    /// An equal value, with memory of its own.
    fn copy(&self, alloc: Global) -> Result<Self, AllocError>
    where
        Self: Sized,
        ensures { IfOk result (λ twin. twin ≡ self.now) };
}

impl<T: Duplicate> Duplicate for Option<T> {
    fn copy(&self, alloc: Global) -> Result<Option<T>, AllocError> {
        match self {
            Some(value) => Ok(Some(value.copy(alloc)?)),
            None => Ok(None),
        }
    }
}

impl Duplicate for u64 {
    fn copy(&self, _alloc: Global) -> Result<u64, AllocError> {
        Ok(*self)
    }
}

/// References in pairs of pairs, as `((a, b), c)`, which are copied in one go.
pub(crate) trait Copies {
    /// What they refer to, in the same pairs.
    type Made: Drop;

    ghost seen: { Self → Self.Made };

    /// A copy of each.
    fn copies(self, alloc: Global) -> Result<Self::Made, AllocError>
    where
        Self: Sized,
        ensures { IfOk result (λ made. made ≡ seen self) };
}

impl<'a, T: Duplicate + Drop> Copies for &'a T {
    type Made = T;

    ghost seen = { λ part. part.now };

    fn copies(self, alloc: Global) -> Result<T, AllocError> {
        self.copy(alloc)
    }
}

impl<A: Copies + Drop, B: Copies + Drop> Copies for (A, B) {
    type Made = (A::Made, B::Made);

    ghost seen = { λ parts. (A.seen parts.0, B.seen parts.1) };

    fn copies(self, alloc: Global) -> Result<(A::Made, B::Made), AllocError> {
        let (first, second) = self;
        let first = first.copies(alloc)?;
        Ok((first, second.copies(alloc)?))
    }
}
