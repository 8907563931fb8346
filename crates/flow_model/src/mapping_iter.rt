//! The pairs of a mapping, one after another.

ghost use Rattle.std.specs.Prelude.{◌≡◌, [], length};
ghost use Rattle.std.specs.Iterator.{at_most};
ghost use Rattle.std.specs.Map.Iter.{TakesFirst, deref_pair};

use std::collections::btree_map::Iter;
use std::marker::Model;

/// The pairs of a mapping, in the order of their keys, of which contracts see those that are left.
#[derive(Drop)]
pub struct MappingIter<'m, V> {
    /// None where there is no map.
    left: Option<Iter<'m, String, V>>,
}

impl<'m, V> Model for MappingIter<'m, V> {
    ghost use Rattle.std.specs.Prelude.{List, String};
    ghost use Rattle.std.specs.declared.alloc.Global.{Global};
    ghost use Rattle.flow_model.specs.Mapping.{left_of};

    ghost Value = { List (String Global × V) };

    ghost view = { λ p. left_of p.left };
}

impl<'m, V> MappingIter<'m, V> {
    /// No pairs.
    #[inline(always)]
    pub(crate) fn none() -> MappingIter<'m, V>
        ensures { result ≡ [] }
    {
        MappingIter { left: None }
    }

    /// The pairs of a map.
    #[inline(always)]
    pub(crate) fn of(left: Iter<'m, String, V>) -> MappingIter<'m, V>
        ensures { result ≡ left.entry }
    {
        MappingIter { left: Some(left) }
    }
}

impl<'m, V> Iterator for MappingIter<'m, V> {
    type Item = (&'m String, &'m V);

    ghost next_gives = { TakesFirst deref_pair };

    ghost remaining = { λ s. at_most (length s) };

    #[inline(always)]
    fn next(&mut self) -> Option<(&'m String, &'m V)> {
        match &mut self.left {
            Some(left) => left.next(),
            None => None,
        }
    }
}
