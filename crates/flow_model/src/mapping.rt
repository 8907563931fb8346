//! A mapping from texts, which contracts see as the list of its pairs in the order of their keys.

ghost use Rattle.std.specs.Prelude.{◌≡◌, ◌==◌, ◌↔◌, [], IsTrue, OnOk, OnErr, IfOk, length, string_bytes};
ghost use Rattle.std.specs.Option.{option_copied};
ghost use Rattle.flow_model.specs.Mapping.{pairs_of, value_at, with_pair, Ascends};

use crate::duplicate::Duplicate;
use crate::mapping_iter::MappingIter;
use crate::text::Text;
use std::alloc::{AllocError, Global};
use std::collections::BTreeMap;
use std::marker::Model;

const _: () = prove!(size_of::<Mapping<Text>>() == 16);

/// A map from texts to values, in the byte order of its keys. Most have no pair: the map is made for the first, and two words
/// are all that stands in place of it.
#[derive(Drop)]
pub struct Mapping<V> {
    /// None where no pair was set.
    entries: Option<Box<BTreeMap<String, V>>>,
    alloc: Global,
}

impl<V> Model for Mapping<V> {
    ghost use Rattle.std.specs.Prelude.{List, [], ℕ};
    ghost use Rattle.std.specs.Option.{option_map_or};
    ghost use Rattle.flow_model.specs.Mapping.{pairs_of};

    ghost Value = { List (List ℕ × V) };

    ghost view = { λ m. option_map_or (λ kept. pairs_of kept.value.entries) m.entries [] };
}

impl<V> Mapping<V> {
    /// A mapping without pairs. It takes no memory.
    #[inline(always)]
    pub fn empty(alloc: Global) -> Mapping<V>
        ensures { result ≡ [] }
    {
        Mapping {
            entries: None,
            alloc,
        }
    }

    /// Gives the pairs as a map.
    pub fn into_map(self) -> BTreeMap<String, V>
        ensures { pairs_of result.entries ≡ self }
    {
        match self.entries {
            Some(entries) => Box::into_inner(entries),
            None => BTreeMap::new(self.alloc),
        }
    }

    /// How many pairs there are.
    pub fn len(&self) -> usize
        ensures { result ≡ length self.now }
    {
        match &self.entries {
            Some(entries) => entries.len(),
            None => 0,
        }
    }

    /// Whether there is no pair.
    #[inline(always)]
    pub fn is_empty(&self) -> bool
        ensures { result ≡ (length self.now == 0) }
    {
        match &self.entries {
            Some(entries) => entries.len() == 0,
            None => true,
        }
    }

    /// Goes over the pairs in the order of their keys.
    pub fn iter(&self) -> MappingIter<'_, V>
        ensures pairs { pairs_of result ≡ self.now }
        ensures ascends { Ascends self.now }
    {
        let Some(entries) = &self.entries else {
            return MappingIter::none();
        };
        MappingIter::of(entries.iter())
    }

    /// The value at a key, if there is one.
    pub fn get(&self, key: &str) -> Option<&V>
        ensures { option_copied result ≡ value_at key.now self.now }
    {
        match &self.entries {
            Some(entries) => entries.get(key),
            None => None,
        }
    }
}

impl<V: Drop> Mapping<V> {
    /// Sets the value at a key; where memory runs out, nothing is changed.
    pub fn insert(&mut self, key: Text, value: V) -> Result<(), AllocError>
        ensures ok { OnOk result (self.new ≡ with_pair key value self.old) }
        ensures err { OnErr result (self.new ≡ self.old) }
    {
        match &mut self.entries {
            Some(entries) => {
                drop(entries.insert(key.into_string(), value)?);
                Ok(())
            },
            None => self.begin(key, value),
        }
    }

    /// Sets the first value; where memory runs out, nothing is changed.
    fn begin(&mut self, key: Text, value: V) -> Result<(), AllocError>
        requires { self.old ≡ [] }
        ensures ok { OnOk result (self.new ≡ with_pair key value []) }
        ensures err { OnErr result (self.new ≡ []) }
    {
        let mut entries = BTreeMap::new(self.alloc);
        drop(entries.insert(key.into_string(), value)?);
        self.entries = Some(Box::new(self.alloc, entries)?);
        Ok(())
    }

    /// Sets the value at a copy of a key; where memory runs out, nothing is changed.
    pub fn set(&mut self, alloc: Global, key: &str, value: V) -> Result<(), AllocError>
        ensures ok { OnOk result (self.new ≡ with_pair key.now value self.old) }
        ensures err { OnErr result (self.new ≡ self.old) }
    {
        let key = Text::from_str(alloc, key)?;
        self.insert(key, value)
    }
}

impl<V: Duplicate + Drop> Duplicate for Mapping<V> {
    fn copy(&self, alloc: Global) -> Result<Mapping<V>, AllocError> {
        let from = self.iter();
        let mut twin = Mapping::empty(alloc);
        for (key, value) in from {
            twin.set(alloc, key.as_str(), value.copy(alloc)?)?;
        }
        Ok(twin)
    }
}

/// Whether two mappings have the same pairs.
pub fn is_same_mapping(one: &Mapping<Text>, other: &Mapping<Text>) -> bool
    ensures { IsTrue result ↔ (one.now ≡ other.now) }
{
    let left = one.iter();
    let mut right = other.iter();
    for (key, value) in left {
        let Some((twin, held)) = right.next() else {
            return false;
        };
        if key.as_str() != twin.as_str() || value.as_str() != held.as_str() {
            return false;
        }
    }
    right.next().is_none()
}
