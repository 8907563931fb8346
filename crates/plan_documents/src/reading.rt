//! How a part of a document is read from JSON.

ghost use Rattle.std.specs.Prelude.{◌≡◌, ◌∷◌, ◌++◌, length, decimal, IfOk, Ok, Err, string_bytes, codes, ⊤};
ghost use Rattle.serde_json.specs.View.{view, items_view, members_view};
ghost use Rattle.plan_documents.specs.Answer.{Gives, GivesIt, IsRefusal, IsWithin};
ghost use Rattle.plan_documents.specs.Parts.{Reading, joined, within, text_of, truth_of, number_of, plain_of, optional_of, items_read, list_of, pairs_read, map_of, members_of, next_member, first_field, no_more, word_of, has_word};

use flow_model::{JsonFault, Mapping, Sequence, Text};
use serde_json::Value;
use std::alloc::{AllocError, AllocFailed, Global};
use std::cmp::Ordering;
use std::collections::BTreeMap;
use std::collections::btree_map::Iter;
use std::fmt::Write;

/// Why a part could not be read.
#[derive(Drop)]
pub enum Unread {
    /// It is not as it should be, at this path within it: keys and places, joined by dots.
    Refused(Text),
    /// There is no memory.
    Memory,
}

impl From<AllocError> for Unread {
    ghost use Rattle.plan_documents.specs.declared.reading.Unread.TheVariants.{Memory};

    ghost from_gives = { λ _ e. e ≡ Memory };

    fn from(_: AllocError) -> Unread {
        Unread::Memory
    }
}

impl<T: Drop> From<AllocFailed<T>> for Unread {
    ghost use Rattle.plan_documents.specs.declared.reading.Unread.TheVariants.{Memory};

    ghost from_gives = { λ _ e. e ≡ Memory };

    fn from(_: AllocFailed<T>) -> Unread {
        Unread::Memory
    }
}

/// A type of which each value has a document.
pub trait FromJson {
    ghost use Rattle.serde_json.specs.Data.{Data};
    ghost use Rattle.plan_documents.specs.Parts.{Reading};

    ghost reading: { Data → Reading Self };

    fn from_json(alloc: Global, json: &Value) -> Result<Self, Unread>
    where
        Self: Sized,
        ensures { GivesIt result (reading (view json.now)) };
}

impl FromJson for Text {
    ghost use Rattle.plan_documents.specs.Parts.{text_of};

    ghost reading = { text_of };

    fn from_json(alloc: Global, json: &Value) -> Result<Text, Unread> {
        match json.as_str() {
            Some(text) => Ok(Text::from_str(alloc, text)?),
            None => Err(refused(alloc, "")),
        }
    }
}

impl FromJson for bool {
    ghost use Rattle.plan_documents.specs.Parts.{truth_of};

    ghost reading = { truth_of };

    fn from_json(alloc: Global, json: &Value) -> Result<bool, Unread> {
        match json.as_bool() {
            Some(truth) => Ok(truth),
            None => Err(refused(alloc, "")),
        }
    }
}

impl FromJson for u64 {
    ghost use Rattle.plan_documents.specs.Parts.{number_of};

    ghost reading = { number_of };

    fn from_json(alloc: Global, json: &Value) -> Result<u64, Unread> {
        match json.as_u64() {
            Some(number) => Ok(number),
            None => Err(refused(alloc, "")),
        }
    }
}

impl FromJson for i64 {
    ghost use Rattle.plan_documents.specs.Parts.{integer_of};

    ghost reading = { integer_of };

    fn from_json(alloc: Global, json: &Value) -> Result<i64, Unread> {
        match json.as_number() {
            Some(number) => match flow_model::whole_of(number) {
                Ok(whole) => Ok(whole),
                Err(JsonFault::NotWhole) => Err(refused(alloc, "")),
                Err(JsonFault::Memory) => Err(Unread::Memory),
            },
            None => Err(refused(alloc, "")),
        }
    }
}

impl FromJson for flow_model::Value {
    ghost use Rattle.plan_documents.specs.Parts.{plain_of};

    ghost reading = { plain_of };

    fn from_json(alloc: Global, json: &Value) -> Result<flow_model::Value, Unread> {
        match flow_model::value_of(alloc, json) {
            Ok(value) => Ok(value),
            Err(JsonFault::NotWhole) => Err(refused(alloc, "")),
            Err(JsonFault::Memory) => Err(Unread::Memory),
        }
    }
}

impl<T: FromJson> FromJson for Option<T> {
    ghost use Rattle.plan_documents.specs.Parts.{optional_of};

    ghost reading = { optional_of T.reading };

    fn from_json(alloc: Global, json: &Value) -> Result<Option<T>, Unread> {
        match json {
            Value::Null => Ok(None),
            other => Ok(Some(T::from_json(alloc, other)?)),
        }
    }
}

impl<T: FromJson + Drop> FromJson for Sequence<T> {
    ghost use Rattle.plan_documents.specs.Parts.{list_of};

    ghost reading = { list_of T.reading };

    fn from_json(alloc: Global, json: &Value) -> Result<Sequence<T>, Unread> {
        match json.as_array() {
            Some(items) => read_items(alloc, items.as_slice()),
            None => Err(refused(alloc, "")),
        }
    }
}

impl<T: FromJson + Drop> FromJson for Mapping<T> {
    ghost use Rattle.plan_documents.specs.Parts.{map_of};

    ghost reading = { map_of T.reading };

    fn from_json(alloc: Global, json: &Value) -> Result<Mapping<T>, Unread> {
        match json.as_object() {
            Some(members) => read_pairs(alloc, members),
            None => Err(refused(alloc, "")),
        }
    }
}

/// The items of a list, each at its place.
fn read_items<T: FromJson + Drop>(alloc: Global, items: &[Value]) -> Result<Sequence<T>, Unread>
    ensures { GivesIt result (items_read T.reading 0 (items_view items.now)) }
{
    let mut read = Sequence::empty(alloc);
    for (place, item) in items.iter().enumerate() {
        read.push(part_at(alloc, place, item)?)?;
    }
    Ok(read)
}

/// The pairs of a map, each at its key.
fn read_pairs<T: FromJson + Drop>(
    alloc: Global,
    members: &BTreeMap<String, Value>,
) -> Result<Mapping<T>, Unread>
    ensures { GivesIt result (pairs_read T.reading (members_view members.now.entries)) }
{
    let mut read = Mapping::empty(alloc);
    for (key, member) in members.iter() {
        let name = key.as_str();
        let value = part(alloc, name, member)?;
        read.set(alloc, name, value)?;
    }
    Ok(read)
}

/// The members of an object, in the order of their keys.
pub(crate) fn members_of(alloc: Global, json: &Value) -> Result<Iter<'_, String, Value>, Unread>
    ensures { Gives members_view result (members_of (view json.now)) }
{
    match json.as_object() {
        Some(members) => Ok(members.iter()),
        None => Err(refused(alloc, "")),
    }
}

/// The value of the next member, which has to be at this key.
pub(crate) fn next_member<'v>(
    alloc: Global,
    members: &mut Iter<'v, String, Value>,
    key: &str,
) -> Result<&'v Value, Unread>
    ensures { Gives (λ v. (view v.now, members_view members.new)) result
        (next_member key.now (members_view members.old)) }
{
    match members.next() {
        Some((found, value)) => match found.as_str().cmp(&key) {
            Ordering::Less => Err(refused(alloc, found.as_str())),
            Ordering::Equal => Ok(value),
            Ordering::Greater => Err(refused(alloc, key)),
        },
        None => Err(refused(alloc, key)),
    }
}

/// The part that stands at a key or place.
fn part<T: FromJson>(alloc: Global, key: &str, json: &Value) -> Result<T, Unread>
    ensures { GivesIt result (within key.now (T.reading (view json.now))) }
{
    match T::from_json(alloc, json) {
        Ok(part) => Ok(part),
        Err(unread) => Err(at(alloc, key, unread)),
    }
}

/// The part that stands at a place.
fn part_at<T: FromJson>(alloc: Global, place: usize, json: &Value) -> Result<T, Unread>
    ensures { GivesIt result (within (decimal place) (T.reading (view json.now))) }
{
    let key = number_text(alloc, place)?;
    part(alloc, key.as_str(), json)
}

/// The part at the next key.
pub(crate) fn field<T: FromJson>(
    alloc: Global,
    members: &mut Iter<'_, String, Value>,
    key: &str,
) -> Result<T, Unread>
    ensures { Gives (λ read. (read, members_view members.new)) result
        (first_field key.now T.reading (members_view members.old)) }
{
    let json = next_member(alloc, members, key)?;
    part(alloc, key, json)
}

/// Checks that no member is left.
pub(crate) fn no_more(alloc: Global, members: &mut Iter<'_, String, Value>) -> Result<(), Unread>
    ensures { Gives (λ _. tt) result (no_more (members_view members.old)) }
{
    match members.next() {
        Some((key, _)) => Err(refused(alloc, key.as_str())),
        None => Ok(()),
    }
}

/// Checks that the text at the next key is this word.
pub(crate) fn expect_word(
    alloc: Global,
    members: &mut Iter<'_, String, Value>,
    key: &str,
    word: &str,
) -> Result<(), Unread>
    ensures { Gives (λ _. (tt, members_view members.new)) result
        (first_field key.now (word_of word.now) (members_view members.old)) }
{
    match next_member(alloc, members, key)?.as_str() {
        Some(text) if text == word => Ok(()),
        _ => Err(refused(alloc, key)),
    }
}

/// Whether an object has this text at a key.
pub(crate) fn has_word(json: &Value, key: &str, word: &str) -> bool
    ensures { result ≡ has_word key.now word.now (view json.now) }
{
    match json.get(key).and_then(Value::as_str) {
        Some(text) => text == word,
        None => false,
    }
}

/// A refusal at this path.
pub fn refused(alloc: Global, path: &str) -> Unread
    ensures { IsRefusal path.now result }
{
    match Text::from_str(alloc, path) {
        Ok(path) => Unread::Refused(path),
        Err(_) => Unread::Memory,
    }
}

/// Why a part at a key could not be read, from why the part could not.
fn at(alloc: Global, key: &str, unread: Unread) -> Unread
    ensures { IsWithin key.now unread result }
{
    match unread {
        Unread::Refused(path) => match join(alloc, key, path.as_str()) {
            Ok(path) => Unread::Refused(path),
            Err(_) => Unread::Memory,
        },
        Unread::Memory => Unread::Memory,
    }
}

fn join(alloc: Global, key: &str, path: &str) -> Result<Text, AllocError>
    ensures { IfOk result (λ text. text ≡ joined key.now path.now) }
{
    let mut text = String::from_str(alloc, key)?;
    if !path.is_empty() {
        text.push_str(".")?;
        text.push_str(path)?;
    }
    Ok(Text::new(text))
}

fn number_text(alloc: Global, number: usize) -> Result<String, AllocError>
    ensures { IfOk result (λ text. string_bytes text ≡ decimal number) }
{
    let mut text = String::new(alloc);
    write!(text, "{number}")?;
    Ok(text)
}
