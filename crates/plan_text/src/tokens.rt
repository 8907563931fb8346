//! The parts of a document that are read of the tokens of its text, one after the other, so that nothing
//! stands between the text and what is made of it.
//!
//! The members of an object have to stand in the order in which they are printed, and a number of a job
//! or a version is one of at most 15 digits. What is spelled otherwise is refused here: it is for the
//! reading of whole trees.

ghost use Rattle.std.specs.Prelude.{◌≡◌, [], ◌∷◌, ◌++◌, ◌<◌, ◌≤◌, max, suc, IfOk, OnOk, IfSome, map};
ghost use Rattle.json.specs.Json as spec;
ghost use Rattle.json.specs.Token as token;
ghost use Rattle.json.specs.Tree.{json_tokens, depth};
ghost use Rattle.json.specs.Value.{value_view};
ghost use Rattle.serde_json.specs.Data.{boolean, no_members, null, object, string};
ghost use Rattle.serde_json.specs.View.{view};
ghost use Rattle.flow_model.specs.Json.{json_of};
ghost use Rattle.plan_documents.specs.Fields.{documents_at, put_each};
ghost use Rattle.plan_text.specs.Outline.{StandsFor};
ghost use Rattle.plan_documents.specs.Parts.{number_data};
ghost use Rattle.plan_text.specs.Spelled.{Spells, SpellsPart, SpellMembers};

use crate::digits::{MORE_THAN_15_DIGITS, whole_number};
use crate::tree::{number_tree, tree_of};
use flow_model::{JsonFault, Mapping, Node, Sequence, Text};
use json::{Error, Reader, Token};
use plan_documents::{Unread, refused};
use serde_json::Map;
use std::alloc::Global;

/// How deep what lies in a list or in a map of a plan may nest.
const NESTED: usize = 99;

/// A part of a document that is read of its tokens.
pub(crate) trait FromTokens {
    ghost use Rattle.std.specs.Prelude.{ℕ};
    ghost use Rattle.serde_json.specs.Data.{Data};

    /// Its document.
    ghost document: { Self → Data };

    /// How deep its document nests.
    ghost levels: { ℕ };

    /// The part that begins with a token, which was read before.
    fn from_tokens(alloc: Global, first: Token<'_>, reader: &mut Reader<'_>) -> Result<Self, Unread>
    where
        Self: Sized,
        ensures { IfOk result
            (λ part. SpellsPart levels first.entry reader.old (document part) reader.new) };
}

/// The next part of a text.
pub(crate) fn next_part<T: FromTokens>(alloc: Global, reader: &mut Reader<'_>) -> Result<T, Unread>
    ensures { IfOk result (λ part. Spells T.levels reader.old (T.document part) reader.new) }
{
    match reader.next() {
        Some(token) => T::from_tokens(alloc, token, reader),
        None => Err(refused(alloc, "")),
    }
}

impl FromTokens for Text {
    ghost use Rattle.serde_json.specs.Data.{string};

    ghost document = { string };

    ghost levels = { 0 };

    fn from_tokens(alloc: Global, first: Token<'_>, _: &mut Reader<'_>) -> Result<Text, Unread> {
        match first {
            Token::String(text) => Ok(Text::from_str(alloc, text)?),
            _ => Err(refused(alloc, "")),
        }
    }
}

impl FromTokens for bool {
    ghost use Rattle.serde_json.specs.Data.{boolean};

    ghost document = { boolean };

    ghost levels = { 0 };

    fn from_tokens(alloc: Global, first: Token<'_>, _: &mut Reader<'_>) -> Result<bool, Unread> {
        match first {
            Token::Bool(truth) => Ok(truth),
            _ => Err(refused(alloc, "")),
        }
    }
}

impl FromTokens for u64 {
    ghost use Rattle.plan_documents.specs.Parts.{number_data};

    ghost document = { number_data };

    ghost levels = { 0 };

    fn from_tokens(alloc: Global, first: Token<'_>, _: &mut Reader<'_>) -> Result<u64, Unread> {
        let Token::Number(text) = first else {
            return Err(refused(alloc, ""));
        };
        match number_of(text) {
            Some(number) => Ok(number),
            None => Err(refused(alloc, "")),
        }
    }
}

/// The number that a text is printed of.
fn number_of(text: &str) -> Option<u64>
    ensures stands { IfSome result
        (λ number. StandsFor (spec.number text.now) (number_data number)) }
    ensures bounded { IfSome result (λ number. number < MORE_THAN_15_DIGITS) }
{
    whole_number(text.as_bytes())
}

/// A list and a map are read of their trees, and so is a number that is not one of at most 15 digits.
impl FromTokens for flow_model::Value {
    ghost use Rattle.flow_model.specs.Json.{json_of};

    ghost document = { json_of };

    ghost levels = { 100 };

    fn from_tokens(
        alloc: Global,
        first: Token<'_>,
        reader: &mut Reader<'_>,
    ) -> Result<flow_model::Value, Unread> {
        match first {
            Token::Null => Ok(null_value()),
            Token::Bool(truth) => Ok(truth_value(truth)),
            Token::Number(text) => whole_value(alloc, text),
            Token::String(text) => Ok(text_value(Text::from_str(alloc, text)?)),
            Token::BeginArray => value_of_tree(alloc, list_tree(alloc, reader)?),
            Token::BeginObject => value_of_tree(alloc, map_tree(alloc, reader)?),
            _ => Err(refused(alloc, "")),
        }
    }
}

fn null_value() -> flow_model::Value
    ensures { json_of result ≡ null }
{
    flow_model::Value::new(Node::Null)
}

fn truth_value(truth: bool) -> flow_model::Value
    ensures { json_of result ≡ boolean truth }
{
    flow_model::Value::new(Node::Truth(truth))
}

fn text_value(text: Text) -> flow_model::Value
    ensures { json_of result ≡ string text }
{
    flow_model::Value::new(Node::Text(text))
}

/// The value of the text of a number: by its tree where it is not one of at most 15 digits.
fn whole_value(alloc: Global, text: &str) -> Result<flow_model::Value, Unread>
    ensures { IfOk result (λ value. StandsFor (spec.number text.now) (json_of value)) }
{
    match number_of(text) {
        Some(number) => Ok(number_value(number)),
        None => value_of_tree(alloc, number_tree(alloc, text)?),
    }
}

fn number_value(number: u64) -> flow_model::Value
    requires { number < MORE_THAN_15_DIGITS }
    ensures { json_of result ≡ number_data number }
{
    flow_model::Value::new(Node::Whole(number as i64))
}

/// The value that a tree stands for.
fn value_of_tree(alloc: Global, tree: serde_json::Value) -> Result<flow_model::Value, Unread>
    ensures { IfOk result (λ value. json_of value ≡ view tree) }
{
    match flow_model::into_value(alloc, tree) {
        Ok(value) => Ok(value),
        Err(JsonFault::NotWhole) => Err(refused(alloc, "")),
        Err(JsonFault::Memory) => Err(Unread::Memory),
    }
}

/// The tree of a list whose bracket was read.
fn list_tree(alloc: Global, reader: &mut Reader<'_>) -> Result<serde_json::Value, Unread>
    ensures { IfOk result (λ tree. Spells 100 (token.begin_array ∷ reader.old) (view tree) reader.new) }
{
    let mut trees = Vec::new(alloc);
    while !reader.take_end_array() {
        trees.push(next_tree(alloc, reader)?)?;
    }
    Ok(serde_json::Value::Array(trees))
}

/// The tree of a map whose brace was read.
fn map_tree(alloc: Global, reader: &mut Reader<'_>) -> Result<serde_json::Value, Unread>
    ensures { IfOk result (λ tree. Spells 100 (token.begin_object ∷ reader.old) (view tree) reader.new) }
{
    let mut trees = Map::new(alloc);
    while let Some(token) = reader.next() {
        match token {
            Token::EndObject => return Ok(serde_json::Value::Object(trees)),
            Token::Key(key) => {
                let tree = next_tree(alloc, reader)?;
                serde_json::put(&mut trees, alloc, key, tree)?;
            },
            _ => return Err(refused(alloc, "")),
        }
    }
    Err(refused(alloc, ""))
}

/// The tree of what lies next in a list or in a map.
fn next_tree(alloc: Global, reader: &mut Reader<'_>) -> Result<serde_json::Value, Unread>
    ensures { IfOk result (λ tree. Spells 99 reader.old (view tree) reader.new) }
{
    let outline = next_outline(alloc, reader)?;
    tree_of(alloc, &outline)
}

/// The outline of what lies next in a list or in a map.
fn next_outline<'a>(alloc: Global, reader: &mut Reader<'a>) -> Result<json::Value<'a>, Unread>
    ensures tokens { IfOk result
        (λ outline. reader.old ≡ json_tokens (value_view outline) ++ reader.new) }
    ensures low { IfOk result (λ outline. depth (value_view outline) ≤ 99) }
{
    match json::Value::read(alloc, reader, NESTED) {
        Ok(outline) => Ok(outline),
        Err(Error::OutOfMemory) => Err(Unread::Memory),
        Err(_) => Err(refused(alloc, "")),
    }
}

impl<T: FromTokens> FromTokens for Option<T> {
    ghost use Rattle.plan_documents.specs.Parts.{optional_data};

    ghost document = { optional_data T.document };

    ghost levels = { T.levels };

    fn from_tokens(
        alloc: Global,
        first: Token<'_>,
        reader: &mut Reader<'_>,
    ) -> Result<Option<T>, Unread> {
        match first {
            Token::Null => Ok(None),
            other => Ok(Some(T::from_tokens(alloc, other, reader)?)),
        }
    }
}

impl<T: FromTokens + Drop> FromTokens for Sequence<T> {
    ghost use Rattle.std.specs.Prelude.{suc};
    ghost use Rattle.plan_documents.specs.Parts.{list_data};

    ghost document = { list_data T.document };

    ghost levels = { suc T.levels };

    fn from_tokens(
        alloc: Global,
        first: Token<'_>,
        reader: &mut Reader<'_>,
    ) -> Result<Sequence<T>, Unread> {
        let Token::BeginArray = first else {
            return Err(refused(alloc, ""));
        };
        let mut parts = Vec::new(alloc);
        while !reader.take_end_array() {
            parts.push(next_part::<T>(alloc, reader)?)?;
        }
        Ok(Sequence::new(parts))
    }
}

impl<V: FromTokens + Drop> FromTokens for Mapping<V> {
    ghost use Rattle.std.specs.Prelude.{suc};
    ghost use Rattle.plan_documents.specs.Parts.{map_data};

    ghost document = { map_data V.document };

    ghost levels = { suc V.levels };

    fn from_tokens(
        alloc: Global,
        first: Token<'_>,
        reader: &mut Reader<'_>,
    ) -> Result<Mapping<V>, Unread> {
        let Token::BeginObject = first else {
            return Err(refused(alloc, ""));
        };
        let mut pairs = Mapping::empty(alloc);
        while let Some(token) = reader.next() {
            match token {
                Token::EndObject => return Ok(pairs),
                Token::Key(key) => {
                    let value = next_part::<V>(alloc, reader)?;
                    pairs.set(alloc, key, value)?;
                },
                _ => return Err(refused(alloc, "")),
            }
        }
        Err(refused(alloc, ""))
    }
}

/// Members of an object, up to the brace that closes it: a part and the members after it, or none.
pub(crate) trait TokenFields {
    ghost use Rattle.std.specs.Prelude.{ℕ, List, map};
    ghost use Rattle.serde_json.specs.Data.{Data};

    /// Their documents, at these keys.
    ghost documents: { List (List ℕ) → Self → List (List ℕ × Data) };

    /// How deep these nest.
    ghost levels: { ℕ };

    fn read(alloc: Global, reader: &mut Reader<'_>, keys: &[&str]) -> Result<Self, Unread>
    where
        Self: Sized,
        ensures { IfOk result (λ parts. SpellMembers levels reader.old
            (documents (map (λ key. key.now) keys.now) parts) (token.end_object ∷ reader.new)) };
}

impl TokenFields for () {
    ghost use Rattle.std.specs.Prelude.{[]};

    ghost documents = { λ keys parts. [] };

    ghost levels = { 0 };

    fn read(alloc: Global, reader: &mut Reader<'_>, _: &[&str]) -> Result<(), Unread> {
        end_object(alloc, reader)
    }
}

impl<A: FromTokens + Drop, R: TokenFields> TokenFields for (A, R) {
    ghost use Rattle.std.specs.Prelude.{max};
    ghost use Rattle.plan_documents.specs.Fields.{documents_at};

    ghost documents = { documents_at A.document R.documents };

    ghost levels = { max A.levels R.levels };

    fn read(alloc: Global, reader: &mut Reader<'_>, keys: &[&str]) -> Result<(A, R), Unread> {
        let [key, others @ ..] = keys else {
            return Err(refused(alloc, ""));
        };
        match reader.next() {
            Some(Token::Key(found)) if found == *key => read_after(alloc, reader, key, others),
            _ => Err(refused(alloc, "")),
        }
    }
}

/// The part whose key was read, and the members after it.
pub(crate) fn read_after<A: FromTokens + Drop, R: TokenFields>(
    alloc: Global,
    reader: &mut Reader<'_>,
    key: &str,
    others: &[&str],
) -> Result<(A, R), Unread>
    ensures { IfOk result (λ parts. SpellMembers (max A.levels R.levels) (token.key key.now ∷ reader.old)
        (documents_at A.document R.documents (key.now ∷ map (λ other. other.now) others.now) parts)
        (token.end_object ∷ reader.new)) }
{
    let first = next_part::<A>(alloc, reader)?;
    Ok((first, R::read(alloc, reader, others)?))
}

/// The parts of an object that begins with a token, and whose members stand at these keys, in their order.
pub(crate) fn read_object<F: TokenFields>(
    alloc: Global,
    first: Token<'_>,
    reader: &mut Reader<'_>,
    keys: &[&str],
) -> Result<F, Unread>
    ensures { IfOk result (λ parts. SpellsPart (suc F.levels) first.entry reader.old
        (object (put_each (F.documents (map (λ key. key.now) keys.now) parts) no_members)) reader.new) }
{
    let Token::BeginObject = first else {
        return Err(refused(alloc, ""));
    };
    F::read(alloc, reader, keys)
}

/// The part at this key, which comes next among the members of an object.
pub(crate) fn next_member<T: FromTokens>(
    alloc: Global,
    reader: &mut Reader<'_>,
    key: &str,
) -> Result<T, Unread>
    ensures { IfOk result (λ part. SpellMembers T.levels reader.old
        ((key.now, T.document part) ∷ []) reader.new) }
{
    match reader.next() {
        Some(Token::Key(found)) if found == key => next_part(alloc, reader),
        _ => Err(refused(alloc, "")),
    }
}

/// The brace that closes an object, which comes next.
pub(crate) fn end_object(alloc: Global, reader: &mut Reader<'_>) -> Result<(), Unread>
    ensures { OnOk result (reader.old ≡ token.end_object ∷ reader.new) }
{
    match reader.next() {
        Some(Token::EndObject) => Ok(()),
        _ => Err(refused(alloc, "")),
    }
}
