//! How a part of a document is written as JSON.

ghost use Rattle.std.specs.Prelude.{◌≡◌, IfOk, OnOk, map};
ghost use Rattle.serde_json.specs.Data.{object, no_members, put as with_member};
ghost use Rattle.serde_json.specs.View.{view, members_view};
ghost use Rattle.plan_documents.specs.Fields.{put_each};

use flow_model::{Mapping, Sequence, Text};
use serde_json::{Map, Value};
use std::alloc::{AllocError, Global};

/// A type of which each value has a document.
pub trait ToJson {
    ghost use Rattle.serde_json.specs.Data.{Data};

    ghost writing: { Self → Data };

    fn to_json(&self, alloc: Global) -> Result<Value, AllocError>
        ensures { IfOk result (λ json. view json ≡ writing self.now) };
}

impl ToJson for Text {
    ghost use Rattle.serde_json.specs.Data.{string};

    ghost writing = { string };

    fn to_json(&self, alloc: Global) -> Result<Value, AllocError> {
        let text = String::from_str(alloc, self.as_str())?;
        Ok(Value::String(text))
    }
}

impl ToJson for bool {
    ghost use Rattle.serde_json.specs.Data.{boolean};

    ghost writing = { boolean };

    fn to_json(&self, _alloc: Global) -> Result<Value, AllocError> {
        Ok(Value::Bool(*self))
    }
}

impl ToJson for u64 {
    ghost use Rattle.plan_documents.specs.Parts.{number_data};

    ghost writing = { number_data };

    fn to_json(&self, _alloc: Global) -> Result<Value, AllocError> {
        Ok(Value::from(*self))
    }
}

impl ToJson for i64 {
    ghost use Rattle.plan_documents.specs.Parts.{integer_data};

    ghost writing = { integer_data };

    fn to_json(&self, _alloc: Global) -> Result<Value, AllocError> {
        Ok(Value::from(*self))
    }
}

impl ToJson for flow_model::Value {
    ghost use Rattle.flow_model.specs.Json.{json_of};

    ghost writing = { json_of };

    fn to_json(&self, alloc: Global) -> Result<Value, AllocError> {
        flow_model::json_of(alloc, self)
    }
}

impl<T: ToJson> ToJson for Option<T> {
    ghost use Rattle.plan_documents.specs.Parts.{optional_data};

    ghost writing = { optional_data T.writing };

    fn to_json(&self, alloc: Global) -> Result<Value, AllocError> {
        match self {
            Some(part) => part.to_json(alloc),
            None => Ok(Value::Null),
        }
    }
}

impl<T: ToJson> ToJson for Sequence<T> {
    ghost use Rattle.plan_documents.specs.Parts.{list_data};

    ghost writing = { list_data T.writing };

    fn to_json(&self, alloc: Global) -> Result<Value, AllocError> {
        let from = self.as_slice();
        let mut items = Vec::with_capacity(alloc, from.len())?;
        for item in from {
            items.push(item.to_json(alloc)?)?;
        }
        Ok(Value::Array(items))
    }
}

impl<T: ToJson> ToJson for Mapping<T> {
    ghost use Rattle.plan_documents.specs.Parts.{map_data};

    ghost writing = { map_data T.writing };

    fn to_json(&self, alloc: Global) -> Result<Value, AllocError> {
        let from = self.iter();
        let mut members = Mapping::empty(alloc);
        for (key, value) in from {
            let name = key.as_str();
            let json = value.to_json(alloc)?;
            members.set(alloc, name, json)?;
        }
        Ok(Value::Object(members.into_map()))
    }
}

/// A word of a document.
#[derive(Clone, Copy)]
pub(crate) struct Word(pub(crate) &'static str);

impl ToJson for Word {
    ghost use Rattle.serde_json.specs.Data.{string};

    ghost writing = { λ word. string word.0.now };

    fn to_json(&self, alloc: Global) -> Result<Value, AllocError> {
        let text = String::from_str(alloc, self.0)?;
        Ok(Value::String(text))
    }
}

/// Adds a part to an object, at its key.
fn put<T: ToJson>(
    alloc: Global,
    members: &mut Map<String, Value>,
    key: &str,
    part: &T,
) -> Result<(), AllocError>
    ensures { OnOk result (members_view members.new.entries
        ≡ with_member key.now (T.writing part.now) (members_view members.old.entries)) }
{
    let part = part.to_json(alloc)?;
    serde_json::put(members, alloc, key, part)
}

/// Members of an object that are to be written: a part and the members after it, or none.
pub(crate) trait Members {
    ghost use Rattle.std.specs.Prelude.{ℕ, List, map};
    ghost use Rattle.serde_json.specs.Data.{Data};
    ghost use Rattle.plan_documents.specs.Fields.{put_each};

    /// Their documents, at these keys.
    ghost documents: { List (List ℕ) → Self → List (List ℕ × Data) };

    fn put_all(
        &self,
        alloc: Global,
        members: &mut Map<String, Value>,
        keys: &[&str],
    ) -> Result<(), AllocError>
        ensures { OnOk result (members_view members.new.entries ≡ put_each
            (documents (map (λ key. key.now) keys.now) self.now)
            (members_view members.old.entries)) };
}

impl Members for () {
    ghost use Rattle.std.specs.Prelude.{[]};

    ghost documents = { λ keys parts. [] };

    fn put_all(
        &self,
        _alloc: Global,
        _: &mut Map<String, Value>,
        _: &[&str],
    ) -> Result<(), AllocError> {
        Ok(())
    }
}

impl<'a, A: ToJson, R: Members> Members for (&'a A, R) {
    ghost use Rattle.plan_documents.specs.Fields.{documents_at};

    ghost documents = { documents_at (λ part. A.writing part.now) R.documents };

    fn put_all(
        &self,
        alloc: Global,
        members: &mut Map<String, Value>,
        keys: &[&str],
    ) -> Result<(), AllocError> {
        let [key, keys @ ..] = keys else {
            return Ok(());
        };
        put(alloc, members, key, self.0)?;
        self.1.put_all(alloc, members, keys)
    }
}

/// The object that has these parts at these keys.
pub(crate) fn object<M: Members>(
    alloc: Global,
    keys: &[&str],
    parts: &M,
) -> Result<Value, AllocError>
    ensures { IfOk result (λ json. view json
        ≡ object (put_each (M.documents (map (λ key. key.now) keys.now) parts.now) no_members)) }
{
    let mut members = Map::new(alloc);
    parts.put_all(alloc, &mut members, keys)?;
    Ok(Value::Object(members))
}
