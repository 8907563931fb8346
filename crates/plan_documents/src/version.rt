//! The versions of documents.

use crate::reading::{FromJson, Unread, refused};
use crate::writing::ToJson;
use serde_json::Value;
use std::alloc::{AllocError, Global};

/// A version of the documents of plans, and of the entries in their records.
#[derive(Clone, Copy, Drop)]
pub enum Version {
    /// It does not tell the variables that an exit sets.
    One,
    /// It tells all, and is the one that is printed.
    Two,
}

impl ToJson for Version {
    ghost use Rattle.plan_documents.specs.Version.{version_data};

    ghost writing = { version_data };

    fn to_json(&self, _alloc: Global) -> Result<Value, AllocError> {
        let number: u64 = match self {
            Version::One => 1,
            Version::Two => 2,
        };
        Ok(Value::from(number))
    }
}

impl FromJson for Version {
    ghost use Rattle.plan_documents.specs.Version.{version_of};

    ghost reading = { version_of };

    fn from_json(alloc: Global, json: &Value) -> Result<Version, Unread> {
        match json.as_u64() {
            Some(1) => Ok(Version::One),
            Some(2) => Ok(Version::Two),
            _ => Err(refused(alloc, "")),
        }
    }
}
