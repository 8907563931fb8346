//! What a person should know of one place of a file.

ghost use Rattle.std.specs.Prelude.{◌≡◌, IfOk, string_bytes};

use flow_model::Text;
use std::alloc::{AllocError, Global};

/// What a person should know of one place of a file.
#[derive(Drop)]
pub struct Note {
    /// Keys and numbers from the root, joined by dots; empty where it is the whole.
    pub path: Text,
    /// What is so there, and what to write instead.
    pub sentence: Text,
}

/// A sentence on a place.
pub fn noted(alloc: Global, path: &str, sentence: String) -> Result<Note, AllocError>
    ensures path { IfOk result (λ note. note.path ≡ path.now) }
    ensures sentence { IfOk result (λ note. note.sentence ≡ string_bytes sentence) }
{
    Ok(Note {
        path: Text::from_str(alloc, path)?,
        sentence: Text::new(sentence),
    })
}
