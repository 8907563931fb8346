//! Texts ignoring case.

ghost use Rattle.std.specs.Prelude.{◌≡◌, ◌↔◌, IfOk, IsTrue, string_bytes};
ghost use Rattle.expr_reader.specs.Fold.{fold, SameText};

use std::alloc::{AllocError, Global};

/// The text with A to Z replaced by a to z; no other letter is folded.
///
/// # Errors
///
/// No memory was left.
pub fn fold(alloc: Global, text: &str) -> Result<String, AllocError>
    ensures { IfOk result (λ folded. string_bytes folded ≡ fold text.now) }
{
    let mut folded = String::from_str(alloc, text)?;
    folded.make_ascii_lowercase();
    Ok(folded)
}

/// Whether two texts are the same once A to Z are replaced by a to z.
pub fn same_text(a: &str, b: &str) -> bool
    ensures { IsTrue result ↔ SameText a.now b.now }
{
    a.eq_ignore_ascii_case(b)
}
