//! What `why` is asked for.

use why_causes::question::Question;

/// What `why` is asked for.
#[derive(Clone, Copy)]
pub enum Wanted {
    /// The tree of what is named, or of all that did not succeed, in English.
    Words(Option<Question>),
    /// The lines of that tree as objects of JSON.
    Objects(Option<Question>),
    /// Each run, job, leg and step as an object.
    Each,
}
