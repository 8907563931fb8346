//! Equality of answers.

ghost use Rattle.std.specs.Prelude.{◌≡◌, ◌↔◌, IsTrue};

use flow_model::{Answer, is_same_mapping};

/// Whether two answers are equal.
pub(crate) fn is_same_answer(one: &Answer, other: &Answer) -> bool
    ensures { IsTrue result ↔ (one.now ≡ other.now) }
{
    match (one, other) {
        (
            Answer::Exit { code, outputs, env },
            Answer::Exit {
                code: twin,
                outputs: given,
                env: set,
            },
        ) => *code == *twin && is_same_mapping(outputs, given) && is_same_mapping(env, set),
        (Answer::Exit { .. }, _) => false,
        (Answer::NotStarted, Answer::NotStarted) => true,
        (Answer::NotStarted, _) => false,
        (Answer::BadOutput, Answer::BadOutput) => true,
        (Answer::BadOutput, _) => false,
    }
}
