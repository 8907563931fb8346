//! Whether two calls are equal, all of their parts.

ghost use Rattle.std.specs.Prelude.{◌≡◌, ◌↔◌, IsTrue};

use flow_model::{CallWork, Shell, StepCall, Text, is_same_mapping};

/// Whether two texts are equal.
fn is_same_text(one: &Text, other: &Text) -> bool
    ensures { IsTrue result ↔ (one.now ≡ other.now) }
{
    one.as_str() == other.as_str()
}

/// Whether two shells are one.
fn is_same_shell(one: Shell, other: Shell) -> bool
    ensures { IsTrue result ↔ (one ≡ other) }
{
    match (one, other) {
        (Shell::Default, Shell::Default) => true,
        (Shell::Sh, Shell::Sh) => true,
        (Shell::Bash, Shell::Bash) => true,
        (Shell::Default | Shell::Sh | Shell::Bash, _) => false,
    }
}

/// Whether two directories are one, or both are absent.
fn is_same_directory(one: &Option<Text>, other: &Option<Text>) -> bool
    ensures { IsTrue result ↔ (one.now ≡ other.now) }
{
    match (one, other) {
        (Some(one), Some(other)) => is_same_text(one, other),
        (None, None) => true,
        (Some(_), None) | (None, Some(_)) => false,
    }
}

/// Whether two calls ask for the same.
fn is_same_work(one: &CallWork, other: &CallWork) -> bool
    ensures { IsTrue result ↔ (one.now ≡ other.now) }
{
    match (one, other) {
        (
            CallWork::Script { text, shell, dir },
            CallWork::Script {
                text: twin,
                shell: other_shell,
                dir: other_dir,
            },
        ) => {
            is_same_text(text, twin)
                && is_same_shell(*shell, *other_shell)
                && is_same_directory(dir, other_dir)
        },
        (
            CallWork::Uses { uses, given },
            CallWork::Uses {
                uses: twin,
                given: inputs,
            },
        ) => is_same_text(uses, twin) && is_same_mapping(given, inputs),
        (CallWork::Script { .. }, CallWork::Uses { .. })
        | (CallWork::Uses { .. }, CallWork::Script { .. }) => false,
    }
}

/// Whether two calls are equal.
pub fn is_same_call(one: &StepCall, other: &StepCall) -> bool
    ensures { IsTrue result ↔ (one.now ≡ other.now) }
{
    one.leg == other.leg
        && one.step == other.step
        && is_same_work(&one.work, &other.work)
        && is_same_mapping(&one.env, &other.env)
}
