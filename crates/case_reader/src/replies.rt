//! The reply to an event as text: what happened, and of a call all that it asks for.
//!
//! A call is told in a line, `leg L step S calls TEXT`, the text of the script or the name of the action. What else it has
//! follows, each in a line of its own: `in` a directory, `by` a shell, `with` an input, `env` a variable.

use crate::page::Page;
use flow_model::{CallWork, Duplicate, Mapping, Reply, Shell, StepCall, Text, What};

/// Writes a copy of a reply.
pub fn put_reply(page: &mut Page<'_>, reply: &Reply) {
    if let Some(reply) = page.have(reply.copy(page.alloc)) {
        match &reply.what {
            What::Moved => page.put("moved"),
            What::Skipped => page.put("skipped"),
            What::Faulted(fault) => write!(page, "faulted {fault}"),
            What::Call(call) => put_call(page, call),
        }
    }
}

/// Writes a call.
pub fn put_call(page: &mut Page<'_>, call: &StepCall) {
    write!(page, "leg {} step {} calls ", call.leg, call.step);
    match &call.work {
        CallWork::Script { text, shell, dir } => {
            page.put(text.as_str());
            put_place(page, dir, *shell);
        },
        CallWork::Uses { uses, given } => {
            page.put(uses.as_str());
            put_pairs(page, "with", given);
        },
    }
    put_pairs(page, "env", &call.env);
}

/// Writes where a script runs and by which shell, where it says so.
fn put_place(page: &mut Page<'_>, dir: &Option<Text>, shell: Shell) {
    if let Some(dir) = dir {
        write!(page, "\n  in {}", dir.as_str());
    }
    match shell {
        Shell::Default => {},
        Shell::Sh => page.put("\n  by sh"),
        Shell::Bash => page.put("\n  by bash"),
    }
}

/// Writes pairs, each in a line behind a word.
fn put_pairs(page: &mut Page<'_>, word: &str, pairs: &Mapping<Text>) {
    for (name, text) in pairs.iter() {
        write!(page, "\n  {word} {}={}", name.as_str(), text.as_str());
    }
}
