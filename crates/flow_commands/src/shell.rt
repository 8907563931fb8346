//! The words that start a script's shell.

ghost use Rattle.std.specs.Prelude.{◌≡◌, ℕ, List, [], ◌∷◌, ◌++◌, IfOk, map};
ghost use Rattle.flow_commands.specs.Shell.{words};

use flow_model::{Sequence, Shell, Text};
use std::alloc::{AllocError, Global};

/// The shell and its options, before the file of the script.
fn shell_and_options(shell: Shell) -> &'static [&'static str]
    ensures { (file : List ℕ) → map (λ w. w.now) result.now ++ file ∷ [] ≡ words shell file }
{
    match shell {
        Shell::Default => &["bash", "-e"],
        Shell::Sh => &["sh", "-e"],
        Shell::Bash => &["bash", "--noprofile", "--norc", "-eo", "pipefail"],
    }
}

/// The words that start a script in its shell, the shell's program first (workflow syntax: `shell`).
pub fn shell_words(alloc: Global, shell: Shell, file: &str) -> Result<Sequence<Text>, AllocError>
    ensures { IfOk result (λ made. made ≡ words shell file.now) }
{
    let mut made = Sequence::empty(alloc);
    let from = shell_and_options(shell);
    for word in from {
        made.push(Text::from_str(alloc, word)?)?;
    }
    made.push(Text::from_str(alloc, file)?)?;
    Ok(made)
}
