//! The lines that a step printed.

use flow_model::{Sequence, Text};

/// A line that a step printed, as it is read.
#[derive(Drop)]
pub enum Line {
    /// It is no command.
    Plain(Text),
    /// A command: its name and its keys in small letters, and its message.
    Command {
        name: Text,
        pairs: Sequence<(Text, Text)>,
        message: Text,
    },
    /// It ends what `stop-commands` began.
    Resume,
}
