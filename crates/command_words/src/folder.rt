//! Where the files are that words name.

use command_io::stream::Source;
use command_run::machine::Machine;
use std::sync::Wait;
use std::thread::Threads;

/// Where the files are that words name.
pub trait Folder {
    /// A file that is read.
    type File: Source + Drop;

    /// Where programs run.
    type Machine: Machine + Threads + Wait + Sync;

    /// Opens the file of that name, where that can be done.
    fn open(&self, name: &str) -> Option<Self::File>;

    /// Where programs run.
    fn machine(&self) -> &Self::Machine;
}
