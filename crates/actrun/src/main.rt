//! actrun: the program. `main` hands words, files and streams to `command_words`, and gives the exit status back.

#![tactic(auto)]

use command_io::bounded::{Bounded, MOST_READS};
use command_io::error::CommandError;
use command_io::stream::{Input, Output};
use command_io::tell::refuse;
use command_run::machine::Machine;
use command_words::folder::Folder;
use command_words::words::{Streams, run_line};
use std::fs::{File, Files};
use std::io::BufReader;
use std::process::ExitCode;
use std::sync::Wait;
use std::thread::Threads;
use std::{env, io};

/// A file of the disk, which is read so many times at most.
type DiskFile = Input<Bounded<File, MOST_READS>>;

/// The files and programs of the machine.
#[derive(Drop)]
struct Disk<'a, F> {
    files: &'a F,
}

// the files are named, so that the size of one that is counted is known
impl<F: Machine + Files<File = File> + Threads + Wait + Sync> Folder for Disk<'_, F> {
    type File = DiskFile;

    type Machine = F;

    fn open(&self, name: &str) -> Option<DiskFile> {
        match File::open(self.files, name) {
            Ok(file) => Some(Input::new(Bounded::new(file))),
            Err(_) => None,
        }
    }

    fn machine(&self) -> &F {
        self.files
    }
}

/// A file that says nothing and takes nothing.
fn nothing<F: Files>(files: &F) -> io::Result<F::File> {
    File::open(files, "/dev/null")
}

fn main(rt: HostRuntime) -> ExitCode {
    // in the place of each standard stream that is closed, so that no other file is taken for it
    let _closed = (nothing(&rt), nothing(&rt), nothing(&rt));
    let disk = Disk { files: &rt };
    let out = Output::new(io::writer(&rt));
    let mut err = Output::new(rt.stderr());
    let reader: Bounded<_, MOST_READS> = Bounded::new(rt.reader());
    let status = match BufReader::new(rt.alloc(), reader) {
        Ok(reader) => {
            let input = Input::new(reader);
            let mut streams = Streams { input, out, err };
            run_line(rt.alloc(), env::args(&rt), &disk, &mut streams)
        },
        Err(_) => refuse(&mut err, &CommandError::Memory),
    };
    ExitCode::from(status)
}
