//! What a program printed, as the log of its step has it.

ghost use Rattle.std.specs.Prelude.{◌≡◌, ◌-◌, IfOk, IfSome, OnOk, length, slice_get};
ghost use Rattle.std.specs.Io.KnownBytes.{Appends};
ghost use Rattle.std.specs.Io.Take.{take_remaining};
ghost use Rattle.step_host.specs.Program as spec;

use crate::files::{is_empty_file, new_file, so_far};
use std::fs::{File, Files};
use std::io;
use std::io::{ErrorKind, Read, Take, Write};

/// How many bytes are held at once of what a program printed.
const PIECE: usize = 8_192;

/// Copies what is left to read, piece by piece, and answers its last byte, if it has one.
fn copy_pieces<R: Read, W: Write>(from: &mut Take<R>, to: &mut W) -> io::Result<Option<u8>>
    ensures copied { OnOk result (IfSome (take_remaining R.remaining from.old)
        (Appends (W.contents to.old) (W.contents to.new))) }
    ensures last { IfOk result (λ last. IfSome (take_remaining R.remaining from.old)
        (λ bytes. last ≡ slice_get bytes (length bytes - 1))) }
{
    let mut piece = [0u8; PIECE];
    let mut last = None;
    for _ in 0..=from.limit() {
        let count = from.read(&mut piece)?;
        if count == 0 {
            return Ok(last);
        }
        let bytes = &piece[..count];
        to.write_all(bytes)?;
        last = bytes.last().copied();
    }
    Err(io::Error::from(ErrorKind::Other))
}

/// Copies what a program printed: its standard output, and then its standard error, which begins on a line of its own.
fn copy_printed<O: Read, E: Read, W: Write>(
    out: &mut Take<O>,
    err: &mut E,
    log: &mut W,
) -> io::Result<()>
    ensures { OnOk result (IfSome (take_remaining O.remaining out.old) (λ out. IfSome (E.remaining err.old)
        (λ err. Appends (W.contents log.old) (W.contents log.new) (spec.logged out err)))) }
{
    match copy_pieces(out, log)? {
        Some(b'\n') | None => {},
        Some(_) => log.write_all(b"\n")?,
    }
    io::copy(err, log)?;
    Ok(())
}

/// Writes the log of a step anew: what its program printed so far into these files. A log of nothing is kept already where the
/// file is still as it was made at the start.
pub(crate) fn keep_log<F: Files<File = File>>(
    files: &F,
    name: &str,
    out: File,
    err: File,
) -> io::Result<()> {
    let mut out = so_far(out)?;
    let mut err = so_far(err)?;
    if out.limit() == 0 && err.limit() == 0 && is_empty_file(files, name) {
        return Ok(());
    }
    let mut log = new_file(files, name)?;
    copy_printed(&mut out, &mut err, &mut log)
}
