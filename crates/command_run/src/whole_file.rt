//! Files that are written whole, or not at all.

use crate::growing_files::name_beside;
use command_io::stream::{Output, Sink};
use std::alloc::Global;
use std::fs::{File, Files, Metadata, OpenFile};
use std::io::ErrorKind;
use std::os::unix::fs::{MetadataExt, lchown};
use std::{fs, io};
use step_host::new_file;

/// A new file, and the name that it has until it takes the place of another.
#[derive(Drop)]
struct Next<F> {
    file: F,
    name: String,
}

/// A new file that is to take the place of the one of that name.
fn next_file<F: Files>(files: &F, alloc: Global, name: &str) -> io::Result<Next<F::File>> {
    let name = name_beside(alloc, name, ".new")?;
    let file = new_file(files, name.as_str())?;
    Ok(Next { file, name })
}

/// Gives a new file the owner and the permissions of the one that it is to replace, which is in the same file system.
fn dress<F: Files>(files: &F, next: &Next<F::File>, found: &Metadata) -> io::Result<()> {
    if next.file.metadata()?.dev() != found.dev() {
        return Err(io::Error::from(ErrorKind::InvalidInput));
    }
    lchown(
        files,
        next.name.as_str(),
        Some(found.uid()),
        Some(found.gid()),
    )?;
    next.file.set_permissions(found.permissions())
}

/// A new file that is to take the place of what was found: a regular file that has one name and may be written.
fn next_like<F: Files>(
    files: &F,
    alloc: Global,
    name: &str,
    found: &Metadata,
) -> io::Result<Next<F::File>> {
    if !found.is_file() || found.nlink() != 1 {
        return Err(io::Error::from(ErrorKind::InvalidInput));
    }
    let mut how = File::options();
    how.read(true).write(true);
    drop(how.open(files, name)?);
    let next = next_file(files, alloc, name)?;
    if let Err(error) = dress(files, &next, found) {
        drop(fs::remove_file(files, next.name.as_str()));
        return Err(error);
    }
    Ok(next)
}

/// A new file that is to take the place of what has that name, where that may be replaced.
fn next_of<F: Files>(files: &F, alloc: Global, name: &str) -> io::Result<Next<F::File>> {
    match fs::symlink_metadata(files, name) {
        Ok(found) => next_like(files, alloc, name, &found),
        Err(error) if error.kind() == ErrorKind::NotFound => next_file(files, alloc, name),
        Err(error) => Err(error),
    }
}

/// Writes a text into what has that name, and answers whether it was written whole.
fn put_there<F: Files>(files: &F, name: &str, text: &[u8]) -> bool {
    match File::create(files, name) {
        Ok(file) => Output::new(file).put(text),
        Err(_) => false,
    }
}

/// Writes a text into a new file, which then takes the place of what has that name, and answers whether it was written whole.
/// Where it cannot take that place, the text is written there.
fn put_next<F: Files>(files: &F, next: Next<F::File>, name: &str, text: &[u8]) -> bool {
    let Next { file, name: made } = next;
    let whole = Output::new(file).put(text);
    if whole && fs::rename(files, made.as_str(), name).is_ok() {
        return true;
    }
    drop(fs::remove_file(files, made.as_str()));
    whole && put_there(files, name, text)
}

/// Writes a text into the file of that name, and answers whether it was written whole. Where that is a regular file or none, it has
/// all of the text at once, or what it had before.
pub(crate) fn put_file<F: Files>(files: &F, alloc: Global, name: &str, text: &[u8]) -> bool {
    match next_of(files, alloc, name) {
        Ok(next) => put_next(files, next, name, text),
        Err(_) => put_there(files, name, text),
    }
}
