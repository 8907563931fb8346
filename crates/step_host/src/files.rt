//! Files that a host of programs makes, writes and reads. None of these calls waits for another program.

ghost use Rattle.std.specs.Prelude.{◌≡◌, IfOk};

use flow_model::Text;
use std::alloc::Global;
use std::fs::{File, Files, Metadata, OpenFile, OpenOptions, Permissions};
use std::io::{ErrorKind, Read, Take, Write};
use std::os::unix::fs::{MetadataExt, PermissionsExt};
use std::{fs, io};

/// That the owner of a file may read it.
const OWNER_READS: u32 = 0o400;

/// That the owner of a file may read and write it, and nobody else.
const OWNER_ALONE: u32 = 0o600;

/// A file for what a program prints, as it is written and as it is read. It has no name: nobody else finds it, and it is gone
/// with the last program that has it open.
pub(crate) type Printed<F> = (F, F);

/// Makes a file of that name, which is opened so as to make it, in place of what has the name, which is not opened. What
/// stands there is taken away only where something does: mostly nothing does, and looking for it would cost as much again
/// as the file. Where it cannot be taken away, that is told by making the file once more.
fn make_file<F: Files>(files: &F, how: &OpenOptions, name: &str) -> io::Result<F::File> {
    match how.open(files, name) {
        Err(error) if error.kind() == ErrorKind::AlreadyExists => {
            drop(fs::remove_file(files, name));
            how.open(files, name)
        },
        made => made,
    }
}

/// Makes a file to be written in place of what has this name, which is not opened.
///
/// # Errors
///
/// It cannot be made, or what has the name cannot be removed; or there is no memory.
pub fn new_file<F: Files>(files: &F, name: &str) -> io::Result<F::File> {
    let mut how = File::options();
    how.write(true).create_new(true);
    make_file(files, &how, name)
}

/// Writes a file in place of what has this name, which is not opened.
pub(crate) fn write_file<F: Files>(files: &F, name: &str, bytes: &[u8]) -> io::Result<()> {
    let mut file = new_file(files, name)?;
    file.write_all(bytes)
}

/// Makes a file for what a program prints, which has this name until it is open. Each write goes to its end.
pub(crate) fn printed_file<F: Files>(files: &F, name: &str) -> io::Result<Printed<F::File>> {
    let mut how = File::options();
    how.append(true).create_new(true);
    let written = make_file(files, &how, name)?;
    let read = open_file(files, name)?;
    fs::remove_file(files, name)?;
    Ok((written, read))
}

/// Whether an empty file has that name. A link is none, whatever it leads to.
pub(crate) fn is_empty_file<F: Files>(files: &F, name: &str) -> bool {
    match fs::symlink_metadata(files, name) {
        Ok(found) => found.is_file() && found.len() == 0,
        Err(_) => false,
    }
}

/// The bytes that a file has now. What is added while they are read is left out.
pub(crate) fn so_far<F: Read + OpenFile + Drop>(file: F) -> io::Result<Take<F>> {
    let length = file.metadata()?.len();
    Ok(file.take(length))
}

/// So many bytes of a file, or all, where it has fewer.
fn first_bytes<F: Read + Drop>(alloc: Global, file: F, length: u64) -> io::Result<Vec<u8>> {
    let mut bytes = Vec::new(alloc);
    file.take(length).read_to_end(&mut bytes)?;
    Ok(bytes)
}

/// What was found, if it is a regular file.
fn regular(found: Metadata) -> io::Result<Metadata> {
    if found.is_file() {
        return Ok(found);
    }
    Err(io::Error::from(ErrorKind::InvalidInput))
}

/// Opens the file of that name to read it. It is opened to be written too, and never to be read alone, since that waits for
/// a writer where the name is a pipe's. So a pipe that has taken the place of the file is opened at once, or cannot be opened.
fn open_file<F: Files>(files: &F, name: &str) -> io::Result<F::File> {
    let mut how = File::options();
    how.read(true).write(true);
    match how.open(files, name) {
        Err(error) if error.kind() == ErrorKind::PermissionDenied => {
            open_protected(files, &how, name)
        },
        opened => opened,
    }
}

/// Opens a file that its owner may read and not write. While it is opened, its owner alone may read and write it; then its
/// permissions are again what they were. Only its owner can have that, so another user's file is refused. A link is followed.
/// Where another file takes its name meanwhile, that one is opened, and from then on its owner alone may read and write it:
/// nobody gains a permission by that.
fn open_protected<F: Files>(files: &F, how: &OpenOptions, name: &str) -> io::Result<F::File> {
    let found = regular(fs::metadata(files, name)?)?;
    if found.mode() & OWNER_READS == 0 {
        return Err(io::Error::from(ErrorKind::PermissionDenied));
    }
    fs::set_permissions(files, name, Permissions::from_mode(OWNER_ALONE))?;
    let file = how.open(files, name)?;
    let opened = file.metadata()?;
    if opened.ino() == found.ino() && opened.dev() == found.dev() {
        file.set_permissions(found.permissions())?;
    }
    Ok(file)
}

/// The bytes of the file of that name, if it has so many at most. An empty one is not opened.
fn file_bytes<F: Files>(alloc: Global, files: &F, name: &str, most: u64) -> io::Result<Vec<u8>> {
    if regular(fs::metadata(files, name)?)?.len() == 0 {
        return Ok(Vec::new(alloc));
    }
    let file = open_file(files, name)?;
    let length = regular(file.metadata()?)?.len();
    if length > most {
        return Err(io::Error::from(ErrorKind::FileTooLarge));
    }
    first_bytes(alloc, file, length)
}

/// The bytes of a file, with the name by which they were read: `read_named` alone makes one.
#[derive(Drop)]
pub(crate) struct FileBytes {
    name: Text,
    bytes: Vec<u8>,
}

impl FileBytes {
    /// The bytes.
    pub(crate) fn bytes(&self) -> &[u8]
        ensures { result.now ≡ self.now.bytes.items }
    {
        self.bytes.as_slice()
    }
}

/// The bytes of the file of that name, if it has so many at most, with the name. An empty one is not opened.
///
/// # Errors
///
/// It cannot be read, or has more bytes; or it is a pipe, a device, a folder or the like; or there is no memory.
pub(crate) fn read_named<F: Files>(
    alloc: Global,
    files: &F,
    name: Text,
    most: u64,
) -> io::Result<FileBytes>
    ensures { IfOk result (λ file. file.name ≡ name) }
{
    let bytes = file_bytes(alloc, files, name.as_str(), most)?;
    Ok(FileBytes { name, bytes })
}

/// The file of that name, open to be read up to the bytes that it has now.
///
/// # Errors
///
/// It cannot be opened; or it is a pipe, a device, a folder or the like; or there is no memory.
pub fn open_regular<F: Files>(files: &F, name: &str) -> io::Result<Take<F::File>> {
    regular(fs::metadata(files, name)?)?;
    let file = open_file(files, name)?;
    let length = regular(file.metadata()?)?.len();
    Ok(file.take(length))
}
