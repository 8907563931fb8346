//! The files that words name, and what is read of them.

ghost use Rattle.std.specs.Prelude.{◌≡◌, IfOk, map};
ghost use Rattle.command_io.specs.Files as spec;

use crate::stream::{Source, SourceFault};
use flow_model::{Duplicate, Sequence, Text};
use std::alloc::{AllocError, Global};
use std::marker::Model;

/// A source, and the name of its file.
#[derive(Drop)]
pub struct NamedSource<S> {
    pub name: Text,
    pub source: S,
}

/// What is read where no file is named: an empty JSON object.
const NO_FILE: &[u8] = b"{}";

/// A file that words may name.
#[derive(Drop)]
pub enum OptionalFile<S> {
    /// The file that is named.
    Named(S),
    /// None is named, which is as a file of an empty JSON object.
    Absent,
}

impl<S: Source> Source for OptionalFile<S> {
    ghost use Rattle.std.proofs.Common.{rules};
    ghost use Rattle.command_io.specs.declared.files.OptionalFile.TheVariants.{Absent, Named};

    ghost seen = { spec.optional_seen S.seen };

    ghost reads = { spec.optional_reads S.reads };

    ghost most = { S.most };

    ghost bounded = { elim [ Named file ↦ S.bounded file | Absent ↦ Prim.search rules ] };

    fn read_all(&mut self, alloc: Global) -> Result<Vec<u8>, SourceFault> {
        match self {
            OptionalFile::Named(file) => file.read_all(alloc),
            OptionalFile::Absent => match Vec::from_slice(alloc, NO_FILE) {
                Ok(bytes) => Ok(bytes),
                Err(_) => Err(SourceFault::Memory),
            },
        }
    }
}

/// The name of a file, and its bytes.
#[derive(Drop)]
pub struct Content {
    name: Text,
    bytes: Vec<u8>,
}

impl Model for Content {
    ghost Value = { spec.Content };

    ghost view = { λ c. record { name = c.name; bytes = c.bytes.items } };
}

impl Content {
    /// A file of that name with these bytes.
    pub fn new(name: Text, bytes: Vec<u8>) -> Content
        ensures name { result.name ≡ name }
        ensures bytes { result.bytes ≡ bytes.items }
    {
        Content { name, bytes }
    }

    /// The file's name.
    pub fn name(&self) -> &str
        ensures { result.now ≡ self.now.name }
    {
        self.name.as_str()
    }

    /// The file's bytes.
    pub fn bytes(&self) -> &[u8]
        ensures { result.now ≡ self.now.bytes }
    {
        self.bytes.as_slice()
    }
}

/// What is read of contexts where no file of them is named.
pub fn no_contexts(alloc: Global) -> Result<Content, AllocError>
    ensures { IfOk result (λ contexts. contexts ≡ spec.no_contexts) }
{
    let bytes = Vec::from_slice(alloc, NO_FILE)?;
    Ok(Content::new(Text::new(String::new(alloc)), bytes))
}

/// Reads a file to its end.
pub fn read_file<S: Source>(
    alloc: Global,
    file: &mut NamedSource<S>,
) -> Result<Content, SourceFault>
    ensures { spec.ReadsFile (spec.file_seen S.seen file.old)
        (spec.file_seen S.seen file.new) result }
{
    match file.name.copy(alloc) {
        Ok(name) => {
            let bytes = file.source.read_all(alloc)?;
            Ok(Content::new(name, bytes))
        },
        Err(_) => Err(SourceFault::Memory),
    }
}

/// Reads a file to its end, and adds what it holds.
fn add_file<S: Source>(
    alloc: Global,
    contents: &mut Vec<Content>,
    file: &mut NamedSource<S>,
) -> Result<(), SourceFault>
    ensures { spec.AddsFile (spec.file_seen S.seen file.old) (spec.file_seen S.seen file.new)
        contents.old.items contents.new.items result }
{
    let content = read_file(alloc, file)?;
    match contents.push(content) {
        Ok(_) => Ok(()),
        Err(_) => Err(SourceFault::Memory),
    }
}

/// Reads files to their ends, one after the other.
pub fn read_files<S: Source>(
    alloc: Global,
    files: &mut [NamedSource<S>],
) -> Result<Sequence<Content>, SourceFault>
    ensures { spec.AreRead (map (spec.file_seen S.seen) files.old)
        (map (spec.file_seen S.seen) files.new) result }
{
    let mut contents = Vec::new(alloc);
    for file in files.iter_mut() {
        match add_file(alloc, &mut contents, file) {
            Ok(()) => {},
            Err(fault) => return Err(fault),
        }
    }
    Ok(Sequence::new(contents))
}

/// Reads a file to its end, and then others.
pub fn read_first<R: Source, S: Source>(
    alloc: Global,
    first: &mut NamedSource<R>,
    others: &mut [NamedSource<S>],
) -> Result<(Content, Sequence<Content>), SourceFault>
    ensures { spec.ReadsFirst (spec.file_seen R.seen first.old) (spec.file_seen R.seen first.new)
        (map (spec.file_seen S.seen) others.old) (map (spec.file_seen S.seen) others.new) result }
{
    let first = read_file(alloc, first)?;
    let others = read_files(alloc, others)?;
    Ok((first, others))
}
