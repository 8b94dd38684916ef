//! What commands read: files that are named, standard input, and texts that the program has. All of it is opened here.

ghost use Rattle.std.specs.Prelude.{◌≡◌, IfOk, IfSome, IsNone, IsOkAnd, Some, map};
ghost use Rattle.lines.specs.declared.built_in.TheConstants.{BUILT_IN};
ghost use Rattle.databases.specs.Opened.{remaining_of};

use crate::catalog_files::Source;
use lines::built_in::{BUILT_IN, BUILT_IN_NAME};
use std::alloc::AllocError;
use std::fs::File;
use std::io::{Read, Stdin};
use std::{fs, io};

/// What can be read.
#[derive(Drop)]
pub enum Opened<'t> {
    /// A file.
    File(File),
    /// Standard input.
    Input(Stdin),
    /// A text that the program has.
    Text(&'t [u8]),
}

impl Read for Opened<'_> {
    ghost remaining = { remaining_of };

    fn read(&mut self, buf: &mut [u8]) -> io::Result<usize> {
        match self {
            Opened::File(file) => file.read(buf),
            Opened::Input(input) => input.read(buf),
            Opened::Text(text) => text.read(buf),
        }
    }
}

/// The file of this name, to be read. No contract knows what it holds, so no clause says it.
pub fn open_file(rt: &HostRuntime, file: &str) -> io::Result<Opened<'static>> {
    Ok(Opened::File(fs::open(rt, file)?))
}

/// Standard input, where that is asked for, or else the file of this name. No contract knows what either gives.
pub fn open_input(rt: &HostRuntime, is_of_input: bool, file: &str) -> io::Result<Opened<'static>> {
    if is_of_input {
        Ok(Opened::Input(rt.stdin()))
    } else {
        open_file(rt, file)
    }
}

/// The catalogue of the file of this name, as far as that can be opened, or the built-in one where none is named.
pub fn open_catalog<'a>(rt: &HostRuntime, file: Option<&'a str>) -> Source<'a, Opened<'static>>
    ensures named { IfSome file.entry (λ name. result.file ≡ name) }
    ensures built_in { IsNone file.entry → IsOkAnd result.catalog (λ opened. remaining_of opened ≡ Some BUILT_IN.now) }
{
    match file {
        Some(file) => Source {
            file,
            catalog: open_file(rt, file),
        },
        None => Source {
            file: BUILT_IN_NAME,
            catalog: Ok(Opened::Text(BUILT_IN.as_bytes())),
        },
    }
}

/// The catalogues of these files, which come next, as far as the files can be opened. No contract knows what they hold.
pub fn open_next<'a>(
    rt: &HostRuntime,
    next: &[&'a str],
) -> Result<Vec<Source<'a, Opened<'static>>>, AllocError>
    ensures { IfOk result (λ sources. map (λ source. source.file.now) sources.items ≡ map (λ file. file.now) next.now) }
{
    let mut sources = Vec::new(rt.alloc());
    for file in next {
        sources.push(Source {
            file: *file,
            catalog: open_file(rt, file),
        })?;
    }
    Ok(sources)
}
