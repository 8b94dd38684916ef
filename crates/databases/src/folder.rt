//! The folder of a database, in which its stores lie, and beside them the first catalogue that they are of. Those that come after it
//! don't stand there: whoever opens the folder gives the same list each time.

ghost use Rattle.std.specs.Prelude.{IfErr};
ghost use Rattle.databases.specs.Client.{IsOfClient};

use catalog::catalogue::Catalog;
use lines::built_in::BUILT_IN;
use lines::catalog_file::{CatalogFault, read_catalog};
use lines::fault::ProgramFault;
use lines::same_catalog::is_same;
use std::alloc::Global;
use std::fs::File;
use std::io::{ErrorKind, Write};
use std::rt::HostRuntime;
use std::{fs, io};
use store::fault::StoreFault;

/// The file of a folder in which its first catalogue stands.
pub const CATALOGUE: &str = "catalogue.toml";

/// The file in which it stands until it is whole.
const UNFINISHED: &str = "catalogue.toml.new";

/// What a folder was found to be.
#[derive(Clone, Copy, PartialEq, Eq)]
pub enum Standing {
    /// No catalogue stands there, so no database was opened in it yet.
    New,
    /// It has the stores of a database of this catalogue.
    Kept,
}

/// Makes the folder, where it isn't there, and sees whether its stores can be of this first catalogue. A folder with another one
/// is left as it is, and counts as damaged; so does one in which the file of a store is missing.
pub fn enter<'a>(
    rt: &HostRuntime,
    dir: &str,
    catalog: &Catalog,
) -> Result<Standing, ProgramFault<'a>>
    ensures err { IfErr result IsOfClient }
{
    // No name at all would be the root, as it stands before the names of the files.
    if dir.is_empty() {
        return Err(unusable());
    }
    fs::create_dir_all(rt, dir).map_err(|error| refused(&error))?;
    look_into(rt, dir, catalog)
}

/// What a folder is, for a database of this catalogue.
pub fn look_into<'a>(
    rt: &HostRuntime,
    dir: &str,
    catalog: &Catalog,
) -> Result<Standing, ProgramFault<'a>>
    ensures err { IfErr result IsOfClient }
{
    let path = path_in(rt.alloc(), dir, CATALOGUE)?;
    match fs::open(rt, path.as_str()) {
        Ok(kept) => {
            if is_of(rt.alloc(), kept, catalog)? && has_stores(rt, dir, catalog)? {
                Ok(Standing::Kept)
            } else {
                Err(damaged())
            }
        }
        Err(error) => match error.kind() {
            ErrorKind::NotFound => Ok(Standing::New),
            _ => Err(refused(&error)),
        },
    }
}

/// Writes the catalogue into a new folder, once the files of its stores are there: the text of the file `source`, or the built-in
/// one. It stands there whole or not at all, and is on the disk under its name. A source that gives another text the second
/// time, as a pipe does, is refused.
pub fn keep_catalogue<'a>(
    rt: &HostRuntime,
    dir: &str,
    source: Option<&str>,
    catalog: &Catalog,
    standing: Standing,
) -> Result<(), ProgramFault<'a>>
    ensures err { IfErr result IsOfClient }
{
    if standing == Standing::Kept {
        return Ok(());
    }
    let unfinished = path_in(rt.alloc(), dir, UNFINISHED)?;
    let path = path_in(rt.alloc(), dir, CATALOGUE)?;
    write_text(rt, unfinished.as_str(), source).map_err(|error| refused(&error))?;
    let written = fs::open(rt, unfinished.as_str()).map_err(|error| refused(&error))?;
    match is_of(rt.alloc(), written, catalog) {
        Ok(true) => {}
        Err(ProgramFault::Memory) => return Err(ProgramFault::Memory),
        _ => return Err(unusable()),
    }
    name_text(rt, dir, unfinished.as_str(), path.as_str()).map_err(|error| refused(&error))
}

/// The path of a file in a folder.
pub fn path_in<'a>(alloc: Global, dir: &str, name: &str) -> Result<String, ProgramFault<'a>>
    ensures err { IfErr result IsOfClient }
{
    Ok(format!(in alloc; "{dir}/{name}")?)
}

/// Whether a file has the text of this catalogue. One that has the text of none counts as damaged.
fn is_of<'a>(alloc: Global, file: File, catalog: &Catalog) -> Result<bool, ProgramFault<'a>>
    ensures err { IfErr result IsOfClient }
{
    match read_catalog(alloc, CATALOGUE, file) {
        Ok(kept) => Ok(is_same(&kept, catalog)),
        Err(CatalogFault::Program(ProgramFault::Memory)) => Err(ProgramFault::Memory),
        Err(_) => Err(damaged()),
    }
}

/// Whether each store of this catalogue has its file in the folder.
fn has_stores<'a>(rt: &HostRuntime, dir: &str, catalog: &Catalog) -> Result<bool, ProgramFault<'a>>
    ensures err { IfErr result IsOfClient }
{
    for site in catalog.sites() {
        if !has_store(rt, dir, site.as_str())? {
            return Ok(false);
        }
    }
    has_store(rt, dir, "desk")
}

/// Whether the store of this name has its file in the folder.
pub fn has_store<'a>(rt: &HostRuntime, dir: &str, name: &str) -> Result<bool, ProgramFault<'a>>
    ensures err { IfErr result IsOfClient }
{
    let path = format!(in rt.alloc(); "{dir}/{name}.db")?;
    fs::exists(rt, path.as_str()).map_err(|error| refused(&error))
}

/// Gives the file of a catalogue the name under which it is read, and waits until the name is on the disk.
fn name_text(rt: &HostRuntime, dir: &str, unfinished: &str, path: &str) -> io::Result<()> {
    fs::rename(rt, unfinished, path)?;
    fs::open(rt, dir)?.sync_all()
}

/// Writes a catalogue's text into the file of this path, and waits until it is on the disk.
fn write_text(rt: &HostRuntime, path: &str, source: Option<&str>) -> io::Result<()> {
    let mut file = fs::create(rt, path)?;
    match source {
        Some(source) => {
            let text = fs::read(rt, source)?;
            file.write_all(text.as_slice())?;
        }
        None => file.write_all(BUILT_IN.as_bytes())?,
    }
    file.sync_all()
}

/// What stops the program where the folder can't be used.
fn refused<'a>(error: &io::Error) -> ProgramFault<'a>
    ensures { IsOfClient result }
{
    match error.kind() {
        ErrorKind::OutOfMemory => ProgramFault::Memory,
        _ => unusable(),
    }
}

/// What stops the program where the folder can't be used at all.
fn unusable<'a>() -> ProgramFault<'a>
    ensures { IsOfClient result }
{
    ProgramFault::Store {
        fault: StoreFault::Refused,
    }
}

/// What stops the program where the folder holds what no store of this catalogue has left.
fn damaged<'a>() -> ProgramFault<'a>
    ensures { IsOfClient result }
{
    ProgramFault::Store {
        fault: StoreFault::Damaged,
    }
}
