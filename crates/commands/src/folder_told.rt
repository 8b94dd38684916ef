//! What is wrong in the folder of a database, told to a person.

ghost use Rattle.std.specs.Prelude.{◌<◌, length};

use catalog::catalogue::Catalog;
use databases::folder::{CATALOGUE, Standing, has_store};
use databases::sql_stores::{OpensFiles, file_desk, file_site};
use lines::catalog_difference::{Compared, tell_difference};
use lines::catalog_file::read_catalog;
use lines::fault::ProgramFault;
use lines::same_catalog::is_same;
use sqlite::Alter;
use std::io::{ErrorKind, Read, Write};
use std::rt::HostRuntime;
use std::{fs, io};
use store::desk_store::DeskStore;
use store::fault::StoreFault;
use store::site_store::SiteStore;

/// Tells which files of a folder can't be used for a catalogue, which `catalog` gives, and why, once a store has failed with
/// this fault. Nothing is claimed of the words.
pub fn tell_folder<M: Alter + Drop, F: OpensFiles<M>, C: Read + Drop, E: Write>(
    rt: &HostRuntime,
    files: &F,
    dir: &str,
    file: &str,
    catalog: C,
    fault: StoreFault,
    errors: &mut E,
) -> io::Result<()> {
    match read_catalog(rt.alloc(), file, catalog) {
        Ok(catalog) => tell_files(rt, files, dir, &catalog, fault, errors),
        Err(_) => Ok(()),
    }
}

/// Tells it of a folder that is opened for this catalogue.
fn tell_files<M: Alter + Drop, F: OpensFiles<M>, E: Write>(
    rt: &HostRuntime,
    files: &F,
    dir: &str,
    catalog: &Catalog,
    fault: StoreFault,
    errors: &mut E,
) -> io::Result<()> {
    // A store of another catalogue's site is not to be opened: its file would be made.
    let Some(standing) = tell_catalogue(rt, dir, catalog, errors)? else {
        return Ok(());
    };
    let mut is_told = false;
    for place in 0..catalog.sites().len() {
        is_told |= tell_site(rt, files, dir, catalog, place, standing, errors)?;
    }
    is_told |= tell_desk(rt, files, dir, standing, errors)?;
    if is_told {
        return Ok(());
    }
    writeln!(errors, "{dir}: {}", words_of_all(fault))
}

/// Tells what the folder's catalogue has otherwise than this one, or why it can't be read. Answers what the folder is, where
/// its stores are to be looked at.
fn tell_catalogue<E: Write>(
    rt: &HostRuntime,
    dir: &str,
    catalog: &Catalog,
    errors: &mut E,
) -> io::Result<Option<Standing>> {
    let path = format!(in rt.alloc(); "{dir}/{CATALOGUE}")?;
    match fs::open(rt, path.as_str()) {
        Ok(kept) => tell_kept(rt, path.as_str(), kept, catalog, errors),
        Err(error) => tell_unread(rt, dir, path.as_str(), error.kind(), errors),
    }
}

/// Tells it of the catalogue that `kept` gives, which the file of this path holds.
fn tell_kept<C: Read + Drop, E: Write>(
    rt: &HostRuntime,
    path: &str,
    kept: C,
    catalog: &Catalog,
    errors: &mut E,
) -> io::Result<Option<Standing>> {
    match read_catalog(rt.alloc(), CATALOGUE, kept) {
        Ok(kept) => compare(rt, path, &kept, catalog, errors),
        Err(_) => {
            writeln!(errors, "{path}: it is no catalogue")?;
            Ok(None)
        }
    }
}

/// Tells what the folder's catalogue, in the file of this path, has otherwise than this one, unless they are the same.
fn compare<E: Write>(
    rt: &HostRuntime,
    path: &str,
    kept: &Catalog,
    given: &Catalog,
    errors: &mut E,
) -> io::Result<Option<Standing>> {
    if is_same(kept, given) {
        return Ok(Some(Standing::Kept));
    }
    tell_difference(rt.alloc(), Compared { path, kept, given }, errors)?;
    Ok(None)
}

/// Tells why the catalogue of a folder can't be opened, unless the folder is new.
fn tell_unread<E: Write>(
    rt: &HostRuntime,
    dir: &str,
    path: &str,
    kind: ErrorKind,
    errors: &mut E,
) -> io::Result<Option<Standing>> {
    let is_folder = fs::metadata(rt, dir).is_ok_and(|found| found.is_dir());
    if !is_folder {
        writeln!(errors, "{dir}: it is no folder, and none can be made there")?;
        return Ok(None);
    }
    if kind == ErrorKind::NotFound {
        return Ok(Some(Standing::New));
    }
    writeln!(errors, "{path}: it can't be read")?;
    Ok(None)
}

/// What the file of a store is found to be.
enum Look {
    /// It isn't there.
    Absent,
    /// It can't be opened, for this reason.
    Closed(&'static str),
    /// It can be opened.
    Open,
}

/// Looks at the file of the store of this name. One that isn't there is not made.
fn look_at<M: Alter + Drop, F: OpensFiles<M>>(
    rt: &HostRuntime,
    files: &F,
    dir: &str,
    name: &str,
) -> io::Result<Look> {
    match has_store(rt, dir, name) {
        Ok(true) => {}
        _ => return Ok(Look::Absent),
    }
    let path = format!(in rt.alloc(); "{dir}/{name}.db")?;
    Ok(match files.trouble(path.as_str()) {
        Some(why) => Look::Closed(why),
        None => Look::Open,
    })
}

/// Tells what is wrong with the file of the site of this number, if something is, and whether that was told.
fn tell_site<M: Alter + Drop, F: OpensFiles<M>, E: Write>(
    rt: &HostRuntime,
    files: &F,
    dir: &str,
    catalog: &Catalog,
    place: usize,
    standing: Standing,
    errors: &mut E,
) -> io::Result<bool>
    requires { place < length catalog.now.0 }
{
    let name = catalog.sites()[place].as_str();
    let why = match look_at(rt, files, dir, name)? {
        Look::Absent => words_of_none(standing),
        Look::Closed(why) => Some(why),
        Look::Open => {
            let found = match file_site(rt.alloc(), files, dir, catalog, place, standing) {
                Ok(mut site) => site.rows().err(),
                Err(fault) => store_fault(fault),
            };
            words_of(found)
        }
    };
    tell_file(dir, name, why, errors)
}

/// Tells what is wrong with the coordinator's file, if something is, and whether that was told.
fn tell_desk<M: Alter + Drop, F: OpensFiles<M>, E: Write>(
    rt: &HostRuntime,
    files: &F,
    dir: &str,
    standing: Standing,
    errors: &mut E,
) -> io::Result<bool> {
    let why = match look_at(rt, files, dir, "desk")? {
        Look::Absent => words_of_none(standing),
        Look::Closed(why) => Some(why),
        Look::Open => {
            let found = match file_desk(rt.alloc(), files, dir, standing) {
                Ok(mut desk) => desk.load().err(),
                Err(fault) => store_fault(fault),
            };
            words_of(found)
        }
    };
    tell_file(dir, "desk", why, errors)
}

/// Tells what is wrong with the file of a store, if something is, and whether that was so.
fn tell_file<E: Write>(
    dir: &str,
    name: &str,
    why: Option<&str>,
    errors: &mut E,
) -> io::Result<bool> {
    match why {
        Some(why) => {
            writeln!(errors, "{dir}/{name}.db: {why}")?;
            Ok(true)
        }
        None => Ok(false),
    }
}

/// The store's fault that stopped the program, if one did.
fn store_fault(fault: ProgramFault<'_>) -> Option<StoreFault> {
    match fault {
        ProgramFault::Store { fault } => Some(fault),
        _ => None,
    }
}

/// A store's fault in words, if there is one.
fn words_of(fault: Option<StoreFault>) -> Option<&'static str> {
    match fault? {
        StoreFault::Memory => Some("memory ran out"),
        StoreFault::Refused => Some("it can't be read or written"),
        StoreFault::Damaged => Some("it isn't as a store of this catalogue was left"),
    }
}

/// What is wrong with a file that isn't there: nothing, in a folder that is new.
fn words_of_none(standing: Standing) -> Option<&'static str> {
    match standing {
        Standing::New => None,
        Standing::Kept => Some("it isn't there"),
    }
}

/// A fault in words, where each file by itself has none.
fn words_of_all(fault: StoreFault) -> &'static str {
    match fault {
        StoreFault::Memory => "memory ran out",
        StoreFault::Refused => "a file could not be made or written",
        StoreFault::Damaged => "no run of the database leaves what the files hold together",
    }
}
