//! New databases are made of small pages.
//!
//! A commit sums up and digests every byte of each page that it changes, of which a transaction changes a row or two. So small
//! pages make a commit cost the processor less. Still smaller ones would cost more where a file is opened or read.

ghost use Rattle.std.specs.Prelude.{◌≡◌, ◌≢◌, IfOk, IsTrue, Err};
ghost use Rattle.sqlite_store.specs.FileStore.{state};
ghost use Rattle.sqlite_wal.specs.PageSize.{bytes_of};
ghost use Rattle.store.specs.declared.fault.StoreFault.TheVariants.{Damaged};

use sqlite::{FileStore, Files, Options, Unknown};
use sqlite_disk::Disk;
use sqlite_pager::Pager;
use sqlite_pool::probe_blank;
use sqlite_std_file::OpenError as PathError;
use sqlite_store::{OpenError, Unopened};
use sqlite_wal::PageSize;
use std::alloc::Global;
use std::hash::{BuildHasher, RandomState};
use std::io::ErrorKind;
use std::rt::HostRuntime;
use store::fault::StoreFault;

/// The size of a page of a new database.
fn small_page() -> PageSize
    ensures { bytes_of result ≡ 1024 }
{
    PageSize::new(1024).unwrap()
}

/// The fault that an error is by which the files at a path are opened.
fn path_fault(error: PathError) -> StoreFault
    ensures { result ≢ Damaged }
{
    match error {
        PathError::OutOfMemory => StoreFault::Memory,
        PathError::Io(error) if error.kind() == ErrorKind::OutOfMemory => StoreFault::Memory,
        _ => StoreFault::Refused,
    }
}

/// Whether files have no database yet.
fn are_blank<D: Disk>(alloc: Global, files: &mut Files<D>) -> Result<bool, StoreFault>
    requires log { IsTrue (D.Disk.is_usable files.old.log) }
    requires db { IsTrue (D.Disk.is_usable files.old.db) }
    ensures log { IsTrue (D.Disk.is_usable files.new.log) }
    ensures db { IsTrue (D.Disk.is_usable files.new.db) }
    ensures intact { result ≢ Err Damaged }
{
    match probe_blank(alloc, files, small_page(), false) {
        Ok(are_blank) => Ok(are_blank),
        Err(sqlite_wal::Error::OutOfMemory) => Err(StoreFault::Memory),
        Err(_) => Err(StoreFault::Refused),
    }
}

/// An empty database of small pages, in files that have none yet.
fn create<D: Disk + Drop>(
    alloc: Global,
    files: Files<D>,
    options: Options,
) -> Result<FileStore<D>, StoreFault>
    requires log { IsTrue (D.Disk.is_usable files.log) }
    requires db { IsTrue (D.Disk.is_usable files.db) }
    ensures size { IfOk result (λ store. IsTrue (state store).is_clean → (state store).page_size ≡ 1024) }
    ensures intact { result ≢ Err Damaged }
{
    let Ok(pager) = Pager::new(alloc, files, small_page(), options) else {
        return Err(StoreFault::Memory);
    };
    let fresh = match Unopened::new(alloc, pager, &[]) {
        Ok(fresh) => fresh,
        Err(failed) => {
            drop(failed);
            return Err(StoreFault::Memory);
        }
    };
    match fresh.create() {
        Ok(store) => Ok(store),
        Err((error, unmade)) => {
            drop(unmade);
            match error {
                OpenError::OutOfMemory => Err(StoreFault::Memory),
                _ => Err(StoreFault::Refused),
            }
        }
    }
}

/// Makes an empty database in the file of this path, where it has none yet. Else nothing is changed.
pub fn make_small(rt: &HostRuntime, path: &str) -> Result<(), StoreFault>
    ensures { result ≢ Err Damaged }
{
    let mut files = match sqlite_std_file::open(rt, path, Unknown) {
        Ok(files) => files,
        Err(error) => return Err(path_fault(error)),
    };
    if !are_blank(rt.alloc(), &mut files)? {
        return Ok(());
    }
    let Ok(seeds) = RandomState::new(rt) else {
        return Err(StoreFault::Refused);
    };
    match create(rt.alloc(), files, Options::new(seeds.hash_one(&0u8))) {
        Ok(made) => {
            drop(made);
            Ok(())
        }
        Err(fault) => Err(fault),
    }
}
