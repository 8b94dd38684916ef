//! Stores in SQLite, of a catalogue's sites and of its coordinator: new ones in memory, and those of a folder.

ghost use Rattle.std.specs.Prelude.{◌≡◌, ◌<◌, IfErr, IfOk, length};
ghost use Rattle.catalog.specs.Relation.{catalogue_of};
ghost use Rattle.databases.specs.Client.{IsOfClient};
ghost use Rattle.catalog.specs.FragmentLeaf.{schemas_of};
ghost use Rattle.world.specs.Leaves.{known_leaves};
ghost use Rattle.databases.specs.SqlStores.{AreNewSites, AreOfLeaves, IsNewDesk, IsNewSite};

use crate::folder::Standing;
use crate::found::{SiteFound, decided, site_found};
use catalog::catalogue::Catalog;
use lines::fault::ProgramFault;
use sqlite::{Alter, Connection, Error, ErrorCode, File, FileStore, MemStore};
use sqlstore::desk::SqlDesk;
use sqlstore::site::SqlSite;
use std::alloc::Global;
use std::rt::HostRuntime;
use store::fault::StoreFault;
use store::name::Txn;
use terms::leaf::Leaf;
use world::site_leaves::known_leaves;

/// The stores of a database: those of its sites, in the catalogue's order, and the coordinator's.
#[derive(Drop)]
pub struct OpenStores<D, S> {
    pub sites: Vec<S>,
    pub desk: D,
}

/// New stores of the sites, in the catalogue's order.
pub fn memory_sites<'a>(
    alloc: Global,
    catalog: &Catalog,
) -> Result<Vec<SqlSite<MemStore>>, ProgramFault<'a>>
    ensures new { IfOk result (λ sites. AreNewSites (catalogue_of catalog.now) sites.items) }
    ensures all { IfOk result (λ sites. length sites.items ≡ length catalog.now.0) }
    ensures err { IfErr result IsOfClient }
{
    let mut sites = Vec::new(alloc);
    for _place in 0..catalog.sites().len() {
        let site = memory_site(alloc, catalog)?;
        if sites.push(site).is_err() {
            return Err(ProgramFault::Memory);
        }
    }
    Ok(sites)
}

/// A new store of a site.
fn memory_site<'a>(alloc: Global, catalog: &Catalog) -> Result<SqlSite<MemStore>, ProgramFault<'a>>
    ensures new { IfOk result (IsNewSite (catalogue_of catalog.now)) }
    ensures err { IfErr result IsOfClient }
{
    let leaves = known_leaves(alloc, catalog)?;
    match SqlSite::memory(leaves) {
        Ok(site) => Ok(site),
        Err(fault) => Err(of_store(fault)),
    }
}

/// A new store of the coordinator.
pub fn memory_desk<'a>(alloc: Global) -> Result<SqlDesk<MemStore>, ProgramFault<'a>>
    ensures new { IfOk result IsNewDesk }
    ensures err { IfErr result IsOfClient }
{
    match SqlDesk::memory(alloc) {
        Ok(desk) => Ok(desk),
        Err(fault) => Err(of_store(fault)),
    }
}

/// Opens stores in files, on media of some kind. In a new folder a file that isn't there is made; in one that is kept a
/// file that has nothing is damage.
pub trait OpensFiles<M: Alter> {
    /// The store of a site in the file of this path, which has these leaves.
    fn site(
        &self,
        path: &str,
        leaves: Vec<Leaf>,
        standing: Standing,
    ) -> Result<SqlSite<M>, StoreFault>
        ensures { IfOk result (λ site. site.leaves ≡ leaves) };

    /// The store of the coordinator in the file of this path.
    fn desk(&self, path: &str, standing: Standing) -> Result<SqlDesk<M>, StoreFault>;

    /// Why the file of this path can't be opened, if it can't, in words for a person.
    fn trouble(&self, path: &str) -> Option<&'static str>;

    /// What stands in the file of a site, if it can be read.
    fn found_site(&self, path: &str) -> Option<SiteFound>;

    /// The transactions whose commit rows stand in the coordinator's file, if it can be read.
    fn found_desk(&self, path: &str) -> Option<Vec<Txn>>;
}

/// Files of the operating system.
#[derive(Drop)]
pub struct Files<'f> {
    rt: &'f HostRuntime,
}

impl<'f> Files<'f> {
    /// Those that a program reaches. No clause says which, since no contract can say what files hold.
    pub fn new(rt: &'f HostRuntime) -> Files<'f> {
        Files { rt }
    }
}

impl OpensFiles<FileStore<File>> for Files<'_> {
    fn site(
        &self,
        path: &str,
        leaves: Vec<Leaf>,
        standing: Standing,
    ) -> Result<SqlSite<FileStore<File>>, StoreFault> {
        match standing {
            Standing::New => SqlSite::file(self.rt, path, leaves),
            Standing::Kept => SqlSite::kept_file(self.rt, path, leaves),
        }
    }

    fn desk(&self, path: &str, standing: Standing) -> Result<SqlDesk<FileStore<File>>, StoreFault> {
        match standing {
            Standing::New => SqlDesk::file(self.rt, path),
            Standing::Kept => SqlDesk::kept_file(self.rt, path),
        }
    }

    fn trouble(&self, path: &str) -> Option<&'static str> {
        match Connection::open(self.rt, path) {
            Ok(_) => None,
            Err(error) => Some(words_of(&error)),
        }
    }

    fn found_site(&self, path: &str) -> Option<SiteFound> {
        let conn = Connection::open(self.rt, path).ok()?;
        site_found(self.rt.alloc(), conn).ok()
    }

    fn found_desk(&self, path: &str) -> Option<Vec<Txn>> {
        let conn = Connection::open(self.rt, path).ok()?;
        decided(self.rt.alloc(), conn).ok()
    }
}

/// Why a file can't be opened, in words.
fn words_of(error: &Error) -> &'static str {
    match error {
        Error::SqliteFailure(ErrorCode::DatabaseBusy) => "another program has it open",
        Error::SqliteFailure(ErrorCode::CannotOpen) => "it can't be opened to be read and written",
        Error::SqliteFailure(ErrorCode::NotADatabase) => "it is no database that a store has made",
        Error::SqliteFailure(ErrorCode::DatabaseCorrupt) => "it is damaged",
        Error::SqliteFailure(ErrorCode::DiskFull) => "the disk is full",
        Error::SqliteFailure(ErrorCode::OutOfMemory) => "memory ran out",
        _ => "it can't be read or written",
    }
}

/// The stores of the sites in the files of a folder, in the catalogue's order.
pub fn file_sites<'a, M: Alter + Drop, F: OpensFiles<M>>(
    alloc: Global,
    files: &F,
    dir: &str,
    catalog: &Catalog,
    standing: Standing,
) -> Result<Vec<SqlSite<M>>, ProgramFault<'a>>
    ensures all { IfOk result (λ sites. length sites.items ≡ length catalog.now.0) }
    ensures leaves { IfOk result (λ sites. AreOfLeaves (catalogue_of catalog.now) sites.items) }
    ensures err { IfErr result IsOfClient }
{
    let mut sites = Vec::new(alloc);
    for place in 0..catalog.sites().len() {
        let site = file_site(alloc, files, dir, catalog, place, standing)?;
        if sites.push(site).is_err() {
            return Err(ProgramFault::Memory);
        }
    }
    Ok(sites)
}

/// The store of the site of this number, in its file of the folder.
pub fn file_site<'a, M: Alter + Drop, F: OpensFiles<M>>(
    alloc: Global,
    files: &F,
    dir: &str,
    catalog: &Catalog,
    place: usize,
    standing: Standing,
) -> Result<SqlSite<M>, ProgramFault<'a>>
    requires { place < length catalog.now.0 }
    ensures leaves { IfOk result (λ site. site.leaves.items ≡ known_leaves (schemas_of (catalogue_of catalog.now))) }
    ensures err { IfErr result IsOfClient }
{
    let path = format!(in alloc; "{dir}/{}.db", catalog.sites()[place])?;
    let leaves = known_leaves(alloc, catalog)?;
    match files.site(path.as_str(), leaves, standing) {
        Ok(site) => Ok(site),
        Err(fault) => Err(of_store(fault)),
    }
}

/// The store of the coordinator, in its file of the folder.
pub fn file_desk<'a, M: Alter + Drop, F: OpensFiles<M>>(
    alloc: Global,
    files: &F,
    dir: &str,
    standing: Standing,
) -> Result<SqlDesk<M>, ProgramFault<'a>>
    ensures err { IfErr result IsOfClient }
{
    let path = format!(in alloc; "{dir}/desk.db")?;
    match files.desk(path.as_str(), standing) {
        Ok(desk) => Ok(desk),
        Err(fault) => Err(of_store(fault)),
    }
}

/// What stops the program where a store can't be opened.
pub fn of_store<'a>(fault: StoreFault) -> ProgramFault<'a>
    ensures { IsOfClient result }
{
    match fault {
        StoreFault::Memory => ProgramFault::Memory,
        fault => ProgramFault::Store { fault },
    }
}
