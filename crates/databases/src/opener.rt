//! How the database of a chain of catalogues is opened.

ghost use Rattle.std.specs.Prelude.{◌≡◌, ◌↔◌, IfErr, IfOk, length, map};
ghost use Rattle.catalog.specs.Relation.{catalogue_of};
ghost use Rattle.store.specs.declared.fault.StoreFault.TheVariants as kept;
ghost use Rattle.desk.specs.declared.refusal.Refusal.TheVariants as refusals;
ghost use Rattle.world.specs.declared.fault.Fault.TheVariants as faults;
ghost use Rattle.lines.specs.declared.fault.ProgramFault.TheVariants as program;
ghost use Rattle.databases.specs.declared.catalog_files.ChainFault.TheVariants as chains;
ghost use Rattle.databases.specs.CatalogFiles.{AreSeveral, IsOfOpening};
ghost use Rattle.databases.specs.Client.{IsOfClient};
ghost use Rattle.databases.specs.Origin.{Begins, BeginsOver, Origin as OriginNow};
ghost use Rattle.databases.specs.SqlStores.{AreOfLeaves};

use crate::catalog_files::ChainFault;
use crate::client::stopped;
use crate::database::Database;
use crate::folder::{Standing, enter, keep_catalogue};
use crate::found::found_text;
use crate::sql_stores::{OpenStores, OpensFiles, file_desk, file_sites, memory_desk, memory_sites};
use catalog::catalogue::Catalog;
use catalog::chain::Chain;
use desk::refusal::Refusal;
use lines::fault::ProgramFault;
use lines::play_load::empty_relations;
use site::fault::SiteFault;
use sqlite::{Alter, MemStore};
use sqlstore::desk::SqlDesk;
use sqlstore::site::SqlSite;
use std::alloc::Global;
use std::rt::HostRuntime;
use store::fault::StoreFault;
use store::plain_desk::PlainDesk;
use store::plain_site::PlainSite;
use terms::memory::Memory;
use world::chain::{alone, first_of};
use world::fault::Fault;
use world::solo::{Solo, open, open_on};

/// Opens databases over stores of some kind.
pub trait Opens<B: Database> {
    /// What such a database may begin with.
    ghost origin: { OriginNow → Type 0 };

    /// Opens the database of this chain. In force is the catalogue whose number its stores keep, or the first one.
    fn open<'a>(&self, alloc: Global, chain: &Chain) -> Result<B, ChainFault<'a>>
        ensures ok { IfOk result (BeginsOver B.seen origin (map catalogue_of chain.now)) }
        ensures err { IfErr result (IsOfOpening (map catalogue_of chain.now)) };

    /// What a session is to tell of what such a database is going to begin with, in lines; nothing where it begins without rows.
    /// Nothing is claimed of the words.
    fn found(&self, alloc: Global, _catalog: &Catalog) -> Result<String, Memory> {
        Ok(String::new(alloc))
    }
}

/// Opens the database of one catalogue.
pub fn open_alone<'a, B: Database, O: Opens<B>>(
    alloc: Global,
    opener: &O,
    catalog: &Catalog,
) -> Result<B, ProgramFault<'a>>
    ensures ok { IfOk result (Begins B.seen O.origin (catalogue_of catalog.now)) }
    ensures err { IfErr result IsOfClient }
{
    let chain = alone(alloc, catalog)?;
    match opener.open(alloc, &chain) {
        Ok(database) => Ok(database),
        Err(ChainFault::Program(fault)) => Err(fault),
        Err(_) => unreachable!(),
    }
}

/// Databases over lists, which begin with relations without rows, and are gone at the end.
#[derive(Drop)]
pub struct Lists;

impl Opens<Solo<PlainDesk, PlainSite>> for Lists {
    ghost use Rattle.std.specs.Prelude.{◌≡◌};
    ghost use Rattle.databases.specs.Origin.{New};

    ghost origin = { λ origin. origin ≡ New };

    fn open<'a>(
        &self,
        alloc: Global,
        chain: &Chain,
    ) -> Result<Solo<PlainDesk, PlainSite>, ChainFault<'a>> {
        let whole = empty_relations(alloc, first_of(chain).schema())?;
        match open(alloc, chain, &whole) {
            Ok(database) => Ok(database),
            // Lists refuse for want of memory alone.
            Err(_) => Err(ChainFault::Program(ProgramFault::Memory)),
        }
    }
}

/// Databases over new stores in SQLite, in memory, which begin with relations without rows, and are gone at the end.
#[derive(Drop)]
pub struct InMemory;

impl Opens<Solo<SqlDesk<MemStore>, SqlSite<MemStore>>> for InMemory {
    ghost use Rattle.std.specs.Prelude.{◌≡◌};
    ghost use Rattle.databases.specs.Origin.{New};

    ghost origin = { λ origin. origin ≡ New };

    fn open<'a>(
        &self,
        alloc: Global,
        chain: &Chain,
    ) -> Result<Solo<SqlDesk<MemStore>, SqlSite<MemStore>>, ChainFault<'a>> {
        let first = first_of(chain);
        let whole = empty_relations(alloc, first.schema())?;
        let sites = memory_sites(alloc, first)?;
        let desk = memory_desk(alloc)?;
        match open_on(alloc, chain, &whole, sites, desk) {
            Ok(database) => Ok(database),
            Err(fault) => Err(unchained(chain, fault)),
        }
    }
}

/// Databases over the stores in SQLite that lie in a folder. They go on from what an earlier one left there, of the same
/// catalogues: the folder keeps the first one's text alone, so whoever opens it gives those that come after it anew.
#[derive(Drop)]
pub struct Folder<'f, F> {
    rt: &'f HostRuntime,
    files: &'f F,
    dir: &'f str,
    /// The file of its first catalogue; none for the built-in one.
    source: Option<&'f str>,
}

impl<'f, F> Folder<'f, F> {
    /// Those of this folder, whose first catalogue is that of a file, or the built-in one. What lies in a folder no contract can say,
    /// so none says which one this is.
    pub fn new(
        rt: &'f HostRuntime,
        files: &'f F,
        dir: &'f str,
        source: Option<&'f str>,
    ) -> Folder<'f, F> {
        Folder {
            rt,
            files,
            dir,
            source,
        }
    }
}

/// Opens the files of a folder: those of the sites, in the catalogue's order, and the coordinator's.
pub fn open_files<'a, M: Alter + Drop, F: OpensFiles<M>>(
    alloc: Global,
    folder: &Folder<'_, F>,
    catalog: &Catalog,
    standing: Standing,
) -> Result<OpenStores<SqlDesk<M>, SqlSite<M>>, ProgramFault<'a>>
    ensures all { IfOk result (λ stores. length stores.sites.items ≡ length catalog.now.0) }
    ensures leaves { IfOk result (λ stores. AreOfLeaves (catalogue_of catalog.now) stores.sites.items) }
    ensures err { IfErr result IsOfClient }
{
    let sites = file_sites(alloc, folder.files, folder.dir, catalog, standing)?;
    let desk = file_desk(alloc, folder.files, folder.dir, standing)?;
    Ok(OpenStores { sites, desk })
}

impl<M: Alter + Drop, F: OpensFiles<M>> Opens<Solo<SqlDesk<M>, SqlSite<M>>> for Folder<'_, F> {
    ghost use Rattle.databases.specs.Origin.{IsKept};

    ghost origin = { IsKept };

    fn open<'a>(
        &self,
        alloc: Global,
        chain: &Chain,
    ) -> Result<Solo<SqlDesk<M>, SqlSite<M>>, ChainFault<'a>> {
        let first = first_of(chain);
        let standing = enter(self.rt, self.dir, first)?;
        let OpenStores { sites, desk } = open_files(alloc, self, first, standing)?;
        // No transaction begins in a folder before its catalogue stands there.
        keep_catalogue(self.rt, self.dir, self.source, first, standing)?;
        match Solo::open_stores(alloc, chain, sites, desk) {
            Ok(database) => Ok(database),
            Err(fault) => Err(unchained(chain, fault)),
        }
    }

    fn found(&self, _alloc: Global, catalog: &Catalog) -> Result<String, Memory> {
        found_text(self.rt, self.files, self.dir, catalog)
    }
}

/// Why a database of a chain isn't opened: also since, of several catalogues, the coordinator's store keeps the number of none. One
/// that keeps another number than that of the only catalogue is damaged.
pub fn unchained<'a>(chain: &Chain, fault: Fault) -> ChainFault<'a>
    ensures own { IsOfOpening (map catalogue_of chain.now) result }
    ensures chain { (result ≡ ChainFault.Unchained) ↔ ((fault ≡ faults.Desk refusals.Chain) × AreSeveral chain.now) }
    ensures damaged { fault ≡ faults.Desk refusals.Chain → ¬ (AreSeveral chain.now) → result ≡ chains.Program (program.Store kept.Damaged) }
{
    match fault {
        Fault::Desk(Refusal::Chain) if chain.len() > 1 => ChainFault::Unchained,
        fault => ChainFault::Program(unopened(fault)),
    }
}

/// What stops the program where a database can't be opened. An incarnation after the last one can't be kept, and a coordinator's
/// store with the number of a catalogue that isn't given is damaged.
pub fn unopened<'a>(fault: Fault) -> ProgramFault<'a>
    ensures own { IsOfClient result }
    ensures damaged { fault ≡ faults.Desk refusals.Chain → result ≡ program.Store kept.Damaged }
{
    match fault {
        Fault::Desk(Refusal::Full) | Fault::Site(SiteFault::Full) => {
            ProgramFault::Store {
                fault: StoreFault::Refused,
            }
        }
        Fault::Desk(Refusal::Chain) => ProgramFault::Store {
            fault: StoreFault::Damaged,
        },
        fault => stopped(fault),
    }
}
