//! A database whose sites work in threads.

ghost use Rattle.std.specs.Prelude.{◌≡◌, ◌∷◌, [], false, IfOk, List, length, map};
ghost use Rattle.catalog.specs.Catalogue.{Catalogue};
ghost use Rattle.catalog.specs.Relation.{catalogue_of};
ghost use Rattle.world.specs.Chain.{sites_of};
ghost use Rattle.history.specs.Records.{AreRecords};
ghost use Rattle.wire.specs.Opening.{HaveLeaves};

use crate::cells::{desk_cell, site_cells};
use crate::fault::CallFault;
use crate::front::{Front, Way, Word};
use crate::gate::Gate;
use crate::records::Records;
use crate::seat::Seats;
use crate::session::Session;
use crate::shared::Shared;
use crate::worker::serve;
use catalog::chain::Chain;
use crossbeam_channel::{Receiver, unbounded};
use history::records::{Records as Histories, RecordsFault};
use history::site_cell::SiteCell;
use std::alloc::Global;
use std::sync::atomic::AtomicU64;
use std::sync::{Arc, Mutex, Wait};
use std::thread::{JoinHandle, Threads};
use std::{mem, thread};
use store::desk_store::DeskStore;
use store::site_store::SiteStore;
use terms::copy::TryCopy;
use terms::memory::Memory;
use terms::text::Text;
use world::chain::first_of;
use world::fault::Fault;

/// A coordinator, and sites that work in a thread each. It can't be let go, only closed.
pub struct Database<S: SiteStore, D: DeskStore, G> {
    shared: Arc<Shared<D, G>, Global>,
    threads: Vec<JoinHandle<SiteCell<S>>>,
    /// Room for the cells of all sites.
    cells: Vec<SiteCell<S>>,
}

/// A site's cell, and the words to it.
#[derive(Drop)]
struct Post<S: SiteStore> {
    cell: SiteCell<S>,
    words: Receiver<Word>,
}

/// The ways to sites, and what their threads begin with.
#[derive(Drop)]
struct Posts<S: SiteStore> {
    ways: Vec<Way>,
    posts: Vec<Post<S>>,
}

impl<S, D, G> Database<S, D, G>
where
    S: SiteStore + Send + Drop + 'static,
    D: DeskStore + Send + Drop + 'static,
    G: Gate + Send + Sync + Drop + 'static,
{
    /// Opens a database of this chain of catalogues over these stores: those of its sites, in their order, and the coordinator's,
    /// whose number says which catalogue is in force. On a fault they are let go; it is a machine's that doesn't start, or want
    /// of memory, also where no thread can be made. No clause says what is opened: the cells lie under a lock and in threads from
    /// then on, and `close` says what comes back.
    pub fn open<R: Threads + Wait + Copy + Send + 'static>(
        rt: &R,
        alloc: Global,
        chain: &Chain,
        sites: Vec<S>,
        desk: D,
        gate: G,
    ) -> Result<Database<S, D, G>, Fault>
        requires one_each { length sites.items ≡ length (sites_of chain.now) }
        requires leaves { (first : Catalogue) (rest : List Catalogue) → map catalogue_of chain.now ≡ first ∷ rest → HaveLeaves S.is_clean S.kept first sites.items }
    {
        let first = first_of(chain);
        let schema = first.schema().copy()?;
        let cells = site_cells(alloc, first, sites)?;
        let cell = desk_cell(alloc, chain, desk)?;
        let Posts { ways, posts } = posts_of(alloc, cells)?;
        let threads = room_for(alloc, posts.len())?;
        let cells = room_for(alloc, posts.len())?;
        let shared = Arc::new(
            alloc,
            Shared {
                alloc,
                schema,
                front: Mutex::new(Front {
                    cell,
                    ways,
                    moving: None,
                }),
                seats: Mutex::new(Seats::new(alloc)),
                counter: AtomicU64::new(0),
                forced: AtomicU64::new(0),
                gate,
            },
        )?;
        let mut database = Database {
            shared,
            threads,
            cells,
        };
        match database.start_all(rt, posts) {
            Ok(()) => Ok(database),
            Err(memory) => {
                let _closed = database.close(rt);
                Err(Fault::from(memory))
            }
        }
    }

    /// A thread starts for each site.
    fn start_all<R: Threads + Wait + Copy + Send + 'static>(
        &mut self,
        rt: &R,
        posts: Vec<Post<S>>,
    ) -> Result<(), Memory> {
        for post in posts {
            self.start(rt, post)?;
        }
        Ok(())
    }

    /// A thread starts for a site.
    fn start<R: Threads + Wait + Copy + Send + 'static>(
        &mut self,
        rt: &R,
        post: Post<S>,
    ) -> Result<(), Memory> {
        let Post { cell, words } = post;
        let shared = Arc::try_clone(&self.shared)?;
        let handle = *rt;
        let started = thread::spawn(rt, move || {
            let cell = serve(&handle, &shared, &words, cell);
            drop(shared);
            cell
        });
        match started {
            Ok(thread) => Ok(self.threads.push(thread)?),
            Err(_) => Err(Memory),
        }
    }

    /// A new session, which has told nothing. It ends before the database is closed.
    pub fn session<R: Wait>(&self, _rt: &R) -> Result<Session<'_, D, G>, Memory>
        ensures told { IfOk result (λ session. session.told ≡ []) }
        ensures outside { IfOk result (λ session. session.is_open ≡ false) }
    {
        Session::new(self.shared.alloc, &self.shared)
    }

    /// Tells a site of the catalogue to restart, and to ask about its prepared rows then. It returns once that is told; a name of no
    /// site is passed over. No clause says so, since none follows a channel.
    pub fn restart_site<R: Wait>(&self, rt: &R, site: &Text) -> Result<(), Memory> {
        let front = self.shared.front.lock(rt);
        match front.way_to(site) {
            Some(to) => match to.send(rt, Word::Restart) {
                Ok(()) => Ok(()),
                Err(_) => Err(Memory),
            },
            None => Ok(()),
        }
    }

    /// Closes the database: each site takes what is on its way to it, and its thread ends. `Closed` where a cell can't be had back.
    pub fn close<R: Threads + Wait>(self, rt: &R) -> Result<Records<D, S>, CallFault>
        ensures { IfOk result (λ closed. AreRecords D.is_clean D.is_sound D.kept S.is_clean S.is_sound S.kept closed.records.machines closed.records.catalogs.items closed.records.opening closed.records.entries.items closed.records.pasts.items) }
    {
        let Database {
            shared,
            threads,
            cells,
        } = self;
        let alloc = shared.alloc;
        drop_ways(rt, &shared);
        let cells = join_all(rt, threads, cells);
        let Some(shared) = Arc::into_inner(shared) else {
            return Err(CallFault::Closed);
        };
        let Shared { front, forced, .. } = shared;
        let Front { cell, .. } = front.into_inner();
        match Histories::new(alloc, cell, cells) {
            Ok(records) => Ok(Records {
                records,
                forced: forced.into_inner(),
            }),
            Err(RecordsFault::Memory) => Err(CallFault::Memory),
            Err(RecordsFault::Strangers) => Err(CallFault::Closed),
        }
    }
}

/// An empty list, with room for so many.
fn room_for<T>(alloc: Global, count: usize) -> Result<Vec<T>, Memory> {
    Ok(Vec::with_capacity(alloc, count)?)
}

/// The ways to the sites are gone.
fn drop_ways<R: Wait, D: DeskStore, G>(rt: &R, shared: &Shared<D, G>) {
    let ways = mem::replace(&mut shared.front.lock(rt).ways, Vec::new(shared.alloc));
    drop(ways);
}

/// The cells of all threads, once these have ended. There is room for them.
fn join_all<R: Threads, S: SiteStore + Send + Drop + 'static>(
    rt: &R,
    threads: Vec<JoinHandle<SiteCell<S>>>,
    cells: Vec<SiteCell<S>>,
) -> Vec<SiteCell<S>> {
    let mut cells = cells;
    for thread in threads {
        let _ = cells.push(thread.join(rt));
    }
    cells
}

/// Ways to sites, and their ends.
fn posts_of<S: SiteStore + Drop>(
    alloc: Global,
    cells: Vec<SiteCell<S>>,
) -> Result<Posts<S>, Memory> {
    let mut ways = Vec::new(alloc);
    let mut posts = Vec::new(alloc);
    for cell in cells {
        let (to, words) = unbounded::<Word, Global>(alloc)?;
        let site = cell.name().copy()?;
        ways.push(Way { site, to })?;
        posts.push(Post { cell, words })?;
    }
    Ok(Posts { ways, posts })
}
