//! Databases for one client.

ghost use Rattle.std.specs.Prelude.{◌≡◌, is_some, map};
ghost use Rattle.catalog.specs.Relation.{catalogue_of};
ghost use Rattle.databases.specs.Client.{Seen};
ghost use Rattle.databases.specs.Serves.{Serves};
ghost use Rattle.lines.specs.Reply.{told_by};
ghost use Rattle.lines.specs.Script.{task_of};

use crate::client::answer;
use catalog::catalogue::Catalog;
use forms::mode::Mode;
use lines::fault::ProgramFault;
use lines::reply::Reply;
use lines::script::Item;
use std::alloc::Global;
use store::desk_store::DeskStore;
use store::site_store::SiteStore;
use world::solo::Solo;
use world::traffic::Traffic;

/// A database for one client, over whatever stores.
pub trait Database {
    /// How it is seen: its stores, its machines, where its client stands, and its catalogues.
    ghost seen: { Seen Self };

    /// What an item is answered by.
    fn answer<'a>(
        &mut self,
        alloc: Global,
        mode: Mode,
        item: Item<'_>,
    ) -> Result<Reply, ProgramFault<'a>>
        ensures { Serves seen mode (task_of item.entry) told_by self.old self.new result };

    /// The catalogue in force.
    fn catalog(&self) -> &Catalog
        ensures { catalogue_of result.now ≡ seen.catalogue self.now };

    /// The number of the catalogue in force, counted from 1.
    fn version(&self) -> u64
        ensures { result ≡ seen.version self.now };

    /// The catalogues that come after it, in their order.
    fn later(&self) -> &[Catalog]
        ensures { map catalogue_of result.now ≡ seen.later self.now };

    /// Whether the client has begun a transaction that has not ended.
    fn is_open(&self) -> bool
        ensures { result ≡ is_some (seen.current self.now) };

    /// What it has cost so far. No clause says that it has: what is counted is tested only.
    fn traffic(&self) -> Traffic;
}

impl<D: DeskStore, S: SiteStore> Database for Solo<D, S> {
    ghost use Rattle.databases.specs.Client.{seen_over};

    ghost seen = { seen_over D.is_clean S.is_clean D.is_sound S.is_sound D.kept S.kept D.refused S.refused };

    fn answer<'a>(
        &mut self,
        alloc: Global,
        mode: Mode,
        item: Item<'_>,
    ) -> Result<Reply, ProgramFault<'a>> {
        answer(alloc, mode, self, item)
    }

    fn catalog(&self) -> &Catalog {
        Solo::catalog(self)
    }

    fn version(&self) -> u64 {
        Solo::version(self)
    }

    fn later(&self) -> &[Catalog] {
        Solo::later(self)
    }

    fn is_open(&self) -> bool {
        Solo::is_open(self)
    }

    fn traffic(&self) -> Traffic {
        Solo::traffic(self)
    }
}
