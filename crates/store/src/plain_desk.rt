//! The coordinator's store in memory.

ghost use Rattle.std.specs.Prelude.{◌≡◌, IfOk};
ghost use Rattle.std.specs.BTreeMap.{IsOrdered};
ghost use Rattle.store.specs.Name.{txn_cmp};
ghost use Rattle.store.specs.RowList.{commits_of};

use crate::commit::{CommitRow, DeskKept, Voter};
use crate::desk_store::DeskStore;
use crate::fault::StoreFault;
use crate::name::Txn;
use std::alloc::Global;
use std::collections::BTreeMap;
use terms::copy::{TryCopy, copy_all};
use terms::memory::Memory;
use terms::seq::Seq;

/// The coordinator's store in memory. It never refuses, and is never damaged.
#[derive(Debug, Drop)]
pub struct PlainDesk {
    alloc: Global,
    commits: BTreeMap<Txn, Seq<Voter>>,
    life: u64,
    version: u64,
}

/// A list of commit rows, by transaction.
fn list_commits(
    alloc: Global,
    commits: &BTreeMap<Txn, Seq<Voter>>,
) -> Result<Seq<CommitRow>, Memory>
    ensures rows { IfOk result (λ rows. rows ≡ commits_of commits.now.entries) }
    ensures ordered { IsOrdered txn_cmp commits.now }
{
    let _count = commits.len();
    let mut rows = Vec::new(alloc);
    for (txn, voters) in commits {
        rows.push(CommitRow {
            txn: *txn,
            voters: voters.copy()?,
        })?;
    }
    Ok(Seq::new(rows))
}

impl PlainDesk {
    ghost use Rattle.store.specs.PlainDesk.{KeepsNothing};

    /// A store that keeps no commit row yet, with the catalogue's first version.
    pub fn new(alloc: Global) -> PlainDesk
        ensures { KeepsNothing result }
    {
        PlainDesk {
            alloc,
            commits: BTreeMap::new(alloc),
            life: 0,
            version: 1,
        }
    }
}

impl DeskStore for PlainDesk {
    ghost use Rattle.std.specs.Prelude.{ℕ};
    ghost use Rattle.store.specs.PlainDesk.{kept_of};

    ghost is_clean = { λ _. Unit {0} };

    ghost is_sound = { λ _. Unit {0} };

    ghost kept = { kept_of };

    ghost refused = { λ _. 0 };

    fn keep_commit(&mut self, txn: Txn, voters: &[Voter], version: u64) -> Result<(), StoreFault> {
        if voters.is_empty() {
            self.version = version;
            return Ok(());
        }
        let voters = Seq::new(copy_all(self.alloc, voters)?);
        let Ok(_) = self.commits.insert(txn, voters) else {
            return Err(StoreFault::Memory);
        };
        self.version = version;
        Ok(())
    }

    fn drop_commit(&mut self, txn: Txn) -> Result<(), StoreFault> {
        let _gone = self.commits.remove(&txn);
        Ok(())
    }

    fn next_incarnation(&mut self) -> Result<u64, StoreFault> {
        if self.life < u64::MAX {
            self.life += 1;
        }
        Ok(self.life)
    }

    fn load(&mut self) -> Result<DeskKept, StoreFault> {
        Ok(DeskKept {
            commits: list_commits(self.alloc, &self.commits)?,
            life: self.life,
            version: self.version,
        })
    }

    fn refusals(&self) -> u64 {
        0
    }
}
