//! A site's store in memory.

ghost use Rattle.std.specs.Prelude.{◌≡◌, [], IfOk};
ghost use Rattle.std.specs.BTreeMap.{IsOrdered};
ghost use Rattle.std.specs.FinMap as fin;
ghost use Rattle.store.specs.Name.{ticket_cmp};
ghost use Rattle.store.specs.RowList.{rows_of};

use crate::changes::Changes;
use crate::fault::StoreFault;
use crate::name::{Ticket, Txn};
use crate::parts::Parts;
use crate::prepared::{Prepared, PreparedRow, SiteKept, SiteRows, Unkept};
use crate::site_store::SiteStore;
use std::alloc::Global;
use std::collections::BTreeMap;
use terms::cond::Conds;
use terms::copy::TryCopy;
use terms::leaf::Leaf;
use terms::memory::Memory;
use terms::part::Part;
use terms::seq::Seq;

/// A site's store in memory. It never refuses, and is never damaged.
#[derive(Debug, Drop)]
pub struct PlainSite {
    alloc: Global,
    parts: Parts,
    prepared: BTreeMap<Ticket, Prepared>,
    life: u64,
}

/// A list of prepared rows, by ticket.
fn list_rows(
    alloc: Global,
    prepared: &BTreeMap<Ticket, Prepared>,
) -> Result<Seq<PreparedRow>, Memory>
    ensures rows { IfOk result (λ rows. rows ≡ rows_of prepared.now.entries) }
    ensures ordered { IsOrdered ticket_cmp prepared.now }
{
    let _count = prepared.len();
    let mut rows = Vec::new(alloc);
    for (ticket, row) in prepared {
        rows.push(PreparedRow {
            ticket: *ticket,
            prepared: row.copy()?,
        })?;
    }
    Ok(Seq::new(rows))
}

impl PlainSite {
    ghost use Rattle.store.specs.PlainSite.{IsSound, HoldsParts, kept_of};
    ghost use Rattle.store.specs.SiteContent.{ListsRows};

    /// A store that keeps nothing yet.
    pub fn new(alloc: Global) -> PlainSite
        ensures sound { IsSound result }
        ensures parts { HoldsParts fin.empty result }
    {
        PlainSite::keeping(alloc, Parts::new(alloc))
    }

    /// A store that keeps the parts that changes make of nothing.
    pub fn with_parts(alloc: Global, parts: Changes) -> Result<PlainSite, Memory>
        ensures sound { IfOk result IsSound }
        ensures parts { IfOk result (HoldsParts parts) }
    {
        Ok(PlainSite::keeping(alloc, Parts::made_by(alloc, parts)?))
    }

    /// A store that keeps these parts.
    fn keeping(alloc: Global, parts: Parts) -> PlainSite
        ensures kept { result.parts ≡ parts }
        ensures none { result.prepared.entries ≡ [] }
        ensures life { result.life ≡ 0 }
    {
        PlainSite {
            alloc,
            parts,
            prepared: BTreeMap::new(alloc),
            life: 0,
        }
    }

    /// What is kept beside the parts.
    fn site_rows(&self) -> Result<SiteRows, Memory>
        ensures { IfOk result (ListsRows (kept_of self.now)) }
    {
        Ok(SiteRows {
            prepared: list_rows(self.alloc, &self.prepared)?,
            life: self.life,
        })
    }
}

impl SiteStore for PlainSite {
    ghost use Rattle.std.specs.Prelude.{ℕ};
    ghost use Rattle.store.specs.ContentLaws.{IsKeyed-made_by};
    ghost use Rattle.store.specs.PlainSite.{kept_of, IsSound};

    ghost is_clean = { λ _. Unit {0} };

    ghost is_sound = { IsSound };

    ghost kept = { kept_of };

    ghost refused = { λ _. 0 };

    ghost keyed = { λ store clean sound leaf. IsKeyed-made_by store.parts sound leaf };

    fn scan(&mut self, leaf: &Leaf, conds: &Conds) -> Result<Vec<Part>, StoreFault> {
        Ok(self.parts.list(leaf, conds)?)
    }

    fn find(&mut self, leaf: &Leaf, key: i64) -> Result<Option<Part>, StoreFault> {
        match self.parts.find(leaf, &key) {
            Some(part) => Ok(Some(part.copy()?)),
            None => Ok(None),
        }
    }

    fn keep_prepared(&mut self, txn: Txn, ticket: Ticket, changes: Changes) -> Result<(), Unkept> {
        match self.prepared.insert(ticket, Prepared { txn, changes }) {
            Ok(_) => Ok(()),
            Err(refused) => {
                let (_, prepared) = refused.value;
                Err(Unkept {
                    fault: StoreFault::Memory,
                    changes: prepared.changes,
                })
            }
        }
    }

    fn apply(&mut self, ticket: Ticket) -> Result<(), StoreFault> {
        let Some(prepared) = self.prepared.get(&ticket) else {
            return Ok(());
        };
        self.parts.make_rooms(&prepared.changes)?;
        let Some(prepared) = self.prepared.remove(&ticket) else {
            return Ok(());
        };
        self.parts.make(prepared.changes);
        Ok(())
    }

    fn discard(&mut self, ticket: Ticket) -> Result<(), StoreFault> {
        let _gone = self.prepared.remove(&ticket);
        Ok(())
    }

    fn next_incarnation(&mut self) -> Result<u64, StoreFault> {
        if self.life < u64::MAX {
            self.life += 1;
        }
        Ok(self.life)
    }

    fn rows(&mut self) -> Result<SiteRows, StoreFault> {
        let _count = self.parts.len();
        Ok(self.site_rows()?)
    }

    fn load(&mut self) -> Result<SiteKept, StoreFault> {
        Ok(SiteKept {
            parts: self.parts.changes()?,
            rows: self.site_rows()?,
        })
    }

    fn refusals(&self) -> u64 {
        0
    }
}
