//! How the transactions of a schedule are named.

ghost use Rattle.std.specs.Prelude.{◌≡◌, [], OnOk, OnErr};
ghost use Rattle.std.specs.BTreeMap.{insert_entry};
ghost use Rattle.std.specs.Cmp.Lexicographic.{slice_cmp};
ghost use Rattle.std.specs.Ordering.{nat_cmp};
ghost use Rattle.store.specs.Name.{txn_cmp};
ghost use Rattle.lines.specs.Cast.{name_of, txn_of};

use std::alloc::Global;
use std::collections::BTreeMap;
use store::name::Txn;
use terms::copy::TryCopy;
use terms::memory::Memory;
use terms::text::Text;

/// Which transaction was begun under which name.
#[derive(Drop)]
pub struct Cast {
    txns: BTreeMap<Text, Txn>,
    names: BTreeMap<Txn, Text>,
}

impl Cast {
    /// Nobody was named yet.
    pub fn new(alloc: Global) -> Cast
        ensures txns { result.txns.entries ≡ [] }
        ensures names { result.names.entries ≡ [] }
    {
        Cast {
            txns: BTreeMap::new(alloc),
            names: BTreeMap::new(alloc),
        }
    }

    /// The transaction that was begun under this name, if one was.
    pub fn txn(&self, name: &Text) -> Option<Txn>
        ensures { result ≡ txn_of self.now name.now }
    {
        self.txns.get(name).copied()
    }

    /// The name of a transaction, nothing where it was not begun by a line.
    pub fn name(&self, txn: Txn) -> &str
        ensures { result.now ≡ name_of self.now txn }
    {
        match self.names.get(&txn) {
            Some(name) => name.as_str(),
            None => "",
        }
    }

    /// A transaction was begun under this name. Without memory it may be found under the name already, and no
    /// transaction's name has changed.
    pub fn put(&mut self, name: &Text, txn: Txn) -> Result<(), Memory>
        ensures txns { OnOk result (self.new.txns.entries ≡ insert_entry (slice_cmp nat_cmp) self.old.txns.entries name.now txn) }
        ensures names { OnOk result (self.new.names.entries ≡ insert_entry txn_cmp self.old.names.entries txn name.now) }
        ensures err { OnErr result (self.new.names.entries ≡ self.old.names.entries) }
    {
        self.txns.insert(name.copy()?, txn)?;
        self.names.insert(txn, name.copy()?)?;
        Ok(())
    }
}
