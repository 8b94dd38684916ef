//! Prepared rows and the incarnation, from the rows of the tables.

ghost use Rattle.std.specs.Prelude.{◌≡◌, ◌≤ℤ◌, pos, MatchOption, IfOk, OnOk, Some, true, if◌then◌else◌, [], unsigned_abs};
ghost use Rattle.std.specs.Bool.{Decides};
ghost use Rattle.std.specs.BTreeMap as tree;
ghost use Rattle.std.specs.BTreeMap.{IsOrdered};
ghost use Rattle.std.specs.FinMap as fin;
ghost use Rattle.std.specs.List.{AllByRecursion};
ghost use Rattle.store.specs.declared.name.Ticket.{Ticket as Visit};
ghost use Rattle.store.specs.Name.{ticket_cmp};
ghost use Rattle.store.specs.RowList.{rows_of};
ghost use Rattle.store.specs.SiteContent.{ListsRows};
ghost use Rattle.sqlstore.specs.Cells.{int_at};
ghost use Rattle.sqlstore.specs.Content.{changes_in, is_of, kept_of, life_in, prepared_in, row_as};
ghost use Rattle.sqlstore.specs.Gathered.{gathered, AreAllNumbered, AreBegun, HasChanges, IsPromised};
ghost use Rattle.sqlstore.specs.Sound.{IsIntent, IsNumbered, IsStored};
ghost use Rattle.sqlstore.specs.Frame.{FailsUnless, Tests};

use crate::cells::{int_in, natural_in, ticket_in};
use crate::gathered::Gathered;
use crate::intended::put_own;
use crate::numbered::are_numbered;
use sqlite::Row;
use std::alloc::Global;
use std::collections::BTreeMap;
use store::changes::Changes;
use store::fault::StoreFault;
use store::name::{Ticket, Txn};
use store::prepared::{Prepared, PreparedRow, SiteRows};
use terms::copy::TryCopy;
use terms::leaf::Leaf;
use terms::memory::Memory;
use terms::seq::Seq;

/// A row's ticket and transaction.
fn names_in(row: &Row) -> Option<(Ticket, Txn)>
    ensures { MatchOption result (¬ IsNumbered row.now) (λ names. IsNumbered row.now × (is_of names.0 row.now ≡ true) × (names.1 ≡ record { life = unsigned_abs (int_at row.now 3); number = unsigned_abs (int_at row.now 4) })) }
{
    let ticket = ticket_in(row)?;
    let txn = Txn {
        life: natural_in(row, 3)?,
        number: natural_in(row, 4)?,
    };
    Some((ticket, txn))
}

/// Puts a row that prepares nothing yet into a map.
fn put_prepared(
    map: &mut BTreeMap<Ticket, Prepared>,
    alloc: Global,
    row: &Row,
) -> Result<(), StoreFault>
    ensures ok { OnOk result ((ticket : Visit) → tree.get ticket_cmp map.new ticket ≡ (if is_of ticket row.now then Some (row_as row.now fin.empty) else tree.get ticket_cmp map.old ticket)) }
    ensures tests { Tests (IsNumbered row.now) result }
{
    let Some((ticket, txn)) = names_in(row) else {
        return Err(StoreFault::Damaged);
    };
    let changes = Changes::new(alloc);
    match map.insert(ticket, Prepared { txn, changes }) {
        Ok(_) => Ok(()),
        Err(_) => Err(StoreFault::Memory),
    }
}

/// The rows by their tickets, with no changes yet.
fn tickets_of(alloc: Global, rows: &[Row]) -> Result<BTreeMap<Ticket, Prepared>, StoreFault>
    ensures ok { IfOk result (λ map. (ticket : Visit) → tree.get ticket_cmp map ticket ≡ prepared_in rows.now fin.empty ticket) }
    ensures tests { Tests (AllByRecursion IsNumbered rows.now) result }
{
    let mut map = BTreeMap::new(alloc);
    let mut at = rows.len();
    while at > 0 {
        at -= 1;
        put_prepared(&mut map, alloc, &rows[at])?;
    }
    Ok(map)
}

/// What rows prepare, by ticket: each intent is put into the changes of its ticket's row.
fn prepared_of(
    alloc: Global,
    leaves: &[Leaf],
    rows: &[Row],
    intents: &[Row],
) -> Result<BTreeMap<Ticket, Prepared>, StoreFault>
    ensures ok { IfOk result (λ map. (ticket : Visit) → tree.get ticket_cmp map ticket ≡ prepared_in rows.now (changes_in leaves.now intents.now ticket) ticket) }
    ensures tests { Tests (AllByRecursion IsNumbered rows.now × AllByRecursion (λ intent. IsIntent leaves.now intent × IsPromised rows.now intent) intents.now) result }
{
    let mut map = tickets_of(alloc, rows)?;
    let mut at = intents.len();
    while at > 0 {
        at -= 1;
        put_own(&mut map, alloc, leaves, &intents[at])?;
    }
    Ok(map)
}

/// A list of prepared rows, by ticket.
fn list_prepared(
    alloc: Global,
    map: &BTreeMap<Ticket, Prepared>,
) -> Result<Seq<PreparedRow>, Memory>
    ensures rows { IfOk result (λ rows. rows ≡ rows_of map.now.entries) }
    ensures ordered { IsOrdered ticket_cmp map.now }
{
    let _count = map.len();
    let mut rows = Vec::new(alloc);
    for (ticket, row) in map {
        rows.push(PreparedRow {
            ticket: *ticket,
            prepared: row.copy()?,
        })?;
    }
    Ok(Seq::new(rows))
}

fn is_begun(row: &Row) -> bool
    ensures { Decides result (pos 0 ≤ℤ int_at row.now 2) }
{
    int_in(row, 2) >= 0
}

/// Whether no incarnation is below zero.
fn are_begun(rows: &[Row]) -> bool
    ensures { Decides result (AreBegun rows.now) }
{
    rows.iter().all(is_begun)
}

/// The incarnation that rows say: none has begun where there is no row.
fn life_of(rows: &[Row]) -> Option<u64>
    ensures { MatchOption result (¬ AreBegun rows.now) (λ life. AreBegun rows.now × (life ≡ life_in rows.now)) }
{
    if !are_begun(rows) {
        return None;
    }
    match rows.first() {
        Some(row) => natural_in(row, 2),
        None => Some(0),
    }
}

/// Whether each row has a number of its own.
fn are_all_numbered(tables: &Gathered) -> bool
    ensures { Decides result (AreAllNumbered tables.now) }
{
    are_numbered(&tables.prepared) && are_numbered(&tables.intents) && are_numbered(&tables.state)
}

/// Whether each row changes something.
fn are_intended(rows: &[PreparedRow]) -> bool
    ensures { Decides result (AllByRecursion HasChanges rows.now) }
{
    rows.iter().all(has_changes)
}

fn has_changes(row: &PreparedRow) -> bool
    ensures { Decides result (HasChanges row.now) }
{
    !row.prepared.changes.is_empty()
}

/// What tables keep beside the parts.
pub fn site_rows(alloc: Global, leaves: &[Leaf], tables: &Gathered) -> Result<SiteRows, StoreFault>
    ensures all { IfOk result (ListsRows (kept_of leaves.now (gathered [] tables.now))) }
    ensures learnt { OnOk result (IsStored leaves.now (gathered [] tables.now)) }
    ensures fails { FailsUnless (IsStored leaves.now (gathered [] tables.now) × AreAllNumbered tables.now) result }
{
    if !are_all_numbered(tables) {
        return Err(StoreFault::Damaged);
    }
    let Some(life) = life_of(&tables.state) else {
        return Err(StoreFault::Damaged);
    };
    let map = prepared_of(alloc, leaves, &tables.prepared, &tables.intents)?;
    let prepared = list_prepared(alloc, &map)?;
    if !are_intended(prepared.as_slice()) {
        return Err(StoreFault::Damaged);
    }
    Ok(SiteRows { prepared, life })
}
