//! A walk through all parts. No more than two rows are held at a time.

ghost use Rattle.std.specs.Prelude.{◌≡◌, ◌≢◌, true, false, if◌then◌else◌, OnOk, Err};
ghost use Rattle.std.specs.Bool.{Decides};
ghost use Rattle.std.specs.FinMap as map;
ghost use Rattle.sqlite.specs.Held.{state};
ghost use Rattle.store.specs.declared.fault.StoreFault.TheVariants.{Damaged};
ghost use Rattle.sqlstore.specs.Listed.{HasCells, with_row};
ghost use Rattle.sqlstore.specs.Sound.{IsPart};
ghost use Rattle.sqlstore.specs.Walk.{AreParts, FollowsLast, HasWalked};
ghost use Rattle.sqlstore.specs.Frame.{CountsRefusals, FailsUnless, ReadsOn, WalksParts};

use crate::blame::blame;
use crate::listing::{part_row, put_row};
use crate::numbered::{follows, number};
use sqlite::{Alter, Connection, Row, Rows};
use std::alloc::Global;
use store::changes::Changes;
use store::fault::StoreFault;
use terms::leaf::Leaf;

/// The next row of a query, if there is one.
fn next_row<S: Alter>(rows: &mut Rows<'_, S>, refusals: &mut u64) -> Result<Option<Row>, StoreFault>
    ensures reads { ReadsOn S.Store rows.old.conn rows.new.conn result }
    ensures counted { CountsRefusals refusals.old refusals.new result }
    ensures intact { result ≢ Err Damaged }
{
    if let Err(error) = rows.advance() {
        return Err(blame(refusals, error));
    }
    let Some(row) = rows.get() else {
        return Ok(None);
    };
    match row.copy() {
        Ok(row) => Ok(Some(row)),
        Err(_) => Err(StoreFault::Memory),
    }
}

/// Whether a row has a number, and follows the row before it, if there is one.
fn follows_last(before: &Option<Row>, row: &Row) -> bool
    ensures { Decides result (FollowsLast before.now row.now) }
{
    match before {
        Some(before) => follows(before, row),
        None => number(row).is_some(),
    }
}

/// A row is a part, of a leaf of the site and under its own key.
fn check_part(alloc: Global, leaves: &[Leaf], row: &Row) -> Result<(), StoreFault>
    ensures ok { OnOk result (IsPart leaves.now row.now) }
    ensures fails { FailsUnless (HasCells row.now × IsPart leaves.now row.now) result }
{
    match part_row(alloc, leaves, row) {
        Ok(_) => Ok(()),
        Err(fault) => Err(fault),
    }
}

/// A row follows the row before it and is a part, which is put into changes where parts are kept.
fn meet_row(
    changes: &mut Changes,
    keeps: bool,
    alloc: Global,
    leaves: &[Leaf],
    before: &Option<Row>,
    row: &Row,
) -> Result<(), StoreFault>
    ensures ok { OnOk result (FollowsLast before.now row.now × IsPart leaves.now row.now × (changes.new ≡ (if keeps then with_row leaves.now row.now changes.old else changes.old))) }
    ensures fails { FailsUnless (FollowsLast before.now row.now × HasCells row.now × IsPart leaves.now row.now) result }
{
    if !follows_last(before, row) {
        return Err(StoreFault::Damaged);
    }
    if keeps {
        put_row(changes, alloc, leaves, row)
    } else {
        check_part(alloc, leaves, row)
    }
}

/// Walks through all parts, and puts them into changes where they are kept.
fn walk<S: Alter>(
    conn: &mut Connection<S>,
    refusals: &mut u64,
    alloc: Global,
    leaves: &[Leaf],
    changes: &mut Changes,
    keeps: bool,
) -> Result<(), StoreFault>
    requires { conn.old.in_transaction ≡ false }
    ensures walks { WalksParts leaves.now (λ db _. HasWalked leaves.now (db.trees 0) keeps changes.old changes.new) (state S.Store conn.old) (state S.Store conn.new) result }
    ensures counted { CountsRefusals refusals.old refusals.new result }
{
    let _live = conn.schema();
    let _settled = conn.is_autocommit();
    let mut rows = match conn.query("SELECT rowid, leaf, id, body FROM part ORDER BY rowid", &[]) {
        Ok(rows) => rows,
        Err(error) => return Err(blame(refusals, error)),
    };
    let mut before = None;
    'rows: for _ in 0..u64::MAX {
        let Some(row) = next_row(&mut rows, refusals)? else {
            return Ok(());
        };
        meet_row(changes, keeps, alloc, leaves, &before, &row)?;
        before = Some(row);
    }
    Err(StoreFault::Memory)
}

/// Each part is as a store leaves it.
pub fn check_parts<S: Alter>(
    conn: &mut Connection<S>,
    refusals: &mut u64,
    alloc: Global,
    leaves: &[Leaf],
) -> Result<(), StoreFault>
    requires { conn.old.in_transaction ≡ false }
    ensures walks { WalksParts leaves.now (λ db _. AreParts leaves.now (db.trees 0)) (state S.Store conn.old) (state S.Store conn.new) result }
    ensures counted { CountsRefusals refusals.old refusals.new result }
{
    let mut none = Changes::new(alloc);
    walk(conn, refusals, alloc, leaves, &mut none, false)
}

/// All parts, where each is as a store leaves it: the changes that make them of nothing.
pub fn load_parts<S: Alter>(
    conn: &mut Connection<S>,
    refusals: &mut u64,
    alloc: Global,
    leaves: &[Leaf],
) -> Result<Changes, StoreFault>
    requires { conn.old.in_transaction ≡ false }
    ensures walks { WalksParts leaves.now (λ db changes. HasWalked leaves.now (db.trees 0) true map.empty changes) (state S.Store conn.old) (state S.Store conn.new) result }
    ensures counted { CountsRefusals refusals.old refusals.new result }
{
    let mut changes = Changes::new(alloc);
    match walk(conn, refusals, alloc, leaves, &mut changes, true) {
        Ok(()) => Ok(changes),
        Err(fault) => Err(fault),
    }
}
