//! Commit rows, the incarnation and the version, from the rows of the tables.

ghost use Rattle.std.specs.Prelude.{◌≡◌, ◌++◌, ◌∷◌, [], MatchOption, IfOk, OnOk, Some, None, true, if◌then◌else◌, unwrap_or};
ghost use Rattle.std.specs.BTreeMap as tree;
ghost use Rattle.std.specs.BTreeMap.{IsOrdered};
ghost use Rattle.std.specs.Bool.{Decides};
ghost use Rattle.std.specs.List.{AllByRecursion};
ghost use Rattle.store.specs.declared.name.Txn.{Txn as Of};
ghost use Rattle.store.specs.DeskContent.{Lists, is_txn};
ghost use Rattle.store.specs.Name.{txn_cmp};
ghost use Rattle.store.specs.RowList.{commits_of};
ghost use Rattle.sqlstore.specs.Content.{life_in};
ghost use Rattle.sqlstore.specs.Decided.{is_by, version_in, voter_in, voters_by};
ghost use Rattle.sqlstore.specs.DeskRows.{AreDeskRows, some_voters, told_by};
ghost use Rattle.sqlstore.specs.DeskSound.{HasNames, IsEpoch, IsVote};
ghost use Rattle.sqlstore.specs.Frame.{Tests};

use crate::cells::{int_in, natural_in, text_in};
use crate::desk_rows::DeskRows;
use crate::numbered::are_numbered;
use sqlite::Row;
use std::alloc::Global;
use std::collections::BTreeMap;
use std::str::from_utf8;
use store::commit::{CommitRow, DeskKept, Voter};
use store::fault::StoreFault;
use store::name::{Ticket, Txn};
use terms::copy::TryCopy;
use terms::memory::Memory;
use terms::seq::Seq;
use terms::text::Text;

/// A row's transaction and the ticket of its voter.
fn names_in(row: &Row) -> Option<(Txn, Ticket)>
    ensures { MatchOption result (¬ HasNames row.now) (λ names. HasNames row.now × (is_by names.0 row.now ≡ true) × (names.1 ≡ (voter_in row.now).ticket)) }
{
    let txn = Txn {
        life: natural_in(row, 1)?,
        number: natural_in(row, 2)?,
    };
    let ticket = Ticket {
        life: natural_in(row, 4)?,
        visit: natural_in(row, 5)?,
    };
    Some((txn, ticket))
}

/// A row's transaction and voter.
fn vote_in(alloc: Global, row: &Row) -> Result<(Txn, Voter), StoreFault>
    ensures vote { IfOk result (λ vote. (is_by vote.0 row.now ≡ true) × (vote.1 ≡ voter_in row.now)) }
    ensures tests { Tests (IsVote row.now) result }
{
    let Some((txn, ticket)) = names_in(row) else {
        return Err(StoreFault::Damaged);
    };
    let Ok(name) = from_utf8(text_in(row, 3)) else {
        return Err(StoreFault::Damaged);
    };
    let site = Text::copy_of(alloc, name)?;
    Ok((txn, Voter { site, ticket }))
}

/// Takes the voters of a transaction out of a map.
fn take_voters(commits: &mut BTreeMap<Txn, Seq<Voter>>, alloc: Global, txn: &Txn) -> Vec<Voter>
    ensures voters { result.items ≡ unwrap_or (tree.get txn_cmp commits.old txn.now) [] }
    ensures others { (other : Of) → tree.get txn_cmp commits.new other ≡ (if is_txn txn.now other then None else tree.get txn_cmp commits.old other) }
{
    match commits.remove(txn) {
        Some(voters) => voters.into_vec(),
        None => Vec::new(alloc),
    }
}

/// Puts a row's voter behind those of its transaction.
fn put_vote(
    commits: &mut BTreeMap<Txn, Seq<Voter>>,
    alloc: Global,
    row: &Row,
) -> Result<(), StoreFault>
    ensures ok { OnOk result ((txn : Of) → tree.get txn_cmp commits.new txn ≡ (if is_by txn row.now then Some (unwrap_or (tree.get txn_cmp commits.old txn) [] ++ voter_in row.now ∷ []) else tree.get txn_cmp commits.old txn)) }
    ensures tests { Tests (IsVote row.now) result }
{
    let (txn, voter) = match vote_in(alloc, row) {
        Ok(vote) => vote,
        Err(fault) => return Err(fault),
    };
    let mut voters = take_voters(commits, alloc, &txn);
    let Ok(()) = voters.push(voter) else {
        return Err(StoreFault::Memory);
    };
    match commits.insert(txn, Seq::new(voters)) {
        Ok(_) => Ok(()),
        Err(_) => Err(StoreFault::Memory),
    }
}

/// The voters of rows, by transaction.
fn voters_of(alloc: Global, rows: &[Row]) -> Result<BTreeMap<Txn, Seq<Voter>>, StoreFault>
    ensures ok { IfOk result (λ commits. (txn : Of) → tree.get txn_cmp commits txn ≡ some_voters (voters_by rows.now txn)) }
    ensures tests { Tests (AllByRecursion IsVote rows.now) result }
{
    let mut commits = BTreeMap::new(alloc);
    for row in rows {
        put_vote(&mut commits, alloc, row)?;
    }
    Ok(commits)
}

/// A list of commit rows, by transaction.
fn list_commits(
    alloc: Global,
    commits: &BTreeMap<Txn, Seq<Voter>>,
) -> Result<Seq<CommitRow>, Memory>
    ensures rows { IfOk result (λ rows. rows ≡ commits_of commits.now.entries) }
    ensures ordered { IsOrdered txn_cmp commits.now }
{
    let _count = commits.len();
    let mut rows = Vec::new(alloc);
    for (txn, voters) in commits {
        rows.push(CommitRow {
            txn: *txn,
            voters: voters.copy()?,
        })?;
    }
    Ok(Seq::new(rows))
}

fn is_epoch(row: &Row) -> bool
    ensures { Decides result (IsEpoch row.now) }
{
    int_in(row, 2) >= 0 && int_in(row, 3) >= 0
}

/// Whether neither incarnation nor version is below zero.
fn are_epochs(rows: &[Row]) -> bool
    ensures { Decides result (AllByRecursion IsEpoch rows.now) }
{
    rows.iter().all(is_epoch)
}

/// The incarnation and the version, where the rows are as the store leaves them: none has begun and the first is in force
/// where there is no row.
fn epoch_of(rows: &[Row]) -> Option<(u64, u64)>
    ensures { MatchOption result (¬ (AllByRecursion IsEpoch rows.now)) (λ epoch. AllByRecursion IsEpoch rows.now × (epoch.0 ≡ life_in rows.now) × (epoch.1 ≡ version_in rows.now)) }
{
    if !are_epochs(rows) {
        return None;
    }
    match rows.first() {
        Some(row) => Some((natural_in(row, 2)?, natural_in(row, 3)?)),
        None => Some((0, 1)),
    }
}

/// What rows keep.
pub fn kept_of(alloc: Global, rows: &DeskRows) -> Result<DeskKept, StoreFault>
    ensures all { IfOk result (Lists (told_by rows.now)) }
    ensures tests { Tests (AreDeskRows rows.now) result }
{
    if !are_numbered(&rows.votes) || !are_numbered(&rows.epoch) {
        return Err(StoreFault::Damaged);
    }
    let Some((life, version)) = epoch_of(&rows.epoch) else {
        return Err(StoreFault::Damaged);
    };
    let commits = voters_of(alloc, &rows.votes)?;
    Ok(DeskKept {
        commits: list_commits(alloc, &commits)?,
        life,
        version,
    })
}
