//! An incarnation of the coordinator begins.

ghost use Rattle.std.specs.Prelude.{◌≡◌, ◌⊎◌, ◌+◌, ◌^◌, ◌≤◌, ◌<◌, true, false, [], map, Err, IfOk, IfErr, OnOk};
ghost use Rattle.std.specs.BTreeMap.{IsOrdered};
ghost use Rattle.std.specs.List.{find};
ghost use Rattle.std.specs.Option.{option_copied};
ghost use Rattle.store.specs.Fault.{HasRefused};
ghost use Rattle.store.specs.Name.{txn_cmp};
ghost use Rattle.store.specs.declared.fault.StoreFault.TheVariants as store_faults;
ghost use Rattle.desk.specs.declared.refusal.Refusal.TheVariants as refusals;
ghost use Rattle.desk.specs.Database.{Database};
ghost use Rattle.desk.specs.Frame.{BeginsOrFails, PutsOut, StepsInMemory};
ghost use Rattle.desk.specs.Recovery.{Restarts, Rises, SendsAgain, are_at, are_begun, commits_again, in_order, is_of, lost_among, may_stand, row_in_order, row_standing, rows_are_at, stood_by};
ghost use Rattle.desk.specs.State.{Fits, volatile_from, volatile_of};

use crate::acknowledge::add_commits;
use crate::refusal::{Refusal, store_refusal};
use crate::reply::{Notice, Out, Reply, Why};
use crate::send::is_among;
use crate::transaction::{Committed, TxnState, TxnStates};
use crate::volatile::{LAST, Volatile, add};
use std::alloc::Global;
use std::collections::BTreeMap;
use store::commit::{CommitRow, DeskKept, Voter};
use store::desk_store::DeskStore;
use store::fault::StoreFault;
use store::letter::Letter;
use terms::copy::TryCopy;
use terms::memory::Memory;
use terms::seq::Seq;
use terms::text::Text;

/// What stands as a life begins: the decided transactions of the store's rows. And a Commit to each of
/// their voters.
#[derive(Drop)]
pub(crate) struct Beginning {
    pub(crate) standings: TxnStates,
    pub(crate) letters: Vec<Letter>,
    pub(crate) life: u64,
    /// The catalogue's version.
    pub(crate) version: u64,
}

/// The voter of a site, if there is one among these.
fn find_voter<'a>(voters: &'a [Voter], site: &Text) -> Option<&'a Voter>
    ensures { option_copied result ≡ find (is_of site.now) voters.now }
{
    for voter in voters {
        if voter.site == *site {
            return Some(voter);
        }
    }
    None
}

/// Voters in the order of these sites.
fn in_order(alloc: Global, sites: &[Text], voters: &[Voter]) -> Result<Vec<Voter>, Memory>
    ensures { IfOk result (λ ordered. ordered.items ≡ in_order sites.now voters.now) }
{
    let mut ordered = Vec::new(alloc);
    for site in sites {
        if let Some(voter) = find_voter(voters, site) {
            ordered.push(voter.copy()?)?;
        }
    }
    Ok(ordered)
}

/// Rows, each with its voters in the order of these sites: a store's stand in any order.
fn rows_in_order(
    alloc: Global,
    sites: &[Text],
    rows: &[CommitRow],
) -> Result<Vec<CommitRow>, Memory>
    ensures { IfOk result (λ ordered. ordered.items ≡ map (row_in_order sites.now) rows.now) }
{
    let mut ordered = Vec::new(alloc);
    for row in rows {
        ordered.push(CommitRow {
            txn: row.txn,
            voters: Seq::new(in_order(alloc, sites, row.voters.as_slice())?),
        })?;
    }
    Ok(ordered)
}

/// A decided transaction of which no acknowledgement has come.
fn row_standing(alloc: Global, row: &CommitRow) -> Result<TxnState, Memory>
    ensures { IfOk result (λ standing. standing ≡ row_standing row.now) }
{
    Ok(TxnState::Committed(Committed {
        voters: row.voters.copy()?,
        acked: Seq::new(Vec::new(alloc)),
    }))
}

/// Whether the transactions of these rows were begun, in this life or before.
fn are_begun(life: u64, rows: &[CommitRow]) -> bool
    ensures { result ≡ are_begun life rows.now }
{
    rows.iter().all(|row| row.txn.life <= life)
}

/// Whether each of these voters is at one of these sites.
fn are_at(sites: &[Text], voters: &[Voter]) -> bool
    ensures { result ≡ are_at sites.now voters.now }
{
    voters.iter().all(|voter| is_among(&voter.site, sites))
}

/// Whether each voter of these rows is at one of these sites.
fn rows_are_at(sites: &[Text], rows: &[CommitRow]) -> bool
    ensures { result ≡ rows_are_at sites.now rows.now }
{
    rows.iter().all(|row| are_at(sites, row.voters.as_slice()))
}

/// Whether rows can be those of a coordinator of these sites.
fn may_stand(life: u64, sites: &[Text], rows: &[CommitRow]) -> bool
    ensures { result ≡ may_stand life sites.now rows.now }
{
    are_begun(life, rows) && rows_are_at(sites, rows)
}

/// Each row stands.
fn rest(alloc: Global, rows: &[CommitRow]) -> Result<TxnStates, Refusal>
    ensures standings { IfOk result (λ standings. standings.entries ≡ stood_by rows.now []) }
    ensures ordered { IfOk result (λ standings. IsOrdered txn_cmp standings) }
    ensures refusal { IfErr result (λ refusal. refusal ≡ refusals.Memory) }
{
    let mut standings = BTreeMap::new(alloc);
    for row in rows {
        add(&mut standings, row.txn, row_standing(alloc, row)?)?;
    }
    let _count = standings.len();
    Ok(standings)
}

/// A Commit to each voter of each row.
fn commits_again(alloc: Global, rows: &[CommitRow]) -> Result<Vec<Letter>, Memory>
    ensures { IfOk result (λ letters. letters.items ≡ commits_again rows.now) }
{
    let mut letters = Vec::new(alloc);
    for row in rows {
        add_commits(&mut letters, row.txn, row.voters.as_slice())?;
    }
    Ok(letters)
}

/// The clients of undecided transactions hear that a restart aborted them.
pub(crate) fn lost(volatile: &Volatile) -> Result<Vec<Notice>, Memory>
    ensures notices { IfOk result (λ notices. notices.items ≡ lost_among volatile.now.standings.entries) }
    ensures ordered { IsOrdered txn_cmp volatile.now.standings }
{
    let _count = volatile.standings.len();
    let mut notices = Vec::new(volatile.alloc);
    for (txn, standing) in &volatile.standings {
        if let TxnState::Undecided(_) = standing {
            notices.push(Notice {
                txn: *txn,
                reply: Reply::Aborted(Why::Restart),
            })?;
        }
    }
    Ok(notices)
}

/// What stands by all that a store keeps, and a Commit to each of its voters, before the next life begins. Full where there is no
/// next life, and damage where the rows can be no coordinator's of these sites.
fn stands_by(alloc: Global, sites: &[Text], all: &DeskKept) -> Result<Beginning, Refusal>
    ensures standings { IfOk result (λ begun. begun.standings.entries ≡ stood_by (map (row_in_order sites.now) all.now.commits) []) }
    ensures letters { IfOk result (λ begun. begun.letters.items ≡ commits_again (map (row_in_order sites.now) all.now.commits)) }
    ensures version { IfOk result (λ begun. begun.version ≡ all.now.version) }
    ensures ordered { IfOk result (λ begun. IsOrdered txn_cmp begun.standings) }
    ensures below { OnOk result (all.now.life + 1 < 2 ^ 63) }
    ensures may_stand { OnOk result (may_stand all.now.life sites.now all.now.commits ≡ true) }
    ensures full { result ≡ Err refusals.Full → 2 ^ 63 ≤ all.now.life + 1 }
    ensures damaged { result ≡ Err (refusals.Store store_faults.Damaged) → may_stand all.now.life sites.now all.now.commits ≡ false }
    ensures own { IfErr result (λ told. (told ≡ refusals.Memory) ⊎ (told ≡ refusals.Full) ⊎ (told ≡ refusals.Store store_faults.Damaged)) }
{
    if all.life >= LAST {
        return Err(Refusal::Full);
    }
    let commits = all.commits.as_slice();
    if !may_stand(all.life, sites, commits) {
        return Err(Refusal::Store(StoreFault::Damaged));
    }
    let rows = rows_in_order(alloc, sites, commits)?;
    let standings = rest(alloc, &rows)?;
    let letters = commits_again(alloc, &rows)?;
    Ok(Beginning {
        standings,
        letters,
        life: all.life,
        version: all.version,
    })
}

/// Loads what the store keeps, and begins the next life over these sites. On a refusal nothing has changed.
pub(crate) fn begin<S: DeskStore>(
    store: &mut S,
    alloc: Global,
    sites: &[Text],
) -> Result<Beginning, Refusal>
    ensures begins { BeginsOrFails S.is_clean S.is_sound S.kept S.refused sites.now store.old store.new result }
    ensures rises { (db : Database) → db.sites ≡ sites.now → S.is_clean store.new → IfOk result (λ begun. Rises db (S.kept store.new) (volatile_from begun.standings.entries 0 begun.life 0 begun.version)) }
    ensures letters { S.is_clean store.new → IfOk result (λ begun. SendsAgain sites.now (S.kept store.new) begun.letters.items) }
    ensures ordered { IfOk result (λ begun. IsOrdered txn_cmp begun.standings) }
    ensures refusal { result ≡ Err (refusals.Store store_faults.Refused) → HasRefused (S.refused store.old) (S.refused store.new) }
{
    let all = match store.load() {
        Ok(all) => all,
        Err(fault) => return Err(store_refusal(fault)),
    };
    let begun = stands_by(alloc, sites, &all)?;
    match store.next_incarnation() {
        Ok(life) => Ok(Beginning { life, ..begun }),
        Err(fault) => Err(store_refusal(fault)),
    }
}

/// The coordinator restarts: who was undecided is lost, and the next life begins. On a refusal nothing has
/// changed.
pub(crate) fn restart<S: DeskStore>(
    store: &mut S,
    volatile: &mut Volatile,
    sites: &[Text],
) -> Result<Out, Refusal>
    ensures begins { BeginsOrFails S.is_clean S.is_sound S.kept S.refused sites.now store.old store.new result }
    ensures ok { (db : Database) → db.sites ≡ sites.now → S.is_clean store.new → Fits db (S.kept store.old) (volatile_of volatile.old)
        → IfOk result (λ out. Restarts db (volatile_of volatile.old) (S.kept store.new) (volatile_of volatile.new) out.letters out.replies) }
    ensures rises { (db : Database) → db.sites ≡ sites.now → S.is_clean store.new → OnOk result (Rises db (S.kept store.new) (volatile_of volatile.new)) }
    ensures steps { StepsInMemory volatile.old volatile.new result }
    ensures refusal { result ≡ Err (refusals.Store store_faults.Refused) → HasRefused (S.refused store.old) (S.refused store.new) }
{
    let replies = lost(volatile)?;
    match begin(store, volatile.alloc, sites) {
        Ok(begun) => Ok(rise(volatile, begun, replies)),
        Err(refusal) => Err(refusal),
    }
}

/// What was in memory is lost, and a life has begun.
fn rise(volatile: &mut Volatile, begun: Beginning, replies: Vec<Notice>) -> Out
    ensures begun { volatile_of volatile.new ≡ volatile_from begun.standings.entries 0 begun.life 0 begun.version }
    ensures puts_out { PutsOut result begun.letters.items replies.items }
    ensures ordered { IsOrdered txn_cmp volatile.old.standings }
{
    let Beginning {
        standings,
        letters,
        life,
        version,
    } = begun;
    volatile.restart(standings, life, version);
    Out {
        letters: Seq::new(letters),
        replies: Seq::new(replies),
        kept: true,
    }
}
