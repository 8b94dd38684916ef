//! A statement that is a transaction of its own.

ghost use Rattle.std.specs.Prelude.{◌≡◌, ◌++◌, false, filter, IfErr, IfOk, IfSome, OnOk, length};
ghost use Rattle.catalog.specs.FragmentLeaf.{schemas_of};
ghost use Rattle.catalog.specs.Relation.{catalogue_of};
ghost use Rattle.desk.specs.Does.{IsReadAs};
ghost use Rattle.desk.specs.declared.refusal.Refusal.TheVariants as refusals;
ghost use Rattle.world.specs.Client.{autocommit_reply, is_answer, is_commit, is_end, tells};
ghost use Rattle.world.specs.Commands.{IsDecided, IsLone, IsStated, TakesBack, heard_in};
ghost use Rattle.world.specs.Contents.{OfStores, counted};
ghost use Rattle.world.specs.Frame.{ComesTo};
ghost use Rattle.world.specs.Stopping.{is_stop};

use crate::client::{Begun, begin, commit, roll_back, state};
use crate::machines::Machines;
use desk::refusal::Refusal;
use desk::reply::{Notice, Reply};
use meaning::statement::Statement;
use store::desk_store::DeskStore;
use store::name::Txn;
use store::site_store::SiteStore;

/// Whether a refusal stops a client's database: memory ran out, or a store failed.
pub(crate) fn is_stop(refusal: &Refusal) -> bool
    ensures { result ≡ is_stop refusal.now }
{
    matches!(refusal, Refusal::Memory | Refusal::Store(_))
}

/// Whether a reply tells that a transaction has ended.
fn is_end(reply: &Reply) -> bool
    ensures { result ≡ is_end reply.now }
{
    matches!(
        reply,
        Reply::Committed | Reply::RolledBack | Reply::Aborted(_)
    )
}

/// Whether one of these notices tells that a transaction has ended.
pub(crate) fn tells_end(heard: &[Notice]) -> bool
    ensures { result ≡ tells is_end heard.now }
{
    heard.iter().any(|notice| is_end(&notice.reply))
}

/// Whether a reply is a statement's answer.
fn is_answer(reply: &Reply) -> bool
    ensures { result ≡ is_answer reply.now }
{
    matches!(reply, Reply::Answer(_))
}

/// The answers among these notices.
fn answers(heard: Vec<Notice>) -> Vec<Notice>
    ensures { result.items ≡ filter (λ notice. is_answer notice.reply) heard.items }
{
    let mut heard = heard;
    heard.retain(|notice| is_answer(&notice.reply));
    heard
}

/// The ends among these notices.
fn ends(heard: Vec<Notice>) -> Vec<Notice>
    ensures { result.items ≡ filter (λ notice. is_end notice.reply) heard.items }
{
    let mut heard = heard;
    heard.retain(|notice| is_end(&notice.reply));
    heard
}

/// What the client of a lone statement hears of all that was told: the answer where it was committed, and else how it ended.
fn autocommit_reply(heard: Vec<Notice>) -> Vec<Notice>
    ensures { result.items ≡ autocommit_reply heard.items }
{
    if tells_commit(heard.as_slice()) {
        answers(heard)
    } else {
        ends(heard)
    }
}

/// What was told before and since.
fn joined(told: Vec<Notice>, since: Vec<Notice>) -> Result<Vec<Notice>, Refusal>
    ensures all { IfOk result (λ all. all.items ≡ told.items ++ since.items) }
    ensures own { IfErr result (λ refusal. refusal ≡ refusals.Memory) }
{
    let mut told = told;
    add(&mut told, since)?;
    Ok(told)
}

/// What the client of a lone statement hears, of what was told before and since.
fn hears(told: Vec<Notice>, since: Vec<Notice>) -> Result<Vec<Notice>, Refusal>
    ensures heard { IfOk result (λ heard. heard.items ≡ autocommit_reply (told.items ++ since.items)) }
    ensures own { IfErr result (λ refusal. refusal ≡ refusals.Memory) }
{
    Ok(autocommit_reply(joined(told, since)?))
}

/// More is heard.
pub(crate) fn add(heard: &mut Vec<Notice>, more: Vec<Notice>) -> Result<(), Refusal>
    ensures ok { OnOk result (heard.new.items ≡ heard.old.items ++ more.items) }
    ensures own { IfErr result (λ refusal. refusal ≡ refusals.Memory) }
{
    let mut more = more;
    match heard.append(&mut more) {
        Ok(()) => Ok(()),
        Err(_) => Err(Refusal::Memory),
    }
}

/// Whether one of these notices tells that a transaction was committed.
pub(crate) fn tells_commit(heard: &[Notice]) -> bool
    ensures { result ≡ tells is_commit heard.now }
{
    heard
        .iter()
        .any(|notice| matches!(&notice.reply, Reply::Committed))
}

/// A transaction whose call was refused, which stops nothing, is rolled back. Answers what was refused, unless it is stopped now.
fn take_back<T, D: DeskStore, S: SiteStore>(
    machines: &mut Machines<D, S>,
    txn: Txn,
    refusal: Refusal,
) -> Result<T, Refusal>
    requires { is_stop refusal ≡ false }
    ensures { ComesTo (OfStores D.is_clean S.is_clean) (OfStores D.is_sound S.is_sound) (counted D.kept S.kept D.refused S.refused) machines.old machines.new result
        (λ db. TakesBack txn refusal) }
{
    match roll_back(machines, txn) {
        Ok(_heard) => Err(refusal),
        Err(other) => {
            if is_stop(&other) {
                return Err(other);
            }
            Err(refusal)
        }
    }
}

/// Of a lone statement this was told: its commit is asked for, unless it has ended by itself.
pub(crate) fn decide<D: DeskStore, S: SiteStore>(
    machines: &mut Machines<D, S>,
    txn: Txn,
    told: Vec<Notice>,
) -> Result<Vec<Notice>, Refusal>
    ensures { ComesTo (OfStores D.is_clean S.is_clean) (OfStores D.is_sound S.is_sound) (counted D.kept S.kept D.refused S.refused) machines.old machines.new result
        (λ db done moves. IsDecided txn told.items moves (heard_in (λ heard. heard.items) done)) }
{
    if tells_end(told.as_slice()) {
        return Ok(autocommit_reply(told));
    }
    match commit(machines, txn) {
        Ok(decided) => hears(told, decided),
        Err(refusal) => {
            if is_stop(&refusal) {
                return Err(refusal);
            }
            take_back(machines, txn, refusal)
        }
    }
}

/// A lone statement was answered so, after its transaction had begun.
fn go_on<D: DeskStore, S: SiteStore>(
    machines: &mut Machines<D, S>,
    txn: Txn,
    greeted: Vec<Notice>,
    answered: Vec<Notice>,
) -> Result<Vec<Notice>, Refusal>
    ensures { ComesTo (OfStores D.is_clean S.is_clean) (OfStores D.is_sound S.is_sound) (counted D.kept S.kept D.refused S.refused) machines.old machines.new result
        (λ db done moves. IsDecided txn (greeted.items ++ answered.items) moves (heard_in (λ heard. heard.items) done)) }
{
    match joined(greeted, answered) {
        Ok(told) => decide(machines, txn, told),
        Err(refusal) => Err(refusal),
    }
}

/// A transaction that has begun is that of a lone statement, by its text.
fn run_begun<D: DeskStore, S: SiteStore>(
    machines: &mut Machines<D, S>,
    begun: Begun,
    text: &str,
    known: Option<Statement>,
) -> Result<Vec<Notice>, Refusal>
    requires { IfSome known (IsReadAs (schemas_of (catalogue_of machines.old.desk.catalog)) text.now) }
    ensures { ComesTo (OfStores D.is_clean S.is_clean) (OfStores D.is_sound S.is_sound) (counted D.kept S.kept D.refused S.refused) machines.old machines.new result
        (λ db done moves. IsStated text.now begun.txn begun.heard.items moves (heard_in (λ heard. heard.items) done)) }
{
    let Begun { txn, heard } = begun;
    match state(machines, txn, text, known) {
        Ok(answered) => go_on(machines, txn, heard, answered),
        Err(refusal) => {
            if is_stop(&refusal) {
                return Err(refusal);
            }
            take_back(machines, txn, refusal)
        }
    }
}

/// What a text was read as, while the same number of catalogues come later: then the same one is in force.
fn still_read<D: DeskStore, S: SiteStore>(
    machines: &Machines<D, S>,
    later: usize,
    statement: Statement,
) -> Option<Statement>
    ensures { IfSome result (λ known. (known ≡ statement) × (length machines.now.desk.later.items ≡ later)) }
{
    if machines.desk.later().len() == later {
        Some(statement)
    } else {
        None
    }
}

/// A statement is a transaction of its own, by its text and what that was read as: its commit is asked for, unless it has ended by itself. Its client hears the
/// answer where it was committed, and else why not.
pub(crate) fn run_autocommit<D: DeskStore, S: SiteStore>(
    machines: &mut Machines<D, S>,
    text: &str,
    statement: Statement,
) -> Result<Vec<Notice>, Refusal>
    requires { IsReadAs (schemas_of (catalogue_of machines.old.desk.catalog)) text.now statement }
    ensures { ComesTo (OfStores D.is_clean S.is_clean) (OfStores D.is_sound S.is_sound) (counted D.kept S.kept D.refused S.refused) machines.old machines.new result
        (λ db done moves. IsLone text.now moves (heard_in (λ heard. heard.items) done)) }
{
    let later = machines.desk.later().len();
    match begin(machines) {
        Ok(begun) => {
            let known = still_read(machines, later, statement);
            run_begun(machines, begun, text, known)
        }
        Err(refusal) => Err(refusal),
    }
}
