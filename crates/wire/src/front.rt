//! What lies under the coordinator's lock: its cell, and the ways to the sites.

ghost use Rattle.std.specs.Borrow.{follows_so, sem};
ghost use mathlib.Core.Option.{none};
ghost use Rattle.std.specs.Prelude.{◌≡◌, ⊤, [], All, IfOk, IfSome, OnErr, Some};
ghost use Rattle.protocol.specs.Parts.{In};
ghost use Rattle.history.specs.Called.{DeskCalled};
ghost use Rattle.history.specs.DeskHistory.{StaysDesk};
ghost use Rattle.history.specs.contracts.desk_cell.DeskCell.{the_row};
ghost use Rattle.wire.specs.Front.{IsCalled, IsDone, IsOf, MayGiveUp, input_of};

use crate::seat::Given;
use crossbeam_channel::Sender;
use desk::reply::Notice;
use history::desk_cell::DeskCell;
use history::entry::Entry;
use std::alloc::Global;
use std::sync::Wait;
use std::sync::atomic::AtomicU64;
use store::desk_store::DeskStore;
use store::letter::Letter;
use store::name::Txn;
use terms::copy::TryCopy;
use terms::memory::Memory;
use terms::same::Same;
use terms::text::Text;
use world::fault::Fault;

/// How many replies of one call of the coordinator there is room for. A call puts out two at most.
const REPLIES: usize = 4;

/// What a site's thread is told.
#[derive(Drop)]
pub(crate) enum Word {
    /// A letter comes.
    Letter(Letter),
    /// The site restarts.
    Restart,
}

/// The way to a site's thread.
#[derive(Drop)]
pub(crate) struct Way {
    pub site: Text,
    pub to: Sender<Word>,
}

/// What the coordinator is called for.
#[derive(Clone, Copy)]
pub(crate) enum Errand<'a> {
    Begin,
    Refragment(&'a str),
    State(Txn, &'a str),
    Commit(Txn),
    Rollback(Txn),
    GiveUp(Txn),
    Take(&'a Letter),
}

/// What came of a call of the coordinator.
#[derive(Drop)]
pub(crate) struct Done {
    /// The replies that it put out.
    pub given: Vec<Given>,
    /// Those of the call that gave a transaction up, a letter of which was lost.
    pub given_up: Vec<Given>,
    /// The transaction of a letter that was lost, where memory ran out for giving it up too.
    pub stuck: Option<Txn>,
    /// Why the call was refused, if it was.
    pub fault: Option<Fault>,
}

/// What an entry of the coordinator says.
#[derive(Clone, Copy)]
struct Put {
    /// Why the call was refused, if it was.
    fault: Option<Fault>,
    /// The transaction of a letter that was lost, if one was.
    lost: Option<Txn>,
}

/// The coordinator with its history, and the ways to the sites' threads.
#[derive(Drop)]
pub(crate) struct Front<D: DeskStore> {
    pub cell: DeskCell<D>,
    pub ways: Vec<Way>,
    /// The transaction that last gave a relation another split, if one did.
    pub moving: Option<Txn>,
}

impl<D: DeskStore> Front<D> {
    /// Calls the coordinator. The letters that it puts out are in the sites' channels afterwards. One that finds no memory
    /// is lost, and its transaction is given up where there is room for that. Where memory runs out before the
    /// call, nothing has changed.
    pub fn call<R: Wait>(
        &mut self,
        rt: &R,
        alloc: Global,
        errand: Errand<'_>,
        counter: &AtomicU64,
    ) -> Result<Done, Memory>
        ensures ok { IfOk result (λ done. IsDone D.is_clean D.kept (input_of errand.entry) done self.old.cell self.new.cell) }
        ensures err { OnErr result (StaysDesk D.is_clean D.kept self.old.cell self.new.cell) }
        ensures ways { self.new.ways ≡ self.old.ways }
    {
        let mut given = Vec::with_capacity(alloc, REPLIES)?;
        let mut given_up = Vec::with_capacity(alloc, REPLIES)?;
        let Put { fault, lost } = self.put_through(rt, errand, counter, &mut given)?;
        let stuck = self.give_up(rt, lost, counter, &mut given_up);
        Ok(Done {
            given,
            given_up,
            stuck,
            fault,
        })
    }

    /// Gives a transaction up, a letter of which was lost, if one was. Where memory runs out it isn't, and is answered.
    #[tactic(auto, using(crate::proofs::Handed::gives_up))]
    fn give_up<R: Wait>(
        &mut self,
        rt: &R,
        lost: Option<Txn>,
        counter: &AtomicU64,
        given: &mut Vec<Given>,
    ) -> Option<Txn>
        requires { given.old.items ≡ [] }
        ensures stuck { IfSome result (λ txn. (lost ≡ Some txn) × (given.new.items ≡ [])) }
        ensures given_up { MayGiveUp D.is_clean D.kept self.old.cell self.new.cell given.new.items }
        ensures ways { self.new.ways ≡ self.old.ways }
    {
        if let Some(txn) = lost {
            let put = self.put_through(rt, Errand::GiveUp(txn), counter, given);
            if put.is_err() {
                return Some(txn);
            }
        }
        None
    }

    /// Calls the coordinator once, and puts out what the call's entry has. Where the coordinator's store refused the commit of a
    /// transaction that gives a relation another split, no site hears that it was aborted: whether the medium has the next
    /// catalogue's number after all shows at the next opening.
    fn put_through<R: Wait>(
        &mut self,
        rt: &R,
        errand: Errand<'_>,
        counter: &AtomicU64,
        given: &mut Vec<Given>,
    ) -> Result<Put, Memory>
        requires { given.old.items ≡ [] }
        ensures ok { IfOk result (λ put. IsCalled D.is_clean D.kept (input_of errand.entry) put.fault self.old.cell self.new.cell given.new.items) }
        ensures err { OnErr result (StaysDesk D.is_clean D.kept self.old.cell self.new.cell) }
        ensures none { OnErr result (given.new.items ≡ []) }
        ensures ways { self.new.ways ≡ self.old.ways }
    {
        let Front { cell, ways, moving } = self;
        let is_refragment = matches!(&errand, Errand::Refragment(_));
        let entry = call_cell(cell, errand, counter)?;
        copy_replies(entry, given);
        let letters = entry.letters.as_slice();
        if is_refragment && !letters.is_empty() {
            *moving = letters.first().map(|letter| letter.txn);
        }
        let withheld = if entry.kept { None } else { *moving };
        Ok(Put {
            fault: entry.fault,
            lost: post_all(rt, ways.as_slice(), letters, withheld),
        })
    }

    /// The way to the site of this name. No clause says whose it is, since none says where a channel leads.
    pub fn way_to(&self, site: &Text) -> Option<&Sender<Word>> {
        way_among(self.ways.as_slice(), site)
    }
}

/// Calls the coordinator's cell. Answers the call's entry; where memory runs out there is none, and the coordinator is as it was.
fn call_cell<'c, D: DeskStore>(
    cell: &'c mut DeskCell<D>,
    errand: Errand<'_>,
    counter: &AtomicU64,
) -> Result<&'c Entry, Memory>
    ensures* after { sem 𝓛 (follows_so (the_row D.row D.DeskStore) (the_row D.row D.DeskStore) cell.entry.ghost_name none (λ _ _. ⊤)
        (DeskCalled D.is_clean D.kept (input_of errand.entry) result cell.old)) }
{
    match errand {
        Errand::Begin => cell.begin(counter),
        Errand::Refragment(text) => cell.refragment(text, counter),
        Errand::State(txn, text) => cell.statement(txn, text, counter),
        Errand::Commit(txn) => cell.commit(txn, counter),
        Errand::Rollback(txn) => cell.rollback(txn, counter),
        Errand::GiveUp(txn) => cell.give_up(txn, counter),
        Errand::Take(letter) => cell.take(letter, counter),
    }
}

/// The way to the site of this name, among these.
fn way_among<'a>(ways: &'a [Way], site: &Text) -> Option<&'a Sender<Word>> {
    let way = ways.iter().find(|way| way.site.same(site))?;
    Some(&way.to)
}

/// Puts copies of an entry's replies behind others of the entry. There is room for so many as a call puts out.
#[tactic(auto, using(crate::proofs::Handed::is_among))]
fn copy_replies(entry: &Entry, given: &mut Vec<Given>)
    ensures { All (IsOf entry.now) given.old.items → All (IsOf entry.now) given.new.items }
{
    for notice in entry.replies.as_slice() {
        copy_reply(entry, notice, given);
    }
}

/// Puts a copy of one of an entry's replies behind others of the entry.
#[tactic(auto, using(crate::proofs::Handed::copy_more))]
fn copy_reply(entry: &Entry, notice: &Notice, given: &mut Vec<Given>)
    requires { In notice.now entry.now.replies }
    ensures { All (IsOf entry.now) given.old.items → All (IsOf entry.now) given.new.items }
{
    let _ = given.push(Given::of(entry.number, notice));
}

/// Sends copies of letters to their sites, but for those of a transaction that are withheld. Answers the transaction of one that was
/// lost, if one was.
fn post_all<R: Wait>(
    rt: &R,
    ways: &[Way],
    letters: &[Letter],
    withheld: Option<Txn>,
) -> Option<Txn> {
    let mut lost = None;
    for letter in letters {
        if withheld != Some(letter.txn) && !post(rt, ways, letter) {
            lost = Some(letter.txn);
        }
    }
    lost
}

/// Sends a copy of a letter to its site, and says whether it is on its way.
fn post<R: Wait>(rt: &R, ways: &[Way], letter: &Letter) -> bool {
    let Some(to) = way_among(ways, &letter.site) else {
        return false;
    };
    let Ok(copy) = letter.copy() else {
        return false;
    };
    to.send(rt, Word::Letter(copy)).is_ok()
}
