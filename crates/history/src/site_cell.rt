//! A site with its history: each call of it adds one entry.

ghost use Rattle.std.specs.Borrow.{follows_so, sem};
ghost use mathlib.Core.Option.{none};
ghost use Rattle.std.specs.Prelude.{◌≡◌, ⊤, [], not, IfErr, IfOk, OnErr};
ghost use Rattle.protocol.specs.Letters.{kept_in};
ghost use Rattle.store.specs.Frame.{LeavesStore};
ghost use Rattle.site.specs.Locks.{leaves_in};
ghost use Rattle.site.specs.Recovery.{Begins};
ghost use Rattle.site.specs.Seat.{IsSeated, seat_from};
ghost use Rattle.site.specs.State.{volatile_of};
ghost use Rattle.history.specs.declared.entry.Input.TheVariants as inputs;
ghost use Rattle.history.specs.Called.{SiteCalled};
ghost use Rattle.history.specs.SiteHistory.{SiteHolds, SiteMoves, action_of};
ghost use Rattle.history.specs.contracts.site_cell.SiteCell.{the_row};

use crate::entry::{Entry, Input};
use desk::reply::Out;
use site::fault::SiteFault;
use site::site::Site;
use std::alloc::Global;
use std::marker::Model;
use std::sync::atomic::AtomicU64;
use store::letter::{Body, Letter};
use store::name::Ticket;
use store::prepared::SiteKept;
use store::reply::{Reply, Vote, Voted};
use store::site_store::SiteStore;
use terms::copy::TryCopy;
use terms::leaf::Leaf;
use terms::memory::Memory;
use terms::seq::Seq;
use terms::text::Text;
use world::fault::Fault;
use world::sites::{SiteAction, act_on};

/// A site, what its store kept when the cell was made, and an entry for each call since, oldest first.
#[derive(Drop)]
pub struct SiteCell<S: SiteStore> {
    alloc: Global,
    opening: SiteKept,
    leaves: Vec<Leaf>,
    history: Vec<Entry>,
    site: Site<S>,
}

impl<S: SiteStore> Model for SiteCell<S> {
    ghost use Rattle.std.specs.Prelude.{◌≡◌};
    ghost use Rattle.std.specs.Coded.{codes};
    ghost use Rattle.site.specs.Locks.{leaves_in};
    ghost use Rattle.history.specs.SiteHistory.{SiteHistory};
    ghost use Rattle.store.specs.contracts.prepared.SiteKept as kept_row;
    ghost use Rattle.store.specs.Content.{changes_code};

    ghost Value = { SiteHistory S };

    ghost coded = { Prim.hlevel (codes, kept_row.the_row.coded, changes_code) };

    ghost use Rattle.history.specs.SiteHistory.{SiteHolds};

    ghost view = { λ c. record { opening = c.opening; entries = c.history.items; site = c.site } };

    ghost invariant = { λ c. SiteHolds S.is_clean S.is_sound S.kept c.opening c.history.items c.site × (S.is_clean c.site.store → c.leaves.items ≡ leaves_in c.site.volatile.locks.items) };
}

/// A site of which no cell was made, and why.
#[derive(Drop)]
pub struct Unrecorded<S: SiteStore> {
    pub fault: SiteFault,
    pub site: Site<S>,
}

/// What a cell of a site is made of.
#[derive(Drop)]
pub struct SiteParts<S: SiteStore> {
    pub opening: SiteKept,
    pub leaves: Vec<Leaf>,
    pub entries: Vec<Entry>,
    pub site: Site<S>,
}

impl<S: SiteStore> SiteCell<S> {
    /// The cell of a site that has just started, with its leaves: no call has been made. On a fault the site is as it was.
    pub fn new(
        alloc: Global,
        site: Site<S>,
        leaves: Vec<Leaf>,
    ) -> Result<SiteCell<S>, Unrecorded<S>>
        requires begins { S.is_clean site.store → Begins (S.kept site.store) (volatile_of site.volatile) }
        requires leaves { leaves.items ≡ leaves_in site.volatile.locks.items }
        ensures entries { IfOk result (λ cell. cell.entries ≡ []) }
        ensures leaves_store { IfOk result (λ cell. LeavesStore S.is_clean S.is_sound S.refused site.store cell.site.store) }
        ensures memory { IfOk result (λ cell. cell.site.volatile ≡ site.volatile) }
        ensures leaves_still { IfErr result (λ unrecorded. LeavesStore S.is_clean S.is_sound S.refused site.store unrecorded.site.store) }
        ensures same { IfErr result (λ unrecorded. S.is_clean unrecorded.site.store → S.is_sound site.store → seat_from S.kept unrecorded.site ≡ seat_from S.kept site) }
    {
        let mut site = site;
        match site.kept() {
            Ok(opening) => Ok(SiteCell {
                alloc,
                opening,
                leaves,
                history: Vec::new(alloc),
                site,
            }),
            Err(fault) => Err(Unrecorded { fault, site }),
        }
    }

    /// The site takes a letter. Answers the call's entry; where memory runs out there is none, and the site is as it was.
    pub fn take(&mut self, letter: Letter, counter: &AtomicU64) -> Result<&Entry, Memory>
        ensures* after { sem 𝓛 (follows_so (the_row S.row S.SiteStore) (the_row S.row S.SiteStore) self.entry.ghost_name none (λ _ _. ⊤)
            (SiteCalled S.is_clean S.kept (inputs.Take letter) result self.old)) }
    {
        self.record_call(Input::Take(letter), counter)
    }

    /// The site gives a visit up. Answers the call's entry; where memory runs out there is none, and the site is as it was.
    pub fn give_up(&mut self, ticket: Ticket, counter: &AtomicU64) -> Result<&Entry, Memory>
        ensures* after { sem 𝓛 (follows_so (the_row S.row S.SiteStore) (the_row S.row S.SiteStore) self.entry.ghost_name none (λ _ _. ⊤)
            (SiteCalled S.is_clean S.kept (inputs.GiveUp ticket) result self.old)) }
    {
        self.record_call(Input::GiveUp(ticket), counter)
    }

    /// The site asks about its prepared rows. Answers the call's entry; where memory runs out there is none, and the site is as it was.
    pub fn inquire(&mut self, counter: &AtomicU64) -> Result<&Entry, Memory>
        ensures* after { sem 𝓛 (follows_so (the_row S.row S.SiteStore) (the_row S.row S.SiteStore) self.entry.ghost_name none (λ _ _. ⊤)
            (SiteCalled S.is_clean S.kept inputs.Inquire result self.old)) }
    {
        self.record_call(Input::Inquire, counter)
    }

    /// The site restarts. Answers the call's entry; where memory runs out there is none, and the site is as it was.
    pub fn restart(&mut self, counter: &AtomicU64) -> Result<&Entry, Memory>
        ensures* after { sem 𝓛 (follows_so (the_row S.row S.SiteStore) (the_row S.row S.SiteStore) self.entry.ghost_name none (λ _ _. ⊤)
            (SiteCalled S.is_clean S.kept inputs.Restart result self.old)) }
    {
        self.record_call(Input::Restart, counter)
    }

    /// The site is called for this.
    fn record_call(&mut self, input: Input, counter: &AtomicU64) -> Result<&Entry, Memory>
        ensures* after { sem 𝓛 (follows_so (the_row S.row S.SiteStore) (the_row S.row S.SiteStore) self.entry.ghost_name none (λ _ _. ⊤)
            (SiteCalled S.is_clean S.kept input result self.old)) }
    {
        let at = self.history.len();
        self.history.try_reserve(1)?;
        let entry = called(self.alloc, &mut self.site, input, counter)?;
        self.history.push_reserved(entry);
        Ok(&self.history[at])
    }

    /// The site's name.
    pub fn name(&self) -> &Text
        ensures { result.now ≡ self.now.site.volatile.name }
    {
        self.site.name()
    }

    /// The entries, oldest first.
    pub fn entries(&self) -> &[Entry]
        ensures { result.now ≡ self.now.entries }
    {
        self.history.as_slice()
    }

    /// What the site's store kept when the cell was made.
    pub fn opening(&self) -> &SiteKept
        ensures { result.now ≡ self.now.opening }
    {
        &self.opening
    }

    /// The site's leaves.
    pub fn leaves(&self) -> &[Leaf]
        ensures { S.is_clean self.now.site.store → result.now ≡ leaves_in self.now.site.volatile.locks.items }
    {
        self.leaves.as_slice()
    }

    /// The history replays, from the opening to what the site is now.
    pub fn replays(&self)
        ensures { SiteHolds S.is_clean S.is_sound S.kept self.now.opening self.now.entries self.now.site }
    {
        let _ = &self.opening;
    }

    /// The parts of the cell. The history replays.
    pub fn into_parts(self) -> SiteParts<S>
        ensures opening { result.opening ≡ self.opening }
        ensures entries { result.entries.items ≡ self.entries }
        ensures site { result.site ≡ self.site }
        ensures leaves { S.is_clean result.site.store → result.leaves.items ≡ leaves_in result.site.volatile.locks.items }
        ensures replays { SiteHolds S.is_clean S.is_sound S.kept result.opening result.entries.items result.site }
    {
        let SiteCell {
            alloc: _,
            opening,
            leaves,
            history,
            site,
        } = self;
        SiteParts {
            opening,
            leaves,
            entries: history,
            site,
        }
    }
}

/// A site is called for this: the entry of the call. Where memory runs out there is none, and the site is as it was.
fn called<S: SiteStore>(
    alloc: Global,
    site: &mut Site<S>,
    input: Input,
    counter: &AtomicU64,
) -> Result<Entry, Memory>
    ensures store { LeavesStore S.is_clean S.is_sound S.refused site.old.store site.new.store }
    ensures input { IfOk result (λ entry. entry.input ≡ input) }
    ensures moves { S.is_clean site.new.store → S.is_sound site.old.store → IsSeated (seat_from S.kept site.old) → IfOk result (λ entry. SiteMoves (seat_from S.kept site.old) entry (seat_from S.kept site.new)) }
    ensures err { S.is_clean site.new.store → S.is_sound site.old.store → OnErr result (seat_from S.kept site.new ≡ seat_from S.kept site.old) }
{
    let Some(action) = action_of(site.name(), &input)? else {
        let fault = Fault::Site(SiteFault::Stranger);
        return Ok(Entry::refused(alloc, counter, input, fault));
    };
    match act_on(alloc, site, action, true) {
        Ok(letters) => Ok(Entry::accepted(counter, input, put_out(alloc, letters))),
        Err(SiteFault::Memory) => Err(Memory),
        Err(fault) => Ok(Entry::refused(alloc, counter, input, Fault::Site(fault))),
    }
}

/// What the site of this name is called for; nothing where it is a client's call.
fn action_of(name: &Text, input: &Input) -> Result<Option<SiteAction>, Memory>
    ensures { IfOk result (λ action. action ≡ action_of name.now input.now) }
{
    match input {
        Input::Call(_) => Ok(None),
        Input::Take(letter) => Ok(Some(SiteAction::Take(letter.copy()?))),
        Input::GiveUp(ticket) => Ok(Some(SiteAction::GiveUp(name.copy()?, *ticket))),
        Input::Inquire => Ok(Some(SiteAction::Inquire(name.copy()?))),
        Input::Restart => Ok(Some(SiteAction::Restart(name.copy()?))),
    }
}

/// What a site puts out. A vote NO may come of a store that refused.
fn put_out(alloc: Global, letters: Vec<Letter>) -> Out
    ensures letters { result.letters ≡ letters.items }
    ensures replies { result.replies ≡ [] }
    ensures kept { result.kept ≡ kept_in letters.items }
{
    let kept = !votes_no(letters.as_slice());
    Out {
        letters: Seq::new(letters),
        replies: Seq::new(Vec::new(alloc)),
        kept,
    }
}

/// Whether the first of these letters is a vote NO.
fn votes_no(letters: &[Letter]) -> bool
    ensures { result ≡ not (kept_in letters.now) }
{
    match letters.first() {
        Some(letter) => matches!(
            &letter.body,
            Body::Reply(Reply::Voted(Voted { vote: Vote::No, .. }))
        ),
        None => false,
    }
}
