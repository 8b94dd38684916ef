//! The letters of one client's machines come, each once, the oldest first.

ghost use Rattle.std.specs.Prelude.{◌⊎◌, ◌&&◌, not, length, nat_eq, false, ◌≡◌, ◌++◌, ◌∷◌, [], List, ℕ, suc, true, IfErr, IfOk, IfSome, OnErr, OnOk};
ghost use Rattle.catalog.specs.Relation.{catalogue_of};
ghost use Rattle.desk.specs.Database.{Database, sent};
ghost use Rattle.desk.specs.OfCatalogue.{InForce, IsOfCatalogue};
ghost use Rattle.protocol.specs.Rounds.{RanksUnder};
ghost use Rattle.desk.specs.declared.refusal.Refusal.TheVariants as refusals;
ghost use Rattle.store.specs.declared.fault.StoreFault.TheVariants as store_faults;
ghost use Rattle.world.specs.Counted.{HaveRefused, counts};
ghost use Rattle.protocol.specs.Delivery.{CallKept};
ghost use Rattle.world.specs.Mailbox.{Breaks, Goes, ListComes, settled};
ghost use Rattle.world.specs.Frame.{Blames, LeavesDatabase, ListDelivers, OverDatabase, OverFitting, StaysInForce, StaysOnErr};
ghost use Rattle.world.specs.Listed.{FitsList, IsListed, ListCame, StandsIn};
ghost use Rattle.store.specs.declared.letter.Letter.{Letter as LetterNow};
ghost use Rattle.world.specs.Contents.{OfStores, counted, held};
ghost use Rattle.world.specs.Machines.{AreFit, is_order};
ghost use Rattle.world.specs.Reasons.{Tells};
ghost use Rattle.world.specs.Stopping.{StopsFor, is_stop};
ghost use Rattle.world.specs.Taking.{IsDone, IsInRound, ListIsDone, put_out_by, scene, stop_of, turns_away, world_at};

use crate::fault::Fault;
use crate::machines::{Machines, has_site, is_order, put_out};
use catalog::catalogue::Catalog;
use desk::refusal::Refusal;
use desk::reply::{Notice, Out};
use site::fault::SiteFault;
use std::collections::VecDeque;
use store::desk_store::DeskStore;
use store::fault::StoreFault;
use store::letter::Letter;
use store::site_store::SiteStore;
use terms::seq::Seq;

/// The letters that wait, oldest first, and what the client has heard.
#[derive(Drop)]
pub(crate) struct Post {
    pub(crate) waiting: VecDeque<Letter>,
    pub(crate) heard: Vec<Notice>,
}

/// The refusal that stops a client's machines, if the fault is one that does: memory ran out, or a store failed.
fn stopping(fault: &Fault) -> Option<Refusal>
    ensures { result ≡ stop_of fault.now }
{
    match fault {
        Fault::Desk(Refusal::Memory) => Some(Refusal::Memory),
        Fault::Desk(Refusal::Store(fault)) => Some(Refusal::Store(*fault)),
        Fault::Site(SiteFault::Memory) => Some(Refusal::Memory),
        Fault::Site(SiteFault::Store(fault)) => Some(Refusal::Store(*fault)),
        _ => None,
    }
}

/// A letter comes to the machine that it is for.
#[inline(always)]
fn take<D: DeskStore, S: SiteStore>(
    machines: &mut Machines<D, S>,
    letter: Letter,
) -> Result<Out, Fault>
    ensures leaves { LeavesDatabase D.is_clean S.is_clean D.is_sound S.is_sound D.refused S.refused machines.old machines.new }
    ensures blames { OfStores D.is_clean S.is_clean machines.new → OfStores D.is_sound S.is_sound machines.old → IfErr result (λ fault. IfSome (stop_of fault) (StopsFor (counts D.refused S.refused machines.old) (counts D.refused S.refused machines.new))) }
    ensures ok { OverDatabase (OfStores D.is_clean S.is_clean) (OfStores D.is_sound S.is_sound) (counted D.kept S.kept D.refused S.refused) machines.old machines.new
        (λ db before after. IfOk result (λ out. IsDone db letter before after out.letters out.replies)) }
    ensures told { (db : Database) → IsOfCatalogue db → InForce db machines.old.desk.volatile.version machines.old.desk.catalog → AreFit db (counted D.kept S.kept D.refused S.refused machines.old) → IfErr result (Tells db (counted D.kept S.kept D.refused S.refused machines.old) letter) }
    ensures lists { (db : Database) → IsListed db → StandsIn db machines.old.desk → OfStores D.is_clean S.is_clean machines.new → OfStores D.is_sound S.is_sound machines.old → FitsList db (held D.kept S.kept machines.old)
        → IfOk result (λ out. ListCame db letter out.kept (held D.kept S.kept machines.old) (held D.kept S.kept machines.new) out.letters out.replies × StandsIn db machines.new.desk) }
    ensures keeps { OverFitting (OfStores D.is_clean S.is_clean) (OfStores D.is_sound S.is_sound) (held D.kept S.kept) machines.old machines.new (λ db before after. IfOk result (λ out. CallKept out.kept (sent db letter).body)) }
    ensures reasons { (db : Database) → IsListed db → StandsIn db machines.old.desk → FitsList db (held D.kept S.kept machines.old) → IfErr result (Tells db (held D.kept S.kept machines.old) letter) }
    ensures stays { OnErr result (StaysInForce machines.old machines.new) }
    ensures err { StaysOnErr (OfStores D.is_clean S.is_clean) (OfStores D.is_sound S.is_sound) (held D.kept S.kept) machines.old machines.new result }
    ensures unkept { is_order letter.body ≡ false → IfOk result (λ out. out.kept ≡ false → HaveRefused (counts D.refused S.refused machines.old) (counts D.refused S.refused machines.new)) }
{
    if !has_site(machines.desk.catalog(), &letter.site) {
        return Err(Fault::Unsent);
    }
    machines.deliver(letter, true)
}

/// A letter comes. Where its step leads past a limit the letter is let go, and its transaction given up; so it would be where the site
/// didn't have the leaf, but one client's operations are for the sites that keep their leaves. One
/// that is for no site of the database is let go, and nobody hears of it; none of one client's letters is.
#[inline(always)]
fn deliver_one<D: DeskStore, S: SiteStore>(
    machines: &mut Machines<D, S>,
    letter: Letter,
) -> Result<Out, Refusal>
    ensures leaves { LeavesDatabase D.is_clean S.is_clean D.is_sound S.is_sound D.refused S.refused machines.old machines.new }
    ensures blames { Blames (OfStores D.is_clean S.is_clean) (OfStores D.is_sound S.is_sound) (counts D.refused S.refused) machines.old machines.new result }
    ensures ok { OverDatabase (OfStores D.is_clean S.is_clean) (OfStores D.is_sound S.is_sound) (counted D.kept S.kept D.refused S.refused) machines.old machines.new
        (λ db before after. IfOk result (λ out. IsDone db letter before after out.letters out.replies)) }
    ensures done { OverFitting (OfStores D.is_clean S.is_clean) (OfStores D.is_sound S.is_sound) (held D.kept S.kept) machines.old machines.new
        (λ db before after. IfOk result (λ out. ListIsDone db letter before after out.letters out.replies × StandsIn db machines.new.desk)) }
    ensures lists { (rest : List LetterNow) → ListDelivers (OfStores D.is_clean S.is_clean) (OfStores D.is_sound S.is_sound) (held D.kept S.kept) machines.old machines.new result (letter ∷ rest) (λ out. rest ++ out.letters) [] (λ out. out.replies) }
    ensures err { StaysOnErr (OfStores D.is_clean S.is_clean) (OfStores D.is_sound S.is_sound) (held D.kept S.kept) machines.old machines.new result }
    ensures own { IfErr result (λ refusal. is_stop refusal ≡ true) }
    ensures unkept { is_order letter.body ≡ false → IfOk result (λ out. out.kept ≡ false → HaveRefused (counts D.refused S.refused machines.old) (counts D.refused S.refused machines.new)) }
{
    let txn = letter.txn;
    let fault = match take(machines, letter) {
        Ok(out) => return Ok(out),
        Err(fault) => fault,
    };
    let is_turned_away = turns_away(&fault);
    match stopping(&fault) {
        Some(refusal) => Err(refusal),
        None if is_turned_away => machines.give_up(txn),
        None => Ok(put_out(machines.alloc, Vec::new(machines.alloc))),
    }
}

/// Whether a letter is turned away: its step leads past a limit, or its site doesn't have the leaf.
fn turns_away(fault: &Fault) -> bool
    ensures { result ≡ turns_away fault.now }
{
    matches!(
        fault,
        Fault::Desk(Refusal::Full) | Fault::Site(SiteFault::Full) | Fault::Site(SiteFault::Stranger)
    )
}

impl Post {
    /// What a call has put out.
    fn of(out: Out) -> Post
        ensures waiting { result.waiting.items ≡ out.letters }
        ensures heard { result.heard.items ≡ out.replies }
    {
        Post {
            waiting: VecDeque::from_vec(out.letters.into_vec()),
            heard: out.replies.into_vec(),
        }
    }

    /// What a letter has brought about. Its letters wait behind the others; is_unsure: none may come, since a store refused and what
    /// its medium has of that isn't known.
    #[inline(always)]
    fn add(&mut self, out: Out, is_unsure: bool) -> Result<(), Refusal>
        ensures waiting { OnOk result (self.new.waiting.items ≡ self.old.waiting.items ++ out.letters) }
        ensures heard { OnOk result (self.new.heard.items ≡ self.old.heard.items ++ out.replies) }
        ensures own { IfErr result (λ refusal. (refusal ≡ refusals.Memory) ⊎ ((is_unsure ≡ true) × (refusal ≡ refusals.Store store_faults.Refused))) }
    {
        if is_unsure {
            return Err(Refusal::Store(StoreFault::Refused));
        }
        let Out {
            letters,
            replies,
            ..
        } = out;
        wait_behind(&mut self.waiting, letters)?;
        if replies.as_slice().is_empty() {
            return Ok(());
        }
        if self.heard.append(&mut replies.into_vec()).is_err() {
            return Err(Refusal::Memory);
        }
        Ok(())
    }
}

/// Letters wait behind others.
#[inline(always)]
fn wait_behind(waiting: &mut VecDeque<Letter>, letters: Seq<Letter>) -> Result<(), Refusal>
    ensures waiting { OnOk result (waiting.new.items ≡ waiting.old.items ++ letters) }
    ensures own { IfErr result (λ refusal. refusal ≡ refusals.Memory) }
{
    if letters.as_slice().is_empty() {
        return Ok(());
    }
    let mut letters = VecDeque::from_vec(letters.into_vec());
    match waiting.append(&mut letters) {
        Ok(()) => Ok(()),
        Err(_) => Err(Refusal::Memory),
    }
}

/// Whether the coordinator's store refused a commit while a catalogue comes later. is_order: whether the letter was for a site.
fn is_unsure(is_order: bool, kept: bool, later: &[Catalog]) -> bool
    ensures told { result ≡ (not is_order && (not kept && not (nat_eq (length later.now) 0))) }
    ensures only { result ≡ true → (is_order ≡ false) × (kept ≡ false) }
{
    !is_order && !kept && !later.is_empty()
}

/// The oldest letter that waits comes, if one does. Where the coordinator's store refused a commit while a catalogue comes later, the
/// database is stopped: whether the medium has the next one's number after all shows at the next opening, so no site may hear that the
/// transaction was aborted.
#[inline(always)]
fn deliver_next<D: DeskStore, S: SiteStore>(
    machines: &mut Machines<D, S>,
    post: &mut Post,
) -> Result<(), Refusal>
    ensures leaves { LeavesDatabase D.is_clean S.is_clean D.is_sound S.is_sound D.refused S.refused machines.old machines.new }
    ensures blames { Blames (OfStores D.is_clean S.is_clean) (OfStores D.is_sound S.is_sound) (counts D.refused S.refused) machines.old machines.new result }
    ensures ok { OverDatabase (OfStores D.is_clean S.is_clean) (OfStores D.is_sound S.is_sound) (counted D.kept S.kept D.refused S.refused) machines.old machines.new
        (λ db before after. OnOk result (Goes db (λ w. w) (scene before post.old) (scene after post.new))) }
    ensures ranks { (db : Database) (n i : ℕ) → IsOfCatalogue db → InForce db machines.old.desk.volatile.version machines.old.desk.catalog → OfStores D.is_clean S.is_clean machines.new → OfStores D.is_sound S.is_sound machines.old → AreFit db (counted D.kept S.kept D.refused S.refused machines.old)
        → IsInRound db n (suc i) (scene (counted D.kept S.kept D.refused S.refused machines.old) post.old) → OnOk result (IsInRound db n i (scene (counted D.kept S.kept D.refused S.refused machines.new) post.new)) }
    ensures comes { OverFitting (OfStores D.is_clean S.is_clean) (OfStores D.is_sound S.is_sound) (held D.kept S.kept) machines.old machines.new
        (λ db before after. OnOk result (ListComes db (scene before post.old) (scene after post.new) × StandsIn db machines.new.desk)) }
    ensures ranks_lists { OverFitting (OfStores D.is_clean S.is_clean) (OfStores D.is_sound S.is_sound) (held D.kept S.kept) machines.old machines.new
        (λ db before after. OnOk result ((n i : ℕ) → IsInRound db n (suc i) (scene before post.old) → IsInRound db n i (scene after post.new))) }
    ensures lists { ListDelivers (OfStores D.is_clean S.is_clean) (OfStores D.is_sound S.is_sound) (held D.kept S.kept) machines.old machines.new result post.old.waiting.items (λ done. post.new.waiting.items) post.old.heard.items (λ done. post.new.heard.items) }
    ensures err { OverDatabase (OfStores D.is_clean S.is_clean) (OfStores D.is_sound S.is_sound) (counted D.kept S.kept D.refused S.refused) machines.old machines.new
        (λ db before after. OnErr result (Breaks db (λ w. w) (scene before post.old) after)) }
    ensures own { IfErr result (λ refusal. is_stop refusal ≡ true) }
{
    let Some(letter) = post.waiting.pop_front() else {
        return Ok(());
    };
    machines.traffic.count_letter();
    let is_order = is_order(&letter.body);
    match deliver_one(machines, letter) {
        Ok(out) => {
            machines.traffic.count_step(out.letters.as_slice());
            let is_unsure = is_unsure(is_order, out.kept, machines.desk.later());
            post.add(out, is_unsure)
        }
        Err(refusal) => Err(refusal),
    }
}

/// The letters that wait come, one after another. What they bring about waits.
#[inline(always)]
fn deliver_round<D: DeskStore, S: SiteStore>(
    machines: &mut Machines<D, S>,
    post: &mut Post,
) -> Result<(), Refusal>
    ensures leaves { LeavesDatabase D.is_clean S.is_clean D.is_sound S.is_sound D.refused S.refused machines.old machines.new }
    ensures blames { Blames (OfStores D.is_clean S.is_clean) (OfStores D.is_sound S.is_sound) (counts D.refused S.refused) machines.old machines.new result }
    ensures ok { OverDatabase (OfStores D.is_clean S.is_clean) (OfStores D.is_sound S.is_sound) (counted D.kept S.kept D.refused S.refused) machines.old machines.new
        (λ db before after. OnOk result (Goes db (λ w. w) (scene before post.old) (scene after post.new))) }
    ensures ranks { (db : Database) (n : ℕ) → IsOfCatalogue db → InForce db machines.old.desk.volatile.version machines.old.desk.catalog → OfStores D.is_clean S.is_clean machines.new → OfStores D.is_sound S.is_sound machines.old → AreFit db (counted D.kept S.kept D.refused S.refused machines.old)
        → RanksUnder (suc n) (world_at db (scene (counted D.kept S.kept D.refused S.refused machines.old) post.old)) → OnOk result (RanksUnder n (world_at db (scene (counted D.kept S.kept D.refused S.refused machines.new) post.new))) }
    ensures comes { OverFitting (OfStores D.is_clean S.is_clean) (OfStores D.is_sound S.is_sound) (held D.kept S.kept) machines.old machines.new
        (λ db before after. OnOk result (ListComes db (scene before post.old) (scene after post.new) × StandsIn db machines.new.desk)) }
    ensures ranks_lists { OverFitting (OfStores D.is_clean S.is_clean) (OfStores D.is_sound S.is_sound) (held D.kept S.kept) machines.old machines.new
        (λ db before after. OnOk result ((n : ℕ) → RanksUnder (suc n) (world_at db (scene before post.old)) → RanksUnder n (world_at db (scene after post.new)))) }
    ensures lists { ListDelivers (OfStores D.is_clean S.is_clean) (OfStores D.is_sound S.is_sound) (held D.kept S.kept) machines.old machines.new result post.old.waiting.items (λ done. post.new.waiting.items) post.old.heard.items (λ done. post.new.heard.items) }
    ensures err { OverDatabase (OfStores D.is_clean S.is_clean) (OfStores D.is_sound S.is_sound) (counted D.kept S.kept D.refused S.refused) machines.old machines.new
        (λ db before after. OnErr result (Breaks db (λ w. w) (scene before post.old) after)) }
    ensures own { IfErr result (λ refusal. is_stop refusal ≡ true) }
{
    machines.traffic.count_round(post.waiting.len());
    for _ in 0..post.waiting.len() {
        deliver_next(machines, post)?;
    }
    Ok(())
}

/// All letters that a call has put out come, and all that these bring about. Says what the client hears.
pub(crate) fn deliver_all<D: DeskStore, S: SiteStore>(
    machines: &mut Machines<D, S>,
    out: Out,
) -> Result<Vec<Notice>, Refusal>
    ensures leaves { LeavesDatabase D.is_clean S.is_clean D.is_sound S.is_sound D.refused S.refused machines.old machines.new }
    ensures blames { Blames (OfStores D.is_clean S.is_clean) (OfStores D.is_sound S.is_sound) (counts D.refused S.refused) machines.old machines.new result }
    ensures ok { OverDatabase (OfStores D.is_clean S.is_clean) (OfStores D.is_sound S.is_sound) (counted D.kept S.kept D.refused S.refused) machines.old machines.new
        (λ db before after. IfOk result (λ heard. Goes db (λ w. w) (put_out_by before out) (settled after heard.items))) }
    ensures comes { OverFitting (OfStores D.is_clean S.is_clean) (OfStores D.is_sound S.is_sound) (held D.kept S.kept) machines.old machines.new
        (λ db before after. IfOk result (λ heard. ListComes db (put_out_by before out) (settled after heard.items) × StandsIn db machines.new.desk)) }
    ensures lists { ListDelivers (OfStores D.is_clean S.is_clean) (OfStores D.is_sound S.is_sound) (held D.kept S.kept) machines.old machines.new result out.letters (λ heard. []) out.replies (λ heard. heard.items) }
    ensures err { OverDatabase (OfStores D.is_clean S.is_clean) (OfStores D.is_sound S.is_sound) (counted D.kept S.kept D.refused S.refused) machines.old machines.new
        (λ db before after. OnErr result (Breaks db (λ w. w) (put_out_by before out) after)) }
    ensures own { IfErr result (λ refusal. is_stop refusal ≡ true) }
{
    let mut post = Post::of(out);
    // Each letter has a rank of at most nine, and what it brings about ranks lower. Mostly none waits after three rounds.
    for _ in 0..9usize {
        if post.waiting.is_empty() {
            break;
        }
        deliver_round(machines, &mut post)?;
    }
    machines.traffic = machines.traffic.with_call(post.heard.as_slice());
    Ok(post.heard)
}
