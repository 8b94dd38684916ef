//! The sites of a database, each under its name, and what is done at one.

ghost use Rattle.std.specs.Prelude.{◌≡◌, ◌⊎◌, ◌∷◌, [], ℕ, List, Some, IfErr, IfOk, IfSome, OnErr, OnOk, map, false, true};
ghost use Rattle.world.specs.Seated.{place_of, SeatDoes, SomeSeatDoes, seat_from, seats_in};
ghost use Rattle.store.specs.declared.letter.Letter.{Letter as LetterNow};
ghost use Rattle.store.specs.Fault.{HasRefused};
ghost use Rattle.protocol.specs.Letters.{kept_in};
ghost use Rattle.site.specs.Refusals.{AsksToKeep};
ghost use Rattle.world.specs.EventApplied.{may_call_at};
ghost use Rattle.world.specs.Frame.{LeavesSites};
ghost use Rattle.store.specs.Frame.{LeavesStore};
ghost use Rattle.world.specs.Counted.{HaveRefused, counts_of};
ghost use Rattle.world.specs.declared.sites.SiteAction.TheVariants as things;
ghost use Rattle.world.specs.declared.fault.Fault.TheVariants as faults;
ghost use Rattle.std.specs.List.{AllByRecursion, position_or_len};
ghost use Rattle.world.specs.Reasons.{SiteTells};
ghost use Rattle.world.specs.Refused.{PlaceTells};
ghost use Rattle.world.specs.Sites.{IsSeated, Seat, is_called, seat_of};
ghost use Rattle.world.specs.Stopping.{StopsFor};
ghost use Rattle.world.specs.Taking.{stop_of};

use site::fault::SiteFault;
use site::site::Site;
use std::alloc::Global;
use store::letter::Letter;
use store::name::Ticket;
use store::site_store::SiteStore;
use terms::text::Text;

/// Something that is done at a site.
#[derive(Debug, Drop)]
pub enum SiteAction {
    /// A letter comes to the site that it is for.
    Take(Letter),
    /// The site gives a visit up.
    GiveUp(Text, Ticket),
    /// The site asks about its prepared rows.
    Inquire(Text),
    /// The site restarts.
    Restart(Text),
}

impl SiteAction {
    /// The site at which it is done.
    pub fn site(&self) -> &Text
        ensures { result.now ≡ place_of self.now }
    {
        match self {
            SiteAction::Take(letter) => &letter.site,
            SiteAction::GiveUp(site, _) => site,
            SiteAction::Inquire(site) => site,
            SiteAction::Restart(site) => site,
        }
    }
}

/// Whether it is the site of this name.
pub(crate) fn is_called<S: SiteStore>(site: &Site<S>, name: &Text) -> bool
    ensures { result ≡ is_called name.now (seat_from S.kept site.now) }
{
    *name == *site.name()
}

/// Something is done at its site: the step of a site by itself. On a fault nothing has changed, and the site says why.
pub fn act_on<S: SiteStore>(
    alloc: Global,
    site: &mut Site<S>,
    what: SiteAction,
    kept: bool,
) -> Result<Vec<Letter>, SiteFault>
    ensures leaves { LeavesStore S.is_clean S.is_sound S.refused site.old.store site.new.store }
    ensures blames { (letter : LetterNow) → what ≡ things.Take letter → kept ≡ true → S.is_clean site.new.store → S.is_sound site.old.store → IfErr result (λ fault. IfSome (stop_of (faults.Site fault)) (StopsFor (S.refused site.old.store ∷ []) (S.refused site.new.store ∷ []))) }
    ensures vote { (letter : LetterNow) → what ≡ things.Take letter → AsksToKeep (seat_from S.kept site.old).table letter.body → IfOk result (λ letters. kept_in letters.items ≡ false → (kept ≡ false) ⊎ HasRefused (S.refused site.old.store) (S.refused site.new.store)) }
    ensures ok { S.is_clean site.new.store → S.is_sound site.old.store → IsSeated (seat_from S.kept site.old)
        → IfOk result (λ letters. SeatDoes what (seat_from S.kept site.old) (seat_from S.kept site.new) letters.items) }
    ensures called { (site : List ℕ) → what ≡ things.Restart site → OnOk result (kept ≡ true) }
    ensures told { (letter : LetterNow) → what ≡ things.Take letter → is_called letter.site (seat_from S.kept site.old) ≡ true → IfErr result (SiteTells (seat_from S.kept site.old) letter) }
    ensures fails { IfErr result (PlaceTells (S.is_clean site.new.store × S.is_sound site.old.store) (HasRefused (S.refused site.old.store) (S.refused site.new.store)) what kept (seat_from S.kept site.old)) }
    ensures uncalled { may_call_at what kept ≡ false → site.new.store ≡ site.old.store }
    ensures err { S.is_clean site.new.store → S.is_sound site.old.store → OnErr result (seat_from S.kept site.new ≡ seat_from S.kept site.old) }
{
    match what {
        SiteAction::Take(letter) => site.take_kept(letter, kept),
        SiteAction::GiveUp(_, ticket) => {
            site.give_up(&ticket);
            Ok(Vec::new(alloc))
        }
        SiteAction::Inquire(_) => match site.inquire() {
            Ok(letters) => Ok(letters),
            Err(_) => Err(SiteFault::Memory),
        },
        SiteAction::Restart(_) => match site.restart_kept(kept) {
            Ok(()) => Ok(Vec::new(alloc)),
            Err(fault) => Err(fault),
        },
    }
}

/// The number of sites before the one of this name; that of all sites, where there is none.
fn sites_before<S: SiteStore>(sites: &[Site<S>], name: &Text) -> usize
    ensures { result ≡ position_or_len (λ site. is_called name.now (seat_from S.kept site)) sites.now }
{
    for (place, site) in sites.iter().enumerate() {
        if is_called(site, name) {
            return place;
        }
    }
    sites.len()
}

/// Something is done at the site that it names. Where there is none, it is a stranger's.
#[inline(always)]
pub(crate) fn act_among<S: SiteStore>(
    alloc: Global,
    sites: &mut Vec<Site<S>>,
    what: SiteAction,
    kept: bool,
) -> Result<Vec<Letter>, SiteFault>
    ensures leaves { LeavesSites S.is_clean S.is_sound S.refused sites.old.items sites.new.items }
    ensures blames { (letter : LetterNow) → what ≡ things.Take letter → kept ≡ true → AllByRecursion (λ site. S.is_clean site.store) sites.new.items → AllByRecursion (λ site. S.is_sound site.store) sites.old.items
        → IfErr result (λ fault. IfSome (stop_of (faults.Site fault)) (StopsFor (counts_of S.refused sites.old.items) (counts_of S.refused sites.new.items))) }
    ensures vote { (letter : LetterNow) (seat : Seat) → what ≡ things.Take letter → seat_of letter.site (seats_in S.kept sites.old.items) ≡ Some seat → AsksToKeep seat.table letter.body
        → IfOk result (λ letters. kept_in letters.items ≡ false → (kept ≡ false) ⊎ HaveRefused (counts_of S.refused sites.old.items) (counts_of S.refused sites.new.items)) }
    ensures ok { (seat : Seat) → AllByRecursion (λ site. S.is_clean site.store) sites.new.items → AllByRecursion (λ site. S.is_sound site.store) sites.old.items → AllByRecursion IsSeated (seats_in S.kept sites.old.items) → seat_of (place_of what) (seats_in S.kept sites.old.items) ≡ Some seat
        → IfOk result (λ letters. SomeSeatDoes what seat (seats_in S.kept sites.old.items) (seats_in S.kept sites.new.items) letters.items) }
    ensures called { (site : List ℕ) → what ≡ things.Restart site → OnOk result (kept ≡ true) }
    ensures told { (letter : LetterNow) (seat : Seat) → what ≡ things.Take letter → seat_of letter.site (seats_in S.kept sites.old.items) ≡ Some seat → IfErr result (SiteTells seat letter) }
    ensures fails { (seat : Seat) → seat_of (place_of what) (seats_in S.kept sites.old.items) ≡ Some seat
        → IfErr result (PlaceTells (AllByRecursion (λ site. S.is_clean site.store) sites.new.items × AllByRecursion (λ site. S.is_sound site.store) sites.old.items) (HaveRefused (counts_of S.refused sites.old.items) (counts_of S.refused sites.new.items)) what kept seat) }
    ensures uncalled { may_call_at what kept ≡ false → map (λ site. site.store) sites.new.items ≡ map (λ site. site.store) sites.old.items }
    ensures err { AllByRecursion (λ site. S.is_clean site.store) sites.new.items → AllByRecursion (λ site. S.is_sound site.store) sites.old.items → OnErr result (seats_in S.kept sites.new.items ≡ seats_in S.kept sites.old.items) }
{
    let place = sites_before(sites.as_slice(), what.site());
    match sites.get_mut(place) {
        Some(site) => act_on(alloc, site, what, kept),
        None => Err(SiteFault::Stranger),
    }
}
