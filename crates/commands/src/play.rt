//! The command `play`: a script of schedules over a world of its own, of a chain of catalogues.

ghost use Rattle.std.specs.Prelude.{◌≡◌, ◌∷◌, List, IfErr, IfOk, IfSome, IsErrAnd, OnOk, is_err, map, true, string_bytes};
ghost use Rattle.std.specs.Io.KnownBytes.{Keeps};
ghost use Rattle.meaning.specs.Whole.{FitsSchema};
ghost use Rattle.catalog.specs.Catalogue.{Catalogue};
ghost use Rattle.catalog.specs.FragmentLeaf.{schemas_of};
ghost use Rattle.catalog.specs.Relation.{catalogue_of};
ghost use Rattle.databases.specs.CatalogFiles.{DoesOver, IsOfCatalogues, IsUnopened};
ghost use Rattle.commands.specs.Play.{IsPlayedOver, PlaysItem, PlaysItems, PlaysOrStops, PlaysOver, PlaysScript, StopsItems};
ghost use Rattle.lines.specs.Input.{IsOfInput, IsOfOutput};
ghost use Rattle.databases.specs.Schedule.{IsCounted, LeavesWorld, stage_of, world_over};

use catalog::chain::Chain;
use databases::catalog_files::{ChainFault, Source, read_catalogs};
use databases::schedule::Schedule;
use databases::solo::read_script;
use databases::world_opener::OpensWorld;
use lines::fault::ProgramFault;
use lines::play_items::{Placed, read_items};
use lines::play_load::loaded;
use lines::play_script::Item;
use meaning::whole::Whole;
use std::alloc::Global;
use std::io;
use std::io::{Read, Write};
use store::desk_store::DeskStore;
use store::site_store::SiteStore;
use terms::memory::Memory;
use world::chain::first_of;
use world::laws::{catalogue_is_listed, chain_is_listed, runs_are_serial};

/// Plays the script that `input` gives, which `file` names in a fault, over the catalogue that `catalog` gives, which
/// `catalog_file` names, and those that come next. The catalogues are read first.
pub fn play_files<
    'a,
    D: DeskStore + Drop,
    S: SiteStore + Drop,
    O: OpensWorld<D, S>,
    C: Read + Drop,
    N: Read + Drop,
    R: Read + Drop,
    W: Write,
>(
    alloc: Global,
    opener: &O,
    catalog_file: &'a str,
    catalog: C,
    next: Vec<Source<'a, N>>,
    file: &'a str,
    input: io::Result<R>,
    output: &mut W,
) -> Result<(), ChainFault<'a>>
    ensures opened { IfSome (C.remaining catalog) (λ bytes. IfOk input (λ reader. IfSome (R.remaining reader) (λ script. DoesOver N.remaining catalog_file.entry bytes next.entry.items (W.contents output.old) (W.contents output.new) (PlaysOver (world_over D.is_clean S.is_clean D.is_sound S.is_sound D.kept S.kept D.refused S.refused) O.fails_for file.entry script (W.contents output.old) (W.contents output.new)) result))) }
    ensures unread { IfErr input (λ error. IfSome (C.remaining catalog) (λ bytes. DoesOver N.remaining catalog_file.entry bytes next.entry.items (W.contents output.old) (W.contents output.new) (λ catalogues. IsUnopened file.entry) result)) }
    ensures idle { IfErr input (λ error. IsErrAnd result (IsOfCatalogues next.entry.items) × Keeps (W.contents output.old) (W.contents output.new)) }
{
    let chain = read_catalogs(alloc, catalog_file, catalog, next)?;
    Ok(play_opened(alloc, opener, &chain, file, input, output)?)
}

/// The same over a chain of catalogues that was read.
fn play_opened<
    'a,
    D: DeskStore + Drop,
    S: SiteStore + Drop,
    O: OpensWorld<D, S>,
    R: Read + Drop,
    W: Write,
>(
    alloc: Global,
    opener: &O,
    chain: &Chain,
    file: &'a str,
    input: io::Result<R>,
    output: &mut W,
) -> Result<(), ProgramFault<'a>>
    ensures opened { (first : Catalogue) (rest : List Catalogue) → map catalogue_of chain.now ≡ first ∷ rest → IfOk input (λ reader. IfSome (R.remaining reader) (λ script. PlaysScript (world_over D.is_clean S.is_clean D.is_sound S.is_sound D.kept S.kept D.refused S.refused) O.fails_for first rest file.entry script (W.contents output.old) (W.contents output.new) result)) }
    ensures unread { IfErr input (λ error. IfErr result (IsOfInput file.entry)) }
    ensures idle { IfErr input (λ error. (is_err result ≡ true) × Keeps (W.contents output.old) (W.contents output.new)) }
{
    match input {
        Ok(input) => play(alloc, opener, chain, file, input, output),
        Err(error) => Err(ProgramFault::reading(file, &error)),
    }
}

/// Plays the script that `input` gives, which `file` names in a fault, over a new world of this chain, in which a `refragment` brings
/// the next catalogue into force: the whole script or none of it. Writes what is told of each item to `output`. It writes often,
/// and flushes once: give it an output with a buffer.
pub fn play<
    'a,
    D: DeskStore + Drop,
    S: SiteStore + Drop,
    O: OpensWorld<D, S>,
    R: Read + Drop,
    W: Write,
>(
    alloc: Global,
    opener: &O,
    chain: &Chain,
    file: &'a str,
    input: R,
    output: &mut W,
) -> Result<(), ProgramFault<'a>>
    ensures { (first : Catalogue) (rest : List Catalogue) → map catalogue_of chain.now ≡ first ∷ rest → IfSome (R.remaining input) (λ script. PlaysScript (world_over D.is_clean S.is_clean D.is_sound S.is_sound D.kept S.kept D.refused S.refused) O.fails_for first rest file.entry script (W.contents output.old) (W.contents output.new) result) }
{
    let script = read_script(alloc, file, input)?;
    play_script(alloc, opener, chain, script.as_slice(), output)
}

/// Plays a script of which all bytes were read.
fn play_script<'a, D: DeskStore + Drop, S: SiteStore + Drop, O: OpensWorld<D, S>, W: Write>(
    alloc: Global,
    opener: &O,
    chain: &Chain,
    script: &[u8],
    output: &mut W,
) -> Result<(), ProgramFault<'a>>
    ensures { (first : Catalogue) (rest : List Catalogue) → map catalogue_of chain.now ≡ first ∷ rest → PlaysOrStops (world_over D.is_clean S.is_clean D.is_sound S.is_sound D.kept S.kept D.refused S.refused) O.fails_for first rest script.now (W.contents output.old) (W.contents output.new) result }
{
    let script = read_items(alloc, script)?;
    match loaded(alloc, first_of(chain).schema(), &script) {
        Ok(whole) => play_over(
            alloc,
            opener,
            chain,
            &whole,
            script.items.as_slice(),
            output,
        ),
        Err(fault) => Err(ProgramFault::from(fault)),
    }
}

/// Plays items over a new world of these whole relations.
fn play_over<'a, D: DeskStore + Drop, S: SiteStore + Drop, O: OpensWorld<D, S>, W: Write>(
    alloc: Global,
    opener: &O,
    chain: &Chain,
    whole: &Whole,
    items: &[Placed],
    output: &mut W,
) -> Result<(), ProgramFault<'a>>
    requires { (first : Catalogue) (rest : List Catalogue) → map catalogue_of chain.now ≡ first ∷ rest → FitsSchema (schemas_of first) whole.now }
    ensures ok { (first : Catalogue) (rest : List Catalogue) → map catalogue_of chain.now ≡ first ∷ rest → OnOk result (IsPlayedOver (world_over D.is_clean S.is_clean D.is_sound S.is_sound D.kept S.kept D.refused S.refused) first rest whole.now items.now (W.contents output.old) (W.contents output.new)) }
    ensures err { IfErr result (StopsItems O.fails_for (W.contents output.old) (W.contents output.new)) }
{
    let first = first_of(chain);
    catalogue_is_listed(first);
    chain_is_listed(chain);
    runs_are_serial();
    let world = opener.open(alloc, chain, whole)?;
    let mut schedule = Schedule::new(alloc, world);
    play_and_send(alloc, &mut schedule, items, output)
}

/// Plays items in order, writes what is told of each, and waits until that has gone out.
fn play_and_send<'a, D: DeskStore, S: SiteStore, W: Write>(
    alloc: Global,
    schedule: &mut Schedule<D, S>,
    items: &[Placed],
    output: &mut W,
) -> Result<(), ProgramFault<'a>>
    requires { IsCounted (stage_of schedule.old) }
    ensures ok { OnOk result (PlaysItems (world_over D.is_clean S.is_clean D.is_sound S.is_sound D.kept S.kept D.refused S.refused) items.now (W.contents output.old) (W.contents output.new) schedule.old schedule.new) }
    ensures leaves { LeavesWorld (world_over D.is_clean S.is_clean D.is_sound S.is_sound D.kept S.kept D.refused S.refused) schedule.old.world schedule.new.world }
    ensures err { IfErr result IsOfOutput }
{
    let done = play_items(alloc, schedule, items, output);
    // What was told before a fault goes out too.
    let sent = send_out(output);
    done?;
    sent?;
    Ok(())
}

/// Waits until what was written has gone out.
pub(crate) fn send_out<'a, W: Write>(output: &mut W) -> Result<(), ProgramFault<'a>>
    ensures same { Keeps (W.contents output.old) (W.contents output.new) }
    ensures err { IfErr result IsOfOutput }
{
    output
        .flush()
        .map_err(|error| ProgramFault::writing(&error))?;
    Ok(())
}

/// Plays items in order, and writes what is told of each.
fn play_items<'a, D: DeskStore, S: SiteStore, W: Write>(
    alloc: Global,
    schedule: &mut Schedule<D, S>,
    items: &[Placed],
    output: &mut W,
) -> Result<(), ProgramFault<'a>>
    requires { IsCounted (stage_of schedule.old) }
    ensures ok { OnOk result (PlaysItems (world_over D.is_clean S.is_clean D.is_sound S.is_sound D.kept S.kept D.refused S.refused) items.now (W.contents output.old) (W.contents output.new) schedule.old schedule.new) }
    ensures leaves { LeavesWorld (world_over D.is_clean S.is_clean D.is_sound S.is_sound D.kept S.kept D.refused S.refused) schedule.old.world schedule.new.world }
    ensures err { IfErr result IsOfOutput }
{
    for placed in items {
        let told = play_item(alloc, schedule, &placed.item)?;
        output
            .write_all(told.as_str().as_bytes())
            .map_err(|error| ProgramFault::writing(&error))?;
    }
    Ok(())
}

/// Plays one item. What is loaded stands in the world already.
fn play_item<D: DeskStore, S: SiteStore>(
    alloc: Global,
    schedule: &mut Schedule<D, S>,
    item: &Item,
) -> Result<String, Memory>
    requires { IsCounted (stage_of schedule.old) }
    ensures plays { IfOk result (λ told. PlaysItem (world_over D.is_clean S.is_clean D.is_sound S.is_sound D.kept S.kept D.refused S.refused) item.now schedule.old schedule.new (string_bytes told)) }
    ensures leaves { LeavesWorld (world_over D.is_clean S.is_clean D.is_sound S.is_sound D.kept S.kept D.refused S.refused) schedule.old.world schedule.new.world }
{
    match item {
        Item::Load(_) => Ok(String::new(alloc)),
        Item::Client(name, ask) => schedule.ask(alloc, name, ask),
        Item::Deliver(number, kept) => schedule.deliver(alloc, *number, *kept),
        Item::All(but) => schedule.deliver_all(alloc, but.as_slice()),
        Item::Site(site, doing) => schedule.at_site(alloc, site, *doing),
        Item::RestartDesk => schedule.restart_desk(alloc),
        Item::Show(name) => schedule.show(alloc, name),
        Item::Leaf(name) => schedule.leaf(alloc, name),
        Item::Committed => schedule.committed(alloc),
    }
}
