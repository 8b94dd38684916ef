//! What sessions at once come to: what each heard, whether it was one run of the protocol, and what the relations are then.

ghost use Rattle.std.specs.Prelude.{◌≡◌, ◌↔◌, ◌++◌, ◌∷◌, [], List, true, IfErr, IfNone, IfOk, IsTrue, IfSome, OnOk, flat_map, map, string_bytes};
ghost use Rattle.catalog.specs.Relation.{catalogue_of};
ghost use Rattle.desk.specs.OfCatalogue.{from_number};
ghost use Rattle.history.specs.Picks.{rows_of};
ghost use Rattle.history.specs.Records.{AreRecords};
ghost use Rattle.databases.specs.Client.{IsOfClient};
ghost use Rattle.runs.specs.Conversations.{AreOfParts};
ghost use Rattle.protocol.specs.Parts.{In};
ghost use Rattle.runs.specs.Run.{HasRun, IsVerdict, Prints, lists_told};
ghost use Rattle.lines.specs.RunScript.{SessionPart as SessionPartNow};

use crate::conversation::Conversation;
use crate::run_text::put_verdict;
use catalog::catalogue::Catalog;
use catalog::chain::Chain;
use databases::client::stopped;
use databases::shown::relation_text;
use forms::mode::{Mode, put_line};
use history::records::Records;
use history::told::Told;
use history::weave::{WeaveFault, weave};
use lines::fault::ProgramFault;
use lines::same_catalog::is_same;
use meaning::schema::RelationSchema;
use std::alloc::Global;
use store::desk_store::DeskStore;
use store::site_store::SiteStore;
use terms::memory::Memory;
use terms::text::Text;
use world::laws::chain_is_listed;

/// What sessions at once came to.
#[derive(Drop)]
pub struct Ran {
    /// What is printed: all conversations, the verdict, and each relation with its rows.
    pub printed: String,
    /// Whether what the machines did was one run of the protocol.
    pub is_woven: bool,
    /// How often statements were said again.
    pub retries: u64,
}

/// The catalogue of a chain that is this one, if it has one.
fn same_in<'a>(catalogs: &'a [Catalog], catalog: &Catalog) -> Option<&'a Catalog>
    ensures same { IfSome result (λ found. catalogue_of found.now ≡ catalogue_of catalog.now) }
    ensures among { IfSome result (λ found. In (catalogue_of found.now) (map catalogue_of catalogs.now)) }
    ensures none { IfNone result (¬ (In (catalogue_of catalog.now) (map catalogue_of catalogs.now))) }
{
    let (first, rest) = catalogs.split_first()?;
    if is_same(first, catalog) {
        Some(first)
    } else {
        same_in(rest, catalog)
    }
}

/// Whether two lists of catalogues are one.
fn are_same(catalogs: &[Catalog], others: &[Catalog]) -> bool
    ensures { IsTrue result ↔ (map catalogue_of catalogs.now ≡ map catalogue_of others.now) }
{
    match (catalogs.split_first(), others.split_first()) {
        (None, None) => true,
        (Some((catalog, catalogs)), Some((other, others))) => {
            is_same(catalog, other) && are_same(catalogs, others)
        }
        _ => false,
    }
}

/// Whether these catalogues are those of a chain from the one of this number on.
fn are_from(chain: &[Catalog], number: u64, catalogs: &[Catalog]) -> bool
    ensures { IsTrue result ↔ (map catalogue_of catalogs.now ≡ from_number number (map catalogue_of chain.now)) }
{
    let Some((_, rest)) = chain.split_first() else {
        return catalogs.is_empty();
    };
    match number {
        0 => catalogs.is_empty(),
        1 => are_same(catalogs, chain),
        _ => are_from(rest, number - 1, catalogs),
    }
}

/// Whether records are of the catalogues that a chain has from the number of the opening on.
fn are_of<D: DeskStore + Drop, S: SiteStore + Drop>(chain: &Chain, records: &Records<D, S>) -> bool
    ensures { result ≡ true → map catalogue_of records.now.catalogs.items ≡ from_number records.now.opening.version (map catalogue_of chain.now) }
{
    are_from(
        chain.as_slice(),
        records.opening().version,
        records.catalogs(),
    )
}

/// Judges the records of sessions that were at work at once, and shows the relations under the catalogue in force at the end.
/// Nothing where the records are of other catalogues than those of the chain from the number of the opening on.
pub fn conclude<'a, D: DeskStore + Drop, S: SiteStore + Drop>(
    alloc: Global,
    chain: &Chain,
    conversations: &[Conversation],
    records: Records<D, S>,
) -> Result<Option<Ran>, ProgramFault<'a>>
    requires { AreRecords D.is_clean D.is_sound D.kept S.is_clean S.is_sound S.kept records.machines records.catalogs.items records.opening records.entries.items records.pasts.items }
    ensures ok { (parts : List SessionPartNow) → AreOfParts parts conversations.now → IfOk result (λ ended. IfSome ended (λ ran. HasRun D.is_clean D.is_sound D.kept S.is_clean S.is_sound S.kept (map catalogue_of chain.now) parts (string_bytes ran.printed) ran.is_woven)) }
    ensures err { IfErr result IsOfClient }
{
    let mut records = records;
    let Some(catalog) = same_in(chain.as_slice(), records.catalog()) else {
        return Ok(None);
    };
    if !are_of(chain, &records) {
        return Ok(None);
    }
    chain_is_listed(chain);
    let verdict = verdict(alloc, &records, conversations)?;
    let mut printed = String::new(alloc);
    put_conversations(&mut printed, conversations)?;
    put_verdict(&mut printed, verdict)?;
    let relations = catalog.schema().relations.as_slice();
    put_relations(&mut printed, catalog, relations, &mut records)?;
    Ok(Some(Ran {
        printed,
        is_woven: verdict.is_none(),
        retries: retries_in(conversations),
    }))
}

/// Why what the machines did wasn't one run of the protocol, in which all stands that sessions were told, if it wasn't.
fn verdict<D: DeskStore + Drop, S: SiteStore + Drop>(
    alloc: Global,
    records: &Records<D, S>,
    conversations: &[Conversation],
) -> Result<Option<WeaveFault>, Memory>
    requires { AreRecords D.is_clean D.is_sound D.kept S.is_clean S.is_sound S.kept records.now.machines records.now.catalogs.items records.now.opening records.now.entries.items records.now.pasts.items }
    ensures { IfOk result (IsVerdict D.is_clean D.is_sound D.kept S.is_clean S.is_sound S.kept records.now.machines records.now.catalogs.items records.now.opening records.now.entries.items records.now.pasts.items (lists_told conversations.now)) }
{
    let lists = lists_told(alloc, conversations)?;
    match weave(alloc, records, lists.as_slice()) {
        Ok(_) => Ok(None),
        Err(WeaveFault::Memory) => Err(Memory),
        Err(fault) => Ok(Some(fault)),
    }
}

/// What sessions were told.
fn lists_told(alloc: Global, conversations: &[Conversation]) -> Result<Vec<&[Told]>, Memory>
    ensures { IfOk result (λ lists. rows_of lists.items ≡ lists_told conversations.now) }
{
    let mut lists = Vec::new(alloc);
    for one in conversations {
        lists.push(one.told.as_slice())?;
    }
    Ok(lists)
}

/// Puts what is printed of each conversation.
fn put_conversations(out: &mut String, conversations: &[Conversation]) -> Result<(), Memory>
    ensures { OnOk result (string_bytes out.new ≡ string_bytes out.old ++ flat_map (λ one. string_bytes one.printed) conversations.now) }
{
    for one in conversations {
        out.push_str(one.printed.as_str())?;
    }
    Ok(())
}

/// How often statements were said again.
fn retries_in(conversations: &[Conversation]) -> u64 {
    conversations
        .iter()
        .fold(0, |all: u64, one| all.saturating_add(one.retries))
}

/// Puts each of these relations with its rows.
#[tactic(auto, using(crate::proofs::RunRecordsLemmas::prints_none, crate::proofs::RunRecordsLemmas::prints_more))]
fn put_relations<'a, D: DeskStore + Drop, S: SiteStore + Drop>(
    out: &mut String,
    catalog: &Catalog,
    relations: &[RelationSchema],
    records: &mut Records<D, S>,
) -> Result<(), ProgramFault<'a>>
    ensures ok { OnOk result (Prints D.is_clean D.is_sound D.kept S.is_clean S.is_sound S.kept (catalogue_of catalog.now) (map (λ relation. relation.name) relations.now) records.old.machines records.new.machines (string_bytes out.old) (string_bytes out.new)) }
    ensures err { IfErr result IsOfClient }
{
    let Some((first, rest)) = relations.split_first() else {
        return Ok(());
    };
    put_relation(out, catalog, &first.name, records)?;
    put_relations(out, catalog, rest, records)
}

/// Puts a relation with its rows.
fn put_relation<'a, D: DeskStore + Drop, S: SiteStore + Drop>(
    out: &mut String,
    catalog: &Catalog,
    name: &Text,
    records: &mut Records<D, S>,
) -> Result<(), ProgramFault<'a>>
    ensures ok { OnOk result (Prints D.is_clean D.is_sound D.kept S.is_clean S.is_sound S.kept (catalogue_of catalog.now) (name.now ∷ []) records.old.machines records.new.machines (string_bytes out.old) (string_bytes out.new)) }
    ensures err { IfErr result IsOfClient }
{
    let found = match records.rebuilt(name) {
        Ok(found) => found,
        Err(fault) => return Err(stopped(fault)),
    };
    let alloc = *out.allocator();
    let rows = relation_text(alloc, Mode::Tabs, catalog, name, found)?;
    put_line(out, Mode::Tabs, name.as_str())?;
    out.push_str(rows.as_str())?;
    Ok(())
}
