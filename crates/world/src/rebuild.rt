//! Relations, rebuilt from the settled fragments as a SELECT of all their columns.

ghost use Rattle.std.specs.Prelude.{◌≡◌, ◌≢◌, ◌∷◌, [], Err, Some, IfErr, IfOk, map, ℕ, List, IfSome, false, unwrap_or};
ghost use Rattle.std.specs.FinMap as fin;
ghost use Rattle.std.specs.List.{AllByRecursion, Contains, filter};
ghost use Rattle.std.specs.Option.{option_and_then, option_copied, option_map};
ghost use Rattle.catalog.specs.Relation.{catalogue_of};
ghost use Rattle.desk.specs.Database.{Database};
ghost use Rattle.desk.specs.OfCatalogue.{InForce};
ghost use Rattle.desk.specs.CatalogueDatabase.{database};
ghost use Rattle.desk.specs.Place.{site_in};
ghost use Rattle.world.specs.declared.fault.Fault.TheVariants as faults;
ghost use Rattle.world.specs.Counted.{counts, counts_of};
ghost use Rattle.world.specs.Fault.{FailsFor};
ghost use Rattle.world.specs.Frame.{LeavesMachines, LeavesSites, StaysAsItIs};
ghost use Rattle.store.specs.Frame.{LeavesStore};
ghost use Rattle.world.specs.Contents.{OfStores, held};
ghost use Rattle.world.specs.Sites.{IsSeated, Seat, seat_of};
ghost use Rattle.world.specs.Seated.{seat_from, seats_in};
ghost use Rattle.world.specs.Recovery.{StopsOpening};
ghost use Rattle.world.specs.Settled.{AreDecided, HasSitesOf, KnowsRows, SettlesTo, parts_kept, settled_at, settled_in, brought_of, everything, rows_shown};
ghost use Rattle.terms.specs.declared.value.Value.{Value};
ghost use Rattle.terms.specs.Cond.{conds_hold};
ghost use Rattle.meaning.specs.declared.answer.Answer.TheVariants as answers;
ghost use Rattle.meaning.specs.declared.statement.Statement.TheVariants as statements;
ghost use Rattle.meaning.specs.Meaning.{meaning};
ghost use Rattle.meaning.specs.Schema.{relation_named};
ghost use Rattle.meaning.specs.Statement.{IsStatementOf, is_refragment};
ghost use Rattle.meaning.specs.Whole.{FitsSchema, Relations};
ghost use Rattle.catalog.specs.FragmentLeaf.{schemas_of};
ghost use Rattle.plan.specs.Given.{AreBrought};
ghost use Rattle.plan.specs.Need.{places_to};
ghost use Rattle.plan.specs.Reduced.{FindsAll};
ghost use Rattle.plan.specs.Postfix.{plan_of};
ghost use Rattle.plan.specs.Stated.{AreFetchesOf};
ghost use Rattle.plan.specs.Uniform.{EachRead, IsUniform};
ghost use Rattle.answers.specs.Table.{AreParts, given};
ghost use Rattle.desk.specs.declared.refusal.Refusal.TheVariants as refusals;

use crate::fault::Fault;
use crate::laws::database_is_of_catalogue;
use crate::machines::Machines;
use crate::sites::is_called;
use answers::table::{Brought, are_all_parts, lent};
use answers::work::work;
use catalog::catalogue::Catalog;
use catalog::laws::leaf_names_are_unique;
use meaning::answer::Answer;
use meaning::schema::{Column, RelationSchema};
use meaning::statement::{Select, Source, Statement};
use plan::fetch::Fetch;
use plan::laws::contents_ascend;
use plan::nodes::{ReducedNodes, reduced_nodes};
use site::fault::SiteFault;
use site::site::Site;
use std::alloc::Global;
use store::commit::CommitRow;
use store::desk_store::DeskStore;
use store::fault::StoreFault;
use store::name::Txn;
use store::site_store::SiteStore;
use terms::cond::Conds;
use terms::copy::TryCopy;
use terms::leaf::Leaf;
use terms::memory::Memory;
use terms::part::Part;
use terms::row::Row;
use terms::seq::Seq;
use terms::text::Text;

/// A site's parts of a leaf, by key, with the intentions of those prepared rows whose transactions are decided.
fn settled_in<S: SiteStore>(
    site: &mut Site<S>,
    decided: &[Txn],
    leaf: &Leaf,
) -> Result<Vec<Part>, SiteFault>
    ensures leaves { LeavesStore S.is_clean S.is_sound S.refused site.old.store site.new.store }
    ensures parts { S.is_clean site.new.store → S.is_sound site.old.store → IsSeated (seat_from S.kept site.old)
        → IfOk result (λ parts. parts.items ≡ fin.values (settled_in decided.now leaf.now (seat_from S.kept site.old))) }
    ensures same { S.is_clean site.new.store → S.is_sound site.old.store → seat_from S.kept site.new ≡ seat_from S.kept site.old }
    ensures fails { S.is_clean site.new.store → S.is_sound site.old.store → IfErr result (λ fault. FailsFor (S.refused site.old.store ∷ []) (S.refused site.new.store ∷ []) (faults.Site fault)) }
{
    let all = site.settled(decided)?;
    Ok(all.list(leaf)?)
}

/// The same at the site of this name. Where there is none, the leaf is a stranger's.
fn settled_among<S: SiteStore>(
    sites: &mut [Site<S>],
    place: &Text,
    decided: &[Txn],
    leaf: &Leaf,
) -> Result<Vec<Part>, SiteFault>
    ensures leaves { LeavesSites S.is_clean S.is_sound S.refused sites.old sites.new }
    ensures parts { AllByRecursion (λ site. S.is_clean site.store) sites.new → AllByRecursion (λ site. S.is_sound site.store) sites.old → AllByRecursion IsSeated (seats_in S.kept sites.old)
        → IfOk result (λ parts. option_map (λ content. fin.values content) (settled_at decided.now leaf.now (seats_in S.kept sites.old) place.now) ≡ Some parts.items) }
    ensures same { AllByRecursion (λ site. S.is_clean site.store) sites.new → AllByRecursion (λ site. S.is_sound site.store) sites.old → seats_in S.kept sites.new ≡ seats_in S.kept sites.old }
    ensures fails { (seat : Seat) → AllByRecursion (λ site. S.is_clean site.store) sites.new → AllByRecursion (λ site. S.is_sound site.store) sites.old → seat_of place.now (seats_in S.kept sites.old) ≡ Some seat
        → IfErr result (λ fault. FailsFor (counts_of S.refused sites.old) (counts_of S.refused sites.new) (faults.Site fault)) }
{
    let Some((site, rest)) = sites.split_first_mut() else {
        return Err(SiteFault::Stranger);
    };
    if !is_called(site, place) {
        return settled_among(rest, place, decided, leaf);
    }
    settled_in(site, decided, leaf)
}

/// The transactions of commit rows.
fn txns_of(alloc: Global, rows: &[CommitRow]) -> Result<Vec<Txn>, Memory>
    ensures { IfOk result (λ txns. txns.items ≡ map (λ row. row.txn) rows.now) }
{
    let mut txns = Vec::new(alloc);
    for row in rows {
        txns.push(row.txn)?;
    }
    Ok(txns)
}

/// The transactions that have a commit row.
pub(crate) fn decided<D: DeskStore, S: SiteStore>(
    machines: &mut Machines<D, S>,
) -> Result<Vec<Txn>, Fault>
    ensures sent { result ≢ Err faults.Unsent }
    ensures leaves { LeavesMachines D.is_clean S.is_clean D.is_sound S.is_sound D.refused S.refused machines.old machines.new }
    ensures all { OfStores D.is_clean S.is_clean machines.new → OfStores D.is_sound S.is_sound machines.old → KnowsRows (held D.kept S.kept machines.old) → IfOk result (λ all. AreDecided (held D.kept S.kept machines.old).table all.items) }
    ensures same { StaysAsItIs (OfStores D.is_clean S.is_clean) (OfStores D.is_sound S.is_sound) (held D.kept S.kept) machines.old machines.new }
    ensures fails { OfStores D.is_clean S.is_clean machines.new → OfStores D.is_sound S.is_sound machines.old → IfErr result (FailsFor (counts D.refused S.refused machines.old) (counts D.refused S.refused machines.new)) }
    ensures own { IfErr result StopsOpening }
{
    let kept = machines.desk.kept()?;
    Ok(txns_of(machines.alloc, kept.commits.as_slice())?)
}

/// The site of a leaf, if the catalogue has the leaf.
fn site_in<'a>(catalog: &'a Catalog, leaf: &Leaf) -> Option<&'a Text>
    ensures { option_copied result ≡ site_in (catalogue_of catalog.now) leaf.now }
{
    let leaf = catalog.leaf(leaf)?;
    catalog.sites().get(leaf.site)
}

/// The parts of a leaf at its site, by key, with the intentions of those prepared rows whose transactions are
/// decided. None of a leaf that the catalogue doesn't have.
pub(crate) fn settled_parts<D: DeskStore, S: SiteStore>(
    machines: &mut Machines<D, S>,
    decided: &[Txn],
    leaf: &Leaf,
) -> Result<Option<Vec<Part>>, Fault>
    ensures sent { result ≢ Err faults.Unsent }
    ensures leaves { LeavesMachines D.is_clean S.is_clean D.is_sound S.is_sound D.refused S.refused machines.old machines.new }
    ensures parts { OfStores D.is_clean S.is_clean machines.new → OfStores D.is_sound S.is_sound machines.old → AllByRecursion IsSeated (held D.kept S.kept machines.old).seats
        → IfOk result (λ found. option_map (λ parts. parts.items) found ≡ option_and_then (λ place. option_map (λ content. fin.values content) (settled_at decided.now leaf.now (held D.kept S.kept machines.old).seats place)) (site_in (catalogue_of machines.old.desk.catalog) leaf.now)) }
    ensures same { StaysAsItIs (OfStores D.is_clean S.is_clean) (OfStores D.is_sound S.is_sound) (held D.kept S.kept) machines.old machines.new }
    ensures fails { OfStores D.is_clean S.is_clean machines.new → OfStores D.is_sound S.is_sound machines.old → HasSitesOf (catalogue_of machines.old.desk.catalog) (held D.kept S.kept machines.old) → IfErr result (FailsFor (counts D.refused S.refused machines.old) (counts D.refused S.refused machines.new)) }
{
    let Some(place) = site_in(machines.desk.catalog(), leaf) else {
        return Ok(None);
    };
    match settled_among(machines.sites.as_mut_slice(), place, decided, leaf) {
        Ok(parts) => Ok(Some(parts)),
        Err(fault) => Err(Fault::Site(fault)),
    }
}

/// The parts that are kept of a leaf, by key. None of a leaf that the catalogue doesn't have.
pub fn kept_parts<D: DeskStore, S: SiteStore>(
    machines: &mut Machines<D, S>,
    leaf: &Leaf,
) -> Result<Option<Vec<Part>>, Fault>
    ensures sent { result ≢ Err faults.Unsent }
    ensures leaves { LeavesMachines D.is_clean S.is_clean D.is_sound S.is_sound D.refused S.refused machines.old machines.new }
    ensures parts { (db : Database) → InForce db (held D.kept S.kept machines.old).table.version machines.old.desk.catalog → OfStores D.is_clean S.is_clean machines.new → OfStores D.is_sound S.is_sound machines.old → HasSitesOf (catalogue_of machines.old.desk.catalog) (held D.kept S.kept machines.old)
        → IfOk result (λ shown. option_map (λ parts. parts.items) shown ≡ parts_kept db (held D.kept S.kept machines.old) leaf.now) }
    ensures same { StaysAsItIs (OfStores D.is_clean S.is_clean) (OfStores D.is_sound S.is_sound) (held D.kept S.kept) machines.old machines.new }
    ensures fails { OfStores D.is_clean S.is_clean machines.new → OfStores D.is_sound S.is_sound machines.old → HasSitesOf (catalogue_of machines.old.desk.catalog) (held D.kept S.kept machines.old) → IfErr result (FailsFor (counts D.refused S.refused machines.old) (counts D.refused S.refused machines.new)) }
{
    let _relations = machines.desk.catalog().relations();
    settled_parts(machines, &[], leaf)
}

/// The names of columns.
fn names_of(alloc: Global, columns: &[Column]) -> Result<Vec<Text>, Memory>
    ensures { IfOk result (λ names. names.items ≡ map (λ column. column.name) columns.now) }
{
    let mut names = Vec::new(alloc);
    for column in columns {
        names.push(column.name.copy()?)?;
    }
    Ok(names)
}

/// The numbers below this one.
fn places_to(alloc: Global, width: usize) -> Result<Vec<usize>, Memory>
    ensures { IfOk result (λ places. places.items ≡ places_to width) }
{
    let mut places = Vec::new(alloc);
    for place in 0..width {
        places.push(place)?;
    }
    Ok(places)
}

/// The SELECT of all columns of a relation.
fn everything(alloc: Global, relation: &RelationSchema) -> Result<Select, Memory>
    ensures { IfOk result (λ select. select ≡ everything relation.now) }
{
    let columns = relation.columns.as_slice();
    Ok(Select {
        from: Source {
            name: relation.name.copy()?,
            columns: Seq::new(names_of(alloc, columns)?),
        },
        joins: Seq::new(Vec::new(alloc)),
        columns: Seq::new(places_to(alloc, columns.len())?),
        conds: Conds::new(Vec::new(alloc))?,
    })
}

/// The parts that meet conditions.
fn meeting(parts: Vec<Part>, conds: &Conds) -> Vec<Part>
    ensures { result.items ≡ filter (conds_hold conds.now) parts.items }
{
    let mut parts = parts;
    parts.retain(|part| part.meets(conds.as_slice()));
    parts
}

/// These parts, or none.
fn or_none(alloc: Global, found: Option<Vec<Part>>) -> Vec<Part>
    ensures { result.items ≡ unwrap_or (option_map (λ parts. parts.items) found) [] }
{
    match found {
        Some(parts) => parts,
        None => Vec::new(alloc),
    }
}

/// What a fetch brings of the settled fragments; nothing of a leaf that the catalogue doesn't have.
fn bring_one<D: DeskStore, S: SiteStore>(
    machines: &mut Machines<D, S>,
    decided: &[Txn],
    fetch: &Fetch,
) -> Result<Brought, Fault>
    ensures sent { result ≢ Err faults.Unsent }
    ensures leaves { LeavesMachines D.is_clean S.is_clean D.is_sound S.is_sound D.refused S.refused machines.old machines.new }
    ensures same { StaysAsItIs (OfStores D.is_clean S.is_clean) (OfStores D.is_sound S.is_sound) (held D.kept S.kept) machines.old machines.new }
    ensures fails { OfStores D.is_clean S.is_clean machines.new → OfStores D.is_sound S.is_sound machines.old → HasSitesOf (catalogue_of machines.old.desk.catalog) (held D.kept S.kept machines.old) → IfErr result (FailsFor (counts D.refused S.refused machines.old) (counts D.refused S.refused machines.new)) }
    ensures brought { (whole : Relations) → OfStores D.is_clean S.is_clean machines.new → OfStores D.is_sound S.is_sound machines.old → HasSitesOf (catalogue_of machines.old.desk.catalog) (held D.kept S.kept machines.old) → SettlesTo (catalogue_of machines.old.desk.catalog) (held D.kept S.kept machines.old) whole → AreDecided (held D.kept S.kept machines.old).table decided.now
        → IfOk result (λ rows. rows ≡ brought_of (catalogue_of machines.old.desk.catalog) whole fetch.now) }
{
    database_is_of_catalogue(machines.desk.catalog());
    let found = settled_parts(machines, decided, &fetch.leaf)?;
    let parts = meeting(or_none(machines.alloc, found), &fetch.conds);
    Ok(Brought::new(fetch.leaf.copy()?, parts))
}

/// What fetches bring of the settled fragments.
fn bring<D: DeskStore, S: SiteStore>(
    machines: &mut Machines<D, S>,
    decided: &[Txn],
    fetches: &[Fetch],
) -> Result<Vec<Brought>, Fault>
    ensures sent { result ≢ Err faults.Unsent }
    ensures leaves { LeavesMachines D.is_clean S.is_clean D.is_sound S.is_sound D.refused S.refused machines.old machines.new }
    ensures same { StaysAsItIs (OfStores D.is_clean S.is_clean) (OfStores D.is_sound S.is_sound) (held D.kept S.kept) machines.old machines.new }
    ensures fails { OfStores D.is_clean S.is_clean machines.new → OfStores D.is_sound S.is_sound machines.old → HasSitesOf (catalogue_of machines.old.desk.catalog) (held D.kept S.kept machines.old) → IfErr result (FailsFor (counts D.refused S.refused machines.old) (counts D.refused S.refused machines.new)) }
    ensures brought { (whole : Relations) → OfStores D.is_clean S.is_clean machines.new → OfStores D.is_sound S.is_sound machines.old → HasSitesOf (catalogue_of machines.old.desk.catalog) (held D.kept S.kept machines.old) → SettlesTo (catalogue_of machines.old.desk.catalog) (held D.kept S.kept machines.old) whole → AreDecided (held D.kept S.kept machines.old).table decided.now
        → IfOk result (λ rows. rows.items ≡ map (brought_of (catalogue_of machines.old.desk.catalog) whole) fetches.now) }
{
    let mut brought = Vec::new(machines.alloc);
    for fetch in fetches {
        brought.push(bring_one(machines, decided, fetch)?)?;
    }
    Ok(brought)
}

/// What a statement answers by what its fetches brought.
fn answer(
    alloc: Global,
    catalog: &Catalog,
    statement: &Statement,
    reduced: &ReducedNodes,
    brought: &[Brought],
) -> Result<Answer, Fault>
    requires fetched { EachRead (λ read. Contains reduced.now.fetches.items read) (plan_of reduced.now.nodes.items) }
    requires uniform { IsUniform (plan_of reduced.now.nodes.items) }
    ensures sent { result ≢ Err faults.Unsent }
    ensures answer { IsStatementOf (schemas_of (catalogue_of catalog.now)) statement.now → AreFetchesOf (catalogue_of catalog.now) statement.now reduced.now.fetches.items → FindsAll (catalogue_of catalog.now) statement.now reduced.now.fetches.items (plan_of reduced.now.nodes.items)
        → IfOk result (λ answer. (whole : Relations) → FitsSchema (schemas_of (catalogue_of catalog.now)) whole → AreBrought (catalogue_of catalog.now) whole reduced.now.fetches.items (given brought.now) → answer ≡ (meaning statement.now whole).0) }
    ensures fails { AllByRecursion (λ read. AreParts read.columns (given brought.now read.leaf)) reduced.now.fetches.items → IfErr result (λ fault. fault ≡ faults.Desk refusals.Memory) }
{
    let reads = reduced.fetches.as_slice();
    let rows = lent(alloc, brought)?;
    if !are_all_parts(reads, rows.as_slice()) {
        return Err(Fault::Site(SiteFault::Store(StoreFault::Damaged)));
    }
    let nodes = reduced.nodes.as_slice();
    Ok(work(alloc, catalog, statement, nodes, reads, rows.as_slice())?.answer)
}

/// The rows of an answer.
fn rows_of(alloc: Global, answer: Answer) -> Vec<Row>
    ensures { (names : List (List ℕ)) (rows : List (List Value)) → answer ≡ answers.Rows names rows → result.items ≡ rows }
{
    match answer {
        Answer::Rows(_, rows) => rows.into_vec(),
        _ => Vec::new(alloc),
    }
}

/// What a statement answers over the settled fragments.
fn answer_settled<D: DeskStore, S: SiteStore>(
    machines: &mut Machines<D, S>,
    statement: &Statement,
) -> Result<Answer, Fault>
    requires fits { IsStatementOf (schemas_of (catalogue_of machines.old.desk.catalog)) statement.now }
    requires ordinary { is_refragment statement.now ≡ false }
    ensures sent { result ≢ Err faults.Unsent }
    ensures leaves { LeavesMachines D.is_clean S.is_clean D.is_sound S.is_sound D.refused S.refused machines.old machines.new }
    ensures same { StaysAsItIs (OfStores D.is_clean S.is_clean) (OfStores D.is_sound S.is_sound) (held D.kept S.kept) machines.old machines.new }
    ensures fails { (whole : Relations) → OfStores D.is_clean S.is_clean machines.new → OfStores D.is_sound S.is_sound machines.old → HasSitesOf (catalogue_of machines.old.desk.catalog) (held D.kept S.kept machines.old) → SettlesTo (catalogue_of machines.old.desk.catalog) (held D.kept S.kept machines.old) whole → FitsSchema (schemas_of (catalogue_of machines.old.desk.catalog)) whole
        → IfErr result (FailsFor (counts D.refused S.refused machines.old) (counts D.refused S.refused machines.new)) }
    ensures answer { (whole : Relations) → OfStores D.is_clean S.is_clean machines.new → OfStores D.is_sound S.is_sound machines.old → HasSitesOf (catalogue_of machines.old.desk.catalog) (held D.kept S.kept machines.old) → SettlesTo (catalogue_of machines.old.desk.catalog) (held D.kept S.kept machines.old) whole → FitsSchema (schemas_of (catalogue_of machines.old.desk.catalog)) whole
        → IfOk result (λ answer. answer ≡ (meaning statement.now whole).0) }
{
    leaf_names_are_unique();
    contents_ascend();
    database_is_of_catalogue(machines.desk.catalog());
    let alloc = machines.alloc;
    let reduced = reduced_nodes(alloc, machines.desk.catalog(), statement)?;
    let decided = decided(machines)?;
    let brought = bring(machines, decided.as_slice(), reduced.fetches.as_slice())?;
    answer(
        alloc,
        machines.desk.catalog(),
        statement,
        &reduced,
        brought.as_slice(),
    )
}

/// The SELECT of all columns of the relation of this name, if there is one.
fn everything_of(alloc: Global, catalog: &Catalog, name: &Text) -> Result<Option<Statement>, Memory>
    ensures statement { IfOk result (λ found. found ≡ option_map (λ relation. statements.Select (everything relation)) (relation_named name.now (schemas_of (catalogue_of catalog.now)))) }
    ensures fits { IfOk result (λ found. IfSome found (IsStatementOf (schemas_of (catalogue_of catalog.now)))) }
    ensures ordinary { IfOk result (λ found. IfSome found (λ statement. is_refragment statement ≡ false)) }
{
    let _relations = catalog.relations();
    match catalog.schema().relation(name.as_str().as_bytes()) {
        Some(relation) => Ok(Some(Statement::Select(everything(alloc, relation)?))),
        None => Ok(None),
    }
}

/// The rows of a relation in the settled fragments; none of a relation that there isn't.
pub fn rebuilt<D: DeskStore, S: SiteStore>(
    machines: &mut Machines<D, S>,
    name: &Text,
) -> Result<Option<Vec<Row>>, Fault>
    ensures sent { result ≢ Err faults.Unsent }
    ensures leaves { LeavesMachines D.is_clean S.is_clean D.is_sound S.is_sound D.refused S.refused machines.old machines.new }
    ensures same { StaysAsItIs (OfStores D.is_clean S.is_clean) (OfStores D.is_sound S.is_sound) (held D.kept S.kept) machines.old machines.new }
    ensures fails { (whole : Relations) → OfStores D.is_clean S.is_clean machines.new → OfStores D.is_sound S.is_sound machines.old → HasSitesOf (catalogue_of machines.old.desk.catalog) (held D.kept S.kept machines.old) → SettlesTo (catalogue_of machines.old.desk.catalog) (held D.kept S.kept machines.old) whole → FitsSchema (schemas_of (catalogue_of machines.old.desk.catalog)) whole
        → IfErr result (FailsFor (counts D.refused S.refused machines.old) (counts D.refused S.refused machines.new)) }
    ensures rows { (whole : Relations) → OfStores D.is_clean S.is_clean machines.new → OfStores D.is_sound S.is_sound machines.old → HasSitesOf (catalogue_of machines.old.desk.catalog) (held D.kept S.kept machines.old) → SettlesTo (catalogue_of machines.old.desk.catalog) (held D.kept S.kept machines.old) whole → FitsSchema (schemas_of (catalogue_of machines.old.desk.catalog)) whole
        → IfOk result (λ shown. option_map (λ rows. rows.items) shown ≡ rows_shown (database (catalogue_of machines.old.desk.catalog)) whole name.now) }
{
    let alloc = machines.alloc;
    let Some(statement) = everything_of(alloc, machines.desk.catalog(), name)? else {
        return Ok(None);
    };
    let answer = answer_settled(machines, &statement)?;
    Ok(Some(rows_of(alloc, answer)))
}
