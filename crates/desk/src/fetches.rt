//! The fetches of a statement, and the rows that come for them.

ghost use Rattle.std.specs.Prelude.{◌≡◌, ◌≤◌, ℕ, IfOk, length, map, OnErr, OnOk};
ghost use Rattle.std.specs.List.{position_or_len};
ghost use Rattle.std.specs.Option.{option_copied};
ghost use Rattle.catalog.specs.Relation.{catalogue_of};
ghost use Rattle.protocol.specs.Letters.{leaf_of};
ghost use Rattle.desk.specs.Place.{home_in, site_in};
ghost use Rattle.desk.specs.Planned.{IsOfPlan, ask_from, unsent_by, unsent_from};
ghost use Rattle.catalog.specs.FragmentLeaf.{catalogue_leaves, leaf_named, schemas_of};
ghost use Rattle.meaning.specs.Statement.{IsStatementOf};
ghost use Rattle.desk.specs.Database.{Database, IsStated};
ghost use Rattle.desk.specs.OfCatalogue.{InForce, IsOfCatalogue};
ghost use Rattle.desk.specs.Fetches.{are_in_with, awaits, fetched_with, fits_leaf, has_rows_with, with_rows};

use crate::transaction::{Planned, Unsent};
use answers::moves::Move;
use answers::table::{FetchRows, are_parts};
use catalog::catalogue::Catalog;
use meaning::statement::Statement;
use plan::fetch::Fetch;
use std::alloc::Global;
use store::reply::Rows;
use terms::cond::Conds;
use terms::copy::TryCopy;
use terms::leaf::Leaf;
use terms::memory::Memory;
use terms::part::Part;
use terms::seq::Seq;
use terms::text::Text;
use terms::write::Write;

/// A fetch of a statement.
#[derive(Drop)]
pub(crate) struct Ask {
    pub(crate) leaf: Leaf,
    /// The site of the leaf.
    pub(crate) site: Text,
    pub(crate) conds: Conds,
    /// Its number among the operations sent to its site, once it is sent.
    pub(crate) number: Option<u64>,
    /// The parts that came.
    pub(crate) rows: Option<Seq<Part>>,
}

/// The site of a leaf, if the catalogue has the leaf.
fn site_in<'a>(catalog: &'a Catalog, leaf: &Leaf) -> Option<&'a Text>
    ensures { option_copied result ≡ site_in (catalogue_of catalog.now) leaf.now }
{
    let leaf = catalog.leaf(leaf)?;
    catalog.sites().get(leaf.site)
}

/// The name of a leaf's site; of a leaf that the catalogue doesn't have an empty one.
fn home_in(alloc: Global, catalog: &Catalog, leaf: &Leaf) -> Result<Text, Memory>
    ensures { IfOk result (λ site. site ≡ home_in (catalogue_of catalog.now) leaf.now) }
{
    match site_in(catalog, leaf) {
        Some(site) => site.copy(),
        None => Text::copy_of(alloc, ""),
    }
}

/// The fetches of a plan, of which none is sent yet.
fn asks_of(alloc: Global, catalog: &Catalog, fetches: &[Fetch]) -> Result<Vec<Ask>, Memory>
    ensures { IfOk result (λ asks. asks.items ≡ map (ask_from (catalogue_of catalog.now)) fetches.now) }
{
    let mut asks = Vec::new(alloc);
    for fetch in fetches {
        asks.push(Ask {
            leaf: fetch.leaf.copy()?,
            site: home_in(alloc, catalog, &fetch.leaf)?,
            conds: fetch.conds.copy()?,
            number: None,
            rows: None,
        })?;
    }
    Ok(asks)
}

/// The plan of a statement, and its fetches, of which none is sent yet.
#[derive(Drop)]
pub(crate) struct Ready {
    pub(crate) plan: Planned,
    pub(crate) asks: Vec<Ask>,
}

/// What a statement of the catalogue's schema begins with.
pub(crate) fn ready_for(
    alloc: Global,
    catalog: &Catalog,
    statement: &Statement,
) -> Result<Ready, Memory>
    requires { IsStatementOf (schemas_of (catalogue_of catalog.now)) statement.now }
    ensures of_plan { (db : Database) (n : ℕ) → IsOfCatalogue db → InForce db n catalog.now → IsStated db n statement.now
        → IfOk result (λ ready. IsOfPlan db n statement.now ready.plan ready.asks.items) }
    ensures asks { IfOk result (λ ready. ready.asks.items ≡ map (ask_from (catalogue_of catalog.now)) ready.plan.fetches) }
{
    let plan = Planned::new(alloc, catalog, statement)?;
    let asks = asks_of(alloc, catalog, plan.fetches())?;
    Ok(Ready { plan, asks })
}

/// The leaf of a write.
fn leaf_of(write: &Write) -> &Leaf
    ensures { result.now ≡ leaf_of write.now }
{
    match write {
        Write::Put(leaf, _) => leaf,
        Write::Del(leaf, _) => leaf,
    }
}

/// Writes that are to be sent.
pub(crate) fn unsent_of(
    alloc: Global,
    catalog: &Catalog,
    writes: Vec<Write>,
) -> Result<Vec<Unsent>, Memory>
    ensures { IfOk result (λ unsent. unsent.items ≡ map (unsent_from (catalogue_of catalog.now)) writes.items) }
{
    let mut unsent = Vec::new(alloc);
    for write in writes {
        let site = home_in(alloc, catalog, leaf_of(&write))?;
        unsent.push(Unsent { write, site })?;
    }
    Ok(unsent)
}

/// Moves that are to be sent.
pub(crate) fn unsent_by(alloc: Global, moves: Vec<Move>) -> Result<Vec<Unsent>, Memory>
    ensures { IfOk result (λ unsent. unsent.items ≡ map unsent_by moves.items) }
{
    let mut unsent = Vec::new(alloc);
    for one in moves {
        let Move { site, write } = one;
        unsent.push(Unsent { write, site })?;
    }
    Ok(unsent)
}

/// Whether rows can be parts of a leaf.
fn fits_leaf(catalog: &Catalog, leaf: &Leaf, parts: &[Part]) -> bool
    ensures { result ≡ fits_leaf (leaf_named leaf.now (catalogue_leaves (catalogue_of catalog.now))) parts.now }
{
    match catalog.leaf(leaf) {
        Some(leaf) => are_parts(leaf.columns.as_slice(), parts),
        None => false,
    }
}

/// Whether these rows of a site are those that a fetch waits for.
#[inline(always)]
fn awaits(catalog: &Catalog, site: &Text, rows: &Rows, ask: &Ask) -> bool
    ensures { result ≡ awaits (catalogue_of catalog.now) site.now rows.now.op rows.now.parts ask.now }
{
    ask.site == *site
        && ask.number == Some(rows.op)
        && ask.rows.is_none()
        && fits_leaf(catalog, &ask.leaf, rows.parts.as_slice())
}

/// How many fetches stand before the first that waits for these rows; all of them, where none does.
fn before_waiting(catalog: &Catalog, site: &Text, rows: &Rows, asks: &[Ask]) -> usize
    ensures first { result ≡ position_or_len (awaits (catalogue_of catalog.now) site.now rows.now.op rows.now.parts) asks.now }
    ensures within { result ≤ length asks.now }
{
    let Some((ask, rest)) = asks.split_first() else {
        return 0;
    };
    if awaits(catalog, site, rows, ask) {
        return 0;
    }
    before_waiting(catalog, site, rows, rest) + 1
}

/// Each fetch that waits for these rows gets them once all have been looked at, so on an error none has. Those that don't are
/// passed over at once.
fn put_rows(catalog: &Catalog, site: &Text, rows: &Rows, asks: &mut [Ask]) -> Result<(), Memory>
    ensures ok { OnOk result (asks.new ≡ map (with_rows (catalogue_of catalog.now) site.now rows.now.op rows.now.parts) asks.old) }
    ensures same { OnErr result (asks.new ≡ asks.old) }
{
    let before = before_waiting(catalog, site, rows, asks);
    let (_, waiting) = asks.split_at_mut(before);
    let Some((ask, rest)) = waiting.split_first_mut() else {
        return Ok(());
    };
    let parts = rows.parts.copy()?;
    put_rows(catalog, site, rows, rest)?;
    ask.rows = Some(parts);
    Ok(())
}

/// The fetches that wait for these rows get them. What came before stays where it is.
pub(crate) fn bring(
    catalog: &Catalog,
    site: &Text,
    rows: &Rows,
    asks: &mut Vec<Ask>,
) -> Result<(), Memory>
    ensures ok { OnOk result (asks.new.items ≡ map (with_rows (catalogue_of catalog.now) site.now rows.now.op rows.now.parts) asks.old.items) }
    ensures same { OnErr result (asks.new ≡ asks.old) }
{
    put_rows(catalog, site, rows, asks.as_mut_slice())
}

/// Whether a fetch has its rows once these have come.
fn has_rows_with(catalog: &Catalog, site: &Text, rows: &Rows, ask: &Ask) -> bool
    ensures { result ≡ has_rows_with (catalogue_of catalog.now) site.now rows.now.op rows.now.parts ask.now }
{
    ask.rows.is_some() || awaits(catalog, site, rows, ask)
}

/// Whether all rows are in once these have come. The last fetch is looked at first: it mostly waits the longest.
pub(crate) fn are_in_with(catalog: &Catalog, site: &Text, rows: &Rows, asks: &[Ask]) -> bool
    ensures { result ≡ are_in_with (catalogue_of catalog.now) site.now rows.now.op rows.now.parts asks.now }
{
    let Some((ask, rest)) = asks.split_last() else {
        return true;
    };
    has_rows_with(catalog, site, rows, ask) && are_in_with(catalog, site, rows, rest)
}

/// What a fetch has brought, where it waited for these rows or had its own. The rows stay where they are.
fn brought_by<'a>(rows: &'a Rows, ask: &'a Ask) -> FetchRows<'a>
    ensures { result ≡ fetched_with rows.now.parts ask.now }
{
    match &ask.rows {
        Some(own) => FetchRows::new(&ask.leaf, own.as_slice()),
        None => FetchRows::new(&ask.leaf, rows.parts.as_slice()),
    }
}

/// What fetches have brought, each of which waited for these rows or had its own.
pub(crate) fn brought_with<'a>(
    alloc: Global,
    rows: &'a Rows,
    asks: &'a [Ask],
) -> Result<Vec<FetchRows<'a>>, Memory>
    ensures { IfOk result (λ fetched. fetched.items ≡ map (fetched_with rows.now.parts) asks.now) }
{
    let mut fetched = Vec::with_capacity(alloc, asks.len())?;
    for ask in asks {
        fetched.push(brought_by(rows, ask))?;
    }
    Ok(fetched)
}
