//! What is shown of a schedule: relations, leaves and which transactions are committed.

ghost use Rattle.std.specs.Prelude.{◌≡◌, ◌++◌, ◌∷◌, [], false, IfOk, OnOk, option_map, string_bytes};
ghost use Rattle.std.specs.List.{flat_map};
ghost use Rattle.catalog.specs.Relation.{catalogue_of};
ghost use Rattle.world.specs.Fault.{is_memory};
ghost use Rattle.world.specs.Replies.{committed_in};
ghost use Rattle.lines.specs.Cast.{name_of};
ghost use Rattle.databases.specs.Schedule.{LeavesWorld, stage_of, world_over};
ghost use Rattle.databases.specs.Shown as spec;
ghost use Rattle.databases.specs.Shown.{IsShownLeaf, IsShownParts, IsShownRelation, ShowsOf, failed_text, names_text, no_leaf_text, written_leaf};

use crate::play_text::{column_names, leaf_columns};
use crate::schedule::{Schedule, refusal};
use catalog::catalogue::Catalog;
use catalog::fragment_leaf::FragmentLeaf;
use desk::refusal::Refusal;
use exchange::dump::dump;
use forms::mode::{Mode, show, show_line};
use lines::cast::Cast;
use lines::check::{columns_of, put_leaf_alone};
use meaning::answer::Answer;
use site::fault::SiteFault;
use std::alloc::Global;
use store::desk_store::DeskStore;
use store::site_store::SiteStore;
use terms::copy::TryCopy;
use terms::leaf::Leaf;
use terms::memory::Memory;
use terms::part::Part;
use terms::row::Row;
use terms::seq::Seq;
use terms::text::Text;
use world::committed::Committed;
use world::fault::Fault;

/// Rows under the names of their columns.
fn rows_text(
    alloc: Global,
    mode: Mode,
    columns: Vec<Text>,
    rows: Vec<Row>,
) -> Result<String, Memory>
    ensures { IfOk result (λ text. string_bytes text ≡ spec.rows_text mode columns.items rows.items) }
{
    show(
        alloc,
        mode,
        &Answer::Rows(Seq::new(columns), Seq::new(rows)),
    )
}

/// Parts as rows.
fn rows_of(alloc: Global, parts: &[Part]) -> Result<Vec<Row>, Memory>
    ensures { IfOk result (λ rows. rows.items ≡ parts.now) }
{
    let mut rows = Vec::new(alloc);
    for part in parts {
        rows.push(Row::of_part(part)?)?;
    }
    Ok(rows)
}

/// The rows of the relation of this name, if there is one.
pub fn relation_text(
    alloc: Global,
    mode: Mode,
    catalog: &Catalog,
    name: &Text,
    found: Option<Vec<Row>>,
) -> Result<String, Memory>
    ensures { IfOk result (λ text. string_bytes text ≡ spec.relation_text mode (catalogue_of catalog.now) name.now (option_map (λ rows. rows.items) found)) }
{
    match found {
        Some(rows) => {
            let columns = columns_of(catalog.schema(), name);
            rows_text(alloc, mode, column_names(alloc, columns)?, rows)
        }
        None => no_relation(alloc, mode, name),
    }
}

/// The statements that make the rows of the relation of this name anew, if there is one.
pub fn relation_dumped(
    alloc: Global,
    mode: Mode,
    catalog: &Catalog,
    name: &Text,
    found: Option<Vec<Row>>,
) -> Result<String, Memory>
    ensures { IfOk result (λ text. string_bytes text ≡ spec.dumped_text mode (catalogue_of catalog.now) name.now (option_map (λ rows. rows.items) found)) }
{
    let Some(rows) = found else {
        return no_relation(alloc, mode, name);
    };
    match catalog.schema().relation(name.as_str().as_bytes()) {
        Some(relation) => dump(alloc, relation, rows.as_slice()),
        None => no_relation(alloc, mode, name),
    }
}

fn no_relation(alloc: Global, mode: Mode, name: &Text) -> Result<String, Memory>
    ensures { IfOk result (λ text. string_bytes text ≡ spec.no_relation_text mode name.now) }
{
    let text = format!(in alloc; "no relation {name}")?;
    show_line(alloc, mode, text.as_str())
}

/// The parts of this leaf, if there is one; `name` is what it is called where there is none.
pub fn parts_text(
    alloc: Global,
    mode: Mode,
    catalog: &Catalog,
    leaf: &Leaf,
    name: &str,
    found: Option<Vec<Part>>,
) -> Result<String, Memory>
    ensures { IfOk result (λ text. string_bytes text ≡ spec.parts_text mode (catalogue_of catalog.now) name.now leaf.now (option_map (λ parts. parts.items) found)) }
{
    match found {
        Some(parts) => {
            let columns = leaf_columns(alloc, catalog, leaf)?;
            rows_text(alloc, mode, columns, rows_of(alloc, parts.as_slice())?)
        }
        None => no_leaf(alloc, mode, name),
    }
}

/// This leaf in a line, with how many rows it has, if there is one; `name` is what it is called where there is none.
pub fn parts_counted(
    alloc: Global,
    mode: Mode,
    catalog: &Catalog,
    leaf: &Leaf,
    name: &str,
    found: Option<Vec<Part>>,
) -> Result<String, Memory>
    ensures { IfOk result (λ text. string_bytes text ≡ spec.counted_text mode (catalogue_of catalog.now) name.now leaf.now (option_map (λ parts. parts.items) found)) }
{
    let Some(parts) = found else {
        return no_leaf(alloc, mode, name);
    };
    match catalog.leaf(leaf) {
        Some(fragment) => counted_line(alloc, catalog, fragment, parts.len()),
        None => no_leaf(alloc, mode, name),
    }
}

/// A leaf in a line, with how many rows it has.
fn counted_line(
    alloc: Global,
    catalog: &Catalog,
    leaf: &FragmentLeaf,
    count: usize,
) -> Result<String, Memory>
    ensures { IfOk result (λ text. string_bytes text ≡ spec.counted_line (catalogue_of catalog.now) leaf.now count) }
{
    let mut text = String::new(alloc);
    put_leaf_alone(&mut text, catalog.sites(), catalog.schema(), leaf)?;
    let noun = if count == 1 { " row\n" } else { " rows\n" };
    write!(text, ": {count}{noun}")?;
    Ok(text)
}

/// What is told where a store fails while this is shown, for another reason than memory.
fn failed(alloc: Global, name: &str, fault: Fault) -> Result<String, Memory>
    ensures told { IfOk result (λ text. string_bytes text ≡ failed_text name.now fault) }
    ensures of_store { OnOk result (is_memory fault ≡ false) }
{
    match fault {
        Fault::Desk(Refusal::Memory) | Fault::Site(SiteFault::Memory) => Err(Memory),
        fault => refusal(alloc, name, name, "", fault),
    }
}

/// The first of some leaves whose name is written so.
pub fn leaf_written(
    alloc: Global,
    leaves: &[FragmentLeaf],
    name: &str,
) -> Result<Option<Leaf>, Memory>
    ensures { IfOk result (λ leaf. leaf ≡ written_leaf name.now leaves.now) }
{
    for leaf in leaves {
        let written = format!(in alloc; "{}", leaf.name)?;
        if written.as_str() == name {
            return Ok(Some(leaf.name.copy()?));
        }
    }
    Ok(None)
}

pub fn no_leaf(alloc: Global, mode: Mode, name: &str) -> Result<String, Memory>
    ensures { IfOk result (λ text. string_bytes text ≡ no_leaf_text mode name.now) }
{
    let text = format!(in alloc; "no leaf {name}")?;
    show_line(alloc, mode, text.as_str())
}

/// Puts the name of each of these transactions in a line.
fn put_names(out: &mut String, cast: &Cast, all: &[Committed]) -> Result<(), Memory>
    ensures { OnOk result (string_bytes out.new ≡ string_bytes out.old ++ flat_map (λ one. name_of cast.now one.txn ++ 10 ∷ []) all.now) }
{
    for one in all {
        put_name(out, cast, one)?;
    }
    Ok(())
}

fn put_name(out: &mut String, cast: &Cast, one: &Committed) -> Result<(), Memory>
    ensures { OnOk result (string_bytes out.new ≡ string_bytes out.old ++ name_of cast.now one.now.txn ++ 10 ∷ []) }
{
    let name = cast.name(one.txn);
    writeln!(out, "{name}")?;
    Ok(())
}

impl<D: DeskStore, S: SiteStore> Schedule<D, S> {
    /// A relation as the fragments rebuild it, unless the medium of a store refuses: then that is told. Nothing has
    /// changed by this.
    pub fn show(&mut self, alloc: Global, name: &Text) -> Result<String, Memory>
        ensures shown { ShowsOf (world_over D.is_clean S.is_clean D.is_sound S.is_sound D.kept S.kept D.refused S.refused) name.now (λ sight text. IsShownRelation sight name.now text) (λ text. string_bytes text) self.old.world self.new.world result }
        ensures same { stage_of self.new ≡ stage_of self.old }
        ensures leaves { LeavesWorld (world_over D.is_clean S.is_clean D.is_sound S.is_sound D.kept S.kept D.refused S.refused) self.old.world self.new.world }
    {
        match self.world.rebuilt(name) {
            Ok(found) => relation_text(alloc, Mode::Tabs, self.world.catalog(), name, found),
            Err(fault) => failed(alloc, name.as_str(), fault),
        }
    }

    /// The parts that a leaf keeps, by the leaf's name, unless the medium of its store refuses: then that is told.
    /// Nothing has changed by this.
    pub fn leaf(&mut self, alloc: Global, name: &Text) -> Result<String, Memory>
        ensures shown { ShowsOf (world_over D.is_clean S.is_clean D.is_sound S.is_sound D.kept S.kept D.refused S.refused) name.now (λ sight text. IsShownLeaf sight name.now text) (λ text. string_bytes text) self.old.world self.new.world result }
        ensures same { stage_of self.new ≡ stage_of self.old }
        ensures leaves { LeavesWorld (world_over D.is_clean S.is_clean D.is_sound S.is_sound D.kept S.kept D.refused S.refused) self.old.world self.new.world }
    {
        match leaf_written(alloc, self.world.catalog().leaves(), name.as_str())? {
            Some(leaf) => self.parts(alloc, &leaf, name.as_str()),
            None => no_leaf(alloc, Mode::Tabs, name.as_str()),
        }
    }

    /// The parts that this leaf keeps; `name` is how it was asked for.
    fn parts(&mut self, alloc: Global, leaf: &Leaf, name: &str) -> Result<String, Memory>
        ensures shown { ShowsOf (world_over D.is_clean S.is_clean D.is_sound S.is_sound D.kept S.kept D.refused S.refused) name.now (λ sight text. IsShownParts sight name.now leaf.now text) (λ text. string_bytes text) self.old.world self.new.world result }
        ensures same { stage_of self.new ≡ stage_of self.old }
        ensures leaves { LeavesWorld (world_over D.is_clean S.is_clean D.is_sound S.is_sound D.kept S.kept D.refused S.refused) self.old.world self.new.world }
    {
        match self.world.parts(leaf) {
            Ok(found) => parts_text(alloc, Mode::Tabs, self.world.catalog(), leaf, name, found),
            Err(fault) => failed(alloc, name, fault),
        }
    }

    /// The names of the committed transactions, in the order in which their commits were asked for.
    pub fn committed(&self, alloc: Global) -> Result<String, Memory>
        ensures { IfOk result (λ text. string_bytes text ≡ names_text (name_of self.now.cast) (committed_in self.now.world.entries.items)) }
    {
        let mut text = String::new(alloc);
        let all = self.world.committed()?;
        put_names(&mut text, &self.cast, all.as_slice())?;
        Ok(text)
    }
}
