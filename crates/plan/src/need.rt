//! What a statement needs of each of its relations.

ghost use Rattle.std.specs.Prelude.{◌≡◌, ◌++◌, ◌∷◌, [], length, true, IfOk, OnOk};
ghost use Rattle.plan.specs.Need as spec;
ghost use Rattle.plan.specs.Need.{carried, conds_of, key_is, needs_behind, needs_of_select, places_of, places_on, places_to};

use crate::link::{Link, equal_of, is_of, links_of};
use meaning::statement::{Insert, Join, Select, Source, Statement};
use std::alloc::Global;
use terms::cond::{Cmp, Cond, Conds};
use terms::copy::TryCopy;
use terms::memory::Memory;
use terms::seq::Seq;
use terms::text::Text;
use terms::value::Value;

/// A relation by its name, the columns that are needed of it, and the conditions on it: its own first,
/// and after them those that joins carry over.
#[derive(Debug, Drop)]
pub struct Need {
    pub relation: Text,
    pub columns: Seq<usize>,
    pub conds: Conds,
}

/// The needs of a statement, that of the relation after FROM first, and the ONs that join the others to
/// those before them, one for each.
#[derive(Debug, Drop)]
pub struct Needs {
    pub relations: Seq<Need>,
    pub links: Seq<Link>,
}

/// What a statement needs.
pub fn statement_needs(alloc: Global, statement: &Statement) -> Result<Needs, Memory>
    ensures { IfOk result (λ needs. needs ≡ spec.needs statement.now) }
{
    match statement {
        Statement::Select(select) => select_needs(alloc, select),
        Statement::Insert(insert) => alone(alloc, need_of_insert(alloc, insert)?),
        Statement::Update(update) => {
            let need = need_of_all(alloc, &update.relation, &update.conds)?;
            alone(alloc, need)
        }
        Statement::Delete(delete) => {
            let need = need_of_all(alloc, &delete.relation, &delete.conds)?;
            alone(alloc, need)
        }
        Statement::Refragment(refragment) => {
            let conds = Conds::new(Vec::new(alloc))?;
            alone(alloc, need_of_all(alloc, &refragment.relation, &conds)?)
        }
    }
}

/// The needs of a statement of one relation.
fn alone(alloc: Global, need: Need) -> Result<Needs, Memory>
    ensures { IfOk result (λ needs. needs ≡ spec.alone need) }
{
    let mut relations = Vec::new(alloc);
    relations.push(need)?;
    Ok(Needs {
        relations: Seq::new(relations),
        links: Seq::new(Vec::new(alloc)),
    })
}

fn select_needs(alloc: Global, select: &Select) -> Result<Needs, Memory>
    ensures { IfOk result (λ needs. needs ≡ needs_of_select select.now (spec.links_of select.now)) }
{
    let links = links_of(alloc, select)?;
    let mut relations = Vec::new(alloc);
    relations.push(need_of(alloc, select, links.as_slice(), 0, &select.from)?)?;
    put_needs(alloc, &mut relations, select, links.as_slice())?;
    Ok(Needs {
        relations: Seq::new(relations),
        links: Seq::new(links),
    })
}

/// Puts out the needs of the joined relations.
fn put_needs(
    alloc: Global,
    out: &mut Vec<Need>,
    select: &Select,
    links: &[Link],
) -> Result<(), Memory>
    ensures { OnOk result (out.new.items ≡ out.old.items ++ needs_behind select.now links.now (length select.now.from.columns) select.now.joins) }
{
    let mut before = select.from.columns.as_slice().len();
    for join in select.joins.as_slice() {
        out.push(need_of(alloc, select, links, before, &join.relation)?)?;
        let width = join.relation.columns.as_slice().len();
        before = before.checked_add(width).ok_or(Memory)?;
    }
    Ok(())
}

/// What a SELECT needs of a relation that stands behind so many columns.
fn need_of(
    alloc: Global,
    select: &Select,
    links: &[Link],
    before: usize,
    source: &Source,
) -> Result<Need, Memory>
    ensures { IfOk result (λ need. need ≡ spec.need_of select.now links.now before source.now) }
{
    let width = source.columns.as_slice().len();
    let columns = columns_read(alloc, links, before, width, select)?;
    Ok(Need {
        relation: source.name.copy()?,
        columns: Seq::new(columns),
        conds: conds_on(alloc, links, before, width, &select.conds)?,
    })
}

/// The conditions on the relation that stands behind so many columns: its own, and behind them those that ONs carry to it. Where they
/// are all its own as they stand, they are shared.
fn conds_on(
    alloc: Global,
    links: &[Link],
    before: usize,
    width: usize,
    conds: &Conds,
) -> Result<Conds, Memory>
    ensures { IfOk result (λ found. found ≡ conds_of before width conds.now ++ carried links.now before width conds.now) }
{
    if before == 0 && are_own(links, width, conds.as_slice()) {
        return conds.copy();
    }
    let mut found = conds_of(alloc, before, width, conds.as_slice())?;
    put_carried(&mut found, links, before, width, conds.as_slice())?;
    Conds::new(found)
}

/// Whether all conditions are on the first so many columns, so that they are those of the relation after FROM as they stand.
fn are_own(links: &[Link], width: usize, conds: &[Cond]) -> bool
    ensures { result ≡ true → conds_of 0 width conds.now ++ carried links.now 0 width conds.now ≡ conds.now }
{
    let Some((cond, rest)) = conds.split_first() else {
        return true;
    };
    is_of(0, width, cond.col) && are_own(links, width, rest)
}

fn need_of_insert(alloc: Global, insert: &Insert) -> Result<Need, Memory>
    ensures relation { IfOk result (λ need. need.relation ≡ insert.now.into) }
    ensures columns { IfOk result (λ need. need.columns ≡ []) }
    ensures conds { IfOk result (λ need. need.conds ≡ key_is insert.now.row ∷ []) }
{
    let mut conds = Vec::new(alloc);
    conds.push(Cond {
        col: 0,
        cmp: Cmp::Eq,
        value: Value::Int(insert.row.key()),
    })?;
    Ok(Need {
        relation: insert.into.copy()?,
        columns: Seq::new(Vec::new(alloc)),
        conds: Conds::new(conds)?,
    })
}

/// All columns of the rows that meet the conditions.
fn need_of_all(alloc: Global, source: &Source, conds: &Conds) -> Result<Need, Memory>
    ensures relation { IfOk result (λ need. need.relation ≡ source.now.name) }
    ensures columns { IfOk result (λ need. need.columns ≡ places_to (length source.now.columns)) }
    ensures conds { IfOk result (λ need. need.conds ≡ conds.now) }
{
    let mut columns = Vec::new(alloc);
    for place in 0..source.columns.as_slice().len() {
        columns.push(place)?;
    }
    Ok(Need {
        relation: source.name.copy()?,
        columns: Seq::new(columns),
        conds: conds.copy()?,
    })
}

/// Those of the columns that a SELECT reads that are of a relation: those in ON, those listed, and after them
/// those in WHERE.
fn columns_read(
    alloc: Global,
    links: &[Link],
    before: usize,
    width: usize,
    select: &Select,
) -> Result<Vec<usize>, Memory>
    ensures { IfOk result (λ columns. columns.items ≡ places_of before width (spec.columns_read links.now select.now)) }
{
    let mut columns = Vec::new(alloc);
    put_joined(&mut columns, before, width, links)?;
    put_places(&mut columns, before, width, select.columns.as_slice())?;
    put_columns_of(&mut columns, before, width, select.conds.as_slice())?;
    Ok(columns)
}

/// Puts out those of the places in ON that are of a relation, as its columns.
fn put_joined(
    out: &mut Vec<usize>,
    before: usize,
    width: usize,
    links: &[Link],
) -> Result<(), Memory>
    ensures { OnOk result (out.new.items ≡ out.old.items ++ places_of before width (places_on links.now)) }
{
    for link in links {
        put_place(out, before, width, link.place)?;
        put_place(out, before, width, link.key)?;
    }
    Ok(())
}

/// Puts out those of the places that are of a relation, as its columns.
fn put_places(
    out: &mut Vec<usize>,
    before: usize,
    width: usize,
    places: &[usize],
) -> Result<(), Memory>
    ensures { OnOk result (out.new.items ≡ out.old.items ++ places_of before width places.now) }
{
    for place in places {
        put_place(out, before, width, *place)?;
    }
    Ok(())
}

/// Puts out those of the places of conditions that are of a relation, as its columns.
fn put_columns_of(
    out: &mut Vec<usize>,
    before: usize,
    width: usize,
    conds: &[Cond],
) -> Result<(), Memory>
    ensures { OnOk result (out.new.items ≡ out.old.items ++ places_of before width (spec.columns_of conds.now)) }
{
    for cond in conds {
        put_place(out, before, width, cond.col)?;
    }
    Ok(())
}

/// Puts out a place, as the column that it is of a relation, if it is of that.
fn put_place(out: &mut Vec<usize>, before: usize, width: usize, place: usize) -> Result<(), Memory>
    ensures { OnOk result (out.new.items ≡ out.old.items ++ places_of before width (place ∷ [])) }
{
    if is_of(before, width, place) {
        out.push(place - before)?;
    }
    Ok(())
}

/// Those of the conditions that are on a relation's places, on its columns.
fn conds_of(alloc: Global, before: usize, width: usize, conds: &[Cond]) -> Result<Vec<Cond>, Memory>
    ensures { IfOk result (λ found. found.items ≡ conds_of before width conds.now) }
{
    let mut found = Vec::new(alloc);
    for cond in conds {
        if is_of(before, width, cond.col) {
            found.push(on_column(cond.col - before, cond)?)?;
        }
    }
    Ok(found)
}

/// Puts out the conditions on other relations' columns, each on the column that has the value of its own.
fn put_carried(
    out: &mut Vec<Cond>,
    links: &[Link],
    before: usize,
    width: usize,
    conds: &[Cond],
) -> Result<(), Memory>
    ensures { OnOk result (out.new.items ≡ out.old.items ++ carried links.now before width conds.now) }
{
    for cond in conds {
        if is_of(before, width, cond.col) {
            continue;
        }
        if let Some(place) = equal_of(links, before, width, cond.col) {
            out.push(on_column(place - before, cond)?)?;
        }
    }
    Ok(())
}

/// The same condition on another column.
pub fn on_column(col: usize, cond: &Cond) -> Result<Cond, Memory>
    ensures { IfOk result (λ other. other ≡ spec.on_column col cond.now) }
{
    Ok(Cond {
        col,
        cmp: cond.cmp,
        value: cond.value.copy()?,
    })
}
