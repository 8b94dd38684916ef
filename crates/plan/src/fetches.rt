//! The fetches of a statement.

ghost use Rattle.std.specs.Prelude.{◌≡◌, ◌++◌, ◌+◌, ◌<◌, IfOk, IfSome, OnOk, map, option_map};
ghost use Rattle.std.specs.List.{AllByRecursion};
ghost use Rattle.terms.specs.Cond.{IsCondOf};
ghost use Rattle.meaning.specs.declared.statement.Statement.{Statement as StatementNow};
ghost use Rattle.meaning.specs.Statement.{IsStatementOf};
ghost use Rattle.catalog.specs.FragmentLeaf.{schemas_of};
ghost use Rattle.catalog.specs.Relation.{catalogue_of};
ghost use Rattle.plan.specs.Need as needed;
ghost use Rattle.plan.specs.Picked.{AreNeedsOf, TieFits, picked, put_on, tie_trial, trials_of};
ghost use Rattle.plan.specs.Stated.{AreFetchesOf, ByColumn, ByKey, kinds_in, leaves_of, tie_of, ties_of};

use crate::fetch::Fetch;
use crate::link::Link;
use crate::need::{Need, Needs, statement_needs};
use crate::stated::{Places, Trial, own_places, put_on, put_picked};
use catalog::catalogue::Catalog;
use catalog::laws::some_leaf_serves;
use meaning::schema::Column;
use meaning::statement::Statement;
use std::alloc::Global;
use terms::cond::Conds;
use terms::copy::{TryCopy, copy_all};
use terms::memory::Memory;
use terms::seq::Seq;
use terms::value::Kind;

/// The leaves that a statement of the catalogue's schema fetches, and with which conditions: exactly those
/// that it may need, in the order of the relation after FROM and then of the joined ones, each by number.
pub fn statement_fetches(
    alloc: Global,
    catalog: &Catalog,
    statement: &Statement,
) -> Result<Vec<Fetch>, Memory>
    requires { IsStatementOf (schemas_of (catalogue_of catalog.now)) statement.now }
    ensures { IfOk result (λ fetches. AreFetchesOf (catalogue_of catalog.now) statement.now fetches.items) }
{
    let needs = statement_needs(alloc, statement)?;
    needed_fetches(alloc, catalog, &needs)
}

/// So by the needs of a statement.
pub(crate) fn needed_fetches(
    alloc: Global,
    catalog: &Catalog,
    needs: &Needs,
) -> Result<Vec<Fetch>, Memory>
    requires { AreNeedsOf (catalogue_of catalog.now) needs.now }
    ensures { (statement : StatementNow) → needs.now ≡ needed.needs statement → IsStatementOf (schemas_of (catalogue_of catalog.now)) statement
        → IfOk result (λ fetches. AreFetchesOf (catalogue_of catalog.now) statement fetches.items) }
{
    some_leaf_serves();
    let _relations = catalog.relations();
    let mut fetches = Vec::new(alloc);
    for (number, need) in needs.relations.as_slice().iter().enumerate() {
        put_fetches(alloc, catalog, needs, number, need, &mut fetches)?;
    }
    Ok(fetches)
}

/// Puts out the fetches of the need of a number.
fn put_fetches(
    alloc: Global,
    catalog: &Catalog,
    needs: &Needs,
    number: usize,
    need: &Need,
    out: &mut Vec<Fetch>,
) -> Result<(), Memory>
    requires need { AllByRecursion (IsCondOf (kinds_in (catalogue_of catalog.now) need.now.relation)) need.now.conds }
    requires ties { AllByRecursion (TieFits (catalogue_of catalog.now) need.now) (ties_of needs.now number) }
    ensures { OnOk result (out.new.items ≡ out.old.items ++ picked (trials_of (catalogue_of catalog.now) need.now (ties_of needs.now number)) need.now (leaves_of (catalogue_of catalog.now) need.now.relation)) }
{
    let columns = relation_columns(catalog, need.relation.as_str());
    let ties = tie_trials(alloc, catalog, needs, number, need)?;
    let leaves = catalog.leaves_of(need.relation.as_str());
    put_picked(alloc, columns, ties.as_slice(), need, leaves, out)
}

/// The rows of both relations that are tried for each of the ONs of the need of a number.
fn tie_trials(
    alloc: Global,
    catalog: &Catalog,
    needs: &Needs,
    number: usize,
    need: &Need,
) -> Result<Vec<Trial>, Memory>
    requires need { AllByRecursion (IsCondOf (kinds_in (catalogue_of catalog.now) need.now.relation)) need.now.conds }
    requires ties { AllByRecursion (TieFits (catalogue_of catalog.now) need.now) (ties_of needs.now number) }
    ensures { IfOk result (λ trials. trials.items ≡ map (tie_trial (catalogue_of catalog.now) need.now) (ties_of needs.now number)) }
{
    let mut trials = Vec::new(alloc);
    let relations = needs.relations.as_slice();
    for link in needs.links.as_slice() {
        if let Some(trial) = link_trial(alloc, catalog, relations, number, need, link)? {
            trials.push(trial)?;
        }
    }
    Ok(trials)
}

/// The rows that are tried for an ON, if the need of the number takes part in it.
fn link_trial(
    alloc: Global,
    catalog: &Catalog,
    needs: &[Need],
    number: usize,
    need: &Need,
    link: &Link,
) -> Result<Option<Trial>, Memory>
    requires need { AllByRecursion (IsCondOf (kinds_in (catalogue_of catalog.now) need.now.relation)) need.now.conds }
    requires tie { IfSome (tie_of needs.now number link.now) (TieFits (catalogue_of catalog.now) need.now) }
    ensures { IfOk result (λ trial. trial ≡ option_map (tie_trial (catalogue_of catalog.now) need.now) (tie_of needs.now number link.now)) }
{
    if link.from == number {
        let Some(other) = needs.get(link.joined) else {
            return Ok(None);
        };
        return Ok(Some(column_trial(alloc, catalog, link.col, need, other)?));
    }
    if link.joined == number {
        let Some(other) = needs.get(link.from) else {
            return Ok(None);
        };
        return Ok(Some(key_trial(alloc, catalog, link.col, other, need)?));
    }
    Ok(None)
}

/// The rows of two relations, of which the second has as its key a column of the first, for leaves of the first.
fn column_trial(
    alloc: Global,
    catalog: &Catalog,
    col: usize,
    need: &Need,
    other: &Need,
) -> Result<Trial, Memory>
    requires { TieFits (catalogue_of catalog.now) need.now (ByColumn col other.now) }
    ensures { IfOk result (λ trial. trial ≡ tie_trial (catalogue_of catalog.now) need.now (ByColumn col other.now)) }
{
    let _relations = catalog.relations();
    let mut kinds = relation_kinds(alloc, catalog, need.relation.as_str())?;
    let places = Places {
        key: col,
        past: kinds.len(),
    };
    kinds.append(&mut relation_kinds(alloc, catalog, other.relation.as_str())?)?;
    Ok(Trial {
        kinds: Seq::new(kinds),
        places: own_places(),
        asked: asked_of_both(alloc, places, need, other)?,
    })
}

/// The same rows, for leaves of the second.
fn key_trial(
    alloc: Global,
    catalog: &Catalog,
    col: usize,
    other: &Need,
    need: &Need,
) -> Result<Trial, Memory>
    requires conds { AllByRecursion (IsCondOf (kinds_in (catalogue_of catalog.now) need.now.relation)) need.now.conds }
    ensures { IfOk result (λ trial. trial ≡ tie_trial (catalogue_of catalog.now) need.now (ByKey col other.now)) }
{
    let _relations = catalog.relations();
    let mut kinds = relation_kinds(alloc, catalog, other.relation.as_str())?;
    let places = Places {
        key: col,
        past: kinds.len(),
    };
    kinds.append(&mut relation_kinds(alloc, catalog, need.relation.as_str())?)?;
    Ok(Trial {
        kinds: Seq::new(kinds),
        places,
        asked: asked_of_both(alloc, places, other, need)?,
    })
}

/// What both needs ask of the rows, the second on these places.
fn asked_of_both(alloc: Global, places: Places, need: &Need, other: &Need) -> Result<Conds, Memory>
    requires { AllByRecursion (λ cond. places.past + cond.col < 18446744073709551616) other.now.conds }
    ensures { IfOk result (λ asked. asked ≡ need.now.conds ++ put_on places other.now.conds) }
{
    let mut asked = copy_all(alloc, need.conds.as_slice())?;
    put_on(&mut asked, places, other.conds.as_slice())?;
    Conds::new(asked)
}

/// The types of the columns of a relation of the catalogue; none where it is not there.
fn relation_kinds(alloc: Global, catalog: &Catalog, name: &str) -> Result<Vec<Kind>, Memory>
    ensures { IfOk result (λ kinds. kinds.items ≡ kinds_in (catalogue_of catalog.now) name.now) }
{
    column_kinds(alloc, relation_columns(catalog, name))
}

/// The columns of a relation of the catalogue; none where it is not there.
fn relation_columns<'a>(catalog: &'a Catalog, name: &str) -> &'a [Column]
    ensures { map (λ column. column.kind) result.now ≡ kinds_in (catalogue_of catalog.now) name.now }
{
    match catalog.relation(name) {
        Some(relation) => relation.schema.columns.as_slice(),
        None => &[],
    }
}

fn column_kinds(alloc: Global, columns: &[Column]) -> Result<Vec<Kind>, Memory>
    ensures { IfOk result (λ kinds. kinds.items ≡ map (λ column. column.kind) columns.now) }
{
    let mut kinds = Vec::new(alloc);
    for column in columns {
        kinds.push(column.kind)?;
    }
    Ok(kinds)
}
