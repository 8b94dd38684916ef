//! What a statement answers and writes, by what its fetches brought.

ghost use Rattle.std.specs.Prelude.{◌≡◌, true, IfOk};
ghost use Rattle.std.specs.List.{AllByRecursion, Contains};
ghost use Rattle.meaning.specs.declared.statement.Statement.TheVariants as statements;
ghost use Rattle.meaning.specs.Meaning.{meaning};
ghost use Rattle.meaning.specs.Statement.{IsStatementOf};
ghost use Rattle.meaning.specs.Whole.{FitsSchema, Relations, rows_of};
ghost use Rattle.catalog.specs.FragmentLeaf.{catalogue_leaves, schemas_of};
ghost use Rattle.catalog.specs.Relation.{catalogue_of};
ghost use Rattle.plan.specs.Given.{AreBrought};
ghost use Rattle.plan.specs.Reduced.{FindsAll};
ghost use Rattle.plan.specs.Postfix.{plan_of};
ghost use Rattle.plan.specs.Stated.{AreFetchesOf};
ghost use Rattle.plan.specs.Uniform.{EachRead, IsUniform};
ghost use Rattle.answers.specs.Moves.{is_to_either, moves_between};
ghost use Rattle.answers.specs.Table.{AreParts, given};
ghost use Rattle.answers.specs.Writes.{is_leaf_in, leaf_of, writes_between};

use crate::evaluate::evaluate;
use crate::finish::{Outcome, finish, refragmented};
use crate::moves::{Move, moves};
use crate::table::FetchRows;
use catalog::catalogue::Catalog;
use meaning::answer::Answer;
use meaning::statement::{Refragment, Statement};
use plan::fetch::Fetch;
use plan::laws::{brought_is_read, contents_give};
use plan::postfix::Node;
use std::alloc::Global;
use terms::memory::Memory;

/// What a statement answers and writes, by its reduced plan, by the plan's fetches and by what these brought.
///
/// Where it is a statement of the catalogue's schema, and the plan a reduced one of it, then over each whole
/// database of which the fetches bring these parts it is the statement's meaning: the answer, and the writes
/// that lead to the whole database after it.
pub fn work(
    alloc: Global,
    catalog: &Catalog,
    statement: &Statement,
    nodes: &[Node],
    fetches: &[Fetch],
    fetched: &[FetchRows],
) -> Result<Outcome, Memory>
    // What holds of the reads of each reduced plan.
    requires fetched { EachRead (λ read. Contains fetches.now read) (plan_of nodes.now) }
    requires uniform { IsUniform (plan_of nodes.now) }
    // The parts of each fetch have its columns, and their keys ascend.
    requires parts { AllByRecursion (λ read. AreParts read.columns (given fetched.now read.leaf)) fetches.now }
    ensures answer { IsStatementOf (schemas_of (catalogue_of catalog.now)) statement.now
        → AreFetchesOf (catalogue_of catalog.now) statement.now fetches.now
        → FindsAll (catalogue_of catalog.now) statement.now fetches.now (plan_of nodes.now)
        → IfOk result (λ outcome. (whole : Relations) → FitsSchema (schemas_of (catalogue_of catalog.now)) whole →
        AreBrought (catalogue_of catalog.now) whole fetches.now (given fetched.now) → outcome.answer ≡ (meaning statement.now whole).0) }
    ensures writes { IsStatementOf (schemas_of (catalogue_of catalog.now)) statement.now
        → AreFetchesOf (catalogue_of catalog.now) statement.now fetches.now
        → FindsAll (catalogue_of catalog.now) statement.now fetches.now (plan_of nodes.now)
        → IfOk result (λ outcome. (whole : Relations) → FitsSchema (schemas_of (catalogue_of catalog.now)) whole →
        AreBrought (catalogue_of catalog.now) whole fetches.now (given fetched.now) → outcome.writes ≡ writes_between (catalogue_of catalog.now) whole (meaning statement.now whole).1) }
    // And whatever the fetches brought, each write is to a leaf of the catalogue.
    ensures leaves { IfOk result (λ outcome. AllByRecursion (λ write. is_leaf_in (catalogue_leaves (catalogue_of catalog.now)) (leaf_of write) ≡ true) outcome.writes) }
{
    brought_is_read();
    contents_give();
    let _relations = catalog.relations();
    let table = evaluate(alloc, nodes, fetched)?;
    finish(alloc, catalog, statement, &table)
}

/// What a REFRAGMENT answers, and what moves with it.
#[derive(Debug, Drop)]
pub struct Refragmented {
    pub answer: Answer,
    pub moves: Vec<Move>,
}

/// What a REFRAGMENT answers, and what moves with it from the one catalogue to the next: by its reduced plan under the one, by the plan's
/// fetches and by what these brought.
///
/// Over each whole database of which the fetches bring these parts the answer is the statement's meaning, and the moves are those between
/// what the places have of the relation.
pub fn refragment(
    alloc: Global,
    old: &Catalog,
    new: &Catalog,
    refragment: &Refragment,
    nodes: &[Node],
    fetches: &[Fetch],
    fetched: &[FetchRows],
) -> Result<Refragmented, Memory>
    // What holds of the reads of each reduced plan.
    requires fetched { EachRead (λ read. Contains fetches.now read) (plan_of nodes.now) }
    requires uniform { IsUniform (plan_of nodes.now) }
    // The parts of each fetch have its columns, and their keys ascend.
    requires parts { AllByRecursion (λ read. AreParts read.columns (given fetched.now read.leaf)) fetches.now }
    ensures answer { IsStatementOf (schemas_of (catalogue_of old.now)) (statements.Refragment refragment.now)
        → AreFetchesOf (catalogue_of old.now) (statements.Refragment refragment.now) fetches.now
        → FindsAll (catalogue_of old.now) (statements.Refragment refragment.now) fetches.now (plan_of nodes.now)
        → IfOk result (λ made. (whole : Relations) → FitsSchema (schemas_of (catalogue_of old.now)) whole →
        AreBrought (catalogue_of old.now) whole fetches.now (given fetched.now) → made.answer ≡ (meaning (statements.Refragment refragment.now) whole).0) }
    ensures moves { IsStatementOf (schemas_of (catalogue_of old.now)) (statements.Refragment refragment.now)
        → AreFetchesOf (catalogue_of old.now) (statements.Refragment refragment.now) fetches.now
        → FindsAll (catalogue_of old.now) (statements.Refragment refragment.now) fetches.now (plan_of nodes.now)
        → IfOk result (λ made. (whole : Relations) → FitsSchema (schemas_of (catalogue_of old.now)) whole →
        AreBrought (catalogue_of old.now) whole fetches.now (given fetched.now) →
        made.moves.items ≡ moves_between (catalogue_of old.now) (catalogue_of new.now) refragment.now.relation.name (rows_of whole refragment.now.relation.name)) }
    // And whatever the fetches brought, each move is to a leaf that one of the catalogues has at its site.
    ensures leaves { IfOk result (λ made. AllByRecursion (λ one. is_to_either (catalogue_of old.now) (catalogue_of new.now) one ≡ true) made.moves.items) }
{
    brought_is_read();
    contents_give();
    let _relations = old.relations();
    let table = evaluate(alloc, nodes, fetched)?;
    let moves = moves(alloc, old, new, &refragment.relation.name, &table)?;
    Ok(Refragmented {
        answer: refragmented(alloc, &table).answer,
        moves,
    })
}
