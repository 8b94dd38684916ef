//! Joins: the relations that a select reads behind the one after FROM, and the columns that they go by.

ghost use Rattle.std.specs.Prelude.{◌≡◌, ◌≢◌, ◌+◌, ◌∷◌, [], length, map, nat_eq, IfOk, IfErr};
ghost use Rattle.std.specs.Cmp.Lexicographic.{pointwise};
ghost use Rattle.std.specs.List.{list_any};
ghost use Rattle.reader.specs.declared.fault.Rule.TheVariants as rules;
ghost use Rattle.reader.specs.Tree.{join_tree};
ghost use Rattle.reader.specs.Names.{all_of, is_key, other_than_key, joined_by, joined_of, join_of, other_of, others_of, joined_relations};
ghost use Rattle.reader.specs.Breaks.{Refuses, SomeOf, OtherBreaks, OthersBreak, OnBreaks};
ghost use Rattle.reader.specs.Resolving.{Resolves};

use crate::fault::{ReadFault, Rule};
use crate::relations::{relation, source};
use crate::scope::{Scope, find, of_one, with_relation};
use crate::tree::Join;
use meaning::schema::{RelationSchema, Schema};
use meaning::statement;
use std::alloc::Global;
use terms::memory::Memory;
use terms::value::Kind;

/// A relation that is joined.
#[derive(Clone, Copy)]
pub struct Joined<'a> {
    pub relation: &'a RelationSchema,
    /// The number of columns before its own.
    pub before: usize,
    /// How its join is written.
    pub written: Join<'a>,
}

/// The relations that are joined, each another one than those before it.
pub fn all_joined<'a>(
    alloc: Global,
    schema: &'a Schema,
    from: &RelationSchema,
    joins: &[Join<'a>],
) -> Result<Vec<Joined<'a>>, ReadFault>
    ensures exact { Resolves (λ all. map joined_of all.items) result (others_of schema.now.relations (from.now.name ∷ []) (length from.now.columns) (map join_tree joins.now)) }
    ensures rule { Refuses result (λ rule. OthersBreak rule schema.now.relations (from.now.name ∷ []) (map join_tree joins.now)) }
{
    let mut all = Vec::new(alloc);
    let mut before = from.columns.as_slice().len();
    for join in joins {
        let other = other(schema, from, all.as_slice(), join)?;
        all.push(Joined {
            relation: other,
            before,
            written: *join,
        })?;
        before = more_columns(before, other)?;
    }
    Ok(all)
}

/// The number of columns with those of one relation more, unless no memory holds as many.
fn more_columns(before: usize, relation: &RelationSchema) -> Result<usize, Memory>
    ensures { IfOk result (λ count. count ≡ before + length relation.now.columns) }
{
    match before.checked_add(relation.columns.as_slice().len()) {
        Some(count) => Ok(count),
        None => Err(Memory),
    }
}

/// The relation that a join adds: another than the one after FROM and those that are joined before it.
fn other<'a>(
    schema: &'a Schema,
    from: &RelationSchema,
    before: &[Joined<'_>],
    join: &Join<'_>,
) -> Result<&'a RelationSchema, ReadFault>
    ensures exact { Resolves (λ r. r.now) result (other_of schema.now.relations (from.now.name ∷ map (λ j. j.relation.now.name) before.now) (join_tree join.now)) }
    ensures rule { Refuses result (λ rule. OtherBreaks rule schema.now.relations (from.now.name ∷ map (λ j. j.relation.now.name) before.now) (join_tree join.now)) }
{
    let other = relation(schema, &join.relation)?;
    if have_same_name(from, other) || is_joined(before, other) {
        return Err(ReadFault::new(Rule::JoinNotKey, join.relation.offset));
    }
    Ok(other)
}

fn have_same_name(relation: &RelationSchema, other: &RelationSchema) -> bool
    ensures { result ≡ pointwise nat_eq relation.now.name other.now.name }
{
    relation.name.as_str().as_bytes() == other.name.as_str().as_bytes()
}

fn is_joined(joined: &[Joined<'_>], relation: &RelationSchema) -> bool
    ensures { result ≡ list_any (λ j. pointwise nat_eq j.relation.now.name relation.now.name) joined.now }
{
    joined
        .iter()
        .any(|joined| have_same_name(joined.relation, relation))
}

/// The scope of a select.
pub fn scope_of_joined<'a>(
    alloc: Global,
    from: &'a RelationSchema,
    joined: &[Joined<'a>],
) -> Result<Scope<'a>, Memory>
    ensures { IfOk result (λ scope. scope ≡ joined_relations from.now (map joined_of joined.now)) }
{
    let mut scope = of_one(alloc, from);
    for joined in joined {
        scope = with_relation(scope, joined.relation)?;
    }
    Ok(scope)
}

/// The joins of a select.
pub fn joins(
    alloc: Global,
    scope: &Scope<'_>,
    joined: &[Joined<'_>],
) -> Result<Vec<statement::Join>, ReadFault>
    ensures exact { Resolves (λ joins. joins.items) result (all_of (join_of scope.now) (map joined_of joined.now)) }
    ensures rule { Refuses result (λ rule. SomeOf (OnBreaks rule scope.now) (map joined_of joined.now)) }
{
    let mut joins = Vec::new(alloc);
    for joined in joined {
        joins.push(join(alloc, scope, joined)?)?;
    }
    Ok(joins)
}

fn join(alloc: Global, scope: &Scope<'_>, joined: &Joined<'_>) -> Result<statement::Join, ReadFault>
    ensures exact { Resolves (λ j. j) result (join_of scope.now (joined_of joined.now)) }
    ensures rule { Refuses result (λ rule. OnBreaks rule scope.now (joined_of joined.now)) }
{
    let col = join_column(scope, joined)?;
    Ok(statement::Join {
        relation: source(alloc, joined.relation)?,
        col,
    })
}

/// The column with which the key of a joined relation is compared.
fn join_column(scope: &Scope<'_>, joined: &Joined<'_>) -> Result<usize, ReadFault>
    ensures exact { Resolves (λ column. column) result (joined_by scope.now (joined_of joined.now)) }
    ensures rule { Refuses result (λ rule. OnBreaks rule scope.now (joined_of joined.now)) }
{
    let join = &joined.written;
    let left = find(scope, &join.left)?;
    let right = find(scope, &join.right)?;
    match beside_key(joined, left.place, right.place) {
        None => Err(ReadFault::new(Rule::JoinNotKey, join.left.offset)),
        Some(column) => {
            if left.kind != Kind::Int {
                return Err(ReadFault::new(Rule::WrongType, join.left.offset));
            }
            if right.kind != Kind::Int {
                return Err(ReadFault::new(Rule::WrongType, join.right.offset));
            }
            Ok(column)
        }
    }
}

/// The one of two columns that stands before a joined relation and is compared with its key.
fn beside_key(joined: &Joined<'_>, left: usize, right: usize) -> Option<usize>
    ensures { result ≡ other_than_key (joined_of joined.now) left right }
{
    if is_key(joined, left) && right < joined.before {
        Some(right)
    } else if is_key(joined, right) && left < joined.before {
        Some(left)
    } else {
        None
    }
}

fn is_key(joined: &Joined<'_>, place: usize) -> bool
    ensures { result ≡ is_key (joined_of joined.now) place }
{
    place == joined.before && !joined.relation.columns.as_slice().is_empty()
}
