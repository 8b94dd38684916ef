//! Chains of catalogues, each of which splits one relation otherwise than the one before it.

ghost use Rattle.std.specs.Prelude.{◌≡◌, ◌↔◌, ◌-◌, ℕ, List, None, IsTrue, IfOk, IfErr, MatchOption, length, map, nat_eq, if◌then◌else◌};
ghost use Rattle.std.specs.List.{slice_get};
ghost use Rattle.std.specs.Option.{option_copied};
ghost use Rattle.catalog.specs.Chain.{DifferIn, Follow, IsChain};
ghost use Rattle.catalog.specs.Relation.{catalogue_of, relation_of};

use crate::catalogue::Catalog;
use crate::relation::SplitRelation;
use std::marker::Model;
use terms::same::Same;
use terms::text::Text;

/// Whether two relations are one, with one split.
fn same_relation(relation: &SplitRelation, other: &SplitRelation) -> bool
    ensures { IsTrue result ↔ (relation_of relation.now ≡ relation_of other.now) }
{
    relation.schema.same(&other.schema) && relation.split.same(&other.split)
}

/// Whether two lists of relations are one, with one split for each.
fn same_relations(relations: &[SplitRelation], others: &[SplitRelation]) -> bool
    ensures { IsTrue result ↔ (map relation_of relations.now ≡ map relation_of others.now) }
{
    match (relations.split_first(), others.split_first()) {
        (None, None) => true,
        (Some((relation, relations)), Some((other, others))) => {
            same_relation(relation, other) && same_relations(relations, others)
        }
        _ => false,
    }
}

/// The name of the one relation that is split otherwise in the second list, if all else is the same.
pub(crate) fn other_split<'a>(
    relations: &'a [SplitRelation],
    others: &[SplitRelation],
) -> Option<&'a Text>
    ensures { MatchOption (option_copied result) ((name : List ℕ) → ¬ (DifferIn (map relation_of relations.now) (map relation_of others.now) name)) (λ name. DifferIn (map relation_of relations.now) (map relation_of others.now) name) }
{
    let (relation, rest) = relations.split_first()?;
    let (other, more) = others.split_first()?;
    if !relation.schema.same(&other.schema) {
        return None;
    }
    if relation.split.same(&other.split) {
        return other_split(rest, more);
    }
    if same_relations(rest, more) {
        Some(&relation.schema.name)
    } else {
        None
    }
}

/// Whether each of the catalogues may come next after the one before it, the first after this one.
fn follow(catalog: &Catalog, others: &[Catalog]) -> bool
    ensures { IsTrue result ↔ Follow (catalogue_of catalog.now) (map catalogue_of others.now) }
{
    match others.split_first() {
        None => true,
        Some((next, others)) => catalog.changed(next).is_some() && follow(next, others),
    }
}

/// Whether catalogues are a chain.
fn are_chain(catalogs: &[Catalog]) -> bool
    ensures { IsTrue result ↔ IsChain (map catalogue_of catalogs.now) }
{
    match catalogs.split_first() {
        None => false,
        Some((first, others)) => follow(first, others),
    }
}

/// A chain of catalogues, numbered from 1. There is no chain without a first one.
#[derive(Debug, Drop)]
pub struct Chain {
    catalogs: Vec<Catalog>,
}

impl Model for Chain {
    ghost use Rattle.std.specs.Prelude.{ℕ, List, map};
    ghost use Rattle.std.specs.Coded.{codes};
    ghost use Rattle.catalog.specs.declared.relation.SplitRelation.{SplitRelation as Relation};
    ghost use Rattle.catalog.specs.contracts.split.Split as split;
    ghost use Rattle.catalog.specs.Chain.{IsChain};
    ghost use Rattle.catalog.specs.Relation.{catalogue_of};

    ghost Value = { List (List (List ℕ) × List Relation) };

    ghost coded = { Prim.hlevel (codes, split.the_row.coded) };

    ghost view = { λ c. c.catalogs.items };

    ghost invariant = { λ c. IsChain (map catalogue_of c.catalogs.items) };
}

impl Chain {
    /// The chain of these catalogues. Catalogues that are none are given back.
    pub fn new(catalogs: Vec<Catalog>) -> Result<Chain, Vec<Catalog>>
        ensures ok { IfOk result (λ chain. chain ≡ catalogs.items) }
        ensures err { IfErr result (λ given. given ≡ catalogs) }
        ensures none { IfErr result (λ given. ¬ (IsChain (map catalogue_of catalogs.items))) }
    {
        if are_chain(catalogs.as_slice()) {
            Ok(Chain { catalogs })
        } else {
            Err(catalogs)
        }
    }

    /// The catalogue of this number, if there is one.
    pub fn catalog(&self, number: usize) -> Option<&Catalog>
        ensures { option_copied result ≡ (if nat_eq number 0 then None else slice_get self.now (number - 1)) }
    {
        self.catalogs.get(number.checked_sub(1)?)
    }

    /// The catalogues, the first one first.
    pub fn as_slice(&self) -> &[Catalog]
        ensures catalogs { result.now ≡ self.now }
        ensures chain { IsChain (map catalogue_of self.now) }
    {
        self.catalogs.as_slice()
    }

    /// How many catalogues there are: one at least.
    pub fn len(&self) -> usize
        ensures len { result ≡ length self.now }
        ensures chain { IsChain (map catalogue_of self.now) }
    {
        self.catalogs.len()
    }
}
