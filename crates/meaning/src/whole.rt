//! Whole databases: a relation for each name.

ghost use Rattle.std.specs.Prelude.{◌≡◌, [], not, IfOk, OnOk, OnErr, if◌then◌else◌};
ghost use Rattle.std.specs.FinMap as map;
ghost use Rattle.std.specs.Option.{option_copied};
ghost use Rattle.terms.specs.Row.{key_of};
ghost use Rattle.meaning.specs.Relation.{Ascends, has_key, insert_row};
ghost use Rattle.meaning.specs.Whole.{Relations, of_entries, rows_of, replaced};

use crate::relation::Relation;
use std::alloc::Global;
use std::collections::BTreeMap;
use std::marker::Model;
use terms::copy::TryCopy;
use terms::memory::Memory;
use terms::row::Row;
use terms::text::Text;

/// A whole database, which contracts see as a finite map from names to relations.
#[derive(Debug, Drop)]
pub struct Whole {
    relations: BTreeMap<Text, Relation>,
}

impl Model for Whole {
    ghost use Rattle.std.specs.FinMap as map;
    ghost use Rattle.meaning.specs.Whole.{Relations, relations_code};

    ghost Value = { Relations };

    ghost coded = { relations_code };

    ghost view = { λ w. map.from_entries w.relations.entries };
}

impl Whole {
    /// A database with no relation.
    pub fn new(alloc: Global) -> Whole
        ensures { result ≡ map.empty }
    {
        Whole {
            relations: BTreeMap::new(alloc),
        }
    }

    /// A database equal to this one.
    pub fn copy(&self, alloc: Global) -> Result<Whole, Memory>
        ensures { IfOk result (λ copy. copy ≡ self.now) }
    {
        Ok(Whole {
            relations: copy_relations(alloc, &self.relations)?,
        })
    }

    /// The relation of this name, if there is one.
    pub fn relation(&self, name: &Text) -> Option<&Relation>
        ensures { option_copied result ≡ map.get self.now name.now }
    {
        self.relations.get(name)
    }

    /// The rows of the relation of this name; where there is none, none.
    pub fn rows(&self, name: &Text) -> &[Row]
        ensures rows { result.now ≡ rows_of self.now name.now }
        ensures ascends { Ascends result.now }
    {
        match self.relation(name) {
            Some(relation) => relation.rows(),
            None => &[],
        }
    }

    /// Gives the name this relation, in place of any that it had.
    pub fn put(&mut self, name: Text, relation: Relation) -> Result<(), Memory>
        ensures ok { OnOk result (self.new ≡ map.insert self.old name relation) }
        ensures err { OnErr result (self.new ≡ self.old) }
    {
        self.relations.insert(name, relation)?;
        Ok(())
    }

    /// Gives the name this relation, if it had one already.
    pub fn replace(&mut self, name: &Text, relation: Relation)
        ensures { self.new ≡ replaced self.old name.now relation }
    {
        if let Some(place) = self.relations.get_mut(name) {
            *place = relation;
        }
    }

    /// Adds a row to the relation of this name, unless its key is there. Answers whether it was added.
    pub fn insert_row(&mut self, alloc: Global, name: &Text, row: Row) -> Result<bool, Memory>
        ensures added { IfOk result (λ added. added ≡ not (has_key (key_of row) (rows_of self.old name.now))) }
        ensures whole { IfOk result (λ added. self.new ≡ (if added then map.insert self.old name.now (insert_row row (rows_of self.old name.now)) else self.old)) }
        ensures err { OnErr result (self.new ≡ self.old) }
    {
        match self.relations.get_mut(name) {
            Some(relation) => relation.insert(row),
            None => {
                let relation = Relation::of_row(alloc, row)?;
                self.relations.insert(name.copy()?, relation)?;
                Ok(true)
            }
        }
    }
}

/// A copy of each relation, under its name.
fn copy_relations(
    alloc: Global,
    relations: &BTreeMap<Text, Relation>,
) -> Result<BTreeMap<Text, Relation>, Memory>
    ensures { IfOk result (λ copies. of_entries copies.entries ≡ of_entries relations.now.entries) }
{
    let mut copies = BTreeMap::new(alloc);
    for (name, relation) in relations {
        copies.insert(name.copy()?, relation.copy()?)?;
    }
    Ok(copies)
}
