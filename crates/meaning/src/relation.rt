//! Relations: rows in ascending order of their keys.

ghost use Rattle.std.specs.Prelude.{◌≡◌, ℤ, List, [], ◌∷◌, Bool, not, true, false, IfOk, IfErr, OnErr, if◌then◌else◌};
ghost use Rattle.terms.specs.declared.value.Value.{Value};
ghost use Rattle.terms.specs.Row.{key_of};
ghost use Rattle.meaning.specs.Relation.{Ascends, has_key, insert_row, GoesAt};

use std::alloc::Global;
use std::marker::Model;
use terms::copy::{TryCopy, copy_all};
use terms::memory::Memory;
use terms::row::Row;

/// The rows of a relation, whose keys ascend strictly. Contracts see the list of the rows.
#[derive(Debug, Drop)]
pub struct Relation {
    rows: Vec<Row>,
}

impl Model for Relation {
    ghost use Rattle.std.specs.Prelude.{List};
    ghost use Rattle.terms.specs.declared.value.Value.{Value as Cell};
    ghost use Rattle.meaning.specs.Relation.{Ascends};

    ghost Value = { List (List Cell) };

    ghost view = { λ r. r.rows.items };

    ghost invariant = { λ r. Ascends r.rows.items };
}

impl Relation {
    pub fn new(alloc: Global) -> Relation
        ensures { result ≡ [] }
    {
        Relation {
            rows: Vec::new(alloc),
        }
    }

    /// A relation of one row.
    pub fn of_row(alloc: Global, row: Row) -> Result<Relation, Memory>
        ensures { IfOk result (λ relation. relation ≡ row ∷ []) }
    {
        let mut rows = Vec::new(alloc);
        rows.push(row)?;
        Ok(Relation { rows })
    }

    /// A relation of rows in ascending order of their keys.
    pub(crate) fn of_rows(rows: Vec<Row>) -> Relation
        requires { Ascends rows.items }
        ensures { result ≡ rows.items }
    {
        Relation { rows }
    }

    pub fn rows(&self) -> &[Row]
        ensures rows { result.now ≡ self.now }
        ensures ascends { Ascends self.now }
    {
        self.rows.as_slice()
    }

    /// Whether there is a row with this row's key.
    pub fn contains_key_of(&self, row: &Row) -> bool
        ensures { result ≡ has_key (key_of row.now) self.now }
    {
        place_of(self.rows.as_slice(), row).is_ok()
    }

    /// Adds the row, unless its key is there. Answers whether the row was added.
    pub fn insert(&mut self, row: Row) -> Result<bool, Memory>
        ensures added { IfOk result (λ added. added ≡ not (has_key (key_of row) self.old)) }
        ensures rows { IfOk result (λ added. self.new ≡ (if added then insert_row row self.old else self.old)) }
        ensures err { OnErr result (self.new ≡ self.old) }
    {
        put_row(&mut self.rows, row)
    }
}

/// Where the row with this row's key is, or else where this row would go.
fn place_of(rows: &[Row], row: &Row) -> Result<usize, usize>
    requires { Ascends rows.now }
    ensures there { IfOk result (λ _. has_key (key_of row.now) rows.now ≡ true) }
    ensures absent { IfErr result (λ _. has_key (key_of row.now) rows.now ≡ false) }
    ensures place { IfErr result (λ place. GoesAt rows.now row.now place) }
{
    rows.binary_search_by(|other| other.compare_keys(row))
}

fn put_row(rows: &mut Vec<Row>, row: Row) -> Result<bool, Memory>
    requires { Ascends rows.old.items }
    ensures added { IfOk result (λ added. added ≡ not (has_key (key_of row) rows.old.items)) }
    ensures rows { IfOk result (λ added. rows.new.items ≡ (if added then insert_row row rows.old.items else rows.old.items)) }
    ensures err { OnErr result (rows.new.items ≡ rows.old.items) }
    ensures ascends { Ascends rows.new.items }
{
    match place_of(rows.as_slice(), &row) {
        Ok(_) => Ok(false),
        Err(place) => {
            rows.insert(place, row)?;
            Ok(true)
        }
    }
}

impl TryCopy for Relation {
    fn copy(&self) -> Result<Relation, Memory> {
        let rows = copy_all(*self.rows.allocator(), self.rows.as_slice())?;
        Ok(Relation { rows })
    }
}
