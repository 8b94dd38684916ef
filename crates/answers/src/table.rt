//! Tables, and the rows that fetches bring.

ghost use Rattle.std.specs.Prelude.{◌≡◌, ◌↔◌, IfOk, IsTrue, None, length};
ghost use Rattle.std.specs.List.{AllByRecursion};
ghost use Rattle.answers.specs.Evaluated.{is_above, parts_climb};
ghost use Rattle.answers.specs.Laid.{table_seen};
ghost use Rattle.answers.specs.Table.{AreParts, given};

use crate::joined::{Column, Joined};
use plan::fetch::Fetch;
use std::alloc::Global;
use std::marker::Model;
use terms::leaf::Leaf;
use terms::memory::Memory;
use terms::part::Part;
use terms::seq::Seq;

/// What a fetch of a leaf brought: parts in the leaf's columns, by ascending keys. They stay where they were brought to.
#[derive(Debug, Drop)]
pub struct FetchRows<'a> {
    leaf: &'a Leaf,
    parts: &'a [Part],
}

impl<'a> Model for FetchRows<'a> {
    ghost use Rattle.answers.specs.FetchRows as brought;

    ghost Value = { brought.FetchRows };

    ghost view = { λ f. record { leaf = f.leaf.now; parts = f.parts.now } };
}

impl<'a> FetchRows<'a> {
    /// These parts of a leaf.
    pub fn new(leaf: &'a Leaf, parts: &'a [Part]) -> FetchRows<'a>
        ensures { result ≡ record { leaf = leaf.now; parts = parts.now } }
    {
        FetchRows { leaf, parts }
    }
}

/// The same by itself, where nothing else keeps the parts.
#[derive(Debug, Drop)]
pub struct Brought {
    leaf: Leaf,
    parts: Seq<Part>,
}

impl Model for Brought {
    ghost use Rattle.answers.specs.FetchRows as brought;

    ghost Value = { brought.FetchRows };

    ghost view = { λ b. record { leaf = b.leaf; parts = b.parts } };
}

impl Brought {
    /// These parts of a leaf.
    pub fn new(leaf: Leaf, parts: Vec<Part>) -> Brought
        ensures { result ≡ record { leaf = leaf; parts = parts.items } }
    {
        Brought {
            leaf,
            parts: Seq::new(parts),
        }
    }

    /// What was brought, where it stands.
    fn rows(&self) -> FetchRows<'_>
        ensures { result ≡ self.now }
    {
        FetchRows::new(&self.leaf, self.parts.as_slice())
    }
}

/// What each fetch brought, where it stands.
pub fn lent(alloc: Global, brought: &[Brought]) -> Result<Vec<FetchRows<'_>>, Memory>
    ensures { IfOk result (λ rows. rows.items ≡ brought.now) }
{
    let mut rows = Vec::with_capacity(alloc, brought.len())?;
    for one in brought {
        rows.push(one.rows())?;
    }
    Ok(rows)
}

/// Rows over columns that go by their numbers, the key (0) first and never a second time. Each row has a
/// value for each column, and the rows stand in ascending order of their keys. The rows are kept as the rows that they are made
/// of, and share their values: contracts see the values of each.
#[derive(Debug, Drop)]
pub struct Table {
    pub(crate) columns: Seq<Column>,
    pub(crate) rows: Seq<Joined>,
}

impl Model for Table {
    ghost use Rattle.answers.specs.Laid.{table_seen};
    ghost use Rattle.answers.specs.Laid as laid;

    ghost Value = { laid.Table };

    ghost view = { λ t. table_seen t.columns t.rows };
}

impl Table {
    pub(crate) fn new(columns: Vec<Column>, rows: Vec<Joined>) -> Table
        ensures { result ≡ table_seen columns.items rows.items }
    {
        Table {
            columns: Seq::new(columns),
            rows: Seq::new(rows),
        }
    }

    /// How many rows it has.
    pub fn count(&self) -> usize
        ensures { result ≡ length self.now.rows }
    {
        self.rows.as_slice().len()
    }
}

/// The parts that were given of a leaf; none where there are none.
pub fn given<'a>(fetched: &[FetchRows<'a>], leaf: &Leaf) -> &'a [Part]
    ensures { result.now ≡ given fetched.now leaf.now }
{
    let Some((first, rest)) = fetched.split_first() else {
        return &[];
    };
    if *first.leaf == *leaf {
        return first.parts;
    }
    given(rest, leaf)
}

/// Whether these can be what a fetch of these columns brought: the keys ascend, and each part has a value
/// for each column.
pub fn are_parts(columns: &[usize], parts: &[Part]) -> bool
    ensures { IsTrue result ↔ AreParts columns.now parts.now }
{
    parts_climb(columns.len(), parts)
}

/// Whether each fetch brought parts of its columns, by ascending keys.
pub fn are_all_parts(fetches: &[Fetch], fetched: &[FetchRows]) -> bool
    ensures { IsTrue result ↔ AllByRecursion (λ read. AreParts read.columns (given fetched.now read.leaf)) fetches.now }
{
    let Some((read, rest)) = fetches.split_first() else {
        return true;
    };
    are_parts(read.columns.as_slice(), given(fetched, &read.leaf)) && are_all_parts(rest, fetched)
}

fn parts_climb(width: usize, parts: &[Part]) -> bool
    ensures { result ≡ parts_climb width None parts.now }
{
    let mut last: Option<i64> = None;
    for part in parts {
        if part.values().len() != width || !is_above(last, part.key()) {
            return false;
        }
        last = Some(part.key());
    }
    true
}

/// Whether a key is above the last one, if there is one.
fn is_above(last: Option<i64>, key: i64) -> bool
    ensures { result ≡ is_above last key }
{
    match last {
        Some(before) => before < key,
        None => true,
    }
}
