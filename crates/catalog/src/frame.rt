//! What the nodes of a relation speak of: sites and columns by their names.

ghost use Rattle.std.specs.Prelude.{◌≡◌, map, IfOk, if◌then◌else◌};
ghost use Rattle.catalog.specs.Counts as counts;
ghost use Rattle.catalog.specs.Describes as spec;
ghost use Rattle.catalog.specs.Describes.{kinds_in, visible, place_within, site_numbered, column_numbered, in_order};
ghost use Rattle.catalog.specs.Frame.{frame_of};

use crate::sites::site_numbered;
use meaning::schema::Column;
use std::alloc::Global;
use terms::copy::TryCopy;
use terms::memory::Memory;
use terms::text::Text;
use terms::value::Kind;

/// The sites of a catalogue, and the columns of a relation.
#[derive(Clone, Copy)]
pub(crate) struct Frame<'a> {
    pub alloc: Global,
    pub sites: &'a [Text],
    pub columns: &'a [Column],
}

impl<'a> Frame<'a> {
    /// The number of the site of this name, from 0.
    pub(crate) fn site(&self, name: &str) -> Option<usize>
        ensures { result ≡ site_numbered (frame_of self.now).sites name.now }
    {
        site_numbered(self.sites, name)
    }

    /// The place of the column of this name, if it is one of these.
    pub(crate) fn place_within(&self, within: &[usize], name: &str) -> Option<usize>
        ensures { result ≡ place_within (frame_of self.now) within.now name.now }
    {
        match self.column(name) {
            Some(place) => only_if(has(within, place), place),
            None => None,
        }
    }

    fn column(&self, name: &str) -> Option<usize>
        ensures { result ≡ column_numbered (frame_of self.now).columns name.now }
    {
        self.columns
            .iter()
            .position(|column| column.name.as_str() == name)
    }

    /// The types of the columns.
    pub(crate) fn kinds(&self) -> Result<Vec<Kind>, Memory>
        ensures { IfOk result (λ kinds. kinds.items ≡ kinds_in (frame_of self.now)) }
    {
        kinds_of(self.alloc, self.columns)
    }

    /// The columns at their places; one that is neither the key nor one of these goes by no name.
    pub(crate) fn visible(&self, within: &[usize]) -> Result<Vec<Column>, Memory>
        ensures { IfOk result (λ columns. columns.items ≡ visible within.now (frame_of self.now).columns) }
    {
        visible_columns(self.alloc, within, self.columns)
    }
}

fn kinds_of(alloc: Global, columns: &[Column]) -> Result<Vec<Kind>, Memory>
    ensures { IfOk result (λ kinds. kinds.items ≡ map (λ column. column.kind) columns.now) }
{
    let mut kinds = Vec::new(alloc);
    for column in columns {
        kinds.push(column.kind)?;
    }
    Ok(kinds)
}

fn visible_columns(
    alloc: Global,
    within: &[usize],
    columns: &[Column],
) -> Result<Vec<Column>, Memory>
    ensures { IfOk result (λ shown. shown.items ≡ visible within.now columns.now) }
{
    let mut visible = Vec::new(alloc);
    for place in 0..columns.len() {
        visible.push(shown(alloc, within, place, &columns[place])?)?;
    }
    Ok(visible)
}

fn shown(alloc: Global, within: &[usize], place: usize, column: &Column) -> Result<Column, Memory>
    ensures { IfOk result (λ shown. shown ≡ spec.shown within.now place column.now) }
{
    if place == 0 || has(within, place) {
        return column.copy();
    }
    Ok(Column {
        name: Text::new(String::new(alloc))?,
        kind: column.kind,
    })
}

fn only_if(is_one: bool, place: usize) -> Option<usize>
    ensures { result ≡ spec.only_if is_one place }
{
    if is_one { Some(place) } else { None }
}

/// Whether a column is one of these.
pub(crate) fn has(columns: &[usize], col: usize) -> bool
    ensures { result ≡ counts.has columns.now col }
{
    columns.iter().any(|other| *other == col)
}

/// Those of the columns that are named, in their order.
pub(crate) fn in_order(
    alloc: Global,
    within: &[usize],
    named: &[usize],
) -> Result<Vec<usize>, Memory>
    ensures { IfOk result (λ columns. columns.items ≡ in_order within.now named.now) }
{
    let mut columns = Vec::new(alloc);
    for place in within {
        if has(named, *place) {
            columns.push(*place)?;
        }
    }
    Ok(columns)
}
