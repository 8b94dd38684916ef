//! The ONs of a statement: which columns of its relations have one value.

ghost use Rattle.std.specs.Prelude.{◌≡◌, ◌==◌, ◌&&◌, ◌≤◌, IfOk, length};
ghost use Rattle.plan.specs.Need as spec;
ghost use Rattle.plan.specs.Need.{column_of, equal_of, number_of};

use meaning::statement::{Join, Select};
use std::alloc::Global;
use terms::memory::Memory;

/// An ON of a join. The columns of all relations are counted on in their order: a place is one of these.
#[derive(Clone, Copy, Debug)]
pub struct Link {
    /// The place of the column that the key is compared with.
    pub place: usize,
    /// The place of the joined relation's key: so many columns stand before it.
    pub key: usize,
    /// The number of the relation that has the column, the one after FROM being 0.
    pub from: usize,
    /// The column of that relation.
    pub col: usize,
    /// The number of the joined relation.
    pub joined: usize,
}

/// The ONs of a SELECT, in its order.
pub fn links_of(alloc: Global, select: &Select) -> Result<Vec<Link>, Memory>
    ensures { IfOk result (λ links. links.items ≡ spec.links_of select.now) }
{
    let joins = select.joins.as_slice();
    if joins.is_empty() {
        return Ok(Vec::new(alloc));
    }
    let width = select.from.columns.as_slice().len();
    let mut widths = Vec::new(alloc);
    widths.push(width)?;
    links_behind(alloc, widths, width, joins)
}

/// The ONs of joins behind relations with so many columns each, and so many together.
fn links_behind(
    alloc: Global,
    widths: Vec<usize>,
    width: usize,
    joins: &[Join],
) -> Result<Vec<Link>, Memory>
    requires { width ≡ spec.width_of widths.items }
    ensures { IfOk result (λ links. links.items ≡ spec.links_behind widths.items joins.now) }
{
    let mut links = Vec::new(alloc);
    let mut widths = widths;
    let mut before = width;
    for join in joins {
        links.push(link_of(widths.as_slice(), before, join))?;
        let more = join.relation.columns.as_slice().len();
        widths.push(more)?;
        before = before.checked_add(more).ok_or(Memory)?;
    }
    Ok(links)
}

/// The ON of a join behind relations with so many columns each, and so many together.
fn link_of(widths: &[usize], width: usize, join: &Join) -> Link
    requires { width ≡ spec.width_of widths.now }
    ensures { result ≡ spec.link_of widths.now join.now }
{
    Link {
        place: join.col,
        key: width,
        from: number_of(widths, join.col),
        col: column_of(widths, join.col),
        joined: widths.len(),
    }
}

/// The number of the relation that has a place; of these widths, in their order.
fn number_of(widths: &[usize], place: usize) -> usize
    ensures value { result ≡ number_of widths.now place }
    ensures within { result ≤ length widths.now }
{
    let Some((width, rest)) = widths.split_first() else {
        return 0;
    };
    if place < *width {
        return 0;
    }
    number_of(rest, place - *width) + 1
}

/// The column that a place is in its relation.
fn column_of(widths: &[usize], place: usize) -> usize
    ensures { result ≡ column_of widths.now place }
{
    match widths.split_first() {
        Some((width, rest)) if place >= *width => column_of(rest, place - *width),
        _ => place,
    }
}

/// Whether a place is of the relation that stands behind so many columns and has so many.
pub fn is_of(before: usize, width: usize, place: usize) -> bool
    ensures { result ≡ spec.is_of before width place }
{
    place >= before && place - before < width
}

/// The first of the places that ONs make equal to a place.
fn origin(links: &[Link], place: usize) -> usize
    ensures { result ≡ spec.origin links.now place }
{
    let Some((link, later)) = links.split_first() else {
        return place;
    };
    let place = origin(later, place);
    if place == link.key { link.place } else { place }
}

/// Whether a place is of a relation, and its first equal place is this one.
fn is_equal(links: &[Link], before: usize, width: usize, first: usize, place: usize) -> bool
    ensures { result ≡ (spec.is_of before width place && (spec.origin links.now place == first)) }
{
    is_of(before, width, place) && origin(links, place) == first
}

/// The place in a relation that has the value of a place elsewhere.
pub fn equal_of(links: &[Link], before: usize, width: usize, place: usize) -> Option<usize>
    ensures { result ≡ equal_of links.now before width place }
{
    let first = origin(links, place);
    for link in links {
        if is_equal(links, before, width, first, link.place) {
            return Some(link.place);
        }
        if is_equal(links, before, width, first, link.key) {
            return Some(link.key);
        }
    }
    None
}
