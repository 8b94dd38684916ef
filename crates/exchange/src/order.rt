//! Which field of a record each column has.

ghost use Rattle.std.specs.Prelude.{◌≡◌, [], nat_eq, map, not, position};
ghost use Rattle.std.specs.Cmp.Lexicographic.{pointwise};
ghost use Rattle.std.specs.List.{list_any};
ghost use Rattle.exchange.specs.declared.order.HeaderFault.TheVariants as faults;
ghost use Rattle.exchange.specs.Each.{each_from};
ghost use Rattle.exchange.specs.Order.{IsAnswer, is_column, order_of, place_of, twice_after};

use meaning::schema::Column;
use std::alloc::{AllocError, AllocFailed, Global};

/// Why the names in a file's first line are not those of the columns.
#[derive(Clone, Copy, Debug, PartialEq, Eq)]
pub enum HeaderFault {
    /// The name at this place is that of no column.
    Unknown(usize),
    /// The name at this place stands before it already.
    Twice(usize),
    /// No name is that of this column.
    Lacking(usize),
    Memory,
}

impl From<AllocError> for HeaderFault {
    ghost from_gives = { λ _ fault. fault ≡ faults.Memory };

    fn from(_error: AllocError) -> HeaderFault {
        HeaderFault::Memory
    }
}

impl<T: Drop> From<AllocFailed<T>> for HeaderFault {
    ghost from_gives = { λ _ fault. fault ≡ faults.Memory };

    fn from(_error: AllocFailed<T>) -> HeaderFault {
        HeaderFault::Memory
    }
}

/// The place of each column's name among the names. Faults are looked for in their order above.
pub fn order(alloc: Global, columns: &[Column], names: &[&[u8]]) -> Result<Vec<usize>, HeaderFault>
    ensures { IsAnswer (λ order. order.items) result (order_of columns.now (map (λ name. name.now) names.now)) }
{
    if let Some(place) = unknown(columns, names) {
        return Err(HeaderFault::Unknown(place));
    }
    if let Some(place) = twice(names) {
        return Err(HeaderFault::Twice(place));
    }
    places(alloc, columns, names)
}

/// The place of the first name that no column has.
fn unknown(columns: &[Column], names: &[&[u8]]) -> Option<usize>
    ensures { result ≡ position (λ name. not (is_column columns.now name.now)) names.now }
{
    names.iter().position(|name| !is_column(columns, name))
}

fn is_column(columns: &[Column], name: &[u8]) -> bool
    ensures { result ≡ is_column columns.now name.now }
{
    columns
        .iter()
        .any(|column| column.name.as_str().as_bytes() == name)
}

/// The place of the first name that stands before it already.
pub(crate) fn twice(names: &[&[u8]]) -> Option<usize>
    ensures { result ≡ twice_after [] (map (λ name. name.now) names.now) }
{
    for (place, name) in names.iter().enumerate() {
        if stands_in(&names[..place], name) {
            return Some(place);
        }
    }
    None
}

fn stands_in(names: &[&[u8]], name: &[u8]) -> bool
    ensures { result ≡ list_any (λ other. pointwise nat_eq other.now name.now) names.now }
{
    names.iter().any(|other| *other == name)
}

fn places(alloc: Global, columns: &[Column], names: &[&[u8]]) -> Result<Vec<usize>, HeaderFault>
    ensures { IsAnswer (λ places. places.items) result (each_from (place_of (map (λ name. name.now) names.now)) 0 columns.now) }
{
    let mut places = Vec::with_capacity(alloc, columns.len())?;
    for (number, column) in columns.iter().enumerate() {
        let Some(place) = place_in(names, column.name.as_str().as_bytes()) else {
            return Err(HeaderFault::Lacking(number));
        };
        places.push(place)?;
    }
    Ok(places)
}

/// The place of a name.
fn place_in(names: &[&[u8]], name: &[u8]) -> Option<usize>
    ensures { result ≡ position (λ other. pointwise nat_eq other.now name.now) names.now }
{
    names.iter().position(|other| *other == name)
}
