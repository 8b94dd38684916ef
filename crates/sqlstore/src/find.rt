//! The part at a key of a leaf.

ghost use Rattle.std.specs.List.{AllByRecursion};
ghost use Rattle.std.specs.Prelude.{◌≡◌, ◌<◌, ◌^◌, IfOk, Ok, string_bytes};
ghost use Rattle.sqlite.specs.Order.{bytes, column};
ghost use Rattle.terms.specs.Leaf.{leaf_text};
ghost use Rattle.terms.specs.Stored.{part_from};
ghost use Rattle.sqlstore.specs.Content.{has_leaf};
ghost use Rattle.sqlstore.specs.Query.{first_part, SpellsFirst, SpellsPart};
ghost use Rattle.sqlstore.specs.Frame.{FailsUnless};

use sqlite::Row;
use sqlite::types::ValueRef;
use std::alloc::Global;
use store::fault::StoreFault;
use terms::leaf::Leaf;
use terms::memory::Memory;
use terms::part::Part;
use terms::part_fault::PartFault;
use terms::stored::decode_part;

/// Whether a leaf is among these.
pub fn has(leaves: &[Leaf], leaf: &Leaf) -> bool
    ensures { result ≡ has_leaf leaves.now leaf.now }
{
    leaves.iter().any(|one| leaf.cmp(one).is_eq())
}

/// The part that the first row spells, if there is a row.
pub fn part_in(alloc: Global, rows: &[Row]) -> Result<Option<Part>, StoreFault>
    ensures part { IfOk result (λ found. found ≡ first_part rows.now) }
    ensures fails { FailsUnless (SpellsFirst rows.now) result }
{
    match rows.first() {
        Some(row) => match part_at(alloc, row, 0) {
            Ok(part) => Ok(Some(part)),
            Err(fault) => Err(fault),
        },
        None => Ok(None),
    }
}

/// The part that a cell of a row spells.
pub fn part_at(alloc: Global, row: &Row, at: usize) -> Result<Part, StoreFault>
    ensures part { IfOk result (λ part. part_from (bytes (column row.now at)) ≡ Ok part) }
    ensures fails { FailsUnless (SpellsPart (column row.now at)) result }
{
    let Ok(ValueRef::Blob(body)) = row.get_ref(at) else {
        return Err(StoreFault::Damaged);
    };
    match decode_part(alloc, body) {
        Ok(part) => Ok(part),
        Err(PartFault::Memory) => Err(StoreFault::Memory),
        Err(_) => Err(StoreFault::Damaged),
    }
}

/// The name of a leaf.
pub fn name_of(alloc: Global, leaf: &Leaf) -> Result<String, Memory>
    ensures { IfOk result (λ name. string_bytes name ≡ leaf_text leaf.now) }
{
    Ok(format!(in alloc; "{leaf}")?)
}

/// Reads the number of each leaf, which shows that it is one of 64 bits.
pub fn read_numbers(leaves: &[Leaf])
    ensures { AllByRecursion (λ leaf. leaf.number < 2 ^ 64) leaves.now }
{
    for leaf in leaves {
        read_number(leaf);
    }
}

fn read_number(leaf: &Leaf)
    ensures { leaf.now.number < 2 ^ 64 }
{
    let _number = leaf.number;
}
