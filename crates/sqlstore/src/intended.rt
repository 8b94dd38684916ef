//! Intents are put into the changes of their tickets' rows.

ghost use Rattle.std.specs.Prelude.{◌≡◌, ◌⊎◌, [], IfOk, OnOk, IsSome, Some};
ghost use Rattle.std.specs.BTreeMap as tree;
ghost use Rattle.store.specs.declared.name.Ticket.{Ticket as Visit};
ghost use Rattle.store.specs.Name.{ticket_cmp};
ghost use Rattle.sqlstore.specs.Cells.{text_at, int_at};
ghost use Rattle.sqlstore.specs.Content.{leaf_named, put_of, with_intent};
ghost use Rattle.sqlstore.specs.Gathered.{HasRow, with_own};
ghost use Rattle.sqlstore.specs.Sound.{IsIntent, SpellsAt};
ghost use Rattle.sqlstore.specs.Frame.{FailsUnless, Tests};

use crate::cells::{int_in, text_in, ticket_in};
use crate::listing::named;
use sqlite::Row;
use std::alloc::Global;
use std::collections::BTreeMap;
use store::changes::Changes;
use store::fault::StoreFault;
use store::name::Ticket;
use store::prepared::Prepared;
use store::slot::Slot;
use terms::copy::TryCopy;
use terms::leaf::Leaf;
use terms::part::Part;
use terms::part_fault::PartFault;
use terms::stored::decode_part;

/// The part under a key that a body puts, or none where it is empty.
fn part_put(alloc: Global, body: &[u8], key: i64) -> Result<Option<Part>, StoreFault>
    ensures part { IfOk result (λ part. part ≡ put_of body.now) }
    ensures tests { Tests ((body.now ≡ []) ⊎ SpellsAt body.now key) result }
{
    if body.is_empty() {
        return Ok(None);
    }
    match decode_part(alloc, body) {
        Ok(part) if part.key() == key => Ok(Some(part)),
        Err(PartFault::Memory) => Err(StoreFault::Memory),
        _ => Err(StoreFault::Damaged),
    }
}

/// The leaf that has this name.
fn leaf_of(alloc: Global, leaves: &[Leaf], name: &[u8]) -> Result<Leaf, StoreFault>
    ensures leaf { IfOk result (λ leaf. leaf_named leaves.now name.now ≡ Some leaf) }
    ensures fails { FailsUnless (IsSome (leaf_named leaves.now name.now)) result }
{
    match named(alloc, leaves, name) {
        Ok(Some(leaf)) => Ok(leaf.copy()?),
        Ok(None) => Err(StoreFault::Damaged),
        Err(fault) => Err(fault),
    }
}

/// Puts a row's intent into changes.
fn put_intent(
    changes: &mut Changes,
    alloc: Global,
    leaves: &[Leaf],
    row: &Row,
) -> Result<(), StoreFault>
    ensures ok { OnOk result (changes.new ≡ with_intent (leaf_named leaves.now (text_at row.now 3)) (int_at row.now 4) (text_at row.now 5) changes.old) }
    ensures tests { Tests (IsIntent leaves.now row.now) result }
{
    let leaf = leaf_of(alloc, leaves, text_in(row, 3))?;
    let key = int_in(row, 4);
    match part_put(alloc, text_in(row, 5), key)? {
        Some(part) => changes.put(leaf, part)?,
        None => changes.del(Slot { leaf, key })?,
    }
    Ok(())
}

/// Puts an intent into the changes of its ticket's row.
pub fn put_own(
    map: &mut BTreeMap<Ticket, Prepared>,
    alloc: Global,
    leaves: &[Leaf],
    row: &Row,
) -> Result<(), StoreFault>
    ensures ok { OnOk result ((ticket : Visit) → tree.get ticket_cmp map.new ticket ≡ with_own leaves.now row.now ticket (tree.get ticket_cmp map.old ticket)) }
    ensures tests { Tests (IsIntent leaves.now row.now × HasRow (tree.get ticket_cmp map.old) row.now) result }
{
    let Some(ticket) = ticket_in(row) else {
        return Err(StoreFault::Damaged);
    };
    match map.get_mut(&ticket) {
        Some(prepared) => put_intent(&mut prepared.changes, alloc, leaves, row),
        None => Err(StoreFault::Damaged),
    }
}
