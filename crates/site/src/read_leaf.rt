//! The rows that a fetch answers: of a whole leaf, or of the one key that it asks for.

ghost use Rattle.std.specs.Prelude.{◌≡◌, IfOk, IfSome, option_to_list, unwrap_or};
ghost use Rattle.std.specs.FinMap as map;
ghost use Rattle.std.specs.List.{filter};
ghost use Rattle.terms.specs.Cond.{conds_hold};
ghost use Rattle.store.specs.Content.{changed, parts, AreKeyed};
ghost use Rattle.store.specs.Slot.{slot_of};
ghost use Rattle.site.specs.Frame.{Reads};
ghost use Rattle.site.specs.State.{volatile_of, changes_at};
ghost use Rattle.store.specs.Laws.{AskKey};
ghost use Rattle.site.specs.PointRead.{key_equality_of, key_equality};

use crate::fault::{SiteFault, site_fault};
use crate::overlay::overlaid;
use crate::volatile::Volatile;
use std::alloc::Global;
use store::changes::Changes;
use store::laws::one_key_suffices;
use store::name::Ticket;
use store::site_store::SiteStore;
use store::slot::Slot;
use terms::cond::{Cmp, Cond, Conds};
use terms::copy::TryCopy;
use terms::leaf::Leaf;
use terms::memory::Memory;
use terms::part::Part;
use terms::value::Value;

/// The parts of a leaf that meet conditions, after a visit's own changes. Conditions that ask for one key
/// cost one part, and not the leaf.
pub(crate) fn rows<S: SiteStore>(
    store: &mut S,
    volatile: &Volatile,
    ticket: &Ticket,
    leaf: &Leaf,
    conds: &Conds,
) -> Result<Vec<Part>, SiteFault>
    ensures rows { S.is_clean store.new → S.is_sound store.old → IfOk result (λ rows. rows.items ≡ parts conds.now (changed leaf.now (changes_at (volatile_of volatile.now) ticket.now) ((S.kept store.old).content leaf.now))) }
    ensures reads { Reads S.is_clean S.is_sound S.kept S.refused store.old store.new result }
{
    if let Some(key) = key_equality(conds.as_slice()) {
        return read_point(store, volatile, ticket, leaf, key, conds);
    }
    let kept = match store.scan(leaf, conds) {
        Ok(parts) => parts,
        Err(fault) => return Err(site_fault(fault)),
    };
    match volatile.changes(ticket) {
        Some(changes) => Ok(overlaid(volatile.alloc, kept, changes, leaf, conds)?),
        None => Ok(kept),
    }
}

/// The key that a condition asks for: that the first value equals an integer.
fn key_equality_of(cond: &Cond) -> Option<i64>
    ensures { result ≡ key_equality_of cond.now }
{
    if cond.col != 0 {
        return None;
    }
    match cond.cmp {
        Cmp::Eq => match &cond.value {
            Value::Int(key) => Some(*key),
            Value::Text(_) => None,
        },
        _ => None,
    }
}

/// The key that conditions ask for, if one of them does: no part of another key meets them all.
pub(crate) fn key_equality(conds: &[Cond]) -> Option<i64>
    ensures key { result ≡ key_equality conds.now }
    ensures alone { IfSome result (AskKey conds.now) }
{
    for cond in conds {
        if let Some(key) = key_equality_of(cond) {
            return Some(key);
        }
    }
    None
}

/// The part of a leaf at a key, if it meets conditions that ask for it, after a visit's own changes.
pub(crate) fn read_point<S: SiteStore>(
    store: &mut S,
    volatile: &Volatile,
    ticket: &Ticket,
    leaf: &Leaf,
    key: i64,
    conds: &Conds,
) -> Result<Vec<Part>, SiteFault>
    requires { AskKey conds.now key }

    ensures rows { S.is_clean store.new → S.is_sound store.old → IfOk result (λ rows. rows.items ≡ parts conds.now (changed leaf.now (changes_at (volatile_of volatile.now) ticket.now) ((S.kept store.old).content leaf.now))) }
    ensures reads { Reads S.is_clean S.is_sound S.kept S.refused store.old store.new result }
{
    let kept = match store.find(leaf, key) {
        Ok(part) => part,
        Err(fault) => return Err(site_fault(fault)),
    };
    one_key_suffices();
    let none = Changes::new(volatile.alloc);
    let changes = volatile.changes(ticket).unwrap_or(&none);
    let part = changed_at(kept, changes, leaf, key)?;
    Ok(if_meets(volatile.alloc, part, conds)?)
}

/// What changes make of what is at a key of a leaf.
fn changed_at(
    kept: Option<Part>,
    changes: &Changes,
    leaf: &Leaf,
    key: i64,
) -> Result<Option<Part>, Memory>
    ensures part { IfOk result (λ part. part ≡ unwrap_or (map.get changes.now (slot_of leaf.now key)) kept) }
    ensures keyed { AreKeyed changes.now }
{
    let _count = changes.len();
    if changes.is_empty() {
        return Ok(kept);
    }
    let slot = Slot {
        leaf: leaf.copy()?,
        key,
    };
    match changes.get(&slot) {
        Some(Some(part)) => Ok(Some(part.copy()?)),
        Some(None) => Ok(None),
        None => Ok(kept),
    }
}

/// The part, if there is one and it meets conditions.
fn if_meets(alloc: Global, part: Option<Part>, conds: &Conds) -> Result<Vec<Part>, Memory>
    ensures { IfOk result (λ parts. parts.items ≡ filter (conds_hold conds.now) (option_to_list part)) }
{
    let mut parts = Vec::new(alloc);
    if let Some(part) = part
        && part.meets(conds.as_slice())
    {
        parts.push(part)?;
    }
    Ok(parts)
}
