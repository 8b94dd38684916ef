//! Intents as rows of their table.

ghost use Rattle.std.specs.Prelude.{◌≡◌, IfOk, IfSome};
ghost use Rattle.terms.specs.Stored.{IsStorable};
ghost use Rattle.sqlstore.specs.Intents.{AreIntents, SeenAs, HasBody, body_of, seen, wanted};

use std::alloc::Global;
use store::changes::Changes;
use store::slot::{Slot, Slots};
use terms::memory::Memory;
use terms::part::Part;
use terms::stored::encode_part;

/// What a ticket's row of intents says of a slot: the leaf's name, the key, and the part's spelling, or nothing
/// where the part is to go.
#[derive(Debug, Drop)]
pub struct Intent {
    pub leaf: String,
    pub key: i64,
    pub body: Vec<u8>,
}

/// The intents of changes.
pub fn intents_of(alloc: Global, changes: &Changes) -> Result<Vec<Intent>, Memory>
    ensures { IfOk result (λ intents. AreIntents intents.items changes.now) }
{
    intents_in(alloc, changes.slots())
}

fn intents_in(alloc: Global, slots: &Slots) -> Result<Vec<Intent>, Memory>
    ensures { IfOk result (λ intents. SeenAs intents.items slots.now.entries) }
{
    let mut intents = Vec::new(alloc);
    for (slot, part) in slots {
        intents.push(intent_of(alloc, slot, part)?)?;
    }
    Ok(intents)
}

/// The intent of a slot.
fn intent_of(alloc: Global, slot: &Slot, part: &Option<Part>) -> Result<Intent, Memory>
    ensures seen { IfOk result (λ intent. seen intent ≡ wanted (slot.now, part.now)) }
    ensures body { HasBody (slot.now, part.now) }
{
    let body = body_of(alloc, part)?;
    let leaf = format!(in alloc; "{}", slot.leaf)?;
    let key = slot.key;
    Ok(Intent { leaf, key, body })
}

/// The body that puts a part, or takes one out.
fn body_of(alloc: Global, part: &Option<Part>) -> Result<Vec<u8>, Memory>
    ensures body { IfOk result (λ body. body.items ≡ body_of part.now) }
    ensures storable { IfSome part.now IsStorable }
{
    match part {
        Some(part) => encode_part(alloc, part),
        None => Ok(Vec::new(alloc)),
    }
}
