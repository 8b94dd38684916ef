//! Items by their places.

ghost use Rattle.std.specs.Prelude.{◌≡◌, IfOk};
ghost use Rattle.meaning.specs.Listed.{listed};

use std::alloc::Global;
use terms::copy::TryCopy;
use terms::memory::Memory;

/// The items at the listed places, in the order of the list.
pub fn listed<T: TryCopy>(alloc: Global, places: &[usize], items: &[T]) -> Result<Vec<T>, Memory>
    ensures { IfOk result (λ found. found.items ≡ listed places.now items.now) }
{
    let mut found = Vec::new(alloc);
    for place in places {
        if let Some(item) = items.get(*place) {
            found.push(item.copy()?)?;
        }
    }
    Ok(found)
}
