//! The leaves that each site of a database knows.

ghost use Rattle.std.specs.Prelude.{◌≡◌, ◌++◌, IfOk, OnOk};
ghost use Rattle.catalog.specs.FragmentLeaf.{schemas_of};
ghost use Rattle.catalog.specs.Relation.{catalogue_of};
ghost use Rattle.world.specs.Leaves.{known_leaves, leaves_numbered};

use catalog::catalogue::Catalog;
use std::alloc::Global;
use terms::copy::TryCopy;
use terms::leaf::Leaf;
use terms::memory::Memory;
use terms::text::Text;

/// The most leaves of a relation.
const LEAVES: usize = 32;

/// The leaves that the relations of a catalogue can have, whatever it puts at a site, relation by relation.
pub fn known_leaves(alloc: Global, catalog: &Catalog) -> Result<Vec<Leaf>, Memory>
    ensures { IfOk result (λ leaves. leaves.items ≡ known_leaves (schemas_of (catalogue_of catalog.now))) }
{
    let mut leaves = Vec::new(alloc);
    for schema in catalog.schema().relations.as_slice() {
        put_leaves(&mut leaves, &schema.name)?;
    }
    Ok(leaves)
}

/// Puts the leaves that a relation of this name can have behind others.
fn put_leaves(leaves: &mut Vec<Leaf>, relation: &Text) -> Result<(), Memory>
    ensures { OnOk result (leaves.new.items ≡ leaves.old.items ++ leaves_numbered relation.now) }
{
    for number in 1..=LEAVES {
        leaves.push(Leaf {
            relation: relation.copy()?,
            number,
        })?;
    }
    Ok(())
}
