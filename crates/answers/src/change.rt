//! Changes of rows, and the writes to leaves that they are.

ghost use Rattle.std.specs.Prelude.{◌≡◌, ◌++◌, ◌↔◌, IsTrue, IfOk, OnOk};
ghost use Rattle.answers.specs.Outcome.{change_write, leaf_changes, part_of, put_unless_same, writes_of};
ghost use Rattle.answers.specs.Writes.{same_part, write_between};

use catalog::fragment::place;
use catalog::fragment_leaf::FragmentLeaf;
use std::alloc::Global;
use terms::copy::TryCopy;
use terms::leaf::Leaf;
use terms::memory::Memory;
use terms::part::Part;
use terms::row::Row;
use terms::text::Text;
use terms::value::Value;
use terms::write::Write;

/// A row of this key, before and after a change; none where it is not there.
#[derive(Debug, Drop)]
pub struct Change {
    pub key: i64,
    pub before: Option<Row>,
    pub after: Option<Row>,
}

/// The writes of the changes of a relation, leaf by leaf, in the order of the changes.
pub(crate) fn writes_of(
    alloc: Global,
    relation: &Text,
    changes: &[Change],
    leaves: &[FragmentLeaf],
) -> Result<Vec<Write>, Memory>
    ensures { IfOk result (λ writes. writes.items ≡ writes_of relation.now changes.now leaves.now) }
{
    let mut writes = Vec::new(alloc);
    for leaf in leaves {
        if leaf.name.relation == *relation {
            put_leaf_writes(&mut writes, leaf, changes)?;
        }
    }
    Ok(writes)
}

/// Puts the writes of changes to one leaf behind others.
fn put_leaf_writes(
    writes: &mut Vec<Write>,
    leaf: &FragmentLeaf,
    changes: &[Change],
) -> Result<(), Memory>
    ensures { OnOk result (writes.new.items ≡ writes.old.items ++ leaf_changes leaf.now changes.now) }
{
    for change in changes {
        if let Some(write) = change_write(*writes.allocator(), leaf, change)? {
            writes.push(write)?;
        }
    }
    Ok(())
}

/// The write of a change to a leaf; none where the leaf's part stays as it is.
fn change_write(
    alloc: Global,
    leaf: &FragmentLeaf,
    change: &Change,
) -> Result<Option<Write>, Memory>
    ensures { IfOk result (λ write. write ≡ change_write leaf.now change.now) }
{
    let before = part_of(alloc, leaf, &change.before)?;
    let after = part_of(alloc, leaf, &change.after)?;
    write_between(&leaf.name, change.key, &before, &after)
}

/// The write that leads from a leaf's part at a key to another part there; none where they are the same.
pub(crate) fn write_between(
    name: &Leaf,
    key: i64,
    before: &Option<Row>,
    after: &Option<Row>,
) -> Result<Option<Write>, Memory>
    ensures { IfOk result (λ write. write ≡ write_between name.now key before.now after.now) }
{
    match after {
        Some(after) => put_unless_same(name, before, after),
        None => match before {
            Some(_) => Ok(Some(Write::Del(name.copy()?, key))),
            None => Ok(None),
        },
    }
}

/// A write of a part, unless the part before is the same.
fn put_unless_same(name: &Leaf, before: &Option<Row>, after: &Row) -> Result<Option<Write>, Memory>
    ensures { IfOk result (λ write. write ≡ put_unless_same name.now before.now after.now) }
{
    if let Some(before) = before {
        if same_part(before.values(), after.values()) {
            return Ok(None);
        }
    }
    // A row that fits its relation has values that parts can have, so nothing is turned away here.
    let Some(part) = Part::of_row(after)? else {
        return Err(Memory);
    };
    Ok(Some(Write::Put(name.copy()?, part)))
}

/// A row's part in a leaf; none where there is no row, or the leaf's conditions don't hold of it.
fn part_of(alloc: Global, leaf: &FragmentLeaf, row: &Option<Row>) -> Result<Option<Row>, Memory>
    ensures { IfOk result (λ found. found ≡ part_of leaf.now row.now) }
{
    match row {
        Some(row) => place(alloc, leaf.conds.as_slice(), leaf.columns.as_slice(), row),
        None => Ok(None),
    }
}

/// Whether two parts have the same values.
fn same_part(values: &[Value], others: &[Value]) -> bool
    ensures { result ≡ same_part values.now others.now }
{
    let (Some((value, values)), Some((other, others))) = (
        values.split_first(),
        others.split_first(),
    ) else {
        return values.is_empty() && others.is_empty();
    };
    value.cmp(other).is_eq() && same_part(values, others)
}
