//! DELETE, over whole relations.

ghost use Rattle.std.specs.Prelude.{◌≡◌, IfOk, OnOk, OnErr};
ghost use Rattle.meaning.specs.Meaning.{after_delete};

use crate::answer::Answer;
use crate::matched::{matched, unmatched};
use crate::relation::Relation;
use crate::statement::Delete;
use crate::whole::Whole;
use std::alloc::Global;
use terms::memory::Memory;

/// Runs a DELETE.
pub fn run_delete(alloc: Global, whole: &mut Whole, delete: &Delete) -> Result<Answer, Memory>
    ensures answer { IfOk result (λ answer. answer ≡ (after_delete delete.now whole.old).0) }
    ensures whole { OnOk result (whole.new ≡ (after_delete delete.now whole.old).1) }
    ensures err { OnErr result (whole.new ≡ whole.old) }
{
    let rows = whole.rows(&delete.relation.name);
    let count = matched(&delete.conds, rows);
    let left = unmatched(alloc, &delete.conds, rows)?;
    whole.replace(&delete.relation.name, Relation::of_rows(left));
    Ok(Answer::Changed(count))
}
