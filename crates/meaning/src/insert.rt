//! INSERT, over whole relations.

ghost use Rattle.std.specs.Prelude.{◌≡◌, IfOk, OnOk, OnErr};
ghost use Rattle.meaning.specs.Meaning.{after_insert};

use crate::answer::Answer;
use crate::statement::Insert;
use crate::whole::Whole;
use std::alloc::Global;
use terms::copy::TryCopy;
use terms::memory::Memory;

/// Runs an INSERT.
pub fn run_insert(alloc: Global, whole: &mut Whole, insert: &Insert) -> Result<Answer, Memory>
    ensures answer { IfOk result (λ answer. answer ≡ (after_insert insert.now whole.old).0) }
    ensures whole { OnOk result (whole.new ≡ (after_insert insert.now whole.old).1) }
    ensures err { OnErr result (whole.new ≡ whole.old) }
{
    if whole.insert_row(alloc, &insert.into, insert.row.copy()?)? {
        Ok(Answer::Changed(1))
    } else {
        Ok(Answer::Exists)
    }
}
