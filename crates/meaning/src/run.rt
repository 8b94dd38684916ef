//! Statements, run over whole relations.

ghost use Rattle.std.specs.Prelude.{◌≡◌, List, IfOk, OnOk, OnErr};
ghost use Rattle.meaning.specs.declared.schema.RelationSchema.{RelationSchema};
ghost use Rattle.meaning.specs.Statement.{IsStatementOf};
ghost use Rattle.meaning.specs.Whole.{FitsSchema};
ghost use Rattle.meaning.specs.Meaning.{meaning};

use crate::answer::Answer;
use crate::delete::run_delete;
use crate::insert::run_insert;
use crate::refragment::run_refragment;
use crate::select::run_select;
use crate::statement::Statement;
use crate::update::run_update;
use crate::whole::Whole;
use std::alloc::Global;
use terms::memory::Memory;

/// Runs one statement over whole relations. Where memory runs out nothing has changed.
pub fn run(alloc: Global, whole: &mut Whole, statement: &Statement) -> Result<Answer, Memory>
    ensures answer { IfOk result (λ answer. answer ≡ (meaning statement.now whole.old).0) }
    ensures whole { OnOk result (whole.new ≡ (meaning statement.now whole.old).1) }
    ensures err { OnErr result (whole.new ≡ whole.old) }
    // What fits a schema still fits it.
    ensures fits { (schema : List RelationSchema) → IsStatementOf schema statement.now → FitsSchema schema whole.old → FitsSchema schema whole.new }
{
    match statement {
        Statement::Select(select) => run_select(alloc, whole, select),
        Statement::Insert(insert) => run_insert(alloc, whole, insert),
        Statement::Update(update) => run_update(alloc, whole, update),
        Statement::Delete(delete) => run_delete(alloc, whole, delete),
        Statement::Refragment(refragment) => Ok(run_refragment(whole, refragment)),
    }
}
