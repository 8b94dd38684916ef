//! Conditions alone, read from their texts.

ghost use Rattle.std.specs.Prelude.{◌≡◌, ◌≢◌, ◌≤◌, List, length, IfOk, IfErr};
ghost use Rattle.std.specs.List.{AllByRecursion};
ghost use Rattle.terms.specs.declared.cond.Cond.{Cond};
ghost use Rattle.terms.specs.Cond.{IsCondOf};
ghost use Rattle.reader.specs.declared.fault.Rule.TheVariants as rules;
ghost use Rattle.reader.specs.Breaks.{Refuses, CondsTextBreaks};
ghost use Rattle.reader.specs.Conds.{AreCondsOf, CondsOfTextFit, OneListOfCondsOfText};
ghost use Rattle.reader.specs.Scope.{types};

use crate::conditions::conds;
use crate::fault::{ReadFault, Rule};
use crate::lexer::tokens;
use crate::parser::parse_conditions;
use crate::read::STATEMENT_LIMIT;
use crate::scope::of_columns;
use meaning::schema::Column;
use std::alloc::Global;
use terms::cond::Conds;

/// The conditions of a text on these columns, which go by plain names: a qualified one is none of them.
///
/// A refused text is refused by one of the rules, in the passes of `read`.
pub fn read_conds(alloc: Global, text: &str, columns: &[Column]) -> Result<Conds, ReadFault>
    // An accepted text is one of the conditions, and they fit the columns.
    ensures found { IfOk result (λ conds. AreCondsOf columns.now text.now conds) }
    ensures fits { IfOk result (λ conds. AllByRecursion (IsCondOf (types columns.now)) conds) }
    ensures few { IfOk result (λ conds. length conds ≤ 8) }
    // A text that is refused by a rule is one of no conditions.
    ensures none { IfErr result (λ fault. fault.rule ≢ rules.Memory
        → (conds : List Cond) → ¬ (AreCondsOf columns.now text.now conds)) }
    // The rule that it names is one that the text breaks.
    ensures rule { Refuses result (λ rule. CondsTextBreaks rule columns.now text.now) }
    // That memory ran out is told at offset 0.
    ensures memory { IfErr result (λ fault. fault.rule ≡ rules.Memory → fault.offset ≡ 0) }
    ensures within { IfErr result (λ fault. fault.offset ≤ length text.now) }
{
    match read_bytes(alloc, text.as_bytes(), columns) {
        Ok(conds) => Ok(conds),
        Err(fault) => Err(fault.within(text.len())),
    }
}

/// A text is one of one list of conditions at most.
pub fn one_list_of_conds()
    ensures { OneListOfCondsOfText }
{}

/// The conditions of a text fit its columns, and are eight at most.
pub fn conds_of_a_text_fit()
    ensures { CondsOfTextFit }
{}

fn read_bytes(alloc: Global, text: &[u8], columns: &[Column]) -> Result<Conds, ReadFault>
    ensures found { IfOk result (λ conds. AreCondsOf columns.now text.now conds) }
    ensures none { IfErr result (λ fault. fault.rule ≢ rules.Memory
        → (conds : List Cond) → ¬ (AreCondsOf columns.now text.now conds)) }
    ensures rule { Refuses result (λ rule. CondsTextBreaks rule columns.now text.now) }
{
    if text.len() > STATEMENT_LIMIT {
        return Err(ReadFault::new(Rule::TooLong, STATEMENT_LIMIT));
    }
    let tokens = tokens(alloc, text)?;
    let written = parse_conditions(alloc, tokens.as_slice())?;
    let conds = conds(alloc, &of_columns(alloc, columns), written.as_slice())?;
    let resolved = Conds::new(conds)?;
    Ok(resolved)
}
