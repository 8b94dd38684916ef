//! Commands, read from their texts.

ghost use Rattle.std.specs.Prelude.{◌≡◌, ◌≢◌, ◌≤◌, List, length, IfOk, IfErr};
ghost use Rattle.reader.specs.declared.command.Command.{Command};
ghost use Rattle.reader.specs.declared.fault.Rule.TheVariants as rules;
ghost use Rattle.reader.specs.Breaks.{Refuses, TextBreaks};
ghost use Rattle.reader.specs.Command.{IsTextOf, IsCommandOf, OneCommandOfText};
ghost use Rattle.reader.specs.Printable.{AreNamed, IsPrintableCommand};

use crate::command::Command;
use crate::fault::{ReadFault, Rule};
use crate::lexer::tokens;
use crate::names;
use crate::parser::parse;
use meaning::schema::Schema;
use std::alloc::Global;

/// The most bytes of the text of a statement or of conditions.
pub const STATEMENT_LIMIT: usize = 4096;

/// The command of a text, under a schema.
///
/// A refused text is refused by one of the rules, in passes: its length, its tokens, the grammar, the
/// names of relations, and then the rest from left to right.
pub fn read(alloc: Global, text: &str, schema: &Schema) -> Result<Command, ReadFault>
    // An accepted text is one of the command, and the command fits the schema.
    ensures found { IfOk result (λ command. IsTextOf schema.now.relations text.now command) }
    ensures fits { IfOk result (λ command. IsCommandOf schema.now.relations command) }
    // It is printable where the names of the schema can stand in a text.
    ensures printable { IfOk result (λ command. AreNamed schema.now.relations
        → IsPrintableCommand schema.now.relations command) }
    // A text that is refused by a rule is one of no command.
    ensures none { IfErr result (λ fault. fault.rule ≢ rules.Memory
        → (command : Command) → ¬ (IsTextOf schema.now.relations text.now command)) }
    // The rule that it names is one that the text breaks.
    ensures rule { Refuses result (λ rule. TextBreaks rule schema.now.relations text.now) }
    // That memory ran out is told at offset 0.
    ensures memory { IfErr result (λ fault. fault.rule ≡ rules.Memory → fault.offset ≡ 0) }
    ensures within { IfErr result (λ fault. fault.offset ≤ length text.now) }
{
    match read_bytes(alloc, text.as_bytes(), schema) {
        Ok(command) => Ok(command),
        Err(fault) => Err(fault.within(text.len())),
    }
}

/// A text is one of one command at most.
pub fn one_command()
    ensures { OneCommandOfText }
{}

fn read_bytes(alloc: Global, text: &[u8], schema: &Schema) -> Result<Command, ReadFault>
    ensures found { IfOk result (λ command. IsTextOf schema.now.relations text.now command) }
    ensures none { IfErr result (λ fault. fault.rule ≢ rules.Memory
        → (command : Command) → ¬ (IsTextOf schema.now.relations text.now command)) }
    ensures rule { Refuses result (λ rule. TextBreaks rule schema.now.relations text.now) }
{
    if text.len() > STATEMENT_LIMIT {
        return Err(ReadFault::new(Rule::TooLong, STATEMENT_LIMIT));
    }
    let tokens = tokens(alloc, text)?;
    let written = parse(alloc, tokens.as_slice())?;
    let command = names::command(alloc, schema, &written)?;
    Ok(command)
}
