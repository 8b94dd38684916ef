//! Whether a call is the one that a text asks for.

ghost use Rattle.std.specs.Prelude.{◌≡◌, IfOk};
ghost use Rattle.std.specs.Bool.{Decides};
ghost use Rattle.reader.specs.declared.command.Command.TheVariants as commands;
ghost use Rattle.reader.specs.Command.{IsTextOf};
ghost use Rattle.history.specs.Standing.{IsCommandIn};
ghost use Rattle.history.specs.Told.{IsAskedFor};

use meaning::schema::Schema;
use reader::command::Command;
use reader::fault::{ReadFault, Rule};
use reader::read::read;
use std::alloc::Global;
use terms::memory::Memory;
use terms::same::Same;
use terms::text::Text;
use world::event::Call;

/// Whether a call is the one that a text asks for.
pub(crate) fn is_asked_for(
    alloc: Global,
    schema: &Schema,
    text: &Text,
    call: &Call,
) -> Result<bool, Memory>
    ensures { IfOk result (λ asked. Decides asked (IsAskedFor schema.now.relations text.now call.now)) }
{
    match call {
        Call::Begin => asks_to_begin(alloc, schema, text),
        Call::State(_, stated) => Ok(stated.same(text)),
        Call::Refragment(asked) => Ok(asked.same(text)),
        Call::Commit(_) => asks_to_commit(alloc, schema, text),
        Call::Rollback(_) => asks_to_roll_back(alloc, schema, text),
        Call::GiveUp(_) => Ok(false),
    }
}

fn asks_to_begin(alloc: Global, schema: &Schema, text: &Text) -> Result<bool, Memory>
    ensures { IfOk result (λ asked. Decides asked (IsTextOf schema.now.relations text.now commands.Begin)) }
{
    match command_of(alloc, schema, text)? {
        Some(command) => Ok(is_begin(&command)),
        None => Ok(false),
    }
}

fn asks_to_commit(alloc: Global, schema: &Schema, text: &Text) -> Result<bool, Memory>
    ensures { IfOk result (λ asked. Decides asked (IsTextOf schema.now.relations text.now commands.Commit)) }
{
    match command_of(alloc, schema, text)? {
        Some(command) => Ok(is_commit(&command)),
        None => Ok(false),
    }
}

fn asks_to_roll_back(alloc: Global, schema: &Schema, text: &Text) -> Result<bool, Memory>
    ensures { IfOk result (λ asked. Decides asked (IsTextOf schema.now.relations text.now commands.Rollback)) }
{
    match command_of(alloc, schema, text)? {
        Some(command) => Ok(is_rollback(&command)),
        None => Ok(false),
    }
}

fn is_begin(command: &Command) -> bool
    ensures { Decides result (command.now ≡ commands.Begin) }
{
    matches!(command, Command::Begin)
}

fn is_commit(command: &Command) -> bool
    ensures { Decides result (command.now ≡ commands.Commit) }
{
    matches!(command, Command::Commit)
}

fn is_rollback(command: &Command) -> bool
    ensures { Decides result (command.now ≡ commands.Rollback) }
{
    matches!(command, Command::Rollback)
}

/// The command of a text, if it has one.
fn command_of(alloc: Global, schema: &Schema, text: &Text) -> Result<Option<Command>, Memory>
    ensures { IfOk result (λ command. IsCommandIn schema.now.relations text.now command) }
{
    match read(alloc, text.as_str(), schema) {
        Ok(command) => Ok(Some(command)),
        Err(fault) => {
            if is_memory(fault) {
                Err(Memory)
            } else {
                Ok(None)
            }
        }
    }
}

/// Whether memory ran out.
fn is_memory(fault: ReadFault) -> bool
    ensures { Decides result (fault.rule ≡ Rule.Memory) }
{
    fault.rule() == Rule::Memory
}
