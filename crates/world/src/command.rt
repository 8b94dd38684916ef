//! The command of a text, and what is open or has stopped after it.

ghost use Rattle.std.specs.Prelude.{◌≡◌, ◌≢◌, ◌⊎◌, false, IfErr, IfOk, IfSome, Some};
ghost use Rattle.catalog.specs.FragmentLeaf.{schemas_of};
ghost use Rattle.catalog.specs.Relation.{catalogue_of};
ghost use Rattle.meaning.specs.Statement.{is_refragment};
ghost use Rattle.reader.specs.Command.{IsCommandOf, IsTextOf};
ghost use Rattle.desk.specs.declared.refusal.Refusal.TheVariants as refusals;
ghost use Rattle.world.specs.Client.{still_open};
ghost use Rattle.world.specs.Commands.{IsUnreadable};
ghost use Rattle.world.specs.Stopping.{stopped_by};

use crate::autocommit::{is_stop, tells_end};
use catalog::catalogue::Catalog;
use desk::refusal::Refusal;
use desk::reply::Notice;
use meaning::statement::Statement;
use reader::command::Command;
use reader::fault::{ReadFault, Rule};
use reader::read::read;
use std::alloc::Global;
use store::name::Txn;

/// What the reader says of a text.
fn reader_refusal(fault: ReadFault) -> Refusal
    ensures { ((fault.rule ≡ Rule.Memory) × (result ≡ refusals.Memory)) ⊎ ((fault.rule ≢ Rule.Memory) × (result ≡ refusals.Read fault)) }
{
    if fault.rule() == Rule::Memory {
        Refusal::Memory
    } else {
        Refusal::Read(fault)
    }
}

/// The command of a text, under the catalogue's schema.
pub fn command_of(alloc: Global, catalog: &Catalog, text: &str) -> Result<Command, Refusal>
    ensures read { IfOk result (λ command. IsTextOf (schemas_of (catalogue_of catalog.now)) text.now command) }
    ensures fits { IfOk result (IsCommandOf (schemas_of (catalogue_of catalog.now))) }
    ensures reader_refusal { IfErr result (IsUnreadable (schemas_of (catalogue_of catalog.now)) text.now) }
{
    match read(alloc, text, catalog.schema()) {
        Ok(command) => Ok(command),
        Err(fault) => Err(reader_refusal(fault)),
    }
}

/// A statement, unless it is a REFRAGMENT.
pub(crate) fn ordinary(statement: Statement) -> Option<Statement>
    ensures { IfSome result (λ same. (same ≡ statement) × (is_refragment statement ≡ false)) }
{
    if statement.is_refragment() {
        None
    } else {
        Some(statement)
    }
}

/// What has stopped a client's database after a command.
pub(crate) fn stopped_by<T>(done: &Result<T, Refusal>) -> Option<Refusal>
    ensures { result ≡ stopped_by done.now }
{
    match done {
        Ok(_) => None,
        Err(refusal) => {
            if is_stop(refusal) {
                Some(*refusal)
            } else {
                None
            }
        }
    }
}

/// The transaction that is open after these notices, if this one was.
pub(crate) fn still_open(txn: Txn, heard: &[Notice]) -> Option<Txn>
    ensures { result ≡ still_open (Some txn) heard.now }
{
    if tells_end(heard) { None } else { Some(txn) }
}
