//! Commands.

ghost use Rattle.std.specs.Prelude.{◌≡◌, IfOk};

use meaning::statement::Statement;
use terms::copy::TryCopy;
use terms::memory::Memory;

/// What a text asks for.
#[derive(Debug, Drop)]
pub enum Command {
    /// To run a statement.
    Run(Statement),
    /// To begin a transaction.
    Begin,
    /// To commit it.
    Commit,
    /// To roll it back.
    Rollback,
}

impl TryCopy for Command {
    fn copy(&self) -> Result<Command, Memory> {
        match self {
            Command::Run(statement) => Ok(Command::Run(statement.copy()?)),
            Command::Begin => Ok(Command::Begin),
            Command::Commit => Ok(Command::Commit),
            Command::Rollback => Ok(Command::Rollback),
        }
    }
}
