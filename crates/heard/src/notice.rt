//! What a client hears, as lines.

use desk::reply::{Notice, Reply, Why};
use reader::print_answer::print_answer;
use std::alloc::Global;
use std::fmt::Write;
use terms::memory::Memory;

/// How a transaction ended that its client did not end.
fn name(why: Why) -> &'static str {
    match why {
        Why::Vote => "aborted 1 Vote",
        Why::Refused => "aborted 2 Refused",
        Why::GivenUp => "aborted 3 GivenUp",
        Why::Restart => "aborted 4 Restart",
        Why::Store => "aborted 5 Store",
    }
}

/// Tells what a client hears, each line after its transaction's name. No clause says what is told, since tests compare it with what
/// is wanted.
pub fn put_notice(alloc: Global, told: &mut String, notice: &Notice) -> Result<(), Memory> {
    let number = notice.txn.number;
    match &notice.reply {
        Reply::Begun => writeln!(told, "T{number}: begun")?,
        Reply::Committed => writeln!(told, "T{number}: committed")?,
        Reply::RolledBack => writeln!(told, "T{number}: rolled back")?,
        Reply::Aborted(why) => writeln!(told, "T{number}: {}", name(*why))?,
        Reply::Answer(answer) => {
            for line in print_answer(alloc, answer)?.as_str().lines() {
                writeln!(told, "T{number}: {line}")?;
            }
        }
    }
    Ok(())
}
