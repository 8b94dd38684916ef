//! The command `suggest`, over the file that the command line names. What files hold no contract can say; over readers and writers
//! `suggest_file` says what is done.

use crate::suggest_file::{relation_of, suggest_file};
use databases::opened::open_input;
use lines::outcome::{Outcome, Status, exit};
use lines::transfer::Suggest;
use std::io::Write;

/// Suggests a catalogue for the file that is named, or for standard input, and tells what it came to. What files hold no contract
/// can say; over readers and writers `suggest_file` says what is done.
pub fn do_suggest<W: Write, E: Write>(
    rt: &HostRuntime,
    asked: Suggest<'_>,
    output: &mut W,
    errors: &mut E,
) -> Status {
    let input = open_input(rt, asked.is_of_input(), asked.file);
    let suggested = suggest_file(
        rt.alloc(),
        asked.file,
        input,
        asked.name.unwrap_or(relation_of(asked.file)),
        asked.key,
        asked.rows,
        asked.sites as usize,
        output,
        errors,
    );
    let outcome = match suggested {
        Ok(false) => Outcome::Done,
        Ok(true) => Outcome::SomeRefused,
        Err(fault) => Outcome::Stopped(fault),
    };
    exit(errors, &outcome)
}
