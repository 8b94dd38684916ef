//! The grammar of the command line, in clap's words.

ghost use Rattle.std.specs.Prelude.{◌≡◌, IfOk, codes};
ghost use Rattle.clap.specs.Words.{App, Rule, app_of, new_app, new_rule, with_rule, with_subcommand};
ghost use Rattle.lines.specs.Grammar.{IsCommand, IsRule, argument, chained, command_with, command_with_two, counted, explained, flag, held, in_folder, in_sqlite, of_any_script, of_file, of_relation, of_script, option_argument, retried, shown, stored, suggesting, treed, usage, wanted_argument};

use crate::help::{
    AFTER_HELP, AFTER_IMPORT, AFTER_PLAY, AFTER_RUN, AFTER_SOLO, CATALOG_HELP, DIR_HELP,
    EVERY_HELP, KEY_HELP, NAME_HELP, NEXT_HELP, RETRY_HELP, ROWS_HELP, SITES_HELP, SQLITE_HELP,
};
use clap::{Arg, ArgAction, Command};
use std::alloc::{AllocError, Global};

/// The program's command line, with a command for each thing that it does.
pub fn command<'a>(alloc: Global) -> Result<Command<'a>, AllocError>
    ensures { IfOk result (λ command. app_of command ≡ usage) }
{
    let program = Command::new(alloc, "fragdb")
        .version("0.1.0")
        .about("A relational database in fragments")
        .after_help(AFTER_HELP)
        .subcommand_required(true);
    let program = with_command(program, solo_command(alloc))?;
    let program = with_command(program, check_command(alloc))?;
    let program = with_command(program, plan_command(alloc))?;
    let program = with_command(program, play_command(alloc))?;
    let program = with_command(program, run_command(alloc))?;
    let program = with_command(program, dump_command(alloc))?;
    let program = with_command(program, import_command(alloc))?;
    with_command(program, suggest_command(alloc))
}

/// The program with one more command, if that could be made.
fn with_command<'a>(
    program: Command<'a>,
    command: Result<Command<'a>, AllocError>,
) -> Result<Command<'a>, AllocError>
    ensures { (app : App) → IfOk command.entry (IsCommand app) → IfOk result (λ extended. app_of extended ≡ with_subcommand (app_of program.entry) app.top) }
{
    program.subcommand(command?)
}

fn solo_command<'a>(alloc: Global) -> Result<Command<'a>, AllocError>
    ensures { IfOk result (IsCommand (chained (stored (shown (held (explained (of_any_script (codes "solo")))))))) }
{
    let solo = new_command(alloc, "solo", "Runs a script of statements, one at a time");
    let solo = with_option(alloc, solo, "CATALOG", "catalog", CATALOG_HELP)?;
    let script = "A file with one item a line, or - for standard input";
    let solo = with_optional(alloc, solo, "SCRIPT", script)?;
    let explain = "Tells on standard error why a line is refused";
    let solo = with_flag(alloc, solo, "EXPLAIN", "explain", explain)?;
    let interactive = "Asks for each line and answers it at once";
    let solo = with_flag(alloc, solo, "INTERACTIVE", "interactive", interactive)?;
    let solo = with_modes(alloc, with_notes(solo, AFTER_SOLO))?;
    let solo = with_stores(alloc, solo)?;
    with_next(alloc, solo)
}

fn check_command<'a>(alloc: Global) -> Result<Command<'a>, AllocError>
    ensures { IfOk result (IsCommand (treed (explained (command_with (codes "check") (codes "CATALOG"))))) }
{
    let about = "Checks a catalogue and lists its fragments";
    let check = with_catalog(alloc, new_command(alloc, "check", about))?;
    let explain = "Explains a refusal on standard error; so at a terminal";
    let check = with_flag(alloc, check, "EXPLAIN", "explain", explain)?;
    let tree = "Shows the fragments of each relation as a tree";
    with_flag(alloc, check, "TREE", "tree", tree)
}

fn plan_command<'a>(alloc: Global) -> Result<Command<'a>, AllocError>
    ensures { IfOk result (IsCommand (treed (command_with_two (codes "plan") (codes "CATALOG") (codes "STATEMENT")))) }
{
    let about = "Shows which fragments a statement reads, and with which conditions";
    let plan = with_catalog(alloc, new_command(alloc, "plan", about))?;
    let statement = "A statement over the catalogue's relations";
    let plan = with_required(alloc, plan, "STATEMENT", statement)?;
    with_flag(alloc, plan, "TREE", "tree", "Shows the plan as a tree")
}

fn play_command<'a>(alloc: Global) -> Result<Command<'a>, AllocError>
    ensures { IfOk result (IsCommand (chained (in_sqlite (of_script (codes "play"))))) }
{
    let play = new_command(alloc, "play", "Plays a script of schedules, event by event");
    let play = with_script(alloc, with_notes(play, AFTER_PLAY))?;
    let play = with_sqlite(alloc, play)?;
    with_next(alloc, play)
}

fn run_command<'a>(alloc: Global) -> Result<Command<'a>, AllocError>
    ensures { IfOk result (IsCommand (chained (retried (stored (of_script (codes "run")))))) }
{
    let about = "Runs the sessions of a script, each in a thread of its own";
    let run = new_command(alloc, "run", about);
    let run = with_script(alloc, with_notes(run, AFTER_RUN))?;
    let run = with_stores(alloc, run)?;
    let run = with_option(alloc, run, "N", "retry", RETRY_HELP)?;
    with_next(alloc, run)
}

fn dump_command<'a>(alloc: Global) -> Result<Command<'a>, AllocError>
    ensures { IfOk result (IsCommand (shown (in_folder (of_relation (codes "dump"))))) }
{
    let about = "Writes a folder's relations as statements that make them anew";
    let dump = new_command(alloc, "dump", about);
    let dump = with_option(alloc, dump, "CATALOG", "catalog", CATALOG_HELP)?;
    let relation = "A relation; all where none is named";
    let dump = with_optional(alloc, dump, "RELATION", relation)?;
    let dump = with_folder(alloc, dump)?;
    with_modes(alloc, dump)
}

fn import_command<'a>(alloc: Global) -> Result<Command<'a>, AllocError>
    ensures { IfOk result (IsCommand (counted (in_folder (of_file (codes "import"))))) }
{
    let about = "Inserts the rows of a file of comma-separated values into a relation";
    let import = with_notes(new_command(alloc, "import", about), AFTER_IMPORT);
    let import = with_option(alloc, import, "CATALOG", "catalog", CATALOG_HELP)?;
    let import = with_required(alloc, import, "RELATION", "A relation of the catalogue")?;
    let file = "A file, column names in its first line; - for standard input";
    let import = with_required(alloc, import, "FILE", file)?;
    let import = with_folder(alloc, import)?;
    with_option(alloc, import, "ROWS", "every", EVERY_HELP)
}

fn suggest_command<'a>(alloc: Global) -> Result<Command<'a>, AllocError>
    ensures { IfOk result (IsCommand suggesting) }
{
    let about = "Suggests a catalogue for a file of comma-separated values";
    let suggest = new_command(alloc, "suggest", about);
    let file = "A file whose first line names the columns, or - for standard input";
    let suggest = with_required(alloc, suggest, "FILE", file)?;
    let suggest = with_wanted(alloc, suggest, "KEY", "key", KEY_HELP)?;
    let suggest = with_wanted(alloc, suggest, "COLUMN", "rows", ROWS_HELP)?;
    let suggest = with_option(alloc, suggest, "SITES", "sites", SITES_HELP)?;
    with_option(alloc, suggest, "NAME", "name", NAME_HELP)
}

/// A command with no argument yet.
fn new_command<'a>(alloc: Global, name: &'a str, about: &'a str) -> Command<'a>
    ensures { IsCommand (new_app name.entry.now) result }
{
    Command::new(alloc, name).about(about)
}

/// The command with this text after its help.
fn with_notes<'a>(command: Command<'a>, notes: &'a str) -> Command<'a>
    ensures { (app : App) → IsCommand app command.entry → IsCommand app result }
{
    command.after_help(notes)
}

/// The command with one more argument.
fn with<'a>(command: Command<'a>, argument: Arg<'a>) -> Result<Command<'a>, AllocError>
    ensures { (app : App) (rule : Rule) → IsCommand app command.entry → IsRule rule argument.entry → IfOk result (IsCommand (with_rule app rule)) }
{
    command.arg(argument)
}

/// The command with an argument that must be given.
fn with_required<'a>(
    alloc: Global,
    command: Command<'a>,
    name: &'a str,
    help: &'a str,
) -> Result<Command<'a>, AllocError>
    ensures { (app : App) → IsCommand app command.entry → IfOk result (IsCommand (with_rule app (argument name.entry.now))) }
{
    with(command, Arg::new(alloc, name).required(true).help(help))
}

/// The command with an argument that may be left out.
fn with_optional<'a>(
    alloc: Global,
    command: Command<'a>,
    name: &'a str,
    help: &'a str,
) -> Result<Command<'a>, AllocError>
    ensures { (app : App) → IsCommand app command.entry → IfOk result (IsCommand (with_rule app (new_rule name.entry.now))) }
{
    with(command, Arg::new(alloc, name).help(help))
}

/// The command with an argument that may be given behind this word.
fn with_option<'a>(
    alloc: Global,
    command: Command<'a>,
    name: &'a str,
    long: &'a str,
    help: &'a str,
) -> Result<Command<'a>, AllocError>
    ensures { (app : App) → IsCommand app command.entry → IfOk result (IsCommand (with_rule app (option_argument name.entry.now long.entry.now))) }
{
    with(command, Arg::new(alloc, name).long(long).help(help))
}

/// The command with an argument that must be given behind this word.
fn with_wanted<'a>(
    alloc: Global,
    command: Command<'a>,
    name: &'a str,
    long: &'a str,
    help: &'a str,
) -> Result<Command<'a>, AllocError>
    ensures { (app : App) → IsCommand app command.entry → IfOk result (IsCommand (with_rule app (wanted_argument name.entry.now long.entry.now))) }
{
    let argument = Arg::new(alloc, name).long(long).required(true).help(help);
    with(command, argument)
}

/// The command with a flag, which is known by a word.
fn with_flag<'a>(
    alloc: Global,
    command: Command<'a>,
    name: &'a str,
    long: &'a str,
    help: &'a str,
) -> Result<Command<'a>, AllocError>
    ensures { (app : App) → IsCommand app command.entry → IfOk result (IsCommand (with_rule app (flag name.entry.now long.entry.now))) }
{
    let argument = Arg::new(alloc, name)
        .long(long)
        .action(ArgAction::SetTrue)
        .help(help);
    with(command, argument)
}

/// The command with a catalogue, which must be given.
fn with_catalog<'a>(alloc: Global, command: Command<'a>) -> Result<Command<'a>, AllocError>
    ensures { (app : App) → IsCommand app command.entry → IfOk result (IsCommand (with_rule app (argument (codes "CATALOG")))) }
{
    with_required(
        alloc,
        command,
        "CATALOG",
        "A file with a catalogue, in TOML",
    )
}

/// The command with a catalogue that may be given, and a script.
fn with_script<'a>(alloc: Global, command: Command<'a>) -> Result<Command<'a>, AllocError>
    ensures { (app : App) → IsCommand app command.entry → IfOk result (IsCommand (with_rule (with_rule app (option_argument (codes "CATALOG") (codes "catalog"))) (argument (codes "SCRIPT")))) }
{
    let command = with_option(alloc, command, "CATALOG", "catalog", CATALOG_HELP)?;
    let help = "A file with one item a line, or - for standard input";
    with_required(alloc, command, "SCRIPT", help)
}

/// The command with the catalogues that come after the first.
fn with_next<'a>(alloc: Global, command: Command<'a>) -> Result<Command<'a>, AllocError>
    ensures { (app : App) → IsCommand app command.entry → IfOk result (IsCommand (chained app)) }
{
    let next = Arg::new(alloc, "NEXT")
        .long("next")
        .action(ArgAction::Append)
        .help(NEXT_HELP);
    with(command, next)
}

/// The command with what says where stores are.
fn with_stores<'a>(alloc: Global, command: Command<'a>) -> Result<Command<'a>, AllocError>
    ensures { (app : App) → IsCommand app command.entry → IfOk result (IsCommand (stored app)) }
{
    let command = with_sqlite(alloc, command)?;
    with_folder(alloc, command)
}

/// The command with the folder of stores.
fn with_folder<'a>(alloc: Global, command: Command<'a>) -> Result<Command<'a>, AllocError>
    ensures { (app : App) → IsCommand app command.entry → IfOk result (IsCommand (in_folder app)) }
{
    with_option(alloc, command, "DIR", "dir", DIR_HELP)
}

/// The command with a flag that asks for stores in SQLite.
fn with_sqlite<'a>(alloc: Global, command: Command<'a>) -> Result<Command<'a>, AllocError>
    ensures { (app : App) → IsCommand app command.entry → IfOk result (IsCommand (in_sqlite app)) }
{
    with_flag(alloc, command, "SQLITE", "sqlite", SQLITE_HELP)
}

/// The command with the flags that say how answers are shown.
fn with_modes<'a>(alloc: Global, command: Command<'a>) -> Result<Command<'a>, AllocError>
    ensures { (app : App) → IsCommand app command.entry → IfOk result (IsCommand (shown app)) }
{
    let columns = "Shows rows in aligned columns";
    let command = with_flag(alloc, command, "COLUMNS", "columns", columns)?;
    let csv = "Shows rows as comma-separated values";
    let command = with_flag(alloc, command, "CSV", "csv", csv)?;
    let json = "Shows each row as a JSON object in a line";
    with_flag(alloc, command, "JSON", "json", json)
}
