//! The client of a script: what each item is answered by.

ghost use Rattle.std.specs.Prelude.{◌≡◌, ◌++◌, false, IfErr, IfOk, OnOk, string_bytes};
ghost use Rattle.world.specs.Stopping.{is_stop};
ghost use Rattle.forms.specs.Mode.{line_in};
ghost use Rattle.databases.specs.Client as client;
ghost use Rattle.databases.specs.Client.{IsOfClient, seen_over};
ghost use Rattle.databases.specs.Serves.{CountsParts, Serves, ShowsParts};
ghost use Rattle.databases.specs.PlayText as spec;
ghost use Rattle.lines.specs.Reply.{Answered, Refused, told_by};
ghost use Rattle.lines.specs.Script.{CountsLeaf, DumpsRelation, Runs, ShowsLeaf, ShowsRelation, task_of};

use crate::play_text::{refused_text, reply_text};
use crate::shown::{
    leaf_written, no_leaf, parts_counted, parts_text, relation_dumped, relation_text,
};
use desk::refusal::Refusal;
use desk::reply::{Notice, Reply as Heard};
use forms::mode::{Mode, put_answer, put_line, show_line};
use lines::fault::ProgramFault;
use lines::reply::Reply;
use lines::script::Item;
use site::fault::SiteFault;
use std::alloc::Global;
use store::desk_store::DeskStore;
use store::site_store::SiteStore;
use terms::leaf::Leaf;
use terms::memory::Memory;
use terms::text::Text;
use world::fault::Fault;
use world::solo::Solo;

/// What an item is answered by.
pub fn answer<'a, D: DeskStore, S: SiteStore>(
    alloc: Global,
    mode: Mode,
    database: &mut Solo<D, S>,
    item: Item<'_>,
) -> Result<Reply, ProgramFault<'a>>
    ensures { Serves (seen_over D.is_clean S.is_clean D.is_sound S.is_sound D.kept S.kept D.refused S.refused) mode (task_of item.entry) told_by database.old database.new result }
{
    match item {
        Item::Statement(text) => command(alloc, mode, database, text),
        Item::Show(name) => Ok(Reply::Answer(relation_shown(alloc, mode, database, name)?)),
        Item::Leaf(name) => Ok(Reply::Answer(leaf_shown(alloc, mode, database, name)?)),
        Item::Dump(name) => Ok(Reply::Answer(relation_written(alloc, mode, database, name)?)),
        Item::Count(name) => Ok(Reply::Answer(leaf_counted(alloc, mode, database, name)?)),
    }
}

/// What the command of this text is answered by.
fn command<'a, D: DeskStore, S: SiteStore>(
    alloc: Global,
    mode: Mode,
    database: &mut Solo<D, S>,
    text: &str,
) -> Result<Reply, ProgramFault<'a>>
    ensures { Serves (seen_over D.is_clean S.is_clean D.is_sound S.is_sound D.kept S.kept D.refused S.refused) mode (Runs text.now) told_by database.old database.new result }
{
    match database.execute(text) {
        Ok(heard) => Ok(Reply::Answer(heard_text(alloc, mode, heard.as_slice())?)),
        Err(refusal) => refused(alloc, mode, refusal),
    }
}

/// What a client hears, notice by notice.
fn heard_text(alloc: Global, mode: Mode, heard: &[Notice]) -> Result<String, Memory>
    ensures { IfOk result (λ text. string_bytes text ≡ client.heard_text mode heard.now) }
{
    let mut text = String::new(alloc);
    for notice in heard {
        put_notice(&mut text, mode, notice)?;
    }
    Ok(text)
}

fn put_notice(out: &mut String, mode: Mode, notice: &Notice) -> Result<(), Memory>
    ensures { OnOk result (string_bytes out.new ≡ string_bytes out.old ++ client.reply_in mode notice.now.reply) }
{
    match &notice.reply {
        Heard::Answer(answer) => put_answer(out, mode, answer),
        other => {
            let text = reply_text(*out.allocator(), other)?;
            put_line(out, mode, text.as_str())
        }
    }
}

/// What is told of a refusal, unless it stops the database.
fn refused<'a>(alloc: Global, mode: Mode, refusal: Refusal) -> Result<Reply, ProgramFault<'a>>
    ensures goes_on { OnOk result (is_stop refusal ≡ false) }
    ensures told { IfOk result (λ reply. told_by reply ≡ Refused (line_in mode (spec.refused_text refusal))) }
    ensures err { IfErr result IsOfClient }
{
    match refusal {
        Refusal::Memory => Err(ProgramFault::Memory),
        Refusal::Store(fault) => Err(ProgramFault::Store { fault }),
        other => {
            let text = refused_text(alloc, other)?;
            Ok(Reply::Refusal(show_line(alloc, mode, text.as_str())?))
        }
    }
}

/// A relation as the fragments rebuild it.
fn relation_shown<'a, D: DeskStore, S: SiteStore>(
    alloc: Global,
    mode: Mode,
    database: &mut Solo<D, S>,
    name: &str,
) -> Result<String, ProgramFault<'a>>
    ensures { Serves (seen_over D.is_clean S.is_clean D.is_sound S.is_sound D.kept S.kept D.refused S.refused) mode (ShowsRelation name.now) (λ text. Answered (string_bytes text)) database.old database.new result }
{
    let name = Text::copy_of(alloc, name)?;
    match database.rebuilt(&name) {
        Ok(found) => Ok(relation_text(alloc, mode, database.catalog(), &name, found)?),
        Err(fault) => Err(stopped(fault)),
    }
}

/// A relation as the fragments rebuild it, as statements that make its rows anew.
fn relation_written<'a, D: DeskStore, S: SiteStore>(
    alloc: Global,
    mode: Mode,
    database: &mut Solo<D, S>,
    name: &str,
) -> Result<String, ProgramFault<'a>>
    ensures { Serves (seen_over D.is_clean S.is_clean D.is_sound S.is_sound D.kept S.kept D.refused S.refused) mode (DumpsRelation name.now) (λ text. Answered (string_bytes text)) database.old database.new result }
{
    let name = Text::copy_of(alloc, name)?;
    match database.rebuilt(&name) {
        Ok(found) => Ok(relation_dumped(alloc, mode, database.catalog(), &name, found)?),
        Err(fault) => Err(stopped(fault)),
    }
}

/// The parts that the leaf of this name keeps.
fn leaf_shown<'a, D: DeskStore, S: SiteStore>(
    alloc: Global,
    mode: Mode,
    database: &mut Solo<D, S>,
    name: &str,
) -> Result<String, ProgramFault<'a>>
    ensures { Serves (seen_over D.is_clean S.is_clean D.is_sound S.is_sound D.kept S.kept D.refused S.refused) mode (ShowsLeaf name.now) (λ text. Answered (string_bytes text)) database.old database.new result }
{
    match leaf_written(alloc, database.catalog().leaves(), name)? {
        Some(leaf) => parts_shown(alloc, mode, database, &leaf, name),
        None => Ok(no_leaf(alloc, mode, name)?),
    }
}

fn parts_shown<'a, D: DeskStore, S: SiteStore>(
    alloc: Global,
    mode: Mode,
    database: &mut Solo<D, S>,
    leaf: &Leaf,
    name: &str,
) -> Result<String, ProgramFault<'a>>
    ensures { ShowsParts (seen_over D.is_clean S.is_clean D.is_sound S.is_sound D.kept S.kept D.refused S.refused) mode name.now leaf.now (λ text. string_bytes text) database.old database.new result }
{
    match database.parts(leaf) {
        Ok(found) => Ok(parts_text(alloc, mode, database.catalog(), leaf, name, found)?),
        Err(fault) => Err(stopped(fault)),
    }
}

/// The leaf of this name in a line, with how many rows it has.
fn leaf_counted<'a, D: DeskStore, S: SiteStore>(
    alloc: Global,
    mode: Mode,
    database: &mut Solo<D, S>,
    name: &str,
) -> Result<String, ProgramFault<'a>>
    ensures { Serves (seen_over D.is_clean S.is_clean D.is_sound S.is_sound D.kept S.kept D.refused S.refused) mode (CountsLeaf name.now) (λ text. Answered (string_bytes text)) database.old database.new result }
{
    match leaf_written(alloc, database.catalog().leaves(), name)? {
        Some(leaf) => parts_told(alloc, mode, database, &leaf, name),
        None => Ok(no_leaf(alloc, mode, name)?),
    }
}

fn parts_told<'a, D: DeskStore, S: SiteStore>(
    alloc: Global,
    mode: Mode,
    database: &mut Solo<D, S>,
    leaf: &Leaf,
    name: &str,
) -> Result<String, ProgramFault<'a>>
    ensures { CountsParts (seen_over D.is_clean S.is_clean D.is_sound S.is_sound D.kept S.kept D.refused S.refused) mode name.now leaf.now (λ text. string_bytes text) database.old database.new result }
{
    match database.parts(leaf) {
        Ok(found) => Ok(parts_counted(alloc, mode, database.catalog(), leaf, name, found)?),
        Err(fault) => Err(stopped(fault)),
    }
}

/// What stops the program where the machines can't show what they keep.
pub fn stopped<'a>(fault: Fault) -> ProgramFault<'a>
    ensures { IsOfClient result }
{
    match fault {
        Fault::Desk(Refusal::Store(fault)) | Fault::Site(SiteFault::Store(fault)) => {
            ProgramFault::Store { fault }
        }
        _ => ProgramFault::Memory,
    }
}
