//! A script of schedules, line after line.

ghost use Rattle.std.specs.Prelude.{◌≡◌, ◌||◌, ◌++◌, ◌∷◌, ℕ, List, [], None, Some, Bool, false, bytes_eq, if◌then◌else◌, map, IfOk, OnOk};
ghost use Rattle.lines.specs.Script.{lines_of};
ghost use Rattle.lines.specs.PlayItems as spec;
ghost use Rattle.lines.specs.PlayItems.{has_name, is_load, items_of, may_follow, read_from, taken, IsKept};
ghost use Rattle.lines.specs.PlayScript.{reading_of};

use crate::play_script::{Ask, Item, Line, read_line};
use std::alloc::{AllocError, Global};
use std::collections::BTreeMap;
use terms::copy::TryCopy;
use terms::memory::Memory;
use terms::text::Text;

/// An item of a script, and the number of its line, counted from 1.
#[derive(Drop)]
pub struct Placed {
    pub line: usize,
    pub item: Item,
}

/// What was read of a script: its items, as far as the first malformed line, if there is one.
#[derive(Drop)]
pub struct Script {
    pub items: Vec<Placed>,
    pub malformed: Option<usize>,
}

/// Names that transactions were begun by, each with the number of the line that did so.
#[derive(Drop)]
pub struct Names {
    lines: BTreeMap<Text, usize>,
}

impl Names {
    fn new(alloc: Global) -> Names
        ensures { (name : List ℕ) → has_name result name ≡ false }
    {
        Names {
            lines: BTreeMap::new(alloc),
        }
    }

    fn has(&self, name: &Text) -> bool
        ensures { result ≡ has_name self.now name.now }
    {
        self.lines.get(name).is_some()
    }

    fn add(&mut self, name: Text, line: usize) -> Result<(), Memory>
        ensures { OnOk result ((other : List ℕ) → has_name self.new other ≡ (bytes_eq name other || has_name self.old other)) }
    {
        self.lines.insert(name, line)?;
        Ok(())
    }
}

/// What is kept while a script is read.
#[derive(Drop)]
pub struct Reading {
    items: Vec<Placed>,
    begun: Names,
    /// Whether there is no item yet but such as are loaded.
    loading: bool,
}

impl Reading {
    fn new(alloc: Global) -> Reading
        ensures items { result.items.items ≡ [] }
        ensures kept { IsKept result }
    {
        Reading {
            items: Vec::new(alloc),
            begun: Names::new(alloc),
            loading: true,
        }
    }

    /// Takes one more line, of this number. Answers whether it may stand there; else nothing has changed.
    fn take(&mut self, alloc: Global, number: usize, line: &[u8]) -> Result<bool, Memory>
        requires { IsKept self.old }
        ensures items { IfOk result (λ good. (if good then Some self.new.items.items else None) ≡ taken number self.old.items.items (reading_of line.now)) }
        ensures stays { IfOk result (λ good. good ≡ false → self.new.items.items ≡ self.old.items.items) }
        ensures kept { OnOk result (IsKept self.new) }
    {
        match read_line(alloc, line)? {
            Line::PassedOver => Ok(true),
            Line::Malformed => Ok(false),
            Line::Asks(item) => {
                if !self.may_follow(&item) {
                    return Ok(false);
                }
                self.put(number, item)?;
                Ok(true)
            }
        }
    }

    /// Whether an item may stand behind those so far.
    fn may_follow(&self, item: &Item) -> bool
        requires { IsKept self.now }
        ensures { result ≡ spec.may_follow self.now.items.items item.now }
    {
        match item {
            Item::Load(_) => self.loading,
            Item::Client(name, ask) if is_begin(ask) => !self.begun.has(name),
            Item::Client(name, _) => self.begun.has(name),
            _ => true,
        }
    }

    /// Puts an item behind those so far.
    fn put(&mut self, number: usize, item: Item) -> Result<(), Memory>
        requires { IsKept self.old }
        ensures items { OnOk result (self.new.items.items ≡ self.old.items.items ++ (record { line = number; item = item }) ∷ []) }
        ensures kept { OnOk result (IsKept self.new) }
    {
        if let Item::Client(name, ask) = &item
            && is_begin(ask)
        {
            self.begun.add(name.copy()?, number)?;
        }
        self.loading = self.loading && matches!(item, Item::Load(_));
        self.items.push(Placed { line: number, item })?;
        Ok(())
    }
}

/// Whether a client's line begins its transaction.
fn is_begin(ask: &Ask) -> bool
    ensures { result ≡ spec.is_begin ask.now }
{
    matches!(ask, Ask::Begin | Ask::Refragment(_))
}

/// What a script asks for.
pub fn read_items(alloc: Global, script: &[u8]) -> Result<Script, Memory>
    ensures { IfOk result (λ script_read. (script_read.items.items, script_read.malformed) ≡ items_of (lines_of script.now)) }
{
    let lines = lines(alloc, script)?;
    read_lines(alloc, lines.as_slice())
}

/// The lines of a script.
fn lines<'a>(alloc: Global, script: &'a [u8]) -> Result<Vec<&'a [u8]>, AllocError>
    ensures { IfOk result (λ lines. map (λ line. line.now) lines.items ≡ lines_of script.entry.now) }
{
    script.split(|byte| *byte == b'\n').collect(alloc)
}

fn read_lines(alloc: Global, lines: &[&[u8]]) -> Result<Script, Memory>
    ensures { IfOk result (λ script. (script.items.items, script.malformed) ≡ items_of (map (λ line. line.now) lines.now)) }
{
    let mut reading = Reading::new(alloc);
    for index in 0..lines.len() {
        if !reading.take(alloc, index + 1, lines[index])? {
            return Ok(Script {
                items: reading.items,
                malformed: Some(index + 1),
            });
        }
    }
    Ok(Script {
        items: reading.items,
        malformed: None,
    })
}
