//! What the columns of a file have, where no relation is known.

ghost use Rattle.std.specs.Prelude.{◌≡◌, ℕ, List, [], map, IfOk, None, true};
ghost use Rattle.csv.specs.Records.{fields_of};
ghost use Rattle.exchange.specs.Incoming.{IsFirst};
ghost use Rattle.exchange.specs.Order.{twice_after};
ghost use Rattle.exchange.specs.Suggestion.{key_first};

use crate::field::{FieldFault, value};
use crate::incoming::read;
use crate::order::twice;
use crate::record::fields;
use crate::suggest_fault::SuggestFault;
use csv::{ByteRecord, Reader, ReaderBuilder};
use meaning::schema::Column;
use reader::word::is_name;
use std::alloc::Global;
use std::io::Read;
use terms::copy::TryCopy;
use terms::memory::Memory;
use terms::text::Text;
use terms::value::{Kind, Value};

/// The columns of a file, the key first, and the values by which its rows are to be split.
#[derive(Drop)]
pub(crate) struct Survey {
    pub columns: Vec<Column>,
    /// The values of the column by which rows are split, in ascending order.
    pub values: Vec<Value>,
}

/// What the rows have that were read so far.
#[derive(Drop)]
struct Tally {
    alloc: Global,
    /// The places of the key and of the column by which rows are split.
    key: usize,
    split: usize,
    /// The types of the columns, in the file's order.
    kinds: Vec<Kind>,
    keys: Vec<i64>,
    texts: Vec<Text>,
}

/// The survey of a file: its key's column must have an integer in each row, and no two the same.
pub(crate) fn survey_of<R: Read + Drop>(
    alloc: Global,
    key: &str,
    split: &str,
    input: R,
) -> Result<Survey, SuggestFault>
    ensures { IfOk result (λ survey. (names : List (List ℕ)) × IsFirst (R.remaining input) true names × (twice_after [] names ≡ None) × (map (λ column. column.name) survey.columns.items ≡ key_first key.now names)) }
{
    let mut reader = ReaderBuilder::new()
        .has_headers(false)
        .from_reader(alloc, input);
    let mut current = ByteRecord::new(alloc);
    if !read(&mut reader, &mut current)? {
        return Err(SuggestFault::Empty);
    }
    let names = names(alloc, &current)?;
    let mut tally = Tally::new(alloc, names.as_slice(), key, split)?;
    tally.take_rows(&mut reader, &mut current)?;
    let columns = columns(alloc, key, names.as_slice(), tally.kinds.as_slice())?;
    let values = tally.into_values()?;
    Ok(Survey { columns, values })
}

/// The names in a file's first line, each once.
fn names(alloc: Global, current: &ByteRecord) -> Result<Vec<Text>, SuggestFault>
    ensures names { IfOk result (λ names. names.items ≡ fields_of current.now) }
    ensures apart { IfOk result (λ names. twice_after [] names.items ≡ None) }
{
    let fields = fields(alloc, current)?;
    if let Some(place) = twice(fields.as_slice()) {
        return Err(SuggestFault::Twice(place));
    }
    texts(alloc, fields.as_slice())
}

/// Names as texts.
fn texts(alloc: Global, fields: &[&[u8]]) -> Result<Vec<Text>, SuggestFault>
    ensures { IfOk result (λ names. names.items ≡ map (λ field. field.now) fields.now) }
{
    let mut names = Vec::with_capacity(alloc, fields.len())?;
    for (place, field) in fields.iter().enumerate() {
        names.push(name(alloc, field, place)?)?;
    }
    Ok(names)
}

fn name(alloc: Global, field: &[u8], place: usize) -> Result<Text, SuggestFault>
    ensures { IfOk result (λ name. name ≡ field.now) }
{
    if !is_name(field) {
        return Err(SuggestFault::Name(place));
    }
    match str::from_utf8(field) {
        Ok(text) => Ok(Text::copy_of(alloc, text)?),
        Err(_) => Err(SuggestFault::Name(place)),
    }
}

/// The columns of these names and types, the key first.
fn columns(
    alloc: Global,
    key: &str,
    names: &[Text],
    kinds: &[Kind],
) -> Result<Vec<Column>, SuggestFault>
    ensures { IfOk result (λ columns. map (λ column. column.name) columns.items ≡ key_first key.now names.now) }
{
    let mut columns = Vec::new(alloc);
    columns.push(Column {
        name: Text::copy_of(alloc, key)?,
        kind: Kind::Int,
    })?;
    for (place, name) in names.iter().enumerate() {
        if name.as_str() != key {
            columns.push(Column {
                name: name.copy()?,
                kind: kind_at(kinds, place),
            })?;
        }
    }
    Ok(columns)
}

fn kind_at(kinds: &[Kind], place: usize) -> Kind {
    kinds.get(place).copied().unwrap_or(Kind::Text)
}

impl Tally {
    fn new(alloc: Global, names: &[Text], key: &str, split: &str) -> Result<Tally, SuggestFault> {
        let Some(key) = names.iter().position(|name| name.as_str() == key) else {
            return Err(SuggestFault::NoKey);
        };
        let Some(split) = names.iter().position(|name| name.as_str() == split) else {
            return Err(SuggestFault::NoSplit);
        };
        let mut kinds = Vec::with_capacity(alloc, names.len())?;
        for _ in names {
            kinds.push(Kind::Int)?;
        }
        Ok(Tally {
            alloc,
            key,
            split,
            kinds,
            keys: Vec::new(alloc),
            texts: Vec::new(alloc),
        })
    }

    /// Takes all rows that are left.
    fn take_rows<R: Read>(
        &mut self,
        reader: &mut Reader<R>,
        current: &mut ByteRecord,
    ) -> Result<(), SuggestFault> {
        for _ in 0..u64::MAX {
            if !read(reader, current)? {
                break;
            }
            let line = current.position().map_or(0, |position| position.line());
            let fields = fields(self.alloc, current)?;
            for (place, field) in fields.iter().enumerate() {
                self.take(line, place, field)?;
            }
        }
        Ok(())
    }

    /// Takes a field of a row.
    fn take(&mut self, line: u64, place: usize, field: &[u8]) -> Result<(), SuggestFault> {
        let number = match value(self.alloc, Kind::Int, field) {
            Ok(Value::Int(number)) => Some(number),
            _ => None,
        };
        if place == self.key {
            let Some(number) = number else {
                return Err(SuggestFault::Key(line));
            };
            self.keys.push(number)?;
        }
        if number.is_none() {
            if let Some(kind) = self.kinds.get_mut(place) {
                *kind = Kind::Text;
            }
        }
        match value(self.alloc, Kind::Text, field) {
            Ok(Value::Text(text)) => {
                if place == self.split {
                    self.texts.push(text)?;
                }
                Ok(())
            }
            Ok(Value::Int(_)) => Ok(()),
            Err(FieldFault::Memory) => Err(SuggestFault::Memory),
            Err(fault) => Err(SuggestFault::Field { line, place, fault }),
        }
    }

    /// The values of the column by which rows are split, in ascending order, where no key stands twice.
    fn into_values(self) -> Result<Vec<Value>, SuggestFault> {
        let mut keys = self.keys;
        keys.sort_unstable();
        if let Some(key) = first_twice(keys.as_slice()) {
            return Err(SuggestFault::KeyTwice(key));
        }
        let kind = kind_at(self.kinds.as_slice(), self.split);
        let mut values = Vec::with_capacity(self.alloc, self.texts.len())?;
        for text in &self.texts {
            match value(self.alloc, kind, text.as_str().as_bytes()) {
                Ok(value) => values.push(value)?,
                Err(_) => return Err(SuggestFault::Memory),
            }
        }
        values.sort_unstable();
        Ok(values)
    }
}

/// The first of ascending numbers that the next one is too.
fn first_twice(numbers: &[i64]) -> Option<i64> {
    let mut before = None;
    for &number in numbers {
        if before == Some(number) {
            return before;
        }
        before = Some(number);
    }
    None
}
