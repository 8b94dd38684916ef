//! Leaves, values and parts from the words of a test's line.

use std::alloc::Global;
use terms::leaf::Leaf;
use terms::memory::Memory;
use terms::part::Part;
use terms::text::Text;
use terms::value::Value;

/// The integer that a word spells; of any other word 0. No clause says so, since a test compares what comes of it.
pub fn integer(word: &str) -> i64 {
    word.parse::<i64>().unwrap_or(0)
}

/// The leaf that a word such as `emp.2` names. No clause says so, since a test compares what comes of it.
pub fn leaf(alloc: Global, word: &str) -> Result<Leaf, Memory> {
    let (relation, place) = word.split_once('.').unwrap_or((word, ""));
    Ok(Leaf {
        relation: Text::copy_of(alloc, relation)?,
        number: place.parse::<usize>().unwrap_or(0),
    })
}

/// The value that a word such as `7` or `'Ada'` names. No clause says so, since a test compares what comes of it.
pub fn value(alloc: Global, word: &str) -> Result<Value, Memory> {
    let word = word.trim_end_matches(',');
    if word.starts_with('\'') {
        return Ok(Value::Text(Text::copy_of(alloc, word.trim_matches('\''))?));
    }
    Ok(Value::Int(integer(word)))
}

/// The part that a line such as `1, 'Ada'` names. No clause says so, since a test compares what comes of it.
pub fn part_of(alloc: Global, line: &str) -> Result<Part, Memory> {
    let mut values = Vec::new(alloc);
    for word in line.split(' ') {
        values.push(value(alloc, word)?)?;
    }
    Part::new(values)?.ok_or(Memory)
}
