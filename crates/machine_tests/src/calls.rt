//! Public calls that the program does not make, each with ample memory.

use catalog::catalogue::Catalog;
use meaning::relation::Relation;
use meaning::whole::Whole;
use reader::print_statement::print_part;
use samples::catalogues::EMP_AND_DEPT;
use std::alloc::Global;
use std::test::*;
use terms::copy::TryCopy;
use terms::leaf::Leaf;
use terms::memory::Memory;
use terms::part::Part;
use terms::row::Row;
use terms::text::Text;
use terms::value::Value;

/// The catalogue of a text that is accepted.
fn catalog(alloc: Global, text: &str) -> Result<Catalog, Memory> {
    Catalog::read(alloc, text).map_err(|_| Memory)
}

/// The row (1, 'Ada', 7, 100).
fn ada(alloc: Global) -> Result<Row, Memory> {
    let mut values = Vec::new(alloc);
    values.push(Value::Int(1))?;
    values.push(Value::Text(Text::copy_of(alloc, "Ada")?))?;
    values.push(Value::Int(7))?;
    values.push(Value::Int(100))?;
    Row::new(values)
}

/// That row's part in a leaf, as it prints, or `none`.
fn placed(alloc: Global, relation: &str, number: usize) -> Result<String, Memory> {
    let catalog = catalog(alloc, EMP_AND_DEPT)?.copy()?;
    let relation = Text::copy_of(alloc, relation)?;
    match catalog.place(&ada(alloc)?, &Leaf { relation, number })? {
        Some(part) => print_part(alloc, part.values()),
        None => Ok(String::from_str(alloc, "none")?),
    }
}

fn is_placed(alloc: Global, relation: &str, number: usize, wanted: &str) -> bool {
    match placed(alloc, relation, number) {
        Ok(part) => part.as_str() == wanted,
        Err(_) => placed(alloc, relation, number).is_ok_and(|part| part.as_str() == wanted),
    }
}

#[test]
fn places_a_row(rt: HostRuntime) {
    let cases = [
        ("emp", 1, "1, 'Ada'"),
        ("emp", 2, "1, 7, 100"),
        ("emp", 3, "none"),
        ("emp", 4, "none"),
        ("emp", 0, "none"),
        ("staff", 1, "none"),
    ];
    for (relation, number, wanted) in cases {
        assert!(rt;
            is_placed(rt.alloc(), relation, number, wanted),
            "in {relation}.{number}"
        );
    }
}

/// How many rows a copy of a database has under a name that the database has with one row.
fn rows_of_a_copy(alloc: Global) -> Result<usize, Memory> {
    let name = Text::copy_of(alloc, "emp")?;
    let mut whole = Whole::new(alloc);
    whole.put(name.copy()?, Relation::new(alloc))?;
    whole.insert_row(alloc, &name, ada(alloc)?)?;
    Ok(whole.copy(alloc)?.rows(&name).len())
}

#[test]
fn copies_a_database(rt: HostRuntime) {
    let copied = rows_of_a_copy(rt.alloc()).or_else(|_| rows_of_a_copy(rt.alloc()));
    assert!(rt; copied.is_ok_and(|rows| rows == 1));
}

/// The number of a site, and how many leaves are there, by a catalogue's look-ups.
fn looked_up(alloc: Global, site: &str) -> Result<Option<(usize, usize)>, Memory> {
    let catalog = catalog(alloc, EMP_AND_DEPT)?;
    match catalog.site(site) {
        Some(number) => Ok(Some((number, catalog.leaves_at(number)?.len()))),
        None => Ok(None),
    }
}

#[test]
fn looks_up_sites(rt: HostRuntime) {
    for (site, wanted) in [
        ("north", Some((0, 3))),
        ("south", Some((1, 2))),
        ("west", None),
    ] {
        let found = looked_up(rt.alloc(), site).or_else(|_| looked_up(rt.alloc(), site));
        assert!(rt; found.is_ok_and(|found| found == wanted), "at {site}");
    }
}

/// Whether there is a part of so many values: the key, and texts of so many letters.
fn is_part(alloc: Global, count: usize, letters: usize) -> Result<bool, Memory> {
    let mut text = String::new(alloc);
    for _ in 0..letters {
        text.push('x')?;
    }
    let mut values = Vec::new(alloc);
    for place in 0..count {
        values.push(match place {
            0 => Value::Int(1),
            _ => Value::Text(Text::copy_of(alloc, text.as_str())?),
        })?;
    }
    Ok(Part::new(values)?.is_some())
}

#[test]
fn makes_parts(rt: HostRuntime) {
    for (count, letters, wanted) in [
        (0, 0, false),
        (1, 0, true),
        (2, 200, true),
        (2, 201, false),
        (16, 0, true),
        (17, 0, false),
    ] {
        let made = is_part(rt.alloc(), count, letters).or_else(|_| is_part(
            rt.alloc(),
            count,
            letters,
        ));
        assert!(rt;
            made.is_ok_and(|made| made == wanted),
            "{count} values, {letters} letters"
        );
    }
}
