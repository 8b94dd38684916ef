//! Relations that statements name.

ghost use Rattle.std.specs.Prelude.{◌≡◌, map, IfOk, IfErr};
ghost use Rattle.meaning.specs.Schema.{relation_named};
ghost use Rattle.reader.specs.Breaks.{RelationBreaks};
ghost use Rattle.reader.specs.Resolving.{Resolves};
ghost use Rattle.reader.specs.Names.{source_of};

use crate::fault::{ReadFault, Rule};
use crate::tree::Named;
use meaning::schema::{Column, RelationSchema, Schema};
use meaning::statement::Source;
use std::alloc::Global;
use terms::copy::TryCopy;
use terms::memory::Memory;
use terms::seq::Seq;
use terms::text::Text;

/// The relation of a name.
pub(crate) fn relation<'a>(
    schema: &'a Schema,
    named: &Named<'_>,
) -> Result<&'a RelationSchema, ReadFault>
    ensures exact { Resolves (λ r. r.now) result (relation_named named.now.name.now schema.now.relations) }
    ensures rule { IfErr result (λ fault. RelationBreaks fault.rule schema.now.relations named.now.name.now) }
{
    match schema.relation(named.name) {
        Some(relation) => Ok(relation),
        None => Err(ReadFault::new(Rule::NoRelation, named.offset)),
    }
}

/// What a statement is printed with.
pub(crate) fn source(alloc: Global, relation: &RelationSchema) -> Result<Source, Memory>
    ensures { IfOk result (λ source. source ≡ source_of relation.now) }
{
    let columns = column_names(alloc, relation.columns.as_slice())?;
    Ok(Source {
        name: relation.name.copy()?,
        columns: Seq::new(columns),
    })
}

fn column_names(alloc: Global, columns: &[Column]) -> Result<Vec<Text>, Memory>
    ensures { IfOk result (λ names. names.items ≡ map (λ c. c.name) columns.now) }
{
    let mut names = Vec::new(alloc);
    for column in columns {
        names.push(column.name.copy()?)?;
    }
    Ok(names)
}
