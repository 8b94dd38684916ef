//! Schemas: the relations, their columns and the columns' types.

ghost use Rattle.std.specs.Prelude.{◌≡◌, IfOk};
ghost use Rattle.std.specs.Option.{option_copied};
ghost use Rattle.meaning.specs.Schema.{relation_named};

use terms::copy::TryCopy;
use terms::memory::Memory;
use terms::same::Same;
use terms::seq::Seq;
use terms::text::Text;
use terms::value::Kind;

/// A column: its name and the type of its values.
#[derive(Debug, Drop)]
pub struct Column {
    pub name: Text,
    pub kind: Kind,
}

/// A relation's name and columns. The first column is the key.
#[derive(Debug, Drop)]
pub struct RelationSchema {
    pub name: Text,
    pub columns: Seq<Column>,
}

/// The relations that there are.
#[derive(Debug, Drop)]
pub struct Schema {
    pub relations: Seq<RelationSchema>,
}

impl Schema {
    /// The relation of this name, if there is one.
    pub fn relation(&self, name: &[u8]) -> Option<&RelationSchema>
        ensures { option_copied result ≡ relation_named name.now self.now.relations }
    {
        find_relation(self.relations.as_slice(), name)
    }
}

fn find_relation<'a>(relations: &'a [RelationSchema], name: &[u8]) -> Option<&'a RelationSchema>
    ensures { option_copied result ≡ relation_named name.now relations.now }
{
    relations
        .iter()
        .find(|relation| relation.name.as_str().as_bytes() == name)
}

impl Same for Column {
    fn same(&self, other: &Column) -> bool {
        self.name == other.name && self.kind == other.kind
    }
}

impl Same for RelationSchema {
    fn same(&self, other: &RelationSchema) -> bool {
        self.name == other.name && self.columns.same(&other.columns)
    }
}

impl TryCopy for Column {
    fn copy(&self) -> Result<Column, Memory> {
        Ok(Column {
            name: self.name.copy()?,
            kind: self.kind,
        })
    }
}

impl TryCopy for RelationSchema {
    fn copy(&self) -> Result<RelationSchema, Memory> {
        Ok(RelationSchema {
            name: self.name.copy()?,
            columns: self.columns.copy()?,
        })
    }
}

impl TryCopy for Schema {
    fn copy(&self) -> Result<Schema, Memory> {
        Ok(Schema {
            relations: self.relations.copy()?,
        })
    }
}
