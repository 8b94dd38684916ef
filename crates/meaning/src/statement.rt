//! Statements, their names resolved.

ghost use Rattle.std.specs.Prelude.{◌≡◌, IfOk};
ghost use Rattle.meaning.specs.Statement.{is_refragment};

use terms::cond::Conds;
use terms::copy::TryCopy;
use terms::memory::Memory;
use terms::row::Row;
use terms::seq::Seq;
use terms::text::Text;
use terms::value::Value;

/// A statement. It holds the names that it is printed with, so no schema is wanted to run or print it.
#[derive(Debug, Drop)]
pub enum Statement {
    Select(Select),
    Insert(Insert),
    Update(Update),
    Delete(Delete),
    Refragment(Refragment),
}

/// A relation that a statement speaks of: its name, and the names of all its columns.
#[derive(Debug, Drop)]
pub struct Source {
    pub name: Text,
    pub columns: Seq<Text>,
}

/// A join by the key of a further relation, which is compared with a column of those before it.
#[derive(Debug, Drop)]
pub struct Join {
    pub relation: Source,
    /// A column of the relations before it, counted on from 0 through all of them.
    pub col: usize,
}

/// `SELECT`: the listed columns of the rows that meet all conditions. In a join the columns of each
/// relation are counted on from those before it.
#[derive(Debug, Drop)]
pub struct Select {
    pub from: Source,
    /// The joins, each after those that its column may be of.
    pub joins: Seq<Join>,
    /// Columns counted from 0, in the order of the list.
    pub columns: Seq<usize>,
    pub conds: Conds,
}

/// `INSERT`: a row for a relation.
#[derive(Debug, Drop)]
pub struct Insert {
    pub into: Text,
    pub row: Row,
}

/// What a column is set to.
#[derive(Debug, Drop)]
pub enum Assigned {
    /// A constant.
    Constant(Value),
    /// The sum of a column's value before the change and a number.
    Sum { col: usize, number: i64 },
}

/// A column, and what it is set to.
#[derive(Debug, Drop)]
pub struct Assignment {
    pub col: usize,
    pub value: Assigned,
}

/// `UPDATE`: the assignments for the rows that meet all conditions.
#[derive(Debug, Drop)]
pub struct Update {
    pub relation: Source,
    pub sets: Seq<Assignment>,
    pub conds: Conds,
}

/// `DELETE`: the rows that meet all conditions.
#[derive(Debug, Drop)]
pub struct Delete {
    pub relation: Source,
    pub conds: Conds,
}

/// `REFRAGMENT`: all rows of a relation, which move to the fragments that the next catalogue has for it.
#[derive(Debug, Drop)]
pub struct Refragment {
    pub relation: Source,
}

impl Statement {
    /// Whether it is a REFRAGMENT.
    pub fn is_refragment(&self) -> bool
        ensures { result ≡ is_refragment self.now }
    {
        matches!(self, Statement::Refragment(_))
    }
}

impl TryCopy for Statement {
    fn copy(&self) -> Result<Statement, Memory> {
        match self {
            Statement::Select(select) => Ok(Statement::Select(select.copy()?)),
            Statement::Insert(insert) => Ok(Statement::Insert(insert.copy()?)),
            Statement::Update(update) => Ok(Statement::Update(update.copy()?)),
            Statement::Delete(delete) => Ok(Statement::Delete(delete.copy()?)),
            Statement::Refragment(refragment) => Ok(Statement::Refragment(refragment.copy()?)),
        }
    }
}

impl TryCopy for Source {
    fn copy(&self) -> Result<Source, Memory> {
        Ok(Source {
            name: self.name.copy()?,
            columns: self.columns.copy()?,
        })
    }
}

impl TryCopy for Join {
    fn copy(&self) -> Result<Join, Memory> {
        Ok(Join {
            relation: self.relation.copy()?,
            col: self.col,
        })
    }
}

impl TryCopy for Select {
    fn copy(&self) -> Result<Select, Memory> {
        let from = self.from.copy()?;
        let joins = self.joins.copy()?;
        let columns = self.columns.copy()?;
        Ok(Select {
            from,
            joins,
            columns,
            conds: self.conds.copy()?,
        })
    }
}

impl TryCopy for Insert {
    fn copy(&self) -> Result<Insert, Memory> {
        Ok(Insert {
            into: self.into.copy()?,
            row: self.row.copy()?,
        })
    }
}

impl TryCopy for Assigned {
    fn copy(&self) -> Result<Assigned, Memory> {
        match self {
            Assigned::Constant(value) => Ok(Assigned::Constant(value.copy()?)),
            Assigned::Sum { col, number } => Ok(Assigned::Sum {
                col: *col,
                number: *number,
            }),
        }
    }
}

impl TryCopy for Assignment {
    fn copy(&self) -> Result<Assignment, Memory> {
        Ok(Assignment {
            col: self.col,
            value: self.value.copy()?,
        })
    }
}

impl TryCopy for Update {
    fn copy(&self) -> Result<Update, Memory> {
        let relation = self.relation.copy()?;
        let sets = self.sets.copy()?;
        Ok(Update {
            relation,
            sets,
            conds: self.conds.copy()?,
        })
    }
}

impl TryCopy for Delete {
    fn copy(&self) -> Result<Delete, Memory> {
        Ok(Delete {
            relation: self.relation.copy()?,
            conds: self.conds.copy()?,
        })
    }
}

impl TryCopy for Refragment {
    fn copy(&self) -> Result<Refragment, Memory> {
        Ok(Refragment {
            relation: self.relation.copy()?,
        })
    }
}
