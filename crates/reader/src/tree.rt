//! A command as it is written, before its names mean anything. It borrows from the text's tokens.

use terms::cond::Cmp;

/// A name without a qualifier: that of a relation, or of a column that an update sets or adds to.
#[derive(Clone, Copy, Debug)]
pub struct Named<'a> {
    pub name: &'a [u8],
    /// Where it stands.
    pub offset: usize,
}

/// The name of a column, with or without its relation's.
#[derive(Clone, Copy, Debug)]
pub struct Column<'a> {
    /// The relation before the dot, where there is one.
    pub relation: Option<&'a [u8]>,
    pub name: &'a [u8],
    /// Where its first token stands.
    pub offset: usize,
}

/// A constant.
#[derive(Clone, Copy, Debug)]
pub enum Constant<'a> {
    Integer {
        is_negative: bool,
        /// The number without its sign; `u64::MAX` stands for every larger one.
        magnitude: u64,
        /// Where it stands: at the `-` if there is one.
        offset: usize,
        /// Where its digits stand.
        digits: usize,
    },
    Text {
        text: &'a str,
        offset: usize,
    },
}

/// What a select lists.
#[derive(Debug, Drop)]
pub enum Listed<'a> {
    /// All columns.
    All { offset: usize },
    /// These columns, one at least.
    Columns(Vec<Column<'a>>),
}

/// The column's value compares so with the constant.
#[derive(Clone, Copy, Debug)]
pub struct Condition<'a> {
    pub column: Column<'a>,
    pub comparison: Cmp,
    pub constant: Constant<'a>,
}

/// `JOIN .. ON .. = ..`
#[derive(Clone, Copy, Debug)]
pub struct Join<'a> {
    pub relation: Named<'a>,
    /// The column before the `=`.
    pub left: Column<'a>,
    /// The column after it.
    pub right: Column<'a>,
}

/// `SELECT .. FROM .. [JOIN ..]* [WHERE ..]`
#[derive(Debug, Drop)]
pub struct Select<'a> {
    pub listed: Listed<'a>,
    pub relation: Named<'a>,
    /// Two at most.
    pub joins: Vec<Join<'a>>,
    /// None where there is no WHERE.
    pub conditions: Vec<Condition<'a>>,
}

/// `INSERT INTO .. VALUES (..)`
#[derive(Debug, Drop)]
pub struct Insert<'a> {
    pub relation: Named<'a>,
    /// One value at least.
    pub values: Vec<Constant<'a>>,
    /// Where the `)` after the values stands.
    pub close: usize,
}

/// What an update sets a column to.
#[derive(Clone, Copy, Debug)]
pub enum Assigned<'a> {
    Constant(Constant<'a>),
    /// The value of a column, with a number added or taken away.
    Sum {
        column: Named<'a>,
        /// Whether the number is taken away.
        is_negative: bool,
        /// The number without its sign; `u64::MAX` stands for every larger one.
        magnitude: u64,
        /// Where its digits stand.
        digits: usize,
    },
}

/// A column that an update sets, and what to.
#[derive(Clone, Copy, Debug)]
pub struct Assignment<'a> {
    pub column: Named<'a>,
    pub value: Assigned<'a>,
}

/// `UPDATE .. SET .. [WHERE ..]`
#[derive(Debug, Drop)]
pub struct Update<'a> {
    pub relation: Named<'a>,
    /// One at least.
    pub sets: Vec<Assignment<'a>>,
    /// None where there is no WHERE.
    pub conditions: Vec<Condition<'a>>,
}

/// `DELETE FROM .. [WHERE ..]`
#[derive(Debug, Drop)]
pub struct Delete<'a> {
    pub relation: Named<'a>,
    /// None where there is no WHERE.
    pub conditions: Vec<Condition<'a>>,
}

/// A command.
#[derive(Debug, Drop)]
pub enum Written<'a> {
    Select(Select<'a>),
    Insert(Insert<'a>),
    Update(Update<'a>),
    Delete(Delete<'a>),
    /// `REFRAGMENT ..`
    Refragment(Named<'a>),
    Begin,
    Commit,
    Rollback,
}
