//! Rows of tables as the rows that they are made of.

ghost use Rattle.std.specs.Prelude.{◌≡◌, [], ◌∷◌, ◌++◌, ◌<◌, IfOk};
ghost use Rattle.std.specs.List.{AllByRecursion, slice_get};
ghost use Rattle.std.specs.Option.{option_copied};
ghost use Rattle.terms.specs.Row.{key_of};
ghost use Rattle.answers.specs.Laid.{column_of, padded, row_of, rows_behind, sources, value_at};

use std::alloc::Global;
use std::slice;
use terms::copy::TryCopy;
use terms::memory::Memory;
use terms::row::Row;
use terms::seq::Seq;
use terms::value::Value;

/// A column of a table: its number, and where its values stand: in which of the rows that a row is made of, and at which place there.
#[derive(Clone, Copy, Debug)]
pub struct Column {
    pub(crate) number: usize,
    pub(crate) source: usize,
    pub(crate) place: usize,
}

/// A row of a table, made of one row or more. It shares their values.
#[derive(Debug, Drop)]
pub struct Joined {
    pub(crate) first: Row,
    pub(crate) behind: Behind,
}

/// The rows behind the first one that a row is made of. Up to three of them stand in the place of a list, and need no allocator.
#[derive(Debug, Drop)]
pub(crate) enum Behind {
    Nothing,
    One(Row),
    Two([Row; 2]),
    Three([Row; 3]),
    Many(Seq<Row>),
}

impl TryCopy for Joined {
    fn copy(&self) -> Result<Joined, Memory> {
        Ok(Joined {
            first: self.first.copy()?,
            behind: self.behind.copy()?,
        })
    }
}

impl TryCopy for Behind {
    fn copy(&self) -> Result<Behind, Memory> {
        match self {
            Behind::Nothing => Ok(Behind::Nothing),
            Behind::One(row) => Ok(Behind::One(row.copy()?)),
            Behind::Two([one, two]) => Ok(Behind::Two([one.copy()?, two.copy()?])),
            Behind::Three([one, two, three]) => {
                Ok(Behind::Three([one.copy()?, two.copy()?, three.copy()?]))
            }
            Behind::Many(rows) => Ok(Behind::Many(rows.copy()?)),
        }
    }
}

impl Behind {
    fn as_slice(&self) -> &[Row]
        ensures { result.now ≡ rows_behind self.now }
    {
        match self {
            Behind::Nothing => &[],
            Behind::One(row) => slice::from_ref(row),
            Behind::Two(rows) => rows.as_slice(),
            Behind::Three(rows) => rows.as_slice(),
            Behind::Many(rows) => rows.as_slice(),
        }
    }

    /// These rows, and another one behind them.
    #[inline(always)]
    fn with(self, alloc: Global, row: Row) -> Result<Behind, Memory>
        ensures { IfOk result (λ all. rows_behind all ≡ rows_behind self ++ row ∷ []) }
    {
        match self {
            Behind::Nothing => Ok(Behind::One(row)),
            Behind::One(one) => Ok(Behind::Two([one, row])),
            Behind::Two([one, two]) => Ok(Behind::Three([one, two, row])),
            Behind::Three([one, two, three]) => {
                let rows = vec![in alloc; one, two, three, row]?;
                Ok(Behind::Many(Seq::new(rows)))
            }
            Behind::Many(rows) => {
                let mut rows = rows.into_vec();
                rows.push(row)?;
                Ok(Behind::Many(Seq::new(rows)))
            }
        }
    }

    /// These rows, and copies of others behind them.
    #[inline(always)]
    fn with_all(self, alloc: Global, others: &[Row]) -> Result<Behind, Memory>
        ensures { IfOk result (λ all. rows_behind all ≡ rows_behind self ++ others.now) }
    {
        let mut all = self;
        for row in others {
            all = all.with(alloc, row.copy()?)?;
        }
        Ok(all)
    }

    /// So many of these rows, and ones without values where there are fewer.
    #[inline(always)]
    fn padded(self, alloc: Global, count: usize) -> Result<Behind, Memory>
        ensures { IfOk result (λ all. rows_behind all ≡ padded count (rows_behind self)) }
    {
        if self.as_slice().len() == count {
            return Ok(self);
        }
        padded(alloc, count, self.as_slice())
    }
}

/// Copies of so many rows, and rows without values where there are fewer.
fn padded(alloc: Global, count: usize, rows: &[Row]) -> Result<Behind, Memory>
    ensures { IfOk result (λ all. rows_behind all ≡ padded count rows.now) }
{
    let mut all = Behind::Nothing;
    let mut rest = rows;
    for _place in 0..count {
        match rest.split_first() {
            Some((row, later)) => {
                all = all.with(alloc, row.copy()?)?;
                rest = later;
            }
            None => all = all.with(alloc, Row::new(Vec::new(alloc))?)?,
        }
    }
    Ok(all)
}

impl Joined {
    /// The row that is made of one alone.
    pub(crate) fn alone(row: Row) -> Joined
        ensures first { result.first ≡ row }
        ensures behind { rows_behind result.behind ≡ [] }
    {
        Joined {
            first: row,
            behind: Behind::Nothing,
        }
    }

    /// One of the rows that it is made of, if there are as many.
    #[inline(always)]
    fn source(&self, number: usize) -> Option<&Row>
        ensures { option_copied result ≡ slice_get (sources self.now) number }
    {
        if number == 0 {
            return Some(&self.first);
        }
        self.behind.as_slice().get(number - 1)
    }

    /// The value in a column, if there is one.
    #[inline(always)]
    pub(crate) fn value_at(&self, column: &Column) -> Option<&Value>
        ensures { option_copied result ≡ value_at self.now column.now }
    {
        match self.source(column.source) {
            Some(row) => row.values().get(column.place),
            None => None,
        }
    }

    /// The rows of which this one is made, so many of them, and behind them those of another.
    #[inline(always)]
    pub(crate) fn beside(self, alloc: Global, count: usize, other: Joined) -> Result<Joined, Memory>
        requires { 0 < count }
        ensures { IfOk result (λ both. sources both ≡ padded count (sources self) ++ sources other) }
    {
        let Joined { first, behind } = self;
        let own = behind.padded(alloc, count - 1)?;
        let behind = own
            .with(alloc, other.first)?
            .with_all(alloc, other.behind.as_slice())?;
        Ok(Joined { first, behind })
    }

    /// So behind them those of one that stays, with copies of its rows.
    #[inline(always)]
    pub(crate) fn beside_copy(
        self,
        alloc: Global,
        count: usize,
        other: &Joined,
    ) -> Result<Joined, Memory>
        requires { 0 < count }
        ensures { IfOk result (λ both. sources both ≡ padded count (sources self) ++ sources other.now) }
    {
        let Joined { first, behind } = self;
        let own = behind.padded(alloc, count - 1)?;
        let behind = own
            .with(alloc, other.first.copy()?)?
            .with_all(alloc, other.behind.as_slice())?;
        Ok(Joined { first, behind })
    }
}

/// The column of this number.
pub(crate) fn column_of(columns: &[Column], number: usize) -> Option<&Column>
    ensures { option_copied result ≡ column_of number columns.now }
{
    let (first, rest) = columns.split_first()?;
    if first.number == number {
        return Some(first);
    }
    column_of(rest, number)
}

/// The key of a row over these columns.
pub(crate) fn key_in(columns: &[Column], row: &Joined) -> i64
    ensures { result ≡ key_of (row_of columns.now row.now) }
{
    match columns.first() {
        Some(column) => match row.value_at(column) {
            Some(Value::Int(key)) => *key,
            _ => 0,
        },
        None => 0,
    }
}

/// How many rows a row has to be made of, so that each column's is among them.
pub(crate) fn sources_of(columns: &[Column]) -> Result<usize, Memory>
    ensures some { IfOk result (λ count. 0 < count) }
    ensures within { IfOk result (λ count. AllByRecursion (λ column. column.source < count) columns.now) }
{
    let Some((first, rest)) = columns.split_first() else {
        return Ok(1);
    };
    let count = sources_of(rest)?;
    match first.source.checked_add(1) {
        Some(most) => Ok(if most < count { count } else { most }),
        None => Err(Memory),
    }
}
