//! Answers.

ghost use Rattle.std.specs.Prelude.{◌≡◌, IfOk};

use terms::copy::TryCopy;
use terms::memory::Memory;
use terms::row::Row;
use terms::same::Same;
use terms::seq::Seq;
use terms::text::Text;

/// What a statement answers.
#[derive(Debug, Drop)]
pub enum Answer {
    /// The names of the columns, and the rows, in ascending order of the key of the relation after FROM.
    Rows(Seq<Text>, Seq<Row>),
    /// How many rows were added, changed or removed.
    Changed(u64),
    /// The key is there already, and nothing has changed.
    Exists,
    /// A sum leaves 64 bits, and nothing has changed.
    Overflow,
}

impl TryCopy for Answer {
    fn copy(&self) -> Result<Answer, Memory> {
        match self {
            Answer::Rows(header, rows) => Ok(Answer::Rows(header.copy()?, rows.copy()?)),
            Answer::Changed(count) => Ok(Answer::Changed(*count)),
            Answer::Exists => Ok(Answer::Exists),
            Answer::Overflow => Ok(Answer::Overflow),
        }
    }
}

impl Same for Answer {
    fn same(&self, other: &Answer) -> bool {
        match self {
            Answer::Rows(header, rows) => match other {
                Answer::Rows(others, other_rows) => header.same(others) && rows.same(other_rows),
                _ => false,
            },
            Answer::Changed(count) => match other {
                Answer::Changed(other) => count.same(other),
                _ => false,
            },
            Answer::Exists => match other {
                Answer::Exists => true,
                _ => false,
            },
            Answer::Overflow => match other {
                Answer::Overflow => true,
                _ => false,
            },
        }
    }
}
