//! The text of a constant: as `read` takes it.

ghost use Rattle.std.specs.Prelude.{Some};
ghost use Rattle.std.specs.Fmt.{WritesOnOk};
ghost use Rattle.reader.specs.PrintStatement.{constant_bytes};
ghost use Rattle.reader.specs.Tokens.{doubled};
ghost use Rattle.reader.specs.Written.{constant_as};

use std::fmt;
use terms::value::Value;

/// A value that prints as a constant: an integer in decimal, or a text in quotes with each quote in
/// it doubled.
#[derive(Clone, Copy)]
pub struct PrintedConstant<'a>(pub &'a Value);

impl fmt::Display for PrintedConstant<'_> {
    ghost output = { λ constant. Some (constant_bytes (constant_as constant.0.now)) };

    fn fmt<W: fmt::Write>(&self, f: &mut fmt::Formatter<W>) -> fmt::Result {
        match self.0 {
            Value::Int(number) => write!(f, "{number}"),
            Value::Text(text) => {
                f.write_str("'")?;
                write_doubled(f, text.as_str())?;
                f.write_str("'")
            }
        }
    }
}

/// A text, each quote doubled.
fn write_doubled<W: fmt::Write>(f: &mut fmt::Formatter<W>, text: &str) -> fmt::Result
    ensures { WritesOnOk W.write_str_gives f.old result (doubled text.now) f.new }
{
    let mut rest = text;
    while let Some((before, behind)) = rest.split_once('\'') {
        f.write_str(before)?;
        f.write_str("''")?;
        rest = behind;
    }
    f.write_str(rest)
}
