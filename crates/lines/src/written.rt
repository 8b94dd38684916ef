//! What is written to an output.

ghost use Rattle.std.specs.Prelude.{IfErr, OnOk};
ghost use Rattle.std.specs.Io.KnownBytes.{Appends};
ghost use Rattle.lines.specs.Input.{IsOfOutput};

use crate::fault::ProgramFault;
use std::io::Write;

/// Writes a text, and waits until it is written.
pub fn write_text<'a, W: Write>(output: &mut W, text: &str) -> Result<(), ProgramFault<'a>>
    ensures written { OnOk result (Appends (W.contents output.old) (W.contents output.new) text.now) }
    ensures err { IfErr result IsOfOutput }
{
    output
        .write_all(text.as_bytes())
        .map_err(|error| ProgramFault::writing(&error))?;
    output
        .flush()
        .map_err(|error| ProgramFault::writing(&error))?;
    Ok(())
}
