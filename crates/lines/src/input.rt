//! What a reader gives.

ghost use Rattle.std.specs.Prelude.{◌≡◌, ◌⊎◌, IfErr, IfOk, IfSome, take};
ghost use Rattle.lines.specs.Input.{IsOfInput};

use crate::fault::ProgramFault;
use std::alloc::Global;
use std::io::Read;

/// The first bytes that `input` gives, at most so many. `file` names it in a fault.
pub fn read_up_to<'a, R: Read + Drop>(
    alloc: Global,
    file: &'a str,
    input: R,
    most: u64,
) -> Result<Vec<u8>, ProgramFault<'a>>
    ensures front { IfOk result (λ read. IfSome (R.remaining input) (λ bytes. read.items ≡ take most bytes)) }
    ensures faults { IfErr result (IsOfInput file.entry) }
{
    let mut read = Vec::new(alloc);
    input
        .take(most)
        .read_to_end(&mut read)
        .map_err(|error| ProgramFault::reading(file, &error))?;
    Ok(read)
}
