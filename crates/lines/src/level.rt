//! Lines of a tree: what stands below a line stands two blanks further right.

ghost use Rattle.std.specs.Prelude.{◌≡◌, ◌++◌, IfOk, OnOk, string_bytes};
ghost use Rattle.lines.specs.Level.{line};
ghost use Rattle.lines.specs.Level as spec;

use std::alloc::Global;
use terms::memory::Memory;

/// The front of the lines below lines with this front.
pub fn deeper(alloc: Global, front: &str) -> Result<String, Memory>
    ensures { IfOk result (λ text. string_bytes text ≡ spec.deeper front.now) }
{
    let mut text = String::from_str(alloc, front)?;
    text.push_str("  ")?;
    Ok(text)
}

/// A line with this front.
pub fn put_line(out: &mut String, front: &str, text: &str) -> Result<(), Memory>
    ensures { OnOk result (string_bytes out.new ≡ string_bytes out.old ++ line front.now text.now) }
{
    out.push_str(front)?;
    out.push_str(text)?;
    out.push('\n')?;
    Ok(())
}
