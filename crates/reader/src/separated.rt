//! Lists, with a separator between their items.

ghost use Rattle.std.specs.Prelude.{◌≡◌, ◌++◌, ℕ, List, OnOk, string_bytes};
ghost use Rattle.reader.specs.PrintStatement.{separated_bytes};

use terms::memory::Memory;

/// How the items of a list are put at the end of a text.
pub(crate) trait Printer<T> {
    ghost bytes: { Self → T → List ℕ };

    fn put(&self, out: &mut String, item: &T) -> Result<(), Memory>
        ensures { OnOk result (string_bytes out.new ≡ string_bytes out.old ++ bytes self.now item.now) };
}

/// The items, with a separator before each but the first.
pub(crate) fn put_separated<T, P: Printer<T>>(
    out: &mut String,
    printer: &P,
    separator: &str,
    items: &[T],
) -> Result<(), Memory>
    ensures { OnOk result (string_bytes out.new ≡ string_bytes out.old ++ separated_bytes (P.bytes printer.now) separator.now items.now) }
{
    let Some((first, others)) = items.split_first() else {
        return Ok(());
    };
    printer.put(out, first)?;
    for item in others {
        out.push_str(separator)?;
        printer.put(out, item)?;
    }
    Ok(())
}
