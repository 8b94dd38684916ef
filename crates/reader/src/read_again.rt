//! What is printed is read again.

ghost use Rattle.reader.specs.Printable.{PrintedIsRead, PrintedCondsAreRead};

/// What a printable statement is printed as is read again as the statement.
pub fn printed_is_read()
    ensures { PrintedIsRead }
{}

/// What conditions on columns with names of their own are printed as is read again as the conditions.
pub fn printed_conds_are_read()
    ensures { PrintedCondsAreRead }
{}
