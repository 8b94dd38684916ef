//! The laws of writes and of moves, each as the contract of a function that does nothing.

ghost use Rattle.answers.specs.Moves.{MovesLead, MovesStay};
ghost use Rattle.answers.specs.Writes.{WritesLead};

use catalog::laws::leaf_names_are_unique;
use plan::laws::contents_ascend;

/// The writes between two whole databases, applied one after another to what a leaf has of the first, give
/// what it has of the second: so do those of a statement, which lead to the whole database after it.
pub fn writes_lead()
    ensures { WritesLead }
{
    leaf_names_are_unique();
    contents_ascend();
}

/// The moves between two catalogues, applied one after another to what each place has of a relation under the
/// one, give what it has under the other; all other places they leave as they are.
pub fn moves_lead()
    ensures lead { MovesLead }
    ensures stay { MovesStay }
{
    contents_ascend();
}
