//! Laws of the meaning. Each function does nothing: a call of it gives its caller the law.

ghost use Rattle.meaning.specs.Laws.{InsertedIsSelected, DeletedAreGone, UpdateKeepsKeys, SelectAddsNoRow, ReadsInOrder, UnmatchedIsDropped, JoinsMayTurn, PartnerHasKey, SelectChangesNothing, RefusalChangesNothing};

/// After an INSERT whose key was not there, a SELECT by that key answers the row and nothing else.
pub fn inserted_is_selected()
    ensures { InsertedIsSelected }
{}

/// A DELETE leaves no row that meets its conditions, and every other row.
pub fn deleted_are_gone()
    ensures { DeletedAreGone }
{}

/// An UPDATE leaves the same keys in the same order.
pub fn update_keeps_keys()
    ensures { UpdateKeepsKeys }
{}

/// A SELECT, with JOINs too, answers at most one row for each row after FROM.
pub fn select_adds_no_row()
    ensures { SelectAddsNoRow }
{}

/// A SELECT, with JOINs too, reads rows in the order of the keys after FROM.
pub fn reads_in_order()
    ensures { ReadsInOrder }
{}

/// A JOIN drops a row whose column has no key of the joined relation.
pub fn unmatched_is_dropped()
    ensures { UnmatchedIsDropped }
{}

/// Two JOINs by columns of the relation after FROM may come in either order.
pub fn joins_may_turn()
    ensures { JoinsMayTurn }
{}

/// The row that a JOIN finds by a key is the one row with that key.
pub fn partner_has_key()
    ensures { PartnerHasKey }
{}

/// A SELECT changes nothing.
pub fn select_changes_nothing()
    ensures { SelectChangesNothing }
{}

/// A statement that answers Exists or Overflow changes nothing.
pub fn refusal_changes_nothing()
    ensures { RefusalChangesNothing }
{}
