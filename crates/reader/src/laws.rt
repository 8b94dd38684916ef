//! Laws of what texts mean. Each function does nothing: a call of it gives its caller the law.

ghost use Rattle.reader.specs.Laws.{StarListsAll, SidesMayTurn};

/// `*` lists the columns of all relations, in their order.
pub fn star_lists_all()
    ensures { StarListsAll }
{}

/// `ON a.x = b.y` and `ON b.y = a.x` are the same, in each join.
pub fn sides_may_turn()
    ensures { SidesMayTurn }
{}
