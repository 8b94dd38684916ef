//! What holds of contents and changes, whatever keeps them.

ghost use Rattle.store.specs.Laws.{NothingChanges, OneChangeMore, OneTouchMore, OneKeySuffices};

/// No changes change nothing.
pub fn nothing_changes()
    ensures { NothingChanges }
{}

/// One change more changes its leaf alone, and comes last.
pub fn one_change_more()
    ensures { OneChangeMore }
{}

/// One change more touches its leaf alone.
pub fn one_touch_more()
    ensures { OneTouchMore }
{}

/// What conditions on one key find in a changed content is found by that key alone.
pub fn one_key_suffices()
    ensures { OneKeySuffices }
{}
