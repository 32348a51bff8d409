//! What holds of every history, each as the contract of a function that does nothing.

ghost use Rattle.al_turn.specs.Laws.{OwnEntriesGrow, PassesMakeAllEntries};

/// The entries of all passes are all entries.
pub fn entries_are_counted_by_origin()
    ensures { PassesMakeAllEntries }
{}

/// What one origin made, as the history grows.
pub fn own_entries_grow()
    ensures { OwnEntriesGrow }
{}
