ghost use Rattle.std.specs.Prelude.{◌≡◌, length};
ghost use Rattle.al_model.specs.declared.kept.Mark.{Mark};

use crate::entry::Entry;
use std::collections::LinkedList;

/// What stays of a value that keeps a history while it is handed from one user to the next.
#[derive(Debug, Drop)]
pub struct Fixed {
    /// How many bytes its journal may have.
    pub capacity: u64,
    /// The length of its list when it was opened.
    pub length: u64,
    /// The time of its disk when it was opened: from then on each image showed at least that list.
    pub since: u64,
}

/// What contracts see of a value that keeps a history. No code makes one.
#[derive(Debug, Drop)]
pub struct Mark {
    /// The entries of the history, the oldest first.
    pub entries: LinkedList<Entry>,
    /// How often what it rests on has failed.
    pub faults: u64,
    pub fixed: Fixed,
}

/// What keeps a history.
pub trait Kept: Drop {
    /// Its entries, its count of faults and its fixed part.
    ghost mark: { Self → Mark };

    /// How many entries there are.
    fn entries(&self) -> u64
        ensures { result ≡ length (mark self.now).entries };
}
