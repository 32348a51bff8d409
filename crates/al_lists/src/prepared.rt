use al_base::Stamp;
use al_contents::Change;
use al_notify::NoteBody;

/// The change of an entry, for which all memory is taken.
#[derive(Debug, Drop)]
pub struct Prepared {
    pub(crate) time: Stamp,
    pub(crate) change: Change,
    pub(crate) note: Option<NoteBody>,
    /// Whether it changes alarms of the list, and alarms on shelves.
    pub(crate) list: bool,
    pub(crate) shelf: bool,
}
