//! What holds of every history, each as the contract of a function that does nothing.

ghost use Rattle.al_office.specs.Laws.{SendsAtMostOneNote, ShowsOneHistory, ShownIsAJournal, ShownIsValid};

use al_frame::laws::frames_are_their_entries;
use al_journal::laws::bytes_show_one_list;

/// Each entry sends one note at most, so that a history has at least as many entries as it sent notes.
pub fn entries_send_few_notes()
    ensures { SendsAtMostOneNote }
{}

/// Bytes show one legal history at most, and then they are a journal that is valid.
pub fn bytes_show_one_history()
    ensures once { ShowsOneHistory }
    ensures journal { ShownIsAJournal }
    ensures valid { ShownIsValid }
{
    bytes_show_one_list();
    frames_are_their_entries();
}
