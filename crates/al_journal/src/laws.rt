//! What holds of all bytes, each as the contract of a function that does nothing.

ghost use Rattle.al_journal.specs.Laws.{BornOnce, ShowsABirth, ShowsNothingTorn, ShowsOnce, TornHasABirth};

/// Bytes are no journal, or torn, or they show one list of payloads.
pub fn bytes_show_one_list()
    ensures once { ShowsOnce }
    ensures birth { ShowsABirth }
    ensures whole { ShowsNothingTorn }
    ensures torn { TornHasABirth }
    ensures born { BornOnce }
{}
