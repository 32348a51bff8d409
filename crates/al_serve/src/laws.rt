//! What holds of every exchange, as the contract of a function that does nothing; and what the passes of a turnstile add up to.

ghost use Rattle.al_serve.specs.Laws.{PassesPutAllEntries, TurnsAreOfOneHistory};

/// The turns of an exchange stand at places of one history, which never fall; its entries of their origin are the turns' own.
pub fn exchanges_are_of_one_history()
    ensures { TurnsAreOfOneHistory }
{}

/// What all workers have counted, where each has counted what its pass put, is what the history has grown by between `new` and `close`.
pub fn passes_put_all_entries()
    ensures { PassesPutAllEntries }
{}
