//! What a pass knows. No value of these types is made: contracts and the lock's rule speak of them.

use al_model::Mark;
use std::collections::LinkedList;

/// How far a pass is in its turn.
pub enum Stage {
    /// It has no ticket.
    Idle,
    /// It has a ticket, and waits.
    Waiting,
    /// Its ticket is served.
    Served,
    /// It has the value.
    Holding,
    /// It has put the value back, and its ticket is still served.
    Given,
}

/// What another pass knew when it was joined into this one.
pub struct Joined {
    pub number: u64,
    pub seen: Mark,
}

/// What a pass knows of its turnstile.
pub struct View {
    pub stage: Stage,
    /// The pass's number, from 1 on; 0 where it was joined into another.
    pub number: u64,
    /// At pass 1, how many passes were made.
    pub made: u64,
    /// Its number in the queue, where it has one.
    pub ticket: u64,
    /// How many turns it has left.
    pub left: u64,
    /// The length of the history when the turnstile was made.
    pub base: u64,
    /// The history, count of faults and fixed part that it has seen last.
    pub seen: Mark,
    /// The passes that were joined into it.
    pub joined: LinkedList<Joined>,
}
