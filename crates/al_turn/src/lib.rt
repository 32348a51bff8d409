//! The turnstile: one value under a lock, whose users take turns, and what each of them has seen of it.
//!
//! A plain lock forgets: what was learnt at one turn is unknown at the next. Here each pass remembers the history that it has seen,
//! and every value that it takes begins with it.
#![tactic(auto)]

pub mod alone;
pub mod laws;
pub mod pass;
pub mod seated;
mod steps;
pub mod turns;
pub mod turnstile;
pub mod view;

pub use alone::Alone;
pub use pass::Pass;
pub use seated::Seated;
pub use turns::Turns;
pub use turnstile::Turnstile;
