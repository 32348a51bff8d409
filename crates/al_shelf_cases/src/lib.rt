//! Cases of al_shelf, whose answers were worked out by hand. It has tests alone.
#![tactic(auto)]

#[cfg(test)]
mod shelves;
