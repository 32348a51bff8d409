use al_base::{OperatorState, Severity, Stamp, Text};

/// What a purge asks of an alarm.
#[derive(Clone, Copy, Debug)]
pub struct AlarmFacts<'a> {
    pub cleared: bool,
    /// Its perceived severity: of a cleared alarm the one that it had.
    pub severity: Severity,
    /// When it last got a status or operator entry.
    pub changed: Stamp,
    /// The state and the operator of its newest operator entry, if it has one.
    pub newest: Option<(OperatorState, &'a Text)>,
}
