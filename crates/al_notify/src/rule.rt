ghost use Rattle.al_notify.specs.Rules.{sends, sends_active, was_active, was_at_level};
ghost use Rattle.std.specs.Prelude.{◌≡◌};

use al_base::{Copied, Severity, Status};
use std::alloc::{AllocError, Global};

/// Which status changes are told (RFC 8632, `notify-status-changes`).
#[derive(Clone, Copy, Debug, PartialEq, Eq)]
pub enum Mode {
    AllStateChanges,
    RaiseAndClear,
    /// By the level of the rule.
    SeverityLevel,
}

/// The rule by which status changes are told. The level is kept in every mode.
#[derive(Clone, Copy, Debug, PartialEq, Eq)]
pub struct NotifyRule {
    pub mode: Mode,
    /// RFC 8632, `notify-severity-level`.
    pub level: Severity,
}

impl NotifyRule {
    #[tactic(auto, unfolding(crate::specs::Rules::sends))]
    /// Whether a change of an alarm's status is told. `before` is the status that the alarm had, if there was one.
    pub fn sends(&self, before: Option<Status>, after: Status) -> bool
        ensures { result ≡ sends self.now before after }
    {
        match after {
            Status::Cleared => true,
            Status::Active(severity) => self.sends_active(before, severity),
        }
    }

    fn sends_active(&self, before: Option<Status>, severity: Severity) -> bool
        ensures { result ≡ sends_active self.now.mode self.now.level before severity }
    {
        match self.mode {
            Mode::AllStateChanges => true,
            Mode::RaiseAndClear => !was_active(before),
            Mode::SeverityLevel => {
                severity.rank() >= self.level.rank() || was_at_level(self.level, before)
            }
        }
    }
}

fn was_active(before: Option<Status>) -> bool
    ensures { result ≡ was_active before }
{
    matches!(before, Some(Status::Active(_)))
}

/// Whether the alarm was active with a severity at or above the level.
fn was_at_level(level: Severity, before: Option<Status>) -> bool
    ensures { result ≡ was_at_level level before }
{
    match before {
        Some(Status::Active(severity)) => severity.rank() >= level.rank(),
        Some(Status::Cleared) | None => false,
    }
}

impl Copied for Mode {
    fn copy(&self, _alloc: Global) -> Result<Mode, AllocError> {
        Ok(*self)
    }
}

impl Copied for NotifyRule {
    fn copy(&self, _alloc: Global) -> Result<NotifyRule, AllocError> {
        Ok(*self)
    }
}
