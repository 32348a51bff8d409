ghost use Rattle.std.specs.Prelude.{◌≡◌, ◌≤◌, []};
ghost use Rattle.al_base.specs.Limits.{most_alarms};
ghost use Rattle.al_model.specs.Summary.{summary_of};
ghost use Rattle.al_model.specs.Validity.{IsValid};
ghost use Rattle.al_lists.specs.Summaries.{AreAtMost, counted, is_selected, row_of, tallied, tally_of};

use al_base::Severity;
use al_contents::{Alarm, Contents};

/// How many alarms the list has, by severity and by what became of them, and whether any alarm is on a shelf (RFC 8632, container
/// `summary`).
#[derive(Clone, Copy, Debug, PartialEq, Eq)]
pub struct Summary {
    /// One for each severity, from critical down: how many alarms there are, those not cleared and cleared, the cleared ones not closed
    /// and closed, the others closed and not closed.
    pub rows: [[u32; 7]; 5],
    /// RFC 8632, `shelves-active`.
    pub shelves_active: bool,
}

/// How many alarms of one severity the list has, by what became of them.
#[derive(Clone, Copy, Debug)]
struct Tally {
    active: u32,
    active_closed: u32,
    cleared: u32,
    cleared_closed: u32,
}

/// The counts of the alarms of the list, from critical down.
pub(crate) fn rows(contents: &Contents) -> [[u32; 7]; 5]
    requires { IsValid contents.now.state }
    ensures { result ≡ summary_of contents.now.state }
{
    let mut critical = Tally::none();
    let mut major = Tally::none();
    let mut minor = Tally::none();
    let mut warning = Tally::none();
    let mut indeterminate = Tally::none();
    let alarms = contents.alarms();
    for alarm in alarms {
        critical.add(Severity::Critical, alarm);
        major.add(Severity::Major, alarm);
        minor.add(Severity::Minor, alarm);
        warning.add(Severity::Warning, alarm);
        indeterminate.add(Severity::Indeterminate, alarm);
    }
    [
        critical.row(),
        major.row(),
        minor.row(),
        warning.row(),
        indeterminate.row(),
    ]
}

impl Tally {
    fn none() -> Tally
        ensures { result ≡ tally_of [] }
    {
        Tally {
            active: 0,
            active_closed: 0,
            cleared: 0,
            cleared_closed: 0,
        }
    }

    /// Counts the alarm, if it is on the list and of the severity.
    fn add(&mut self, severity: Severity, alarm: &Alarm)
        requires { AreAtMost most_alarms self.old }
        ensures { self.new ≡ tallied severity alarm.now.state self.old }
    {
        if is_selected(severity, alarm) {
            self.count(alarm.cleared(), alarm.is_closed());
        }
    }

    fn count(&mut self, cleared: bool, closed: bool)
        requires { AreAtMost most_alarms self.old }
        ensures { self.new ≡ counted cleared closed self.old }
    {
        match (cleared, closed) {
            (false, false) => self.active += 1,
            (false, true) => self.active_closed += 1,
            (true, false) => self.cleared += 1,
            (true, true) => self.cleared_closed += 1,
        }
    }

    fn row(self) -> [u32; 7]
        requires { AreAtMost most_alarms self }
        ensures { result ≡ row_of self }
    {
        let not_cleared = self.active_closed + self.active;
        let cleared = self.cleared_closed + self.cleared;
        [
            not_cleared + cleared,
            not_cleared,
            cleared,
            self.cleared,
            self.cleared_closed,
            self.active_closed,
            self.active,
        ]
    }
}

/// Whether the alarm is on the list and of the severity.
fn is_selected(severity: Severity, alarm: &Alarm) -> bool
    ensures { result ≡ is_selected severity alarm.now.state }
{
    !alarm.is_shelved() && alarm.severity().rank() == severity.rank()
}
