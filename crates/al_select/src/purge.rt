ghost use Rattle.al_select.specs.Filters.{facts_of, has_clearance, is_by, is_older, operator_of, purge_takes, same_state, stands, state_of};
ghost use Rattle.al_select.specs.Meets.{MeetsPurge};
ghost use Rattle.std.specs.Option.{option_map_or};
ghost use Rattle.std.specs.Prelude.{◌≡◌, ◌↔◌, true, IsTrue};

use crate::facts::AlarmFacts;
use al_base::{Copied, OperatorState, Severity, Text};
use std::alloc::{AllocError, Global};

/// Which alarms a purge takes by their clearance (RFC 8632, `alarm-clearance-status`).
#[derive(Clone, Copy, Debug, PartialEq, Eq)]
pub enum Clearance {
    Any,
    Cleared,
    NotCleared,
}

/// How an alarm's severity is to stand to a given one.
#[derive(Clone, Copy, Debug, PartialEq, Eq)]
pub enum Compare {
    Below,
    Equal,
    Above,
}

/// Which alarms of its side a purge removes: those that meet all of it (RFC 8632, action `purge-alarms`).
#[derive(Debug)]
pub struct PurgeFilter {
    pub clearance: Clearance,
    /// In milliseconds: the last change has to be longer ago than this.
    pub age: Option<u64>,
    /// How the perceived severity has to stand to this one.
    pub severity: Option<(Compare, Severity)>,
    /// The state of the newest operator entry; an alarm without such entries has `None0`.
    pub state: Option<OperatorState>,
    /// The operator of the newest operator entry; an alarm without such entries has none.
    pub user: Option<Text>,
}

impl Clearance {
    fn allows(self, cleared: bool) -> bool
        ensures { result ≡ has_clearance self cleared }
    {
        match self {
            Clearance::Any => true,
            Clearance::Cleared => cleared,
            Clearance::NotCleared => !cleared,
        }
    }
}

impl Compare {
    /// Whether the severity stands so to the given one.
    fn holds(self, severity: Severity, given: Severity) -> bool
        ensures { result ≡ stands self severity given }
    {
        match self {
            Compare::Below => severity.rank() < given.rank(),
            Compare::Equal => severity.rank() == given.rank(),
            Compare::Above => severity.rank() > given.rank(),
        }
    }
}

impl PurgeFilter {
    #[tactic(auto, unfolding(crate::specs::Filters::purge_takes))]
    /// Whether a purge at the time, in milliseconds since 1970, takes an alarm of these facts.
    pub fn takes(&self, facts: &AlarmFacts, time: u64) -> bool
        ensures value { result ≡ purge_takes self.now (facts_of facts.now) time }
        ensures meaning { IsTrue result ↔ MeetsPurge self.now (facts_of facts.now) time }
    {
        self.clearance.allows(facts.cleared)
            && self.takes_age(facts, time)
            && self.takes_severity(facts.severity)
            && self.takes_state(facts)
            && self.takes_operator(facts)
    }

    fn takes_age(&self, facts: &AlarmFacts, time: u64) -> bool
        ensures { result ≡ option_map_or (is_older time facts.now.changed) self.now.age true }
    {
        match self.age {
            Some(age) => time.saturating_sub(facts.changed.ms()) > age,
            None => true,
        }
    }

    fn takes_severity(&self, severity: Severity) -> bool
        ensures { result ≡ option_map_or (λ s. stands s.0 severity s.1) self.now.severity true }
    {
        match self.severity {
            Some((compare, given)) => compare.holds(severity, given),
            None => true,
        }
    }

    fn takes_state(&self, facts: &AlarmFacts) -> bool
        ensures { result ≡ option_map_or (same_state (state_of (facts_of facts.now))) self.now.state
            true }
    {
        match self.state {
            Some(state) => newest_state(facts) == state,
            None => true,
        }
    }

    fn takes_operator(&self, facts: &AlarmFacts) -> bool
        ensures { result ≡ option_map_or (is_by (operator_of (facts_of facts.now))) self.now.user
            true }
    {
        match (&self.user, facts.newest) {
            (None, _) => true,
            (Some(user), Some((_, operator))) => *operator == *user,
            (Some(_), None) => false,
        }
    }
}

fn newest_state(facts: &AlarmFacts) -> OperatorState
    ensures { result ≡ state_of (facts_of facts.now) }
{
    match facts.newest {
        Some((state, _)) => state,
        None => OperatorState::None0,
    }
}

// By hand, so that an early return has one call for the whole value.
impl Drop for PurgeFilter {
    fn drop(self) {
        let PurgeFilter {
            clearance: _,
            age: _,
            severity: _,
            state: _,
            user: _,
        } = self;
    }
}

impl Copied for Clearance {
    fn copy(&self, _alloc: Global) -> Result<Clearance, AllocError> {
        Ok(*self)
    }
}

impl Copied for Compare {
    fn copy(&self, _alloc: Global) -> Result<Compare, AllocError> {
        Ok(*self)
    }
}

impl Copied for PurgeFilter {
    fn copy(&self, alloc: Global) -> Result<PurgeFilter, AllocError> {
        Ok(PurgeFilter {
            clearance: self.clearance,
            age: self.age,
            severity: self.severity,
            state: self.state,
            user: self.user.copy(alloc)?,
        })
    }
}
