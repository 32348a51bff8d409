//! From a decision to its entry.

ghost use Rattle.al_base.specs.Limits.{last_stamp};
ghost use Rattle.std.specs.Prelude.{◌≡◌, ◌+◌, ◌<◌, ◌≤◌, max};
ghost use Rattle.al_office.specs.Decisions.{carried_by};

use al_base::Stamp;
use al_model::{Decision, Event, Refusal, Reply};
use std::mem;

/// The event that a decision is to be carried out by, and its reply; or what is answered at once.
pub fn to_carry_out(mut decision: Decision) -> Result<(Event, Reply), Result<Reply, Refusal>>
    ensures { result ≡ carried_by decision }
{
    match &mut decision {
        Decision::Refuse(refusal) => Err(Err(*refusal)),
        Decision::Same(reply) => Err(Ok(*reply)),
        // The decision is let go with another event in it, so that this one isn't copied.
        Decision::Change(event, reply) => Ok((mem::replace(event, Event::SetMax(None)), *reply)),
    }
}

/// The time of the entry after one of this time: that of the clock, but later than the entry before.
pub fn time_after(last: Stamp, now: Stamp) -> Stamp
    requires { last < last_stamp }
    ensures time { result ≡ max now (last + 1) }
    ensures bound { result ≤ last_stamp }
{
    match Stamp::of(now.ms().max(last.ms() + 1)) {
        Some(time) => time,
        None => unreachable!(),
    }
}
