ghost use Rattle.std.specs.Prelude.{◌≡◌};
ghost use Rattle.al_lists.specs.Verdicts.{is_change, judged, room_for};

use al_base::Stamp;
use al_contents::Contents;
use al_model::{Refusal, Reply};

/// What is to become of a request, all but the event that carries it out. It can't fail, whatever memory there is.
#[derive(Clone, Copy, Debug)]
pub(crate) enum Verdict {
    /// It can't be carried out.
    Refuse(Refusal),
    /// It would change nothing.
    Same(Reply),
    /// It is carried out.
    Change(Reply),
}

impl Verdict {
    pub(crate) fn is_change(self) -> bool
        ensures { result ≡ is_change self }
    {
        match self {
            Verdict::Change(_) => true,
            Verdict::Refuse(_) | Verdict::Same(_) => false,
        }
    }
}

/// The verdict by the points of a decision in their order: what refuses it for what it is about, whether it changes anything, and what
/// it has no room for.
pub(crate) fn judge(
    refused: Option<Refusal>,
    changing: bool,
    room: Option<Refusal>,
    reply: Reply,
) -> Verdict
    ensures { result ≡ judged refused changing room reply }
{
    match (refused, changing, room) {
        (Some(refusal), _, _) => Verdict::Refuse(refusal),
        (None, false, _) => Verdict::Same(reply),
        (None, true, Some(refusal)) => Verdict::Refuse(refusal),
        (None, true, None) => Verdict::Change(reply),
    }
}

/// What there is no room for: the alarms, the shelves, or a later entry.
pub(crate) fn room(contents: &Contents, alarms_fit: bool, shelves_fit: bool) -> Option<Refusal>
    ensures { result ≡ room_for alarms_fit shelves_fit contents.now.state.time }
{
    if !alarms_fit {
        return Some(Refusal::AlarmsFull);
    }
    if !shelves_fit {
        return Some(Refusal::ShelvesFull);
    }
    if contents.time().ms() == Stamp::LAST.ms() {
        Some(Refusal::ClockEnd)
    } else {
        None
    }
}
