ghost use Rattle.std.specs.Prelude.{◌≡◌, ◌↔◌};

/// What an operator says of an alarm, or what its shelf does to it (RFC 8632, type `operator-state`).
#[derive(Clone, Copy, Debug, PartialEq, Eq)]
pub enum OperatorState {
    /// Nobody has said anything of the alarm, or somebody has taken it back.
    None0,
    Ack,
    Closed,
    Shelved,
    UnShelved,
}

impl OperatorState {
    ghost use Rattle.al_base.specs.Names.{state_name};

    /// All states.
    pub const ALL: [OperatorState; 5] = [
        OperatorState::None0,
        OperatorState::Ack,
        OperatorState::Closed,
        OperatorState::Shelved,
        OperatorState::UnShelved,
    ];

    /// The word that stands for the state in messages.
    pub fn name(self) -> &'static str
        ensures { result.now ≡ state_name self }
    {
        match self {
            OperatorState::None0 => "none",
            OperatorState::Ack => "ack",
            OperatorState::Closed => "closed",
            OperatorState::Shelved => "shelved",
            OperatorState::UnShelved => "un-shelved",
        }
    }

    /// The state of this name, if there is one.
    pub fn read(name: &[u8]) -> Option<OperatorState>
        ensures { (state : OperatorState) → (result ≡ Some state) ↔ (name.now ≡ state_name state) }
    {
        for state in &OperatorState::ALL {
            if state.name().as_bytes() == name {
                return Some(*state);
            }
        }
        None
    }
}
