ghost use Rattle.std.specs.Prelude.{◌≡◌, ◌↔◌};

/// How grave an alarm is (RFC 8632, type `severity`), from the least to the gravest.
#[derive(Clone, Copy, Debug, PartialEq, Eq, PartialOrd, Ord)]
pub enum Severity {
    Indeterminate,
    Warning,
    Minor,
    Major,
    Critical,
}

impl Severity {
    ghost use Rattle.al_base.specs.Names.{rank_of, severity_name};

    /// All severities, from the least to the gravest.
    pub const ALL: [Severity; 5] = [
        Severity::Indeterminate,
        Severity::Warning,
        Severity::Minor,
        Severity::Major,
        Severity::Critical,
    ];

    /// The severity's place from the least, which is 0, to the gravest.
    pub fn rank(self) -> u8
        ensures { result ≡ rank_of self }
    {
        self as u8
    }

    /// The word that stands for the severity in messages.
    pub fn name(self) -> &'static str
        ensures { result.now ≡ severity_name self }
    {
        match self {
            Severity::Indeterminate => "indeterminate",
            Severity::Warning => "warning",
            Severity::Minor => "minor",
            Severity::Major => "major",
            Severity::Critical => "critical",
        }
    }

    /// The severity of this name, if there is one.
    pub fn read(name: &[u8]) -> Option<Severity>
        ensures { (severity : Severity) → (result ≡ Some severity)
            ↔ (name.now ≡ severity_name severity) }
    {
        for severity in &Severity::ALL {
            if severity.name().as_bytes() == name {
                return Some(*severity);
            }
        }
        None
    }
}

/// What a report or a status change says of an alarm (RFC 8632, type `severity-with-clear`).
#[derive(Clone, Copy, Debug, PartialEq, Eq)]
pub enum Status {
    Cleared,
    Active(Severity),
}

impl Status {
    ghost use Rattle.al_base.specs.Names.{status_name};

    /// The word that stands for the status in messages.
    pub fn name(self) -> &'static str
        ensures { result.now ≡ status_name self }
    {
        match self {
            Status::Cleared => "cleared",
            Status::Active(severity) => severity.name(),
        }
    }

    /// The status of this name, if there is one.
    pub fn read(name: &[u8]) -> Option<Status>
        ensures { (status : Status) → (result ≡ Some status) ↔ (name.now ≡ status_name status) }
    {
        if name == b"cleared".as_slice() {
            return Some(Status::Cleared);
        }
        Severity::read(name).map(Status::Active)
    }
}
