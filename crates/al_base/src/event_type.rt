ghost use Rattle.std.specs.Prelude.{◌≡◌, ◌↔◌};

/// What kind of event an alarm is about (X.733 and X.736, as in `ietf-alarms-x733`).
#[derive(Clone, Copy, Debug, PartialEq, Eq)]
pub enum EventType {
    Other,
    CommunicationsAlarm,
    QualityOfServiceAlarm,
    ProcessingErrorAlarm,
    EquipmentAlarm,
    EnvironmentalAlarm,
    IntegrityViolation,
    OperationalViolation,
    PhysicalViolation,
    SecurityServiceOrMechanismViolation,
    TimeDomainViolation,
}

impl EventType {
    ghost use Rattle.al_base.specs.Names.{event_type_name};

    /// All event types.
    pub const ALL: [EventType; 11] = [
        EventType::Other,
        EventType::CommunicationsAlarm,
        EventType::QualityOfServiceAlarm,
        EventType::ProcessingErrorAlarm,
        EventType::EquipmentAlarm,
        EventType::EnvironmentalAlarm,
        EventType::IntegrityViolation,
        EventType::OperationalViolation,
        EventType::PhysicalViolation,
        EventType::SecurityServiceOrMechanismViolation,
        EventType::TimeDomainViolation,
    ];

    /// The word that stands for the event type in messages.
    pub fn name(self) -> &'static str
        ensures { result.now ≡ event_type_name self }
    {
        match self {
            EventType::Other => "other",
            EventType::CommunicationsAlarm => "communications-alarm",
            EventType::QualityOfServiceAlarm => "quality-of-service-alarm",
            EventType::ProcessingErrorAlarm => "processing-error-alarm",
            EventType::EquipmentAlarm => "equipment-alarm",
            EventType::EnvironmentalAlarm => "environmental-alarm",
            EventType::IntegrityViolation => "integrity-violation",
            EventType::OperationalViolation => "operational-violation",
            EventType::PhysicalViolation => "physical-violation",
            EventType::SecurityServiceOrMechanismViolation =>
                "security-service-or-mechanism-violation",
            EventType::TimeDomainViolation => "time-domain-violation",
        }
    }

    /// The event type of this name, if there is one.
    pub fn read(name: &[u8]) -> Option<EventType>
        ensures { (event_type : EventType) → (result ≡ Some event_type)
            ↔ (name.now ≡ event_type_name event_type) }
    {
        for event_type in &EventType::ALL {
            if event_type.name().as_bytes() == name {
                return Some(*event_type);
            }
        }
        None
    }
}
