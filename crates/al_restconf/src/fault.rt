ghost use Rattle.al_http.specs.Responses.{HasText};
ghost use Rattle.al_restconf.specs.Faults.{row_of, told};
ghost use Rattle.std.specs.Prelude.{◌≡◌, IfOk, Some};

use al_http::Response;
use al_input::{BodyFault, InputFault};
use al_model::Refusal;
use al_uri::UriFault;
use std::alloc::{AllocError, AllocFailed};

/// Why a request isn't answered by what it asks for. The first that is due is answered.
#[derive(Clone, Copy, Debug, PartialEq, Eq)]
pub enum Fault {
    NoSuchPath,
    BadEscape,
    BadKeys,
    BadQuery,
    /// The resource doesn't have the method, but these: bits 0 to 4 are DELETE, GET, HEAD, POST, PUT.
    NoSuchMethod(u8),
    /// No type of answers is accepted.
    NotAcceptable,
    /// The body is of a type that isn't read.
    UnsupportedType,
    NotJson,
    MissingOperator,
    BadOperator,
    UnknownMember,
    MissingMember,
    BadValue,
    /// Nothing has set the resource.
    NotSet,
    /// The alarm list refuses it.
    Refused(Refusal),
    /// The response's body would be too big.
    TooBig,
    /// There was no memory for the answer.
    Memory,
}

impl From<AllocError> for Fault {
    ghost use Rattle.std.specs.Prelude.{◌≡◌};
    ghost use Rattle.al_restconf.specs.declared.fault.Fault.TheVariants.{Memory};

    ghost from_gives = { λ _ fault. fault ≡ Memory };

    fn from(_error: AllocError) -> Fault {
        Fault::Memory
    }
}

impl<T: Drop> From<AllocFailed<T>> for Fault {
    ghost use Rattle.std.specs.Prelude.{◌≡◌};
    ghost use Rattle.al_restconf.specs.declared.fault.Fault.TheVariants.{Memory};

    ghost from_gives = { λ _ fault. fault ≡ Memory };

    fn from(_error: AllocFailed<T>) -> Fault {
        Fault::Memory
    }
}

impl From<UriFault> for Fault {
    ghost use Rattle.std.specs.Prelude.{◌≡◌};
    ghost use Rattle.al_restconf.specs.Targets.{uri_fault};

    ghost from_gives = { λ uri fault. fault ≡ uri_fault uri };

    fn from(fault: UriFault) -> Fault {
        match fault {
            UriFault::NoSuchPath => Fault::NoSuchPath,
            UriFault::BadEscape => Fault::BadEscape,
            UriFault::BadKeys => Fault::BadKeys,
            UriFault::BadQuery => Fault::BadQuery,
            UriFault::Memory => Fault::Memory,
        }
    }
}

impl From<BodyFault> for Fault {
    ghost use Rattle.std.specs.Prelude.{◌≡◌};
    ghost use Rattle.al_restconf.specs.Bodies.{body_fault};

    ghost from_gives = { λ body fault. fault ≡ body_fault body };

    fn from(fault: BodyFault) -> Fault {
        match fault {
            BodyFault::NotJson => Fault::NotJson,
            BodyFault::Memory => Fault::Memory,
        }
    }
}

impl From<InputFault> for Fault {
    ghost use Rattle.std.specs.Prelude.{◌≡◌};
    ghost use Rattle.al_restconf.specs.Bodies.{input_fault};

    ghost from_gives = { λ input fault. fault ≡ input_fault input };

    fn from(fault: InputFault) -> Fault {
        match fault {
            InputFault::Unknown => Fault::UnknownMember,
            InputFault::Missing => Fault::MissingMember,
            InputFault::BadValue => Fault::BadValue,
            InputFault::Memory => Fault::Memory,
        }
    }
}

impl From<Refusal> for Fault {
    ghost use Rattle.std.specs.Prelude.{◌≡◌};
    ghost use Rattle.al_restconf.specs.Faults.{refused};

    ghost from_gives = { λ refusal fault. fault ≡ refused refusal };

    fn from(refusal: Refusal) -> Fault {
        match refusal {
            Refusal::Memory => Fault::Memory,
            refusal => Fault::Refused(refusal),
        }
    }
}

impl Fault {
    /// The row of the fault in the table of error answers.
    fn row(self) -> u8
        ensures { result ≡ row_of self }
    {
        match self {
            Fault::NoSuchPath => 5,
            Fault::BadEscape => 6,
            Fault::BadKeys => 7,
            Fault::BadQuery => 8,
            Fault::NoSuchMethod(_) => 9,
            Fault::NotJson => 10,
            Fault::MissingOperator => 11,
            Fault::BadOperator => 12,
            Fault::UnknownMember => 13,
            Fault::MissingMember => 14,
            Fault::BadValue => 15,
            Fault::NotSet => 19,
            Fault::Refused(refusal) => refusal.number(),
            Fault::NotAcceptable | Fault::UnsupportedType | Fault::TooBig | Fault::Memory => 29,
        }
    }

    /// How the fault is told. Want of memory is none that is told here.
    pub fn told(self, place: u64) -> Result<Response, AllocError>
        ensures value { IfOk result (λ response. (response ≡ told place self)
            × ¬ (self ≡ Fault.Memory)) }
        ensures place { IfOk result (λ response. response.place ≡ Some place) }
        ensures text { IfOk result HasText }
    {
        match self {
            Fault::NoSuchMethod(allow) => {
                let mut response = Response::of_row(9, Some(place));
                response.allow = allow;
                Ok(response)
            }
            Fault::NotAcceptable => Ok(Response::bodiless(406, Some(place))),
            Fault::UnsupportedType => Ok(Response::bodiless(415, Some(place))),
            Fault::Refused(Refusal::Memory) | Fault::Memory => Err(AllocError),
            fault => Ok(Response::of_row(fault.row(), Some(place))),
        }
    }
}
