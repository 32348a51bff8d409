ghost use Rattle.al_restconf.specs.Faults.{Answers};
ghost use Rattle.al_restconf.specs.Methods.{bit_of, has_method, is_bare, method_of, methods_at, one_of};
ghost use Rattle.std.specs.Prelude.{◌≡◌, ◌<◌};

use crate::fault::Fault;
use al_uri::Target;

/// The methods that resources have (RFC 8040, section 4).
#[derive(Clone, Copy, Debug, PartialEq, Eq)]
pub enum Method {
    Delete,
    Get,
    Head,
    Post,
    Put,
}

const GET: u8 = 0b00110;

const GET_AND_PUT: u8 = 0b10110;

const GET_AND_POST: u8 = 0b01110;

const GET_PUT_AND_DELETE: u8 = 0b10111;

const POST: u8 = 0b01000;

impl Method {
    /// The method of that name.
    #[tactic(auto, unfolding(crate::specs::Methods::method_of))]
    pub fn of(name: &[u8]) -> Option<Method>
        ensures { result ≡ method_of name.now }
    {
        if name == b"DELETE".as_slice() {
            Some(Method::Delete)
        } else if name == b"GET".as_slice() {
            Some(Method::Get)
        } else if name == b"HEAD".as_slice() {
            Some(Method::Head)
        } else if name == b"POST".as_slice() {
            Some(Method::Post)
        } else if name == b"PUT".as_slice() {
            Some(Method::Put)
        } else {
            None
        }
    }

    /// Its bit in a set of methods.
    fn bit(self) -> u32
        ensures bit { result ≡ bit_of self }
        ensures within { result < 8 }
    {
        match self {
            Method::Delete => 0,
            Method::Get => 1,
            Method::Head => 2,
            Method::Post => 3,
            Method::Put => 4,
        }
    }

    fn is_in(self, methods: u8) -> bool
        ensures { result ≡ has_method methods self }
    {
        (methods >> self.bit()) % 2 == 1
    }

    /// The method that was named, where the resource has it.
    pub fn at(target: &Target, named: Option<Method>) -> Result<Method, Fault>
        ensures { Answers (one_of (methods_at target.now) named) result }
    {
        let methods = methods(target);
        match named {
            Some(method) if method.is_in(methods) => Ok(method),
            _ => Err(Fault::NoSuchMethod(methods)),
        }
    }
}

/// Whether answers to the method that was named leave their body out.
pub fn is_bare(named: Option<Method>) -> bool
    ensures { result ≡ is_bare named }
{
    match named {
        Some(Method::Head) => true,
        _ => false,
    }
}

/// The methods that the resource has: bits 0 to 4 are DELETE, GET, HEAD, POST, PUT.
fn methods(target: &Target) -> u8
    ensures { result ≡ methods_at target.now }
{
    match target {
        Target::MaxChanges | Target::NotifyMode | Target::NotifyLevel | Target::Inventory => {
            GET_AND_PUT
        }
        Target::Shelving { spot: _ } => GET_AND_POST,
        Target::OneShelf { name: _, spot: _ } => GET_PUT_AND_DELETE,
        Target::SetState { key: _ }
        | Target::PurgeAlarms
        | Target::CompressAlarms
        | Target::PurgeShelved
        | Target::CompressShelved
        | Target::Report => POST,
        _ => GET,
    }
}
