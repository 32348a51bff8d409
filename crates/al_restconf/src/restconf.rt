use crate::machine::answer;
use al_base::Stamp;
use al_disk::Disk;
use al_http::{HttpRequest, Response, Service};
use al_office::journaled::Office;
use std::alloc::{AllocError, Global};

/// Answers requests as the resources of RESTCONF do, over an office and its journal.
#[derive(Drop)]
pub struct Restconf {
    alloc: Global,
}

impl Restconf {
    pub fn new(alloc: Global) -> Restconf {
        Restconf { alloc }
    }
}

impl<D: Disk> Service<Office<D>> for Restconf {
    ghost use Rattle.al_restconf.specs.Machine.{IsAnswer};

    ghost answers = { λ _. IsAnswer };

    fn answer(
        &mut self,
        office: &mut Office<D>,
        origin: u16,
        request: &HttpRequest,
        now: Stamp,
    ) -> Result<Response, AllocError> {
        answer(self.alloc, office, origin, request, now)
    }
}
