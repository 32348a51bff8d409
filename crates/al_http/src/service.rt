use crate::request::HttpRequest;
use crate::response::Response;
use al_base::Stamp;
use al_model::Kept;
use std::alloc::AllocError;

/// What answers requests over what keeps a history.
pub trait Service<T: Kept>: Drop {
    ghost use Rattle.std.specs.Prelude.{◌≡◌, Some, length, IfOk, OnErr};
    ghost use Rattle.al_http.specs.Responses.{HasText};
    ghost use Rattle.al_http.specs.Services.{Answers, Adds};
    ghost use Rattle.al_http.specs.Shown.{message_of};

    /// What the service may answer.
    ghost answers: { Self → Answers };

    /// Answers a request of an origin at a reading of the clock. For want of memory there is no answer, and the history is as it was.
    fn answer(
        &mut self,
        kept: &mut T,
        origin: u16,
        request: &HttpRequest,
        now: Stamp,
    ) -> Result<Response, AllocError>
        ensures same { self.new ≡ self.old }
        ensures answered { IfOk result (λ response.
            answers self.old (T.mark kept.old) origin (message_of request.now) now response
            (T.mark kept.new)) }
        ensures adds { Adds origin (T.mark kept.old) (T.mark kept.new) }
        ensures place { IfOk result (λ response.
            response.place ≡ Some (length (T.mark kept.old).entries)) }
        ensures text { IfOk result HasText }
        ensures unanswered { OnErr result ((T.mark kept.new).entries ≡ (T.mark kept.old).entries) };
}
