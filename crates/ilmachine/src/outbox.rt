//! The requests of a scan.

use gearcmd::Request;
use limits::MOST_REQUESTS;
use std::marker::Model;

/// The requests that one scan makes, in the order of their calls. It takes no memory.
#[derive(Drop)]
pub(crate) struct Outbox {
    requests: [Request; MOST_REQUESTS],
    count: usize,
}

impl Model for Outbox {
    ghost use Rattle.std.specs.Prelude.{List, take, ◌≤◌};
    ghost use Rattle.limits.specs.Limits.{most_requests};
    ghost use Rattle.gearcmd.specs.declared.requests.Request.{Request};

    ghost Value = { List Request };

    ghost view = { λ o. take o.count o.requests };

    ghost invariant = { λ o. o.count ≤ most_requests };
}

impl Outbox {
    ghost use Rattle.std.specs.Prelude.{◌≡◌, ◌<◌, ◌≤◌, ◌++◌, [], ◌∷◌, length};
    ghost use Rattle.limits.specs.Limits.{most_requests};

    /// An outbox without requests.
    pub(crate) fn new() -> Outbox
        ensures { result ≡ [] }
    {
        Outbox {
            requests: [Request::default(); MOST_REQUESTS],
            count: 0,
        }
    }

    /// Puts a request last.
    pub(crate) fn push(&mut self, request: Request)
        requires { length self.old < most_requests }
        ensures { self.new ≡ self.old ++ request ∷ [] }
    {
        self.requests[self.count] = request;
        self.count += 1;
    }

    /// The requests.
    pub(crate) fn requests(&self) -> &[Request]
        ensures value { result.now ≡ self.now }
        ensures few { length result.now ≤ most_requests }
    {
        &self.requests[..self.count]
    }
}
