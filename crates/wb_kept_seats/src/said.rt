//! Requests that were read of lines.
ghost use Rattle.std.specs.Prelude.{◌≡◌, ◌≢◌, Ok, Err, IfOk, IfErr};
ghost use Rattle.wb_requests.specs.Requests.{request};
ghost use Rattle.wb_kept_seats.specs.Lines.{IsSaid, IsAhead};

use crate::lines::{Ahead, line_ahead};
use std::alloc::Global;
use std::marker::Model;
use wb_edit::Refusal;
use wb_requests::{Request, read_request};

/// A request that was read of a line, so that a line can say it, and the line of its change, made while no lock is held. Contracts
/// see the request.
#[derive(Drop)]
pub struct Said {
    request: Request,
    ahead: Ahead,
}

impl Model for Said {
    ghost use Rattle.wb_requests.specs.declared.requests.request.Request.{Request};
    ghost use Rattle.wb_kept_seats.specs.Lines.{IsSaid, IsAhead};

    ghost Value = { Request };

    ghost view = { λ s. s.request };

    ghost invariant = { λ s. IsSaid s.request × IsAhead s.request s.ahead };
}

impl Said {
    /// Reads a line as a request, or says why it is none.
    pub fn read(alloc: Global, line: &[u8]) -> Result<Said, Refusal>
        ensures ok { IfOk result (λ said. request line.now ≡ Ok said) }
        ensures err { IfErr result (λ why. why ≢ Refusal.NoMemory → request line.now ≡ Err why) }
    {
        match read_request(alloc, line) {
            Ok(request) => {
                let ahead = line_ahead(alloc, &request);
                Ok(Said { request, ahead })
            }
            Err(why) => Err(why),
        }
    }

    /// The request.
    pub fn request(&self) -> &Request
        ensures request { result.now ≡ self.now }
        ensures said { IsSaid self.now }
    {
        &self.request
    }

    /// The request, and the line of its change, given up.
    pub(crate) fn into_parts(self) -> (Request, Ahead)
        ensures request { result.0 ≡ self }
        ensures said { IsSaid self }
        ensures ahead { IsAhead self result.1 }
    {
        let Said { request, ahead } = self;
        (request, ahead)
    }
}
