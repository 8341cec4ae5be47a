//! What holds of the lines of requests: each law is the contract of a function that does nothing.

ghost use Rattle.wb_requests.specs.Wire.Laws.{ReadsExactly, ReadsLinesExactly, OneRequest, EncodesRequests, ReadsProper, RefusesByTheLeast, ReadsTheFaultless};
ghost use Rattle.wb_requests.specs.Explained.{TellsTheLeast};

/// A JSON value is read as a request exactly where it is that request: an object with the members of the table, each
/// once, in any order, and no others, whose values spell what the table says.
pub fn reads_exactly()
    ensures { ReadsExactly }
{}

/// A line is read as a request exactly where it is UTF-8 that is the JSON of that request.
pub fn reads_lines_exactly()
    ensures { ReadsLinesExactly }
{}

/// A JSON value is at most one request.
pub fn one_request()
    ensures { OneRequest }
{}

/// The canonical object of a request is that request, if it is one that a line can say: what is written is what is meant.
pub fn encodes_requests()
    ensures { EncodesRequests }
{}

/// A request that was read of a line is one that a line can say. So its canonical line is read back as it: what was asked
/// for in any spelling is kept as it was meant.
pub fn reads_proper()
    ensures { ReadsProper }
{}

/// A JSON value that isn't read as a request is answered with the least code of all that is wrong with it: its members
/// aren't those of a request, or the value of a member isn't what it has to spell.
pub fn refuses_by_the_least()
    ensures { RefusesByTheLeast }
{}

/// A JSON value is read as a request exactly where nothing is wrong with it.
pub fn reads_the_faultless()
    ensures { ReadsTheFaultless }
{}

/// What is told of a JSON value that is no request is a fault of it with the least code of all, at the field where it is; of a
/// request nothing is told.
pub fn explains_the_least()
    ensures { TellsTheLeast }
{}
