//! A connection for a seat, one for which none is free, and what is left of one that was served.
ghost use Rattle.std.specs.Prelude.{◌≡◌, true, false};

use crate::trace::Trace;

/// A connection that came for a seat. It can't be dropped.
pub struct Visit<I, O> {
    reader: I,
    writer: O,
    trace: Option<Trace>,
}

impl<I, O> Visit<I, O> {
    /// A connection with this reader and this writer.
    pub fn of(reader: I, writer: O) -> Visit<I, O>
        ensures { (result.reader ≡ reader) × (result.writer ≡ writer) }
    {
        Visit {
            reader,
            writer,
            trace: None,
        }
    }

    /// A connection whose reader and writer note what is to be told of it.
    pub(crate) fn traced(reader: I, writer: O, trace: Trace) -> Visit<I, O>
        ensures { (result.reader ≡ reader) × (result.writer ≡ writer) }
    {
        Visit {
            reader,
            writer,
            trace: Some(trace),
        }
    }

    /// The reader and the writer, and what is left of the connection then.
    pub fn into_parts(self) -> (I, O, Left)
        ensures { (result.0 ≡ self.reader) × (result.1 ≡ self.writer) × (result.2.is_last ≡ false) }
    {
        let Visit {
            reader,
            writer,
            trace,
        } = self;
        let left = Left {
            is_last: false,
            trace,
        };
        (reader, writer, left)
    }
}

/// What is left of a connection that was served. It can't be dropped.
pub struct Left {
    is_last: bool,
    trace: Option<Trace>,
}

impl Left {
    /// What is left of a connection after which nobody is to come any more.
    pub fn as_last(self) -> Left
        ensures { result.is_last ≡ true }
    {
        let Left { is_last: _, trace } = self;
        Left {
            is_last: true,
            trace,
        }
    }

    /// What was noted of it, if anything was.
    pub fn trace(&self) -> Option<&Trace> {
        self.trace.as_ref()
    }

    /// It leaves: whether nobody is to come any more.
    pub fn leave(self) -> bool
        ensures { result ≡ self.is_last }
    {
        let Left { is_last, trace: _ } = self;
        is_last
    }
}

/// A connection for which no seat is free. It can't be dropped.
pub struct Surplus<O> {
    writer: O,
}

impl<O> Surplus<O> {
    /// A connection with this writer.
    pub fn of(writer: O) -> Surplus<O>
        ensures { result.writer ≡ writer }
    {
        Surplus { writer }
    }

    /// The writer.
    pub(crate) fn into_writer(self) -> O
        ensures { result ≡ self.writer }
    {
        let Surplus { writer } = self;
        writer
    }
}
