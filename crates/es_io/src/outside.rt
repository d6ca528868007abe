ghost use Rattle.std.specs.Prelude.{◌≡◌, ◌<◌, List, ℕ, Option, length, IfOk, OnOk, OnErr};
ghost use Rattle.std.specs.Io.{ReadsAtMost, WritesAtMost};
ghost use Rattle.std.specs.Io.KnownBytes.{ReadConsumes, WriteAppends, Appends, Keeps};
ghost use Rattle.es_model.specs.Causes.{HasCause, CallHasCause, Rose};
ghost use Rattle.es_model.specs.Values.{Name};
ghost use Rattle.es_io.specs.Documents.{NamedDocuments, Begins};
ghost use Rattle.es_io.specs.Front.{AppendsFront};
ghost use Rattle.es_io.specs.Readings.{Readings, Reads, GoesOn};

use es_model::{CallFault, Failed, Moment, Text};

/// Where bytes come from.
pub trait Source {
    /// The bytes that are left, where they are told.
    ghost left: { Self → Option (List ℕ) };

    /// How often it has failed.
    ghost faults: { Self → ℕ };

    /// The documents that it can begin, where they are told. A plain source has none to tell.
    ghost documents: { Self → Option NamedDocuments };

    /// Takes bytes into the front of a buffer, and says how many: none, for a buffer that isn't
    /// empty, exactly at the end.
    fn read(&mut self, into: &mut [u8]) -> Result<usize, Failed>
        ensures bound { ReadsAtMost result into.new }
        ensures bytes { ReadConsumes (left self.old) (left self.new) result into.new }
        ensures same_documents { documents self.new ≡ documents self.old }
        ensures cause { HasCause (faults self.old) (faults self.new) result };
}

/// A source of named documents, of which one is read at a time.
pub trait Document: Source {
    /// Goes to the start of a document. Where it can't, it stays where it was.
    fn begin(&mut self, name: &Text) -> Result<(), CallFault>
        ensures begins { Begins (Self.documents self.old) name.now (Self.left self.new) result }
        ensures refused { OnErr result (Self.left self.new ≡ Self.left self.old) }
        ensures same_documents { Self.documents self.new ≡ Self.documents self.old }
        ensures cause { CallHasCause (Self.faults self.old) (Self.faults self.new) result };
}

/// Where bytes go.
pub trait Sink {
    /// The bytes that were written, where they are told.
    ghost written: { Self → Option (List ℕ) };

    /// How often it has failed.
    ghost faults: { Self → ℕ };

    /// Writes a front of the bytes, and says how long it is. To take nothing of bytes that aren't
    /// empty counts as a fault.
    fn write(&mut self, bytes: &[u8]) -> Result<usize, Failed>
        ensures bound { WritesAtMost result bytes.now }
        ensures bytes { WriteAppends (written self.old) (written self.new) result bytes.now }
        ensures nothing { 0 < length bytes.now → IfOk result (λ n. n ≡ 0 → Rose (faults self.old) (faults self.new)) }
        ensures cause { HasCause (faults self.old) (faults self.new) result };

    /// Hands on what was written.
    fn flush(&mut self) -> Result<(), Failed>
        ensures bytes { Keeps (written self.old) (written self.new) }
        ensures cause { HasCause (faults self.old) (faults self.new) result };
}

/// What tells the moment. It can't fail.
pub trait Clock {
    /// The readings to come, where they are told.
    ghost readings: { Self → Option Readings };

    fn now(&mut self) -> Moment
        ensures reading { Reads (readings self.old) result }
        ensures rest { GoesOn (readings self.old) (readings self.new) };
}

/// Writes all bytes, or only a front of them where the sink fails.
pub fn write_all<T: Sink>(sink: &mut T, bytes: &[u8]) -> Result<(), Failed>
    ensures all { OnOk result (Appends (T.written sink.old) (T.written sink.new) bytes.now) }
    ensures front { OnErr result (AppendsFront (T.written sink.old) (T.written sink.new) bytes.now) }
    ensures cause { HasCause (T.faults sink.old) (T.faults sink.new) result }
{
    let mut rest = bytes;
    while !rest.is_empty() {
        let count = sink.write(rest)?;
        if count == 0 {
            return Err(Failed);
        }
        rest = &rest[count..];
    }
    Ok(())
}
