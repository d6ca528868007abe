ghost use Rattle.std.specs.Prelude.{◌≡◌, ◌≤◌, ◌+◌, ◌-◌, ◌++◌, Some, [], IfOk, drop, length, min, take};
ghost use Rattle.es_model.specs.Causes.{Rose, HasCause};
ghost use Rattle.es_io.specs.Documents.{first_named};
ghost use Rattle.es_io.specs.Readings.{Readings};

use crate::{Clock, Document, Sink, Source};
use es_model::{
    Bytes, CallFault, Calls, Duplicate, Failed, Faults, List, Moment, Moments, NoMemory, Text,
};
use std::alloc::Global;

/// Documents by name. Where a name stands twice, its first entry counts.
pub type Documents = List<(Text, Bytes)>;

/// A source over memory.
#[derive(Drop)]
pub struct MemorySource {
    bytes: Bytes,
    at: usize,
    faults: Faults,
}

impl MemorySource {
    /// A source of these bytes, of which the calls of `read` with these numbers fail.
    pub fn new(bytes: Bytes, failing: Calls) -> MemorySource
        ensures left { ⟦<MemorySource as Source>⟧.left result ≡ Some bytes }
        ensures faults { ⟦<MemorySource as Source>⟧.faults result ≡ 0 }
    {
        MemorySource {
            bytes,
            at: 0,
            faults: Faults::new(failing),
        }
    }
}

// Copies as much as there is room for.
fn copy_front(from: &[u8], into: &mut [u8]) -> usize
    ensures count { result ≡ min (length from.now) (length into.old) }
    ensures bytes { into.new ≡ take result from.now ++ drop result into.old }
{
    let count = from.len().min(into.len());
    into[..count].copy_from_slice(&from[..count]);
    count
}

impl Source for MemorySource {
    ghost use Rattle.std.specs.Prelude.{Some, None, drop};

    ghost left = { λ s. Some (drop s.at s.bytes) };

    ghost faults = { λ s. s.faults };

    ghost documents = { λ _. None };

    fn read(&mut self, into: &mut [u8]) -> Result<usize, Failed> {
        self.faults.call()?;
        let bytes = self.bytes.as_slice();
        if self.at >= bytes.len() {
            return Ok(0);
        }
        let count = copy_front(&bytes[self.at..], into);
        self.at += count;
        Ok(count)
    }
}

/// Documents over memory, of which one is read at a time.
#[derive(Drop)]
pub struct MemoryDocument {
    alloc: Global,
    documents: Documents,
    source: MemorySource,
}

impl MemoryDocument {
    /// These documents, none of them begun, where the calls of `begin` and `read` with these numbers
    /// fail, counted together.
    pub fn new(alloc: Global, documents: Documents, failing: Calls) -> MemoryDocument
        ensures documents { ⟦<MemoryDocument as Source>⟧.documents result ≡ Some (first_named documents) }
        ensures left { ⟦<MemoryDocument as Source>⟧.left result ≡ Some [] }
        ensures faults { ⟦<MemoryDocument as Source>⟧.faults result ≡ 0 }
    {
        MemoryDocument {
            alloc,
            documents,
            source: MemorySource::new(Bytes::new(alloc), failing),
        }
    }
}

// A copy of the first document of a name.
fn find_document(documents: &[(Text, Bytes)], name: &Text) -> Result<Option<Bytes>, NoMemory>
    ensures { IfOk result (λ found. found ≡ first_named documents.now name.now) }
{
    for (known, bytes) in documents {
        if name.as_str() == known.as_str() {
            return Ok(Some(bytes.copy()?));
        }
    }
    Ok(None)
}

impl Source for MemoryDocument {
    ghost use Rattle.std.specs.Prelude.{Some, drop};
    ghost use Rattle.es_io.specs.Documents.{first_named};

    ghost left = { λ d. Some (drop d.source.at d.source.bytes) };

    ghost faults = { λ d. d.source.faults };

    ghost documents = { λ d. Some (first_named d.documents) };

    fn read(&mut self, into: &mut [u8]) -> Result<usize, Failed> {
        self.source.read(into)
    }
}

impl Document for MemoryDocument {
    fn begin(&mut self, name: &Text) -> Result<(), CallFault> {
        if self.source.faults.call().is_err() {
            return Err(CallFault::Failed);
        }
        match find_document(self.documents.as_slice(), name)? {
            Some(bytes) => {
                self.source.bytes = bytes;
                self.source.at = 0;
                Ok(())
            }
            None => {
                let Failed = self.source.faults.fail();
                Err(CallFault::Failed)
            }
        }
    }
}

/// A sink over memory.
#[derive(Drop)]
pub struct MemorySink {
    bytes: Vec<u8>,
    room: u64,
    faults: Faults,
}

impl MemorySink {
    /// A sink with room for so many bytes, of which the calls of `write` and `flush` with these
    /// numbers fail, counted together.
    pub fn new(alloc: Global, room: u64, failing: Calls) -> Result<MemorySink, NoMemory>
        ensures written { IfOk result (λ s. ⟦<MemorySink as Sink>⟧.written s ≡ Some []) }
        ensures faults { IfOk result (λ s. ⟦<MemorySink as Sink>⟧.faults s ≡ 0) }
    {
        Ok(MemorySink {
            bytes: Vec::with_capacity(alloc, room as usize)?,
            room,
            faults: Faults::new(failing),
        })
    }

    /// What was written.
    pub fn bytes(&self) -> &[u8]
        ensures { ⟦<MemorySink as Sink>⟧.written self.now ≡ Some result.now }
    {
        self.bytes.as_slice()
    }
}

impl Sink for MemorySink {
    ghost use Rattle.std.specs.Prelude.{Some};

    ghost written = { λ s. Some s.bytes.items };

    ghost faults = { λ s. s.faults };

    fn write(&mut self, bytes: &[u8]) -> Result<usize, Failed> {
        self.faults.call()?;
        let left = (self.room as usize).saturating_sub(self.bytes.len());
        let count = left.min(bytes.len());
        if count == 0 && !bytes.is_empty() {
            return Err(self.faults.fail());
        }
        match self.bytes.extend_from_slice(&bytes[..count]) {
            Ok(()) => Ok(count),
            Err(_) => Err(self.faults.fail()),
        }
    }

    fn flush(&mut self) -> Result<(), Failed> {
        self.faults.call()
    }
}

/// A clock with readings to give, and one reading for all after them.
#[derive(Drop)]
pub struct ListClock {
    readings: Moments,
    at: usize,
    after: Moment,
}

impl ListClock {
    pub fn new(readings: Moments, after: Moment) -> ListClock
        ensures { ⟦<ListClock as Clock>⟧.readings result ≡ Some (record { next = readings; after = after }) }
    {
        ListClock {
            readings,
            at: 0,
            after,
        }
    }
}

impl Clock for ListClock {
    ghost use Rattle.std.specs.Prelude.{Some, drop};

    ghost readings = { λ c. Some (record { next = drop c.at c.readings; after = c.after }) };

    fn now(&mut self) -> Moment {
        let readings = self.readings.as_slice();
        if self.at < readings.len() {
            let reading = readings[self.at];
            self.at += 1;
            reading
        } else {
            self.after
        }
    }
}
