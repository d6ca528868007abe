ghost use Rattle.std.specs.Prelude.{◌≡◌, ◌≤◌, length, IfSome};
ghost use Rattle.es_model.specs.Causes.{Rose};

use crate::{Clock, Document, Sink, Source};
use es_model::{CallFault, Failed, Moment, Text};
use std::io::{Read, Write};
use std::rt::{Clock as WallClock, Files};
use std::time::{SystemTime, UNIX_EPOCH};
use std::{fs, io};

/// Standard input. It tells nothing of what is left.
#[derive(Drop)]
pub struct StdSource<R> {
    rt: R,
    faults: u64,
}

impl<R: Input> StdSource<R> {
    pub fn new(rt: R) -> StdSource<R> {
        StdSource { rt, faults: 0 }
    }
}

impl<R: Input> Source for StdSource<R> {
    ghost use Rattle.std.specs.Prelude.{None};

    ghost left = { λ _. None };

    ghost faults = { λ s. s.faults };

    ghost documents = { λ _. None };

    fn read(&mut self, into: &mut [u8]) -> Result<usize, Failed> {
        match self.rt.reader().read(into) {
            Ok(count) => Ok(count),
            Err(_) => {
                self.faults = self.faults.saturating_add(1);
                Err(Failed)
            }
        }
    }
}

/// Standard output. It tells nothing of what was written.
#[derive(Drop)]
pub struct StdSink<R> {
    rt: R,
    faults: u64,
}

impl<R: Print> StdSink<R> {
    pub fn new(rt: R) -> StdSink<R> {
        StdSink { rt, faults: 0 }
    }

    // Counts a fault.
    fn fail(&mut self) -> Failed
        ensures later { self.old.faults ≤ self.new.faults }
        ensures rose { Rose self.old.faults self.new.faults }
    {
        self.faults = self.faults.saturating_add(1);
        Failed
    }
}

impl<R: Print> Sink for StdSink<R> {
    ghost use Rattle.std.specs.Prelude.{None};

    ghost written = { λ _. None };

    ghost faults = { λ s. s.faults };

    fn write(&mut self, bytes: &[u8]) -> Result<usize, Failed> {
        let written = io::writer(&self.rt).write(bytes);
        match written {
            Ok(count) if count > 0 || bytes.is_empty() => Ok(count),
            _ => Err(self.fail()),
        }
    }

    fn flush(&mut self) -> Result<(), Failed> {
        let flushed = io::writer(&self.rt).flush();
        match flushed {
            Ok(()) => Ok(()),
            Err(_) => Err(self.fail()),
        }
    }
}

/// Documents that are files, each named by its path. It tells nothing of what is in them. Before the
/// first document, and after one that couldn't be opened, it is at an end.
#[derive(Drop)]
pub struct FileDocument<R: Files> {
    rt: R,
    file: Option<R::File>,
    faults: u64,
}

impl<R: Files> FileDocument<R> {
    pub fn new(rt: R) -> FileDocument<R> {
        FileDocument {
            rt,
            file: None,
            faults: 0,
        }
    }

    // Counts a fault.
    fn fail(&mut self) -> Failed
        ensures later { self.old.faults ≤ self.new.faults }
        ensures rose { Rose self.old.faults self.new.faults }
    {
        self.faults = self.faults.saturating_add(1);
        Failed
    }

    // Takes bytes of the open file, or tells that it fails.
    fn take(&mut self, into: &mut [u8]) -> Option<usize>
        ensures same_faults { self.new.faults ≡ self.old.faults }
        ensures bound { IfSome result (λ n. n ≤ length into.new) }
    {
        match &mut self.file {
            Some(file) => file.read(into).ok(),
            None => Some(0),
        }
    }
}

impl<R: Files> Source for FileDocument<R> {
    ghost use Rattle.std.specs.Prelude.{None};

    ghost left = { λ _. None };

    ghost faults = { λ s. s.faults };

    ghost documents = { λ _. None };

    fn read(&mut self, into: &mut [u8]) -> Result<usize, Failed> {
        match self.take(into) {
            Some(count) => Ok(count),
            None => Err(self.fail()),
        }
    }
}

impl<R: Files> Document for FileDocument<R> {
    fn begin(&mut self, name: &Text) -> Result<(), CallFault> {
        self.file = fs::open(&self.rt, name.as_str()).ok();
        if self.file.is_none() {
            self.fail();
            return Err(CallFault::Failed);
        }
        Ok(())
    }
}

/// The system's clock. It tells nothing of its readings to come.
#[derive(Drop)]
pub struct SystemClock<R> {
    rt: R,
}

impl<R: WallClock> SystemClock<R> {
    pub fn new(rt: R) -> SystemClock<R> {
        SystemClock { rt }
    }

    // The microseconds since 1970, or none where the system has no reading for them.
    fn micros(&self) -> Option<i64> {
        let now = SystemTime::now(&self.rt).ok()?;
        let since = now.duration_since(UNIX_EPOCH).ok()?;
        Some(i64::try_from(since.as_micros()).unwrap_or(i64::MAX))
    }
}

impl<R: WallClock> Clock for SystemClock<R> {
    ghost use Rattle.std.specs.Prelude.{None};

    ghost readings = { λ _. None };

    /// The nearest moment in range.
    fn now(&mut self) -> Moment {
        let micros = self.micros().unwrap_or(0);
        Moment::nearest(micros)
    }
}
