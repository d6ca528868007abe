ghost use Rattle.std.specs.Prelude.{◌≡◌, ◌≤◌, ◌<◌, [], Some, false, length, slice_index_or, OnOk, OnSome, IfOk, IfSome, IfNone};
ghost use Rattle.es_model.specs.History.{log};
ghost use Rattle.es_memory.specs.Contents.{histories_of, snapshots_of, flag_of, place_of, AreFormed};

use crate::MemoryRecorder;
use crate::content::{Content, Contents, place};
use crate::history::count_events;
use es_model::{
    CallFault, Calls, Duplicate, Failed, Faults, List, NoMemory, Recordings, Snapshots, Text,
};
use es_recorder::Stores;
use std::alloc::Global;
use std::mem;

/// Stores in memory. They fail only at the listed calls of `open`, and at an entry that is out.
#[derive(Drop)]
pub struct MemoryStores {
    alloc: Global,
    contents: Vec<Content>,
    out: Vec<bool>,
    faults: Faults,
    ghost formed: { AreFormed contents.items },
    ghost flags: { length out.items ≤ length contents.items },
}

impl MemoryStores {
    /// Stores that hold these contents, of which the calls of `open` with these numbers fail.
    pub fn new(alloc: Global, contents: Contents, failing: Calls) -> MemoryStores
        requires { AreFormed contents }
        ensures held { ⟦<MemoryStores as Stores>⟧.held result ≡ Some (histories_of contents) }
        ensures snapshots { ⟦<MemoryStores as Stores>⟧.snapshots result ≡ Some (snapshots_of contents) }
        ensures out { (name : _) → ⟦<MemoryStores as Stores>⟧.out result name ≡ false }
        ensures faults { ⟦<MemoryStores as Stores>⟧.faults result ≡ 0 }
    {
        MemoryStores {
            alloc,
            contents: contents.into_vec(),
            out: Vec::new(alloc),
            faults: Faults::new(failing),
        }
    }
}

// The place of a name's entry, which is added empty where there is none.
fn entry_of(alloc: Global, contents: &mut Vec<Content>, app: &Text) -> Result<usize, NoMemory>
    ensures place { IfOk result (λ at. at ≡ place_of contents.new.items app.now) }
    ensures within { IfOk result (λ at. at < length contents.new.items) }
    ensures histories { histories_of contents.new.items ≡ histories_of contents.old.items }
    ensures snapshots { snapshots_of contents.new.items ≡ snapshots_of contents.old.items }
    ensures formed { AreFormed contents.old.items → AreFormed contents.new.items }
    ensures flags { (flags : _) (name : _) → length flags ≤ length contents.old.items → flag_of contents.new.items flags name ≡ flag_of contents.old.items flags name }
    ensures longer { length contents.old.items ≤ length contents.new.items }
{
    let at = place(contents.as_slice(), app);
    if at < contents.len() {
        return Ok(at);
    }
    contents.push(Content {
        app: app.copy()?,
        recordings: List::new(alloc),
        snapshots: Snapshots::new(alloc),
    })?;
    Ok(at)
}

// Adds flags that are down, up to so many.
fn add_flags(flags: &mut Vec<bool>, count: usize) -> Result<(), NoMemory>
    ensures same { (at : _) → slice_index_or flags.new.items at false ≡ slice_index_or flags.old.items at false }
    ensures enough { OnOk result (count ≤ length flags.new.items) }
    ensures bound { length flags.old.items ≤ count → length flags.new.items ≤ count }
{
    while flags.len() < count {
        flags.push(false)?;
    }
    Ok(())
}

// Whether the flag of a name's entry is up.
fn is_raised(contents: &[Content], flags: &[bool], app: &Text) -> bool
    ensures { result ≡ flag_of contents.now flags.now app.now }
{
    let at = place(contents, app);
    at < flags.len() && flags[at]
}

// What is taken out of an entry, with the number of its events.
struct Taken {
    history: Recordings,
    snapshots: Snapshots,
    events: u64,
}

// Takes the history and the snapshots out of an entry.
fn take_out(alloc: Global, content: &mut Content) -> Option<Taken>
    ensures app { content.new.app ≡ content.old.app }
    ensures history { IfSome result (λ t. t.history ≡ content.old.recordings) }
    ensures snapshots { IfSome result (λ t. t.snapshots.items ≡ content.old.snapshots.items) }
    ensures counted { IfSome result (λ t. t.events ≡ length (log t.history)) }
    ensures left { OnSome result (content.new.recordings ≡ []) }
    ensures refused { IfNone result (content.new ≡ content.old) }
{
    let events = count_events(content.recordings.as_slice())?;
    let history = mem::replace(&mut content.recordings, List::new(alloc));
    let snapshots = mem::replace(&mut content.snapshots, Snapshots::new(alloc));
    Some(Taken {
        history,
        snapshots,
        events,
    })
}

impl Stores for MemoryStores {
    ghost use Rattle.std.specs.Prelude.{Some};
    ghost use Rattle.es_recorder.specs.Stable.{IsPrefix-same};
    ghost use Rattle.es_memory.specs.Contents.{histories_of, snapshots_of, flag_of, histories_of-formed, snapshots_of-once};

    type R = MemoryRecorder;

    ghost held = { λ s. Some (histories_of s.contents.items) };

    ghost stable = { λ s. Some (histories_of s.contents.items) };

    ghost snapshots = { λ s. Some (snapshots_of s.contents.items) };

    ghost out = { λ s. flag_of s.contents.items s.out.items };

    ghost faults = { λ s. s.faults };

    ghost formed = { λ s. histories_of-formed s.contents.items s.formed };

    ghost stable_is_front = { λ s name. IsPrefix-same (histories_of s.contents.items name) };

    ghost snapshots_once = { λ s. snapshots_of-once s.contents.items };

    fn open(
        &mut self,
        _place: Option<&Text>,
        app: &Text,
        capacity: u64,
    ) -> Result<MemoryRecorder, CallFault> {
        if self.faults.call().is_err() {
            return Err(CallFault::Failed);
        }
        if is_raised(self.contents.as_slice(), self.out.as_slice(), app) {
            let Failed = self.faults.fail();
            return Err(CallFault::Failed);
        }
        let at = entry_of(self.alloc, &mut self.contents, app)?;
        add_flags(&mut self.out, self.contents.len())?;
        let content = &mut self.contents[at];
        let Some(taken) = take_out(self.alloc, content) else {
            return Err(CallFault::NoMemory);
        };
        let Taken {
            history,
            snapshots,
            events,
        } = taken;
        self.out[at] = true;
        Ok(MemoryRecorder::of_counted(self.alloc, history, snapshots, events, capacity))
    }

    fn close(&mut self, app: &Text, recorder: MemoryRecorder) {
        let (history, snapshots) = recorder.into_parts();
        let at = place(self.contents.as_slice(), app);
        if at < self.out.len() && self.out[at] {
            let entry = &mut self.contents[at];
            entry.recordings = history;
            entry.snapshots = snapshots;
            self.out[at] = false;
        }
    }
}
