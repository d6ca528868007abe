//! How fast the recorder in memory appends and selects, when it holds so many recordings.
ghost use Rattle.std.specs.Prelude.{◌<◌, ◌^◌, IfOk};
ghost use Rattle.es_recorder.specs.Insert.{IsInsertable};

use crate::rate;
use es_memory::MemoryRecorder;
use es_model::{Bytes, Cause, Moment, NoMemory, Recording, StoredEvent, StoredEvents, Text};
use es_recorder::{AggregateRecorder, ApplicationRecorder, ProcessRecorder};
use std::alloc::Global;
use std::rt::Clock;
use std::time::Instant;
use uuid::Uuid;

// How many appends and how many selections are timed.
const TIMED: u64 = 100;

// A recording of a command with one event, the first of its originator.
fn recording(alloc: Global, number: u64) -> Result<Recording, NoMemory>
    ensures { IfOk result IsInsertable }
{
    let mut events = StoredEvents::new(alloc);
    events.push(StoredEvent {
        originator_id: Uuid::from_u128(u128::from(number)),
        originator_version: 1,
        topic: Text::from_str(alloc, "Account.Opened")?,
        state: Bytes::from_slice(alloc, b"{\"owner\":\"ann\"}")?,
    })?;
    Ok(Recording {
        cause: Cause::Command {
            text: Bytes::from_slice(alloc, b"{\"do\":\"Account.Open\"}")?,
        },
        at: Moment::nearest(0),
        events,
    })
}

// Adds recordings, from one number up to another.
fn append(
    alloc: Global,
    recorder: &mut MemoryRecorder,
    from: u64,
    upto: u64,
) -> anyhow::Result<()> {
    for number in from..upto {
        recorder.insert(&recording(alloc, number)?)?;
    }
    Ok(())
}

// Selects the events of an originator, or one notification, of numbers over the whole history.
fn select(recorder: &mut MemoryRecorder, held: u64) -> anyhow::Result<u64> {
    let mut found = 0u64;
    for i in 0..TIMED {
        let number = held / TIMED * i;
        let id = Uuid::from_u128(u128::from(number));
        let events = recorder.select_events(id, None, None, false, None)?;
        let notifications = recorder.select_notifications(number, 1)?;
        found = found.saturating_add(events.len() as u64 + notifications.len() as u64);
    }
    Ok(found)
}

// How many are appended and selected in a second, and what was found.
struct Timed {
    appends: u128,
    selections: u128,
    found: u64,
}

// Fills a recorder up to a number, and times appends and selections there.
fn filled(
    rt: &impl Clock,
    alloc: Global,
    recorder: &mut MemoryRecorder,
    upto: u64,
) -> anyhow::Result<Timed> {
    append(alloc, recorder, 0, upto)?;
    let before = Instant::now(rt)?;
    append(alloc, recorder, upto, upto.saturating_add(TIMED))?;
    let appends = rate(TIMED, before.elapsed(rt)?);
    let before = Instant::now(rt)?;
    let found = select(recorder, upto)?;
    let selections = rate(2 * TIMED, before.elapsed(rt)?);
    Ok(Timed {
        appends,
        selections,
        found,
    })
}

// Does so with a new recorder.
fn time(rt: &impl Clock, alloc: Global, upto: u64) -> anyhow::Result<Timed> {
    let mut recorder = MemoryRecorder::new(alloc, (1 << 62) - 1);
    filled(rt, alloc, &mut recorder, upto)
}

/// Fills a recorder up to a number, times appends and selections there, and tells them.
pub(crate) fn measure(
    rt: &(impl Clock + Eprint + Print),
    alloc: Global,
    upto: u64,
) -> anyhow::Result<()> {
    let Timed {
        appends,
        selections,
        found,
    } = time(rt, alloc, upto)?;
    println!(rt; "{upto} recordings: {TIMED} appended, {found} selected")?;
    eprintln!(rt;
        "{:>12} {upto:>9} {appends:>12} {selections:>14}",
        "recorders"
    )?;
    Ok(())
}
