//! Cases of stores in memory: which contents are formed, and what becomes of recorders that are opened
//! and closed.

ghost use Rattle.std.specs.Prelude.{◌≡◌, IfOk};
ghost use Rattle.es_memory.specs.Contents.{AreFormed};

use crate::snapshots::snapshots;
use crate::systems::failing;
use anyhow::Context;
use es_memory::{Content, Contents, MemoryRecorder, MemoryStores, are_formed, is_formed};
use es_model::limits::NUMBERS_END;
use es_model::{List, Text};
use es_recorder::Stores;
use es_steps::recordings::history;
use es_steps::steps;
use es_suite::given;
use es_suite::told::{self, Items, Members};
use serde_json::Value;
use std::alloc::Global;

// What is held for an application.
fn content(alloc: Global, row: &Value) -> anyhow::Result<Content> {
    let recordings = history(alloc, given::items_if_any(row, "held"))?;
    let app = given::owned(alloc, row, "app")?;
    let snapshots = snapshots(alloc, row)?;
    Ok(Content {
        app,
        recordings,
        snapshots,
    })
}

// What is held for each application.
fn contents(alloc: Global, rows: &[Value]) -> anyhow::Result<Contents> {
    let mut contents: Contents = List::new(alloc);
    for row in rows {
        contents.push(content(alloc, row)?)?;
    }
    Ok(contents)
}

// Whether the recordings of each content are formed.
fn each(alloc: Global, contents: &Contents) -> Items {
    let mut each = Items::new(alloc);
    for content in contents.as_slice() {
        each.put(is_formed(&content.recordings));
    }
    each
}

/// Which contents are formed, each of them and all together.
pub(crate) fn formed(alloc: Global, case: &Value) -> anyhow::Result<Value> {
    let contents = contents(alloc, given::items(case, "formed")?)?;
    let mut told = Members::new(alloc);
    told.put("all", are_formed(&contents));
    told.put_items("each", each(alloc, &contents));
    told.end()
}

/// The stores of a case, with what they hold, and the calls of `open` that fail.
pub(crate) fn stores(alloc: Global, case: &Value) -> anyhow::Result<MemoryStores> {
    let failing = failing(alloc, case, "stores")?;
    let contents = contents(alloc, given::items_if_any(case, "contents"))?;
    if are_formed(&contents) {
        Ok(MemoryStores::new(alloc, contents, failing))
    } else {
        Err(anyhow::anyhow!("contents that aren't formed"))
    }
}

// Recorders that were opened, by the names under which they were.
type Hands = Vec<(Text, MemoryRecorder)>;

// The place at which a step opens a recorder, if it names one.
fn place(alloc: Global, step: &Value) -> anyhow::Result<Option<Text>> {
    match step.get("place") {
        Some(_) => Ok(Some(given::owned(alloc, step, "place")?)),
        None => Ok(None),
    }
}

fn open(
    alloc: Global,
    stores: &mut MemoryStores,
    hands: &mut Hands,
    step: &Value,
) -> anyhow::Result<Value> {
    let capacity = given::number_or(step, "capacity", 9);
    if capacity >= NUMBERS_END {
        return Err(anyhow::anyhow!("too great a capacity"));
    }
    let app = given::owned(alloc, step, "open")?;
    let place = place(alloc, step)?;
    match stores.open(place.as_ref(), &app, capacity) {
        Ok(recorder) => {
            hands.push((app, recorder))?;
            told::text(alloc, "opened")
        }
        Err(fault) => told::failed(alloc, &fault),
    }
}

// The place of a recorder that was opened under a name.
fn place_of(hands: &Hands, name: &str) -> anyhow::Result<usize> {
    let place = hands.iter().position(|hand| hand.0.as_str() == name);
    place.context("no such recorder")
}

// Closes an application with the recorder that was opened under a name, or under its own.
fn close(
    alloc: Global,
    stores: &mut MemoryStores,
    hands: &mut Hands,
    step: &Value,
) -> anyhow::Result<Value> {
    let app = given::owned(alloc, step, "close")?;
    let name = step.get("recorder").and_then(Value::as_str);
    let place = place_of(hands, name.unwrap_or(app.as_str()))?;
    if place >= hands.len() {
        return Err(anyhow::anyhow!("no such recorder"));
    }
    let (_, recorder) = hands.swap_remove(place);
    stores.close(&app, recorder);
    told::text(alloc, "closed")
}

// A step of the recorder that was opened under a name.
fn within(alloc: Global, hands: &mut Hands, step: &Value) -> anyhow::Result<Value> {
    let place = place_of(hands, given::text(step, "in")?)?;
    let hand = hands.get_mut(place).context("no such recorder")?;
    steps::answer(alloc, &mut hand.1, step)
}

// What is answered to a step.
fn stepped(
    alloc: Global,
    stores: &mut MemoryStores,
    hands: &mut Hands,
    step: &Value,
) -> anyhow::Result<Value> {
    if step.get("open").is_some() {
        open(alloc, stores, hands, step)
    } else if step.get("close").is_some() {
        close(alloc, stores, hands, step)
    } else {
        within(alloc, hands, step)
    }
}

/// What is answered to each step.
pub(crate) fn answer(alloc: Global, case: &Value) -> anyhow::Result<Value> {
    let mut stores = stores(alloc, case)?;
    let mut hands = Vec::new(alloc);
    let mut answers = Items::new(alloc);
    for step in given::items(case, "stores")? {
        answers.put(stepped(alloc, &mut stores, &mut hands, step)?);
    }
    answers.end()
}
