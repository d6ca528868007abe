//! Cases of lines: what one asks of the base, or its fault.

use crate::documents;
use es_domain::Command;
use es_lines::{LineFault, Request, command_text, read_line};
use es_model::{Duplicate, System, Text};
use es_suite::given;
use es_suite::told::{self, Members};
use serde_json::Value;
use std::alloc::Global;
use uuid::Uuid;

// What a line is answered where it asks nothing.
fn faulty(alloc: Global, fault: LineFault) -> anyhow::Result<Value> {
    match fault {
        LineFault::Syntax => told::fault(alloc, "syntax"),
        LineFault::Unknown => told::fault(alloc, "unknown"),
        LineFault::Kind => told::fault(alloc, "kind"),
        LineFault::NoMemory => told::no_memory(),
    }
}

// The canonical text of a command.
fn text(alloc: Global, app: &Text, command: &Command) -> anyhow::Result<Value> {
    let text = command_text(alloc, app, &command.copy()?)?;
    let mut told = Members::new(alloc);
    told.put_bytes("text", text.as_slice());
    told.end()
}

// An aggregate of an application, at a version if one is asked for.
fn aggregate(alloc: Global, app: &Text, id: Uuid, version: Option<u64>) -> anyhow::Result<Value> {
    let mut told = Members::new(alloc);
    told.put("app", app.as_str());
    told.put_id("get", id);
    match version {
        Some(version) => told.put("version", version),
        None => told.put("version", Value::Null),
    }
    told.end()
}

// An aggregate of an application, whose snapshot is asked for.
fn snapshot(alloc: Global, app: &Text, id: Uuid) -> anyhow::Result<Value> {
    let mut told = Members::new(alloc);
    told.put("app", app.as_str());
    told.put_id("snapshot", id);
    told.end()
}

// Something of an application that a text says.
fn of_app(alloc: Global, app: &Text, name: &str, text: &Text) -> anyhow::Result<Value> {
    let mut told = Members::new(alloc);
    told.put("app", app.as_str());
    told.put(name, text.as_str());
    told.end()
}

fn word(alloc: Global, word: &str) -> anyhow::Result<Value> {
    let mut told = Members::new(alloc);
    told.put(word, true);
    told.end()
}

// What a line asks, a command as its canonical text.
fn asked(alloc: Global, request: &Request) -> anyhow::Result<Value> {
    match request {
        Request::Do { app, command } => text(alloc, app, command),
        Request::Get { app, id, version } => aggregate(alloc, app, *id, *version),
        Request::Log { app, section } => of_app(alloc, app, "log", section),
        Request::Tracking { app, leader } => of_app(alloc, app, "tracking", leader),
        Request::Snapshot { app, id } => snapshot(alloc, app, *id),
        Request::Sync => word(alloc, "sync"),
        Request::Stop => word(alloc, "stop"),
    }
}

// What a line asks of a system.
fn asked_of(alloc: Global, sys: &System, line: &[u8]) -> anyhow::Result<Value> {
    match read_line(alloc, sys, line) {
        Ok(request) => asked(alloc, &request),
        Err(fault) => faulty(alloc, fault),
    }
}

/// The answer of a case.
pub(crate) fn answer(alloc: Global, base: &Value, case: &Value) -> anyhow::Result<Value> {
    let line = given::bytes(alloc, given::member(case, "line")?)?;
    let sys = documents::system(alloc, base)?;
    asked_of(alloc, &sys, line.as_slice())
}
