//! What a recorder over a store in memory answers to the steps of a case. Besides those of a
//! recorder, a step may open the store again, run other statements on it, or ask what is in its
//! tables.

ghost use Rattle.std.specs.Prelude.{◌≡◌, IfOk};

use es_model::CallFault;
use es_model::limits::NUMBERS_END;
use es_sqlite::SqliteRecorder;
use es_steps::steps;
use es_suite::given;
use es_suite::told::{Items, Members};
use serde_json::Value;
use sqlite::types::ValueRef;
use sqlite::{Connection, MemStore, Row};
use std::alloc::Global;

// A recorder that is at work, or the connection that none was made over.
#[derive(Drop)]
enum Session {
    Open(SqliteRecorder<MemStore>),
    Shut(Connection<MemStore>),
}

fn connection(session: Session) -> Connection<MemStore> {
    match session {
        Session::Open(recorder) => recorder.release(),
        Session::Shut(connection) => connection,
    }
}

// Why no recorder was made, with how many faults were counted.
fn refused(alloc: Global, fault: &CallFault, count: u64) -> Items {
    let mut told = Items::new(alloc);
    match fault {
        CallFault::Failed => told.put("failed"),
        CallFault::NoMemory => told.put("out of memory"),
    }
    told.put(count);
    told
}

// Makes a recorder over a connection, and answers how that went.
fn adopted(
    alloc: Global,
    connection: Connection<MemStore>,
    capacity: u64,
    answers: &mut Items,
) -> anyhow::Result<Session> {
    if capacity >= NUMBERS_END {
        return Err(anyhow::anyhow!("too great a capacity"));
    }
    let mut count = 0u64;
    match SqliteRecorder::adopt(alloc, connection, capacity, &mut count) {
        Ok(recorder) => {
            answers.put("opened");
            Ok(Session::Open(recorder))
        }
        Err((connection, fault)) => {
            answers.put_items(refused(alloc, &fault, count));
            Ok(Session::Shut(connection))
        }
    }
}

// Bytes as the text that they are, or as their number.
fn blob(alloc: Global, bytes: &[u8]) -> Members {
    let mut told = Members::new(alloc);
    match str::from_utf8(bytes) {
        Ok(text) => told.put("bytes", text),
        Err(_) => told.put("bytes", bytes.len() as u64),
    }
    told
}

// Tells the value of a column.
fn put_value(alloc: Global, told: &mut Items, value: ValueRef<'_>) {
    match value {
        ValueRef::Int(number) => told.put(number),
        ValueRef::Text(bytes) => told.put_bytes(bytes),
        ValueRef::Blob(bytes) => told.put_members(blob(alloc, bytes)),
        _ => told.put(Value::Null),
    }
}

fn row(alloc: Global, row: &Row) -> anyhow::Result<Items> {
    let mut columns = Items::new(alloc);
    for at in 0..row.column_count() {
        put_value(alloc, &mut columns, row.get_ref(at)?);
    }
    Ok(columns)
}

// The rows of a query.
fn rows(alloc: Global, conn: &mut Connection<MemStore>, query: &str) -> anyhow::Result<Items> {
    let mut answers = Items::new(alloc);
    for found in &conn.query_all(query, &[])? {
        answers.put_items(row(alloc, found)?);
    }
    Ok(answers)
}

// Runs the statements of a step on a store, or tells the rows that it asks for.
fn asked(
    alloc: Global,
    connection: &mut Connection<MemStore>,
    step: &Value,
    answers: &mut Items,
) -> anyhow::Result<()> {
    if let Some(text) = step.get("sql").and_then(Value::as_str) {
        connection.execute_batch(text)?;
    } else {
        answers.put_items(rows(alloc, connection, given::text(step, "rows")?)?);
    }
    Ok(())
}

// Does such a step, after which no recorder is at work.
fn on_store(
    alloc: Global,
    session: Session,
    step: &Value,
    answers: &mut Items,
) -> anyhow::Result<Session> {
    let mut connection = connection(session);
    asked(alloc, &mut connection, step, answers)?;
    Ok(Session::Shut(connection))
}

// Lets a recorder answer a step.
fn on_recorder(
    alloc: Global,
    session: Session,
    step: &Value,
    answers: &mut Items,
) -> anyhow::Result<Session> {
    match session {
        Session::Open(mut recorder) => {
            answers.put(steps::answer(alloc, &mut recorder, step)?);
            Ok(Session::Open(recorder))
        }
        Session::Shut(_) => Err(anyhow::anyhow!("no recorder is open")),
    }
}

// Does a step, and gives what is at work after it.
fn stepped(
    alloc: Global,
    session: Session,
    step: &Value,
    answers: &mut Items,
) -> anyhow::Result<Session> {
    if let Some(capacity) = step.get("open").and_then(Value::as_u64) {
        adopted(alloc, connection(session), capacity, answers)
    } else if step.get("sql").is_some() || step.get("rows").is_some() {
        on_store(alloc, session, step, answers)
    } else {
        on_recorder(alloc, session, step, answers)
    }
}

/// What is answered to each step of a case, over a store that is empty at first.
pub(crate) fn answer(alloc: Global, case: &Value) -> anyhow::Result<Value> {
    let mut answers = Items::new(alloc);
    let mut session = Session::Shut(Connection::open_in_memory(alloc)?);
    for step in given::items(case, "steps")? {
        session = stepped(alloc, session, step, &mut answers)?;
    }
    answers.end()
}
