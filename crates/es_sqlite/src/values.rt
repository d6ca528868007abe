//! A row as a value, and a value as parameters.

ghost use Rattle.std.specs.Prelude.{◌≡◌, ◌<◌, ◌^◌, pos, map, IfOk};
ghost use Rattle.sqlite_value.specs.declared.value.Value.TheVariants.{Int, Text as TextValue, Blob};
ghost use Rattle.sqlite_value.specs.Value.{owned};
ghost use Rattle.sqlite_value.specs.Order.{column};
ghost use Rattle.es_recorder.specs.Insert.{IdIsSmall};
ghost use Rattle.es_model.specs.Snapshots.{IsSmallSnapshot};
ghost use Rattle.es_sqlite.specs.Columns.{IsEvent, IsSnapshot, cause_values};

use crate::stop::Stop;
use es_model::limits::NUMBERS_END;
use es_model::{Bytes, Cause, Moment, Snapshot, StoredEvent, Text};
use sqlite::Row;
use sqlite::types::ValueRef;
use std::alloc::Global;
use uuid::Uuid;

/// The number in a column, which is below the end of what a recorder gives.
pub(crate) fn number(row: &Row, at: usize) -> Result<u64, Stop>
    ensures value { IfOk result (λ n. column row.now at ≡ Int (pos n)) }
    ensures small { IfOk result (λ n. n < 2 ^ 62) }
{
    let number: u64 = row.get(at)?;
    if number < NUMBERS_END {
        Ok(number)
    } else {
        Err(Stop::Fault)
    }
}

fn id(row: &Row, at: usize) -> Result<Uuid, Stop>
    ensures { IfOk result (λ id. column row.now at ≡ Blob id) }
{
    let ValueRef::Blob(bytes) = row.get_ref(at)? else {
        return Err(Stop::Fault);
    };
    match Uuid::from_slice(bytes) {
        Ok(id) => Ok(id),
        Err(_) => Err(Stop::Fault),
    }
}

fn text(alloc: Global, row: &Row, at: usize) -> Result<Text, Stop>
    ensures { IfOk result (λ text. column row.now at ≡ TextValue text) }
{
    let ValueRef::Text(bytes) = row.get_ref(at)? else {
        return Err(Stop::Fault);
    };
    match str::from_utf8(bytes) {
        Ok(text) => Ok(Text::from_str(alloc, text)?),
        Err(_) => Err(Stop::Fault),
    }
}

fn bytes(alloc: Global, row: &Row, at: usize) -> Result<Bytes, Stop>
    ensures { IfOk result (λ bytes. column row.now at ≡ Blob bytes) }
{
    let ValueRef::Blob(bytes) = row.get_ref(at)? else {
        return Err(Stop::Fault);
    };
    Ok(Bytes::from_slice(alloc, bytes)?)
}

fn moment(row: &Row, at: usize) -> Result<Moment, Stop>
    ensures { IfOk result (λ moment. column row.now at ≡ Int moment) }
{
    let micros: i64 = row.get(at)?;
    match Moment::new(micros) {
        Some(moment) => Ok(moment),
        None => Err(Stop::Fault),
    }
}

/// The event in a row of a notification id and an event's columns.
pub(crate) fn event(alloc: Global, row: &Row) -> Result<StoredEvent, Stop>
    ensures value { IfOk result (IsEvent row.now) }
    ensures small { IfOk result (λ e. e.originator_version < 2 ^ 62) }
{
    let originator_id = id(row, 1)?;
    let originator_version = number(row, 2)?;
    let topic = text(alloc, row, 3)?;
    let state = bytes(alloc, row, 4)?;
    Ok(StoredEvent {
        originator_id,
        originator_version,
        topic,
        state,
    })
}

/// The snapshot in a row of a snapshot's columns.
pub(crate) fn snapshot(alloc: Global, row: &Row) -> Result<Snapshot, Stop>
    ensures value { IfOk result (IsSnapshot row.now) }
    ensures small { IfOk result IsSmallSnapshot }
{
    let originator_id = id(row, 0)?;
    let originator_version = number(row, 1)?;
    let topic = text(alloc, row, 2)?;
    let class_version = number(row, 3)?;
    let created_on = moment(row, 4)?;
    let modified_on = moment(row, 5)?;
    let state = bytes(alloc, row, 6)?;
    Ok(Snapshot {
        originator_id,
        originator_version,
        topic,
        class_version,
        created_on,
        modified_on,
        state,
    })
}

/// A cause as the parameters of its three columns.
pub(crate) fn cause_values(cause: &Cause) -> [ValueRef<'_>; 3]
    requires { IdIsSmall cause.now }
    ensures { map owned result ≡ cause_values cause.now }
{
    match cause {
        Cause::Command { text } => [
            ValueRef::Blob(text.as_slice()),
            ValueRef::Null,
            ValueRef::Null,
        ],
        Cause::Notification { leader, id } => [
            ValueRef::Null,
            ValueRef::Text(leader.as_str().as_bytes()),
            ValueRef::Int(*id as i64),
        ],
    }
}

/// A number as a parameter that bounds others: the greatest one of the database stands for those
/// that are above it.
pub(crate) fn bound(number: u64) -> i64 {
    i64::try_from(number).unwrap_or(i64::MAX)
}
