//! What is read of the tables: each statement in a function of its own, and its rows as values.

ghost use Rattle.std.specs.Prelude.{◌≡◌, ◌<◌, ◌^◌, false, length, All, IfOk, IfSome, IsTrue};
ghost use Rattle.es_model.specs.Snapshots.{IsSmallSnapshot};
ghost use Rattle.es_recorder.specs.Selections.{IsWithin, AreVersions, AreSelected, AreNumbered};

use crate::statements::{
    CAUSED, FALLING_EVENTS, NEWEST_SNAPSHOT, NEXT_SNAPSHOT, NOTIFICATIONS, RISING_EVENTS, TRACKING,
};
use crate::stop::Stop;
use crate::values::{bound, event, number, snapshot};
use es_model::{Notification, Notifications, Snapshot, StoredEvents, Text};
use sqlite::types::ValueRef;
use sqlite::{Alter, Connection, Error, Row};
use std::alloc::Global;
use uuid::Uuid;

/// Which events of an originator are asked for: those with versions above one and up to another, at
/// most so many.
#[derive(Clone, Copy)]
pub(crate) struct Versions {
    pub(crate) above: i64,
    pub(crate) upto: i64,
    pub(crate) most: i64,
}

impl Versions {
    pub(crate) fn new(gt: Option<u64>, lte: Option<u64>, limit: Option<u64>) -> Versions {
        Versions {
            above: match gt {
                Some(version) => bound(version),
                None => -1,
            },
            upto: bound(lte.unwrap_or(u64::MAX)),
            most: bound(limit.unwrap_or(u64::MAX)),
        }
    }
}

fn rising_rows<S: Alter>(
    conn: &mut Connection<S>,
    id: &Uuid,
    versions: Versions,
) -> Result<Vec<Row>, Error>
    ensures mode { conn.old.in_transaction ≡ false → conn.new.in_transaction ≡ false }
{
    conn.query_all(
        RISING_EVENTS,
        &[
            ValueRef::Blob(id.as_bytes().as_slice()),
            ValueRef::Int(versions.above),
            ValueRef::Int(versions.upto),
            ValueRef::Int(versions.most),
        ],
    )
}

fn falling_rows<S: Alter>(
    conn: &mut Connection<S>,
    id: &Uuid,
    versions: Versions,
) -> Result<Vec<Row>, Error>
    ensures mode { conn.old.in_transaction ≡ false → conn.new.in_transaction ≡ false }
{
    conn.query_all(
        FALLING_EVENTS,
        &[
            ValueRef::Blob(id.as_bytes().as_slice()),
            ValueRef::Int(versions.above),
            ValueRef::Int(versions.upto),
            ValueRef::Int(versions.most),
        ],
    )
}

fn notification_rows<S: Alter>(
    conn: &mut Connection<S>,
    start: i64,
    most: i64,
) -> Result<Vec<Row>, Error>
    ensures mode { conn.old.in_transaction ≡ false → conn.new.in_transaction ≡ false }
{
    conn.query_all(NOTIFICATIONS, &[ValueRef::Int(start), ValueRef::Int(most)])
}

fn tracking_rows<S: Alter>(conn: &mut Connection<S>, leader: &str) -> Result<Vec<Row>, Error>
    ensures mode { conn.old.in_transaction ≡ false → conn.new.in_transaction ≡ false }
{
    conn.query_all(TRACKING, &[ValueRef::Text(leader.as_bytes())])
}

fn caused_rows<S: Alter>(
    conn: &mut Connection<S>,
    leader: &str,
    position: i64,
) -> Result<Vec<Row>, Error>
    ensures mode { conn.old.in_transaction ≡ false → conn.new.in_transaction ≡ false }
{
    conn.query_all(
        CAUSED,
        &[ValueRef::Text(leader.as_bytes()), ValueRef::Int(position)],
    )
}

fn newest_rows<S: Alter>(conn: &mut Connection<S>, id: &Uuid, upto: i64) -> Result<Vec<Row>, Error>
    ensures mode { conn.old.in_transaction ≡ false → conn.new.in_transaction ≡ false }
{
    conn.query_all(
        NEWEST_SNAPSHOT,
        &[
            ValueRef::Blob(id.as_bytes().as_slice()),
            ValueRef::Int(upto),
        ],
    )
}

fn next_rows<S: Alter>(conn: &mut Connection<S>, before: i64) -> Result<Vec<Row>, Error>
    ensures mode { conn.old.in_transaction ≡ false → conn.new.in_transaction ≡ false }
{
    conn.query_all(NEXT_SNAPSHOT, &[ValueRef::Int(before)])
}

// Whether so many are at most the limit, where there is one.
fn is_within(limit: Option<u64>, count: usize) -> bool
    ensures { IsTrue result → IsWithin limit count }
{
    match limit {
        Some(limit) => count as u64 <= limit,
        None => true,
    }
}

// Whether a version comes after the one before in rising order, or in falling order.
fn is_next(desc: bool, before: Option<u64>, version: u64) -> bool {
    match before {
        Some(before) if desc => version < before,
        Some(before) => before < version,
        None => true,
    }
}

// The events of rows, whose versions have to rise or to fall.
fn events_of(alloc: Global, rows: &[Row], desc: bool) -> Result<StoredEvents, Stop>
    ensures count { IfOk result (λ es. length es ≡ length rows.now) }
    ensures versions { IfOk result (All (λ e. e.originator_version < 2 ^ 62)) }
{
    let mut events = StoredEvents::new(alloc);
    let mut before = None;
    for row in rows {
        let event = event(alloc, row)?;
        if !is_next(desc, before, event.originator_version) {
            return Err(Stop::Fault);
        }
        before = Some(event.originator_version);
        events.push(event)?;
    }
    Ok(events)
}

/// Some events of an originator.
pub(crate) fn events<S: Alter>(
    conn: &mut Connection<S>,
    alloc: Global,
    id: Uuid,
    gt: Option<u64>,
    lte: Option<u64>,
    desc: bool,
    limit: Option<u64>,
) -> Result<StoredEvents, Stop>
    ensures numbers { IfOk result (AreVersions limit) }
    ensures mode { conn.old.in_transaction ≡ false → conn.new.in_transaction ≡ false }
{
    let versions = Versions::new(gt, lte, limit);
    let rows = if desc {
        falling_rows(conn, &id, versions)?
    } else {
        rising_rows(conn, &id, versions)?
    };
    if !is_within(limit, rows.len()) {
        return Err(Stop::Fault);
    }
    events_of(alloc, rows.as_slice(), desc)
}

/// The latest version of an originator, 0 where it has none.
pub(crate) fn latest<S: Alter>(conn: &mut Connection<S>, id: Uuid) -> Result<u64, Stop>
    ensures small { IfOk result (λ version. version < 2 ^ 62) }
    ensures mode { conn.old.in_transaction ≡ false → conn.new.in_transaction ≡ false }
{
    let rows = falling_rows(conn, &id, Versions::new(None, None, Some(1)))?;
    match rows.first() {
        Some(row) => number(row, 2),
        None => Ok(0),
    }
}

/// The notification id of an originator's event of a version.
pub(crate) fn place<S: Alter>(
    conn: &mut Connection<S>,
    id: Uuid,
    version: u64,
) -> Result<Option<u64>, Stop>
    ensures small { IfOk result (λ found. IfSome found (λ n. n < 2 ^ 62)) }
    ensures mode { conn.old.in_transaction ≡ false → conn.new.in_transaction ≡ false }
{
    if version == 0 {
        return Ok(None);
    }
    let versions = Versions::new(Some(version - 1), Some(version), Some(1));
    let rows = rising_rows(conn, &id, versions)?;
    match rows.first() {
        Some(row) => Ok(Some(number(row, 0)?)),
        None => Ok(None),
    }
}

// The notifications of rows, whose ids have to follow one another from the first one on.
fn notifications_of(alloc: Global, rows: &[Row], first: u64) -> Result<Notifications, Stop>
    ensures count { IfOk result (λ ns. length ns ≡ length rows.now) }
    ensures numbered { IfOk result (AreNumbered first) }
    ensures ids { IfOk result (All (λ n. n.id < 2 ^ 62)) }
    ensures versions { IfOk result (All (λ n. n.event.originator_version < 2 ^ 62)) }
{
    let mut notifications = Notifications::new(alloc);
    let mut expected = first;
    for row in rows {
        let id = number(row, 0)?;
        if id != expected {
            return Err(Stop::Fault);
        }
        let event = event(alloc, row)?;
        notifications.push(Notification { id, event })?;
        expected = id + 1;
    }
    Ok(notifications)
}

/// The notifications from one on, at most so many.
pub(crate) fn notifications<S: Alter>(
    conn: &mut Connection<S>,
    alloc: Global,
    start: u64,
    limit: u64,
) -> Result<Notifications, Stop>
    ensures numbers { IfOk result (AreSelected start limit) }
    ensures mode { conn.old.in_transaction ≡ false → conn.new.in_transaction ≡ false }
{
    let first = start.max(1);
    let rows = notification_rows(conn, bound(first), bound(limit))?;
    if rows.len() as u64 > limit {
        return Err(Stop::Fault);
    }
    notifications_of(alloc, rows.as_slice(), first)
}

/// The tracked notification id of a leader, 0 where none is tracked.
pub(crate) fn tracked<S: Alter>(conn: &mut Connection<S>, leader: &Text) -> Result<u64, Stop>
    ensures small { IfOk result (λ id. id < 2 ^ 62) }
    ensures mode { conn.old.in_transaction ≡ false → conn.new.in_transaction ≡ false }
{
    let rows = tracking_rows(conn, leader.as_str())?;
    match rows.first() {
        Some(row) => number(row, 0),
        None => Ok(0),
    }
}

/// Whether a leader's notification caused a recording.
pub(crate) fn is_cause<S: Alter>(
    conn: &mut Connection<S>,
    leader: &Text,
    id: u64,
) -> Result<bool, Stop>
    ensures mode { conn.old.in_transaction ≡ false → conn.new.in_transaction ≡ false }
{
    let Ok(position) = i64::try_from(id) else {
        return Ok(false);
    };
    let rows = caused_rows(conn, leader.as_str(), position)?;
    Ok(!rows.is_empty())
}

// The snapshot of the first row, if there is one.
fn first_snapshot(alloc: Global, rows: &[Row]) -> Result<Option<Snapshot>, Stop>
    ensures { IfOk result (λ found. IfSome found IsSmallSnapshot) }
{
    match rows.first() {
        Some(row) => Ok(Some(snapshot(alloc, row)?)),
        None => Ok(None),
    }
}

/// The snapshot of an originator with the greatest version up to one.
pub(crate) fn newest<S: Alter>(
    conn: &mut Connection<S>,
    alloc: Global,
    id: Uuid,
    lte: Option<u64>,
) -> Result<Option<Snapshot>, Stop>
    ensures small { IfOk result (λ found. IfSome found IsSmallSnapshot) }
    ensures mode { conn.old.in_transaction ≡ false → conn.new.in_transaction ≡ false }
{
    let rows = newest_rows(conn, &id, bound(lte.unwrap_or(u64::MAX)))?;
    first_snapshot(alloc, rows.as_slice())
}

/// The snapshot at a place, from 1.
pub(crate) fn snapshot_at<S: Alter>(
    conn: &mut Connection<S>,
    alloc: Global,
    place: u64,
) -> Result<Option<Snapshot>, Stop>
    ensures small { IfOk result (λ found. IfSome found IsSmallSnapshot) }
    ensures mode { conn.old.in_transaction ≡ false → conn.new.in_transaction ≡ false }
{
    if place == 0 {
        return Ok(None);
    }
    let rows = next_rows(conn, bound(place - 1))?;
    first_snapshot(alloc, rows.as_slice())
}
