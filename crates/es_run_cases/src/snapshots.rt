//! Snapshots as a case gives them and as they are told, in one form: the number of the originator, the version, the
//! topic, the class version, the moments of creation and of the last change, and the state.

ghost use Rattle.std.specs.Prelude.{IsTrue};
ghost use Rattle.es_model.specs.Snapshots.{IsSmallSnapshot};

use anyhow::Context;
use es_model::limits::NUMBERS_END;
use es_model::{Moment, Snapshot, Snapshots, Text};
use es_steps::recordings::{number_at, originator};
use es_suite::given;
use es_suite::told::Items;
use serde_json::Value;
use std::alloc::Global;
use uuid::Uuid;

// The moment at a place of a list.
fn moment_at(row: &Value, place: usize) -> anyhow::Result<Moment> {
    let micros = row.get(place).and_then(Value::as_i64);
    Ok(Moment::nearest(micros.context("no moment at a place")?))
}

fn snapshot(alloc: Global, row: &Value) -> anyhow::Result<Snapshot> {
    let number = number_at(row, 0)?;
    let originator_version = number_at(row, 1)?;
    let topic = row.get(2).and_then(Value::as_str).context("no topic")?;
    let class_version = number_at(row, 3)?;
    let created_on = moment_at(row, 4)?;
    let modified_on = moment_at(row, 5)?;
    let topic = Text::from_str(alloc, topic)?;
    let state = given::bytes(alloc, row.get(6).context("no state")?)?;
    Ok(Snapshot {
        originator_id: originator(number),
        originator_version,
        topic,
        class_version,
        created_on,
        modified_on,
        state,
    })
}

// Whether a snapshot may be put.
fn is_small(snapshot: &Snapshot) -> bool
    ensures { IsTrue result → IsSmallSnapshot snapshot.now }
{
    snapshot.originator_version < NUMBERS_END && snapshot.class_version < NUMBERS_END
}

/// The snapshots that are there after those of a case were put in order, none where it gives none.
pub(crate) fn snapshots(alloc: Global, case: &Value) -> anyhow::Result<Snapshots> {
    let mut snapshots = Snapshots::new(alloc);
    for row in given::items_if_any(case, "snapshots") {
        let snapshot = snapshot(alloc, row)?;
        if !is_small(&snapshot) {
            return Err(anyhow::anyhow!("too great a number"));
        }
        snapshots.put(snapshot)?;
    }
    Ok(snapshots)
}

// The last eight bytes of an id, as a number.
fn number_of(id: Uuid) -> u64 {
    (id.as_u128() & u128::from(u64::MAX)) as u64
}

fn told_of(alloc: Global, snapshot: &Snapshot) -> Items {
    let mut told = Items::new(alloc);
    told.put(number_of(snapshot.originator_id));
    told.put(snapshot.originator_version);
    told.put(snapshot.topic.as_str());
    told.put(snapshot.class_version);
    told.put(snapshot.created_on.micros());
    told.put(snapshot.modified_on.micros());
    told.put_bytes(snapshot.state.as_slice());
    told
}

/// Snapshots as they are told.
pub(crate) fn snapshots_told(alloc: Global, snapshots: &[Snapshot]) -> Items {
    let mut told = Items::new(alloc);
    for snapshot in snapshots {
        told.put_items(told_of(alloc, snapshot));
    }
    told
}
