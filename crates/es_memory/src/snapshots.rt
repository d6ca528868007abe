ghost use Rattle.std.specs.Prelude.{◌≡◌, ◌++◌, ◌∷◌, [], ◌&&◌, IfOk};
ghost use Rattle.std.specs.Option.{option_copied};
ghost use Rattle.std.specs.Str.{bytes_eq};
ghost use Rattle.es_recorder.specs.Selections.{is_upto, snapshots_upto, IsNewest, snapshot_at};

use crate::selections::is_at_most;
use es_model::{Duplicate, NoMemory, Snapshot};
use uuid::Uuid;

// Whether a snapshot is of an aggregate at a version up to a bound.
fn is_upto_bound(snapshot: &Snapshot, id: Uuid, lte: Option<u64>) -> bool
    ensures { result ≡ (bytes_eq snapshot.now.originator_id id && is_upto lte snapshot.now.originator_version) }
{
    snapshot.originator_id == id && is_at_most(snapshot.originator_version, lte)
}

// The newest snapshot with one more behind those that were looked at.
fn newest_with<'a>(
    newest: Option<&'a Snapshot>,
    snapshot: &'a Snapshot,
    id: Uuid,
    lte: Option<u64>,
) -> Option<&'a Snapshot>
    ensures { (seen : _) → IsNewest (snapshots_upto seen id lte) (option_copied newest.entry) → IsNewest (snapshots_upto (seen ++ snapshot.now ∷ []) id lte) (option_copied result) }
{
    if !is_upto_bound(snapshot, id, lte) {
        return newest;
    }
    match newest {
        Some(other) => {
            if other.originator_version < snapshot.originator_version {
                Some(snapshot)
            } else {
                newest
            }
        }
        None => Some(snapshot),
    }
}

// The snapshot of an aggregate with the greatest version up to a bound.
fn newest_of(snapshots: &[Snapshot], id: Uuid, lte: Option<u64>) -> Option<&Snapshot>
    ensures { IsNewest (snapshots_upto snapshots.now id lte) (option_copied result) }
{
    let mut newest: Option<&Snapshot> = None;
    for snapshot in snapshots {
        newest = newest_with(newest, snapshot, id, lte);
    }
    newest
}

// A copy of it.
pub fn newest_copy(
    snapshots: &[Snapshot],
    id: Uuid,
    lte: Option<u64>,
) -> Result<Option<Snapshot>, NoMemory>
    ensures { IfOk result (IsNewest (snapshots_upto snapshots.now id lte)) }
{
    match newest_of(snapshots, id, lte) {
        Some(snapshot) => Ok(Some(snapshot.copy()?)),
        None => Ok(None),
    }
}

// A copy of the snapshot at a place, from 1.
pub fn copy_at(snapshots: &[Snapshot], number: u64) -> Result<Option<Snapshot>, NoMemory>
    ensures { IfOk result (λ found. found ≡ snapshot_at snapshots.now number) }
{
    if number == 0 {
        return Ok(None);
    }
    match snapshots.get(number as usize - 1) {
        Some(snapshot) => Ok(Some(snapshot.copy()?)),
        None => Ok(None),
    }
}
