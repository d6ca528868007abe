ghost use Rattle.std.specs.Prelude.{◌≡◌, ◌<◌, ◌^◌, Err, IfOk, IfSome};
ghost use Rattle.es_model.specs.Causes.{CallHasCause};
ghost use Rattle.es_model.specs.History.{log};
ghost use Rattle.es_model.specs.Snapshots.{IsSmallSnapshot};
ghost use Rattle.es_model.specs.declared.memory.CallFault.TheVariants as call_faults;
ghost use Rattle.es_expr.specs.Checked.{IsCheckedSystem};
ghost use Rattle.es_domain.specs.Readings.{Reading};
ghost use Rattle.es_domain.specs.declared.find.FindFault.TheVariants as find_faults;
ghost use Rattle.es_repo.specs.Same.{IsSameRecorder};
ghost use Rattle.es_repo.specs.Snapshots.{class_version, snapshot_of, is_multiple, interval_of, snapshot_read, due_after, is_there};
ghost use Rattle.es_repo.specs.inner.Reader.{Reads};
ghost use Rattle.es_repo.specs.inner.Snapshots.{is_alike};

use crate::reader::read;
use es_domain::{Aggregate, FindFault};
use es_model::{CallFault, Duplicate, NoMemory, Snapshot, StoredEvent, System};
use es_recorder::{AggregateRecorder, ApplicationRecorder};
use es_transcode::encode_record;
use std::alloc::Global;

// The version of a class.
fn class_version(sys: &System, name: &str) -> u64
    requires { IsCheckedSystem sys.now }
    ensures version { result ≡ class_version sys.now name.now }
    ensures small { result < 2 ^ 62 }
{
    match sys.class(name) {
        Some(class) => class.version,
        None => 1,
    }
}

/// The snapshot of an aggregate.
pub fn snapshot(alloc: Global, sys: &System, aggregate: &Aggregate) -> Result<Snapshot, NoMemory>
    requires checked { IsCheckedSystem sys.now }
    requires small { aggregate.now.version < 2 ^ 62 }
    ensures is { IfOk result (λ s. s ≡ snapshot_of sys.now aggregate.now) }
    ensures small { IfOk result IsSmallSnapshot }
{
    let class_version = class_version(sys, aggregate.class.as_str());
    Ok(Snapshot {
        originator_id: aggregate.id,
        originator_version: aggregate.version,
        topic: aggregate.class.copy()?,
        class_version,
        created_on: aggregate.created_on,
        modified_on: aggregate.modified_on,
        state: encode_record(alloc, &aggregate.fields)?,
    })
}

// The interval of the class that declares an event's topic.
fn interval_of(sys: &System, event: &StoredEvent) -> Option<u64>
    requires { IsCheckedSystem sys.now }
    ensures interval { result ≡ interval_of sys.now event.now }
    ensures positive { IfSome result (λ n. 0 < n) }
{
    match sys.event(event.topic.as_str()) {
        Some((class, _)) => class.interval,
        None => None,
    }
}

// Whether a version is a multiple of the interval, where there is one.
fn is_multiple(interval: Option<u64>, version: u64) -> bool
    requires { IfSome interval (λ n. 0 < n) }
    ensures { result ≡ is_multiple interval version }
{
    match interval {
        Some(interval) => version % interval == 0,
        None => false,
    }
}

// The snapshot of what was read, where it is an aggregate.
fn snapshot_read(
    alloc: Global,
    sys: &System,
    found: Result<Option<Aggregate>, FindFault>,
) -> Result<Option<Snapshot>, CallFault>
    requires checked { IsCheckedSystem sys.now }
    requires small { IfOk found (λ o. IfSome o (λ a. a.version < 2 ^ 62)) }
    ensures snapshot { (reading : Reading) → Reads reading found → IfOk result (λ s. s ≡ snapshot_read sys.now reading) }
    ensures small { IfOk result (λ s. IfSome s IsSmallSnapshot) }
    ensures failed { result ≡ Err call_faults.Failed → found ≡ Err find_faults.Failed }
{
    match found {
        Ok(Some(aggregate)) => match snapshot(alloc, sys, &aggregate) {
            Ok(snapshot) => Ok(Some(snapshot)),
            Err(NoMemory) => Err(CallFault::NoMemory),
        },
        Ok(None) => Ok(None),
        Err(FindFault::Unreadable { .. }) => Ok(None),
        Err(FindFault::Failed) => Err(CallFault::Failed),
        Err(FindFault::NoMemory) => Err(CallFault::NoMemory),
    }
}

/// The snapshot that is to be taken after an event was saved, if one is.
pub fn snapshot_due<R: ApplicationRecorder>(
    alloc: Global,
    sys: &System,
    recorder: &mut R,
    event: &StoredEvent,
) -> Result<Option<Snapshot>, CallFault>
    requires checked { IsCheckedSystem sys.now }
    ensures due { IfSome (R.history recorder.old) (λ h. IfOk result (λ s. s ≡ due_after sys.now (log h) event.now)) }
    ensures small { IfOk result (λ s. IfSome s IsSmallSnapshot) }
    ensures same { IsSameRecorder R.history R.settled R.snapshots R.capacity recorder.old recorder.new }
    ensures cause { CallHasCause (R.faults recorder.old) (R.faults recorder.new) result }
{
    let version = event.originator_version;
    if !is_multiple(interval_of(sys, event), version) {
        return Ok(None);
    }
    let found = read(alloc, sys, recorder, event.originator_id, Some(version));
    snapshot_read(alloc, sys, found)
}

// Whether two snapshots of one aggregate are of one version and of one class version.
fn is_alike(a: &Snapshot, b: &Snapshot) -> bool
    ensures { result ≡ is_alike a.now b.now }
{
    a.originator_version == b.originator_version && a.class_version == b.class_version
}

/// Whether a snapshot of the same aggregate, version and class version is kept.
pub fn is_kept<R: AggregateRecorder>(
    recorder: &mut R,
    snapshot: &Snapshot,
) -> Result<bool, CallFault>
    ensures value { IfSome (R.snapshots recorder.old) (λ q. IfOk result (λ there. there ≡ is_there q snapshot.now)) }
    ensures same { IsSameRecorder R.history R.settled R.snapshots R.capacity recorder.old recorder.new }
    ensures cause { CallHasCause (R.faults recorder.old) (R.faults recorder.new) result }
{
    let upto = Some(snapshot.originator_version);
    match recorder.select_snapshot(snapshot.originator_id, upto) {
        Ok(Some(found)) => Ok(is_alike(&found, snapshot)),
        Ok(None) => Ok(false),
        Err(CallFault::Failed) => Err(CallFault::Failed),
        Err(CallFault::NoMemory) => Err(CallFault::NoMemory),
    }
}
