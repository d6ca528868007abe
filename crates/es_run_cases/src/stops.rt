//! Cases of runs that a failing recorder ends, and that are begun again with the same lines: what the stores hold at last,
//! wherever it failed.

use crate::fused_stores::FusedStores;
use crate::runs::{Objects, objects_of, put_stores, run};
use crate::stores::stores;
use es_memory::MemoryStores;
use es_suite::given;
use es_suite::told::Members;
use serde_json::Value;
use std::alloc::Global;

// Where a recorder fails: at which call, and whether that takes effect.
#[derive(Drop)]
struct Stop {
    calls: u64,
    after: bool,
}

// The stores that a run leaves whose recorder fails there.
fn stopped(
    alloc: Global,
    case: &Value,
    objects: &mut Objects,
    stop: &Stop,
) -> anyhow::Result<MemoryStores> {
    let stores = stores(alloc, case)?;
    let mut fused = FusedStores::behind(
        alloc,
        stores,
        given::text(case, "app")?,
        stop.calls,
        stop.after,
    )?;
    run(alloc, objects, &mut fused);
    Ok(fused.into_inner())
}

// The same, with the objects of the case.
fn left(alloc: Global, base: &Value, case: &Value, stop: &Stop) -> anyhow::Result<MemoryStores> {
    let mut objects = objects_of(alloc, base, case)?;
    stopped(alloc, case, &mut objects, stop)
}

// What a run over some stores gives.
fn begun_again(
    alloc: Global,
    case: &Value,
    objects: &mut Objects,
    mut stores: MemoryStores,
) -> anyhow::Result<Value> {
    let mut told = Members::new(alloc);
    told.put("status", run(alloc, objects, &mut stores).code());
    let apps = given::items_if_any(case, "apps");
    put_stores(alloc, &mut told, &mut stores, apps)?;
    told.end()
}

// What a run gives that comes after one whose recorder fails there.
fn end(alloc: Global, base: &Value, case: &Value, stop: &Stop) -> anyhow::Result<Value> {
    let mut objects = objects_of(alloc, base, case)?;
    let left = left(alloc, base, case, stop)?;
    begun_again(alloc, case, &mut objects, left)
}

// Whether it gives the same where the recorder fails at this call, before and after it takes effect.
fn is_same(
    alloc: Global,
    base: &Value,
    case: &Value,
    wanted: &Value,
    calls: u64,
) -> anyhow::Result<bool> {
    let before = Stop {
        calls,
        after: false,
    };
    let after = Stop { calls, after: true };
    Ok(end(alloc, base, case, &before)? == *wanted && end(alloc, base, case, &after)? == *wanted)
}

// At how many calls it gives the same.
fn count_same(alloc: Global, base: &Value, case: &Value, wanted: &Value) -> anyhow::Result<u64> {
    let mut count = 0u64;
    for calls in 0..given::number(case, "stops")? {
        if is_same(alloc, base, case, wanted, calls)? {
            count = count.saturating_add(1);
        }
    }
    Ok(count)
}

/// What a run gives that comes after one whose recorder fails at its first call, and for how many calls it is the same.
pub(crate) fn answer(alloc: Global, base: &Value, case: &Value) -> anyhow::Result<Value> {
    let first = Stop {
        calls: 0,
        after: false,
    };
    let end = end(alloc, base, case, &first)?;
    let same = count_same(alloc, base, case, &end)?;
    let mut told = Members::new(alloc);
    told.put("end", end);
    told.put("same", same);
    told.end()
}
