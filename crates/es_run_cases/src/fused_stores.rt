//! Stores in memory that hand out recorders behind fuses, for runs in which a recorder fails.

use anyhow::Context;
use es_memory::{FuseRecorder, MemoryStores};
use es_model::{CallFault, Calls, Failed, Faults, Text};
use es_recorder::Stores;
use es_suite::given;
use serde_json::Value;
use std::alloc::Global;

// The fuse of an application's recorder. It passes so many calls; the next one fails, before or after it took effect.
#[derive(Drop)]
struct Fuse {
    app: Text,
    calls: u64,
    after: bool,
}

/// Stores in memory whose recorders stand behind fuses. A recorder without one passes all calls that a run can make. Each
/// that is closed counts as one that failed, since a fuse doesn't tell whether it did.
#[derive(Drop)]
pub(crate) struct FusedStores {
    inner: MemoryStores,
    fuses: Vec<Fuse>,
    closed: Faults,
}

impl FusedStores {
    /// Puts the recorders of these stores behind the fuses of a case.
    pub(crate) fn new(
        alloc: Global,
        inner: MemoryStores,
        rows: &[Value],
    ) -> anyhow::Result<FusedStores> {
        let fuses = given_fuses(alloc, rows)?;
        Ok(FusedStores {
            inner,
            fuses,
            closed: Faults::new(Calls::new(alloc)),
        })
    }

    /// Puts the recorder of one application of these stores behind a fuse.
    pub(crate) fn behind(
        alloc: Global,
        inner: MemoryStores,
        app: &str,
        calls: u64,
        after: bool,
    ) -> anyhow::Result<FusedStores> {
        let app = Text::from_str(alloc, app)?;
        let mut fuses = Vec::new(alloc);
        fuses.push(Fuse { app, calls, after })?;
        Ok(FusedStores {
            inner,
            fuses,
            closed: Faults::new(Calls::new(alloc)),
        })
    }

    /// The stores without the fuses.
    pub(crate) fn into_inner(self) -> MemoryStores {
        let FusedStores {
            inner,
            fuses: _,
            closed: _,
        } = self;
        inner
    }
}

fn given_fuse(alloc: Global, row: &Value) -> anyhow::Result<Fuse> {
    let app = given::owned(alloc, row, "app")?;
    let calls = given::number(row, "calls")?;
    let after = row.get("after").and_then(Value::as_bool);
    Ok(Fuse {
        app,
        calls,
        after: after.context("no effect")?,
    })
}

fn given_fuses(alloc: Global, rows: &[Value]) -> anyhow::Result<Vec<Fuse>> {
    let mut fuses = Vec::new(alloc);
    for row in rows {
        fuses.push(given_fuse(alloc, row)?)?;
    }
    Ok(fuses)
}

// How many calls an application's recorder passes, and whether the call that fails then takes effect.
fn fuse_of(fuses: &[Fuse], app: &Text) -> (u64, bool) {
    match fuses.iter().find(|fuse| fuse.app.as_str() == app.as_str()) {
        Some(fuse) => (fuse.calls, fuse.after),
        None => (u64::MAX, false),
    }
}

impl Stores for FusedStores {
    ghost use Rattle.std.specs.Prelude.{◌+◌};
    ghost use Rattle.es_memory.specs.contracts.memory_stores.MemoryStoresStores.TheImpl.Laws.{formed-law, snapshots_once-law, stable_is_front-law};

    type R = FuseRecorder;

    ghost held = { λ s. ⟦<MemoryStores as Stores>⟧.held s.inner };

    ghost stable = { λ s. ⟦<MemoryStores as Stores>⟧.stable s.inner };

    ghost snapshots = { λ s. ⟦<MemoryStores as Stores>⟧.snapshots s.inner };

    ghost out = { λ s. ⟦<MemoryStores as Stores>⟧.out s.inner };

    ghost faults = { λ s. ⟦<MemoryStores as Stores>⟧.faults s.inner + s.closed };

    ghost formed = { λ s. formed-law s.inner };

    ghost stable_is_front = { λ s. stable_is_front-law s.inner };

    ghost snapshots_once = { λ s. snapshots_once-law s.inner };

    fn open(
        &mut self,
        place: Option<&Text>,
        app: &Text,
        capacity: u64,
    ) -> Result<FuseRecorder, CallFault> {
        let (calls, after) = fuse_of(self.fuses.as_slice(), app);
        match self.inner.open(place, app, capacity) {
            Ok(recorder) => Ok(FuseRecorder::new(recorder, calls, after)),
            Err(fault) => Err(fault),
        }
    }

    fn close(&mut self, app: &Text, recorder: FuseRecorder) {
        let Failed = self.closed.fail();
        self.inner.close(app, recorder.into_inner());
    }
}
