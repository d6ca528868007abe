//! The system, the clock and the failing calls that a case gives.

ghost use Rattle.std.specs.Prelude.{IfOk};
ghost use Rattle.es_expr.specs.Checked.{IsCheckedSystem};

use anyhow::Context;
use es_decl::read_system;
use es_io::ListClock;
use es_model::{Calls, Moment, Moments, System};
use es_suite::given;
use serde_json::Value;
use std::alloc::Global;

/// The system that a document declares.
pub(crate) fn system(alloc: Global, document: &Value) -> anyhow::Result<System>
    ensures { IfOk result IsCheckedSystem }
{
    let text = document.to_string(alloc)?;
    match read_system(alloc, text.as_str().as_bytes()) {
        Ok(sys) => Ok(sys),
        Err(fault) => Err(fault.into()),
    }
}

/// A clock with the readings of a case, which stands at 0 behind them.
pub(crate) fn clock(alloc: Global, case: &Value) -> anyhow::Result<ListClock> {
    let mut readings = Moments::new(alloc);
    for micros in given::items_if_any(case, "clock") {
        readings.push(Moment::nearest(micros.as_i64().context("no moment")?))?;
    }
    Ok(ListClock::new(readings, Moment::nearest(0)))
}

/// The numbers of the calls that fail, of the object with this name.
pub(crate) fn failing(alloc: Global, case: &Value, name: &str) -> anyhow::Result<Calls> {
    match case.get("fails") {
        Some(fails) => given::calls(alloc, fails, name),
        None => Ok(Calls::new(alloc)),
    }
}
