//! How fast a policy of three rules decides on a deposit: the first one deposits it, the second one doesn't
//! apply, and the third one withdraws the deposit again.
mod declared;
mod held;

ghost use Rattle.std.specs.Prelude.{◌≡◌, true, IsTrue, is_some};
ghost use Rattle.es_model.specs.Declaration.{app_named};
ghost use Rattle.es_expr.specs.Checked.{IsCheckedSystem};
ghost use Rattle.es_domain.specs.Decision.{IsNotice, notice};

use crate::rate;
use declared::{account, deposit, system, text};
use es_domain::{Aggregate, Decision, FindFault, decide_policy};
use es_model::{DomainEvent, Moment, System, Text, are_of_kinds};
use held::Held;
use std::alloc::Global;
use std::rt::Clock;
use std::time::Instant;

// Whether an application is declared.
fn is_app(sys: &System, name: &Text) -> bool
    ensures { result ≡ true → IsTrue (is_some (app_named sys.now.apps name.now)) }
{
    sys.app(name.as_str()).is_some()
}

// Whether an event is a notification that a policy may be given.
fn is_notice(sys: &System, leader: &Text, id: u64, event: &DomainEvent) -> bool
    ensures { result ≡ true → IsNotice sys.now (notice leader.now id event.now) }
{
    match sys.event(event.topic.as_str()) {
        Some((_, class)) => {
            are_of_kinds(&event.fields, &class.fields)
                && is_app(sys, leader)
                && id < 1 << 62
                && event.originator_version < 1 << 62
        }
        None => false,
    }
}

// How many events a policy decides.
fn decided(
    alloc: Global,
    sys: &System,
    account: &Aggregate,
    ledger: &Text,
    leader: &Text,
    event: &DomainEvent,
) -> Result<usize, FindFault>
    requires checked { IsCheckedSystem sys.now }
    requires app { IsTrue (is_some (app_named sys.now.apps ledger.now)) }
    requires notice { IsNotice sys.now (notice leader.now 1 event.now) }
{
    let mut reader = Held {
        system: sys,
        account,
    };
    let at = Moment::nearest(9);
    match decide_policy(alloc, sys, ledger, &mut reader, leader, 1, event, at) {
        Ok(Decision::Events(events)) => Ok(events.len()),
        Ok(Decision::Refused { code: _, rule: _ }) => Ok(0),
        Err(fault) => Err(fault),
    }
}

// How many events so many decisions have together.
fn decide_all(
    alloc: Global,
    sys: &System,
    account: &Aggregate,
    ledger: &Text,
    leader: &Text,
    event: &DomainEvent,
    count: u64,
) -> Result<usize, FindFault>
    requires checked { IsCheckedSystem sys.now }
    requires app { IsTrue (is_some (app_named sys.now.apps ledger.now)) }
    requires notice { IsNotice sys.now (notice leader.now 1 event.now) }
{
    let mut events = 0usize;
    for _ in 0..count {
        let more = decided(alloc, sys, account, ledger, leader, event)?;
        events = events.saturating_add(more);
    }
    Ok(events)
}

// The same, over the account.
fn decided_over(
    alloc: Global,
    sys: &System,
    ledger: &Text,
    leader: &Text,
    event: &DomainEvent,
    count: u64,
) -> anyhow::Result<usize>
    requires checked { IsCheckedSystem sys.now }
    requires app { IsTrue (is_some (app_named sys.now.apps ledger.now)) }
    requires notice { IsNotice sys.now (notice leader.now 1 event.now) }
{
    let account = account(alloc)?;
    Ok(decide_all(alloc, sys, &account, ledger, leader, event, count)?)
}

// The same, where they may be decided.
fn decided_on(
    alloc: Global,
    sys: &System,
    ledger: &Text,
    leader: &Text,
    event: &DomainEvent,
    count: u64,
) -> anyhow::Result<usize>
    requires { IsCheckedSystem sys.now }
{
    if !is_app(sys, ledger) {
        return Err(anyhow::anyhow!("no system"));
    }
    if !is_notice(sys, leader, 1, event) {
        return Err(anyhow::anyhow!("no notification"));
    }
    decided_over(alloc, sys, ledger, leader, event, count)
}

// The same, on the deposit.
fn decided_between(
    alloc: Global,
    sys: &System,
    ledger: &Text,
    leader: &Text,
    count: u64,
) -> anyhow::Result<usize>
    requires { IsCheckedSystem sys.now }
{
    let event = deposit(alloc)?;
    decided_on(alloc, sys, ledger, leader, &event, count)
}

// The same, of the ledger that follows the bank.
fn decided_events(alloc: Global, sys: &System, count: u64) -> anyhow::Result<usize>
    requires { IsCheckedSystem sys.now }
{
    let leader = text(alloc, "bank")?;
    let ledger = text(alloc, "ledger")?;
    decided_between(alloc, sys, &ledger, &leader, count)
}

// The rate of so many decisions.
fn report(
    rt: &(impl Clock + Eprint + Print),
    alloc: Global,
    sys: &System,
    count: u64,
) -> anyhow::Result<()>
    requires { IsCheckedSystem sys.now }
{
    let before = Instant::now(rt)?;
    let events = decided_events(alloc, sys, count)?;
    let decisions = rate(count, before.elapsed(rt)?);
    println!(rt; "{count} decisions: {events} events")?;
    eprintln!(rt; "{:>12} {decisions:>12}", "policies")?;
    Ok(())
}

/// Times so many decisions.
pub(crate) fn measure(
    rt: &(impl Clock + Eprint + Print),
    alloc: Global,
    count: u64,
) -> anyhow::Result<()> {
    let sys = system(alloc)?;
    report(rt, alloc, &sys, count)
}
