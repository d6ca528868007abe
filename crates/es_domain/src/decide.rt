ghost use Rattle.std.specs.Prelude.{◌≡◌, IsTrue, IfOk, is_some};
ghost use Rattle.es_model.specs.Declaration.{app_named};
ghost use Rattle.es_expr.specs.Checked.{IsCheckedSystem};
ghost use Rattle.es_domain.specs.Decision.{command_decision, decision_of, policy_decision, notice, DecidesTold, AreNewEvents, IsOfCommand, IsNotice};
ghost use Rattle.es_domain.specs.Effect.{command_named};
ghost use Rattle.es_domain.specs.Readings.{TellsOnTold, FindHasCause, IsSameReader};

use crate::effect::{Effect, effect_on};
use crate::rules::run_rules;
use crate::{Aggregates, Command, Decision, FindFault};
use es_model::{DomainEvent, List, Moment, NoMemory, System, Text};
use std::alloc::Global;

// The decision of a command's effect.
fn decision_of(effect: Effect) -> Decision
    ensures { result ≡ decision_of 0 effect }
{
    match effect {
        Effect::Changed(mut aggregate) => Decision::Events(aggregate.collect_events()),
        Effect::Refused(code) => Decision::Refused { code, rule: 0 },
    }
}

/// What a command decides.
pub fn decide_command<A: Aggregates>(
    alloc: Global,
    sys: &System,
    reader: &mut A,
    command: &Command,
    at: Moment,
) -> Result<Decision, FindFault>
    requires checked { IsCheckedSystem sys.now }
    requires system { A.system reader.old ≡ sys.now }
    requires command { IsOfCommand (command_named sys.now command.now.class command.now.name) command.now.args }
    ensures decision { DecidesTold sys.now (A.told reader.new) (command_decision sys.now command.now at) result }
    ensures events { IfOk result (AreNewEvents sys.now) }
    ensures tells { TellsOnTold (A.told reader.old) (A.told reader.new) }
    ensures same { IsSameReader A.system A.kept reader.old reader.new }
    ensures cause { FindHasCause (A.faults reader.old) (A.faults reader.new) result }
{
    let found = match reader.find(command.id) {
        Ok(found) => found,
        Err(fault) => return Err(fault),
    };
    match effect_on(alloc, sys, command, at, found) {
        Ok(effect) => Ok(decision_of(effect)),
        Err(NoMemory) => Err(FindFault::NoMemory),
    }
}

/// What the policy of an application decides on a leader's notification.
pub fn decide_policy<A: Aggregates>(
    alloc: Global,
    sys: &System,
    app: &Text,
    reader: &mut A,
    leader: &Text,
    id: u64,
    event: &DomainEvent,
    at: Moment,
) -> Result<Decision, FindFault>
    requires checked { IsCheckedSystem sys.now }
    requires system { A.system reader.old ≡ sys.now }
    requires app { IsTrue (is_some (app_named sys.now.apps app.now)) }
    requires notice { IsNotice sys.now (notice leader.now id event.now) }
    ensures decision { DecidesTold sys.now (A.told reader.new) (policy_decision sys.now app.now (notice leader.now id event.now) at) result }
    ensures events { IfOk result (AreNewEvents sys.now) }
    ensures tells { TellsOnTold (A.told reader.old) (A.told reader.new) }
    ensures same { IsSameReader A.system A.kept reader.old reader.new }
    ensures cause { FindHasCause (A.faults reader.old) (A.faults reader.new) result }
{
    let Some(follower) = sys.app(app.as_str()) else {
        unreachable!()
    };
    let changed = List::new(alloc);
    let rules = follower.policies.as_slice();
    run_rules(alloc, sys, reader, changed, leader, id, event, at, rules, 1)
}
