//! What a step makes of a world.
ghost use Rattle.std.specs.Prelude.{◌≡◌, ◌<◌, ◌+◌, ◌-◌, ◌^◌, ◌++◌, List, [], ◌∷◌, IfOk, OnErr, OnOk, Ok, Some, IsTrue, is_some, if◌then◌else◌, length, map, slice_get};
ghost use Rattle.es_model.specs.Declaration.{app_named};
ghost use Rattle.es_expr.specs.Checked.{IsCheckedSystem};
ghost use Rattle.es_domain.specs.Decision.{IsOfCommand};
ghost use Rattle.es_domain.specs.Effect.{command_named};
ghost use Rattle.es_process.specs.Standing.{IsSmall};
ghost use Rattle.es_process.specs.SystemRules.{app_names, rules_of};
ghost use Rattle.es_world.specs.Answers.{come_to, commanded, delivered, is_led, lined, made, made_by};
ghost use Rattle.es_world.specs.Steps.{AreMade, IsMade, system_of, world_of};
ghost use Rattle.es_world.specs.Told.{AreFormed, histories_in, place_in};
ghost use Rattle.es_world.specs.World.{opened, stopped, Runs};
ghost use Rattle.es_world.specs.inner.Left.{Concludes, was_recorded as recorded, with_doubt};

use crate::places::{command_at, entry_at, notification_at};
use crate::requests::asked_command;
use crate::stopping::{is_among, settle_each};
use crate::{AppHistory, Histories, StepAnswer, World, WorldStep};
use es_decl::pairs;
use es_domain::Command;
use es_lines::command_text;
use es_model::{Bytes, Duplicate, Moment, NoMemory, Notification, System, Text};
use std::alloc::Global;

// Whether an application leads another.
fn leads(alloc: Global, sys: &System, leader: &Text, follower: &Text) -> Result<bool, NoMemory>
    ensures { IfOk result (λ led. led ≡ is_led sys.now leader.now follower.now) }
{
    let pairs = pairs(alloc, sys)?;
    Ok(
        pairs.as_slice().iter().any(|pair| pair.0.as_str() == leader.as_str()
            && pair.1.as_str() == follower.as_str()),
    )
}

// Whether a recording was added.
fn was_recorded(answer: &Result<StepAnswer, NoMemory>) -> bool
    ensures { result ≡ recorded answer.now }
{
    match answer {
        Ok(answer) => is_recorded(answer),
        Err(_) => false,
    }
}

// Whether that is the answer.
fn is_recorded(answer: &StepAnswer) -> bool
    ensures { result ≡ recorded (Ok answer.now) }
{
    match answer {
        StepAnswer::Recorded => true,
        StepAnswer::Doubtful | StepAnswer::Stopped | StepAnswer::NoSuch => false,
        StepAnswer::Skipped { tracked: _ } | StepAnswer::Gap { tracked: _ } => false,
        StepAnswer::Conflict { latest: _ } => false,
        StepAnswer::Refused { code: _, rule: _ } => false,
        StepAnswer::Unreadable { app: _, id: _ } => false,
        StepAnswer::Down { app: _ } => false,
    }
}

// That an application is down.
fn down(app: &Text) -> Result<StepAnswer, NoMemory>
    ensures { IfOk result (λ a. a ≡ StepAnswer.Down app.now) }
{
    let app = app.copy()?;
    Ok(StepAnswer::Down { app })
}

impl World {
    /// The world of a checked system with these histories of its applications, which stand in declared order and are formed. Nobody
    /// is down.
    pub fn new(alloc: Global, sys: System, histories: Histories) -> World
        requires checked { IsCheckedSystem sys }
        requires named { map (λ a. a.app) histories ≡ app_names sys }
        requires formed { AreFormed histories }
        ensures system { system_of result ≡ sys }
        ensures opened { world_of result ≡ opened (histories_in histories) }
    {
        World {
            sys,
            histories: histories.into_vec(),
            down: Vec::new(alloc),
        }
    }

    /// The system.
    pub fn system(&self) -> &System
        ensures { result.now ≡ system_of self.now }
    {
        &self.sys
    }

    /// The recordings of each application, in declared order.
    pub fn histories(&self) -> &[AppHistory]
        ensures held { histories_in result.now ≡ (world_of self.now).histories }
        ensures named { map (λ a. a.app) result.now ≡ app_names (system_of self.now) }
    {
        self.histories.as_slice()
    }

    /// Makes a step, and says what came of it. Without memory nothing changes.
    pub fn step(&mut self, alloc: Global, step: &WorldStep) -> Result<StepAnswer, NoMemory>
        ensures made { IsMade (made (system_of self.old) (world_of self.old) step.now) (world_of self.old) result (world_of self.new) }
        ensures system { system_of self.new ≡ system_of self.old }
    {
        match step {
            WorldStep::Line {
                app,
                command,
                at,
                sure,
            } => self.line(alloc, app, command, *at, *sure),
            WorldStep::Deliver {
                follower,
                leader,
                id,
                at,
                sure,
            } => self.deliver(alloc, follower, leader, *id, *at, *sure),
            WorldStep::Stop { kept } => {
                self.stop(alloc, kept.as_slice());
                Ok(StepAnswer::Stopped)
            }
        }
    }

    /// Makes some steps, one after the other, or the first of them where memory is short.
    pub fn run(&mut self, alloc: Global, steps: &[WorldStep]) -> Result<(), NoMemory>
        ensures made { AreMade (system_of self.old) (world_of self.old) steps.now result (world_of self.new) }
        ensures runs { OnOk result (Runs (rules_of (system_of self.old)) (world_of self.old) steps.now (world_of self.new)) }
        ensures system { system_of self.new ≡ system_of self.old }
    {
        for step in steps {
            let _ = self.step(alloc, step)?;
        }
        Ok(())
    }

    // Puts an application among those that are down, where its recording will be in doubt.
    fn doubt(&mut self, app: &Text, sure: bool) -> Result<(), NoMemory>
        ensures down { OnOk result (self.new.down.items ≡ with_doubt self.old.down.items app.now sure) }
        ensures starved { OnErr result (self.new.down.items ≡ self.old.down.items) }
        ensures histories { self.new.histories.items ≡ self.old.histories.items }
        ensures system { self.new.sys ≡ self.old.sys }
    {
        if sure {
            return Ok(());
        }
        let name = app.copy()?;
        self.down.push(name)?;
        Ok(())
    }

    // What is answered where this came of a step, of which an application was put among those that are down where it isn't sure. It is taken back where
    // no recording was added.
    fn conclude(
        &mut self,
        answer: Result<StepAnswer, NoMemory>,
        sure: bool,
    ) -> Result<StepAnswer, NoMemory>
        ensures concludes { Concludes answer sure self.old.down.items result self.new.down.items }
        ensures histories { self.new.histories.items ≡ self.old.histories.items }
        ensures system { self.new.sys ≡ self.old.sys }
    {
        if sure {
            return answer;
        }
        if was_recorded(&answer) {
            return Ok(StepAnswer::Doubtful);
        }
        let _ = self.down.pop();
        answer
    }

    // What comes of a line.
    fn line(
        &mut self,
        alloc: Global,
        app: &Text,
        command: &Command,
        at: Moment,
        sure: bool,
    ) -> Result<StepAnswer, NoMemory>
        ensures made { IsMade (made_by (world_of self.old) app.now sure (lined (system_of self.old) (world_of self.old) app.now command.now at)) (world_of self.old) result (world_of self.new) }
        ensures system { system_of self.new ≡ system_of self.old }
    {
        if is_among(self.down.as_slice(), app) {
            return down(app);
        }
        let text = command_text(alloc, app, command)?;
        match asked_command(alloc, &self.sys, app, text.as_slice())? {
            Some(command) => self.command(alloc, app, text, &command, at, sure),
            None => Ok(StepAnswer::NoSuch),
        }
    }

    // What comes of a command that a text asks of an application which is there.
    fn command(
        &mut self,
        alloc: Global,
        app: &Text,
        text: Bytes,
        command: &Command,
        at: Moment,
        sure: bool,
    ) -> Result<StepAnswer, NoMemory>
        requires command { IsOfCommand (command_named self.old.sys command.now.class command.now.name) command.now.args }
        requires there { place_in self.old.histories.items app.now < length self.old.histories.items }
        ensures made { IsMade (made_by (world_of self.old) app.now sure (commanded (system_of self.old) app.now (histories_in self.old.histories.items app.now) text at command.now)) (world_of self.old) result (world_of self.new) }
        ensures system { system_of self.new ≡ system_of self.old }
    {
        self.doubt(app, sure)?;
        let histories = self.histories.as_mut_slice();
        let answer = command_at(alloc, &self.sys, histories, app, text, command, at);
        self.conclude(answer, sure)
    }

    // What comes of a delivery.
    fn deliver(
        &mut self,
        alloc: Global,
        follower: &Text,
        leader: &Text,
        id: u64,
        at: Moment,
        sure: bool,
    ) -> Result<StepAnswer, NoMemory>
        ensures made { IsMade (made_by (world_of self.old) follower.now sure (delivered (system_of self.old) (world_of self.old) follower.now leader.now id at)) (world_of self.old) result (world_of self.new) }
        ensures system { system_of self.new ≡ system_of self.old }
    {
        if is_among(self.down.as_slice(), follower) {
            return down(follower);
        }
        if is_among(self.down.as_slice(), leader) {
            return down(leader);
        }
        if id == 0 || !leads(alloc, &self.sys, leader, follower)? {
            return Ok(StepAnswer::NoSuch);
        }
        match entry_at(alloc, self.histories.as_mut_slice(), leader, id - 1)? {
            Some(entry) => self.notify(alloc, follower, leader, &entry, at, sure),
            None => Ok(StepAnswer::NoSuch),
        }
    }

    // What comes of a leader's notification that is there.
    fn notify(
        &mut self,
        alloc: Global,
        follower: &Text,
        leader: &Text,
        notification: &Notification,
        at: Moment,
        sure: bool,
    ) -> Result<StepAnswer, NoMemory>
        requires app { IsTrue (is_some (app_named self.old.sys.apps follower.now)) }
        requires leader { IsTrue (is_some (app_named self.old.sys.apps leader.now)) }
        requires there { place_in self.old.histories.items follower.now < length self.old.histories.items }
        requires small { IsSmall notification.now }
        ensures made { (entries : List _) → slice_get entries (notification.now.id - 1) ≡ Some notification.now.event
            → IsMade (made_by (world_of self.old) follower.now sure (come_to (system_of self.old) follower.now (histories_in self.old.histories.items follower.now) entries leader.now notification.now.id at)) (world_of self.old) result (world_of self.new) }
        ensures system { system_of self.new ≡ system_of self.old }
    {
        self.doubt(follower, sure)?;
        let histories = self.histories.as_mut_slice();
        let answer = notification_at(
            alloc,
            &self.sys,
            histories,
            follower,
            leader,
            notification,
            at,
        );
        self.conclude(answer, sure)
    }

    // What comes of a stop.
    fn stop(&mut self, alloc: Global, kept: &[Text])
        ensures left { world_of self.new ≡ stopped kept.now (world_of self.old) }
        ensures system { system_of self.new ≡ system_of self.old }
    {
        settle_each(
            alloc,
            self.histories.as_mut_slice(),
            self.down.as_slice(),
            kept,
        );
        self.down.clear();
    }
}
