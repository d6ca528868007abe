ghost use Rattle.std.specs.Prelude.{◌≡◌, IfOk};

use crate::memory::both;
use crate::{Duplicate, Expr, Kind, List, NoMemory, Rising, Text, Value};

/// Names in the order of their declaration.
pub type Names = List<Text>;

/// Lists of applications, of which each member leads the next.
pub type Pipes = List<Names>;

/// A kind for each name.
pub type Kinds = Rising<Kind>;

/// An expression for each name.
pub type Assigns = Rising<Expr>;

/// For each class version of an event but the last, the edits that lead to the next one.
pub type Upcasts = List<List<Edit>>;

pub type Apps = List<App>;

pub type Classes = List<Class>;

pub type Rules = List<Rule>;

pub type Guards = List<Guard>;

pub type Triggers = List<Trigger>;

pub type EventClasses = List<EventClass>;

pub type CommandDefs = List<CommandDef>;

/// A declared system.
#[derive(Drop)]
pub struct System {
    pub apps: Apps,
    pub classes: Classes,
    pub pipes: Pipes,
}

/// An application: the classes whose aggregates it keeps, and what it does on a leader's events.
#[derive(Drop)]
pub struct App {
    pub name: Text,
    pub classes: Names,
    pub policies: Rules,
    pub section_size: Option<u64>,
}

/// A class of aggregates. A snapshot is taken at each multiple of the interval.
#[derive(Drop)]
pub struct Class {
    pub name: Text,
    pub version: u64,
    pub interval: Option<u64>,
    pub fields: Kinds,
    pub created: EventClass,
    pub events: EventClasses,
    pub commands: CommandDefs,
}

/// A class of events: its fields, and what they assign to the aggregate's.
#[derive(Drop)]
pub struct EventClass {
    pub topic: Text,
    pub fields: Kinds,
    pub upcasts: Upcasts,
    pub assigns: Assigns,
}

/// A command of a class. Its guards are tried first, then its triggers run.
#[derive(Drop)]
pub struct CommandDef {
    pub name: Text,
    pub params: Kinds,
    pub guards: Guards,
    pub triggers: Triggers,
}

/// What has to be true, and the code of the refusal where it isn't.
#[derive(Drop)]
pub struct Guard {
    pub that: Expr,
    pub code: Text,
}

/// An event that a command triggers, with its fields.
#[derive(Drop)]
pub struct Trigger {
    pub event: Text,
    pub fields: Assigns,
}

/// The command that an application runs on a topic of a leader.
#[derive(Drop)]
pub struct Rule {
    pub topic: Text,
    pub leader: Option<Text>,
    pub when: Option<Expr>,
    pub target: Expr,
    pub command: Text,
    pub args: Assigns,
    pub otherwise: Otherwise,
}

/// What a refused rule does: nothing, or it refuses the whole decision.
#[derive(Clone, Copy, Debug, PartialEq, Eq)]
pub enum Otherwise {
    Skip,
    Refuse,
}

/// A change of the fields from one class version of an event to the next.
#[derive(Drop)]
pub enum Edit {
    Add { name: Text, value: Value },
    Rename { from: Text, to: Text },
    Drop { name: Text },
}

/// Why a document is no declaration.
#[derive(Clone, Copy, Debug, PartialEq, Eq)]
pub enum Code {
    Long,
    Json,
    Form,
    Limit,
    Name,
    Repeat,
    Unknown,
    Kind,
    Fields,
    Order,
    Pipe,
}

impl Duplicate for System {
    fn copy(&self) -> Result<System, NoMemory> {
        let ((apps, classes), pipes) = both(
            both(self.apps.copy(), self.classes.copy()),
            self.pipes.copy(),
        )?;
        Ok(System {
            apps,
            classes,
            pipes,
        })
    }
}

impl Duplicate for App {
    fn copy(&self) -> Result<App, NoMemory> {
        let ((name, classes), policies) = both(
            both(self.name.copy(), self.classes.copy()),
            self.policies.copy(),
        )?;
        Ok(App {
            name,
            classes,
            policies,
            section_size: self.section_size,
        })
    }
}

impl Duplicate for Class {
    fn copy(&self) -> Result<Class, NoMemory> {
        let ((name, fields), (created, (events, commands))) = both(
            both(self.name.copy(), self.fields.copy()),
            both(
                self.created.copy(),
                both(self.events.copy(), self.commands.copy()),
            ),
        )?;
        Ok(Class {
            name,
            version: self.version,
            interval: self.interval,
            fields,
            created,
            events,
            commands,
        })
    }
}

impl Duplicate for EventClass {
    fn copy(&self) -> Result<EventClass, NoMemory> {
        let ((topic, fields), (upcasts, assigns)) = both(
            both(self.topic.copy(), self.fields.copy()),
            both(self.upcasts.copy(), self.assigns.copy()),
        )?;
        Ok(EventClass {
            topic,
            fields,
            upcasts,
            assigns,
        })
    }
}

impl Duplicate for CommandDef {
    fn copy(&self) -> Result<CommandDef, NoMemory> {
        let ((name, params), (guards, triggers)) = both(
            both(self.name.copy(), self.params.copy()),
            both(self.guards.copy(), self.triggers.copy()),
        )?;
        Ok(CommandDef {
            name,
            params,
            guards,
            triggers,
        })
    }
}

impl Duplicate for Guard {
    fn copy(&self) -> Result<Guard, NoMemory> {
        let (that, code) = both(self.that.copy(), self.code.copy())?;
        Ok(Guard { that, code })
    }
}

impl Duplicate for Trigger {
    fn copy(&self) -> Result<Trigger, NoMemory> {
        let (event, fields) = both(self.event.copy(), self.fields.copy())?;
        Ok(Trigger { event, fields })
    }
}

// A copy of when a rule applies: its leader, and what has to be true.
fn condition(rule: &Rule) -> Result<(Option<Text>, Option<Expr>), NoMemory>
    ensures { IfOk result (λ c. (c.0 ≡ rule.now.leader) × (c.1 ≡ rule.now.when)) }
{
    both(rule.leader.copy(), rule.when.copy())
}

// A copy of the command that a rule runs: its name, and the arguments.
fn call(rule: &Rule) -> Result<(Text, Assigns), NoMemory>
    ensures { IfOk result (λ c. (c.0 ≡ rule.now.command) × (c.1 ≡ rule.now.args)) }
{
    both(rule.command.copy(), rule.args.copy())
}

// A copy of what a rule goes by: its topic, and the aggregate that the command is for.
fn aim(rule: &Rule) -> Result<(Text, Expr), NoMemory>
    ensures { IfOk result (λ c. (c.0 ≡ rule.now.topic) × (c.1 ≡ rule.now.target)) }
{
    both(rule.topic.copy(), rule.target.copy())
}

impl Duplicate for Rule {
    fn copy(&self) -> Result<Rule, NoMemory> {
        let ((topic, target), ((leader, when), (command, args))) = both(
            aim(self),
            both(condition(self), call(self)),
        )?;
        Ok(Rule {
            topic,
            leader,
            when,
            target,
            command,
            args,
            otherwise: self.otherwise,
        })
    }
}

impl Duplicate for Edit {
    fn copy(&self) -> Result<Edit, NoMemory> {
        match self {
            Edit::Add { name, value } => {
                let (name, value) = both(name.copy(), value.copy())?;
                Ok(Edit::Add { name, value })
            }
            Edit::Rename { from, to } => {
                let (from, to) = both(from.copy(), to.copy())?;
                Ok(Edit::Rename { from, to })
            }
            Edit::Drop { name } => Ok(Edit::Drop { name: name.copy()? }),
        }
    }
}
