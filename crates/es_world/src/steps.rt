//! The steps of a world, and what is answered to them.

use es_domain::Command;
use es_model::{List, Moment, Names, Recordings, Text};

/// The recordings of one application.
#[derive(Debug, Drop)]
pub struct AppHistory {
    pub app: Text,
    pub recordings: Recordings,
}

/// The recordings of each application.
pub type Histories = List<AppHistory>;

/// A step of a world. Where a recording isn't sure it is in doubt, and its application is down until the next stop.
#[derive(Debug, Drop)]
pub enum WorldStep {
    /// A line of an application with a command.
    Line {
        app: Text,
        command: Command,
        at: Moment,
        sure: bool,
    },
    /// The delivery of a leader's notification to a follower.
    Deliver {
        follower: Text,
        leader: Text,
        id: u64,
        at: Moment,
        sure: bool,
    },
    /// A stop that keeps the doubtful recordings of these applications, and takes the others away.
    Stop {
        kept: Names,
    },
}

/// What is answered to a step.
#[derive(Debug, Drop)]
pub enum StepAnswer {
    /// A recording was added.
    Recorded,
    /// A recording was added and is in doubt.
    Doubtful,
    /// Nobody is down any more.
    Stopped,
    /// The notification is tracked already.
    Skipped { tracked: u64 },
    /// The notification isn't the next one.
    Gap { tracked: u64 },
    /// There is no such application, pair, command or notification.
    NoSuch,
    /// The aggregate has another version than the command expects.
    Conflict { latest: u64 },
    /// The command was refused, or the policy by a rule.
    Refused { code: Text, rule: u64 },
    /// An entry that is needed has no meaning.
    Unreadable { app: Text, id: u64 },
    /// This application is down: that of the line, or the follower, or else the leader.
    Down { app: Text },
}
