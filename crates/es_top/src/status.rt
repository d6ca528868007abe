ghost use Rattle.std.specs.Prelude.{◌≡◌};
ghost use Rattle.es_top.specs.Ends.{code_of};

use es_lines::End;
use es_model::{Code, Counts, Text};

/// How a run ended: as its end line tells it, or because the sink failed.
#[derive(Debug, Drop)]
pub enum Status {
    Ok {
        added: Counts,
        lines: u64,
    },
    Memory,
    Usage,
    Declaration {
        code: Code,
        path: Text,
    },
    System,
    Input,
    Sink,
    Recorder,
    Refused {
        app: Text,
        leader: Text,
        id: u64,
        recordings: u64,
        code: Text,
        rule: u64,
    },
    Turns {
        app: Text,
        turns: u64,
    },
    Unreadable {
        app: Text,
        id: u64,
    },
    Full {
        app: Text,
        last: u64,
        capacity: u64,
    },
    Over,
    Ahead {
        app: Text,
        leader: Text,
        tracked: u64,
        last: u64,
    },
}

impl Status {
    /// The number with which the program ends.
    pub fn code(&self) -> u8
        ensures { result ≡ code_of self.now }
    {
        match self {
            Status::Ok { added: _, lines: _ } => 0,
            Status::Memory => 1,
            Status::Usage => 2,
            Status::Declaration { code: _, path: _ } => 3,
            Status::System => 4,
            Status::Input => 5,
            Status::Sink => 6,
            Status::Recorder => 7,
            Status::Refused {
                app: _,
                leader: _,
                id: _,
                recordings: _,
                code: _,
                rule: _,
            } => 8,
            Status::Turns { app: _, turns: _ } => 9,
            Status::Unreadable { app: _, id: _ } => 11,
            Status::Full {
                app: _,
                last: _,
                capacity: _,
            } => 12,
            Status::Over => 13,
            Status::Ahead {
                app: _,
                leader: _,
                tracked: _,
                last: _,
            } => 10,
        }
    }
}

// The status of a follower that refused.
fn refused_status(
    app: Text,
    leader: Text,
    id: u64,
    recordings: u64,
    code: Text,
    rule: u64,
) -> Status
    ensures { result ≡ Status.Refused app leader id recordings code rule }
{
    Status::Refused {
        app,
        leader,
        id,
        recordings,
        code,
        rule,
    }
}

// The status of a follower that is ahead.
fn ahead_status(app: Text, leader: Text, tracked: u64, last: u64) -> Status
    ensures { result ≡ Status.Ahead app leader tracked last }
{
    Status::Ahead {
        app,
        leader,
        tracked,
        last,
    }
}

impl From<End> for Status {
    ghost use Rattle.std.specs.Prelude.{◌≡◌, Some};
    ghost use Rattle.es_top.specs.Ends.{ended};

    ghost from_gives = { λ end status. ended status ≡ Some end };

    fn from(end: End) -> Status {
        match end {
            End::Ok { added, lines } => Status::Ok { added, lines },
            End::Memory => Status::Memory,
            End::Usage => Status::Usage,
            End::Declaration { code, path } => Status::Declaration { code, path },
            End::System => Status::System,
            End::Input => Status::Input,
            End::Recorder => Status::Recorder,
            End::Refused {
                app,
                leader,
                id,
                recordings,
                code,
                rule,
            } => refused_status(app, leader, id, recordings, code, rule),
            End::Turns { app, turns } => Status::Turns { app, turns },
            End::Unreadable { app, id } => Status::Unreadable { app, id },
            End::Full {
                app,
                last,
                capacity,
            } => Status::Full {
                app,
                last,
                capacity,
            },
            End::Over => Status::Over,
            End::Ahead {
                app,
                leader,
                tracked,
                last,
            } => ahead_status(app, leader, tracked, last),
        }
    }
}
