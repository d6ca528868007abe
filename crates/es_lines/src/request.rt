use es_domain::Command;
use es_model::{Duplicate, NoMemory, Text};
use uuid::Uuid;

/// What a line asks for.
#[derive(Debug, Drop)]
pub enum Request {
    /// A command for an aggregate of an application.
    Do {
        app: Text,
        command: Command,
    },
    /// An aggregate of an application, at a version or at its latest.
    Get {
        app: Text,
        id: Uuid,
        version: Option<u64>,
    },
    /// A section of an application's notification log, by a text that says which.
    Log {
        app: Text,
        section: Text,
    },
    /// How far an application has come with the notifications of one of its leaders.
    Tracking {
        app: Text,
        leader: Text,
    },
    /// That a snapshot is taken of an aggregate of an application.
    Snapshot {
        app: Text,
        id: Uuid,
    },
    /// That the followers reach their leaders.
    Sync,
    /// That no further line is answered.
    Stop,
}

impl Duplicate for Request {
    fn copy(&self) -> Result<Request, NoMemory> {
        match self {
            Request::Do { app, command } => Ok(Request::Do {
                app: app.copy()?,
                command: command.copy()?,
            }),
            Request::Get { app, id, version } => Ok(Request::Get {
                app: app.copy()?,
                id: *id,
                version: *version,
            }),
            Request::Log { app, section } => Ok(Request::Log {
                app: app.copy()?,
                section: section.copy()?,
            }),
            Request::Tracking { app, leader } => Ok(Request::Tracking {
                app: app.copy()?,
                leader: leader.copy()?,
            }),
            Request::Snapshot { app, id } => Ok(Request::Snapshot {
                app: app.copy()?,
                id: *id,
            }),
            Request::Sync => Ok(Request::Sync),
            Request::Stop => Ok(Request::Stop),
        }
    }
}
