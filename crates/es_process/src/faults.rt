use es_model::{CallFault, NoMemory, Text};

/// Why a run doesn't go on.
#[derive(Debug, Drop)]
pub enum RunFault {
    /// The policy of an application with so many recordings refused a notification of a leader.
    Refused {
        app: Text,
        leader: Text,
        id: u64,
        recordings: u64,
        code: Text,
        rule: u64,
    },
    /// An application has recorded as many notifications as it may.
    Turns {
        app: Text,
        turns: u64,
    },
    /// An entry of an application's log has no meaning.
    Unreadable {
        app: Text,
        id: u64,
    },
    Full {
        app: Text,
        last: u64,
        capacity: u64,
    },
    Recorder,
    NoMemory,
}

impl From<NoMemory> for RunFault {
    ghost use Rattle.std.specs.Prelude.{◌≡◌};
    ghost use Rattle.es_process.specs.declared.faults.RunFault.TheVariants as faults;

    ghost from_gives = { λ _ e. e ≡ faults.NoMemory };

    fn from(_: NoMemory) -> RunFault {
        RunFault::NoMemory
    }
}

impl From<CallFault> for RunFault {
    ghost use Rattle.std.specs.Prelude.{◌≡◌};
    ghost use Rattle.es_process.specs.Faults.{of_call};

    ghost from_gives = { λ fault e. e ≡ of_call fault };

    fn from(fault: CallFault) -> RunFault {
        match fault {
            CallFault::Failed => RunFault::Recorder,
            CallFault::NoMemory => RunFault::NoMemory,
        }
    }
}
