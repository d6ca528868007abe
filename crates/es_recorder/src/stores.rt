ghost use Rattle.std.specs.Prelude.{◌≡◌, ◌≤◌, ◌<◌, ◌^◌, ℕ, List, Option, Some, IfSome, IfOk, Bool, true, false, OnOk, OnErr};
ghost use Rattle.es_model.specs.declared.event.Recording.{Recording};
ghost use Rattle.es_model.specs.declared.snapshot.Snapshot.{Snapshot};
ghost use Rattle.es_model.specs.Causes.{CallHasCause, Rose};
ghost use Rattle.es_model.specs.History.{Histories, IsFormed};
ghost use Rattle.es_model.specs.Snapshots.{AreSnapshots};
ghost use Rattle.es_model.specs.Values.{Name};
ghost use Rattle.es_recorder.specs.Held.{put, SameElsewhere, ClosesTold};
ghost use Rattle.es_recorder.specs.Stable.{ArePrefixesTold};

use crate::ProcessRecorder;
use es_model::{CallFault, Text};

/// What keeps a recorder for each application.
pub trait Stores {
    type R: ProcessRecorder;

    /// The history of each application that isn't out, where they are told.
    ghost held: { Self → Option Histories };

    /// What of these a stop surely leaves, where it is told.
    ghost stable: { Self → Option Histories };

    /// The snapshots of each application that isn't out, where they are told.
    ghost snapshots: { Self → Option (Name → List Snapshot) };

    /// Which applications' recorders are out.
    ghost out: { Self → Name → Bool };

    /// How often opening, or a recorder that was closed, has failed.
    ghost faults: { Self → ℕ };

    /// Hands an application's recorder out, until it is closed. In one run every call has the same
    /// place. To open one that is out counts as a fault.
    fn open(
        &mut self,
        place: Option<&Text>,
        app: &Text,
        capacity: u64,
    ) -> Result<Self::R, CallFault>
        requires { capacity < 2 ^ 62 }
        ensures opened { IfSome (held self.old) (λ h. IfOk result (λ r. Self.R.history r ≡ Some (h app.now))) }
        ensures opened_snapshots { IfSome (snapshots self.old) (λ q. IfOk result (λ r. Self.R.snapshots r ≡ Some (q app.now))) }
        ensures settled { IfOk result (λ r. Self.R.settled r ≡ true) }
        ensures capacity { IfOk result (λ r. Self.R.capacity r ≡ capacity) }
        ensures fresh { IfOk result (λ r. Self.R.faults r ≡ 0) }
        ensures was_in { OnOk result (out self.old app.now ≡ false) }
        ensures twice { out self.old app.now ≡ true → Rose (faults self.old) (faults self.new) }
        ensures out { OnOk result ((name : Name) → out self.new name ≡ put (out self.old) app.now true name) }
        ensures others { SameElsewhere app.now (held self.old) (held self.new) }
        ensures other_snapshots { SameElsewhere app.now (snapshots self.old) (snapshots self.new) }
        ensures other_stable { SameElsewhere app.now (stable self.old) (stable self.new) }
        ensures refused { OnErr result (held self.new ≡ held self.old) }
        ensures refused_snapshots { OnErr result (snapshots self.new ≡ snapshots self.old) }
        ensures refused_stable { OnErr result (stable self.new ≡ stable self.old) }
        ensures still { OnErr result ((name : Name) → out self.new name ≡ out self.old name) }
        ensures cause { CallHasCause (faults self.old) (faults self.new) result };

    /// Takes a recorder back, with all that it holds. It can't be refused, and takes no memory.
    fn close(&mut self, app: &Text, recorder: Self::R)
        ensures closed { ClosesTold (out self.old app.now) (held self.old) app.now (Self.R.history recorder) (held self.new) }
        ensures closed_snapshots { ClosesTold (out self.old app.now) (snapshots self.old) app.now (Self.R.snapshots recorder) (snapshots self.new) }
        ensures closed_stable { ClosesTold (out self.old app.now) (stable self.old) app.now (Self.R.stable recorder) (stable self.new) }
        ensures in_again { (name : Name) → out self.new name ≡ put (out self.old) app.now false name }
        ensures later { faults self.old ≤ faults self.new }
        ensures risen { 0 < Self.R.faults recorder → Rose (faults self.old) (faults self.new) };

    /// Each history that is told is formed.
    ghost formed: { (s : Self) → IfSome (held s) (λ h. (name : Name) → IsFormed (h name)) };

    /// What a stop leaves is a front of each history.
    ghost stable_is_front: { (s : Self) → ArePrefixesTold (stable s) (held s) };

    /// The snapshots that are told have each pair of id and version once, and small numbers.
    ghost snapshots_once: { (s : Self) → IfSome (snapshots s) (λ q. (name : Name) → AreSnapshots (q name)) };
}
