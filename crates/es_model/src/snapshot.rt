ghost use Rattle.std.specs.Prelude.{◌≡◌, ◌++◌, ◌∷◌, [], false, IfOk, OnOk, OnErr, All};
ghost use Rattle.es_model.specs.Snapshots.{is_same, put_snapshot, AreSnapshots, IsSmallSnapshot};

use crate::{Bytes, Duplicate, List, Moment, NoMemory, Text};
use std::alloc::Global;
use uuid::Uuid;

/// The state of an aggregate at one of its versions, with its class and the version of that.
#[derive(Debug, Drop)]
pub struct Snapshot {
    pub originator_id: Uuid,
    pub originator_version: u64,
    pub topic: Text,
    pub class_version: u64,
    pub created_on: Moment,
    pub modified_on: Moment,
    pub state: Bytes,
}

impl Duplicate for Snapshot {
    fn copy(&self) -> Result<Snapshot, NoMemory> {
        Ok(Snapshot {
            originator_id: self.originator_id,
            originator_version: self.originator_version,
            topic: self.topic.copy()?,
            class_version: self.class_version,
            created_on: self.created_on,
            modified_on: self.modified_on,
            state: self.state.copy()?,
        })
    }
}

// Whether two snapshots are of one aggregate at one version.
fn is_same_version(a: &Snapshot, b: &Snapshot) -> bool
    ensures { result ≡ is_same a.now b.now }
{
    a.originator_id == b.originator_id && a.originator_version == b.originator_version
}

// Puts a snapshot last, without the ones of its aggregate and version.
fn put_last(list: &mut List<Snapshot>, snapshot: Snapshot) -> Result<(), NoMemory>
    ensures ok { OnOk result (list.new ≡ put_snapshot list.old snapshot) }
    ensures err { OnErr result (list.new ≡ list.old) }
{
    list.items.reserve(1)?;
    list.items.retain(|s| !is_same_version(s, &snapshot));
    list.items.push(snapshot)?;
    Ok(())
}

/// Snapshots in the order in which they were put, at most one of each version of an aggregate.
#[derive(Debug, Drop)]
pub struct Snapshots {
    items: List<Snapshot>,
    ghost once: { AreSnapshots items },
}

impl Snapshots {
    pub fn new(alloc: Global) -> Snapshots
        ensures { result.items ≡ [] }
    {
        Snapshots {
            items: List::new(alloc),
        }
    }

    /// Adds a snapshot whose aggregate has none at its version.
    pub fn push(&mut self, snapshot: Snapshot) -> Result<(), NoMemory>
        requires new { All (λ s. is_same s snapshot ≡ false) self.old.items }
        requires small { IsSmallSnapshot snapshot }
        ensures ok { OnOk result (self.new.items ≡ self.old.items ++ snapshot ∷ []) }
        ensures err { OnErr result (self.new.items ≡ self.old.items) }
    {
        self.items.push(snapshot)?;
        Ok(())
    }

    /// Adds a snapshot in place of the one that its aggregate has at its version.
    pub fn put(&mut self, snapshot: Snapshot) -> Result<(), NoMemory>
        requires { IsSmallSnapshot snapshot }
        ensures ok { OnOk result (self.new.items ≡ put_snapshot self.old.items snapshot) }
        ensures err { OnErr result (self.new.items ≡ self.old.items) }
    {
        put_last(&mut self.items, snapshot)?;
        Ok(())
    }

    pub fn as_slice(&self) -> &[Snapshot]
        ensures { result.now ≡ self.now.items }
    {
        self.items.as_slice()
    }
}

impl Duplicate for Snapshots {
    fn copy(&self) -> Result<Snapshots, NoMemory> {
        Ok(Snapshots {
            items: self.items.copy()?,
        })
    }
}
