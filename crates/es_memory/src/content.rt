ghost use Rattle.std.specs.Prelude.{◌≡◌, ◌≤◌, ◌↔◌, IsTrue, length};
ghost use Rattle.es_memory.specs.Contents.{place_of, AreFormed};

use crate::is_formed;
use es_model::{List, Recordings, Snapshots, Text};

/// What is held for one application.
#[derive(Debug, Drop)]
pub struct Content {
    pub app: Text,
    pub recordings: Recordings,
    pub snapshots: Snapshots,
}

/// What is held for each application. Where a name stands twice, its first entry counts.
pub type Contents = List<Content>;

/// Whether every history is formed.
pub fn are_formed(contents: &Contents) -> bool
    ensures { IsTrue result ↔ AreFormed contents.now }
{
    contents.as_slice().iter().all(|c| is_formed(&c.recordings))
}

// The place of the first entry of a name, or the number of entries.
pub fn place(contents: &[Content], app: &Text) -> usize
    ensures place { result ≡ place_of contents.now app.now }
    ensures within { result ≤ length contents.now }
{
    for (i, content) in contents.iter().enumerate() {
        if app.as_str() == content.app.as_str() {
            return i;
        }
    }
    contents.len()
}
