//! The names that a walk has seen, in an ordered set.
ghost use Rattle.std.specs.Prelude.{◌≡◌, ◌||◌, not, List, ℕ, IfOk, OnOk};
ghost use Rattle.std.specs.Str.{bytes_eq};
ghost use Rattle.es_expr.specs.inner.Seen.{has_seen};

use std::alloc::AllocError;
use std::collections::BTreeSet;

// Adds a name to those that were seen. Whether it is new.
pub(crate) fn see<'a>(seen: &mut BTreeSet<&'a str>, name: &'a str) -> Result<bool, AllocError>
    ensures new { IfOk result (λ b. b ≡ not (has_seen seen.old name.now)) }
    ensures seen { OnOk result ((q : List ℕ) → has_seen seen.new q ≡ (bytes_eq name.now q || has_seen seen.old q)) }
{
    Ok(seen.insert(name)?)
}
