// Worked examples with two and three pens, which the tests run.
ghost use Rattle.std.specs.Prelude.{◌≡◌, ◌++◌, ◌∷◌, [], OnOk};
ghost use mathlib.Core.List.{IsPrefix};
ghost use Rattle.es_ties.specs.Seen.{of_log, log_count, IsWithin};

use crate::{Numbers, Pen, Reader, Ties, settle};
use es_model::NoMemory;
use std::alloc::Global;

// The second pen appends and makes a note, and the first learns it. A reader of the first has seen what it has.
pub fn tell(
    ties: &Ties<u64>,
    first: &mut Pen<u64>,
    second: &mut Pen<u64>,
    entry: &Numbers,
) -> Reader<u64>
    requires { (first.old.ties ≡ ties.now) × (second.old.ties ≡ ties.now) }
    ensures first { (first.new.ties ≡ first.old.ties) × (first.new.log ≡ first.old.log) }
    ensures second { (second.new.ties ≡ second.old.ties) × (second.new.log ≡ second.old.log) }
    ensures own { of_log second.new.seen second.old.log ≡ of_log second.old.seen second.old.log ++ entry.now }
    ensures told { IsPrefix (of_log second.old.seen second.old.log ++ entry.now) (of_log first.new.seen second.old.log) }
    ensures reader { (result.ties ≡ first.old.ties) × (result.seen ≡ first.new.seen) }
{
    second.append(ties, entry);
    let note = second.note(ties);
    first.learn(ties, note);
    first.reader(ties)
}

// With the starts [[1], []], the first pen and a reader of it have then seen 7 in the second log.
pub fn tell_seven(
    ties: &Ties<u64>,
    first: &mut Pen<u64>,
    second: &mut Pen<u64>,
    seven: &Numbers,
) -> Reader<u64>
    requires first { first.old ≡ record { ties = ties.now; log = 0; seen = (1 ∷ []) ∷ [] ∷ [] } }
    requires second { second.old ≡ record { ties = ties.now; log = 1; seen = (1 ∷ []) ∷ [] ∷ [] } }
    requires seven { seven.now ≡ 7 ∷ [] }
    ensures first { (first.new.ties ≡ ties.now) × (first.new.log ≡ 0) × IsPrefix (7 ∷ []) (of_log first.new.seen 1) }
    ensures second { (second.new.ties ≡ ties.now) × (second.new.log ≡ 1) × (of_log second.new.seen 1 ≡ 7 ∷ []) }
    ensures reader { (result.ties ≡ ties.now) × IsPrefix (7 ∷ []) (of_log result.seen 1) }
{
    tell(ties, first, second, seven)
}

// The end of two logs. What was seen of the second is then known to be a prefix of it.
pub fn settle_two(
    alloc: Global,
    ties: Ties<u64>,
    first: Pen<u64>,
    second: Pen<u64>,
    reader: Reader<u64>,
) -> Result<(), NoMemory>
    requires count { log_count ties ≡ 2 }
    requires first { (first.ties ≡ ties) × (first.log ≡ 0) }
    requires second { (second.ties ≡ ties) × (second.log ≡ 1) }
    requires reader { reader.ties ≡ ties }
    ensures first { OnOk result (IsPrefix (of_log first.seen 1) (of_log second.seen 1)) }
    ensures reader { OnOk result (IsPrefix (of_log reader.seen 1) (of_log second.seen 1)) }
{
    let pens = Vec::from_array(alloc, [first, second])?;
    let readers = Vec::from_array(alloc, [reader])?;
    settle(ties, pens, readers);
    Ok(())
}

// Two pens append, then each makes its note, and then each learns the other's.
pub fn cross(ties: &Ties<u64>, one: &mut Pen<u64>, other: &mut Pen<u64>, entry: &Numbers)
    requires { (one.old.ties ≡ ties.now) × (other.old.ties ≡ ties.now) }
    ensures one { (one.new.ties ≡ ties.now) × (one.new.log ≡ one.old.log) }
    ensures other { (other.new.ties ≡ ties.now) × (other.new.log ≡ other.old.log) }
    ensures told { IsPrefix (of_log one.old.seen one.old.log ++ entry.now) (of_log other.new.seen one.old.log) }
    ensures told_back { IsPrefix (of_log other.old.seen other.old.log ++ entry.now) (of_log one.new.seen other.old.log) }
    ensures all { IsWithin one.old.seen other.new.seen }
{
    one.append(ties, entry);
    other.append(ties, entry);
    let from_one = one.note(ties);
    let from_other = other.note(ties);
    one.learn(ties, from_other);
    other.learn(ties, from_one);
}

// The third pen, which never met the first, has then seen what the first wrote.
pub fn cross_three(
    ties: &Ties<u64>,
    first: &mut Pen<u64>,
    second: &mut Pen<u64>,
    third: &mut Pen<u64>,
    entry: &Numbers,
)
    requires { (first.old.ties ≡ ties.now) × (second.old.ties ≡ ties.now) × (third.old.ties ≡ ties.now) }
    ensures first { (first.new.ties ≡ ties.now) × (first.new.log ≡ first.old.log) }
    ensures second { (second.new.ties ≡ ties.now) × (second.new.log ≡ second.old.log) }
    ensures third { (third.new.ties ≡ ties.now) × (third.new.log ≡ third.old.log) }
    ensures told { IsPrefix (of_log first.old.seen first.old.log ++ entry.now) (of_log third.new.seen first.old.log) }
{
    cross(ties, first, second, entry);
    cross(ties, second, third, entry);
}

// The end of three logs. What the first and the third pen have seen of each other is then known to be a prefix of it.
pub fn settle_three(
    alloc: Global,
    ties: Ties<u64>,
    first: Pen<u64>,
    second: Pen<u64>,
    third: Pen<u64>,
) -> Result<(), NoMemory>
    requires count { log_count ties ≡ 3 }
    requires first { (first.ties ≡ ties) × (first.log ≡ 0) }
    requires second { (second.ties ≡ ties) × (second.log ≡ 1) }
    requires third { (third.ties ≡ ties) × (third.log ≡ 2) }
    ensures first { OnOk result (IsPrefix (of_log first.seen 2) (of_log third.seen 2)) }
    ensures third { OnOk result (IsPrefix (of_log third.seen 0) (of_log first.seen 0)) }
{
    let pens = Vec::from_array(alloc, [first, second, third])?;
    settle(ties, pens, Vec::new(alloc));
    Ok(())
}
