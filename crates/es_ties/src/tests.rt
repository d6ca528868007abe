ghost use Rattle.std.specs.Prelude.{◌≡◌, ◌<◌, ◌+◌, ◌∷◌, [], IfOk, OnOk, length, vec_len};
ghost use Rattle.es_ties.specs.Seen.{log_count, AreFirstPens};

use super::*;
use crate::examples::{cross_three, settle_three, settle_two, tell_seven};
use es_model::NoMemory;
use std::alloc::Global;
use std::test::Fail;
use std::thread::{Threads, join};

fn numbers(alloc: Global, items: &[u64]) -> Result<Numbers, NoMemory>
    ensures { IfOk result (λ n. n ≡ items.now) }
{
    Ok(Numbers::from_vec(items.to_vec(alloc)?))
}

fn opened(alloc: Global, starts: &[Numbers]) -> Result<(Ties<u64>, Vec<Pen<u64>>), NoMemory>
    requires { 0 < length starts.now }
    ensures count { IfOk result (λ made. (log_count made.0 ≡ length starts.now) × (vec_len made.1 ≡ length starts.now)) }
    ensures pens { IfOk result (λ made. AreFirstPens made.0 starts.now made.1.items) }
{
    Ties::new(alloc, starts)
}

// The pen of the last log.
fn last_pen(
    ties: &Ties<u64>,
    starts: &[Numbers],
    pens: &mut Vec<Pen<u64>>,
) -> Result<Pen<u64>, Fail>
    requires { AreFirstPens ties.now starts.now pens.old.items }
    ensures pens { OnOk result (AreFirstPens ties.now starts.now pens.new.items × (vec_len pens.new + 1 ≡ vec_len pens.old)) }
    ensures last { IfOk result (λ p. p ≡ record { ties = ties.now; log = vec_len pens.new; seen = starts.now }) }
{
    let _ = ties;
    let _ = starts;
    Ok(pens.pop().ok_or("no pen is left")?)
}

// The starts [[1], []].
fn two_starts(alloc: Global) -> Result<Vec<Numbers>, Fail>
    ensures { IfOk result (λ starts. starts.items ≡ (1 ∷ []) ∷ [] ∷ []) }
{
    let one = numbers(alloc, &[1])?;
    Ok(Vec::from_array(alloc, [one, Numbers::new(alloc)])?)
}

#[test]
fn learns_what_another_wrote(rt: HostRuntime) -> Result<(), Fail> {
    let alloc = rt.alloc();
    let starts = two_starts(alloc)?;
    let seven = numbers(alloc, &[7])?;
    let (ties, mut pens) = opened(alloc, starts.as_slice())?;
    let mut second = last_pen(&ties, starts.as_slice(), &mut pens)?;
    let mut first = last_pen(&ties, starts.as_slice(), &mut pens)?;
    let reader = tell_seven(&ties, &mut first, &mut second, &seven);
    assert_eq!(rt; [appends(&ties, 0), appends(&ties, 1)], [0, 1]);
    settle_two(alloc, ties, first, second, reader)?;
    Ok(())
}

#[test]
fn notes_cross_between_three_logs(rt: HostRuntime) -> Result<(), Fail> {
    let alloc = rt.alloc();
    let entry = numbers(alloc, &[5, 6])?;
    let empty = [
        Numbers::new(alloc),
        Numbers::new(alloc),
        Numbers::new(alloc),
    ];
    let starts = Vec::from_array(alloc, empty)?;
    let (ties, mut pens) = opened(alloc, starts.as_slice())?;
    let mut third = last_pen(&ties, starts.as_slice(), &mut pens)?;
    let mut second = last_pen(&ties, starts.as_slice(), &mut pens)?;
    let mut first = last_pen(&ties, starts.as_slice(), &mut pens)?;
    cross_three(&ties, &mut first, &mut second, &mut third, &entry);
    assert_eq!(rt;
        [appends(&ties, 0), appends(&ties, 1), appends(&ties, 2)],
        [1, 2, 1]
    );
    cross_three(&ties, &mut first, &mut second, &mut third, &entry);
    assert_eq!(rt;
        [appends(&ties, 0), appends(&ties, 1), appends(&ties, 2)],
        [2, 4, 2]
    );
    settle_three(alloc, ties, first, second, third)?;
    Ok(())
}

// The pen appends some times, and makes a note after each.
fn write(ties: &Ties<u64>, mut pen: Pen<u64>, entry: &Numbers) -> (Pen<u64>, Note<u64>)
    requires { pen.ties ≡ ties.now }
    ensures pen { (result.0.ties ≡ ties.now) × (result.0.log ≡ pen.log) }
    ensures note { (result.1.ties ≡ ties.now) × (result.1.seen ≡ result.0.seen) }
{
    let mut note = pen.note(ties);
    for _ in 0..100 {
        pen.append(ties, entry);
        note = pen.note(ties);
    }
    (pen, note)
}

// Two threads write beside each other, and then each pen learns what the other has seen.
fn write_beside<R: Threads + Sync>(
    rt: &R,
    ties: &Ties<u64>,
    first: Pen<u64>,
    second: Pen<u64>,
    entry: &Numbers,
) -> (Pen<u64>, Pen<u64>)
    requires { (first.ties ≡ ties.now) × (second.ties ≡ ties.now) }
    ensures first { (result.0.ties ≡ ties.now) × (result.0.log ≡ first.log) }
    ensures second { (result.1.ties ≡ ties.now) × (result.1.log ≡ second.log) }
{
    let ((mut first, from_first), (mut second, from_second)) = join(
        rt,
        || -> (Pen<u64>, Note<u64>)
            requires { first.ties ≡ ties.now }
            ensures { (result.0.ties ≡ ties.entry.now) × (result.0.log ≡ first.log) × (result.1.ties ≡ ties.entry.now) }
        { write(ties, first, entry) },
        || -> (Pen<u64>, Note<u64>)
            requires { second.ties ≡ ties.now }
            ensures { (result.0.ties ≡ ties.entry.now) × (result.0.log ≡ second.log) × (result.1.ties ≡ ties.entry.now) }
        { write(ties, second, entry) },
    );
    first.learn(ties, from_second);
    second.learn(ties, from_first);
    (first, second)
}

#[test]
fn two_threads_write_beside_each_other(rt: HostRuntime) -> Result<(), Fail> {
    let alloc = rt.alloc();
    let starts = two_starts(alloc)?;
    let entry = numbers(alloc, &[8])?;
    let (ties, mut pens) = opened(alloc, starts.as_slice())?;
    let second = last_pen(&ties, starts.as_slice(), &mut pens)?;
    let first = last_pen(&ties, starts.as_slice(), &mut pens)?;
    let (mut first, second) = write_beside(&rt, &ties, first, second, &entry);
    assert_eq!(rt; [appends(&ties, 0), appends(&ties, 1)], [100, 100]);
    let reader = first.reader(&ties);
    settle_two(alloc, ties, first, second, reader)?;
    Ok(())
}

// How many entries were appended to a log.
fn appends(ties: &Ties<u64>, log: usize) -> u64
    requires { log < log_count ties.now }
{
    ties.logs().peek(log)
}
