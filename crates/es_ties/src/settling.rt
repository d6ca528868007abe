// The end of ties.
ghost use Rattle.std.specs.Prelude.{◌≡◌, ℕ, Some, slice_get};
ghost use Rattle.es_ties.specs.Seen.{Writer, Witness, IsWithin, ArePensOf, AreReadersOf, HaveEachLog, IsBehindPens};
ghost use Rattle.es_ties.specs.inner.Gathering.{IsAbovePens, IsAboveReaders};

use crate::pen::Pen;
use crate::reader::Reader;
use crate::ties::Ties;

/// Tells that what each of these has seen of a log is a prefix of what the log's pen has.
pub fn settle<I>(ties: Ties<I>, mut pens: Vec<Pen<I>>, mut readers: Vec<Reader<I>>)
    requires pens { ArePensOf ties pens.items }
    requires all { HaveEachLog ties pens.items }
    requires readers { AreReadersOf ties readers.items }
    ensures pens { (k : ℕ) (p : Writer _) → slice_get pens.items k ≡ Some p → IsBehindPens p.seen pens.items }
    ensures readers { (k : ℕ) (r : Witness _) → slice_get readers.items k ≡ Some r → IsBehindPens r.seen pens.items }
{
    let mut all = first_reader(&ties, &mut pens);
    gather_pens(&ties, &mut pens, &mut all);
    gather_readers(&ties, &mut readers, &mut all);
    spread(&ties, &mut pens, &mut all);
}

// A reader from the first pen. There is one, since there is a log.
fn first_reader<I>(ties: &Ties<I>, pens: &mut Vec<Pen<I>>) -> Reader<I>
    requires pens { ArePensOf ties.now pens.old.items }
    requires all { HaveEachLog ties.now pens.old.items }
    ensures same { pens.new.items ≡ pens.old.items }
    ensures reader { result.ties ≡ ties.now }
{
    let _ = ties.logs();
    pens[0].reader(ties)
}

// The reader has seen what the pens have.
fn gather_pens<I>(ties: &Ties<I>, pens: &mut Vec<Pen<I>>, all: &mut Reader<I>)
    requires pens { ArePensOf ties.now pens.old.items }
    requires reader { all.old.ties ≡ ties.now }
    ensures same { pens.new.items ≡ pens.old.items }
    ensures reader { all.new.ties ≡ all.old.ties }
    ensures kept { IsWithin all.old.seen all.new.seen }
    ensures above { IsAbovePens all.new.seen pens.old.items }
{
    for k in 0..pens.len() {
        let note = pens[k].note(ties);
        all.learn(ties, note);
    }
}

// The reader has seen what the others have.
fn gather_readers<I>(ties: &Ties<I>, readers: &mut Vec<Reader<I>>, all: &mut Reader<I>)
    requires readers { AreReadersOf ties.now readers.old.items }
    requires reader { all.old.ties ≡ ties.now }
    ensures reader { all.new.ties ≡ all.old.ties }
    ensures kept { IsWithin all.old.seen all.new.seen }
    ensures above { IsAboveReaders all.new.seen readers.old.items }
{
    for k in 0..readers.len() {
        let note = readers[k].note(ties);
        all.learn(ties, note);
    }
}

// Each pen learns what the reader has seen, and its own log stays.
fn spread<I>(ties: &Ties<I>, pens: &mut Vec<Pen<I>>, all: &mut Reader<I>)
    requires pens { ArePensOf ties.now pens.old.items }
    requires reader { all.old.ties ≡ ties.now }
    ensures { IsBehindPens all.old.seen pens.old.items }
{
    for k in 0..pens.len() {
        let note = all.note(ties);
        pens[k].learn(ties, note);
    }
}
