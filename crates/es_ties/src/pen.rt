ghost use Rattle.std.specs.Prelude.{◌≡◌, ◌≢◌, ℕ, ◌++◌, ◌<◌};
ghost use Rattle.es_ties.specs.Views.{seen_of};
ghost use Rattle.es_ties.specs.Seen.{of_log, IsWithin};

use crate::reader::{Note, Reader};
use crate::seats::{absorb, copy, grow};
use crate::ties::{Logged, Ties};
use crate::view::View;
use atomic_table::Seat;
use std::marker::{Brand, Model};

/// The right to write one log. Contracts see the log's number and what the pen has seen of each log.
#[derive(Drop)]
pub struct Pen<I> {
    log: usize,
    seat: Seat<(), View<I>>,
}

impl<I> Model for Pen<I> {
    ghost use Rattle.es_ties.specs.Seen.{Writer, writer_code};
    ghost use Rattle.es_ties.specs.Views.{seen_of};
    ghost use Rattle.es_ties.specs.Seats.{IsPenSeat};

    ghost Value = { Writer I };

    ghost coded = { writer_code I.code };

    ghost view = { λ p. record { ties = p.seat.table_id; log = p.log; seen = seen_of p.seat.me.0 } };

    ghost invariant = { λ p. IsPenSeat p.log p.seat };
}

impl<I> Pen<I> {
    ghost use Rattle.es_ties.specs.Seats.{IsPenSeat};

    pub(crate) fn of(log: usize, seat: Seat<(), View<I>>) -> Pen<I>
        requires { IsPenSeat log seat }
        ensures { result ≡ record { ties = seat.table_id; log = log; seen = seen_of seat.me.0 } }
    {
        Pen { log, seat }
    }

    /// The pen's own log grows by the items of the entry, in one step.
    pub fn append<E: Logged<I>>(&mut self, ties: &Ties<I>, entry: &E)
        requires { self.old.ties ≡ ties.now }
        ensures same { (self.new.ties ≡ self.old.ties) × (self.new.log ≡ self.old.log) }
        ensures own { of_log self.new.seen self.old.log ≡ of_log self.old.seen self.old.log ++ E.items entry.now }
        ensures others { (j : ℕ) → j ≢ self.old.log → of_log self.new.seen j ≡ of_log self.old.seen j }
        ensures kept { IsWithin self.old.seen self.new.seen }
    {
        grow::<I, E, Brand>(ties.logs(), &mut self.seat, self.log, entry);
    }

    /// All that this pen has seen of every log, for somebody else to learn.
    pub fn note(&mut self, ties: &Ties<I>) -> Note<I>
        requires { self.old.ties ≡ ties.now }
        ensures same { self.new ≡ self.old }
        ensures note { (result.ties ≡ self.old.ties) × (result.seen ≡ self.old.seen) }
    {
        Note::of(copy(ties.logs(), &mut self.seat))
    }

    /// From now on the pen has seen at least what the note had. Of its own log it had seen all.
    pub fn learn(&mut self, ties: &Ties<I>, note: Note<I>)
        requires own { self.old.ties ≡ ties.now }
        requires note { note.ties ≡ ties.now }
        ensures same { (self.new.ties ≡ self.old.ties) × (self.new.log ≡ self.old.log) }
        ensures own { of_log self.new.seen self.old.log ≡ of_log self.old.seen self.old.log }
        ensures kept { IsWithin self.old.seen self.new.seen }
        ensures told { IsWithin note.seen self.new.seen }
    {
        absorb(ties.logs(), &mut self.seat, note.into_seat());
    }

    /// A reader that has seen what this pen has.
    pub fn reader(&mut self, ties: &Ties<I>) -> Reader<I>
        requires { self.old.ties ≡ ties.now }
        ensures same { self.new ≡ self.old }
        ensures reader { (result.ties ≡ self.old.ties) × (result.seen ≡ self.old.seen) }
    {
        Reader::of(self.note(ties))
    }
}
