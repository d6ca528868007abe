ghost use Rattle.std.specs.Prelude.{◌≡◌};
ghost use Rattle.es_ties.specs.Views.{seen_of};
ghost use Rattle.es_ties.specs.Seen.{IsWithin};

use crate::seats::{absorb, copy};
use crate::ties::Ties;
use crate::view::View;
use atomic_table::Seat;
use std::marker::Model;

/// What was seen of every log, on its way to somebody else.
#[derive(Drop)]
pub struct Note<I> {
    seat: Seat<(), View<I>>,
}

impl<I> Model for Note<I> {
    ghost use Rattle.es_ties.specs.Seen.{Witness, witness_code};
    ghost use Rattle.es_ties.specs.Views.{seen_of};
    ghost use Rattle.es_ties.specs.Seats.{IsReaderSeat};

    ghost Value = { Witness I };

    ghost coded = { witness_code I.code };

    ghost view = { λ n. record { ties = n.seat.table_id; seen = seen_of n.seat.me.0 } };

    ghost invariant = { λ n. IsReaderSeat n.seat };
}

impl<I> Note<I> {
    ghost use Rattle.es_ties.specs.Seats.{IsReaderSeat};

    pub(crate) fn of(seat: Seat<(), View<I>>) -> Note<I>
        requires { IsReaderSeat seat }
        ensures { result ≡ record { ties = seat.table_id; seen = seen_of seat.me.0 } }
    {
        Note { seat }
    }

    pub(crate) fn into_seat(self) -> Seat<(), View<I>>
        ensures value { self ≡ record { ties = result.table_id; seen = seen_of result.me.0 } }
        ensures seat { IsReaderSeat result }
    {
        let Note { seat } = self;
        seat
    }

    fn copied(&mut self, ties: &Ties<I>) -> Note<I>
        requires { self.old.ties ≡ ties.now }
        ensures same { self.new ≡ self.old }
        ensures note { result ≡ self.old }
    {
        Note::of(copy(ties.logs(), &mut self.seat))
    }

    fn take_in(&mut self, ties: &Ties<I>, note: Note<I>)
        requires own { self.old.ties ≡ ties.now }
        requires note { note.ties ≡ ties.now }
        ensures same { self.new.ties ≡ self.old.ties }
        ensures kept { IsWithin self.old.seen self.new.seen }
        ensures told { IsWithin note.seen self.new.seen }
    {
        absorb(ties.logs(), &mut self.seat, note.into_seat());
    }
}

/// One who has seen something of each log, and writes none.
#[derive(Drop)]
pub struct Reader<I> {
    notes: Note<I>,
}

impl<I> Model for Reader<I> {
    ghost use Rattle.es_ties.specs.Seen.{Witness, witness_code};

    ghost Value = { Witness I };

    ghost coded = { witness_code I.code };

    ghost view = { λ r. r.notes };
}

impl<I> Reader<I> {
    pub(crate) fn of(notes: Note<I>) -> Reader<I>
        ensures { result ≡ notes }
    {
        Reader { notes }
    }

    /// All that this reader has seen of every log, for somebody else to learn.
    pub fn note(&mut self, ties: &Ties<I>) -> Note<I>
        requires { self.old.ties ≡ ties.now }
        ensures same { self.new ≡ self.old }
        ensures note { result ≡ self.old }
    {
        self.notes.copied(ties)
    }

    /// From now on the reader has seen at least what the note had.
    pub fn learn(&mut self, ties: &Ties<I>, note: Note<I>)
        requires own { self.old.ties ≡ ties.now }
        requires note { note.ties ≡ ties.now }
        ensures same { self.new.ties ≡ self.old.ties }
        ensures kept { IsWithin self.old.seen self.new.seen }
        ensures told { IsWithin note.seen self.new.seen }
    {
        self.notes.take_in(ties, note);
    }
}
