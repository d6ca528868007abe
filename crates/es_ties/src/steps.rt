// The rule of the table, and what its steps tell.
ghost use Rattle.std.specs.Prelude.{List};

use crate::view::View;
use atomic_table::{Join, Play, Split, TableRule};
use std::marker::{Brand, PhantomData};

/// The word of each log is the number of its appends, modulo 2^64. The key is the number of logs.
pub struct Tied;

impl<I> TableRule<(), View<I>, usize> for Tied {
    ghost use Rattle.es_ties.specs.Views.{first_view};
    ghost use Rattle.es_ties.specs.Ties.{IsTied};

    ghost holds = { λ n s. IsTied n s };

    ghost first = { first_view };
}

/// The lists that the logs begin with. Each call of a program picks them.
pub trait Starts<I> {
    ghost starts: { List (List I) };
}

impl<I> Starts<I> for Brand {
    ghost use Rattle.std.specs.Prelude.{[]};

    ghost starts = { [] };
}

/// The first seat has seen all starts.
pub struct Begins<N> {
    names: PhantomData<N>,
}

impl<I, N: Starts<I>> Play<(), View<I>> for Begins<N> {
    ghost use Rattle.std.specs.Prelude.{◌≡◌};
    ghost use Rattle.es_ties.specs.Views.{opened};

    ghost then = { λ st v found w. (w.0 ≡ opened N.starts) × (w.1 ≡ v.1) };
}

/// The next log goes to the new seat.
pub struct Deals;

impl<I> Split<View<I>> for Deals {
    ghost use Rattle.es_ties.specs.Views.{kept_of, dealt_of};

    ghost left = { kept_of };

    ghost right = { dealt_of };
}

/// The items of one entry. Each call of a program picks them.
pub trait Entry<I> {
    ghost items: { List I };
}

impl<I> Entry<I> for Brand {
    ghost use Rattle.std.specs.Prelude.{[]};

    ghost items = { [] };
}

/// The log of the step's word grows by the entry.
pub struct Appends<N> {
    names: PhantomData<N>,
}

impl<I, N: Entry<I>> Play<(), View<I>> for Appends<N> {
    ghost use Rattle.std.specs.Prelude.{◌≡◌};
    ghost use Rattle.es_ties.specs.Steps.{Grows};

    ghost then = { λ st v found w. Grows N.items st.word v.0 w.0 × (w.1 ≡ v.1) };
}

/// The new seat has seen as much, and owns no log.
pub struct Copies;

impl<I> Split<View<I>> for Copies {
    ghost use Rattle.es_ties.specs.Views.{copy_of};

    ghost left = { λ v. v };

    ghost right = { copy_of };
}

/// One seat has seen what both had, and the other is spent.
pub struct Joins;

impl<I> Join<View<I>> for Joins {
    ghost use Rattle.es_ties.specs.Views.{both_of, spent};

    ghost both = { both_of };

    ghost spent = { spent };
}

/// A load after a join.
pub struct Settles;

impl<I> Play<(), View<I>> for Settles {
    ghost use Rattle.std.specs.Prelude.{◌≡◌};
    ghost use Rattle.es_ties.specs.Steps.{Tells};

    ghost then = { λ st v found w. Tells v.0 w.0 × (w.1 ≡ v.1) };
}
