// The steps on a seat that pens, readers and notes share.
ghost use Rattle.std.specs.Prelude.{◌≡◌, ◌<◌, true};
ghost use Rattle.es_ties.specs.Views.{owns_at, copy_of};
ghost use Rattle.es_ties.specs.Steps.{Grows, Joined};
ghost use Rattle.es_ties.specs.Seats.{IsLive, IsReaderSeat};

use crate::steps::{Appends, Copies, Entry, Joins, Settles, Tied};
use crate::ties::Logged;
use crate::view::View;
use atomic_table::{Seat, Shared};

pub type Logs<I> = Shared<(), View<I>, usize, Tied>;

// The log that the seat owns grows by the entry.
pub fn grow<I, E: Logged<I>, N: Entry<I>>(
    logs: &Logs<I>,
    seat: &mut Seat<(), View<I>>,
    log: usize,
    entry: &E,
)
    requires table { (seat.old.table_id ≡ logs.now.table_id) × (logs.now.key ≡ logs.now.table_id.words) }
    requires seat { IsLive seat.old × (owns_at seat.old.me.0 log ≡ true) × (log < seat.old.table_id.words) }
    requires entry { E.items entry.now ≡ N.items }
    ensures table { seat.new.table_id ≡ seat.old.table_id }
    ensures live { IsLive seat.new }
    ensures grown { Grows N.items log seat.old.me.0 seat.new.me.0 }
{
    // Contracts alone see its items.
    let _ = entry;
    logs.fetch_add::<Appends<N>>(seat, log, 1);
}

// A new seat, which has seen as much and owns no log.
pub fn copy<I>(logs: &Logs<I>, seat: &mut Seat<(), View<I>>) -> Seat<(), View<I>>
    requires table { (seat.old.table_id ≡ logs.now.table_id) × (0 < logs.now.table_id.words) }
    requires live { IsLive seat.old }
    ensures same { seat.new ≡ seat.old }
    ensures table { result.table_id ≡ seat.old.table_id }
    ensures copy { IsReaderSeat result × (result.me.0 ≡ copy_of seat.old.me.0) }
{
    logs.split_seat::<Copies>(seat)
}

// The seat has seen at least what the other has.
pub fn absorb<I>(logs: &Logs<I>, seat: &mut Seat<(), View<I>>, other: Seat<(), View<I>>)
    requires table { (seat.old.table_id ≡ logs.now.table_id) × (other.table_id ≡ logs.now.table_id) × (0 < logs.now.table_id.words) }
    requires live { IsLive seat.old × IsLive other }
    ensures table { seat.new.table_id ≡ seat.old.table_id }
    ensures live { IsLive seat.new }
    ensures joined { Joined seat.old.me.0 other.me.0 seat.new.me.0 }
{
    logs.join_seat::<Joins>(seat, other);
    logs.load::<Settles>(seat, 0);
}
