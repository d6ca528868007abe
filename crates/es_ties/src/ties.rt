ghost use Rattle.std.specs.Prelude.{◌≡◌, ◌<◌, List};

use crate::seats::Logs;
use crate::steps::Tied;
use crate::view::View;
use atomic_table::Table;
use std::alloc::Global;
use std::marker::Model;

/// What contracts see as a list of items.
pub trait Logged<I> {
    ghost items: { Self → List I };
}

/// A list of numbers, each of them an item.
pub type Numbers = es_model::List<u64>;

impl Logged<u64> for es_model::List<u64> {
    ghost items = { λ numbers. numbers };
}

/// Logs that only grow. Contracts see which ties these are.
#[derive(Drop)]
pub struct Ties<I> {
    table: Table<(), View<I>, usize, Tied, Global>,
}

impl<I> Model for Ties<I> {
    ghost use Rattle.std.specs.Prelude.{◌≡◌, ◌<◌};
    ghost use Rattle.atomic_table.specs.Seated.{TableId, table_id_coded};

    ghost Value = { TableId };

    ghost coded = { table_id_coded };

    ghost view = { λ t. t.table.shared.table_id };

    ghost invariant = { λ t. (t.table.shared.key ≡ t.table.shared.table_id.words) × (0 < t.table.shared.table_id.words) };
}

impl<I> Ties<I> {
    pub(crate) fn of(table: Table<(), View<I>, usize, Tied, Global>) -> Ties<I>
        requires { (table.shared.key ≡ table.shared.table_id.words) × (0 < table.shared.table_id.words) }
        ensures { result ≡ table.shared.table_id }
    {
        Ties { table }
    }

    pub(crate) fn logs(&self) -> &Logs<I>
        ensures { (result.now.table_id ≡ self.now) × (result.now.key ≡ self.now.words) × (0 < self.now.words) }
    {
        &self.table.shared
    }
}
