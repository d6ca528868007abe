//! The tables of a store: made where it is empty, and looked at where it isn't.

ghost use Rattle.std.specs.Prelude.{◌≡◌, ◌<◌, ◌^◌, false, IfOk, OnOk};

use crate::statements::{GREATEST, LAYOUT, STATEMENTS, TABLES};
use crate::stop::Stop;
use crate::values::number;
use sqlite::types::ValueRef;
use sqlite::{Alter, Connection, Error, Row};

// The one version of the layout.
const VERSION: u64 = 1;

/// The greatest numbers of a store, 0 where it has none.
#[derive(Clone, Copy)]
pub(crate) struct Greatest {
    pub(crate) recording: u64,
    pub(crate) notification: u64,
    pub(crate) snapshot: u64,
    ghost few: { recording < 2 ^ 62 },
    ghost few_events: { notification < 2 ^ 62 },
    ghost few_snapshots: { snapshot < 2 ^ 62 },
}

// Whether there is no table and no view.
fn is_empty<S: Alter>(conn: &Connection<S>) -> bool {
    let schema = conn.schema();
    schema.tables.is_empty() && schema.views.is_empty()
}

// Makes the tables in one transaction.
fn make<S: Alter>(conn: &mut Connection<S>) -> Result<(), Error>
    requires { conn.old.in_transaction ≡ false }
    ensures { conn.new.in_transaction ≡ false }
{
    let mut tx = conn.transaction();
    tx.execute_batch(TABLES)?;
    tx.commit()
}

// Compiles each statement over the tables.
fn compile<S: Alter>(conn: &mut Connection<S>) -> Result<(), Error>
    ensures mode { conn.old.in_transaction ≡ false → conn.new.in_transaction ≡ false }
{
    for statement in &STATEMENTS {
        let _compiled = conn.prepare(statement)?;
    }
    Ok(())
}

fn layout_rows<S: Alter>(conn: &mut Connection<S>) -> Result<Vec<Row>, Error>
    ensures mode { conn.old.in_transaction ≡ false → conn.new.in_transaction ≡ false }
{
    conn.query_all(LAYOUT, &[])
}

// Refuses what isn't the one row of this version.
fn check_version(rows: &[Row]) -> Result<(), Stop> {
    match rows {
        [row] if number(row, 0)? == VERSION => Ok(()),
        _ => Err(Stop::Fault),
    }
}

fn greatest_row<S: Alter>(conn: &mut Connection<S>) -> Result<Row, Error>
    ensures mode { conn.old.in_transaction ≡ false → conn.new.in_transaction ≡ false }
{
    conn.query_row(GREATEST, &[])
}

// The number in a column that may be null.
fn number_or_zero(row: &Row, at: usize) -> Result<u64, Stop>
    ensures { IfOk result (λ n. n < 2 ^ 62) }
{
    match row.get_ref(at)? {
        ValueRef::Null => Ok(0),
        _ => number(row, at),
    }
}

fn greatest_of(row: &Row) -> Result<Greatest, Stop> {
    let recording = number_or_zero(row, 0)?;
    let notification = number_or_zero(row, 1)?;
    let snapshot = number_or_zero(row, 2)?;
    Ok(Greatest {
        recording,
        notification,
        snapshot,
    })
}

/// Makes the tables of a store that is empty, and refuses any other that hasn't them. It reads no
/// more of the rows than the version of the layout and the greatest numbers.
pub(crate) fn take<S: Alter>(conn: &mut Connection<S>) -> Result<Greatest, Stop>
    ensures between { OnOk result (conn.new.in_transaction ≡ false) }
{
    if !conn.is_autocommit() {
        return Err(Stop::Fault);
    }
    if is_empty(conn) {
        make(conn)?;
    }
    compile(conn)?;
    check_version(layout_rows(conn)?.as_slice())?;
    greatest_of(&greatest_row(conn)?)
}
