// New ties.
ghost use Rattle.std.specs.Prelude.{◌≡◌, ◌+◌, ◌<◌, length, map, vec_len, IfOk};
ghost use Rattle.es_ties.specs.Seen.{log_count, AreFirstPens};
ghost use Rattle.es_ties.specs.Seats.{IsDealer};

use crate::pen::Pen;
use crate::steps::{Begins, Deals, Starts};
use crate::ties::{Logged, Ties};
use crate::view::View;
use atomic_table::{Seat, Table};
use es_model::NoMemory;
use std::alloc::Global;
use std::marker::Brand;

impl<I> Ties<I> {
    /// One log and one pen for each start, in order. Each log begins with its start, and each pen
    /// has seen all starts.
    pub fn new<L: Logged<I>>(
        alloc: Global,
        starts: &[L],
    ) -> Result<(Ties<I>, Vec<Pen<I>>), NoMemory>
        requires { 0 < length starts.now }
        ensures count { IfOk result (λ made. (log_count made.0 ≡ length starts.now) × (vec_len made.1 ≡ length starts.now)) }
        ensures pens { IfOk result (λ made. AreFirstPens made.0 (map L.items starts.now) made.1.items) }
    {
        begun::<I, L, Brand>(alloc, starts)
    }
}

fn begun<I, L: Logged<I>, N: Starts<I>>(
    alloc: Global,
    starts: &[L],
) -> Result<(Ties<I>, Vec<Pen<I>>), NoMemory>
    requires some { 0 < length starts.now }
    requires starts { N.starts ≡ map L.items starts.now }
    ensures count { IfOk result (λ made. (log_count made.0 ≡ length starts.now) × (vec_len made.1 ≡ length starts.now)) }
    ensures pens { IfOk result (λ made. AreFirstPens made.0 (map L.items starts.now) made.1.items) }
{
    let (ties, seat) = made::<I, N>(alloc, starts.len())?;
    let pens = deal_all::<I, N>(alloc, &ties, seat, starts.len())?;
    Ok((ties, pens))
}

// The logs, and a seat that has seen their starts and owns them all.
fn made<I, N: Starts<I>>(
    alloc: Global,
    count: usize,
) -> Result<(Ties<I>, Seat<(), View<I>>), NoMemory>
    requires { (count ≡ length N.starts) × (0 < count) }
    ensures { IfOk result (λ r. IsDealer r.0 N.starts 0 r.1 × (log_count r.0 ≡ count)) }
{
    let words = vec![in alloc; 0u64; count]?;
    let (table, mut seat) = Table::of_words(alloc, words.as_slice(), &count)?;
    table.shared.load::<Begins<N>>(&mut seat, 0);
    Ok((Ties::of(table), seat))
}

// The pens of all logs.
fn deal_all<I, N: Starts<I>>(
    alloc: Global,
    ties: &Ties<I>,
    mut seat: Seat<(), View<I>>,
    count: usize,
) -> Result<Vec<Pen<I>>, NoMemory>
    requires dealer { IsDealer ties.now N.starts 0 seat }
    requires count { (count ≡ length N.starts) × (log_count ties.now ≡ count) }
    ensures count { IfOk result (λ pens. vec_len pens ≡ count) }
    ensures pens { IfOk result (λ pens. AreFirstPens ties.now N.starts pens.items) }
{
    let mut pens = Vec::with_capacity(alloc, count)?;
    for log in 0..count {
        pens.push(deal::<I, N>(ties, &mut seat, log))?;
    }
    Ok(pens)
}

// The pen of the next log.
fn deal<I, N: Starts<I>>(ties: &Ties<I>, seat: &mut Seat<(), View<I>>, log: usize) -> Pen<I>
    requires dealer { IsDealer ties.now N.starts log seat.old }
    requires log { log < length N.starts }
    requires count { log_count ties.now ≡ length N.starts }
    ensures dealer { IsDealer ties.now N.starts (log + 1) seat.new }
    ensures pen { result ≡ record { ties = ties.now; log = log; seen = N.starts } }
{
    Pen::of(log, ties.logs().split_seat::<Deals>(seat))
}
