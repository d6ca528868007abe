//! Measures parts of the library. A word says what is measured, and each number after it how much of it: `recorders`
//! how many recordings are held, `records`, `expressions` and `policies` how many are encoded, tested and decided.
//! What was done is written to the standard output, and how fast to the standard error.
#![tactic(auto)]

mod expressions;
mod policies;
mod recorders;
mod records;

use anyhow::Context;
use std::alloc::Global;
use std::env;
use std::rt::Clock;
use std::time::Duration;

// What is measured.
#[derive(Clone, Copy, Debug, PartialEq, Eq)]
enum Part {
    Recorders,
    Records,
    Expressions,
    Policies,
}

impl Part {
    fn of_word(word: &str) -> Option<Part> {
        match word {
            "recorders" => Some(Part::Recorders),
            "records" => Some(Part::Records),
            "expressions" => Some(Part::Expressions),
            "policies" => Some(Part::Policies),
            _ => None,
        }
    }
}

/// So many in this time, for a second.
pub(crate) fn rate(count: u64, time: Duration) -> u128 {
    u128::from(count) * 1_000_000 / time.as_micros().max(1)
}

fn measure(
    rt: &(impl Clock + Eprint + Print),
    alloc: Global,
    part: Part,
    number: u64,
) -> anyhow::Result<()> {
    match part {
        Part::Recorders => recorders::measure(rt, alloc, number),
        Part::Records => records::measure(rt, alloc, number),
        Part::Expressions => expressions::measure(rt, alloc, number),
        Part::Policies => policies::measure(rt, alloc, number),
    }
}

fn main(rt: HostRuntime) -> anyhow::Result<()> {
    let alloc = rt.alloc();
    let mut part = None;
    for word in env::args(&rt)?.skip(1) {
        let next = Part::of_word(word.as_str());
        if next.is_some() {
            part = next;
        } else {
            let part = part.context("no word for what is measured")?;
            measure(&rt, alloc, part, word.as_str().parse::<u64>()?)?;
        }
    }
    Ok(())
}
