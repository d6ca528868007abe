//! The program: it makes the real objects, and hands them to the top call.
#![tactic(auto)]

use es_io::{FileDocument, StdSink, StdSource, SystemClock};
use es_memory::MemoryStores;
use es_model::List;
use es_top::evsys_single;
use std::alloc::Global;
use std::process::ExitCode;
use std::rt::Env;
use std::{env, io};

// The words after the program's name.
fn words_of(rt: &(impl Env + AllocGlobal), alloc: Global) -> io::Result<Vec<String>> {
    let mut words = Vec::new(alloc);
    for word in env::args(rt)?.skip(1) {
        words.push(word)?;
    }
    Ok(words)
}

fn main(rt: HostRuntime) -> ExitCode {
    let alloc = rt.alloc();
    // Words that can't be read are of no form, like none at all.
    let words = words_of(&rt, alloc).unwrap_or(Vec::new(alloc));
    let mut system = FileDocument::new(&rt);
    let mut lines = StdSource::new(&rt);
    let mut out = StdSink::new(&rt);
    let mut stores = MemoryStores::new(alloc, List::new(alloc), List::new(alloc));
    let mut clock = SystemClock::new(&rt);
    let status = evsys_single(
        alloc,
        &words,
        &mut system,
        &mut lines,
        &mut out,
        &mut stores,
        &mut clock,
    );
    ExitCode::from(status.code())
}
