//! How fast a state of five fields is encoded and decoded.
use crate::rate;
use es_model::{Atom, Decimal, Fields, Moment, NoMemory, Text, Value};
use es_transcode::{decode_record, encode_record};
use std::alloc::Global;
use std::rt::Clock;
use std::time::Instant;
use uuid::Uuid;

fn put(alloc: Global, fields: &mut Fields, name: &str, atom: Atom) -> Result<(), NoMemory> {
    fields.put(Text::from_str(alloc, name)?, Value::One(atom))
}

// A state with a field of each of five kinds.
fn state(alloc: Global) -> anyhow::Result<Fields> {
    let price = Decimal::new(-1234, 2).ok_or_else(|| anyhow::anyhow!("no decimal"))?;
    let mut fields = Fields::new(alloc);
    let owner = Text::from_str(alloc, "ann \"the\" owner")?;
    put(alloc, &mut fields, "owner", Atom::Text(owner))?;
    put(alloc, &mut fields, "amount", Atom::Int(1_000_000))?;
    put(alloc, &mut fields, "price", Atom::Decimal(price))?;
    put(
        alloc,
        &mut fields,
        "account",
        Atom::Uuid(Uuid::from_u128(1)),
    )?;
    let moment = Moment::nearest(1_234_567_890_123_456);
    put(alloc, &mut fields, "timestamp", Atom::Moment(moment))?;
    Ok(fields)
}

// Encodes so often, and tells how many bytes were written.
fn encode(alloc: Global, fields: &Fields, times: u64) -> anyhow::Result<u64> {
    let mut bytes = 0u64;
    for _ in 0..times {
        let text = encode_record(alloc, fields)?;
        bytes = bytes.saturating_add(text.as_slice().len() as u64);
    }
    Ok(bytes)
}

// Decodes so often, and tells how many fields were read.
fn decode(alloc: Global, text: &[u8], times: u64) -> anyhow::Result<u64> {
    let mut read = 0u64;
    for _ in 0..times {
        let fields = decode_record(alloc, text)?;
        read = read.saturating_add(fields.as_slice().len() as u64);
    }
    Ok(read)
}

// How many bytes are written, and how many records in a second.
fn encoded(
    rt: &impl Clock,
    alloc: Global,
    fields: &Fields,
    times: u64,
) -> anyhow::Result<(u64, u128)> {
    let before = Instant::now(rt)?;
    let bytes = encode(alloc, fields, times)?;
    Ok((bytes, rate(times, before.elapsed(rt)?)))
}

// How many fields are read, and how many records in a second.
fn decoded(rt: &impl Clock, alloc: Global, text: &[u8], times: u64) -> anyhow::Result<(u64, u128)> {
    let before = Instant::now(rt)?;
    let read = decode(alloc, text, times)?;
    Ok((read, rate(times, before.elapsed(rt)?)))
}

// Times both, and tells them.
fn report(
    rt: &(impl Clock + Eprint + Print),
    alloc: Global,
    fields: &Fields,
    text: &[u8],
    times: u64,
) -> anyhow::Result<()> {
    let (bytes, written) = encoded(rt, alloc, fields, times)?;
    let (read, taken) = decoded(rt, alloc, text, times)?;
    println!(rt; "{}", str::from_utf8(text)?)?;
    println!(rt; "{bytes} bytes, {read} fields")?;
    eprintln!(rt; "{:>12} {written:>12} {taken:>12}", "records")?;
    Ok(())
}

/// Encodes and decodes so often.
pub(crate) fn measure(
    rt: &(impl Clock + Eprint + Print),
    alloc: Global,
    times: u64,
) -> anyhow::Result<()> {
    let fields = state(alloc)?;
    let text = encode_record(alloc, &fields)?;
    report(rt, alloc, &fields, text.as_slice(), times)
}
