//! How fast a guard is tested: half of the tests are over an amount within the balance, half beyond it.
ghost use Rattle.std.specs.Prelude.{◌≡◌, Ok};
ghost use Rattle.es_expr.specs.Sound.{IsTest};

use crate::rate;
use es_decl::read_expr;
use es_expr::{EvalFault, check, fit, test};
use es_model::{Atom, AtomKind, Expr, Fields, Kind, Kinds, NoMemory, Text, Value};
use std::alloc::Global;
use std::rt::Clock;
use std::time::Instant;

// The amount is above 0 and at most the balance.
const GUARD: &str =
    "{\"and\":[{\"lt\":[{\"int\":0},{\"get\":\"arg.amount\"}]},{\"le\":[{\"get\":\"arg.amount\"},{\"get\":\"self.balance\"}]}]}";

fn kinds(alloc: Global) -> Result<Kinds, NoMemory> {
    let mut kinds = Kinds::new(alloc);
    for name in ["arg.amount", "self.balance"] {
        kinds.put(Text::from_str(alloc, name)?, Kind::One(AtomKind::Int))?;
    }
    Ok(kinds)
}

fn fields(alloc: Global, amount: i64) -> Result<Fields, NoMemory> {
    let mut fields = Fields::new(alloc);
    for (name, number) in [("arg.amount", amount), ("self.balance", 1000)] {
        fields.put(Text::from_str(alloc, name)?, Value::One(Atom::Int(number)))?;
    }
    Ok(fields)
}

// How many of so many tests hold.
fn held(alloc: Global, guard: &Expr, fields: &Fields, count: u64) -> Result<u64, EvalFault>
    requires { IsTest guard.now fields.now }
{
    let mut held = 0u64;
    for _ in 0..count {
        if test(alloc, guard, fields)? {
            held = held.saturating_add(1);
        }
    }
    Ok(held)
}

// So many tests over an amount, where they are checked.
fn tested(alloc: Global, guard: &Expr, amount: i64, count: u64) -> anyhow::Result<u64> {
    let kinds = kinds(alloc)?;
    let fields = fields(alloc, amount)?;
    match check(alloc, guard, &kinds) {
        Ok(Kind::One(AtomKind::Bool)) => {
            if fit(&fields, &kinds) {
                Ok(held(alloc, guard, &fields, count)?)
            } else {
                Err(anyhow::anyhow!("values that do not fit"))
            }
        }
        _ => Err(anyhow::anyhow!("no truth value")),
    }
}

// The rate of so many tests.
fn report(
    rt: &(impl Clock + Eprint + Print),
    alloc: Global,
    guard: &Expr,
    count: u64,
) -> anyhow::Result<()> {
    let before = Instant::now(rt)?;
    let within = tested(alloc, guard, 5, count / 2)?;
    let beyond = tested(alloc, guard, 1001, count / 2)?;
    let tests = rate(count, before.elapsed(rt)?);
    println!(rt; "{count} tests: {within} held, {beyond} beyond the balance")?;
    eprintln!(rt; "{:>12} {tests:>12}", "expressions")?;
    Ok(())
}

/// Times so many tests.
pub(crate) fn measure(
    rt: &(impl Clock + Eprint + Print),
    alloc: Global,
    count: u64,
) -> anyhow::Result<()> {
    let tree = serde_json::Value::from_str(alloc, GUARD)?;
    match read_expr(alloc, &tree) {
        Ok(guard) => report(rt, alloc, &guard, count),
        Err(_) => Err(anyhow::anyhow!("no guard")),
    }
}
