ghost use Rattle.std.specs.Prelude.{◌≡◌, drop};
ghost use Rattle.std.specs.Option.{unwrap_or};
ghost use Rattle.es_recorder.specs.Selections.{first_of};
ghost use Rattle.es_memory.specs.inner.Cuts.{last_of, ends_of};

// The first numbers, where a limit is given.
fn first(numbers: &[u64], limit: Option<u64>) -> &[u64]
    ensures { result.now ≡ first_of limit numbers.now }
{
    match limit {
        Some(limit) => &numbers[..(limit as usize).min(numbers.len())],
        None => numbers,
    }
}

// The last numbers, where a limit is given.
fn last(numbers: &[u64], limit: Option<u64>) -> &[u64]
    ensures { result.now ≡ last_of limit numbers.now }
{
    match limit {
        Some(limit) => &numbers[numbers.len().saturating_sub(limit as usize)..],
        None => numbers,
    }
}

// The first numbers, or the last ones.
pub fn ends(numbers: &[u64], from_last: bool, limit: Option<u64>) -> &[u64]
    ensures { result.now ≡ ends_of from_last limit numbers.now }
{
    if from_last {
        last(numbers, limit)
    } else {
        first(numbers, limit)
    }
}

// The numbers after so many, up to so many.
pub fn between(numbers: &[u64], gt: Option<u64>, lte: Option<u64>) -> &[u64]
    ensures { result.now ≡ drop (unwrap_or gt 0) (first_of lte numbers.now) }
{
    let upto = first(numbers, lte);
    let from = gt.unwrap_or(0) as usize;
    &upto[from.min(upto.len())..]
}
