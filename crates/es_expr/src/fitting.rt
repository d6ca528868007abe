ghost use Rattle.std.specs.Prelude.{◌≡◌, IsTrue};
ghost use Rattle.es_model.specs.Rising.{item_of};
ghost use Rattle.es_expr.specs.Sound.{Fits, fit as meant_fit, has_fitting};

use es_model::{Fields, Kind, Kinds, Text, fits};

fn has_fitting_value(env: &Fields, name: &Text, kind: &Kind) -> bool
    ensures { result ≡ has_fitting (item_of env.now name.now) kind.now }
{
    match env.get(name.as_str()) {
        Some(value) => fits(value, kind),
        None => false,
    }
}

fn do_fit(env: &Fields, kinds: &[(Text, Kind)]) -> bool
    ensures { result ≡ meant_fit env.now kinds.now }
{
    match kinds {
        [] => true,
        [(name, kind), rest @ ..] => has_fitting_value(env, name, kind) && do_fit(env, rest),
    }
}

/// Whether each name of some kinds has a value that fits its kind.
pub fn fit(env: &Fields, kinds: &Kinds) -> bool
    ensures value { result ≡ meant_fit env.now kinds.now }
    ensures fits { IsTrue result → Fits env.now kinds.now }
{
    do_fit(env, kinds.as_slice())
}
