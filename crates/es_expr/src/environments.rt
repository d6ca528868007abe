//! The names that an expression sees at each place of a declaration, each with its kind or its value.
ghost use Rattle.std.specs.Prelude.{◌≡◌, ◌++◌, ◌∷◌, [], IsTrue, OnOk, IfOk, codes};
ghost use Rattle.es_model.specs.Rising.{IsRising, comes_last};
ghost use Rattle.es_expr.specs.Environments.{prefixed, creating_env, command_env, created_env, assign_env, rule_env};

use es_model::{Duplicate, NoMemory, Rising, Text};
use std::alloc::Global;

// A name with a word before it.
fn joined(alloc: Global, word: &str, name: &str) -> Result<Text, NoMemory>
    ensures { IfOk result (λ t. t ≡ word.now ++ name.now) }
{
    let mut text = String::from_str(alloc, word)?;
    text.push_str(name)?;
    Text::from_str(alloc, text.as_str())
}

// Adds a name that comes after all others.
fn push<T: Drop>(alloc: Global, env: &mut Rising<T>, name: &str, item: T) -> Result<(), NoMemory>
    requires { IsTrue (comes_last env.old name.now) }
    ensures { OnOk result (env.new ≡ env.old ++ (name.now, item) ∷ []) }
{
    env.push((Text::from_str(alloc, name)?, item))
}

// Adds the names of items with a word before them, which come after all others.
fn extend<T: Duplicate>(
    alloc: Global,
    env: &mut Rising<T>,
    word: &str,
    items: &[(Text, T)],
) -> Result<(), NoMemory>
    requires { IsRising (env.old ++ prefixed word.now items.now) }
    ensures { OnOk result (env.new ≡ env.old ++ prefixed word.now items.now) }
{
    match items {
        [] => Ok(()),
        [(name, item), rest @ ..] => {
            env.push((joined(alloc, word, name.as_str())?, item.copy()?))?;
            extend(alloc, env, word, rest)
        }
    }
}

// Adds the fields of an aggregate and its version.
fn with_self<T: Duplicate>(
    alloc: Global,
    mut env: Rising<T>,
    fields: &[(Text, T)],
    version: T,
) -> Result<Rising<T>, NoMemory>
    requires { IsRising (env ++ prefixed (codes "self.") fields.now ++ (codes "version", version) ∷ []) }
    ensures { IfOk result (λ e. e ≡ env ++ prefixed (codes "self.") fields.now ++ (codes "version", version) ∷ []) }
{
    extend(alloc, &mut env, "self.", fields)?;
    push(alloc, &mut env, "version", version)?;
    Ok(env)
}

/// What the guards and the first trigger of a command see that creates.
pub fn creating_env<T: Duplicate>(
    alloc: Global,
    args: &[(Text, T)],
    id: T,
    at: T,
) -> Result<Rising<T>, NoMemory>
    requires { IsRising args.now }
    ensures { IfOk result (λ e. e ≡ creating_env args.now id at) }
{
    let mut env = Rising::new(alloc);
    extend(alloc, &mut env, "arg.", args)?;
    push(alloc, &mut env, "at", at)?;
    push(alloc, &mut env, "id", id)?;
    Ok(env)
}

/// What the guards and the first trigger of another command see, and each later trigger.
pub fn command_env<T: Duplicate>(
    alloc: Global,
    args: &[(Text, T)],
    id: T,
    at: T,
    fields: &[(Text, T)],
    version: T,
) -> Result<Rising<T>, NoMemory>
    requires args_rise { IsRising args.now }
    requires fields_rise { IsRising fields.now }
    ensures { IfOk result (λ e. e ≡ command_env args.now id at fields.now version) }
{
    let env = creating_env(alloc, args, id, at)?;
    with_self(alloc, env, fields, version)
}

/// What the assignments of a Created event see.
pub fn created_env<T: Duplicate>(
    alloc: Global,
    event: &[(Text, T)],
    id: T,
    at: T,
) -> Result<Rising<T>, NoMemory>
    requires { IsRising event.now }
    ensures { IfOk result (λ e. e ≡ created_env event.now id at) }
{
    let mut env = Rising::new(alloc);
    push(alloc, &mut env, "at", at)?;
    extend(alloc, &mut env, "event.", event)?;
    push(alloc, &mut env, "id", id)?;
    Ok(env)
}

/// What the assignments of another event see.
pub fn assign_env<T: Duplicate>(
    alloc: Global,
    event: &[(Text, T)],
    id: T,
    at: T,
    fields: &[(Text, T)],
    version: T,
) -> Result<Rising<T>, NoMemory>
    requires event_rises { IsRising event.now }
    requires fields_rise { IsRising fields.now }
    ensures { IfOk result (λ e. e ≡ assign_env event.now id at fields.now version) }
{
    let env = created_env(alloc, event, id, at)?;
    with_self(alloc, env, fields, version)
}

/// What the expressions of a rule see on an event.
pub fn rule_env<T: Duplicate>(
    alloc: Global,
    event: &[(Text, T)],
    id: T,
    at: T,
    leader: T,
    position: T,
    version: T,
) -> Result<Rising<T>, NoMemory>
    requires { IsRising event.now }
    ensures { IfOk result (λ e. e ≡ rule_env event.now id at leader position version) }
{
    let mut env = created_env(alloc, event, id, at)?;
    push(alloc, &mut env, "leader", leader)?;
    push(alloc, &mut env, "position", position)?;
    push(alloc, &mut env, "version", version)?;
    Ok(env)
}
