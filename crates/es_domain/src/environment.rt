//! What expressions see, over fields.
ghost use Rattle.std.specs.Prelude.{◌≡◌, IfOk};
ghost use Rattle.es_expr.specs.Environments.{creating_env, command_env, created_env, assign_env, rule_env};

use es_model::{Fields, NoMemory, Value};
use std::alloc::Global;

pub(crate) fn creating_env(
    alloc: Global,
    args: &Fields,
    id: Value,
    at: Value,
) -> Result<Fields, NoMemory>
    ensures { IfOk result (λ e. e ≡ creating_env args.now id at) }
{
    es_expr::creating_env(alloc, args.as_slice(), id, at)
}

pub(crate) fn command_env(
    alloc: Global,
    args: &Fields,
    id: Value,
    at: Value,
    fields: &Fields,
    version: Value,
) -> Result<Fields, NoMemory>
    ensures { IfOk result (λ e. e ≡ command_env args.now id at fields.now version) }
{
    es_expr::command_env(alloc, args.as_slice(), id, at, fields.as_slice(), version)
}

pub(crate) fn created_env(
    alloc: Global,
    event: &Fields,
    id: Value,
    at: Value,
) -> Result<Fields, NoMemory>
    ensures { IfOk result (λ e. e ≡ created_env event.now id at) }
{
    es_expr::created_env(alloc, event.as_slice(), id, at)
}

pub(crate) fn assign_env(
    alloc: Global,
    event: &Fields,
    id: Value,
    at: Value,
    fields: &Fields,
    version: Value,
) -> Result<Fields, NoMemory>
    ensures { IfOk result (λ e. e ≡ assign_env event.now id at fields.now version) }
{
    es_expr::assign_env(alloc, event.as_slice(), id, at, fields.as_slice(), version)
}

pub(crate) fn rule_env(
    alloc: Global,
    event: &Fields,
    id: Value,
    at: Value,
    leader: Value,
    position: Value,
    version: Value,
) -> Result<Fields, NoMemory>
    ensures { IfOk result (λ e. e ≡ rule_env event.now id at leader position version) }
{
    es_expr::rule_env(alloc, event.as_slice(), id, at, leader, position, version)
}
