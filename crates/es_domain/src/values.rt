//! The values that events assign to fields, and triggers and rules to what they give.
ghost use Rattle.std.specs.Prelude.{◌≡◌, ◌++◌, true, IsTrue, List, Some, IfOk, OnOk};
ghost use Rattle.es_model.specs.Values.{Name, are_of_kinds, fits};
ghost use Rattle.es_model.specs.Rising.{item_of};
ghost use Rattle.es_model.specs.declared.value.Kind.{Kind};
ghost use Rattle.es_model.specs.declared.expr.Expr.{Expr};
ghost use Rattle.es_expr.specs.Sound.{IsChecked, IsCheckedAs};
ghost use Rattle.es_expr.specs.Meaning.{den};
ghost use Rattle.es_domain.specs.Fold.{values_of, fields_after, assigned};
ghost use Rattle.es_domain.specs.inner.Evaluation.{AreChecked, CanBeChecked, AreAssignable, CanBeAssigned, MayFollow, behind, GivesValue, GivesValues, AddsValues};

use crate::TriggerFault;
use es_expr::eval;
use es_model::{Assigns, Duplicate, Expr, Fields, Text, Value};
use std::alloc::Global;

// The value of an expression.
fn value_of(alloc: Global, expr: &Expr, env: &Fields) -> Result<Value, TriggerFault>
    requires { IsChecked expr.now env.now }
    ensures value { GivesValue (den expr.now env.now) result }
    ensures kind { (k : Kind) → IsCheckedAs k expr.now env.now → IfOk result (λ v. fits v k ≡ true) }
{
    match eval(alloc, expr, env) {
        Ok(value) => Ok(value),
        Err(fault) => Err(fault.into()),
    }
}

// Adds the values of expressions, each under its name.
fn push_values(
    alloc: Global,
    fields: &mut Fields,
    assigns: &[(Text, Expr)],
    env: &Fields,
) -> Result<(), TriggerFault>
    requires checked { CanBeChecked assigns.now env.now }
    requires rising { MayFollow fields.old assigns.now }
    ensures values { AddsValues (behind fields.old (values_of assigns.now env.now)) fields.new result }
    ensures kinds { (front wanted : List (Name × Kind)) → IsTrue (are_of_kinds fields.old front) → AreChecked wanted assigns.now env.now → OnOk result (IsTrue (are_of_kinds fields.new (front ++ wanted))) }
{
    match assigns {
        [] => Ok(()),
        [(name, expr), rest @ ..] => {
            let value = value_of(alloc, expr, env)?;
            fields.push((name.copy()?, value))?;
            push_values(alloc, fields, rest, env)
        }
    }
}

/// The values of expressions, each under its name.
pub(crate) fn values_of(
    alloc: Global,
    assigns: &Assigns,
    env: &Fields,
) -> Result<Fields, TriggerFault>
    requires { CanBeChecked assigns.now env.now }
    ensures values { GivesValues (values_of assigns.now env.now) result }
    ensures kinds { (wanted : List (Name × Kind)) → AreChecked wanted assigns.now env.now → IfOk result (λ r. IsTrue (are_of_kinds r wanted)) }
{
    let mut values = Fields::new(alloc);
    push_values(alloc, &mut values, assigns.as_slice(), env)?;
    Ok(values)
}

// The value of a field after an event.
fn value_after(
    alloc: Global,
    name: &Text,
    before: &Value,
    assigns: &Assigns,
    env: &Fields,
) -> Result<Value, TriggerFault>
    requires { (e : Expr) → item_of assigns.now name.now ≡ Some e → IsChecked e env.now }
    ensures value { GivesValue (assigned (item_of assigns.now name.now) before.now env.now) result }
    ensures kind { (k : Kind) → fits before.now k ≡ true → ((e : Expr) → item_of assigns.now name.now ≡ Some e → IsCheckedAs k e env.now) → IfOk result (λ v. fits v k ≡ true) }
{
    match assigns.get(name.as_str()) {
        Some(expr) => value_of(alloc, expr, env),
        None => Ok(before.copy()?),
    }
}

// Adds the values that fields have after an event.
fn push_after(
    alloc: Global,
    after: &mut Fields,
    fields: &[(Text, Value)],
    assigns: &Assigns,
    env: &Fields,
) -> Result<(), TriggerFault>
    requires checked { CanBeAssigned fields.now assigns.now env.now }
    requires rising { MayFollow after.old fields.now }
    ensures values { AddsValues (behind after.old (fields_after fields.now assigns.now env.now)) after.new result }
    ensures kinds { (front wanted : List (Name × Kind)) → IsTrue (are_of_kinds after.old front) → IsTrue (are_of_kinds fields.now wanted) → AreAssignable wanted assigns.now env.now → OnOk result (IsTrue (are_of_kinds after.new (front ++ wanted))) }
{
    match fields {
        [] => Ok(()),
        [(name, before), rest @ ..] => {
            let value = value_after(alloc, name, before, assigns, env)?;
            after.push((name.copy()?, value))?;
            push_after(alloc, after, rest, assigns, env)
        }
    }
}

/// The values of fields after an event.
pub(crate) fn fields_after(
    alloc: Global,
    fields: &Fields,
    assigns: &Assigns,
    env: &Fields,
) -> Result<Fields, TriggerFault>
    requires { CanBeAssigned fields.now assigns.now env.now }
    ensures values { GivesValues (fields_after fields.now assigns.now env.now) result }
    ensures kinds { (wanted : List (Name × Kind)) → IsTrue (are_of_kinds fields.now wanted) → AreAssignable wanted assigns.now env.now → IfOk result (λ r. IsTrue (are_of_kinds r wanted)) }
{
    let mut after = Fields::new(alloc);
    push_after(alloc, &mut after, fields.as_slice(), assigns, env)?;
    Ok(after)
}
