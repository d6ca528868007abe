ghost use Rattle.std.specs.Prelude.{◌≡◌, ◌↔◌, ℕ, ℤ, IfSome, IfNone, IsTrue, Some, codes};
ghost use Rattle.es_model.specs.Rising.{item_of};
ghost use Rattle.es_model.specs.declared.value.Atom.TheVariants as atoms;
ghost use Rattle.es_model.specs.declared.value.Value.TheVariants as values;
ghost use Rattle.es_mapper.specs.Mapping.{class_value, IsVersion, HasHead};

use es_model::{Atom, Class, Fields, Moment, Value};

// The class version that stands in a state.
fn version_in(fields: &Fields) -> Option<u64>
    ensures version { IfSome result (λ n. IsVersion n (item_of fields.now (codes "class_version"))) }
    ensures none { IfNone result ((n : ℕ) → ¬ IsVersion n (item_of fields.now (codes "class_version"))) }
{
    match fields.get("class_version") {
        None => Some(1),
        Some(Value::One(Atom::Int(version))) => {
            if *version >= 1 {
                Some(*version as u64)
            } else {
                None
            }
        }
        Some(_) => None,
    }
}

// The moment that stands in a state.
fn moment_in(fields: &Fields) -> Option<Moment>
    ensures moment { IfSome result (λ m. item_of fields.now (codes "timestamp") ≡ Some (values.One (atoms.Moment m))) }
    ensures none { IfNone result ((m : ℤ) → ¬ item_of fields.now (codes "timestamp") ≡ Some (values.One (atoms.Moment m))) }
{
    match fields.get("timestamp") {
        Some(Value::One(Atom::Moment(moment))) => Some(*moment),
        _ => None,
    }
}

// Whether the class stands in a state exactly where it is to stand.
fn is_class_right(fields: &Fields, class: &Class, topic: &str) -> bool
    ensures { IsTrue result ↔ (item_of fields.now (codes "originator_topic") ≡ class_value class.now topic.now) }
{
    match fields.get("originator_topic") {
        None => !class.is_created(topic),
        Some(Value::One(Atom::Text(name))) => {
            class.is_created(topic) && name.as_str() == class.name.as_str()
        }
        Some(_) => false,
    }
}

/// The class version and the moment of a state that has the three members beside its fields.
pub(crate) fn head_of(fields: &Fields, class: &Class, topic: &str) -> Option<(u64, Moment)>
    ensures head { IfSome result (λ h. HasHead class.now topic.now fields.now h.0 h.1) }
    ensures none { IfNone result ((n : ℕ) (m : ℤ) → ¬ HasHead class.now topic.now fields.now n m) }
{
    if !is_class_right(fields, class, topic) {
        return None;
    }
    let Some(version) = version_in(fields) else {
        return None;
    };
    let Some(moment) = moment_in(fields) else {
        return None;
    };
    Some((version, moment))
}
