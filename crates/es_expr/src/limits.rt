//! The limits of a declared system.
ghost use Rattle.std.specs.Prelude.{◌≡◌, ◌+◌, ◌*◌, ◌≤◌, ◌&&◌, max, min};
ghost use Rattle.std.specs.List.{list_all};
ghost use Rattle.std.specs.Option.{option_copied};
ghost use Rattle.es_model.specs.Names as name_spec;
ghost use Rattle.es_model.specs.Names.{is_between};
ghost use Rattle.es_model.specs.declared.limits.TheConstants.{MOST_LEVELS, MOST_NODES};
ghost use Rattle.es_expr.specs.Limits as spec;
ghost use Rattle.es_expr.specs.Limits.{is_absent_or_between, is_atom_within, is_value_within, is_expr_within, is_absent_or_within, are_assigns_within, are_kinds_within, is_edit_within, is_upcast_within, is_event_within, is_guard_within, is_trigger_within, is_command_within, is_class_within, is_rule_within, is_app_within, is_pipe_within, is_within};
ghost use Rattle.es_expr.specs.inner.Weights.{IsWeight};

use es_model::limits::{
    LEAST_MEMBERS, MOST_APPS, MOST_CLASS_VERSION, MOST_CLASSES, MOST_COMMANDS, MOST_EDITS,
    MOST_EVENTS, MOST_FIELDS, MOST_GUARDS, MOST_INTERVAL, MOST_ITEMS, MOST_LEVELS, MOST_MEMBERS,
    MOST_NODES, MOST_PIPES, MOST_RULES, MOST_SECTION, MOST_TEXT_BYTES, MOST_TRIGGERS, MOST_UPCASTS,
};
use es_model::names::{NameForm, halves_at_first, is_name};
use es_model::{
    App, Atom, Class, CommandDef, Edit, EventClass, Expr, Guard, Kind, List, Names, Rule, System,
    Text, Trigger, Value,
};

fn is_field_name(name: &str) -> bool
    ensures { result ≡ name_spec.is_field_name name.now }
{
    is_name(NameForm::Field, name)
}

fn is_code_name(name: &str) -> bool
    ensures { result ≡ name_spec.is_code_name name.now }
{
    is_name(NameForm::Code, name)
}

fn is_lower_name(name: &str) -> bool
    ensures { result ≡ name_spec.is_lower_name name.now }
{
    is_name(NameForm::Plain, name)
}

fn is_upper_name(name: &str) -> bool
    ensures { result ≡ name_spec.is_upper_name name.now }
{
    is_name(NameForm::Class, name)
}

fn is_topic_in(class: &str, topic: &str) -> bool
    ensures { result ≡ name_spec.is_topic_in class.now topic.now }
{
    let (before, after) = halves_at_first(topic);
    before == class && is_upper_name(after)
}

fn is_between(low: u64, high: u64, number: u64) -> bool
    ensures { result ≡ is_between low high number }
{
    low <= number && number <= high
}

fn is_count_between(low: usize, high: usize, count: usize) -> bool
    ensures { result ≡ is_between low high count }
{
    low <= count && count <= high
}

fn is_absent_or_between(low: u64, high: u64, number: Option<u64>) -> bool
    ensures { result ≡ is_absent_or_between low high number }
{
    match number {
        Some(number) => is_between(low, high, number),
        None => true,
    }
}

fn is_atom_within(atom: &Atom) -> bool
    ensures { result ≡ is_atom_within atom.now }
{
    match atom {
        Atom::Text(text) => text.as_str().len() <= MOST_TEXT_BYTES,
        Atom::Null
        | Atom::Bool(_)
        | Atom::Int(_)
        | Atom::Uuid(_)
        | Atom::Moment(_)
        | Atom::Decimal(_) => true,
    }
}

fn is_each_atom_within(atoms: &[Atom]) -> bool
    ensures { result ≡ list_all is_atom_within atoms.now }
{
    atoms.iter().all(is_atom_within)
}

fn is_value_within(value: &Value) -> bool
    ensures { result ≡ is_value_within value.now }
{
    match value {
        Value::One(atom) => is_atom_within(atom),
        Value::List(atoms) => atoms.len() <= MOST_ITEMS && is_each_atom_within(atoms.as_slice()),
    }
}

// How deep an expression is and of how many it is made, both up to one more than the limit, and whether
// its literals are within theirs.
#[derive(Clone, Copy)]
struct Weight {
    depth: usize,
    nodes: usize,
    is_small: bool,
}

fn leaf(is_small: bool) -> Weight
    ensures depth { result.depth ≡ 1 }
    ensures nodes { result.nodes ≡ 1 }
    ensures literals { result.is_small ≡ is_small }
{
    Weight {
        depth: 1,
        nodes: 1,
        is_small,
    }
}

// The weight of an operator over operands, of which it takes the depth of the deepest and the sum of the nodes.
fn over(depth: usize, nodes: usize, is_small: bool) -> Weight
    requires depth { depth ≤ MOST_LEVELS + 1 }
    requires nodes { nodes ≤ 3 * (MOST_NODES + 1) }
    ensures depth { result.depth ≡ min (depth + 1) (MOST_LEVELS + 1) }
    ensures nodes { result.nodes ≡ min (nodes + 1) (MOST_NODES + 1) }
    ensures literals { result.is_small ≡ is_small }
{
    Weight {
        depth: (depth + 1).min(MOST_LEVELS + 1),
        nodes: (nodes + 1).min(MOST_NODES + 1),
        is_small,
    }
}

fn over_one(a: Weight) -> Weight
    requires depth { a.depth ≤ MOST_LEVELS + 1 }
    requires nodes { a.nodes ≤ MOST_NODES + 1 }
    ensures depth { result.depth ≡ min (a.depth + 1) (MOST_LEVELS + 1) }
    ensures nodes { result.nodes ≡ min (a.nodes + 1) (MOST_NODES + 1) }
    ensures literals { result.is_small ≡ a.is_small }
{
    over(a.depth, a.nodes, a.is_small)
}

fn over_two(a: Weight, b: Weight) -> Weight
    requires depth { (a.depth ≤ MOST_LEVELS + 1) × (b.depth ≤ MOST_LEVELS + 1) }
    requires nodes { (a.nodes ≤ MOST_NODES + 1) × (b.nodes ≤ MOST_NODES + 1) }
    ensures depth { result.depth ≡ min (max a.depth b.depth + 1) (MOST_LEVELS + 1) }
    ensures nodes { result.nodes ≡ min (a.nodes + b.nodes + 1) (MOST_NODES + 1) }
    ensures literals { result.is_small ≡ (a.is_small && b.is_small) }
{
    over(
        a.depth.max(b.depth),
        a.nodes + b.nodes,
        a.is_small && b.is_small,
    )
}

fn over_three(a: Weight, b: Weight, c: Weight) -> Weight
    requires depth { (a.depth ≤ MOST_LEVELS + 1) × (b.depth ≤ MOST_LEVELS + 1) × (c.depth ≤ MOST_LEVELS + 1) }
    requires nodes { (a.nodes ≤ MOST_NODES + 1) × (b.nodes ≤ MOST_NODES + 1) × (c.nodes ≤ MOST_NODES + 1) }
    ensures depth { result.depth ≡ min (max (max a.depth b.depth) c.depth + 1) (MOST_LEVELS + 1) }
    ensures nodes { result.nodes ≡ min (a.nodes + b.nodes + c.nodes + 1) (MOST_NODES + 1) }
    ensures literals { result.is_small ≡ (a.is_small && b.is_small && c.is_small) }
{
    over(
        a.depth.max(b.depth).max(c.depth),
        a.nodes + b.nodes + c.nodes,
        a.is_small && b.is_small && c.is_small,
    )
}

fn weight_of(expr: &Expr) -> Weight
    ensures { IsWeight expr.now result }
{
    match expr {
        Expr::Text(text) => leaf(text.as_str().len() <= MOST_TEXT_BYTES),
        Expr::Bool(_) => leaf(true),
        Expr::Int(_) => leaf(true),
        Expr::Uuid(_) => leaf(true),
        Expr::Moment(_) => leaf(true),
        Expr::Decimal(_) => leaf(true),
        Expr::None(_) => leaf(true),
        Expr::Get(_) => leaf(true),
        Expr::Not(a) => over_one(weight_of(a.get())),
        Expr::Len(a) => over_one(weight_of(a.get())),
        Expr::Show(a) => over_one(weight_of(a.get())),
        Expr::Add(a, b) => over_two(weight_of(a.get()), weight_of(b.get())),
        Expr::Sub(a, b) => over_two(weight_of(a.get()), weight_of(b.get())),
        Expr::Mul(a, b) => over_two(weight_of(a.get()), weight_of(b.get())),
        Expr::Eq(a, b) => over_two(weight_of(a.get()), weight_of(b.get())),
        Expr::Ne(a, b) => over_two(weight_of(a.get()), weight_of(b.get())),
        Expr::Lt(a, b) => over_two(weight_of(a.get()), weight_of(b.get())),
        Expr::Le(a, b) => over_two(weight_of(a.get()), weight_of(b.get())),
        Expr::And(a, b) => over_two(weight_of(a.get()), weight_of(b.get())),
        Expr::Or(a, b) => over_two(weight_of(a.get()), weight_of(b.get())),
        Expr::Concat(a, b) => over_two(weight_of(a.get()), weight_of(b.get())),
        Expr::Append(a, b) => over_two(weight_of(a.get()), weight_of(b.get())),
        Expr::Contains(a, b) => over_two(weight_of(a.get()), weight_of(b.get())),
        Expr::Uuid5(a, b) => over_two(weight_of(a.get()), weight_of(b.get())),
        Expr::If(a, b, c) => over_three(weight_of(a.get()), weight_of(b.get()), weight_of(c.get())),
    }
}

fn is_expr_within(expr: &Expr) -> bool
    ensures { result ≡ is_expr_within expr.now }
{
    let weight = weight_of(expr);
    weight.depth <= MOST_LEVELS && weight.nodes <= MOST_NODES && weight.is_small
}

fn is_absent_or_within(expr: Option<&Expr>) -> bool
    ensures { result ≡ is_absent_or_within (option_copied expr.entry) }
{
    match expr {
        Some(expr) => is_expr_within(expr),
        None => true,
    }
}

fn are_assigns_within(assigns: &[(Text, Expr)]) -> bool
    ensures { result ≡ are_assigns_within assigns.now }
{
    assigns.iter().all(|entry| is_expr_within(&entry.1))
}

fn is_each_a_field(fields: &[(Text, Kind)]) -> bool
    ensures { result ≡ list_all (λ k. name_spec.is_field_name k.0) fields.now }
{
    fields.iter().all(|entry| is_field_name(entry.0.as_str()))
}

fn are_fields_within(fields: &[(Text, Kind)]) -> bool
    ensures { result ≡ are_kinds_within name_spec.is_field_name fields.now }
{
    fields.len() <= MOST_FIELDS && is_each_a_field(fields)
}

fn is_each_a_parameter(params: &[(Text, Kind)]) -> bool
    ensures { result ≡ list_all (λ k. name_spec.is_lower_name k.0) params.now }
{
    params.iter().all(|entry| is_lower_name(entry.0.as_str()))
}

fn are_params_within(params: &[(Text, Kind)]) -> bool
    ensures { result ≡ are_kinds_within name_spec.is_lower_name params.now }
{
    params.len() <= MOST_FIELDS && is_each_a_parameter(params)
}

fn is_edit_within(edit: &Edit) -> bool
    ensures { result ≡ is_edit_within edit.now }
{
    match edit {
        Edit::Add { name, value } => is_field_name(name.as_str()) && is_value_within(value),
        Edit::Rename { from, to } => is_field_name(from.as_str()) && is_field_name(to.as_str()),
        Edit::Drop { name } => is_field_name(name.as_str()),
    }
}

fn is_each_edit_within(edits: &[Edit]) -> bool
    ensures { result ≡ list_all is_edit_within edits.now }
{
    edits.iter().all(is_edit_within)
}

fn is_upcast_within(edits: &List<Edit>) -> bool
    ensures { result ≡ is_upcast_within edits.now }
{
    edits.len() <= MOST_EDITS && is_each_edit_within(edits.as_slice())
}

fn is_each_upcast_within(upcasts: &[List<Edit>]) -> bool
    ensures { result ≡ list_all is_upcast_within upcasts.now }
{
    upcasts.iter().all(is_upcast_within)
}

fn are_upcasts_within(upcasts: &[List<Edit>]) -> bool
    ensures { result ≡ spec.are_upcasts_within upcasts.now }
{
    upcasts.len() <= MOST_UPCASTS && is_each_upcast_within(upcasts)
}

fn is_event_within(class: &str, event: &EventClass) -> bool
    ensures { result ≡ is_event_within class.now event.now }
{
    is_topic_in(class, event.topic.as_str())
        && are_fields_within(event.fields.as_slice())
        && are_upcasts_within(event.upcasts.as_slice())
        && are_assigns_within(event.assigns.as_slice())
}

fn is_each_event_within(class: &str, events: &[EventClass]) -> bool
    ensures { result ≡ list_all (λ e. is_event_within class.now e) events.now }
{
    events.iter().all(|event| is_event_within(class, event))
}

fn are_events_within(class: &str, events: &[EventClass]) -> bool
    ensures { result ≡ spec.are_events_within class.now events.now }
{
    events.len() <= MOST_EVENTS && is_each_event_within(class, events)
}

fn is_guard_within(guard: &Guard) -> bool
    ensures { result ≡ is_guard_within guard.now }
{
    is_expr_within(&guard.that) && is_code_name(guard.code.as_str())
}

fn is_each_guard_within(guards: &[Guard]) -> bool
    ensures { result ≡ list_all is_guard_within guards.now }
{
    guards.iter().all(is_guard_within)
}

fn are_guards_within(guards: &[Guard]) -> bool
    ensures { result ≡ spec.are_guards_within guards.now }
{
    guards.len() <= MOST_GUARDS && is_each_guard_within(guards)
}

fn is_trigger_within(trigger: &Trigger) -> bool
    ensures { result ≡ is_trigger_within trigger.now }
{
    are_assigns_within(trigger.fields.as_slice())
}

fn is_each_trigger_within(triggers: &[Trigger]) -> bool
    ensures { result ≡ list_all is_trigger_within triggers.now }
{
    triggers.iter().all(is_trigger_within)
}

fn are_triggers_within(triggers: &[Trigger]) -> bool
    ensures { result ≡ spec.are_triggers_within triggers.now }
{
    is_count_between(1, MOST_TRIGGERS, triggers.len()) && is_each_trigger_within(triggers)
}

fn is_command_within(command: &CommandDef) -> bool
    ensures { result ≡ is_command_within command.now }
{
    is_upper_name(command.name.as_str())
        && are_params_within(command.params.as_slice())
        && are_guards_within(command.guards.as_slice())
        && are_triggers_within(command.triggers.as_slice())
}

fn is_each_command_within(commands: &[CommandDef]) -> bool
    ensures { result ≡ list_all is_command_within commands.now }
{
    commands.iter().all(is_command_within)
}

fn are_commands_within(commands: &[CommandDef]) -> bool
    ensures { result ≡ spec.are_commands_within commands.now }
{
    commands.len() <= MOST_COMMANDS && is_each_command_within(commands)
}

fn are_numbers_within(class: &Class) -> bool
    ensures { result ≡ spec.are_numbers_within class.now }
{
    is_between(1, MOST_CLASS_VERSION, class.version)
        && is_absent_or_between(1, MOST_INTERVAL, class.interval)
}

fn is_class_within(class: &Class) -> bool
    ensures { result ≡ is_class_within class.now }
{
    is_upper_name(class.name.as_str())
        && are_numbers_within(class)
        && are_fields_within(class.fields.as_slice())
        && is_event_within(class.name.as_str(), &class.created)
        && are_events_within(class.name.as_str(), class.events.as_slice())
        && are_commands_within(class.commands.as_slice())
}

fn is_rule_within(rule: &Rule) -> bool
    ensures { result ≡ is_rule_within rule.now }
{
    is_absent_or_within(rule.when.as_ref())
        && is_expr_within(&rule.target)
        && are_assigns_within(rule.args.as_slice())
}

fn is_each_rule_within(rules: &[Rule]) -> bool
    ensures { result ≡ list_all is_rule_within rules.now }
{
    rules.iter().all(is_rule_within)
}

fn are_rules_within(rules: &[Rule]) -> bool
    ensures { result ≡ spec.are_rules_within rules.now }
{
    rules.len() <= MOST_RULES && is_each_rule_within(rules)
}

fn is_app_within(app: &App) -> bool
    ensures { result ≡ is_app_within app.now }
{
    is_lower_name(app.name.as_str())
        && app.classes.len() <= MOST_CLASSES
        && are_rules_within(app.policies.as_slice())
        && is_absent_or_between(1, MOST_SECTION, app.section_size)
}

fn is_each_app_within(apps: &[App]) -> bool
    ensures { result ≡ list_all is_app_within apps.now }
{
    apps.iter().all(is_app_within)
}

fn are_apps_within(apps: &[App]) -> bool
    ensures { result ≡ spec.are_apps_within apps.now }
{
    is_count_between(1, MOST_APPS, apps.len()) && is_each_app_within(apps)
}

fn is_pipe_within(pipe: &Names) -> bool
    ensures { result ≡ is_pipe_within pipe.now }
{
    is_count_between(LEAST_MEMBERS, MOST_MEMBERS, pipe.len())
}

fn is_each_pipe_within(pipes: &[Names]) -> bool
    ensures { result ≡ list_all is_pipe_within pipes.now }
{
    pipes.iter().all(is_pipe_within)
}

fn are_pipes_within(pipes: &[Names]) -> bool
    ensures { result ≡ spec.are_pipes_within pipes.now }
{
    pipes.len() <= MOST_PIPES && is_each_pipe_within(pipes)
}

fn is_each_class_within(classes: &[Class]) -> bool
    ensures { result ≡ list_all is_class_within classes.now }
{
    classes.iter().all(is_class_within)
}

// Whether the names, the numbers, the texts, the counts and the expressions of a system are within their limits.
pub(crate) fn is_within(sys: &System) -> bool
    ensures { result ≡ is_within sys.now }
{
    is_each_class_within(sys.classes.as_slice())
        && are_apps_within(sys.apps.as_slice())
        && are_pipes_within(sys.pipes.as_slice())
}
