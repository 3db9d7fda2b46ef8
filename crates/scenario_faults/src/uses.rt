//! The walk over the texts of a system: the types that they name.
ghost use Rattle.std.specs.Prelude.{◌≡◌, ◌++◌, [], flat_map};
ghost use Rattle.scenario_record.specs.Uses.{in_ref, in_expr, in_value, in_part, in_act, in_command, in_assign, in_switch, uses_of, uses_of_assigns};
ghost use Rattle.scenario_faults.specs.Found.{put_type, nothing, with_uses};

use ent_types::limits::MOST_TYPES;
use ent_types::{TypeId, TypeSet};
use expr_trees::{Assign, CommandText, Expr, PartExpr, RefExpr, Switch, ValueExpr};
use scenario_record::{CommandEntry, SystemEntry};

/// The types that texts name.
#[derive(Clone, Copy, Debug)]
pub struct Touched {
    /// Those of own fields, of `on` and of `get`.
    pub read: TypeSet,
    /// Those of `get`.
    pub looked_up: TypeSet,
    /// Those of `has` and `on`.
    pub tested: TypeSet,
}

/// Returns the set with a type. A number that no type has is skipped.
pub(crate) fn put(found: TypeSet, ty: TypeId) -> TypeSet
    ensures { result ≡ put_type found ty.0 }
{
    if usize::from(ty.0) >= MOST_TYPES {
        return found;
    }
    found.with(ty)
}

impl Touched {
    /// Returns the types that no text names.
    fn nothing() -> Touched
        ensures { result ≡ nothing }
    {
        Touched {
            read: TypeSet::empty(),
            looked_up: TypeSet::empty(),
            tested: TypeSet::empty(),
        }
    }

    /// Adds the type of an own field.
    fn with_own(self, ty: TypeId) -> Touched
        ensures { result ≡ record { read = put_type self.read ty.0; looked_up = self.looked_up; tested = self.tested } }
    {
        Touched {
            read: put(self.read, ty),
            looked_up: self.looked_up,
            tested: self.tested,
        }
    }
}

fn in_ref(r: &RefExpr, found: Touched) -> Touched
    ensures { result ≡ with_uses found (in_ref r.now) }
{
    match *r {
        RefExpr::Null => found,
        RefExpr::Me => found,
        RefExpr::Made(_) => found,
        RefExpr::Own { ty, .. } => found.with_own(ty),
        RefExpr::Entity(_) => found,
    }
}

fn in_expr(e: &Expr, found: Touched) -> Touched
    ensures { result ≡ with_uses found (in_expr e.now) }
{
    match e {
        Expr::Number(_) => found,
        Expr::Variable(_) => found,
        Expr::Own { ty, .. } => found.with_own(*ty),
        Expr::Unary(_, a) => in_expr(a.get(), found),
        Expr::Binary(_, a, b) => {
            let found = in_expr(a.get(), found);
            in_expr(b.get(), found)
        }
        Expr::Pick(c, a, b) => {
            let found = in_expr(c.get(), found);
            let found = in_expr(a.get(), found);
            in_expr(b.get(), found)
        }
        Expr::Get { from, ty, .. } => {
            let found = in_ref(from, found);
            Touched {
                read: put(found.read, *ty),
                looked_up: put(found.looked_up, *ty),
                tested: found.tested,
            }
        }
        Expr::Alive(r) => in_ref(r, found),
        Expr::Has(r, ty) => {
            let found = in_ref(r, found);
            Touched {
                read: found.read,
                looked_up: found.looked_up,
                tested: put(found.tested, *ty),
            }
        }
        Expr::Same(r, q) => {
            let found = in_ref(r, found);
            in_ref(q, found)
        }
        Expr::On(ty) => Touched {
            read: put(found.read, *ty),
            looked_up: found.looked_up,
            tested: put(found.tested, *ty),
        },
    }
}

fn in_value(value: &ValueExpr, found: Touched) -> Touched
    ensures { result ≡ with_uses found (in_value value.now) }
{
    match value {
        ValueExpr::Int(e) => in_expr(e, found),
        ValueExpr::Ref(r) => in_ref(r, found),
    }
}

fn in_part(part: &PartExpr, before: Touched) -> Touched
    ensures { result ≡ with_uses before (in_part part.now) }
{
    let mut found = before;
    for value in part.values.as_slice() {
        found = in_value(value, found);
    }
    found
}

fn in_parts(parts: &[PartExpr], before: Touched) -> Touched
    ensures { result ≡ with_uses before (flat_map in_part parts.now) }
{
    let mut found = before;
    for part in parts {
        found = in_part(part, found);
    }
    found
}

/// Adds the types that a reference and a part name.
fn in_both(r: &RefExpr, part: &PartExpr, found: Touched) -> Touched
    ensures { result ≡ with_uses found (in_ref r.now ++ in_part part.now) }
{
    let found = in_ref(r, found);
    in_part(part, found)
}

fn in_act(act: &CommandText, found: Touched) -> Touched
    ensures { result ≡ with_uses found (in_act act.now) }
{
    match act {
        CommandText::Create { parts, .. } => in_parts(parts.as_slice(), found),
        CommandText::Destroy(r) => in_ref(r, found),
        CommandText::Add(r, part) => in_both(r, part, found),
        CommandText::Set(r, part) => in_both(r, part, found),
        CommandText::SetShared(r, part) => in_both(r, part, found),
        CommandText::Remove(r, _) => in_ref(r, found),
        CommandText::Enable(r, _) => in_ref(r, found),
        CommandText::Disable(r, _) => in_ref(r, found),
        CommandText::Instantiate { source, .. } => in_ref(source, found),
    }
}

fn in_command(command: &CommandEntry, found: Touched) -> Touched
    ensures { result ≡ with_uses found (in_command command.now) }
{
    let found = in_expr(&command.when, found);
    let found = in_expr(&command.key, found);
    in_act(&command.act, found)
}

fn in_assigns(assigns: &[Assign], before: Touched) -> Touched
    ensures { result ≡ with_uses before (flat_map in_assign assigns.now) }
{
    let mut found = before;
    for assign in assigns {
        found = in_value(&assign.value, found);
    }
    found
}

fn in_switches(switches: &[Switch], before: Touched) -> Touched
    ensures { result ≡ with_uses before (flat_map in_switch switches.now) }
{
    let mut found = before;
    for switch in switches {
        found = in_expr(&switch.value, found);
    }
    found
}

fn in_commands(commands: &[CommandEntry], before: Touched) -> Touched
    ensures { result ≡ with_uses before (flat_map in_command commands.now) }
{
    let mut found = before;
    for command in commands {
        found = in_command(command, found);
    }
    found
}

/// Returns the types that the assignments of a system name.
pub fn by_assigns(system: &SystemEntry) -> Touched
    ensures { result ≡ with_uses nothing (uses_of_assigns system.now) }
{
    in_assigns(system.set.as_slice(), Touched::nothing())
}

/// Returns the types that the texts of a system name.
#[tactic(auto, using(crate::proofs::UseLemmas::walks))]
pub(crate) fn by_texts(system: &SystemEntry) -> Touched
    ensures { result ≡ with_uses nothing (uses_of system.now) }
{
    let found = by_assigns(system);
    let found = in_switches(system.enable.as_slice(), found);
    in_commands(system.command.as_slice(), found)
}
