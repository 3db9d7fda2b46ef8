//! Names that a command may make, and types and fields that are left for parts.
ghost use Rattle.std.specs.Prelude.{◌≡◌, ◌<◌, ◌||◌, ◌&&◌, not, length, map, codes, IfSome};
ghost use Rattle.std.specs.List.{list_any};
ghost use Rattle.ent_types.specs.declared.limits.TheConstants.{MOST_TYPES};
ghost use Rattle.ent_types.specs.Types.{same_name, is_ref};
ghost use Rattle.expr_grammar.specs.Machine.{ids, kind_at};
ghost use Rattle.expr_read.specs.ScopeOf.{allows_of, is_listed, has_type_left};

use super::by_word::is;
use super::{Made, Scope};
use crate::TypeUse;
use ent_types::{FieldInfo, TypeId, TypeSet};
use expr_machine::Names;

/// `true` if an earlier command makes the name.
fn is_made(made: &[Made], name: &[u8]) -> bool
    ensures { result ≡ list_any (λ m. same_name name.now m.name) made.now }
{
    made.iter().any(|m| is(name, m.name.as_bytes()))
}

/// `true` if a name has a meaning already.
pub(super) fn is_taken(made: &[Made], name: &[u8]) -> bool
    ensures { result ≡ (same_name name.now (codes "null") || (same_name name.now (codes "self") || list_any (λ m. same_name name.now m.name) made.now)) }
{
    is(name, b"null") || (is(name, b"self") || is_made(made, name))
}

/// Returns whether the field at a place is a ref field, if there is such a field.
pub(super) fn kind_at(fields: &[FieldInfo], at: usize) -> Option<bool>
    ensures value { result ≡ kind_at (map is_ref fields.now) at }
    ensures within { IfSome result (λ kind. at < length fields.now) }
{
    match fields.get(at) {
        None => None,
        Some(field) => Some(field.kind.is_ref()),
    }
}

/// `true` if the type isn't in the set.
pub(super) fn is_left(used: TypeSet, ty: TypeId) -> bool
    requires { ty.0 < MOST_TYPES }
    ensures { result ≡ not (is_listed (ids used) ty) }
{
    !used.has(ty)
}

impl Scope<'_> {
    /// `true` if the type fits the use and isn't in the set.
    fn may_join(&self, role: TypeUse, used: TypeSet, ty: TypeId) -> bool
        requires { ty.0 < MOST_TYPES }
        ensures { result ≡ (allows_of self.now.registry.now self.now.place self.now.bound.now role ty && not (is_listed (ids used) ty)) }
    {
        self.allows(role, ty) && is_left(used, ty)
    }

    /// `true` if some type that isn't in the set fits the use.
    pub(super) fn has_left(&self, role: TypeUse, used: TypeSet) -> bool
        ensures { result ≡ has_type_left self.now.registry.now self.now.place self.now.bound.now role (ids used) }
    {
        let count = self.registry.len();
        for at in 0..count {
            if self.may_join(role, used, TypeId(at as u16)) {
                return true;
            }
        }
        false
    }
}
