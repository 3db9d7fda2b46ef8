//! Which fields may be named, by their kinds.
ghost use Rattle.std.specs.Prelude.{◌≡◌};
ghost use Rattle.std.specs.List.{list_any};
ghost use Rattle.ent_types.specs.Registries.{type_at};
ghost use Rattle.expr_read.specs.ScopeOf.{suits, suited_field};

use crate::FieldUse;
use crate::places::field_of;
use ent_types::{FieldInfo, FieldKind, Registry, TypeId};

/// `true` if a field of this kind fits the use.
fn suits(role: FieldUse, kind: FieldKind) -> bool
    ensures { result ≡ suits role kind }
{
    match role {
        FieldUse::Number | FieldUse::Looked => !kind.is_ref(),
        FieldUse::Entity => kind.is_ref(),
        FieldUse::Assigned => true,
    }
}

/// `true` if some field fits the use.
pub(super) fn has_suited(role: FieldUse, fields: &[FieldInfo]) -> bool
    ensures { result ≡ list_any (λ f. suits role f.kind) fields.now }
{
    fields.iter().any(|f| suits(role, f.kind))
}

/// Returns the place of the type's field of this name, if it fits the use.
#[tactic(auto, unfolding(ent_types::specs::Types::field_named))]
pub(super) fn suited_field(
    role: FieldUse,
    registry: &Registry,
    ty: TypeId,
    name: &[u8],
) -> Option<u8>
    ensures { result ≡ suited_field role (type_at registry.now ty.0) name.now }
{
    let at = field_of(name, registry.fields(ty))?;
    if !suits(role, registry.field_kind(ty, at)) {
        return None;
    }
    Some(at as u8)
}
