//! Types and fields, by their names.
ghost use Rattle.std.specs.Prelude.{◌≡◌, ◌<◌, ◌≤◌, length, position, IfSome};
ghost use Rattle.ent_types.specs.declared.limits.TheConstants.{MOST_TYPES};
ghost use Rattle.ent_types.specs.Registries.{type_id_named, type_named};
ghost use Rattle.ent_types.specs.Types.{same_name};

use ent_types::{FieldInfo, Name, Registry, TypeId};

/// Returns the type with this name. It takes one look-up by the name's hash, or a walk over the types if the word is
/// longer than any name.
pub(crate) fn type_of(word: &[u8], registry: &Registry) -> Option<TypeId>
    ensures value { result ≡ type_id_named registry.now word.now }
    ensures within { IfSome result (λ ty. ty.0 < MOST_TYPES) }
{
    match Name::of(word) {
        Some(name) => registry.find(&name),
        None => walk_to(word, registry),
    }
}

/// Returns the type with this name, after a walk over the types.
fn walk_to(word: &[u8], registry: &Registry) -> Option<TypeId>
    ensures value { result ≡ type_id_named registry.now word.now }
    ensures within { IfSome result (λ ty. ty.0 < MOST_TYPES) }
{
    let at = place_of(word, registry)?;
    Some(TypeId(at as u16))
}

/// Returns the place of the type with this name.
#[tactic(auto, unfolding(ent_types::specs::Registries::type_named))]
fn place_of(word: &[u8], registry: &Registry) -> Option<usize>
    ensures place { result ≡ type_named registry.now word.now }
    ensures within { IfSome result (λ at. at < length registry.now) }
    ensures most { length registry.now ≤ MOST_TYPES }
{
    registry
        .types()
        .iter()
        .position(|info| *word == *info.name.as_bytes())
}

/// Returns the place of the field with this name. The word may be longer than any name.
pub(crate) fn field_of(word: &[u8], fields: &[FieldInfo]) -> Option<usize>
    ensures place { result ≡ position (λ f. same_name word.now f.name) fields.now }
    ensures within { IfSome result (λ at. at < length fields.now) }
{
    fields
        .iter()
        .position(|field| *word == *field.name.as_bytes())
}
