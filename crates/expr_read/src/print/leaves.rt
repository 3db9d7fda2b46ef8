//! What a printed expression says of types, fields and references.
ghost use Rattle.std.specs.Prelude.{◌≡◌, ◌<◌, ◌^◌, ◌++◌, true, codes, string_bytes, OnOk};
ghost use Rattle.std.specs.Fmt.{decimal, signed_decimal};
ghost use Rattle.expr_read.specs.PrintedTexts.{field_text, is_field, is_int, is_named_field, is_named_type, is_natural, is_printable_ref, is_spelled_ref, ref_text, type_name};
ghost use Rattle.expr_read.specs.ScopeOf.{is_known};

use crate::RefExpr;
use ent_types::{Entity, Registry, TypeId};
use std::alloc::AllocError;

/// Appends a number of an expression.
pub(crate) fn push_number(text: &mut String, number: i64) -> Result<(), AllocError>
    requires { is_natural number ≡ true }
    ensures text { OnOk result (string_bytes text.new ≡ string_bytes text.old ++ signed_decimal number) }
    ensures spelled { is_int number ≡ true }
{
    write!(text, "{number}")
}

/// Appends the name of a type.
pub(crate) fn push_type(
    text: &mut String,
    registry: &Registry,
    ty: TypeId,
) -> Result<(), AllocError>
    requires { is_known registry.now ty ≡ true }
    ensures text { OnOk result (string_bytes text.new ≡ string_bytes text.old ++ type_name registry.now ty) }
    ensures spelled { is_named_type registry.now ty ≡ true }
{
    text.push_str(registry.info(ty).name.as_str())
}

/// Appends the names of a type and its field.
pub(crate) fn push_field(
    text: &mut String,
    registry: &Registry,
    ty: TypeId,
    field: u8,
) -> Result<(), AllocError>
    requires { is_field registry.now ty field ≡ true }
    ensures text { OnOk result (string_bytes text.new ≡ string_bytes text.old ++ field_text registry.now ty field) }
    ensures spelled { OnOk result (is_named_field registry.now ty field ≡ true) }
{
    let info = registry.info(ty);
    text.push_str(info.name.as_str())?;
    text.push_str(".")?;
    text.push_str(info.fields.as_slice()[field as usize].name.as_str())
}

/// Appends the two numbers of an entity.
fn push_entity(text: &mut String, entity: Entity) -> Result<(), AllocError>
    ensures text { OnOk result (string_bytes text.new ≡ string_bytes text.old ++ (decimal entity.index ++ (codes ":" ++ decimal entity.version))) }
    ensures spelled { (entity.index < 2 ^ 32) × (entity.version < 2 ^ 32) }
{
    let index = entity.index;
    let version = entity.version;
    write!(text, "{index}:{version}")
}

/// Appends a reference.
pub(crate) fn push_ref(
    text: &mut String,
    registry: &Registry,
    r: &RefExpr,
) -> Result<(), AllocError>
    requires { is_printable_ref registry.now r.now ≡ true }
    ensures text { OnOk result (string_bytes text.new ≡ string_bytes text.old ++ ref_text registry.now r.now) }
    ensures spelled { OnOk result (is_spelled_ref registry.now r.now ≡ true) }
{
    match *r {
        RefExpr::Null => text.push_str("null"),
        RefExpr::Me => text.push_str("self"),
        RefExpr::Made(_) => unreachable!(),
        RefExpr::Own { ty, field } => push_field(text, registry, ty, field),
        RefExpr::Entity(entity) => push_entity(text, entity),
    }
}

/// Appends the word of a call with its parenthesis, and the reference that is its first argument.
fn open_call(
    text: &mut String,
    registry: &Registry,
    word: &str,
    r: &RefExpr,
) -> Result<(), AllocError>
    requires { is_printable_ref registry.now r.now ≡ true }
    ensures text { OnOk result (string_bytes text.new ≡ string_bytes text.old ++ (word.now ++ ref_text registry.now r.now)) }
    ensures spelled { OnOk result (is_spelled_ref registry.now r.now ≡ true) }
{
    text.push_str(word)?;
    push_ref(text, registry, r)
}

/// Appends the field of another entity.
pub(crate) fn push_get(
    text: &mut String,
    registry: &Registry,
    from: &RefExpr,
    ty: TypeId,
    field: u8,
) -> Result<(), AllocError>
    requires from { is_printable_ref registry.now from.now ≡ true }
    requires field { is_field registry.now ty field ≡ true }
    ensures text { OnOk result (string_bytes text.new ≡ string_bytes text.old ++ (codes "get(" ++ (ref_text registry.now from.now ++ (codes ", " ++ (field_text registry.now ty field ++ codes ")"))))) }
    ensures from { OnOk result (is_spelled_ref registry.now from.now ≡ true) }
    ensures field { OnOk result (is_named_field registry.now ty field ≡ true) }
{
    open_call(text, registry, "get(", from)?;
    text.push_str(", ")?;
    push_field(text, registry, ty, field)?;
    text.push_str(")")
}

/// Appends whether an entity is alive.
pub(crate) fn push_alive(
    text: &mut String,
    registry: &Registry,
    r: &RefExpr,
) -> Result<(), AllocError>
    requires { is_printable_ref registry.now r.now ≡ true }
    ensures text { OnOk result (string_bytes text.new ≡ string_bytes text.old ++ (codes "alive(" ++ (ref_text registry.now r.now ++ codes ")"))) }
    ensures spelled { OnOk result (is_spelled_ref registry.now r.now ≡ true) }
{
    open_call(text, registry, "alive(", r)?;
    text.push_str(")")
}

/// Appends whether an entity has a type.
pub(crate) fn push_has(
    text: &mut String,
    registry: &Registry,
    r: &RefExpr,
    ty: TypeId,
) -> Result<(), AllocError>
    requires from { is_printable_ref registry.now r.now ≡ true }
    requires ty { is_known registry.now ty ≡ true }
    ensures text { OnOk result (string_bytes text.new ≡ string_bytes text.old ++ (codes "has(" ++ (ref_text registry.now r.now ++ (codes ", " ++ (type_name registry.now ty ++ codes ")"))))) }
    ensures from { OnOk result (is_spelled_ref registry.now r.now ≡ true) }
    ensures ty { OnOk result (is_named_type registry.now ty ≡ true) }
{
    open_call(text, registry, "has(", r)?;
    text.push_str(", ")?;
    push_type(text, registry, ty)?;
    text.push_str(")")
}

/// Appends whether two references are the same entity.
pub(crate) fn push_same(
    text: &mut String,
    registry: &Registry,
    r: &RefExpr,
    q: &RefExpr,
) -> Result<(), AllocError>
    requires left { is_printable_ref registry.now r.now ≡ true }
    requires right { is_printable_ref registry.now q.now ≡ true }
    ensures text { OnOk result (string_bytes text.new ≡ string_bytes text.old ++ (codes "same(" ++ (ref_text registry.now r.now ++ (codes ", " ++ (ref_text registry.now q.now ++ codes ")"))))) }
    ensures left { OnOk result (is_spelled_ref registry.now r.now ≡ true) }
    ensures right { OnOk result (is_spelled_ref registry.now q.now ≡ true) }
{
    open_call(text, registry, "same(", r)?;
    text.push_str(", ")?;
    push_ref(text, registry, q)?;
    text.push_str(")")
}

/// Appends whether the own row has a type that is enabled there.
pub(crate) fn push_on(text: &mut String, registry: &Registry, ty: TypeId) -> Result<(), AllocError>
    requires { is_known registry.now ty ≡ true }
    ensures text { OnOk result (string_bytes text.new ≡ string_bytes text.old ++ (codes "on(" ++ (type_name registry.now ty ++ codes ")"))) }
    ensures spelled { OnOk result (is_named_type registry.now ty ≡ true) }
{
    text.push_str("on(")?;
    push_type(text, registry, ty)?;
    text.push_str(")")
}
