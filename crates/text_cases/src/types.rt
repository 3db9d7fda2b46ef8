//! The types that a table declares.
ghost use Rattle.std.specs.Prelude.{◌≡◌, Some, None, MatchResult};
ghost use Rattle.ent_types.specs.Names.{name_of};

use crate::fault::LineFault;
use ent_types::{FieldInfo, FieldKind, Kind, Name, Sequence, TypeInfo};
use std::alloc::Global;

/// The word of a type that can be switched off in a row.
const ENABLEABLE: &str = "enableable";

/// Returns the type that the rest of its line declares: the kind, the name, each field as `NAME:KIND`, and `enableable` if
/// it is, with spaces between.
pub fn read_type(alloc: Global, rest: &str) -> Result<TypeInfo, LineFault> {
    let (kind, rest) = rest.split_once(' ').ok_or(LineFault::Parts)?;
    let (name, rest) = rest.split_once(' ').unwrap_or((rest, ""));
    let mut info = TypeInfo {
        name: name_of(name)?,
        kind: kind_named(kind)?,
        fields: Sequence::new(alloc),
        enableable: false,
    };
    for word in rest.split(' ').filter(|word| !word.is_empty()) {
        if word == ENABLEABLE {
            info.enableable = true;
        } else {
            info.fields.push(read_field(word)?)?;
        }
    }
    Ok(info)
}

/// Returns the field that a word declares.
fn read_field(word: &str) -> Result<FieldInfo, LineFault> {
    let (name, kind) = word.split_once(':').ok_or(LineFault::Parts)?;
    Ok(FieldInfo {
        name: name_of(name)?,
        kind: field_kind_named(kind)?,
    })
}

/// The name that a word is.
pub fn name_of(word: &str) -> Result<Name, LineFault>
    ensures { MatchResult result (λ name. name_of word.now ≡ Some name) (λ _. name_of word.now ≡ None) }
{
    Name::of(word.as_bytes()).ok_or(LineFault::Name)
}

/// The kind of types with this name.
fn kind_named(name: &str) -> Result<Kind, LineFault> {
    match name {
        "plain" => Ok(Kind::Plain),
        "tag" => Ok(Kind::Tag),
        "shared" => Ok(Kind::Shared),
        "cleanup" => Ok(Kind::Cleanup),
        _ => Err(LineFault::UnknownWord),
    }
}

/// The kind of fields with this name.
fn field_kind_named(name: &str) -> Result<FieldKind, LineFault> {
    match name {
        "i32" => Ok(FieldKind::I32),
        "i64" => Ok(FieldKind::I64),
        "ref" => Ok(FieldKind::Ref),
        _ => Err(LineFault::UnknownWord),
    }
}
