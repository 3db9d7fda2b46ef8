//! A type as it is declared: its name, its kind and its fields.
ghost use Rattle.std.specs.Prelude.{◌≡◌, ◌<◌, ◌≤◌, length, position, sum_by, OnOk, IfSome};
ghost use Rattle.std.specs.List.{list_any};
ghost use Rattle.ent_types.specs.Types.{same_name, has_shape, is_ref, are_distinct, field_names_of, is_lawful_type, field_named, field_size, column_size};

use crate::limits::{MOST_BUFFER_FIELDS, MOST_COLUMN_BYTES, MOST_FIELDS, MOST_SHARED_FIELDS};
use crate::{FieldKind, Kind, Memory, Name, Sequence};
use std::alloc::Global;

/// A field of a type.
#[derive(Clone, Copy, Debug)]
pub struct FieldInfo {
    /// The field's name, which no other field of the type has.
    pub name: Name,
    /// What it holds.
    pub kind: FieldKind,
}

/// A type as it is declared.
#[derive(Debug, Drop)]
pub struct TypeInfo {
    /// The type's name, which no other type of the registry has.
    pub name: Name,
    /// What its values belong to.
    pub kind: Kind,
    /// Its fields, in order.
    pub fields: Sequence<FieldInfo>,
    /// Whether the type can be switched off in a row.
    pub enableable: bool,
}

impl TypeInfo {
    /// `true` if the type is well formed: a plain type has a field, a tag has none, a shared type has 1 to 8, none of
    /// them a ref, and a buffer type has 1 to 8; only plain types and tags may be enableable; and no two fields have
    /// one name.
    ///
    /// This project's own. The number of fields that a registry takes is tested by `Registry::add`.
    #[tactic(auto, unfolding(crate::specs::Types::is_lawful_type))]
    pub fn is_lawful(&self) -> bool
        ensures { result ≡ is_lawful_type self.now }
    {
        if !self.has_shape() {
            return false;
        }
        if self.enableable && !self.kind.may_be_enableable() {
            return false;
        }
        are_distinct(self.fields.as_slice())
    }

    fn has_shape(&self) -> bool
        ensures { result ≡ has_shape self.now.kind self.now.fields }
    {
        let count = self.fields.len();
        match self.kind {
            Kind::Plain => count >= 1,
            Kind::Tag => count == 0,
            Kind::Shared => count >= 1 && count <= MOST_SHARED_FIELDS && !self.has_ref(),
            Kind::Cleanup => true,
            Kind::Buffer => count >= 1 && count <= MOST_BUFFER_FIELDS,
        }
    }

    fn has_ref(&self) -> bool
        ensures { result ≡ list_any is_ref self.now.fields }
    {
        self.fields.as_slice().iter().any(|f| f.kind.is_ref())
    }

    /// A copy of the type.
    pub fn copy(&self, alloc: Global) -> Result<TypeInfo, Memory>
        ensures { OnOk result (result ≡ Ok self.now) }
    {
        let fields = Vec::from_slice(alloc, self.fields.as_slice())?;
        Ok(TypeInfo {
            name: self.name,
            kind: self.kind,
            fields: Sequence::from_vec(fields),
            enableable: self.enableable,
        })
    }

    /// The bytes that a row takes in the type's column: 0 for a tag, a shared type or a buffer type, which have none.
    #[tactic(auto, unfolding(crate::specs::Types::column_size))]
    pub fn column_size(&self) -> u32
        requires { length self.now.fields ≤ MOST_FIELDS }
        ensures value { result ≡ column_size self.now }
        ensures most { result ≤ MOST_COLUMN_BYTES }
    {
        if !self.kind.has_column() {
            return 0;
        }
        total_size(self.fields.as_slice())
    }

    /// The place of the field with this name, from 0; `None` exactly where no field has it.
    #[tactic(auto, unfolding(crate::specs::Types::field_named))]
    pub fn field_named(&self, name: &Name) -> Option<u8>
        requires { length self.now.fields ≤ MOST_FIELDS }
        ensures place { result ≡ field_named self.now name.now }
        ensures within { IfSome result (λ at. at < length self.now.fields) }
    {
        let at = place_of(self.fields.as_slice(), name)?;
        Some(at as u8)
    }
}

/// The bytes that these fields take in a row.
fn total_size(fields: &[FieldInfo]) -> u32
    requires { length fields.now ≤ MOST_FIELDS }
    ensures value { result ≡ sum_by (λ f. field_size f.kind) fields.now }
    ensures most { result ≤ MOST_COLUMN_BYTES }
{
    let mut total = 0;
    for field in fields {
        total += field.kind.size();
    }
    total
}

/// `true` if no two fields have one name.
fn are_distinct(fields: &[FieldInfo]) -> bool
    ensures { result ≡ are_distinct (field_names_of fields.now) }
{
    for (i, field) in fields.iter().enumerate() {
        if has_name(&fields[i + 1..], &field.name) {
            return false;
        }
    }
    true
}

/// The place of the first field with the name.
fn place_of(fields: &[FieldInfo], name: &Name) -> Option<usize>
    ensures place { result ≡ position (λ f. same_name name.now f.name) fields.now }
    ensures within { IfSome result (λ at. at < length fields.now) }
{
    fields.iter().position(|f| *name == f.name)
}

/// `true` if a field has the name.
fn has_name(fields: &[FieldInfo], name: &Name) -> bool
    ensures { result ≡ list_any (λ f. same_name name.now f.name) fields.now }
{
    fields.iter().any(|f| *name == f.name)
}
