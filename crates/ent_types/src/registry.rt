//! The types of a scenario, by number and by name.
ghost use Rattle.std.specs.Prelude.{◌≡◌, ◌<◌, ◌≤◌, [], ◌∷◌, ◌++◌, length, slice_get, option_map, true, false, IfSome, IfOk, IsTrue, ◌↔◌, OnOk, OnErr, MatchResult, None};
ghost use Rattle.std.specs.List.{list_any};
ghost use Rattle.ent_types.specs.Names.{is_name};
ghost use Rattle.ent_types.specs.Types.{same_name, are_distinct, is_lawful_type};
ghost use Rattle.ent_types.specs.Registries.{type_id_named, type_at, type_names, plain_tag, scene_tag_type, built_in_types, IsLawfulRegistry};
ghost use Rattle.ent_types.specs.TypeLookups.{kind_at, fields_at, field_kind_at, column_size_at, has_column_at, is_shared_at, is_cleanup_at, is_buffer_at, is_enableable_at};
ghost use Rattle.ent_types.specs.Refusals.{refusal, IsDue};

use crate::limits::{MOST_COLUMN_BYTES, MOST_FIELDS, MOST_TYPES};
use crate::{BUILT_IN_TYPES, FieldInfo, FieldKind, Kind, Memory, Name, Sequence, TypeId, TypeInfo};
use indexmap::IndexSet;
use std::alloc::Global;
use std::marker::Model;
use thiserror::Error;

/// Why a registry refused a type.
#[derive(Clone, Copy, Debug, PartialEq, Eq, Error)]
pub enum RegistryFault {
    /// The type has more than `MOST_FIELDS` fields.
    #[error("more than 64 fields")]
    TooWide,
    /// A type with this name is there.
    #[error("a type of this name is there")]
    Duplicate,
    /// `MOST_TYPES` types are there.
    #[error("256 types are there")]
    TooManyTypes,
    /// Memory ran out.
    #[error("out of memory")]
    Memory,
}

impl From<Memory> for RegistryFault {
    ghost use Rattle.std.specs.Prelude.{◌≡◌};
    ghost use Rattle.ent_types.specs.declared.registry.RegistryFault.TheVariants as fault;

    ghost from_gives = { λ _ f. f ≡ fault.Memory };

    fn from(_: Memory) -> RegistryFault {
        RegistryFault::Memory
    }
}

/// The types of a scenario in the order of their numbers. Contracts see the list of them.
///
/// Each is lawful, has at most `MOST_FIELDS` fields and a name of its own; the built-in types `Disabled`, `Prefab` and
/// `SceneTag` come first; and there are at most `MOST_TYPES`.
#[derive(Debug, Drop)]
pub struct Registry {
    types: Vec<TypeInfo>,
    // The types' names in order, so that a name is found without a walk over the types.
    names: IndexSet<Name>,
}

impl Model for Registry {
    ghost use Rattle.std.specs.Prelude.{List};
    ghost use Rattle.ent_types.specs.declared.type_info.TypeInfo.{TypeInfo as Info};

    ghost Value = { List Info };

    ghost use Rattle.std.specs.Prelude.{◌≡◌};
    ghost use Rattle.ent_types.specs.Registries.{IsLawfulRegistry, type_names};

    ghost view = { λ r. r.types.items };

    ghost invariant = { λ r. IsLawfulRegistry r.types.items × (r.names.keys ≡ type_names r.types.items) };
}

impl Registry {
    /// The registry of the built-in types: 0 `Disabled` and 1 `Prefab`, two tags, and 2 `SceneTag`, a shared type with
    /// the i64 field `scene`.
    pub fn new(alloc: Global) -> Result<Registry, Memory>
        ensures { OnOk result (result ≡ Ok built_in_types) }
    {
        Registry::of(alloc, built_in(alloc)?)
    }

    /// The registry of these types.
    fn of(alloc: Global, types: Vec<TypeInfo>) -> Result<Registry, Memory>
        requires { IsLawfulRegistry types.items }
        ensures { OnOk result (result ≡ Ok types.items) }
    {
        let names = names_of(alloc, types.as_slice())?;
        Ok(Registry { types, names })
    }

    /// Gives a type the next number. The registry is as before after an error.
    ///
    /// The first that holds is the fault: `TooWide` if the type has more than `MOST_FIELDS` fields, `Duplicate` if a type
    /// has its name, `TooManyTypes` if `MOST_TYPES` types are there. `Memory` is returned only if none of them holds.
    pub fn add(&mut self, info: TypeInfo) -> Result<TypeId, RegistryFault>
        requires { IsTrue (is_lawful_type info) }
        ensures ok { OnOk result (self.new ≡ self.old ++ info ∷ []) }
        ensures err { OnErr result (self.new ≡ self.old) }
        ensures answer { MatchResult result
            (λ ty. (refusal self.old info ≡ None) × (ty.0 ≡ length self.old))
            (IsDue (refusal self.old info)) }
    {
        if info.fields.len() > MOST_FIELDS {
            return Err(RegistryFault::TooWide);
        }
        if self.find(&info.name).is_some() {
            return Err(RegistryFault::Duplicate);
        }
        let number = self.types.len();
        if number >= MOST_TYPES {
            return Err(RegistryFault::TooManyTypes);
        }
        push(&mut self.types, &mut self.names, info)?;
        Ok(TypeId(number as u16))
    }

    /// An equal registry.
    pub fn copy(&self, alloc: Global) -> Result<Registry, Memory>
        ensures { OnOk result (result ≡ Ok self.now) }
    {
        Registry::of(alloc, copies(alloc, self.types.as_slice())?)
    }

    /// The number of the type with this name; `None` exactly where no type has it.
    pub fn find(&self, name: &Name) -> Option<TypeId>
        ensures place { result ≡ type_id_named self.now name.now }
        ensures within { IfSome result (λ ty. ty.0 < length self.now) }
        ensures small { IfSome result (λ ty. ty.0 < MOST_TYPES) }
    {
        let at = self.names.get_index_of(name)?;
        Some(TypeId(at as u16))
    }

    /// `true` if there is a type with this number.
    pub fn knows(&self, ty: TypeId) -> bool
        ensures value { IsTrue result ↔ (ty.0 < length self.now) }
        ensures most { length self.now ≤ MOST_TYPES }
    {
        usize::from(ty.0) < self.types.len()
    }

    /// The type with this number. It is lawful and has at most `MOST_FIELDS` fields.
    pub fn info(&self, ty: TypeId) -> &TypeInfo
        requires { ty.0 < length self.now }
        ensures value { result.now ≡ type_at self.now ty.0 }
        ensures there { slice_get self.now ty.0 ≡ Some result.now }
        ensures lawful { IsTrue (is_lawful_type result.now) }
        ensures width { length result.now.fields ≤ MOST_FIELDS }
    {
        &self.types[ty.0 as usize]
    }

    /// The kind of a type; that of a tag if there is no such type.
    pub fn kind(&self, ty: TypeId) -> Kind
        ensures { result ≡ kind_at self.now ty.0 }
    {
        match self.types.as_slice().get(usize::from(ty.0)) {
            Some(info) => info.kind,
            None => Kind::Tag,
        }
    }

    /// The fields of a type, in order; none if there is no such type.
    pub fn fields(&self, ty: TypeId) -> &[FieldInfo]
        ensures value { result.now ≡ fields_at self.now ty.0 }
        ensures width { length result.now ≤ MOST_FIELDS }
    {
        if !self.knows(ty) {
            return &[];
        }
        self.info(ty).fields.as_slice()
    }

    /// The kind of the field at a place from 0; i32 if there is no such type or field.
    pub fn field_kind(&self, ty: TypeId, at: usize) -> FieldKind
        ensures { result ≡ field_kind_at self.now ty.0 at }
    {
        match self.fields(ty).get(at) {
            Some(field) => field.kind,
            None => FieldKind::I32,
        }
    }

    /// The bytes that a row takes in the column of a type; 0 if it has no column or there is no such type.
    #[tactic(auto, unfolding(crate::specs::Types::column_size))]
    pub fn column_size(&self, ty: TypeId) -> u32
        ensures value { result ≡ column_size_at self.now ty.0 }
        ensures most { result ≤ MOST_COLUMN_BYTES }
    {
        if !self.knows(ty) {
            return 0;
        }
        self.info(ty).column_size()
    }

    /// `true` if there is such a type and it has a column in a block.
    pub fn has_column(&self, ty: TypeId) -> bool
        ensures { result ≡ has_column_at self.now ty.0 }
    {
        self.kind(ty).has_column()
    }

    /// `true` if there is such a type and all rows of a block have one value of it.
    pub fn is_shared(&self, ty: TypeId) -> bool
        ensures { result ≡ is_shared_at self.now ty.0 }
    {
        self.kind(ty).is_shared()
    }

    /// `true` if there is such a type and a destroyed row stays while it has it.
    pub fn is_cleanup(&self, ty: TypeId) -> bool
        ensures { result ≡ is_cleanup_at self.now ty.0 }
    {
        self.kind(ty).is_cleanup()
    }

    /// `true` if there is such a type and a row has a list of elements of it.
    pub fn is_buffer(&self, ty: TypeId) -> bool
        ensures { result ≡ is_buffer_at self.now ty.0 }
    {
        self.kind(ty).is_buffer()
    }

    /// `true` if there is such a type and it can be disabled in a row.
    pub fn is_enableable(&self, ty: TypeId) -> bool
        ensures { result ≡ is_enableable_at self.now ty.0 }
    {
        match self.types.as_slice().get(usize::from(ty.0)) {
            Some(info) => info.enableable,
            None => false,
        }
    }

    /// All types, in the order of their numbers.
    pub fn types(&self) -> &[TypeInfo]
        ensures value { result.now ≡ self.now }
        ensures lawful { IsLawfulRegistry self.now }
    {
        self.types.as_slice()
    }

    /// The number of types: from `BUILT_IN_TYPES` to `MOST_TYPES`.
    pub fn len(&self) -> usize
        ensures count { result ≡ length self.now }
        ensures least { BUILT_IN_TYPES ≤ result }
        ensures most { result ≤ MOST_TYPES }
    {
        self.types.len()
    }
}

/// A list with a copy of each type.
fn copies(alloc: Global, types: &[TypeInfo]) -> Result<Vec<TypeInfo>, Memory>
    ensures { IfOk result (λ made. made.items ≡ types.now) }
{
    let mut made = Vec::with_capacity(alloc, types.len())?;
    for info in types {
        made.push(info.copy(alloc)?)?;
    }
    Ok(made)
}

/// The names of the types, in order. No two types have one name.
fn names_of(alloc: Global, types: &[TypeInfo]) -> Result<IndexSet<Name>, Memory>
    requires { are_distinct (type_names types.now) ≡ true }
    ensures { IfOk result (λ names. names.keys ≡ type_names types.now) }
{
    let mut names = IndexSet::with_capacity(alloc, types.len())?;
    for info in types {
        names.insert(info.name)?;
    }
    Ok(names)
}

/// Puts a type and its name last. Both lists are as before after an error.
fn push(types: &mut Vec<TypeInfo>, names: &mut IndexSet<Name>, info: TypeInfo) -> Result<(), Memory>
    requires { list_any (same_name info.name) names.old.keys ≡ false }
    ensures types { OnOk result (types.new.items ≡ types.old.items ++ info ∷ []) }
    ensures names { OnOk result (names.new.keys ≡ names.old.keys ++ info.name ∷ []) }
    ensures types_left { OnErr result (types.new.items ≡ types.old.items) }
    ensures names_left { OnErr result (names.new.keys ≡ names.old.keys) }
{
    types.reserve(1)?;
    names.insert(info.name)?;
    types.push_reserved(info);
    Ok(())
}

/// The types that each registry begins with.
#[tactic(auto, unfolding(crate::specs::Registries::built_in_types))]
fn built_in(alloc: Global) -> Result<Vec<TypeInfo>, Memory>
    ensures { IfOk result (λ types. types.items ≡ built_in_types) }
{
    Ok(vec![in alloc;
        built_in_tag(alloc, known_name(b"Disabled")),
        built_in_tag(alloc, known_name(b"Prefab")),
        scene_tag(alloc)?,
    ]?)
}

/// A tag that is always enabled.
fn built_in_tag(alloc: Global, name: Name) -> TypeInfo
    ensures { result ≡ plain_tag name }
{
    TypeInfo {
        name,
        kind: Kind::Tag,
        fields: Sequence::new(alloc),
        enableable: false,
    }
}

/// The shared type whose value is the number of the load that a row came with.
fn scene_tag(alloc: Global) -> Result<TypeInfo, Memory>
    ensures { OnOk result (result ≡ Ok scene_tag_type) }
{
    let fields = vec![in alloc;
        FieldInfo {
            name: known_name(b"scene"),
            kind: FieldKind::I64,
        },
    ]?;
    Ok(TypeInfo {
        name: known_name(b"SceneTag"),
        kind: Kind::Shared,
        fields: Sequence::from_vec(fields),
        enableable: false,
    })
}

/// The name with these bytes, which are one.
fn known_name(bytes: &[u8]) -> Name
    requires { IsTrue (is_name bytes.now) }
    ensures { result ≡ bytes.now }
{
    match Name::of(bytes) {
        Some(name) => name,
        None => unreachable!(),
    }
}
