//! What the names of a text mean, by the place of the text.
ghost use Rattle.std.specs.Prelude.{◌≡◌, ◌<◌, ◌≤◌, ◌&&◌, not, length};
ghost use Rattle.ent_types.specs.declared.limits.TheConstants.{MOST_TYPES};
ghost use Rattle.expr_read.specs.ScopeOf.{is_system, is_known, is_own, may_name, is_open, may_stand, scope_of};
ghost use Rattle.expr_grammar.specs.CommandScopes.{ServesCommands};
ghost use Rattle.expr_grammar.specs.Scopes.{IsLawful};

mod by_kind;
mod by_word;
mod left;

use crate::places::type_of;
use crate::{Call, FieldUse, RefExpr, TypeUse, Variable};
use by_kind::{has_suited, suited_field};
use by_word::{is, own_reference, plain_call, system_call, system_variable};
use ent_types::{Kind, Name, Registry, TypeId, TypeInfo, TypeSet};
use expr_machine::Names;
use left::{is_left, is_taken, kind_at};

/// The place of a text, which decides what its names may be.
///
/// This project's own.
#[derive(Clone, Copy, Debug, PartialEq, Eq)]
pub enum TextPlace {
    /// A value of a spawn, which knows the number of the row.
    Spawn,
    /// A command of an event, which knows the frame.
    Event,
    /// A text of a system, which knows the own row.
    System,
}

/// A name that an earlier command of the system makes.
///
/// This project's own.
#[derive(Clone, Copy, Debug)]
pub struct Made {
    /// The name, which is neither `null` nor `self`.
    pub name: Name,
    /// The number of the command that makes it.
    pub number: u32,
    /// Whether that command and the text's own go into one buffer.
    pub same_buffer: bool,
}

/// What the names of a text mean: the types, the place of the text, the types that each visited row has, and the names
/// that earlier commands make. The names are distinct, and the bound types are known.
///
/// A type that isn't known may be named nowhere. Each answer takes at most one look-up of a type's name, one walk over
/// the fields of a type or the names made, and no memory. This project's own.
#[derive(Clone, Copy)]
pub struct Scope<'a> {
    /// The types.
    pub registry: &'a Registry,
    /// The place of the text.
    pub place: TextPlace,
    /// The types whose values a system sees in each row.
    pub bound: &'a TypeSet,
    /// The names that earlier commands make.
    pub made: &'a [Made],
}

impl TextPlace {
    fn is_system(self) -> bool
        ensures { result ≡ is_system self }
    {
        match self {
            TextPlace::Spawn | TextPlace::Event => false,
            TextPlace::System => true,
        }
    }
}

impl Scope<'_> {
    /// `true` if the registry has the type.
    fn is_known(&self, ty: TypeId) -> bool
        ensures value { result ≡ is_known self.now.registry.now ty }
        ensures most { length self.now.registry.now ≤ MOST_TYPES }
    {
        usize::from(ty.0) < self.registry.len()
    }

    /// `true` if each row that the system visits has the type.
    fn is_own(&self, ty: TypeId) -> bool
        requires { ty.0 < MOST_TYPES }
        ensures { result ≡ is_own self.now.place self.now.bound.now ty }
    {
        self.place.is_system() && self.bound.has(ty)
    }

    /// `true` if fields of a type of this kind fit the use.
    fn may_name(&self, role: FieldUse, ty: TypeId, kind: Kind) -> bool
        requires { ty.0 < MOST_TYPES }
        ensures { result ≡ may_name self.now.place self.now.bound.now role ty kind }
    {
        match role {
            FieldUse::Number | FieldUse::Entity => self.is_own(ty) && !kind.is_buffer(),
            FieldUse::Looked => !kind.is_buffer(),
            FieldUse::Assigned => self.is_own(ty) && kind.has_column(),
        }
    }

    /// `true` if the registry has the type and its fields fit the use.
    fn is_open(&self, role: FieldUse, ty: TypeId) -> bool
        ensures { result ≡ is_open self.now.registry.now self.now.place self.now.bound.now role ty }
    {
        self.is_known(ty) && self.may_name(role, ty, self.registry.kind(ty))
    }

    /// `true` if a type that is known fits the use.
    fn may_stand(&self, role: TypeUse, ty: TypeId, info: &TypeInfo) -> bool
        requires { ty.0 < MOST_TYPES }
        ensures { result ≡ may_stand self.now.place self.now.bound.now role ty info.now }
    {
        match role {
            TypeUse::Asked => true,
            TypeUse::Own => !info.kind.is_shared(),
            TypeUse::Switched => self.is_own(ty) && info.enableable,
            TypeUse::Removed => ty.0 != TypeId::SCENE_TAG.0,
            TypeUse::Added => ty.0 != TypeId::SCENE_TAG.0 && !info.kind.is_buffer(),
            TypeUse::Enabled => info.enableable,
            TypeUse::Set => info.kind.has_column(),
            TypeUse::Shared => info.kind.is_shared() && ty.0 != TypeId::SCENE_TAG.0,
        }
    }
}

impl Scope<'_> {
    /// Shows that the theory of the language holds in this scope.
    pub(crate) fn law(&self)
        ensures { IsLawful (scope_of self.now.registry.now self.now.place self.now.bound.now self.now.made.now) }
    {
        // The types of a registry are lawful.
        let _ = self.registry.types();
    }

    /// Shows that the theory of commands holds in this scope, too.
    pub(crate) fn command_law(&self)
        ensures { ServesCommands (scope_of self.now.registry.now self.now.place self.now.bound.now self.now.made.now) }
    {
        let _ = self.registry.types();
        // There are fewer than 2^64 names, so that some name is new.
        let _ = self.made.iter();
    }
}

impl Names for Scope<'_> {
    ghost scope = { λ s. scope_of s.registry.now s.place s.bound.now s.made.now };

    fn variable(&self, name: &[u8]) -> Option<Variable> {
        match self.place {
            TextPlace::Spawn if is(name, b"n") => Some(Variable::N),
            TextPlace::Event if is(name, b"frame") => Some(Variable::Frame),
            TextPlace::System => system_variable(name),
            _ => None,
        }
    }

    fn call(&self, name: &[u8]) -> Option<Call> {
        if self.place.is_system() {
            system_call(name)
        } else {
            plain_call(name)
        }
    }

    fn reference(&self, made: bool, name: &[u8]) -> Option<RefExpr> {
        if is(name, b"null") {
            Some(RefExpr::Null)
        } else if self.place.is_system() {
            own_reference(self.made, made, name)
        } else {
            None
        }
    }

    fn find(&self, name: &[u8]) -> Option<TypeId> {
        type_of(name, self.registry)
    }

    fn field(&self, role: FieldUse, ty: TypeId, name: &[u8]) -> Option<u8> {
        if !self.is_open(role, ty) {
            return None;
        }
        suited_field(role, self.registry, ty, name)
    }

    fn has_field(&self, role: FieldUse, ty: TypeId) -> bool {
        self.is_open(role, ty) && has_suited(role, self.registry.fields(ty))
    }

    fn allows(&self, role: TypeUse, ty: TypeId) -> bool {
        self.is_known(ty) && self.may_stand(role, ty, self.registry.info(ty))
    }

    fn new_name(&self, name: &[u8]) -> Option<Name> {
        if is_taken(self.made, name) {
            return None;
        }
        Name::of(name)
    }

    fn has_type(&self, role: TypeUse, used: TypeSet) -> bool {
        self.has_left(role, used)
    }

    fn type_left(&self, used: TypeSet, name: &[u8]) -> Option<TypeId> {
        let ty = type_of(name, self.registry)?;
        if self.allows(TypeUse::Added, ty) && is_left(used, ty) {
            Some(ty)
        } else {
            None
        }
    }

    fn kind_at(&self, ty: TypeId, at: u8) -> Option<bool> {
        kind_at(self.registry.fields(ty), usize::from(at))
    }

    fn is_ref(&self, ty: TypeId, field: u8) -> bool {
        self.registry.field_kind(ty, usize::from(field)).is_ref()
    }
}
