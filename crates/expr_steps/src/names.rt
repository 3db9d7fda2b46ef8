//! What the names of a text mean.
ghost use Rattle.std.specs.Prelude.{◌≡◌, ◌<◌, IfSome};
ghost use Rattle.ent_types.specs.declared.limits.TheConstants.{MOST_FIELDS, MOST_TYPES};
ghost use Rattle.expr_grammar.specs.Machine.{when, ids, kind_at, type_left};
ghost use Rattle.expr_grammar.specs.Scopes.{Scope};

use ent_types::{Name, TypeId, TypeSet};
use expr_grammar::{Call, FieldUse, TypeUse};
use expr_trees::{RefExpr, Variable};

/// What the names of a text mean. Its meaning is a scope of the definitions.
pub trait Names {
    /// The scope of the definitions that it computes.
    ghost scope: { Self → Scope };

    /// Returns the variable of this name.
    fn variable(&self, name: &[u8]) -> Option<Variable>
        ensures { result ≡ (scope self.now).variable name.now };

    /// Returns the call of this name that is allowed here.
    fn call(&self, name: &[u8]) -> Option<Call>
        ensures { result ≡ (scope self.now).call name.now };

    /// Returns the reference that the name alone is. A made name fits if `made` is true.
    fn reference(&self, made: bool, name: &[u8]) -> Option<RefExpr>
        ensures { result ≡ (scope self.now).reference made name.now };

    /// Returns the known type of this name.
    fn find(&self, name: &[u8]) -> Option<TypeId>
        ensures { result ≡ (scope self.now).find name.now };

    /// Returns the place of the type's field of this name, if the field fits the use.
    fn field(&self, role: FieldUse, ty: TypeId, name: &[u8]) -> Option<u8>
        ensures { result ≡ (scope self.now).field role ty name.now };

    /// `true` if some field of the type fits the use.
    fn has_field(&self, role: FieldUse, ty: TypeId) -> bool
        ensures { result ≡ (scope self.now).has_field role ty };

    /// `true` if the type fits the use.
    fn allows(&self, role: TypeUse, ty: TypeId) -> bool
        ensures { result ≡ (scope self.now).allows role ty };

    /// `true` if the type's field at this place is a ref field.
    fn is_ref(&self, ty: TypeId, field: u8) -> bool
        ensures { result ≡ (scope self.now).is_ref ty field };

    /// Returns the name, if a command may make it.
    fn new_name(&self, name: &[u8]) -> Option<Name>
        ensures { result ≡ when ((scope self.now).is_new name.now) name.now };

    /// `true` if some type that isn't in the set fits the use.
    fn has_type(&self, role: TypeUse, used: TypeSet) -> bool
        ensures { result ≡ (scope self.now).has_type role (ids used) };

    /// Returns the type of this name, if a part of `create` may name it and it isn't in the set.
    fn type_left(&self, used: TypeSet, name: &[u8]) -> Option<TypeId>
        ensures value { result ≡ type_left (scope self.now) used name.now }
        ensures within { IfSome result (λ ty. ty.0 < MOST_TYPES) };

    /// Returns whether the type's field at this place is a ref field, if there is such a field.
    fn kind_at(&self, ty: TypeId, at: u8) -> Option<bool>
        ensures value { result ≡ kind_at ((scope self.now).refs ty) at }
        ensures within { IfSome result (λ kind. at < MOST_FIELDS) };
}
