//! What an expression reads: its own row, and other rows.
ghost use Rattle.std.specs.Prelude.{◌≡◌, ℕ, Bool, true, Option};
ghost use Rattle.ent_types.specs.declared.entity.TypeId.{TypeId};
ghost use Rattle.ent_types.specs.declared.entity.Entity.{Entity};
ghost use Rattle.world_model.specs.Found.{Found};
ghost use Rattle.expr_eval.specs.Rows.{others_of};
ghost use Rattle.expr_eval.specs.Values.{OwnRow};

use ent_types::{Entity, TypeId, Value};

/// The row on which an expression is evaluated, and where the row is visited (entsim's own).
pub trait RowReader {
    /// What the row is.
    ghost own_row: { Self → OwnRow };

    /// The type is bound and has the field.
    ghost has_field: { Self → TypeId → ℕ → Bool };

    /// A field's value.
    fn field(&self, ty: TypeId, field: u8) -> Value
        requires { has_field self.now ty field ≡ true }
        ensures { result ≡ (own_row self.now).field ty field };

    /// `true` if the row has the type and it is enabled there.
    fn on(&self, ty: TypeId) -> bool
        ensures { result ≡ (own_row self.now).on ty };

    /// The row's entity.
    fn me(&self) -> Entity
        ensures { result ≡ (own_row self.now).me };

    /// The number of the item: which of the visited blocks the row is in.
    fn item(&self) -> u32
        ensures { result ≡ (own_row self.now).item };

    /// The row's place in its block.
    fn row(&self) -> u32
        ensures { result ≡ (own_row self.now).row };

    /// The frame, from 1.
    fn frame(&self) -> u32
        ensures { result ≡ (own_row self.now).frame };

    /// The row's number in its spawn, from 0.
    fn n(&self) -> u32
        ensures { result ≡ (own_row self.now).n };
}

/// Other rows, by their entities, as far as some types of theirs can be read (this project's own).
pub trait Lookup {
    /// The row of an entity, with where it belongs.
    ghost found: { Self → Entity → Option Found };

    /// The type can be read.
    ghost can_read: { Self → TypeId → Bool };

    /// A field's value, enabled or not; `None` exactly where the entity isn't alive in these rows, lacks the type, or
    /// the type lacks the field.
    fn value(&self, e: Entity, ty: TypeId, field: u8) -> Option<Value>
        requires { can_read self.now ty ≡ true }
        ensures { result ≡ (others_of (found self.now)).value e ty field };

    /// `true` if the entity is alive and has the type, as its own or as a shared one.
    fn has(&self, e: Entity, ty: TypeId) -> bool
        ensures { result ≡ (others_of (found self.now)).has e ty };

    /// `true` if the entity is alive, dying or not.
    fn alive(&self, e: Entity) -> bool
        ensures { result ≡ (others_of (found self.now)).alive e };
}
