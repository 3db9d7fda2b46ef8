//! The rows on which the expressions of the table are evaluated: the own row, and the rows of two other entities.
ghost use Rattle.std.specs.Prelude.{◌≡◌, ℕ, Bool, true, false, not, List, [], ◌∷◌, if◌then◌else◌, pos, ◌==◌, nat_lt, find};
ghost use Rattle.world_model.specs.Part.{same_entity};
ghost use Rattle.ent_types.specs.declared.value.Value.TheVariants.{Int, Ref};
ghost use Rattle.text_cases.specs.Reads.{has_own, can_look};

use ent_types::{Entity, TypeId, Value};
use expr_eval::{Lookup, RowReader};

/// The entity of the own row.
const ME: Entity = Entity {
    index: 4,
    version: 2,
};

/// An entity with the tag 3, two fields of type 5, which is disabled, and the shared type 8.
const FULL: Entity = Entity {
    index: 1,
    version: 1,
};

/// An entity that is dying, with one field of type 6 left.
const DYING: Entity = Entity {
    index: 2,
    version: 3,
};

/// `true` if the own row has this field.
pub fn has_own(ty: TypeId, field: u8) -> bool
    ensures { result ≡ has_own ty field }
{
    ty.0 != 4 && field < 2
}

/// `true` if the other rows can be read by this type.
pub fn can_look(ty: TypeId) -> bool
    ensures { result ≡ can_look ty }
{
    ty.0 != 4
}

/// The own row: field 0 of each type but 4 is 5, field 1 is its own entity, and each type but 9 is enabled.
#[derive(Clone, Copy)]
pub struct OwnRow;

impl RowReader for OwnRow {
    ghost own_row = { λ _. record {
      field = λ ty i. if i == 0 then Int (pos 5) else Ref (record { index = 4; version = 2 });
      on = λ ty. not (ty.0 == 9);
      me = record { index = 4; version = 2 };
      item = 3;
      row = 7;
      frame = 11;
      n = 13;
    } };

    ghost has_field = { λ _ ty i. has_own ty i };

    fn field(&self, _ty: TypeId, field: u8) -> Value {
        if field == 0 {
            Value::Int(5)
        } else {
            Value::Ref(ME)
        }
    }

    fn on(&self, ty: TypeId) -> bool {
        ty.0 != 9
    }

    fn me(&self) -> Entity {
        ME
    }

    fn item(&self) -> u32 {
        3
    }

    fn row(&self) -> u32 {
        7
    }

    fn frame(&self) -> u32 {
        11
    }

    fn n(&self) -> u32 {
        13
    }
}

/// The rows of `FULL` and `DYING`, of which all types but 4 can be read.
#[derive(Clone, Copy)]
pub struct OtherRows;

impl Lookup for OtherRows {
    ghost found = { λ _ e. find (λ x. same_entity e x.row.entity) (
        (record {
          home = record { types = 3 ∷ 5 ∷ 8 ∷ []; shared = (record { type_id = 8; values = Int (pos 6) ∷ [] }) ∷ [] };
          row = record {
            entity = record { index = 1; version = 1 };
            cells = (record { type_id = 3; values = []; off = false })
                ∷ (record { type_id = 5; values = Int (pos 70) ∷ Ref (record { index = 4; version = 2 }) ∷ []; off = true })
                ∷ [];
            dying = false;
          };
        })
        ∷ (record {
          home = record { types = 6 ∷ []; shared = [] };
          row = record {
            entity = record { index = 2; version = 3 };
            cells = (record { type_id = 6; values = Int (pos 9) ∷ []; off = false }) ∷ [];
            dying = true;
          };
        })
        ∷ []) };

    ghost can_read = { λ _ ty. can_look ty };

    fn value(&self, e: Entity, ty: TypeId, field: u8) -> Option<Value> {
        if FULL == e {
            return match (ty.0, field) {
                (5, 0) => Some(Value::Int(70)),
                (5, 1) => Some(Value::Ref(ME)),
                (8, 0) => Some(Value::Int(6)),
                _ => None,
            };
        }
        if DYING == e && ty.0 == 6 && field == 0 {
            return Some(Value::Int(9));
        }
        None
    }

    fn has(&self, e: Entity, ty: TypeId) -> bool {
        if FULL == e {
            return matches!(ty.0, 3 | 5 | 8);
        }
        DYING == e && ty.0 == 6
    }

    fn alive(&self, e: Entity) -> bool {
        FULL == e || DYING == e
    }
}
