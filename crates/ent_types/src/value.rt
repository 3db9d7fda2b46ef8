//! Values of fields, and the parts of a row.
ghost use Rattle.std.specs.Prelude.{◌≡◌, ◌<◌, [], ◌∷◌, ◌++◌, length, slice_get, OnOk, OnErr, OnSome};
ghost use Rattle.std.specs.Option.{option_copied};

use crate::{Entity, Memory, Sequence, TypeId};
use smallvec::SmallVec;
use std::alloc::Global;
use std::marker::Model;

/// The value of one field: a signed number, or a reference to an entity.
#[derive(Clone, Copy, Debug, PartialEq, Eq, PartialOrd, Ord, Hash)]
pub enum Value {
    /// The value of an i32 or i64 field.
    Int(i64),
    /// The value of a ref field.
    Ref(Entity),
}

impl Default for Value {
    ghost use Rattle.std.specs.Prelude.{◌≡◌, pos};
    ghost use Rattle.ent_types.specs.declared.value.Value.TheVariants.{Int};

    ghost is_default = { λ v. v ≡ Int (pos 0) };

    fn default() -> Value {
        Value::Int(0)
    }
}

/// The values of one type in one row, in the order of the type's fields. Contracts see a list.
///
/// Most types have few fields, so up to four values are kept in place.
#[derive(Debug, Drop)]
pub struct Values {
    items: SmallVec<Value, 4>,
}

impl Model for Values {
    ghost use Rattle.std.specs.Prelude.{List};
    ghost use Rattle.ent_types.specs.declared.value.Value.{Value as FieldValue};

    ghost Value = { List FieldValue };

    ghost view = { λ v. v.items.items };
}

impl Values {
    /// The empty list. It takes no memory.
    pub fn new(alloc: Global) -> Values
        ensures { result ≡ [] }
    {
        Values {
            items: SmallVec::new(alloc),
        }
    }

    /// A list with the values of a slice.
    pub fn from_slice(alloc: Global, values: &[Value]) -> Result<Values, Memory>
        ensures { OnOk result (result ≡ Ok values.now) }
    {
        Ok(Values {
            items: SmallVec::from_slice(alloc, values)?,
        })
    }

    /// The values, in order.
    pub fn as_slice(&self) -> &[Value]
        ensures { result.now ≡ self.now }
    {
        self.items.as_slice()
    }

    /// The number of values.
    pub fn len(&self) -> usize
        ensures { result ≡ length self.now }
    {
        self.items.len()
    }

    /// The value at a place from 0, or `None` past the end.
    pub fn get(&self, at: usize) -> Option<&Value>
        ensures value { option_copied result ≡ slice_get self.now at }
        ensures within { OnSome result (at < length self.now) }
    {
        self.items.as_slice().get(at)
    }

    /// Adds a value at the end. After an error the list is as before.
    pub fn push(&mut self, value: Value) -> Result<(), Memory>
        ensures ok { OnOk result (self.new ≡ self.old ++ value ∷ []) }
        ensures err { OnErr result (self.new ≡ self.old) }
    {
        self.items.push(value)?;
        Ok(())
    }
}

/// A type with its values, as a row has it.
#[derive(Debug, Drop)]
pub struct Part {
    /// The type.
    pub ty: TypeId,
    /// One value for each field of the type, in the fields' order.
    pub values: Values,
}

/// A list of parts. Contracts see a list.
pub type Parts = Sequence<Part>;
