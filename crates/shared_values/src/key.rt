//! The key by which an id is found: a type and its values.
ghost use Rattle.std.specs.Prelude.{◌≡◌, OnOk};
ghost use Rattle.std.specs.Cmp.{partial_equiv_from_equiv};
ghost use Rattle.shared_values.specs.Keys.{same_key, key_writes};
ghost use Rattle.shared_values.specs.KeyLaws.{same_key_equiv, key_writes_alike};

use ent_types::{Memory, TypeId, Values};
use std::alloc::Global;
use std::hash::{Hash, Hasher};

/// A type with its values.
#[derive(Drop)]
pub(crate) struct Key {
    pub(crate) ty: TypeId,
    pub(crate) values: Values,
}

impl PartialEq for Key {
    ghost eq = { same_key };

    ghost laws = { partial_equiv_from_equiv same_key_equiv };

    fn eq(&self, other: &Key) -> bool {
        self.ty == other.ty && self.values.as_slice() == other.values.as_slice()
    }
}

impl Eq for Key {
    ghost laws = { same_key_equiv };
}

impl Hash for Key {
    ghost hash_input = { key_writes };

    ghost respects_eq = { key_writes_alike.fed };

    fn hash<H: Hasher>(&self, state: &mut H) {
        self.ty.hash(state);
        self.values.as_slice().hash(state);
    }
}

impl Key {
    /// Returns the key of a copy of these values.
    pub(crate) fn of(alloc: Global, ty: TypeId, values: &Values) -> Result<Key, Memory>
        ensures { OnOk result (result ≡ Ok (record { ty = ty; values = values.now })) }
    {
        let values = Values::from_slice(alloc, values.as_slice())?;
        Ok(Key { ty, values })
    }
}
