//! Lists of type names, and the tables whose keys are type names.
ghost use Rattle.std.specs.Prelude.{◌≡◌, ◌<◌, length, IfOk};
ghost use Rattle.toml.specs.View.{view};
ghost use Rattle.scenario_record.specs.Readings.{Answers, AnswersAs};
ghost use Rattle.scenario_tables.specs.ReadTypeLists.{is_allowed, known_type, type_of_key, one_more_type, none_beside, type_list};

use crate::form::{Form, Step, each_over};
use crate::keys::{NameForm, list_up_to, name_in};
use ent_types::limits::MOST_TYPES;
use ent_types::{Name, Registry, TypeId, TypeSet};
use scenario_record::{Cause, ScenarioFault, bad};
use std::alloc::Global;
use toml::Value;

/// Which types are allowed at a place.
#[derive(Clone, Copy)]
pub(crate) enum Allowed {
    /// Each type.
    AnyType,
    /// Each type but `SceneTag`, which only the load of a scene gives.
    Spawned,
    /// Enableable types.
    Enableable,
    /// Those of a set that aren't shared.
    UnsharedOf(TypeSet),
    /// The shared ones of a set.
    SharedOf(TypeSet),
    /// The enableable ones of a set.
    EnableableOf(TypeSet),
}

impl Allowed {
    /// `true` if a type is allowed here.
    fn allows(&self, registry: &Registry, ty: TypeId) -> bool
        requires { ty.0 < MOST_TYPES }
        ensures { result ≡ is_allowed registry.now self.now ty.0 }
    {
        match self {
            Allowed::AnyType => true,
            Allowed::Spawned => ty.0 != TypeId::SCENE_TAG.0,
            Allowed::Enableable => registry.is_enableable(ty),
            Allowed::UnsharedOf(types) => types.has(ty) && !registry.is_shared(ty),
            Allowed::SharedOf(types) => types.has(ty) && registry.is_shared(ty),
            Allowed::EnableableOf(types) => types.has(ty) && registry.is_enableable(ty),
        }
    }
}

/// The types that a list names, and those that may not be named again.
#[derive(Clone, Copy)]
pub(crate) struct Named {
    /// The types that were taken before, and those found.
    pub(crate) taken: TypeSet,
    /// The types found.
    pub(crate) found: TypeSet,
}

impl Named {
    /// Returns the start of a list: nothing is found yet.
    pub(crate) fn none_beside(taken: &TypeSet) -> Named
        ensures { result ≡ none_beside taken.now }
    {
        Named {
            taken: *taken,
            found: TypeSet::empty(),
        }
    }
}

/// Returns the type of a name, which has to be allowed here.
fn known_type(
    alloc: Global,
    registry: &Registry,
    allowed: &Allowed,
    name: &Name,
) -> Result<TypeId, ScenarioFault>
    ensures answer { AnswersAs (λ ty. ty.0) (known_type registry.now allowed.now name.now) result }
    ensures within { IfOk result (λ ty. (ty.0 < length registry.now) × (ty.0 < MOST_TYPES)) }
{
    match registry.find(name) {
        Some(ty) => {
            if !allowed.allows(registry, ty) {
                return Err(bad(alloc, Cause::BadKind));
            }
            Ok(ty)
        }
        None => Err(bad(alloc, Cause::UnknownName)),
    }
}

/// Reads the type that a key names.
pub(crate) fn type_of_key(
    alloc: Global,
    registry: &Registry,
    allowed: &Allowed,
    key: &str,
) -> Result<TypeId, ScenarioFault>
    ensures answer { AnswersAs (λ ty. ty.0) (type_of_key registry.now allowed.now key.now) result }
    ensures within { IfOk result (λ ty. (ty.0 < length registry.now) × (ty.0 < MOST_TYPES)) }
{
    let name = name_in(alloc, key)?;
    known_type(alloc, registry, allowed, &name)
}

/// The types that the values of a list name, each once.
#[derive(Clone, Copy)]
pub(crate) struct TypeStep<'a> {
    /// The types.
    pub(crate) registry: &'a Registry,
    /// Which types are allowed.
    pub(crate) allowed: &'a Allowed,
}

impl<'a> Step for TypeStep<'a> {
    type State = Named;

    ghost steps = { λ it named d. one_more_type it.registry.now it.allowed.now named d };

    fn step(
        &self,
        alloc: Global,
        _place: usize,
        named: &mut Named,
        value: &Value,
    ) -> Result<(), ScenarioFault> {
        let name = NameForm.read(alloc, value)?;
        let ty = known_type(alloc, self.registry, self.allowed, &name)?;
        if named.taken.has(ty) {
            return Err(bad(alloc, Cause::DuplicateName));
        }
        named.taken = named.taken.with(ty);
        named.found = named.found.with(ty);
        Ok(())
    }
}

/// A list of at most `most` types.
#[derive(Clone, Copy)]
pub(crate) struct TypesForm<'a> {
    /// The greatest number of types.
    pub(crate) most: usize,
    /// The types.
    pub(crate) registry: &'a Registry,
    /// Which types are allowed.
    pub(crate) allowed: &'a Allowed,
    /// Those that may not be named again.
    pub(crate) taken: &'a TypeSet,
}

impl<'a> Form for TypesForm<'a> {
    type Out = Named;

    ghost reads = { λ it d. type_list it.most it.registry.now it.allowed.now it.taken.now d };

    fn read(&self, alloc: Global, value: &Value) -> Result<Named, ScenarioFault> {
        let values = list_up_to(alloc, self.most, value)?;
        let step = TypeStep {
            registry: self.registry,
            allowed: self.allowed,
        };
        each_over(alloc, &step, Named::none_beside(self.taken), values)
    }
}
