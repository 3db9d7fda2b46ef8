//! The places of the texts of some cases.
ghost use Rattle.std.specs.Prelude.{◌≡◌, [], IfOk};
ghost use Rattle.ent_types.specs.Registries.{built_in_types};

use crate::fault::LineFault;
use crate::types::{name_of, read_type};
use ent_types::{Memory, Registry, TypeSet};
use expr_read::{Made, Scope, TextPlace};
use std::alloc::Global;

/// What a scope is made of.
#[derive(Drop)]
pub struct Setting {
    registry: Registry,
    place: TextPlace,
    bound: TypeSet,
    made: Vec<Made>,
}

impl Setting {
    /// The setting with the built-in types alone.
    pub fn new(alloc: Global, place: TextPlace) -> Result<Setting, Memory>
        ensures registry { IfOk result (λ s. s.registry ≡ built_in_types) }
        ensures place { IfOk result (λ s. s.place ≡ place) }
        ensures bound { IfOk result (λ s. s.bound ≡ []) }
        ensures made { IfOk result (λ s. s.made.items ≡ []) }
    {
        Ok(Setting {
            registry: Registry::new(alloc)?,
            place,
            bound: TypeSet::empty(),
            made: Vec::new(alloc),
        })
    }

    /// The scope of the texts here.
    pub fn scope(&self) -> Scope<'_>
        ensures registry { result.registry.now ≡ self.now.registry }
        ensures place { result.place ≡ self.now.place }
        ensures bound { result.bound.now ≡ self.now.bound }
        ensures made { result.made.now ≡ self.now.made.items }
    {
        Scope {
            registry: &self.registry,
            place: self.place,
            bound: &self.bound,
            made: self.made.as_slice(),
        }
    }

    /// The scope of a text at another place.
    pub fn scope_at(&self, place: TextPlace) -> Scope<'_>
        ensures registry { result.registry.now ≡ self.now.registry }
        ensures place { result.place ≡ place }
        ensures bound { result.bound.now ≡ self.now.bound }
        ensures made { result.made.now ≡ self.now.made.items }
    {
        Scope {
            registry: &self.registry,
            place,
            bound: &self.bound,
            made: self.made.as_slice(),
        }
    }

    /// Takes a line of the table that isn't a case: a line that begins a scope, or one that adds to it. Empty lines and
    /// comments are skipped.
    pub fn take(&mut self, alloc: Global, line: &str) -> Result<(), LineFault> {
        let (word, rest) = line.split_once(' ').unwrap_or((line, ""));
        match word {
            "" | "#" => Ok(()),
            "scope" => self.begin(alloc, rest),
            "type" => self.add_type(alloc, rest),
            "bound" => self.bind_all(rest),
            "made" => self.make(rest),
            _ => Err(LineFault::UnknownLine),
        }
    }

    /// Begins anew: the scope's name, for the reader of the table, and its place.
    fn begin(&mut self, alloc: Global, rest: &str) -> Result<(), LineFault> {
        let (_, place) = rest.split_once(' ').ok_or(LineFault::Parts)?;
        *self = Setting::new(alloc, place_named(place)?)?;
        Ok(())
    }

    /// Adds a type.
    fn add_type(&mut self, alloc: Global, rest: &str) -> Result<(), LineFault> {
        let info = read_type(alloc, rest)?;
        if !info.is_lawful() {
            return Err(LineFault::Type);
        }
        self.registry.add(info)?;
        Ok(())
    }

    /// Binds types: their names, with spaces between.
    fn bind_all(&mut self, rest: &str) -> Result<(), LineFault> {
        for word in rest.split(' ') {
            self.bind(word)?;
        }
        Ok(())
    }

    /// Binds the type with this name.
    fn bind(&mut self, word: &str) -> Result<(), LineFault> {
        let ty = self.registry.find(&name_of(word)?).ok_or(LineFault::Name)?;
        // A registry has at most 256 types.
        let _ = self.registry.len();
        self.bound = self.bound.with(ty);
        Ok(())
    }

    /// Adds a made name: the name, its command's number, and `same` or `other` for the buffer.
    fn make(&mut self, rest: &str) -> Result<(), LineFault> {
        let (word, rest) = rest.split_once(' ').ok_or(LineFault::Parts)?;
        let (number, buffer) = rest.split_once(' ').ok_or(LineFault::Parts)?;
        let made = Made {
            name: name_of(word)?,
            number: number.parse().map_err(|_| LineFault::Number)?,
            same_buffer: is_same(buffer)?,
        };
        self.made.push(made)?;
        Ok(())
    }
}

/// The place with this name.
pub fn place_named(name: &str) -> Result<TextPlace, LineFault> {
    match name {
        "Spawn" => Ok(TextPlace::Spawn),
        "Event" => Ok(TextPlace::Event),
        "System" => Ok(TextPlace::System),
        _ => Err(LineFault::UnknownWord),
    }
}

/// `true` if a made name goes into the buffer of the text.
fn is_same(buffer: &str) -> Result<bool, LineFault> {
    match buffer {
        "same" => Ok(true),
        "other" => Ok(false),
        _ => Err(LineFault::UnknownWord),
    }
}
