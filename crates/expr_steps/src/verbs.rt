//! How the places of a command accept names and signs.
ghost use Rattle.std.specs.Prelude.{◌≡◌, ◌<◌, [], ◌∷◌, codes};
ghost use Rattle.ent_types.specs.declared.limits.TheConstants.{MOST_TYPES};
ghost use Rattle.ent_types.specs.Types.{same_name};
ghost use Rattle.expr_tokens.specs.declared.sign.Sign.TheVariants as signs;
ghost use Rattle.expr_grammar.specs.declared.symbol.Symbol.TheVariants as wait;
ghost use Rattle.expr_grammar.specs.Machine.{when, map_some, verb_of, may_begin, begins_verb, kind_at, part_places, joined_part, takes_value, takes_no_more, take_word, take_sign};
ghost use Rattle.expr_steps.specs.Expecting.{left};

use crate::accept::type_by;
use crate::expected::{Expected, part_use, turn_use};
use crate::moves::Move;
use crate::names::Names;
use ent_types::{TypeId, TypeSet};
use expr_grammar::{Change, Turn, TypeUse, Verb};

/// `true` if a name is this word.
fn is(name: &[u8], word: &[u8]) -> bool
    ensures { result ≡ same_name name.now word.now }
{
    name == word
}

/// Returns the word that begins a command.
fn verb_of(name: &[u8]) -> Option<Verb>
    ensures { result ≡ verb_of name.now }
{
    if is(name, b"create") {
        Some(Verb::Create)
    } else if is(name, b"destroy") {
        Some(Verb::Destroy)
    } else if is(name, b"add") {
        Some(Verb::Change(Change::Add))
    } else if is(name, b"set") {
        Some(Verb::Change(Change::Set))
    } else if is(name, b"set_shared") {
        Some(Verb::Change(Change::SetShared))
    } else if is(name, b"remove") {
        Some(Verb::Turn(Turn::Remove))
    } else if is(name, b"enable") {
        Some(Verb::Turn(Turn::Enable))
    } else if is(name, b"disable") {
        Some(Verb::Turn(Turn::Disable))
    } else if is(name, b"instantiate") {
        Some(Verb::Instantiate)
    } else {
        None
    }
}

/// `true` if the command has a type to name, or names none.
fn may_begin<N: Names>(names: &N, verb: Verb) -> bool
    ensures { result ≡ may_begin (N.scope names.now) verb }
{
    match verb {
        Verb::Create => true,
        Verb::Destroy => true,
        Verb::Change(change) => names.has_type(part_use(change), TypeSet::empty()),
        Verb::Turn(turn) => names.has_type(turn_use(turn), TypeSet::empty()),
        Verb::Instantiate => true,
    }
}

/// Accepts the word that begins a command.
pub(crate) fn verb<N: Names>(names: &N, name: &[u8]) -> Option<Move>
    ensures { map_some left result ≡ begins_verb (N.scope names.now) (verb_of name.now) }
{
    match verb_of(name) {
        None => None,
        Some(verb) => {
            if !may_begin(names, verb) {
                return None;
            }
            Some(Move::Behind(verb))
        }
    }
}

/// Accepts a name to be made.
pub(crate) fn new_name<N: Names>(names: &N, name: &[u8]) -> Option<Move>
    ensures { map_some left result ≡ take_word (N.scope names.now) wait.New name.now }
{
    match names.new_name(name) {
        None => None,
        Some(made) => Some(Move::New(made)),
    }
}

/// Accepts `from`.
pub(crate) fn from(name: &[u8]) -> Option<Move>
    ensures { map_some left result ≡ when (same_name name.now (codes "from")) [] }
{
    if !is(name, b"from") {
        return None;
    }
    Some(Move::Nothing)
}

/// Accepts `with`, if some type may be added.
pub(crate) fn with<N: Names>(names: &N, name: &[u8]) -> Option<Move>
    ensures { map_some left result ≡ take_word (N.scope names.now) wait.With name.now }
{
    if !is(name, b"with") {
        return None;
    }
    let none = TypeSet::empty();
    if !names.has_type(TypeUse::Added, none) {
        return None;
    }
    Some(Move::One(Expected::Parts(none)))
}

/// Returns what follows the type of a part.
fn part_places<N: Names>(names: &N, ty: TypeId) -> Move
    ensures { left result ≡ part_places (N.scope names.now) ty }
{
    match names.kind_at(ty, 0) {
        None => Move::Part {
            ty,
            has_fields: false,
        },
        Some(_) => Move::Part {
            ty,
            has_fields: true,
        },
    }
}

/// Accepts the name of a part's type.
pub(crate) fn part<N: Names>(names: &N, role: TypeUse, name: &[u8]) -> Option<Move>
    ensures { map_some left result ≡ take_word (N.scope names.now) (wait.Part role) name.now }
{
    match type_by(names, role, name) {
        None => None,
        Some(ty) => Some(part_places(names, ty)),
    }
}

/// Returns what follows the type of a part of `create`.
fn joined_part<N: Names>(names: &N, used: TypeSet, ty: TypeId) -> Move
    requires { ty.0 < MOST_TYPES }
    ensures { left result ≡ joined_part (N.scope names.now) used ty }
{
    let used = used.with(ty);
    match names.kind_at(ty, 0) {
        None => Move::Joined {
            ty,
            has_fields: false,
            used,
        },
        Some(_) => Move::Joined {
            ty,
            has_fields: true,
            used,
        },
    }
}

/// Accepts the name of a type of a part of `create`.
pub(crate) fn one_more_part<N: Names>(names: &N, used: TypeSet, name: &[u8]) -> Option<Move>
    ensures { map_some left result ≡ take_word (N.scope names.now) (wait.Parts used) name.now }
{
    match names.type_left(used, name) {
        None => None,
        Some(ty) => Some(joined_part(names, used, ty)),
    }
}

/// Accepts a comma after a part of `create`.
pub(crate) fn comma_of_parts<N: Names>(names: &N, used: TypeSet) -> Option<Move>
    ensures { map_some left result ≡ take_sign (N.scope names.now) (wait.MoreParts used) signs.Comma }
{
    if !names.has_type(TypeUse::Added, used) {
        return None;
    }
    Some(Move::One(Expected::Parts(used)))
}

/// Accepts the sign before the value of the field at a place, if there is such a field.
pub(crate) fn value_at<N: Names>(names: &N, ty: TypeId, at: u8) -> Option<Move>
    ensures { map_some left result ≡ takes_value ty at (kind_at ((N.scope names.now).refs ty) at) }
{
    match names.kind_at(ty, at) {
        None => None,
        Some(is_ref) => {
            Some(Move::Value {
                ty,
                is_ref,
                next: at + 1,
            })
        }
    }
}

/// Accepts the end of the values of a part, if no field is left.
pub(crate) fn end_of_values<N: Names>(names: &N, ty: TypeId, at: u8) -> Option<Move>
    ensures { map_some left result ≡ takes_no_more (kind_at ((N.scope names.now).refs ty) at) }
{
    match names.kind_at(ty, at) {
        None => Some(Move::Nothing),
        Some(_) => None,
    }
}
