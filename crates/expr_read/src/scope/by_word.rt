//! Variables, calls and references by their words.
ghost use Rattle.std.specs.Prelude.{◌≡◌, ◌&&◌, find};
ghost use Rattle.std.specs.Option.{option_copied};
ghost use Rattle.ent_types.specs.Types.{same_name};
ghost use Rattle.expr_read.specs.ScopeOf.{system_variable, plain_call, system_call, made_reference, own_reference};

use super::Made;
use crate::{BinaryOp, Call, RefExpr, Variable};

/// `true` if a name is this word.
pub(super) fn is(name: &[u8], word: &[u8]) -> bool
    ensures { result ≡ same_name name.now word.now }
{
    name == word
}

/// Returns the variable of this name in a system.
pub(super) fn system_variable(name: &[u8]) -> Option<Variable>
    ensures { result ≡ system_variable name.now }
{
    if is(name, b"frame") {
        Some(Variable::Frame)
    } else if is(name, b"chunk") {
        Some(Variable::Chunk)
    } else if is(name, b"row") {
        Some(Variable::Row)
    } else if is(name, b"index") {
        Some(Variable::Index)
    } else if is(name, b"version") {
        Some(Variable::Version)
    } else {
        None
    }
}

/// Returns the call of this name that reads nothing of the world.
pub(super) fn plain_call(name: &[u8]) -> Option<Call>
    ensures { result ≡ plain_call name.now }
{
    if is(name, b"min") {
        Some(Call::Two(BinaryOp::Min))
    } else if is(name, b"max") {
        Some(Call::Two(BinaryOp::Max))
    } else if is(name, b"pick") {
        Some(Call::Pick)
    } else {
        None
    }
}

/// Returns the call of this name in a system.
pub(super) fn system_call(name: &[u8]) -> Option<Call>
    ensures { result ≡ system_call name.now }
{
    if is(name, b"get") {
        Some(Call::Get)
    } else if is(name, b"alive") {
        Some(Call::Alive)
    } else if is(name, b"has") {
        Some(Call::Has)
    } else if is(name, b"same") {
        Some(Call::Same)
    } else if is(name, b"on") {
        Some(Call::On)
    } else {
        plain_call(name)
    }
}

/// Returns the earlier command of the same buffer that makes the name.
fn made_named<'a>(made: &'a [Made], name: &[u8]) -> Option<&'a Made>
    ensures { option_copied result ≡ find (λ m. m.same_buffer && same_name name.now m.name) made.now }
{
    made.iter()
        .find(|m| m.same_buffer && is(name, m.name.as_bytes()))
}

/// Returns the entity that an earlier command of the same buffer makes under this name.
fn made_reference(made: &[Made], name: &[u8]) -> Option<RefExpr>
    ensures { result ≡ made_reference made.now name.now }
{
    let found = made_named(made, name)?;
    Some(RefExpr::Made(found.number))
}

/// Returns the reference that a name alone is in a system.
pub(super) fn own_reference(made: &[Made], fits: bool, name: &[u8]) -> Option<RefExpr>
    ensures { result ≡ own_reference made.now fits name.now }
{
    if is(name, b"self") {
        Some(RefExpr::Me)
    } else if fits {
        made_reference(made, name)
    } else {
        None
    }
}
