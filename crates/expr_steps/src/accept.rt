//! How an expected thing accepts a token.
ghost use Rattle.std.specs.Prelude.{◌≡◌, ◌^◌, [], ◌∷◌, nat_lt, pos};
ghost use Rattle.expr_tokens.specs.Tokens.{sign};
ghost use Rattle.expr_tokens.specs.Seen.{token_seen};
ghost use Rattle.expr_grammar.specs.declared.symbol.Symbol.TheVariants as wait;
ghost use Rattle.expr_grammar.specs.declared.symbol.Action.TheVariants as act;
ghost use Rattle.expr_grammar.specs.Fitting.{sign_of, operator_of};
ghost use Rattle.expr_grammar.specs.Machine.{when, map_some, field_type, type_by, begins_group, begins_signed, begins_sign, begins_named, begins_ref, take_operand, take_call, take_named, take_number, take_word, behind_field};
ghost use Rattle.expr_steps.specs.Expecting.{is_passed, left, left_of, symbol_of, take_rest, take_tails, takes};

use crate::expected::Expected;
use crate::moves::{Accepted, Move};
use crate::names::Names;
use crate::verbs::{
    comma_of_parts, end_of_values, from, new_name, one_more_part, part, value_at, verb, with,
};
use ent_types::{Entity, TypeId};
use expr_grammar::{Call, FieldUse, TypeUse};
use expr_tokens::{Sign, Token};
use expr_trees::{BinaryOp, RefExpr, UnaryOp, Variable};

/// Numbers of an expression are below this one.
const INT_END: u64 = 1 << 63;

/// Numbers of a reference are below this one.
const REF_END: u64 = 1 << 32;

/// The level whose operators don't follow one another.
const COMPARISONS: u8 = 2;

/// Returns the sign before an operand.
fn unary_of(sign: Sign) -> Option<UnaryOp>
    ensures { result ≡ sign_of sign }
{
    match sign {
        Sign::Minus => Some(UnaryOp::Minus),
        Sign::Not => Some(UnaryOp::Not),
        _ => None,
    }
}

/// Returns the operator of a sign, with its level.
fn operator_of(sign: Sign) -> Option<(BinaryOp, u8)>
    ensures { result ≡ operator_of sign }
{
    match sign {
        Sign::Times => Some((BinaryOp::Times, 0)),
        Sign::Divide => Some((BinaryOp::Divide, 0)),
        Sign::Rest => Some((BinaryOp::Rest, 0)),
        Sign::Plus => Some((BinaryOp::Plus, 1)),
        Sign::Minus => Some((BinaryOp::Minus, 1)),
        Sign::Equal => Some((BinaryOp::Equal, 2)),
        Sign::NotEqual => Some((BinaryOp::NotEqual, 2)),
        Sign::Less => Some((BinaryOp::Less, 2)),
        Sign::LessEqual => Some((BinaryOp::LessEqual, 2)),
        Sign::Greater => Some((BinaryOp::Greater, 2)),
        Sign::GreaterEqual => Some((BinaryOp::GreaterEqual, 2)),
        Sign::And => Some((BinaryOp::And, 3)),
        Sign::Or => Some((BinaryOp::Or, 4)),
        _ => None,
    }
}

/// Returns the type of this name, if some field of it fits the use.
pub(crate) fn field_type<N: Names>(names: &N, role: FieldUse, name: &[u8]) -> Option<TypeId>
    ensures { result ≡ field_type (N.scope names.now) role name.now }
{
    match names.find(name) {
        None => None,
        Some(ty) => {
            if names.has_field(role, ty) {
                Some(ty)
            } else {
                None
            }
        }
    }
}

/// Returns the type of this name, if it fits the use.
pub(crate) fn type_by<N: Names>(names: &N, role: TypeUse, name: &[u8]) -> Option<TypeId>
    ensures { result ≡ type_by (N.scope names.now) role name.now }
{
    match names.find(name) {
        None => None,
        Some(ty) => {
            if names.allows(role, ty) {
                Some(ty)
            } else {
                None
            }
        }
    }
}

// ---- operands of an expression

/// Accepts an opening parenthesis as an operand.
fn group(limit: u8, depth: u8) -> Option<Move>
    ensures { map_some left result ≡ begins_group limit depth }
{
    if depth >= limit {
        return None;
    }
    Some(Move::Group { depth: depth + 1 })
}

/// Accepts a sign before an operand.
fn signed(limit: u8, depth: u8, op: Option<UnaryOp>) -> Option<Move>
    ensures { map_some left result ≡ begins_signed limit depth op }
{
    match op {
        None => None,
        Some(op) => {
            if depth >= limit {
                return None;
            }
            Some(Move::Signed {
                op,
                depth: depth + 1,
            })
        }
    }
}

/// Accepts a sign that begins an operand.
fn sign_first(limit: u8, depth: u8, sign: Sign) -> Option<Move>
    ensures { map_some left result ≡ begins_sign limit depth sign }
{
    match sign {
        Sign::Open => group(limit, depth),
        _ => signed(limit, depth, unary_of(sign)),
    }
}

/// Accepts a name that begins an operand, by what it may be.
fn name_first(
    limit: u8,
    depth: u8,
    variable: Option<Variable>,
    ty: Option<TypeId>,
    call: Option<Call>,
) -> Option<Move>
    ensures { map_some left result ≡ begins_named limit depth variable ty call }
{
    let known = variable.is_some() || ty.is_some() || (call.is_some() && depth < limit);
    if !known {
        return None;
    }
    Some(Move::One(Expected::Named {
        variable,
        ty,
        call,
        depth,
    }))
}

/// Accepts a number of an expression.
fn number_first(n: u64) -> Option<Move>
    ensures { map_some left result ≡ when (nat_lt n (2 ^ 63)) (wait.Do (act.Number (pos n)) ∷ []) }
{
    if n >= INT_END {
        return None;
    }
    Some(Move::Number(n as i64))
}

/// Accepts a token that begins an operand.
fn operand<N: Names>(names: &N, limit: u8, depth: u8, token: Token<'_>) -> Option<Move>
    ensures { map_some left result ≡ take_operand (N.scope names.now) limit depth (token_seen token.entry) }
{
    match token {
        Token::Number(n) => number_first(n),
        Token::Sign(sign) => sign_first(limit, depth, sign),
        Token::Word(name) => name_first(
            limit,
            depth,
            names.variable(name),
            field_type(names, FieldUse::Number, name),
            names.call(name),
        ),
        Token::Bad => None,
    }
}

// ---- what follows

/// Accepts an operator of one of `count` levels from `level` on.
fn operator(level: u8, count: u8, depth: u8, sign: Sign) -> Option<Move>
    ensures { map_some left result ≡ take_tails count level depth (operator_of sign) }
{
    match operator_of(sign) {
        None => None,
        Some((op, at)) => {
            if at < level {
                return None;
            }
            let passed = at - level;
            if passed >= count {
                return None;
            }
            let left = count - passed;
            if at == COMPARISONS {
                return Some(Move::Operator {
                    op,
                    level: at,
                    from: at + 1,
                    count: left - 1,
                    depth,
                });
            }
            Some(Move::Operator {
                op,
                level: at,
                from: at,
                count: left,
                depth,
            })
        }
    }
}

/// Accepts the opening parenthesis of a call.
fn arguments(limit: u8, depth: u8, call: Option<Call>) -> Option<Move>
    ensures { map_some left result ≡ take_call limit depth call }
{
    match call {
        None => None,
        Some(call) => {
            if depth >= limit {
                return None;
            }
            Some(Move::Arguments {
                call,
                depth: depth + 1,
            })
        }
    }
}

/// Accepts a dot after a name, if the name is a type.
fn dot(ty: Option<TypeId>, role: FieldUse) -> Option<Move>
    ensures { map_some left result ≡ map_some (λ t. wait.Field t role ∷ []) ty }
{
    match ty {
        None => None,
        Some(ty) => Some(Move::One(Expected::Field { ty, role })),
    }
}

/// Accepts a sign after a name of an expression.
fn after_name(
    limit: u8,
    depth: u8,
    ty: Option<TypeId>,
    call: Option<Call>,
    sign: Sign,
) -> Option<Move>
    ensures { map_some left result ≡ take_named limit depth ty call sign }
{
    match sign {
        Sign::Dot => dot(ty, FieldUse::Number),
        Sign::Open => arguments(limit, depth, call),
        _ => None,
    }
}

/// Accepts a sign: after a name or an operand of an expression, where a sign is expected, or after the first part of a
/// reference or a part.
fn sign<N: Names>(names: &N, limit: u8, expected: &Expected, found: Sign) -> Option<Move>
    ensures { map_some left result ≡ take_rest (N.scope names.now) limit expected.now (sign found) }
{
    match expected {
        Expected::Operators {
            level,
            count,
            depth,
        } => operator(*level, *count, *depth, found),
        Expected::Named {
            ty,
            call,
            depth,
            ..
        } => after_name(limit, *depth, *ty, *call, found),
        Expected::Close => match found {
            Sign::Close => Some(Move::Nothing),
            _ => None,
        },
        Expected::Comma => match found {
            Sign::Comma => Some(Move::Nothing),
            _ => None,
        },
        Expected::Dot => match found {
            Sign::Dot => Some(Move::Nothing),
            _ => None,
        },
        Expected::Becomes => match found {
            Sign::Assign => Some(Move::Nothing),
            _ => None,
        },
        Expected::NamedRef { ty, .. } => match found {
            Sign::Dot => dot(*ty, FieldUse::Entity),
            _ => None,
        },
        Expected::Colon { index } => match found {
            Sign::Colon => Some(Move::One(Expected::Version { index: *index })),
            _ => None,
        },
        Expected::Values(ty) => match found {
            Sign::Open => value_at(names, *ty, 0),
            _ => None,
        },
        Expected::MoreValues { ty, at } => match found {
            Sign::Comma => value_at(names, *ty, *at),
            Sign::Close => end_of_values(names, *ty, *at),
            _ => None,
        },
        Expected::MoreParts(used) => match found {
            Sign::Comma => comma_of_parts(names, *used),
            _ => None,
        },
        _ => None,
    }
}

/// Accepts a number of a reference.
fn number(expected: &Expected, n: u64) -> Option<Move>
    ensures { map_some left result ≡ take_number (symbol_of expected.now) n }
{
    match expected {
        Expected::Ref { .. } => {
            if n >= REF_END {
                return None;
            }
            Some(Move::One(Expected::Colon { index: n as u32 }))
        }
        Expected::Version { index } => {
            if n >= REF_END {
                return None;
            }
            Some(Move::Ref(RefExpr::Entity(Entity {
                index: *index,
                version: n as u32,
            })))
        }
        _ => None,
    }
}

// ---- names

/// Returns what follows the name of a field.
fn behind_field<N: Names>(names: &N, role: FieldUse, ty: TypeId, field: u8) -> Move
    ensures { left result ≡ behind_field (N.scope names.now) role ty field }
{
    match role {
        FieldUse::Number => Move::Own { ty, field },
        FieldUse::Entity => Move::Ref(RefExpr::Own { ty, field }),
        FieldUse::Looked => Move::Field { ty, field },
        FieldUse::Assigned => Move::Assigned {
            ty,
            field,
            is_ref: names.is_ref(ty, field),
        },
    }
}

/// Accepts the name of a field of the type.
fn field<N: Names>(names: &N, ty: TypeId, role: FieldUse, name: &[u8]) -> Option<Move>
    ensures { map_some left result ≡ take_word (N.scope names.now) (wait.Field ty role) name.now }
{
    match names.field(role, ty, name) {
        None => None,
        Some(place) => Some(behind_field(names, role, ty, place)),
    }
}

/// Accepts the name of a type, which a dot and a field follow.
fn owner<N: Names>(names: &N, role: FieldUse, name: &[u8]) -> Option<Move>
    ensures { map_some left result ≡ take_word (N.scope names.now) (wait.TypeField role) name.now }
{
    match field_type(names, role, name) {
        None => None,
        Some(ty) => Some(Move::Owner { ty, role }),
    }
}

/// Accepts the name of a type.
fn alone<N: Names>(names: &N, role: TypeUse, name: &[u8]) -> Option<Move>
    ensures { map_some left result ≡ take_word (N.scope names.now) (wait.Type role) name.now }
{
    match type_by(names, role, name) {
        None => None,
        Some(ty) => Some(Move::Type(ty)),
    }
}

/// Accepts a name that begins a reference, by what it may be.
fn ref_first(plain: Option<RefExpr>, ty: Option<TypeId>) -> Option<Move>
    ensures { map_some left result ≡ begins_ref plain ty }
{
    if plain.is_none() && ty.is_none() {
        return None;
    }
    Some(Move::One(Expected::NamedRef { plain, ty }))
}

/// Accepts a name.
fn word<N: Names>(names: &N, expected: &Expected, name: &[u8]) -> Option<Move>
    ensures { map_some left result ≡ take_word (N.scope names.now) (symbol_of expected.now) name.now }
{
    match expected {
        Expected::Field { ty, role } => field(names, *ty, *role, name),
        Expected::TypeField(role) => owner(names, *role, name),
        Expected::Ref { made } => ref_first(
            names.reference(*made, name),
            field_type(names, FieldUse::Entity, name),
        ),
        Expected::Type(role) => alone(names, *role, name),
        Expected::Verb => verb(names, name),
        Expected::New => new_name(names, name),
        Expected::From => from(name),
        Expected::With => with(names, name),
        Expected::Part(role) => part(names, *role, name),
        Expected::Parts(used) => one_more_part(names, *used, name),
        _ => None,
    }
}

/// Accepts a token where no operand is expected.
fn rest<N: Names>(names: &N, limit: u8, expected: &Expected, token: Token<'_>) -> Option<Move>
    ensures { map_some left result ≡ take_rest (N.scope names.now) limit expected.now (token_seen token.entry) }
{
    match token {
        Token::Word(name) => word(names, expected, name),
        Token::Number(n) => number(expected, n),
        Token::Sign(found) => sign(names, limit, expected, found),
        Token::Bad => None,
    }
}

/// `true` if the expected thing ends before the token, as its kind alone shows. An operator passes several such things.
/// This test is much cheaper than `accept`, which builds what the token leaves.
pub(crate) fn is_passed(expected: &Expected, token: Token<'_>) -> bool
    ensures { result ≡ is_passed expected.now (token_seen token.entry) }
{
    match expected {
        Expected::Reduce(_) => true,
        Expected::Operators {
            level,
            count,
            depth,
        } => match token {
            Token::Sign(found) => operator(*level, *count, *depth, found).is_none(),
            Token::Word(_) => true,
            Token::Number(_) => true,
            Token::Bad => true,
        },
        _ => false,
    }
}

/// Accepts a token, if it may begin what is expected. Nothing changes yet.
pub(crate) fn accept<N: Names>(
    names: &N,
    limit: u8,
    expected: &Expected,
    token: Token<'_>,
) -> Option<Accepted>
    ensures { map_some left_of result ≡ takes (N.scope names.now) limit expected.now (token_seen token.entry) }
{
    match expected {
        Expected::Level { level, depth } => match operand(names, limit, *depth, token) {
            None => None,
            Some(left) => Some(Accepted::Operand {
                left,
                level: *level,
                depth: *depth,
            }),
        },
        _ => match rest(names, limit, expected, token) {
            None => None,
            Some(left) => Some(Accepted::Other(left)),
        },
    }
}
