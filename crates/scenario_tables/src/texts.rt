//! The texts of a scenario, each with the scope that its place gives it.
ghost use Rattle.std.specs.Prelude.{ℕ, ◌≡◌, [], List, Some, Result};
ghost use Rattle.expr_grammar.specs.declared.fault.ExprFault.{ExprFault};
ghost use Rattle.expr_grammar.specs.Answers.{Tells, expr_answer, ref_answer, assign_answer, switch_answer, command_answer};
ghost use Rattle.expr_grammar.specs.Scopes.{Scope as Names};
ghost use Rattle.expr_read.specs.declared.scope.TextPlace.TheVariants.{System};
ghost use Rattle.expr_read.specs.ScopeOf.{scope_of};
ghost use Rattle.scenario_record.specs.declared.fault.ScenarioFault.TheVariants.{Bad};
ghost use Rattle.scenario_record.specs.Readings.{Answers};
ghost use Rattle.scenario_tables.specs.ReadTexts.{IsTextFault, text_reading, system_text, event_command};

use crate::form::Form;
use crate::keys::text;
use ent_types::{Registry, Sequence, TypeSet};
use expr_read::{
    ExprCause, ExprFault, Made, Scope, TextPlace, read_assign, read_command, read_expr, read_ref,
    read_switch,
};
use expr_trees::{Assign, CommandText, Expr, RefExpr, Switch};
use scenario_record::{BadScenario, Cause, ScenarioFault};
use std::alloc::Global;
use toml::Value;

// ---- faults

/// Returns a fault of a text, at its invalid token.
fn at_token(alloc: Global, cause: Cause, at: u32) -> ScenarioFault
    ensures { result ≡ Bad (record { cause = cause; key = []; at = Some at }) }
{
    ScenarioFault::Bad(BadScenario {
        cause,
        key: Sequence::new(alloc),
        at: Some(at),
    })
}

/// Returns the fault of a text as one of the scenario.
fn text_fault(alloc: Global, fault: ExprFault) -> ScenarioFault
    ensures { IsTextFault fault.cause fault.at result }
{
    match fault.cause {
        ExprCause::TooLong => at_token(alloc, Cause::TooLong, fault.at),
        ExprCause::BadChar => at_token(alloc, Cause::BadChar, fault.at),
        ExprCause::NumberRange => at_token(alloc, Cause::NumberRange, fault.at),
        ExprCause::TooDeep => at_token(alloc, Cause::TooDeep, fault.at),
        ExprCause::UnknownName => at_token(alloc, Cause::UnknownName, fault.at),
        ExprCause::Unexpected => at_token(alloc, Cause::Unexpected, fault.at),
        ExprCause::Memory => ScenarioFault::Memory,
    }
}

/// Returns the tree of a text, or its fault as one of the scenario.
fn text_reading<T>(alloc: Global, found: Result<T, ExprFault>) -> Result<T, ScenarioFault>
    ensures { (meant : Result T ExprFault) → Tells meant found → Answers (text_reading meant) result }
{
    match found {
        Ok(tree) => Ok(tree),
        Err(fault) => Err(text_fault(alloc, fault)),
    }
}

// ---- kinds of texts

/// A kind of text.
pub(crate) trait Text {
    /// The type of its tree.
    type Tree: Drop;

    // The tree of a text in a scope, or its fault.
    ghost answer: { Names → List ℕ → Result Self.Tree ExprFault };

    /// Reads a text, or returns its fault.
    fn read_in(&self, alloc: Global, scope: &Scope, text: &str) -> Result<Self::Tree, ExprFault>
        ensures { Tells (answer (scope_of scope.now.registry.now scope.now.place scope.now.bound.now scope.now.made.now) text.now) result };
}

/// An expression.
#[derive(Clone, Copy)]
pub(crate) struct ExprText;

/// A reference.
#[derive(Clone, Copy)]
pub(crate) struct RefText;

/// An assignment of a system.
#[derive(Clone, Copy)]
pub(crate) struct AssignText;

/// A switch of a system.
#[derive(Clone, Copy)]
pub(crate) struct SwitchText;

/// A command of a system or an event.
#[derive(Clone, Copy)]
pub(crate) struct ActText;

impl Text for ExprText {
    type Tree = Expr;

    ghost answer = { λ names text. expr_answer names text };

    fn read_in(&self, alloc: Global, scope: &Scope, text: &str) -> Result<Expr, ExprFault> {
        read_expr(alloc, text, scope)
    }
}

impl Text for RefText {
    type Tree = RefExpr;

    ghost answer = { λ names text. ref_answer names text };

    fn read_in(&self, alloc: Global, scope: &Scope, text: &str) -> Result<RefExpr, ExprFault> {
        read_ref(alloc, text, scope)
    }
}

impl Text for AssignText {
    type Tree = Assign;

    ghost answer = { λ names text. assign_answer names text };

    fn read_in(&self, alloc: Global, scope: &Scope, text: &str) -> Result<Assign, ExprFault> {
        read_assign(alloc, text, scope)
    }
}

impl Text for SwitchText {
    type Tree = Switch;

    ghost answer = { λ names text. switch_answer names text };

    fn read_in(&self, alloc: Global, scope: &Scope, text: &str) -> Result<Switch, ExprFault> {
        read_switch(alloc, text, scope)
    }
}

impl Text for ActText {
    type Tree = CommandText;

    ghost answer = { λ names text. command_answer names text };

    fn read_in(&self, alloc: Global, scope: &Scope, text: &str) -> Result<CommandText, ExprFault> {
        read_command(alloc, text, scope)
    }
}

// ---- texts in their scopes

/// A text of a system.
#[derive(Drop)]
pub(crate) struct SystemText<'a, T> {
    /// The kind of text.
    pub(crate) kind: T,
    /// The types.
    pub(crate) registry: &'a Registry,
    /// The types that each row has.
    pub(crate) bound: &'a TypeSet,
    /// The names that earlier commands make.
    pub(crate) made: &'a [Made],
}

impl<'a, T: Text> Form for SystemText<'a, T> {
    type Out = T::Tree;

    ghost reads = { λ it d. system_text T.answer it.registry.now it.bound.now it.made.now d };

    fn read(&self, alloc: Global, value: &Value) -> Result<T::Tree, ScenarioFault> {
        let text = text(alloc, value)?;
        let scope = Scope {
            registry: self.registry,
            place: TextPlace::System,
            bound: self.bound,
            made: self.made,
        };
        text_reading(alloc, self.kind.read_in(alloc, &scope, text))
    }
}

/// Reads a text that sees no row: one of a spawn or of an event.
pub(crate) fn rowless_text<T: Text>(
    alloc: Global,
    kind: &T,
    registry: &Registry,
    place: TextPlace,
    text: &str,
) -> Result<T::Tree, ScenarioFault>
    ensures { Answers (text_reading (T.answer (scope_of registry.now place [] []) text.now)) result }
{
    let none = TypeSet::empty();
    let scope = Scope {
        registry,
        place,
        bound: &none,
        made: &[],
    };
    text_reading(alloc, kind.read_in(alloc, &scope, text))
}

/// A command of an event.
#[derive(Clone, Copy)]
pub(crate) struct OperationForm<'a> {
    /// The types.
    pub(crate) registry: &'a Registry,
}

impl<'a> Form for OperationForm<'a> {
    type Out = CommandText;

    ghost reads = { λ it d. event_command it.registry.now d };

    fn read(&self, alloc: Global, value: &Value) -> Result<CommandText, ScenarioFault> {
        let text = text(alloc, value)?;
        rowless_text(alloc, &ActText, self.registry, TextPlace::Event, text)
    }
}
