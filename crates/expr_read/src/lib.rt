//! The expression language of scenarios: what its names mean, the readers of its texts, and the printer of trees.
#![tactic(auto)]

mod places;
mod print;
mod readers;
mod scope;

pub use expr_grammar::{
    Call, Change, ExprCause, ExprFault, FieldUse, Turn, TypeUse, Verb, goes_on_with_the_grammar,
    machine_reads_commands, machine_reads_the_grammar, one_derivation, stops_at_the_first_fault,
    texts_are_answered_by_the_grammar,
};
pub use expr_trees::{
    Assign, BinaryOp, CommandText, Expr, PartExpr, RefExpr, Switch, UnaryOp, ValueExpr, Variable,
};
pub use print::print_expr;
pub use readers::{read_assign, read_command, read_expr, read_ref, read_switch};
pub use scope::{Made, Scope, TextPlace};
