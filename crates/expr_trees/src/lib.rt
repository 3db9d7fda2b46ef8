//! The trees that the texts of the little language mean.
#![tactic(auto)]

mod tree;

pub use tree::{
    Assign, BinaryOp, CommandText, Expr, PartExpr, RefExpr, Switch, UnaryOp, ValueExpr, Variable,
};
