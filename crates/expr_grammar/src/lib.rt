//! The grammar of the expression language, its laws, and a machine with a stack that reads it. The names of a text may
//! have any meaning.
#![tactic(auto)]

mod fault;
mod laws;
mod symbol;
mod words;

pub use fault::{ExprCause, ExprFault};
pub use laws::{
    goes_on_with_the_grammar, machine_reads_commands, machine_reads_the_grammar, one_derivation,
    stops_at_the_first_fault, texts_are_answered_by_the_grammar,
};
pub use symbol::{Action, Built, Symbol};
pub use words::{Call, Change, FieldUse, Turn, TypeUse, Verb};
