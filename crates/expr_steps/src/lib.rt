//! One step of the parser of the expression language, over any names.
//!
//! It is a predictive parser with two stacks and no recursion. The stack of what is *expected* says how the text may go
//! on. The stack of *operands* has the trees that were read. A token is *accepted* by the first expected thing that it
//! may begin, after others that may be left out. The parser then *expands* that thing, and *reduces* operands to
//! trees as expected things end. `expr_machine` does these steps over the tokens of a text.
#![tactic(auto)]

mod accept;
mod cause;
mod expand;
mod expected;
mod moves;
mod names;
mod operands;
mod reduce;
mod stack;
mod step;
mod verbs;

pub use cause::cause_at;
pub use expected::{Expected, Reduction, WHOLE, whole};
pub use names::Names;
pub use operands::{pop_command, pop_field, pop_int, pop_ref, pop_type, pop_value};
pub use stack::Stack;
pub use step::{end_first, may_finish, settle};
