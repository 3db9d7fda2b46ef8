//! The reader's answer to a text, as the table writes it.
ghost use Rattle.std.specs.Prelude.{◌≡◌, MatchResult};

use expr_read::ExprFault;
use std::fmt;

/// The answer of a reader to a text: the text is in the language, or has a first fault.
#[derive(Clone, Copy)]
pub enum Answer {
    /// The text is in the language.
    Tree,
    /// The text's first fault.
    Fault(ExprFault),
}

impl fmt::Display for Answer {
    fn fmt<W: fmt::Write>(&self, f: &mut fmt::Formatter<W>) -> fmt::Result {
        match self {
            Answer::Tree => write!(f, "ok"),
            Answer::Fault(fault) => {
                let ExprFault { cause, at } = *fault;
                write!(f, "{cause:?}\t{at}")
            }
        }
    }
}

/// Returns the answer without the tree.
pub fn told<T: Drop>(read: Result<T, ExprFault>) -> Answer
    ensures { MatchResult read (λ _. result ≡ Answer.Tree) (λ fault. result ≡ Answer.Fault fault) }
{
    match read {
        Ok(_) => Answer::Tree,
        Err(fault) => Answer::Fault(fault),
    }
}
