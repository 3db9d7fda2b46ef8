//! Worked examples of loans that were written.
ghost use Rattle.std.specs.Prelude.{◌≡◌, [], ◌∷◌, pos, true, false};
ghost use Rattle.block_laws.specs.Lending.{after_lending, given_back};
ghost use Rattle.block_laws.specs.Worked.{block, block_of, row, loan_of, with_21, with_disabled};

/// A number is written into the second row of a loan. It is in that row when the loan is back, and nothing else changed.
pub fn one_number()
    ensures { given_back (after_lending (3 ∷ []) block) (with_21 (loan_of (3 ∷ []) block))
        ≡ block_of (row 8 (pos 10) false false ∷ row 9 (pos 21) false false ∷ []) }
{}

/// Two loans are out at once. One type is disabled in the first row and the other in the second. The loan that was lent
/// first comes back last.
pub fn two_bits()
    ensures { given_back
        (given_back (after_lending (5 ∷ []) (after_lending (3 ∷ []) block)) (with_disabled 5 1 (loan_of (5 ∷ []) (after_lending (3 ∷ []) block))))
        (with_disabled 3 0 (loan_of (3 ∷ []) block))
        ≡ block_of (row 8 (pos 10) true false ∷ row 9 (pos 20) false true ∷ []) }
{}
