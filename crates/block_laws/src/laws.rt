//! What is lent and given back is row by row what was written.
ghost use Rattle.std.specs.Prelude.{◌≡◌};
ghost use Rattle.chunk_block.specs.Blocks.{AreHeld, IsLoanOf};
ghost use Rattle.block_laws.specs.Lending.{AreApart, given_back};

use chunk_block::{Block, Loan};
use ent_types::TypeSet;

/// Lends some types and gives them back unchanged, which leaves the block as it was.
pub fn restores(block: &mut Block, number: u32, types: &TypeSet)
    requires { AreHeld types.now block.old.columns }
    ensures { block.new ≡ block.old }
{
    // Its contract says that the block has each type once, and each row a cell for each type.
    let _ = block.types();
    let loan = block.lend(number, types);
    block.give_back(loan);
}

/// Gives two loans back that have no type in common. The block is as if the second had come back first.
pub fn either_order(block: &mut Block, first: Loan, second: Loan)
    requires first { IsLoanOf block.old first }
    requires second { IsLoanOf block.old second }
    requires apart { AreApart first.pieces second.pieces }
    ensures in_order { block.new ≡ given_back (given_back block.old first) second }
    ensures turned { block.new ≡ given_back (given_back block.old second) first }
{
    block.give_back(first);
    block.give_back(second);
}
