// The lines of a book with their corrected figures.
ghost use Rattle.std.specs.Prelude.{◌≡◌, ℕ, ◌≤◌, length};
ghost use Rattle.std.specs.List.{AllByRecursion};
ghost use Rattle.std.proofs.Props.{props};
ghost use Rattle.terms.specs.declared.codes.Direction.TheVariants.{Sale, Purchase};
ghost use Rattle.trades.specs.Trades.{traded, lines_of};

use crate::balances::balance_of;
use terms::balance::Balance;
use terms::records::Line;

// The lines of a book, and the corrected figure of each at its line's place. The limits of a book are kept:
// a figure for each line, of at most 2,000,000 kWh, and at most 64 lines a contract.
#[derive(Clone, Copy)]
pub struct CorrectedLines<'a> {
    pub lines: &'a [Line],
    pub figures: &'a [u32],
    pub ghost room: { length figures.now ≡ length lines.now },
    pub ghost small: { AllByRecursion (λ f. f ≤ 2000000) figures.now } by { Prim.hlevel props },
    pub ghost allowed: { (contract : ℕ) → lines_of contract lines.now ≤ 64 },
}

impl CorrectedLines<'_> {
    // The contract's corrected sales and purchases, and what they leave to its own generation.
    // The function of this name asks for the lines of one contract alone, so it stays beside this.
    pub fn balance_of(&self, contract: u32) -> Balance
        ensures sold { result.sold ≡ traded Sale contract self.now.lines.now self.now.figures.now }
        ensures bought { result.bought ≡ traded Purchase contract self.now.lines.now self.now.figures.now }
        ensures within { (result.sold ≤ 128000000) × (result.bought ≤ 128000000) }
    {
        balance_of(self.lines, self.figures, contract)
    }
}
