// What a contract sold and bought, by the corrected figures of its lines.
ghost use Rattle.std.specs.Prelude.{◌≡◌, ◌≤◌, length};
ghost use Rattle.std.specs.List.{AllByRecursion};
ghost use Rattle.terms.specs.declared.codes.Direction.TheVariants.{Sale, Purchase};
ghost use Rattle.trades.specs.Trades.{trades_of, traded, lines_of};

use tables::Table;
use tables::figures::gather_fitting;
use tables::keys::Keyed;
use tables::totals::{Whose, total};
use terms::balance::Balance;
use terms::codes::Direction;
use terms::records::Line;

// How many lines a contract has at most.
pub const MOST_LINES: usize = 64;

// The key of a contract's lines of one direction. A type, since a generic gathering takes it.
#[derive(Clone, Copy)]
struct TradesOf {
    direction: Direction,
    contract: u32,
}

impl Keyed<TradesOf> for Line {
    ghost fits = { λ key l. trades_of key.direction key.contract l };

    fn is(&self, key: TradesOf) -> bool {
        (self.contract == key.contract) & (self.direction == key.direction)
    }
}

// What the contract's lines of one direction come to.
fn total_traded(lines: &[Line], figures: &[u32], direction: Direction, contract: u32) -> u32
    requires room { length figures.now ≡ length lines.now }
    requires allowed { lines_of contract lines.now ≤ 64 }
    requires small { AllByRecursion (λ f. f ≤ 2000000) figures.now }
    ensures value { result ≡ traded direction contract lines.now figures.now }
    ensures within { result ≤ 128000000 }
{
    let key = TradesOf {
        direction,
        contract,
    };
    let gathered: Table<u32, MOST_LINES> = gather_fitting(lines, key, figures, 0);
    total(gathered.as_slice(), Whose::Everyone) as u32
}

// The contract's corrected sales and purchases, and what they leave to its own generation.
// Callers are proved to have a figure of at most 2,000,000 for each line, and at most 64 lines of the contract.
pub fn balance_of(lines: &[Line], figures: &[u32], contract: u32) -> Balance
    requires room { length figures.now ≡ length lines.now }
    requires allowed { lines_of contract lines.now ≤ 64 }
    requires small { AllByRecursion (λ f. f ≤ 2000000) figures.now }
    ensures sold { result.sold ≡ traded Sale contract lines.now figures.now }
    ensures bought { result.bought ≡ traded Purchase contract lines.now figures.now }
    ensures within { (result.sold ≤ 128000000) × (result.bought ≤ 128000000) }
{
    let sold = total_traded(lines, figures, Direction::Sale, contract);
    let bought = total_traded(lines, figures, Direction::Purchase, contract);
    Balance::of(sold, bought)
}
