// Corrected trades among three contracts, the exchange and outside parties.
ghost use Rattle.std.specs.Prelude.{◌≡◌, ◌<◌, ◌≤◌, false, map, length, ◌≢◌};
ghost use Rattle.std.specs.List.{AllByRecursion};
ghost use Rattle.tables.specs.Listed.{listed};
ghost use Rattle.trades.specs.Trades.{faces, corrected};
ghost use Rattle.std.proofs.Props.{props};
ghost use Rattle.figures.specs.Rows.{line_fine, homed};

use crate::draws::{Draws, DrawsRows, draw_rows};
use std::{fmt, io};
use tables::Table;
use terms::codes::Direction;
use terms::partner::Partner;
use terms::records::Line;
use trades::corrected::CorrectedLines;
use trades::lines::correct_lines;

// A case has at most so many lines.
pub const MOST_LINES: usize = 12;

// A line that stands where none was drawn.
pub const BLANK: Line = Line {
    contract: 11,
    direction: Direction::Sale,
    partner: Partner::Exchange,
    planned: 0,
    agreed: 0,
};

// So many keys can be drawn.
const KEYS: u64 = 30;

// What figures of a case go up to.
pub fn draw_most(draws: &mut Draws) -> u32
    ensures { result ≤ 2000000 }
{
    match draws.below(8) {
        0 => 0,
        1..=2 => 5,
        3..=4 => 1_000,
        _ => 2_000_000,
    }
}

// How many lines a case has, which keys they have and what their figures go up to.
#[derive(Clone, Copy)]
pub struct LinePattern {
    pub count: usize,
    start: u64,
    stride: u64,
    most: u32,
    ghost few: { count ≤ 12 },
    ghost first: { start < 30 },
    ghost step: { stride < 30 },
    ghost small: { most ≤ 2000000 },
}

impl LinePattern {
    pub fn draw(draws: &mut Draws) -> LinePattern {
        let count = draws.below(16).min(12) as usize;
        let start = draws.below(KEYS);
        let stride = draw_stride(draws);
        let most = draw_most(draws);
        LinePattern {
            count,
            start,
            stride,
            most,
        }
    }
}

// Keys that are so far apart do not meet in fewer than 30 steps.
fn draw_stride(draws: &mut Draws) -> u64
    ensures { result < 30 }
{
    match draws.below(8) {
        0..=2 => 1,
        3 => 7,
        4 => 11,
        5 => 17,
        6 => 23,
        _ => 29,
    }
}

// Who trades which way with whom.
#[derive(Clone, Copy)]
struct Key {
    contract: u32,
    direction: Direction,
    partner: Partner,
    ghost other: { faces partner contract ≡ false },
}

// The contract behind 11, 12 or 13, the last before the first again. A type for the three would be turned back into the number for every line.
fn next_contract(contract: u32) -> u32
    requires { homed contract }
    ensures { (homed result) × (result ≢ contract) }
{
    11 + (contract - 10) % 3
}

// Keys between a contract and the next: two opposite pairs. The kinds are the numbers that docs/FIGURES.md tells them by; an enum would only name them to match on them here.
fn key_between(contract: u32, kind: u64) -> Key
    requires { homed contract }
{
    let next = next_contract(contract);
    let (contract, direction, partner) = match kind {
        0 => (contract, Direction::Sale, next),
        1 => (next, Direction::Purchase, contract),
        2 => (contract, Direction::Purchase, next),
        _ => (next, Direction::Sale, contract),
    };
    Key {
        contract,
        direction,
        partner: Partner::Contract(partner),
    }
}

// Keys with the exchange, an outside party and a contract without lines, by the numbers of docs/FIGURES.md too.
fn key_outward(contract: u32, kind: u64) -> Key
    requires { homed contract }
{
    let direction = if kind % 2 == 0 {
        Direction::Sale
    } else {
        Direction::Purchase
    };
    let partner = match kind / 2 {
        0 => Partner::Exchange,
        1 => Partner::Outside(12),
        _ => Partner::Contract(14),
    };
    Key {
        contract,
        direction,
        partner,
    }
}

// The key with a number below 30.
fn key_of(number: u64) -> Key
    requires { number < 30 }
{
    if number < 12 {
        key_between(11 + (number / 4) as u32, number % 4)
    } else {
        key_outward(11 + ((number - 12) / 6) as u32, number % 6)
    }
}

impl DrawsRows<Line> for LinePattern {
    ghost fine = { λ _ l. line_fine l };

    fn row(&self, place: usize, draws: &mut Draws) -> Line {
        let key = key_of((self.start + (place % 30) as u64 * self.stride) % KEYS);
        let planned = draws.small_figure(self.most);
        let agreed = draws.small_figure(self.most);
        Line {
            contract: key.contract,
            direction: key.direction,
            partner: key.partner,
            planned,
            agreed,
        }
    }
}

// The corrected figures of a case's lines, in their order.
fn correct(lines: &[Line]) -> Table<u32, MOST_LINES>
    requires { length lines.now ≤ 12 }
    ensures { listed result ≡ map (corrected lines.now) lines.now }
{
    let mut space = [0; MOST_LINES];
    let figures = &mut space[..lines.len()];
    correct_lines(lines, figures);
    let mut corrected: Table<u32, MOST_LINES> = Table::new(0);
    for figure in figures.iter() {
        corrected.push(*figure);
    }
    corrected
}

// The lines of a case, and their corrected figures.
#[derive(Drop)]
pub struct Trades {
    pub lines: Table<Line, MOST_LINES>,
    pub figures: Table<u32, MOST_LINES>,
    ghost few: { length (listed lines) ≤ 12 },
    ghost fine: { AllByRecursion line_fine (listed lines) } by { Prim.hlevel props },
    ghost corrected: { listed figures ≡ map (corrected (listed lines)) (listed lines) },
}

impl Trades {
    pub fn draw(draws: &mut Draws) -> Trades {
        let pattern = LinePattern::draw(draws);
        let lines = draw_rows(&pattern, pattern.count, BLANK, draws);
        let figures = correct(lines.as_slice());
        Trades { lines, figures }
    }

    // The lines with their figures, as the engine takes them.
    pub fn corrected(&self) -> CorrectedLines<'_>
        ensures lines { result.lines.now ≡ listed self.now.lines }
        ensures figures { result.figures.now ≡ listed self.now.figures }
    {
        CorrectedLines {
            lines: self.lines.as_slice(),
            figures: self.figures.as_slice(),
        }
    }

    // What each contract sold and bought.
    fn show_balances(&self, rt: HostRuntime) -> io::Result<()> {
        let corrected = self.corrected();
        for contract in 11..14 {
            let balance = corrected.balance_of(contract);
            print!(rt;
                "; contract {contract} sold {} bought {}",
                balance.sold(),
                balance.bought()
            )?;
        }
        Ok(())
    }
}

// A partner as a line names it.
#[derive(Clone, Copy)]
struct Named(Partner);

impl fmt::Display for Named {
    fn fmt<W: fmt::Write>(&self, f: &mut fmt::Formatter<W>) -> fmt::Result {
        match self.0 {
            Partner::Exchange => write!(f, "exchange"),
            Partner::Outside(number) => write!(f, "outside {number}"),
            Partner::Contract(number) => write!(f, "contract {number}"),
        }
    }
}

// Every line with its corrected figure.
impl fmt::Display for Trades {
    fn fmt<W: fmt::Write>(&self, f: &mut fmt::Formatter<W>) -> fmt::Result {
        for (line, figure) in self.lines.as_slice().iter().zip(self.figures.as_slice()) {
            let trade = match line.direction {
                Direction::Sale => "sells to",
                Direction::Purchase => "buys from",
            };
            write!(
                f,
                "; {} {trade} {}, planned {}, agreed {}: {figure}",
                line.contract,
                Named(line.partner),
                line.planned,
                line.agreed
            )?;
        }
        Ok(())
    }
}

// One list of trades.
pub fn case(rt: HostRuntime, case: u64) -> io::Result<()> {
    let trades = Trades::draw(&mut Draws::of_case(case));
    print!(rt; "{case} trades{trades}")?;
    trades.show_balances(rt)?;
    println!(rt; "")
}
