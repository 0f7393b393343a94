// Divisions by both rules, of wholes from zero up and of signed wholes.
ghost use Rattle.std.specs.Prelude.{ℕ, ◌≤◌, List, Result};
ghost use Rattle.terms.specs.declared.refusal.Refusal.{Refusal};
ghost use Rattle.division.specs.Limits.{Divided};
ghost use Rattle.division.specs.Signed.{DividedSigned};

use crate::draws::{Draws, DrawsRows, draw_rows};
use crate::rule::Rule;
use crate::text::Spaced;
use division::DivisionRule;
use division::signed::divide_signed;
use std::{fmt, io};
use tables::Table;
use terms::refusal::Refusal;

// A case has at most so many claims, and a buffer of at most one place more.
const MOST_CLAIMS: usize = 12;

const MOST_ROOM: usize = 13;

// Two claims of 2^63 wrap round to 0.
const HUGE: u64 = 9_223_372_036_854_775_808;

// How the claims of a case are drawn: all to the first claimant, each up to a figure, or each 0 or huge.
#[derive(Clone, Copy)]
enum Claims {
    First(u64),
    UpTo(u32),
    Huge,
}

impl Claims {
    fn draw(draws: &mut Draws) -> Claims {
        match draws.below(16) {
            0..=1 => Claims::First(0),
            2 => Claims::First(6_144_000_000),
            3 => Claims::First(6_144_000_001),
            4 => Claims::Huge,
            5..=7 => Claims::UpTo(5),
            8..=10 => Claims::UpTo(100),
            11..=13 => Claims::UpTo(2_000_000),
            _ => Claims::UpTo(1_000_000_000),
        }
    }
}

impl DrawsRows<u64> for Claims {
    ghost fine = { λ _ _. Unit {0} };

    fn row(&self, place: usize, draws: &mut Draws) -> u64 {
        match self {
            Claims::First(claim) => { if place == 0 { *claim } else { 0 } }
            Claims::UpTo(most) => draws.figure(u64::from(*most)),
            Claims::Huge => draws.below(2) * HUGE,
        }
    }
}

// What a case divides by: a rule, so many claims, how they are drawn, and a buffer of so many places.
#[derive(Clone, Copy)]
struct Division {
    count: usize,
    rule: Rule,
    claims: Claims,
    room: usize,
    ghost few: { count ≤ 12 },
    ghost near: { room ≤ 13 },
}

// The places of the buffer: as many as there are claims, or one more or fewer.
fn draw_room(draws: &mut Draws, count: usize) -> usize
    requires { count ≤ 12 }
    ensures { result ≤ 13 }
{
    match draws.below(20) {
        0 => count + 1,
        1 => count.saturating_sub(1),
        _ => count,
    }
}

impl Division {
    fn draw(draws: &mut Draws) -> Division {
        let count = draws.below(13) as usize;
        let rule = Rule::draw(draws);
        let claims = Claims::draw(draws);
        let room = draw_room(draws, count);
        Division {
            count,
            rule,
            claims,
            room,
        }
    }
}

// A whole from 0 up to just over the limit, by a number below 16: docs/FIGURES.md tells the kinds by these numbers, and an enum would only name them to match on them here.
fn draw_magnitude(draws: &mut Draws, kind: u64) -> u64
    ensures { result ≤ 128000001 }
{
    match kind {
        0 => 128_000_000,
        1 => 128_000_001,
        2..=7 => draws.figure(20),
        8..=11 => draws.figure(1_000),
        _ => draws.figure(128_000_000),
    }
}

// What a case divides: its parts are numbers like it.
pub trait Whole: Copy + fmt::Display {
    // what a division of the whole by a rule leaves of a buffer
    ghost divided: { Self → (ℕ → List ℕ → List ℕ) → List ℕ → List Self → List Self → Result (Unit {0}) Refusal → Type 0 };

    fn draw(draws: &mut Draws) -> Self;

    fn divide_by<R: DivisionRule>(
        self,
        rule: &R,
        claims: &[u64],
        into: &mut [Self],
    ) -> Result<(), Refusal>
        ensures { divided self (R.DivisionRule.parts rule.now) claims.now into.old into.new result };
}

// A whole from 0 up; one in 16 is the largest number that can be written.
impl Whole for u64 {
    ghost divided = { λ whole rule. Divided rule whole };

    fn draw(draws: &mut Draws) -> u64 {
        match draws.below(16) {
            2 => u64::MAX,
            kind => draw_magnitude(draws, kind),
        }
    }

    fn divide_by<R: DivisionRule>(
        self,
        rule: &R,
        claims: &[u64],
        into: &mut [u64],
    ) -> Result<(), Refusal> {
        rule.divide(self, claims, into)
    }
}

// A signed whole, three in four with a minus; one in 16 is the lowest number that can be written.
impl Whole for i64 {
    ghost divided = { λ whole rule. DividedSigned rule whole };

    fn draw(draws: &mut Draws) -> i64 {
        match draws.below(16) {
            2 => i64::MIN,
            kind => {
                let magnitude = draw_magnitude(draws, kind) as i64;
                if draws.below(4) == 0 {
                    magnitude
                } else {
                    -magnitude
                }
            }
        }
    }

    fn divide_by<R: DivisionRule>(
        self,
        rule: &R,
        claims: &[u64],
        into: &mut [i64],
    ) -> Result<(), Refusal> {
        divide_signed(rule, self, claims, into)
    }
}

// What is divided, and among whom.
fn show_division<W: fmt::Display>(
    rt: HostRuntime,
    case: u64,
    division: &Division,
    whole: &W,
    claims: &[u64],
) -> io::Result<()> {
    print!(rt;
        "{case} divide: {}, whole {whole}, claims{}, room {}",
        division.rule,
        Spaced(claims),
        division.room
    )
}

// One division into as many places of the space as the case has room: the parts, or the refusal's number with the buffer as it was left.
fn show_case<W: Whole>(rt: HostRuntime, case: u64, space: &mut [W; MOST_ROOM]) -> io::Result<()> {
    let mut draws = Draws::of_case(case);
    let division = Division::draw(&mut draws);
    let whole = W::draw(&mut draws);
    let claims: Table<u64, MOST_CLAIMS> = draw_rows(
        &division.claims,
        division.count,
        0,
        &mut draws,
    );
    let buffer = &mut space[..division.room];
    let outcome = whole.divide_by(&division.rule, claims.as_slice(), buffer);
    show_division(rt, case, &division, &whole, claims.as_slice())?;
    match outcome {
        Ok(()) => print!(rt; ": parts")?,
        Err(refusal) => print!(rt; ": refused {}, buffer", refusal.number())?,
    }
    println!(rt; "{}", Spaced(buffer))
}

// One division of a whole from 0 up.
pub fn unsigned_case(rt: HostRuntime, case: u64) -> io::Result<()> {
    show_case(rt, case, &mut [9_u64; MOST_ROOM])
}

// One division of a signed whole.
pub fn signed_case(rt: HostRuntime, case: u64) -> io::Result<()> {
    show_case(rt, case, &mut [9_i64; MOST_ROOM])
}
