// Division rules: how a whole number of kWh is divided among claims.
#![tactic(auto)]

ghost use Rattle.std.specs.Prelude.{◌≡◌, ℕ, ◌≤◌, true, false, List, length, Ok, Err, sum};
ghost use Rattle.terms.specs.declared.refusal.Refusal.TheVariants.{NotDivisible};
ghost use Rattle.division.specs.Limits.{divisible, Divided};

use tables::totals::{Whose, total_within};
use terms::refusal::Refusal;

pub mod pro_rata;
pub mod ranking;
pub mod signed;

// What any division rule takes at most: so many claims, so many kWh to divide, and claims that come to so many kWh.
pub const MOST_CLAIMS: usize = 256;

pub const MOST_WHOLE: u64 = 128_000_000;

pub const MOST_CLAIMED: u64 = 6_144_000_000;

// A rule that turns a whole and a list of claims into as many parts.
pub trait DivisionRule {
    // the rule's meaning: the parts for each whole and claims
    ghost parts: { Self → ℕ → List ℕ → List ℕ };

    // Writes the parts, or refuses what is outside the limits and leaves the buffer as it was.
    fn divide(&self, whole: u64, claims: &[u64], into: &mut [u64]) -> Result<(), Refusal>
        ensures { Divided (parts self.now) whole claims.now into.old into.new result };

    // each claim has a part, and parts are naturals, so that none is negative
    ghost each: { (s : Self) (whole : ℕ) (claims : List ℕ) → length (parts s whole claims) ≡ length claims };

    // for one claim or more the parts add up to the whole
    ghost all: { (s : Self) (whole : ℕ) (claims : List ℕ) → 1 ≤ length claims → sum (parts s whole claims) ≡ whole };
}

// A whole, the claims among which it is divided, and what they come to: a division inside the limits.
// The buffer for its parts is the caller's, so each method asks for its length.
#[derive(Clone, Copy)]
struct Admitted<'a> {
    whole: u64,
    claims: &'a [u64],
    total: u64,
    ghost some: { 1 ≤ length claims.now },
    ghost few: { length claims.now ≤ 256 },
    ghost small: { whole ≤ 128000000 },
    ghost light: { sum claims.now ≤ 6144000000 },
    ghost added: { total ≡ sum claims.now },
}

impl<'a> Admitted<'a> {
    // Judges a division that has room for so many parts.
    fn judge(whole: u64, claims: &'a [u64], room: usize) -> Result<Admitted<'a>, Refusal>
        ensures { elim result [
          | Ok admitted ↦ (divisible whole claims.now room ≡ true) × (admitted.whole ≡ whole) × (admitted.claims.now ≡ claims.now)
          | Err e ↦ (divisible whole claims.now room ≡ false) × (e ≡ NotDivisible)
        ] }
    {
        if claims.is_empty()
            || claims.len() > MOST_CLAIMS
            || whole > MOST_WHOLE
            || room != claims.len()
        {
            return Err(Refusal::NotDivisible);
        }
        let total = total_within(claims, Whose::Everyone, MOST_CLAIMED).ok_or(
            Refusal::NotDivisible,
        )?;
        Ok(Admitted {
            whole,
            claims,
            total,
        })
    }
}
