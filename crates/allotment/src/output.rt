// The output of a plant: its reading divided among its shares, and so for all plants. It is written beside the shares, which stay as they were filed.
ghost use Rattle.std.specs.Prelude.{◌≡◌, ◌≤◌, length, sum};
ghost use Rattle.metering.specs.Readings.{kwh_of};
ghost use Rattle.tables.specs.Figures.{figured_if};
ghost use Rattle.allotment.specs.Output.{part_of, part_at, is_at, outputs};

use crate::claims::{Claim, MOST_TURNS, OfRank, PlannedShares, amounts_of};
use division::DivisionRule;
use metering::source::MeterSource;
use tables::figures::figure_of;
use terms::records::{Plant, Share};

// The claims at a plant in turn, with a part of the plant's output beside each.
#[derive(Clone, Copy)]
struct Parts<'a> {
    turns: &'a [Claim],
    parts: &'a [u64],
    ghost each: { length parts.now ≡ length turns.now },
}

impl Parts<'_> {
    // The part of the claim of this rank; 0 where no claim has the rank.
    fn of_rank(&self, rank: u32) -> u64
        ensures { result ≡ part_of rank self.now.turns.now self.now.parts.now }
    {
        figure_of(self.turns, OfRank { rank }, self.parts)
    }

    // Gives each share at the plant the part of its rank. Every other share keeps its figure.
    fn hand_out(&self, plant: u32, shares: &[Share], allotted: &mut [u64])
        requires { length allotted.old ≡ length shares.now }
        ensures { allotted.new ≡ figured_if (is_at plant) (λ s. part_of s.rank self.now.turns.now self.now.parts.now) shares.now allotted.old }
    {
        // by `enumerate`: after `zip` over an `iter_mut` a proof knows nothing of the values
        for (i, share) in shares.iter().enumerate() {
            if share.plant == plant {
                allotted[i] = self.of_rank(share.rank);
            }
        }
    }
}

// Divides a reading among claims; where there is no claim, nothing is divided.
// The limits rule out that the division is refused.
fn divide_among<R: DivisionRule>(rule: &R, reading: u32, claims: &[u64], into: &mut [u64])
    requires few { length claims.now ≤ 256 }
    requires light { sum claims.now ≤ 6144000000 }
    requires small { reading ≤ 2000000 }
    requires room { length into.old ≡ length claims.now }
    ensures { into.new ≡ R.DivisionRule.parts rule.now reading claims.now }
{
    if !claims.is_empty() {
        rule.divide(u64::from(reading), claims, into).unwrap();
    }
}

// Divides a plant's reading among its shares by the rule, each claiming its corrected plan in the turn of its rank. Shares of other plants keep their figures.
// Callers are proved to stay inside the limits of a book, so that the division is not refused.
pub fn allot_plant<R: DivisionRule>(
    rule: &R,
    plant: u32,
    reading: u32,
    planned: &PlannedShares,
    allotted: &mut [u64],
)
    requires small { reading ≤ 2000000 }
    requires figures { length allotted.old ≡ length planned.now.shares.now }
    ensures { allotted.new ≡ figured_if (is_at plant) (part_at (R.DivisionRule.parts rule.now) plant reading planned.now.shares.now planned.now.plans.now) planned.now.shares.now allotted.old }
{
    let turns = planned.turns_at(plant);
    let claims = amounts_of(turns.as_slice());
    // the engine has no heap: a part for each claim, in an array of as many places as a plant has turns
    let mut space = [0; MOST_TURNS];
    let parts = &mut space[..claims.len()];
    divide_among(rule, reading, claims.as_slice(), parts);
    let parts = Parts {
        turns: turns.as_slice(),
        parts,
    };
    parts.hand_out(plant, planned.shares, allotted);
}

// What the meter reads; a meter without a reading counts as 0.
fn kwh_of<S: MeterSource>(source: &S, meter: u32) -> u32
    ensures value { result ≡ kwh_of (S.MeterSource.read source.now meter) }
    ensures small { result ≤ 2000000 }
{
    source.reading(meter).unwrap_or(0)
}

// Allots the output of every plant, by its meter's reading: each share at one of the plants gets its part, every other share keeps its figure.
// Callers are proved to stay inside the limits of a book, and have seen to it that every plant's meter has a reading.
pub fn allot_output<R: DivisionRule, S: MeterSource>(
    rule: &R,
    source: &S,
    plants: &[Plant],
    planned: &PlannedShares,
    allotted: &mut [u64],
)
    requires { length allotted.old ≡ length planned.now.shares.now }
    ensures { allotted.new ≡ outputs (R.DivisionRule.parts rule.now) (λ meter. kwh_of (S.MeterSource.read source.now meter)) plants.now planned.now.shares.now planned.now.plans.now allotted.old }
{
    for plant in plants {
        let reading = kwh_of(source, plant.meter);
        allot_plant(rule, plant.meter, reading, planned, allotted);
    }
}
