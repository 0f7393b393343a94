// What the shares at a plant claim of its output, in the order of their turns.
// What is gathered is pushed by loops, which the check proves with no or one short answer, where `Table::collect` over a chain needs a longer one;
// turns go through the ranks, since a turn is defined by its rank.
ghost use Rattle.std.specs.Prelude.{◌≡◌, ◌≤◌, map, length, sum, ◌==◌, unsigned_abs};
ghost use Rattle.tables.specs.Listed.{listed};
ghost use Rattle.allotment.specs.Claims.{claimed, claim_of, claims_at, in_turn};
ghost use Rattle.allotment.specs.Output.{amounts, turns_at};

use tables::Table;
use tables::keys::{Keyed, find_row};
use terms::records::Share;

// Ranks run from 1 to this, so that a plant has at most so many claims in turn.
pub const MOST_RANK: u32 = 99;

pub(crate) const MOST_TURNS: usize = MOST_RANK as usize;

const MOST_SHARES: usize = 256;

// What a share claims at its plant, in the turn of its rank.
#[derive(Clone, Copy)]
pub struct Claim {
    pub rank: u32,
    pub kwh: u64,
}

// The key of a claim: its rank.
#[derive(Clone, Copy)]
pub struct OfRank {
    pub rank: u32,
}

impl Keyed<OfRank> for Claim {
    ghost fits = { λ key c. (c.rank == key.rank) };

    fn is(&self, key: OfRank) -> bool {
        self.rank == key.rank
    }
}

// What a share claims: its corrected plan, or 0 if that is below zero.
fn claim_of(share: &Share, plan: i64) -> Claim
    ensures { result ≡ claim_of share.now plan }
{
    Claim {
        rank: share.rank,
        kwh: u64::try_from(plan).unwrap_or(0),
    }
}

// The shares of a book with a corrected plan beside each: no more of them than a book has, and their plans together in magnitude no more than a division takes.
#[derive(Clone, Copy)]
pub struct PlannedShares<'a> {
    pub shares: &'a [Share],
    pub plans: &'a [i64],
    pub ghost few: { length shares.now ≤ 256 },
    pub ghost room: { length plans.now ≡ length shares.now },
    pub ghost light: { sum (map unsigned_abs plans.now) ≤ 6144000000 },
}

impl PlannedShares<'_> {
    // The claims of the plant's shares, in listed order.
    fn claims_at(&self, plant: u32) -> Table<Claim, MOST_SHARES>
        ensures { listed result ≡ claims_at plant self.now.shares.now self.now.plans.now }
    {
        let mut claims: Table<Claim, MOST_SHARES> = Table::new(Claim { rank: 0, kwh: 0 });
        for (share, plan) in self.shares.iter().zip(self.plans) {
            if share.plant == plant {
                claims.push(claim_of(share, *plan));
            }
        }
        claims
    }

    // The claims at the plant, in the order of their turns.
    pub(crate) fn turns_at(&self, plant: u32) -> Table<Claim, MOST_TURNS>
        ensures { listed result ≡ turns_at plant self.now.shares.now self.now.plans.now }
    {
        in_turn(self.claims_at(plant).as_slice())
    }
}

// The claims in the order of their turns: for ranks 1 to 99, the claim of that rank, if there is one.
#[tactic(auto, unfolding(crate::specs::Claims::turns_from))]
fn in_turn(claims: &[Claim]) -> Table<Claim, MOST_TURNS>
    ensures { listed result ≡ in_turn claims.now }
{
    let mut turns: Table<Claim, MOST_TURNS> = Table::new(Claim { rank: 0, kwh: 0 });
    for rank in 1..=MOST_RANK {
        if let Some(claim) = find_row(claims, OfRank { rank }) {
            turns.push(claim);
        }
    }
    turns
}

// What the claims take, in their order.
pub(crate) fn amounts_of(turns: &[Claim]) -> Table<u64, MOST_TURNS>
    requires { length turns.now ≤ 99 }
    ensures { listed result ≡ amounts turns.now }
{
    let mut amounts: Table<u64, MOST_TURNS> = Table::new(0);
    for claim in turns {
        amounts.push(claim.kwh);
    }
    amounts
}
