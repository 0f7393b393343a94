// The working of a pro rata division: how each claimant came to its part, so that a reader can follow it with a pencil.
// Plans stand beside groups and shares, in memory of the caller's, so each function asks for their lengths.
ghost use Rattle.std.specs.Prelude.{◌≡◌, ℕ, ◌≤◌, map, length, ℤ, sum, unsigned_abs};
ghost use Rattle.std.specs.List.{AllByRecursion};
ghost use Rattle.tables.specs.Listed.{listed};
ghost use Rattle.division.specs.Rules.{pro_rata};
ghost use Rattle.division.specs.Signed.{signed_parts};
ghost use Rattle.sharing.specs.Owners.{count_of, figures_of};
ghost use Rattle.planning.specs.Plans.{group_claims, share_claims, plans_of_groups, plans_of_shares, groups_of, plants_of};
ghost use Rattle.planning.specs.Workings.{working_of, workings, names_of, Explains};

use crate::holdings::Holdings;
use division::MOST_CLAIMS;
use division::pro_rata::rounded_down;
use division::signed::with_sign;
use sharing::levels::{Levels, gather_heads};
use sharing::rows::gather;
use tables::Table;
use tables::bounds::{Carries, Owned};
use tables::totals::{Whose, total};
use terms::records::{Group, Share};

// How one claimant came to its part: what it claimed, its part rounded down, whether it got one of the kWh left over, and its part with the sign of the whole.
#[derive(Clone, Copy)]
pub struct Working {
    pub number: u32,
    pub claim: u64,
    pub floor: u64,
    pub extra: bool,
    pub part: i64,
}

// What a line shows as corrected counts, by its magnitude, in a total over lines.
impl Owned for Working {
    ghost owned = { λ w. w.number };

    fn owner(&self) -> u32 {
        self.number
    }
}

impl Carries for Working {
    ghost carried = { λ w. unsigned_abs w.part };

    fn kwh(&self) -> u64 {
        self.part.unsigned_abs()
    }
}

// A pro rata division worked out: a line for each claimant in listed order, and what the parts come to.
#[derive(Drop)]
pub struct Worked {
    pub lines: Table<Working, MOST_CLAIMS>,
    pub together: i64,
}

// A row that shows in a working, by the number that it is known by.
trait Claimant: Owned {
    ghost known: { Self → ℕ };

    fn known_by(&self) -> u32
        ensures { result ≡ known self.now };
}

// A group is known by its own number.
impl Claimant for Group {
    ghost known = { λ g. g.number };

    fn known_by(&self) -> u32 {
        self.number
    }
}

// A share is known by its plant's.
impl Claimant for Share {
    ghost known = { λ s. s.plant };

    fn known_by(&self) -> u32 {
        self.plant
    }
}

// The working of one part, where so many claims come to this total.
fn work_out_part(
    whole: i64,
    total: u64,
    count: usize,
    number: u32,
    claim: u64,
    part: i64,
) -> Working
    requires some { 1 ≤ count }
    requires small { unsigned_abs whole ≤ 128000000 }
    requires light { claim ≤ 6144000000 }
    ensures { result ≡ working_of whole total count number claim part }
{
    let floor = rounded_down(whole.unsigned_abs(), total, count, claim);
    let extra = floor < part.unsigned_abs();
    Working {
        number,
        claim,
        floor,
        extra,
        part,
    }
}

// The working of each of the owner's rows, in listed order, from their claims and their figures: the loop of `work_out`, which takes what that takes.
fn list_lines<T: Claimant>(
    rows: &[T],
    owner: u32,
    whole: i64,
    claims: &[u64],
    figures: &[i64],
) -> Table<Working, MOST_CLAIMS>
    requires few { length rows.now ≤ 256 }
    requires room { length figures.now ≡ length rows.now }
    requires each { length claims.now ≡ count_of T.Owned.owned owner rows.now }
    requires light { sum claims.now ≤ 6144000000 }
    requires small { unsigned_abs whole ≤ 128000000 }
    ensures { listed result ≡ workings T.Owned.owned T.Claimant.known owner (working_of whole (sum claims.now) (length claims.now))
        rows.now claims.now figures.now }
{
    let all = total(claims, Whose::Everyone);
    let mut lines: Table<Working, MOST_CLAIMS> = Table::new(Working {
        number: 0,
        claim: 0,
        floor: 0,
        extra: false,
        part: 0,
    });
    let mut left = claims.iter();
    for (row, figure) in rows.iter().zip(figures) {
        if row.owner() == owner {
            // there is one, as is proved; with an `unwrap` in place of the test the program copies the table once more
            if let Some(claim) = left.next() {
                lines.push(work_out_part(
                    whole,
                    all,
                    claims.len(),
                    row.known_by(),
                    *claim,
                    *figure,
                ));
            }
        }
    }
    lines
}

// Works out a whole that was divided pro rata among the owner's rows.
fn work_out<T: Claimant>(
    rows: &[T],
    owner: u32,
    whole: i64,
    claims: &[u64],
    figures: &[i64],
) -> Worked
    requires few { length rows.now ≤ 256 }
    requires room { length figures.now ≡ length rows.now }
    requires each { length claims.now ≡ count_of T.Owned.owned owner rows.now }
    requires light { sum claims.now ≤ 6144000000 }
    requires small { unsigned_abs whole ≤ 128000000 }
    requires divided { figures_of T.Owned.owned owner rows.now figures.now ≡ signed_parts whole (pro_rata (unsigned_abs whole) claims.now) }
    ensures named { map (λ (w : Working). w.number) (listed result.lines) ≡ names_of T.Owned.owned T.Claimant.known owner rows.now }
    ensures explained { Explains whole claims.now (listed result.lines) result.together }
{
    let lines = list_lines(rows, owner, whole, claims, figures);
    let together = with_sign(whole, total(lines.as_slice(), Whose::Everyone));
    Worked { lines, together }
}

// Works out how a contract's deemed plan was divided among its groups. Callers are proved to hand over plans that were divided so.
pub fn work_out_groups(
    holdings: &Holdings,
    contract: u32,
    deemed: i64,
    group_plans: &[i64],
) -> Worked
    requires room { length group_plans.now ≡ length holdings.now.groups.now }
    requires small { unsigned_abs deemed ≤ 128000000 }
    requires divided { plans_of_groups contract holdings.now.groups.now group_plans.now ≡ signed_parts deemed (pro_rata (unsigned_abs deemed) (group_claims contract holdings.now.groups.now holdings.now.shares.now)) }
    ensures named { map (λ (w : Working). w.number) (listed result.lines) ≡ groups_of contract holdings.now.groups.now }
    ensures explained { Explains deemed (group_claims contract holdings.now.groups.now holdings.now.shares.now) (listed result.lines) result.together }
{
    let groups = holdings.groups;
    let levels = Levels {
        heads: groups,
        members: holdings.shares,
    };
    let claims = gather_heads(&levels, contract);
    work_out(groups, contract, deemed, claims.as_slice(), group_plans)
}

// Works out how a group's plan was divided among its shares. Callers are proved to hand over plans that were divided so.
pub fn work_out_shares(shares: &[Share], group: u32, plan: i64, share_plans: &[i64]) -> Worked
    requires few { length shares.now ≤ 256 }
    requires planned { AllByRecursion (λ s. s.planned ≤ 2000000) shares.now }
    requires room { length share_plans.now ≡ length shares.now }
    requires small { unsigned_abs plan ≤ 128000000 }
    requires divided { plans_of_shares group shares.now share_plans.now ≡ signed_parts plan (pro_rata (unsigned_abs plan) (share_claims group shares.now)) }
    ensures named { map (λ (w : Working). w.number) (listed result.lines) ≡ plants_of group shares.now }
    ensures explained { Explains plan (share_claims group shares.now) (listed result.lines) result.together }
{
    let claims = gather(shares, group);
    work_out(shares, group, plan, claims.as_slice(), share_plans)
}
