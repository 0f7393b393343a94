// Two levels: an owner's whole among the owner's heads by one rule, and each head's part among its members by another.
ghost use Rattle.std.specs.Prelude.{◌≡◌, ◌≤◌, length, sum_by, sum, unsigned_abs};
ghost use Rattle.tables.specs.Carried.{claims_of};
ghost use Rattle.tables.specs.Listed.{listed};
ghost use Rattle.sharing.specs.Levels.{Apart, Small, claim_of, figures_of_heads, figures_of_members, SharedOnLevels};

use crate::rows::{give_out, share_out};
use division::{DivisionRule, MOST_CLAIMS};
use tables::Table;
use tables::bounds::{Carries, Head, Owned};
use tables::totals::{Whose, total};

// Heads, and the members that are listed under them: no more heads than a division takes, and members that carry no more together than its claims may come to.
#[derive(Drop)]
pub struct Levels<'a, H, M: Carries> {
    pub heads: &'a [H],
    pub members: &'a [M],
    pub ghost few: { length heads.now ≤ 256 },
    pub ghost light: { sum_by M.Carries.carried members.now ≤ 6144000000 },
}

// What the owner's heads claim, in listed order, from what their members carry together.
pub fn gather_heads<H: Head, M: Carries>(
    levels: &Levels<H, M>,
    owner: u32,
) -> Table<u64, MOST_CLAIMS>
    ensures { listed result ≡ claims_of H.Owned.owned (claim_of H.Head.claimed H.Head.numbered M.Owned.owned M.Carries.carried levels.now.members.now) owner levels.now.heads.now }
{
    let mut claims: Table<u64, MOST_CLAIMS> = Table::new(0);
    // a `for`, since the closure of a chain would have to require that what each head's members carry fits
    for head in levels.heads {
        if head.owner() == owner {
            let together = total(levels.members, Whose::Owner(head.number()));
            claims.push(head.claim(together));
        }
    }
    claims
}

// Shares each of the owner's heads' figures out among the head's members.
fn spread_out<B: DivisionRule, H: Head, M: Carries>(
    second: &B,
    levels: &Levels<H, M>,
    owner: u32,
    head_figures: &[i64],
    member_figures: &mut [i64],
)
    requires few { length levels.now.members.now ≤ 256 }
    requires heads { length head_figures.now ≡ length levels.now.heads.now }
    requires members { length member_figures.old ≡ length levels.now.members.now }
    requires small { Small H.Owned.owned owner levels.now.heads.now head_figures.now }
    ensures { member_figures.new ≡ figures_of_members (B.DivisionRule.parts second.now) H.Owned.owned H.Head.numbered M.Owned.owned M.Carries.carried
        owner levels.now.members.now levels.now.heads.now head_figures.now member_figures.old }
{
    for (head, figure) in levels.heads.iter().zip(head_figures) {
        if head.owner() == owner {
            share_out(
                second,
                levels.members,
                head.number(),
                *figure,
                member_figures,
            );
        }
    }
}

// Shares a whole out on two levels. Callers are proved to stay inside the limits, so that no division is refused.
pub fn share_out_levels<A: DivisionRule, B: DivisionRule, H: Head, M: Carries>(
    first: &A,
    second: &B,
    levels: &Levels<H, M>,
    owner: u32,
    whole: i64,
    head_figures: &mut [i64],
    member_figures: &mut [i64],
)
    requires few { length levels.now.members.now ≤ 256 }
    requires apart { Apart H.Head.numbered levels.now.heads.now }
    requires claims { sum (claims_of H.Owned.owned (claim_of H.Head.claimed H.Head.numbered M.Owned.owned M.Carries.carried levels.now.members.now) owner levels.now.heads.now) ≤ 6144000000 }
    requires heads { length head_figures.old ≡ length levels.now.heads.now }
    requires members { length member_figures.old ≡ length levels.now.members.now }
    requires small { unsigned_abs whole ≤ 128000000 }
    ensures heads { head_figures.new ≡ figures_of_heads (A.DivisionRule.parts first.now) H.Head.claimed H.Owned.owned H.Head.numbered M.Owned.owned M.Carries.carried
        owner whole levels.now.members.now levels.now.heads.now head_figures.old }
    ensures members { member_figures.new ≡ figures_of_members (B.DivisionRule.parts second.now) H.Owned.owned H.Head.numbered M.Owned.owned M.Carries.carried
        owner levels.now.members.now levels.now.heads.now head_figures.new member_figures.old }
    ensures levels { SharedOnLevels (A.DivisionRule.parts first.now) (B.DivisionRule.parts second.now) H.Head.claimed H.Owned.owned H.Head.numbered M.Owned.owned M.Carries.carried
        owner whole levels.now.heads.now levels.now.members.now head_figures.old head_figures.new member_figures.old member_figures.new }
{
    let claims = gather_heads(levels, owner);
    give_out(
        first,
        claims.as_slice(),
        levels.heads,
        owner,
        whole,
        head_figures,
    );
    spread_out(second, levels, owner, head_figures, member_figures);
}
