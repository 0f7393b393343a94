// The correction of one generation contract's plan. Plans stand beside groups and shares, in memory of the caller's, so each function asks for their lengths.
ghost use Rattle.std.specs.Prelude.{◌≡◌, ◌≤◌, length, pos, ◌-ℤ◌, unsigned_abs};
ghost use Rattle.terms.specs.Plans.{plan_of};
ghost use Rattle.planning.specs.Plans.{PlanCorrected, group_plan};

use crate::holdings::Holdings;
use division::DivisionRule;
use sharing::levels::{Levels, share_out_levels};
use terms::balance::Balance;
use terms::records::{Group, GroupSort};

// The deemed plan, sales less purchases, is divided among the contract's groups by the first rule, and each group's part among its shares by the second.
// Callers are proved to have a plan for each group and share, and trades inside the limits of a book, so that no division is refused.
pub fn correct_plan<A: DivisionRule, B: DivisionRule>(
    first: &A,
    second: &B,
    contract: u32,
    balance: &Balance,
    holdings: &Holdings,
    group_plans: &mut [i64],
    share_plans: &mut [i64],
)
    requires traded { (balance.now.sold ≤ 128000000) × (balance.now.bought ≤ 128000000) }
    requires groups { length group_plans.old ≡ length holdings.now.groups.now }
    requires shares { length share_plans.old ≡ length holdings.now.shares.now }
    ensures { PlanCorrected (A.DivisionRule.parts first.now) (B.DivisionRule.parts second.now) contract (pos balance.now.sold -ℤ pos balance.now.bought)
        holdings.now.groups.now holdings.now.shares.now group_plans.old group_plans.new share_plans.old share_plans.new }
{
    let levels = Levels {
        heads: holdings.groups,
        members: holdings.shares,
    };
    share_out_levels(
        first,
        second,
        &levels,
        contract,
        balance.own(),
        group_plans,
        share_plans,
    );
}

// A group's plan from its part: a generation group's part is its plan, a curtailment group's is added to the plan that it filed.
// Callers are proved to hand over a part of a division and a plan inside the limits of a book.
pub fn group_plan(group: &Group, part: i64) -> i64
    requires { (unsigned_abs part ≤ 128000000) × (plan_of group.now ≤ 2000000) }
    ensures { result ≡ group_plan group.now part }
{
    match group.sort {
        GroupSort::Generation => part,
        GroupSort::Curtailment(curtailment) => part + i64::from(curtailment.plan),
    }
}
