// The corrected plans of every contract of a half hour. Two rules and two slices of figures are passed apart:
// so each call shows which of them is for the groups and which for the shares.
ghost use Rattle.std.specs.Prelude.{◌≡◌, length};
ghost use Rattle.sharing.specs.Levels.{Apart};
ghost use Rattle.trades.specs.Trades.{net_of};
ghost use Rattle.planning.specs.Plans.{PlanCorrected};
ghost use Rattle.planning.specs.All.{PlansCorrected};

use crate::holdings::Holdings;
use crate::plan::correct_plan;
use division::DivisionRule;
use terms::records::Contract;
use trades::corrected::CorrectedLines;

// One contract's groups and shares, by its corrected sales and purchases.
fn correct_contract<A: DivisionRule, B: DivisionRule>(
    first: &A,
    second: &B,
    contract: u32,
    trades: &CorrectedLines,
    holdings: &Holdings,
    group_parts: &mut [i64],
    share_plans: &mut [i64],
)
    requires groups { length group_parts.old ≡ length holdings.now.groups.now }
    requires shares { length share_plans.old ≡ length holdings.now.shares.now }
    ensures { PlanCorrected (A.DivisionRule.parts first.now) (B.DivisionRule.parts second.now) contract (net_of contract trades.now.lines.now trades.now.figures.now)
        holdings.now.groups.now holdings.now.shares.now group_parts.old group_parts.new share_plans.old share_plans.new }
{
    let balance = trades.balance_of(contract);
    correct_plan(
        first,
        second,
        contract,
        &balance,
        holdings,
        group_parts,
        share_plans,
    );
}

// Every group's part of its contract's corrected sales less purchases, and every share's corrected plan.
// A retail contract has no groups, so nothing of it is divided. Callers are proved to have contracts apart, and a figure for each group and share.
pub fn correct_plans<A: DivisionRule, B: DivisionRule>(
    first: &A,
    second: &B,
    contracts: &[Contract],
    trades: &CorrectedLines,
    holdings: &Holdings,
    group_parts: &mut [i64],
    share_plans: &mut [i64],
)
    requires apart { Apart (λ c. c.number) contracts.now }
    requires groups { length group_parts.old ≡ length holdings.now.groups.now }
    requires shares { length share_plans.old ≡ length holdings.now.shares.now }
    ensures { PlansCorrected (A.DivisionRule.parts first.now) (B.DivisionRule.parts second.now) contracts.now trades.now.lines.now trades.now.figures.now
        holdings.now.groups.now holdings.now.shares.now group_parts.old group_parts.new share_plans.old share_plans.new }
{
    for contract in contracts {
        correct_contract(
            first,
            second,
            contract.number,
            trades,
            holdings,
            group_parts,
            share_plans,
        );
    }
}
