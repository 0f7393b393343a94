// Plans on two levels: three contracts, five groups of both sorts and up to ten shares.
ghost use Rattle.std.specs.Prelude.{◌≡◌, ◌+◌, ◌≤◌, length};
ghost use Rattle.std.specs.List.{AllByRecursion};
ghost use Rattle.terms.specs.Plans.{plan_of};
ghost use Rattle.sharing.specs.Levels.{Apart};
ghost use Rattle.planning.specs.All.{PlansCorrected};
ghost use Rattle.figures.specs.Rows.{share_fine, homed, of_kind, contracts};
ghost use Rattle.figures.specs.Rules.{parts_by};

use crate::draws::{Draws, DrawsRows, draw_rows};
use crate::rule::Rule;
use crate::trading::{Trades, draw_most};
use planning::all::correct_plans;
use planning::holdings::Holdings;
use planning::plan::group_plan;
use std::io;
use tables::Table;
use terms::codes::{Kind, Method};
use terms::records::{Contract, Curtailment, Group, GroupSort, Share};
use trades::corrected::CorrectedLines;

// A case has five groups and at most so many shares.
const GROUPS: usize = 5;

const MOST_SHARES: usize = 10;

// A share that stands where none was drawn.
const NO_SHARE: Share = Share {
    group: 21,
    plant: 31,
    rank: 1,
    planned: 0,
};

fn contract(number: u32, kind: Kind) -> Contract
    ensures { result ≡ of_kind number kind }
{
    Contract {
        number,
        kind,
        multiplier: 10_000,
    }
}

// What the second contract is, at which place the first generation group stands, and what plans go up to.
// Generation groups and curtailment groups stand in turn.
#[derive(Clone, Copy)]
struct PlanPattern {
    second: Kind,
    first: u64,
    most: u32,
    ghost turn: { first ≤ 1 },
    ghost small: { most ≤ 2000000 },
}

impl PlanPattern {
    fn draw(draws: &mut Draws) -> PlanPattern {
        let second = if draws.below(2) == 0 {
            Kind::Generation
        } else {
            Kind::Negawatt
        };
        let first = draws.below(2);
        let most = draw_most(draws);
        PlanPattern {
            second,
            first,
            most,
        }
    }

    // The contract of a generation group: 11, or 12 if that is a generation contract too.
    fn producer(&self, draws: &mut Draws) -> u32
        ensures { homed result }
    {
        let other = draws.below(2) as u32;
        match self.second {
            Kind::Generation => 11 + other,
            _ => 11,
        }
    }

    // The contract of a curtailment group: 13, or 12 if that is a negawatt contract too.
    fn aggregator(&self, draws: &mut Draws) -> u32
        ensures { homed result }
    {
        let other = draws.below(2) as u32;
        match self.second {
            Kind::Negawatt => 12 + other,
            _ => 13,
        }
    }

    // The group at a place.
    fn group(&self, place: u32, draws: &mut Draws) -> Group
        requires { place ≤ 4 }
        ensures number { result.number ≡ 21 + place }
        ensures home { homed result.contract }
        ensures plan { plan_of result ≤ 2000000 }
    {
        let number = 21 + place;
        if u64::from(place) % 2 == self.first {
            Group {
                number,
                contract: self.producer(draws),
                sort: GroupSort::Generation,
            }
        } else {
            let contract = self.aggregator(draws);
            let plan = draws.small_figure(self.most);
            let curtailment = Curtailment {
                retailer: 15,
                baseline: self.most,
                plan,
                method: Method::One,
            };
            Group {
                number,
                contract,
                sort: GroupSort::Curtailment(curtailment),
            }
        }
    }

    // The five groups, written out: an array made by a closure would not tell that their numbers are apart.
    fn groups(&self, draws: &mut Draws) -> [Group; GROUPS]
        ensures apart { Apart (λ (g : Group). g.number) result }
        ensures homes { AllByRecursion (λ g. homed g.contract) result }
        ensures plans { AllByRecursion (λ g. plan_of g ≤ 2000000) result }
    {
        [
            self.group(0, draws),
            self.group(1, draws),
            self.group(2, draws),
            self.group(3, draws),
            self.group(4, draws),
        ]
    }
}

// Each generation group has a share first; the others are of any generation group.
impl DrawsRows<Share> for PlanPattern {
    ghost fine = { λ _ s. share_fine s };

    fn row(&self, place: usize, draws: &mut Draws) -> Share {
        let count = 3 - self.first;
        let any = draws.below(count);
        let planned = draws.small_figure(self.most);
        let turn = if (place as u64) < count {
            place as u64
        } else {
            any
        };
        Share {
            group: (21 + self.first + 2 * turn) as u32,
            plant: 31 + (place % MOST_SHARES) as u32,
            rank: 1,
            planned,
        }
    }
}

// Corrects the plans of the three contracts.
fn correct(
    first: Rule,
    second: Rule,
    kind: Kind,
    trades: &CorrectedLines,
    holdings: &Holdings,
    parts: &mut [i64],
    plans: &mut [i64],
)
    requires groups { length parts.old ≡ length holdings.now.groups.now }
    requires shares { length plans.old ≡ length holdings.now.shares.now }
    ensures { PlansCorrected (parts_by first) (parts_by second) (contracts kind) trades.now.lines.now trades.now.figures.now
        holdings.now.groups.now holdings.now.shares.now parts.old parts.new plans.old plans.new }
{
    let contracts = [
        contract(11, Kind::Generation),
        contract(12, kind),
        contract(13, Kind::Negawatt),
    ];
    correct_plans(&first, &second, &contracts, trades, holdings, parts, plans);
}

// A group and its plan.
fn show_group(rt: HostRuntime, group: &Group, plan: i64) -> io::Result<()> {
    match group.sort {
        GroupSort::Generation => {
            print!(rt;
                "; generation group {} of {}: {plan}",
                group.number, group.contract
            )
        }
        GroupSort::Curtailment(curtailment) => {
            print!(rt;
                "; curtailment group {} of {}, filed {}: {plan}",
                group.number, group.contract, curtailment.plan
            )
        }
    }
}

// One case: lines, groups and shares, divided by two rules.
pub fn case(rt: HostRuntime, case: u64) -> io::Result<()> {
    let mut draws = Draws::of_case(case);
    let first = Rule::draw(&mut draws);
    let second = Rule::draw(&mut draws);
    let trades = Trades::draw(&mut draws);
    let pattern = PlanPattern::draw(&mut draws);
    let groups = pattern.groups(&mut draws);
    let count = 3 + draws.below(8) as usize;
    let shares: Table<Share, MOST_SHARES> = draw_rows(&pattern, count, NO_SHARE, &mut draws);
    let holdings = Holdings {
        groups: &groups,
        shares: shares.as_slice(),
    };
    let mut parts = [0; GROUPS];
    let mut space = [0; MOST_SHARES];
    let plans = &mut space[..count];
    correct(
        first,
        second,
        pattern.second,
        &trades.corrected(),
        &holdings,
        &mut parts,
        plans,
    );
    print!(rt; "{case} plans: {first}, then {second}{trades}")?;
    for (group, part) in groups.iter().zip(&parts) {
        show_group(rt, group, group_plan(group, *part))?;
    }
    for (share, plan) in shares.as_slice().iter().zip(plans.iter()) {
        print!(rt;
            "; share of {} at {}, planned {}: {plan}",
            share.group, share.plant, share.planned
        )?;
    }
    println!(rt; "")
}
