// How groups are settled. Parts stand beside the groups, which stay as they were filed, and what is settled goes into memory of the caller's.
ghost use Rattle.std.specs.Prelude.{◌≡◌, ◌≤◌, true, length, ◌==◌, unsigned_abs};
ghost use Rattle.std.specs.List.{AllByRecursion};
ghost use Rattle.std.proofs.Props.{props};
ghost use Rattle.curtailment.specs.Methods.{settled_by};
ghost use Rattle.settlement.specs.Demand.{kwh_read};
ghost use Rattle.settlement.specs.Groups.{output_of, generation_settled, curtailment_settled, group_demand, SoundSort, group_settled, groups_settled, Groupable};

use crate::demand::Area;
use curtailment::methods::settle_curtailment;
use metering::source::MeterSource;
use planning::plan::group_plan;
use tables::bounds::{Carries, Owned};
use tables::figures::total_fitting;
use tables::keys::Keyed;
use terms::codes::OwnerKind;
use terms::records::{Curtailment, Group, GroupSort, Owner, Share};

// A settled group: the kWh that it is measured by, allotted to a generation group or curtailed by a curtailment group; its imbalance, where positive is shortage;
// and what the customers of a curtailment group were supplied with, for which the retailer is settled whom it names. A generation group names retailer 0:
// an `Option` would be no plainer, since totals ask every row for its owner's number, so that `owner` would make a 0 of `None` again.
#[derive(Clone, Copy)]
pub struct SettledGroup {
    pub retailer: u32,
    pub supplied: u64,
    pub measured: u64,
    pub imbalance: i64,
}

// A settled group carries what was supplied, for its retailer.
impl Owned for SettledGroup {
    ghost owned = { λ g. g.retailer };

    fn owner(&self) -> u32 {
        self.retailer
    }
}

impl Carries for SettledGroup {
    ghost carried = { λ g. g.supplied };

    fn kwh(&self) -> u64 {
        self.supplied
    }
}

// The key of a group's shares: the group's number. A type, since a generic total takes it.
#[derive(Clone, Copy)]
struct OfGroup {
    group: u32,
}

impl Keyed<OfGroup> for Share {
    ghost fits = { λ key s. (s.group == key.group) };

    fn is(&self, key: OfGroup) -> bool {
        self.group == key.group
    }
}

// The shares of a book with what each was allotted beside it: no more shares than a book has, and none allotted more than a plant reads.
#[derive(Clone, Copy)]
pub struct AllottedShares<'a> {
    pub shares: &'a [Share],
    pub allotted: &'a [u64],
    pub ghost few: { length shares.now ≤ 256 },
    pub ghost room: { length allotted.now ≡ length shares.now },
    pub ghost small: { AllByRecursion (λ x. x ≤ 2000000) allotted.now } by { Prim.hlevel props },
}

impl AllottedShares<'_> {
    // What the group's shares were allotted together.
    fn of_group(&self, group: u32) -> u64
        ensures value { result ≡ output_of group self.now.shares.now self.now.allotted.now }
        ensures within { result ≤ 512000000 }
    {
        total_fitting(self.shares, OfGroup { group }, self.allotted)
    }
}

// A generation group's imbalance is its plan less its output.
fn settle_generation(plan: i64, output: u64) -> SettledGroup
    requires { (unsigned_abs plan ≤ 128000000) × (output ≤ 512000000) }
    ensures { result ≡ generation_settled plan output }
{
    SettledGroup {
        retailer: 0,
        supplied: 0,
        measured: output,
        imbalance: plan - output as i64,
    }
}

// A curtailment group is settled by its method.
fn settle_saving(curtailment: &Curtailment, deemed: i64, used: u64) -> SettledGroup
    requires plan { (curtailment.now.plan ≤ curtailment.now.baseline) × (curtailment.now.baseline ≤ 2000000) }
    requires small { (unsigned_abs deemed ≤ 130000000) × (used ≤ 153600000) }
    ensures value { result ≡ curtailment_settled curtailment.now.retailer (settled_by curtailment.now.method curtailment.now.baseline curtailment.now.plan deemed used) }
    ensures within { result.supplied ≤ 153600000 }
{
    let settled = settle_curtailment(curtailment, deemed, used);
    SettledGroup {
        retailer: curtailment.retailer,
        supplied: settled.supplied,
        measured: settled.curtailed,
        imbalance: settled.imbalance,
    }
}

// The metered demand of a curtailment group, at its retailer's multiplier.
fn demand_of_group<S: MeterSource>(area: &Area<S>, number: u32, curtailment: &Curtailment) -> u64
    ensures value { result ≡ group_demand (kwh_read (S.MeterSource.read area.now.source.now)) area.now.contracts.now area.now.places.now number curtailment.now }
    ensures within { result ≤ 153600000 }
{
    let owner = Owner {
        kind: OwnerKind::CurtailmentGroup,
        number,
    };
    area.demand_of(owner, area.multiplier_of(curtailment.retailer))
}

// One group, by its part of its contract's sales less purchases.
fn settle_group<S: MeterSource>(
    area: &Area<S>,
    allotted: &AllottedShares,
    group: &Group,
    part: i64,
) -> SettledGroup
    requires sound { SoundSort group.now.sort }
    requires small { unsigned_abs part ≤ 128000000 }
    ensures value { result ≡ group_settled (kwh_read (S.MeterSource.read area.now.source.now)) area.now.contracts.now area.now.places.now allotted.now.shares.now allotted.now.allotted.now group.now part }
    ensures within { result.supplied ≤ 153600000 }
{
    let plan = group_plan(group, part);
    match group.sort {
        GroupSort::Generation => settle_generation(plan, allotted.of_group(group.number)),
        GroupSort::Curtailment(curtailment) => {
            let used = demand_of_group(area, group.number, &curtailment);
            settle_saving(&curtailment, plan, used)
        }
    }
}

// Every group, its part of its contract's sales less purchases standing beside it. Callers are proved to stay inside the limits of a book, and have seen to it
// that every place's meter has a reading.
pub fn settle_groups<S: MeterSource>(
    area: &Area<S>,
    allotted: &AllottedShares,
    groups: &[Group],
    parts: &[i64],
    settled: &mut [SettledGroup],
)
    requires groupable { Groupable groups.now parts.now }
    requires room { length settled.old ≡ length groups.now }
    ensures exact { settled.new ≡ groups_settled (kwh_read (S.MeterSource.read area.now.source.now)) area.now.contracts.now area.now.places.now allotted.now.shares.now allotted.now.allotted.now groups.now parts.now }
    ensures small { AllByRecursion (λ g. g.supplied ≤ 153600000) settled.new }
{
    // by `enumerate`: after `zip` over an `iter_mut` a proof knows nothing of the values
    for (i, (group, part)) in groups.iter().zip(parts).enumerate() {
        settled[i] = settle_group(area, allotted, group, *part);
    }
}
