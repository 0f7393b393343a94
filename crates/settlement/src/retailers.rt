// How retail contracts are settled. What is settled goes into memory of the caller's, beside the contracts, which stay as they were filed.
ghost use Rattle.std.specs.Prelude.{◌≡◌, ◌≤◌, length};
ghost use Rattle.std.specs.List.{AllByRecursion};
ghost use Rattle.std.proofs.Props.{props};
ghost use Rattle.settlement.specs.Demand.{kwh_read};
ghost use Rattle.settlement.specs.Retailers.{supplied_to, retail_settled, retail_supplied, deemed_demand_of, contract_settled, contracts_settled};

use crate::demand::Area;
use crate::groups::SettledGroup;
use curtailment::retail::retail_imbalance;
use metering::source::MeterSource;
use tables::totals::{Whose, total};
use terms::codes::{Kind, OwnerKind};
use terms::records::{Contract, Owner};
use trades::corrected::CorrectedLines;

// A settled retail contract: the kWh supplied, and its imbalance, where positive is shortage. Of any other contract both are 0: its groups are settled.
#[derive(Clone, Copy)]
pub struct SettledContract {
    pub measured: u64,
    pub imbalance: i64,
}

// The settled groups of a book: no more of them than a book has, and none supplied with more than its meters or its baseline.
#[derive(Clone, Copy)]
pub struct SettledGroups<'a> {
    pub groups: &'a [SettledGroup],
    pub ghost few: { length groups.now ≤ 96 },
    pub ghost small: { AllByRecursion (λ g. g.supplied ≤ 153600000) groups.now } by { Prim.hlevel props },
}

impl SettledGroups<'_> {
    // What the customers of the groups that name the retailer were supplied with.
    fn supplied_to(&self, retailer: u32) -> u64
        ensures value { result ≡ supplied_to retailer self.now.groups.now }
        ensures within { result ≤ 14745600000 }
    {
        total(self.groups, Whose::Owner(retailer))
    }
}

// What the retailer supplied: its own metered demand, and what the customers of the groups that name it were supplied with.
fn supplied_by<S: MeterSource>(area: &Area<S>, groups: &SettledGroups, contract: &Contract) -> u64
    requires { contract.now.multiplier ≤ 12000 }
    ensures value { result ≡ retail_supplied (kwh_read (S.MeterSource.read area.now.source.now)) area.now.places.now groups.now.groups.now contract.now }
    ensures within { result ≤ 14899200000 }
{
    let owner = Owner {
        kind: OwnerKind::RetailContract,
        number: contract.number,
    };
    area.demand_of(owner, contract.multiplier) + groups.supplied_to(contract.number)
}

// One contract: a retail contract by what it supplied, any other not at all.
fn settle_contract<S: MeterSource>(
    area: &Area<S>,
    trades: &CorrectedLines,
    groups: &SettledGroups,
    contract: &Contract,
) -> SettledContract
    requires { contract.now.multiplier ≤ 12000 }
    ensures { result ≡ contract_settled (kwh_read (S.MeterSource.read area.now.source.now)) area.now.places.now trades.now.lines.now trades.now.figures.now groups.now.groups.now contract.now }
{
    match contract.kind {
        Kind::Retail => {
            let supplied = supplied_by(area, groups, contract);
            let balance = trades.balance_of(contract.number);
            SettledContract {
                measured: supplied,
                imbalance: retail_imbalance(supplied, balance.deemed_demand()),
            }
        }
        Kind::Generation | Kind::Negawatt => SettledContract {
            measured: 0,
            imbalance: 0,
        },
    }
}

// Every contract of the area. Callers are proved to stay inside the limits of a book, and have seen to it that every place's meter has a reading.
pub fn settle_contracts<S: MeterSource>(
    area: &Area<S>,
    trades: &CorrectedLines,
    groups: &SettledGroups,
    settled: &mut [SettledContract],
)
    requires { length settled.old ≡ length area.now.contracts.now }
    ensures { settled.new ≡ contracts_settled (kwh_read (S.MeterSource.read area.now.source.now)) area.now.places.now trades.now.lines.now trades.now.figures.now groups.now.groups.now area.now.contracts.now }
{
    // by `enumerate`: after `zip` over an `iter_mut` a proof knows nothing of the values
    for (i, contract) in area.contracts.iter().enumerate() {
        settled[i] = settle_contract(area, trades, groups, contract);
    }
}
