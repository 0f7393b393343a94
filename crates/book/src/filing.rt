// The filing calls, but for the slip: each judges what it is given in order, and adds or changes one record.
// Callers name kinds and methods by codes, as the calls are defined; each code is turned into its case before anything else is judged.
ghost use Rattle.std.specs.Prelude.{◌≡◌};
ghost use Rattle.book.specs.Judging.{Judges};
ghost use Rattle.book.specs.Filing.{contract_refusal, contract_filed, group_refusal, group_filed, curtailment_refusal, curtailment_filed, plant_refusal, plant_filed, share_key, share_refusal, share_filed, place_refusal, place_filed};

use crate::filings::Filings;
use crate::keys::ShareKey;
use crate::looking::ALLOWANCE;
use crate::ranges::{is_figure, is_multiplier, is_rank};
use crate::rows::Shared;
use metering::lookup::is_number;
use tables::filing::file_row;
use terms::codes::{Kind, Method, OwnerKind};
use terms::records::{Contract, Curtailment, Group, GroupSort, Owner, Place, Plant};
use terms::refusal::Refusal;

impl Filings {
    // A contract: a number, a kind and a loss multiplier.
    pub(crate) fn file_contract(
        &mut self,
        number: u32,
        kind: u32,
        multiplier: u32,
    ) -> Result<(), Refusal>
        ensures { Judges (contract_refusal self.old number kind multiplier) self.old (contract_filed self.old number kind multiplier) self.new result }
    {
        let kind = Kind::try_from(kind)?;
        if !is_number(number) {
            return Err(Refusal::NumberOutOfRange);
        }
        if !is_multiplier(multiplier) {
            return Err(Refusal::FigureOutOfRange);
        }
        if self.has_contract(number) {
            return Err(Refusal::NumberTaken);
        }
        if self.contracts.is_full() {
            return Err(Refusal::Full);
        }
        self.contracts.push(Contract {
            number,
            kind,
            multiplier,
        });
        Ok(())
    }

    // A generation group: a number and its generation contract.
    pub(crate) fn file_group(&mut self, number: u32, contract: u32) -> Result<(), Refusal>
        ensures { Judges (group_refusal self.old number contract) self.old (group_filed self.old number contract) self.new result }
    {
        if !(is_number(number) && is_number(contract)) {
            return Err(Refusal::NumberOutOfRange);
        }
        if !self.has_contract_of(Kind::Generation, contract) {
            return Err(Refusal::UnknownRecord);
        }
        if self.has_group(number) {
            return Err(Refusal::NumberTaken);
        }
        if self.groups.is_full() {
            return Err(Refusal::Full);
        }
        self.groups.push(Group {
            number,
            contract,
            sort: GroupSort::Generation,
        });
        Ok(())
    }

    // A curtailment group: a number, its negawatt contract, a retail contract, baseline, plan and method.
    pub(crate) fn file_curtailment(
        &mut self,
        number: u32,
        contract: u32,
        retailer: u32,
        baseline: u32,
        plan: u32,
        method: u32,
    ) -> Result<(), Refusal>
        ensures { Judges (curtailment_refusal self.old number contract retailer baseline plan method) self.old (curtailment_filed self.old number contract retailer baseline plan method) self.new result }
    {
        let method = Method::filed(method)?;
        if !(is_number(number) && is_number(contract) && is_number(retailer)) {
            return Err(Refusal::NumberOutOfRange);
        }
        if !(is_figure(baseline) && is_figure(plan)) {
            return Err(Refusal::FigureOutOfRange);
        }
        if !(self.has_contract_of(Kind::Negawatt, contract)
            && self.has_contract_of(Kind::Retail, retailer))
        {
            return Err(Refusal::UnknownRecord);
        }
        if self.has_group(number) {
            return Err(Refusal::NumberTaken);
        }
        if baseline < plan {
            return Err(Refusal::PlanAboveBaseline);
        }
        if self.groups.is_full() {
            return Err(Refusal::Full);
        }
        let curtailment = Curtailment {
            retailer,
            baseline,
            plan,
            method,
        };
        self.groups.push(Group {
            number,
            contract,
            sort: GroupSort::Curtailment(curtailment),
        });
        Ok(())
    }

    // A plant: a meter number.
    pub(crate) fn file_plant(&mut self, meter: u32) -> Result<(), Refusal>
        ensures { Judges (plant_refusal self.old meter) self.old (plant_filed self.old meter) self.new result }
    {
        if !is_number(meter) {
            return Err(Refusal::NumberOutOfRange);
        }
        if self.has_meter(meter) {
            return Err(Refusal::NumberTaken);
        }
        if self.plants.is_full() {
            return Err(Refusal::Full);
        }
        self.plants.push(Plant { meter });
        Ok(())
    }

    // A share: a generation group, a plant, a rank and the planned kWh. A known share gets another rank and plan.
    #[tactic(auto, using(crate::proofs::Room::room_left))]
    pub(crate) fn file_share(
        &mut self,
        group: u32,
        plant: u32,
        rank: u32,
        kwh: u32,
    ) -> Result<(), Refusal>
        ensures { Judges (share_refusal self.old group plant rank kwh) self.old (share_filed self.old (share_key group plant) rank kwh) self.new result }
    {
        if !(is_number(group) && is_number(plant)) {
            return Err(Refusal::NumberOutOfRange);
        }
        if !(is_rank(rank) && is_figure(kwh)) {
            return Err(Refusal::FigureOutOfRange);
        }
        if !(self.has_generating_group(group) && self.has_plant(plant)) {
            return Err(Refusal::UnknownRecord);
        }
        let key = ShareKey { group, plant };
        if self.has_outranking(key, rank) {
            return Err(Refusal::RankTaken);
        }
        if self.lacks_share_room(key) {
            return Err(Refusal::Full);
        }
        file_row(&mut self.shares, key, Shared { rank, kwh });
        Ok(())
    }

    // A place: a meter number and its owner.
    pub(crate) fn file_place(&mut self, meter: u32, kind: u32, owner: u32) -> Result<(), Refusal>
        ensures { Judges (place_refusal self.old meter kind owner) self.old (place_filed self.old meter kind owner) self.new result }
    {
        let owner = Owner {
            kind: OwnerKind::try_from(kind)?,
            number: owner,
        };
        if !(is_number(meter) && is_number(owner.number)) {
            return Err(Refusal::NumberOutOfRange);
        }
        if !self.has_owner(owner) {
            return Err(Refusal::UnknownRecord);
        }
        if self.has_meter(meter) {
            return Err(Refusal::NumberTaken);
        }
        if self.places.is_full() || self.count_places(owner) >= ALLOWANCE {
            return Err(Refusal::Full);
        }
        self.places.push(Place { meter, owner });
        Ok(())
    }
}
