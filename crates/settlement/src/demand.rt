// The metered demand of an owner of places.
ghost use Rattle.std.specs.Prelude.{◌≡◌, ◌≤◌, true, is_some, ◌==◌};
ghost use Rattle.std.specs.List.{AllByRecursion};
ghost use Rattle.std.proofs.Props.{props};
ghost use Rattle.tables.specs.Keys.{count_if};
ghost use Rattle.tables.specs.Listed.{listed};
ghost use Rattle.terms.specs.declared.records.Owner.{Owner};
ghost use Rattle.terms.specs.Owners.{is_of};
ghost use Rattle.settlement.specs.Demand.{kwh_read, meters_of, demand_by, loss_of};

use metering::demand::{MOST_METERS, metered_demand};
use metering::source::MeterSource;
use tables::Table;
use tables::keys::{Keyed, find_row};
use terms::records::{Contract, Owner, Place};

// The meters of the owner's places, in listed order: pushed by a loop, which the check proves with no answer. Callers are proved to have at most 64 of them.
fn meters_of(places: &[Place], owner: Owner) -> Table<u32, MOST_METERS>
    requires { count_if (is_of owner) places.now ≤ 64 }
    ensures { listed result ≡ meters_of owner places.now }
{
    let mut meters: Table<u32, MOST_METERS> = Table::new(0);
    for place in places {
        if place.is(owner) {
            meters.push(place.meter);
        }
    }
    meters
}

// The key of a contract: its number. A type, since a generic search takes it.
#[derive(Clone, Copy)]
pub struct Numbered {
    pub number: u32,
}

impl Keyed<Numbered> for Contract {
    ghost fits = { λ key c. (c.number == key.number) };

    fn is(&self, key: Numbered) -> bool {
        self.number == key.number
    }
}

// What an area's demand is metered by: what reads its meters, and the contracts and places of its book. Multipliers are at most 12,000,
// no owner has more than 64 places, and every place's meter has a reading.
#[derive(Drop)]
pub struct Area<'a, S: MeterSource> {
    pub source: &'a S,
    pub contracts: &'a [Contract],
    pub places: &'a [Place],
    pub ghost multipliers: { AllByRecursion (λ c. c.multiplier ≤ 12000) contracts.now } by { Prim.hlevel props },
    pub ghost allowed: { (owner : Owner) → count_if (is_of owner) places.now ≤ 64 },
    pub ghost known: { AllByRecursion (λ p. is_some (S.MeterSource.read source.now p.meter) ≡ true) places.now } by { Prim.hlevel props },
}

impl<S: MeterSource> Area<'_, S> {
    // The loss multiplier of the contract with this number; 0 where there is none.
    pub(crate) fn multiplier_of(&self, number: u32) -> u32
        ensures value { result ≡ loss_of number self.now.contracts.now }
        ensures within { result ≤ 12000 }
    {
        find_row(self.contracts, Numbered { number }).map_or(0, |contract| contract.multiplier)
    }

    // The metered demand of an owner: the sum of its places' readings times the multiplier, rounded down.
    // Callers are proved to have a multiplier of at most 12,000.
    pub(crate) fn demand_of(&self, owner: Owner, multiplier: u32) -> u64
        requires { multiplier ≤ 12000 }
        ensures value { result ≡ demand_by (kwh_read (S.MeterSource.read self.now.source.now)) self.now.places.now multiplier owner }
        ensures within { result ≤ 153600000 }
    {
        let meters = meters_of(self.places, owner);
        metered_demand(self.source, meters.as_slice(), multiplier).unwrap()
    }
}
