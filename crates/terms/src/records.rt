// Records of a book, as they are filed, and what they are to totals and divisions.
ghost use Rattle.std.specs.Prelude.{◌≡◌};
ghost use Rattle.terms.specs.Owners.{is_of};
ghost use Rattle.terms.specs.Plans.{claim_in};

use crate::codes::{Direction, Kind, Method, OwnerKind};
use crate::partner::Partner;
use tables::bounds::{Carries, Head, Owned};
use tables::keys::Keyed;

// A contract: a party's standing in the area. Only a retail contract's loss multiplier, in ten-thousandths, is used.
#[derive(Clone, Copy, PartialEq, Eq, Debug)]
pub struct Contract {
    pub number: u32,
    pub kind: Kind,
    pub multiplier: u32,
}

// A balancing group: the unit of a contract for which an imbalance is computed.
#[derive(Clone, Copy, PartialEq, Eq, Debug)]
pub struct Group {
    pub number: u32,
    pub contract: u32,
    pub sort: GroupSort,
}

// A generation group holds shares in plants; a curtailment group calls customers to use less.
// Not an Option, whose None would not say that the group generates: these are the two sorts of the trade.
#[derive(Clone, Copy, PartialEq, Eq, Debug)]
pub enum GroupSort {
    Generation,
    Curtailment(Curtailment),
}

// What a curtailment group files: whose customers it calls, what they would use, how much of it they are to save, and how a difference is settled.
#[derive(Clone, Copy, PartialEq, Eq, Debug)]
pub struct Curtailment {
    pub retailer: u32,
    pub baseline: u32,
    pub plan: u32,
    pub method: Method,
}

// A plant: a metered power station.
#[derive(Clone, Copy, PartialEq, Eq, Debug)]
pub struct Plant {
    pub meter: u32,
}

// A share: what one generation group takes of one plant.
// The rank says in which turn the share is served when the plant's output is allotted.
#[derive(Clone, Copy, PartialEq, Eq, Debug)]
pub struct Share {
    pub group: u32,
    pub plant: u32,
    pub rank: u32,
    pub planned: u32,
}

// A line: one trade of one contract, with the kWh planned and the kWh agreed.
#[derive(Clone, Copy, PartialEq, Eq, Debug)]
pub struct Line {
    pub contract: u32,
    pub direction: Direction,
    pub partner: Partner,
    pub planned: u32,
    pub agreed: u32,
}

// What a place belongs to: a retail contract or a curtailment group, by its number.
#[derive(Clone, Copy, PartialEq, Eq, Debug)]
pub struct Owner {
    pub kind: OwnerKind,
    pub number: u32,
}

// A place: a metered customer site of a retail contract or a curtailment group.
#[derive(Clone, Copy, PartialEq, Eq, Debug)]
pub struct Place {
    pub meter: u32,
    pub owner: Owner,
}

// A share belongs to its group and carries what it planned.
impl Owned for Share {
    ghost owned = { λ s. s.group };

    fn owner(&self) -> u32 {
        self.group
    }
}

impl Carries for Share {
    ghost carried = { λ s. s.planned };

    fn kwh(&self) -> u64 {
        u64::from(self.planned)
    }
}

// A group belongs to its contract, and its shares are listed under its number. A generation group claims what its shares planned together,
// a curtailment group its own plan.
impl Owned for Group {
    ghost owned = { λ g. g.contract };

    fn owner(&self) -> u32 {
        self.contract
    }
}

impl Head for Group {
    ghost numbered = { λ g. g.number };

    ghost claimed = { λ g together. claim_in g.sort together };

    fn number(&self) -> u32 {
        self.number
    }

    fn claim(&self, together: u64) -> u64 {
        match self.sort {
            GroupSort::Generation => together,
            GroupSort::Curtailment(curtailment) => u64::from(curtailment.plan),
        }
    }
}

// A place is found by its owner.
impl Keyed<Owner> for Place {
    ghost fits = { is_of };

    fn is(&self, key: Owner) -> bool {
        self.owner == key
    }
}
