// Whether a record is in the book, and of which sort; and how much room is left.
ghost use Rattle.std.specs.Prelude.{◌≡◌};
ghost use Rattle.book.specs.Looking.{has_contract, has_contract_of, has_group, has_generating_group, has_curtailment_group, has_plant, has_place, has_meter, has_owner, has_outranking, places_of, contract_of_group, shares_of_contract, lines_of_contract};
ghost use Rattle.book.specs.Filing.{no_line_room, no_share_room};

use crate::filings::Filings;
use crate::keys::{LineKey, ShareKey};
use tables::keys::{any_fits, count_fitting};
use terms::codes::{Kind, OwnerKind};
use terms::records::{GroupSort, Owner};

// How many lines a contract has at most, how many shares, and how many places an owner.
pub(crate) const ALLOWANCE: usize = 64;

// Each look-up is one line over another table, by another test.
impl Filings {
    pub(crate) fn has_contract(&self, number: u32) -> bool
        ensures { result ≡ has_contract self.now number }
    {
        self.contracts.as_slice().iter().any(|c| c.number == number)
    }

    pub(crate) fn has_contract_of(&self, kind: Kind, number: u32) -> bool
        ensures { result ≡ has_contract_of self.now kind number }
    {
        let contracts = self.contracts.as_slice();
        contracts
            .iter()
            .any(|c| c.number == number && c.kind == kind)
    }

    pub(crate) fn has_group(&self, number: u32) -> bool
        ensures { result ≡ has_group self.now number }
    {
        self.groups.as_slice().iter().any(|g| g.number == number)
    }

    pub(crate) fn has_generating_group(&self, number: u32) -> bool
        ensures { result ≡ has_generating_group self.now number }
    {
        let groups = self.groups.as_slice();
        groups.iter().any(|g| g.number == number && matches!(g.sort, GroupSort::Generation))
    }

    pub(crate) fn has_curtailment_group(&self, number: u32) -> bool
        ensures { result ≡ has_curtailment_group self.now number }
    {
        let groups = self.groups.as_slice();
        groups.iter().any(|g| g.number == number && matches!(g.sort, GroupSort::Curtailment(_)))
    }

    pub(crate) fn has_plant(&self, meter: u32) -> bool
        ensures { result ≡ has_plant self.now meter }
    {
        self.plants.as_slice().iter().any(|p| p.meter == meter)
    }

    fn has_place(&self, meter: u32) -> bool
        ensures { result ≡ has_place self.now meter }
    {
        self.places.as_slice().iter().any(|p| p.meter == meter)
    }

    pub(crate) fn has_meter(&self, meter: u32) -> bool
        ensures { result ≡ has_meter self.now meter }
    {
        self.has_plant(meter) || self.has_place(meter)
    }

    pub(crate) fn has_owner(&self, owner: Owner) -> bool
        ensures { result ≡ has_owner self.now owner.kind owner.number }
    {
        match owner.kind {
            OwnerKind::RetailContract => self.has_contract_of(Kind::Retail, owner.number),
            OwnerKind::CurtailmentGroup => self.has_curtailment_group(owner.number),
        }
    }

    // The contract of the group with this number; 0 where there is none.
    fn contract_of_group(&self, number: u32) -> u32
        ensures { result ≡ contract_of_group self.now.groups number }
    {
        let groups = self.groups.as_slice();
        groups
            .iter()
            .find(|g| g.number == number)
            .map_or(0, |g| g.contract)
    }

    // Whether another share at the plant has this rank.
    pub(crate) fn has_outranking(&self, key: ShareKey, rank: u32) -> bool
        ensures { result ≡ has_outranking self.now key rank }
    {
        let shares = self.shares.as_slice();
        shares.iter().any(|s| s.plant == key.plant && s.rank == rank && s.group != key.group)
    }

    // How many places the owner has.
    pub(crate) fn count_places(&self, owner: Owner) -> usize
        ensures { result ≡ places_of self.now owner }
    {
        count_fitting(self.places.as_slice(), owner)
    }

    // How many shares the groups of the contract have.
    fn count_shares(&self, contract: u32) -> usize
        ensures { result ≡ shares_of_contract self.now contract }
    {
        let shares = self.shares.as_slice();
        shares
            .iter()
            .filter(|s| self.contract_of_group(s.group) == contract)
            .count()
    }

    // How many lines the contract has.
    fn count_lines(&self, contract: u32) -> usize
        ensures { result ≡ lines_of_contract self.now contract }
    {
        let lines = self.lines.as_slice();
        lines.iter().filter(|l| l.contract == contract).count()
    }

    // Whether a new share of this key finds no room.
    pub(crate) fn lacks_share_room(&self, key: ShareKey) -> bool
        ensures { result ≡ no_share_room self.now key }
    {
        let contract = self.contract_of_group(key.group);
        !any_fits(self.shares.as_slice(), key)
            && (self.shares.is_full() || self.count_shares(contract) >= ALLOWANCE)
    }

    // Whether a new line of this key finds no room.
    pub(crate) fn lacks_line_room(&self, key: LineKey) -> bool
        ensures { result ≡ no_line_room self.now key }
    {
        !any_fits(self.lines.as_slice(), key)
            && (self.lines.is_full() || self.count_lines(key.contract) >= ALLOWANCE)
    }
}
