// What was filed for a half hour: six tables of records, which filing calls alone change.
use std::marker::Model;
use tables::Table;
use terms::records::{Contract, Group, Line, Place, Plant, Share};

// How many records of each sort a book takes.
pub(crate) const MOST_CONTRACTS: usize = 48;

pub(crate) const MOST_GROUPS: usize = 96;

pub(crate) const MOST_PLANTS: usize = 128;

pub(crate) const MOST_SHARES: usize = 256;

pub(crate) const MOST_LINES: usize = 512;

pub(crate) const MOST_PLACES: usize = 512;

#[derive(Drop)]
pub(crate) struct Filings {
    pub(crate) contracts: Table<Contract, MOST_CONTRACTS>,
    pub(crate) groups: Table<Group, MOST_GROUPS>,
    pub(crate) plants: Table<Plant, MOST_PLANTS>,
    pub(crate) shares: Table<Share, MOST_SHARES>,
    pub(crate) lines: Table<Line, MOST_LINES>,
    pub(crate) places: Table<Place, MOST_PLACES>,
}

// A clause sees the lists of the records.
impl Model for Filings {
    ghost use Rattle.settlement.specs.Area.{Filed};

    ghost Value = { Filed };

    ghost use Rattle.book.specs.View.{filed};

    ghost view = { filed };
}
