// How lines and shares are made from their key, and amended under it.
ghost use Rattle.std.specs.Prelude.{◌≡◌};
ghost use Rattle.book.specs.Figures.{kwh_of};
ghost use Rattle.book.specs.Filing.{new_share, reshared, new_line, refigured};

use crate::keys::{LineKey, ShareKey};
use tables::filing::Row;
use terms::records::{Line, Share};

// What a share call sets.
#[derive(Clone, Copy, PartialEq, Eq, Debug)]
pub(crate) struct Shared {
    pub(crate) rank: u32,
    pub(crate) kwh: u32,
}

// What a line call sets, and what a result call sets, in kWh.
#[derive(Clone, Copy, PartialEq, Eq, Debug)]
pub(crate) enum Figure {
    Planned(u32),
    Agreed(u32),
}

impl Figure {
    pub(crate) fn kwh(self) -> u32
        ensures { result ≡ kwh_of self }
    {
        match self {
            Figure::Planned(kwh) | Figure::Agreed(kwh) => kwh,
        }
    }
}

impl Row<ShareKey, Shared> for Share {
    ghost made = { λ key v. new_share key v.rank v.kwh };

    ghost amended = { λ v s. reshared v.rank v.kwh s };

    fn make(key: ShareKey, value: Shared) -> Share {
        Share {
            group: key.group,
            plant: key.plant,
            rank: value.rank,
            planned: value.kwh,
        }
    }

    fn amend(mut self, value: Shared) -> Share {
        self.rank = value.rank;
        self.planned = value.kwh;
        self
    }
}

impl Row<LineKey, Figure> for Line {
    ghost made = { λ key figure. refigured figure (new_line key 0 0) };

    ghost amended = { refigured };

    fn make(key: LineKey, figure: Figure) -> Line {
        let line = Line {
            contract: key.contract,
            direction: key.direction,
            partner: key.partner,
            planned: 0,
            agreed: 0,
        };
        line.amend(figure)
    }

    fn amend(mut self, figure: Figure) -> Line {
        match figure {
            Figure::Planned(kwh) => self.planned = kwh,
            Figure::Agreed(kwh) => self.agreed = kwh,
        }
        self
    }
}
