// The values and ranges of what a caller files.
ghost use Rattle.std.specs.Prelude.{◌≡◌};
ghost use Rattle.terms.specs.Partners.{partner_code};
ghost use Rattle.book.specs.Ranges.{is_partner, is_figure, is_rank, is_multiplier};

use metering::lookup::is_number;
use terms::partner::Partner;

const MOST_KWH: u32 = 2_000_000;

const MOST_RANK: u32 = 99;

const LEAST_MULTIPLIER: u32 = 10_000;

const MOST_MULTIPLIER: u32 = 12_000;

pub(crate) fn is_figure(kwh: u32) -> bool
    ensures { result ≡ is_figure kwh }
{
    kwh <= MOST_KWH
}

pub(crate) fn is_rank(rank: u32) -> bool
    ensures { result ≡ is_rank rank }
{
    (1..=MOST_RANK).contains(&rank)
}

pub(crate) fn is_multiplier(multiplier: u32) -> bool
    ensures { result ≡ is_multiplier multiplier }
{
    (LEAST_MULTIPLIER..=MOST_MULTIPLIER).contains(&multiplier)
}

// Whether the partner can be filed under this number.
pub(crate) fn is_partner(partner: Partner, number: u32) -> bool
    ensures { result ≡ is_partner (partner_code partner) number }
{
    match partner {
        Partner::Exchange => number == 0,
        Partner::Outside(_) | Partner::Contract(_) => is_number(number),
    }
}
