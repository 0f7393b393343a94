ghost use Rattle.std.specs.Prelude.{◌≡◌, pos, ◌+ℤ◌, ◌-ℤ◌};

// What a contract generates itself, buys and sells in the half hour, by its corrected trades.
// Own generation and purchases together are always the sales, so own generation may be below zero.
#[derive(Clone, Copy, PartialEq, Eq, Debug)]
pub struct Balance {
    own: i64,
    bought: u32,
    sold: u32,
    ghost even: { own +ℤ pos bought ≡ pos sold },
}

impl Balance {
    pub fn of(sold: u32, bought: u32) -> Balance
        ensures sold { result.sold ≡ sold }
        ensures bought { result.bought ≡ bought }
    {
        Balance {
            own: i64::from(sold) - i64::from(bought),
            bought,
            sold,
        }
    }

    // Sales less purchases: the deemed plan of a generation or negawatt contract.
    pub fn own(&self) -> i64
        ensures { result ≡ pos self.now.sold -ℤ pos self.now.bought }
    {
        self.own
    }

    // Purchases less sales: the deemed demand of a retail contract.
    pub fn deemed_demand(&self) -> i64
        ensures { result ≡ pos self.now.bought -ℤ pos self.now.sold }
    {
        let Balance { bought, sold, .. } = *self;
        i64::from(bought) - i64::from(sold)
    }

    pub fn bought(&self) -> u32
        ensures { result ≡ self.now.bought }
    {
        self.bought
    }

    pub fn sold(&self) -> u32
        ensures { result ≡ self.now.sold }
    {
        self.sold
    }
}
