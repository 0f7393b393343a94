// The generator that every case is made with, and rows drawn one by one.
ghost use Rattle.std.specs.Prelude.{◌≡◌, ◌^◌, ◌<◌, ◌≤◌, length};
ghost use Rattle.std.specs.List.{AllByRecursion};
ghost use Rattle.tables.specs.Listed.{listed};
ghost use Rattle.figures.specs.Drawn.{stepped, mixed, drawn, figure};

use tables::Table;

const FACTOR: u64 = 6_364_136_223_846_793_005;

const INCREMENT: u64 = 1_442_695_040_888_963_407;

// The lower half of a state is dropped, and so are the lowest bits of the other half's square.
const HALF: u64 = 4_294_967_296;

const LOWEST: u64 = 65_536;

// A run of draws.
#[derive(Drop)]
pub struct Draws {
    state: u64,
}

impl Draws {
    // The draws of a case begin with its number as the state.
    pub fn of_case(case: u64) -> Draws
        ensures { result.state ≡ case }
    {
        Draws { state: case }
    }

    // What the next state gives.
    fn next(&mut self) -> u64
        ensures value { result ≡ mixed (stepped self.old.state) }
        ensures state { self.new.state ≡ stepped self.old.state }
    {
        self.state = self.state.wrapping_mul(FACTOR).wrapping_add(INCREMENT);
        let upper = self.state / HALF;
        upper.wrapping_mul(upper) / LOWEST
    }

    // A number below n.
    pub fn below(&mut self, n: u64) -> u64
        requires { 0 < n }
        ensures value { result ≡ drawn self.old.state n }
        ensures state { self.new.state ≡ stepped self.old.state }
        ensures small { result < n }
    {
        self.next() % n
    }

    // A figure from 0 to the most; one in four is an edge.
    pub fn figure(&mut self, most: u64) -> u64
        requires { most < 2 ^ 63 }
        ensures value { result ≡ figure self.old.state most }
        ensures state { self.new.state ≡ stepped (stepped self.old.state) }
        ensures small { result ≤ most }
    {
        let edge = self.below(8);
        let inside = self.below(most + 1);
        match edge {
            0 => 0,
            1 => most,
            _ => inside,
        }
    }

    // The same for a figure of 32 bits.
    pub fn small_figure(&mut self, most: u32) -> u32
        ensures value { result ≡ figure self.old.state most }
        ensures state { self.new.state ≡ stepped (stepped self.old.state) }
        ensures small { result ≤ most }
    {
        self.figure(u64::from(most)) as u32
    }
}

// What draws rows, by the place that a row is to stand at; every row is fine.
// Every row is drawn by its place from the draws of its case, so both go to every pattern.
pub trait DrawsRows<T> {
    ghost fine: { Self → T → Type 0 };

    fn row(&self, place: usize, draws: &mut Draws) -> T
        ensures { fine self.now result };
}

// So many rows, drawn in order; the blank row fills the other places. As a chain it does not prove that they are fine: the closure changes the draws.
// A table and no vector: what is drawn has a most number of rows, and so no case can run out of memory for it.
pub fn draw_rows<T: Copy, P: DrawsRows<T>, const N: usize>(
    pattern: &P,
    count: usize,
    blank: T,
    draws: &mut Draws,
) -> Table<T, N>
    requires { count ≤ N }
    ensures count { length (listed result) ≡ count }
    ensures fine { AllByRecursion (P.DrawsRows.fine pattern.now) (listed result) }
{
    let mut rows = Table::new(blank);
    for place in 0..count {
        rows.push(pattern.row(place, draws));
    }
    rows
}
