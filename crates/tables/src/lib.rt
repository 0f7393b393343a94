// Tables of a fixed size, and what the rows of one owner carry together.
#![tactic(auto)]

ghost use Rattle.std.specs.Prelude.{◌≡◌, ◌≤◌, length};

// At most N rows, in the order in which they came; the first `len` of them are listed.
#[derive(Drop)]
pub struct Table<T, const N: usize> {
    rows: [T; N],
    len: usize,
    ghost within: { len ≤ length rows },
    ghost whole: { length rows ≡ N },
}

pub mod bounds;
pub mod figures;
pub mod filing;
pub mod keys;
mod rows;
pub mod totals;
