// Figures beside rows: what was computed for a row stands at the row's place, in a slice of its own.
// Rows stay as they were filed, in fixed memory, and one list of rows has several figures.
ghost use Rattle.std.specs.Prelude.{◌≡◌, ◌^◌, ◌<◌, ◌≤◌, length, sum};
ghost use Rattle.tables.specs.Figures.{figures_if, figure_of};
ghost use Rattle.tables.specs.Keys.{count_if};
ghost use Rattle.tables.specs.Listed.{listed};

use crate::Table;
use crate::keys::Keyed;
use crate::totals::{Whose, total};

// No table of a book has more rows.
pub const MOST_ROWS: usize = 512;

// The figures of the rows that the key fits, in listed order; the blank figure fills the other places.
// Callers are proved to have a figure for each row, and no more rows that fit than the table has places.
pub fn gather_fitting<K: Copy, T: Keyed<K>, F: Copy, const N: usize>(
    rows: &[T],
    key: K,
    figures: &[F],
    blank: F,
) -> Table<F, N>
    requires room { length figures.now ≡ length rows.now }
    requires few { count_if (T.Keyed.fits key) rows.now ≤ N }
    ensures { listed result ≡ figures_if (T.Keyed.fits key) rows.now figures.now }
{
    let mut gathered = Table::new(blank);
    gathered.extend(
        rows.iter()
            .zip(figures)
            .filter(|(row, _)| row.is(key))
            .map(|(_, figure)| *figure),
    );
    gathered
}

// The figure of the first row that the key fits, 0 where it fits none. Callers are proved to have a figure for each row.
pub fn figure_of<K: Copy, T: Keyed<K>>(rows: &[T], key: K, figures: &[u64]) -> u64
    requires { length figures.now ≡ length rows.now }
    ensures { result ≡ figure_of 0 (T.Keyed.fits key) rows.now figures.now }
{
    let mut beside = rows.iter().zip(figures);
    beside
        .find(|(row, _)| row.is(key))
        .map_or(0, |(_, figure)| *figure)
}

// What the figures of the rows that the key fits come to. Callers are proved to have a figure for each row, no more rows than a book's tables take,
// and figures whose total fits.
pub fn total_fitting<K: Copy, T: Keyed<K>>(rows: &[T], key: K, figures: &[u64]) -> u64
    requires room { length figures.now ≡ length rows.now }
    requires few { length rows.now ≤ 512 }
    requires light { sum (figures_if (T.Keyed.fits key) rows.now figures.now) < 2 ^ 64 }
    ensures { result ≡ sum (figures_if (T.Keyed.fits key) rows.now figures.now) }
{
    let gathered: Table<u64, MOST_ROWS> = gather_fitting(rows, key, figures, 0);
    total(gathered.as_slice(), Whose::Everyone)
}
