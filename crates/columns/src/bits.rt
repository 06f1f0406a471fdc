//! Columns of five bits, the unit from A_0: gathered from five words and scattered to them, looked up, and moved bit by bit.

ghost use Rattle.std.specs.Prelude.{◌≡◌, ℕ, ◌+◌, ◌*◌, ◌%◌, ◌<◌, map, ◌≢◌, slice_index, slice_set};
ghost use Rattle.columns.specs.Columns.{column_bits, held};
ghost use Rattle.std.specs.List.{range_with_len};
ghost use Rattle.sycon.specs.Permutation.{arranged, bit, origin, sbox, substituted};
ghost use Rattle.sycon.specs.Steps.{on_state, pl2_rule};
ghost use Rattle.words.specs.Words.{meant, word_bits};

use std::array;
use tables::{INVERSE_SBOX, PL2, SBOX};
use words::Words;

pub mod engine;
mod tables;

type ColumnBytes = [u8; 64];

// Bit k of a number: digit k of a column, or column k of a word. Digits are numbers below 2 and no bool, since the definition
// counts with them. The bounds of a column and of a word are conditions of each function below, since such numbers are
// counted on the spot and nothing keeps them.
fn digit(x: u64, k: usize) -> u8
    requires { k < 64 }
    ensures value { result ≡ bit x k }
    ensures digit { result < 2 }
{
    ((x >> k) & 1) as u8
}

// The byte with bit j replaced.
fn with_bit(x: u8, j: usize, b: u8) -> u8
    requires place { j < 8 }
    requires digit { b < 2 }
    ensures here { bit result j ≡ b }
    ensures there { (i : ℕ) → i < 8 → (i ≢ j) → bit result i ≡ bit x i }
{
    (x & !(1 << j)) | (b << j)
}

// Bit j of column c becomes b.
fn put_bit(columns: &mut ColumnBytes, c: usize, j: usize, b: u8)
    requires column { c < 64 }
    requires place { j < 8 }
    requires digit { b < 2 }
    ensures here { column_bits columns.new j c ≡ b }
    ensures there { (i d : ℕ) → i < 8 → (d ≡ c → i ≢ j)
        → column_bits columns.new i d ≡ column_bits columns.old i d }
{
    columns[c] = with_bit(columns[c], j, b);
}

// The column that has these digits, A_0's the lowest.
fn joined(digits: [u8; 5]) -> u8
    requires { (j : ℕ) → j < 5 → slice_index digits j < 2 }
    ensures { (j : ℕ) → j < 5 → bit result j ≡ slice_index digits j }
{
    digits
        .iter()
        .rev()
        .fold(0, |column, digit| column << 1 | *digit)
}

// Digit j of column c of five words.
fn word_digit(rows: &[u64; 5], c: usize, j: usize) -> u8
    requires column { c < 64 }
    requires word { j < 5 }
    ensures value { result ≡ word_bits rows.now j c }
    ensures digit { result < 2 }
{
    digit(rows[j], c)
}

// Column c of five words.
fn column_of(rows: &[u64; 5], c: usize) -> u8
    requires { c < 64 }
    ensures { (j : ℕ) → j < 5 → bit result j ≡ word_bits rows.now j c }
{
    joined(array::from_fn(|j| word_digit(rows, c, j)))
}

// Bit j of each column, as a word.
fn row_of(columns: &ColumnBytes, j: usize) -> u64
    requires { j < 8 }
    ensures { (c : ℕ) → c < 64 → bit result c ≡ column_bits columns.now j c }
{
    columns.iter().rev().fold(0, |row, column| {
        row << 1 | u64::from(digit(u64::from(*column), j))
    })
}

fn gather(words: &Words) -> ColumnBytes
    ensures { held result ≡ meant words.now }
{
    let Words { rows } = words;
    array::from_fn(|c| column_of(rows, c))
}

fn scatter(columns: &ColumnBytes) -> Words
    ensures { meant result ≡ held columns.now }
{
    Words {
        rows: array::from_fn(|j| row_of(columns, j)),
    }
}

// Each column replaced by the entry that it numbers.
fn look_up(columns: &ColumnBytes, table: &[u8; 32]) -> ColumnBytes
    ensures { (c : ℕ) → c < 64 → slice_index result c ≡ slice_index table.now (slice_index columns.now c % 32) }
{
    columns.map(|column| table[usize::from(column % 32)])
}

// The table is the definition's.
fn sbox_table() -> &'static [u8; 32]
    ensures { result.now ≡ sbox }
{
    &SBOX
}

// Step 1. What this shares with its inverse is `look_up`; a function for both would take the table and lose the promise.
fn substitute(columns: &ColumnBytes) -> ColumnBytes
    ensures { held result ≡ on_state substituted (held columns.now) }
{
    look_up(columns, sbox_table())
}

// Step 1, taken back.
fn unsubstitute(columns: &ColumnBytes) -> ColumnBytes
    ensures { on_state substituted (held result) ≡ held columns.now }
{
    look_up(columns, &INVERSE_SBOX)
}

// The table has its rule at every entry. It is a function so that this is computed once.
fn pl2_table() -> &'static [u16; 320]
    ensures { result.now ≡ map pl2_rule (range_with_len 0 320) }
{
    &PL2
}

// The column that comes to column c of word j in step 4.
fn origin_of(c: usize, j: usize) -> usize
    requires column { c < 64 }
    requires word { j < 5 }
    ensures at { result ≡ origin j c }
    ensures within { result < 64 }
{
    usize::from(pl2_table()[5 * c + j]) % 64
}

// Digit j of column c after step 4.
fn arranged_digit(columns: &ColumnBytes, c: usize, j: usize) -> u8
    requires column { c < 64 }
    requires word { j < 5 }
    ensures value { result ≡ column_bits columns.now j (origin j c) }
    ensures digit { result < 2 }
{
    digit(u64::from(columns[origin_of(c, j)]), j)
}

// Column c after step 4.
fn arranged_column(columns: &ColumnBytes, c: usize) -> u8
    requires { c < 64 }
    ensures { (j : ℕ) → j < 5 → bit result j ≡ column_bits columns.now j (origin j c) }
{
    joined(array::from_fn(|j| arranged_digit(columns, c, j)))
}

// Step 4.
fn arrange(columns: &ColumnBytes) -> ColumnBytes
    ensures { held result ≡ on_state arranged (held columns.now) }
{
    array::from_fn(|c| arranged_column(columns, c))
}

// Step 4, taken back: bit n, counted through the columns, is put where it came from. That is another column for each word,
// so the new columns come in no order that an iterator has. One loop over the bits has one invariant; two nested loops, over
// columns and digits, would have two.
fn unarrange(columns: &ColumnBytes) -> ColumnBytes
    ensures { on_state arranged (held result) ≡ held columns.now }
{
    let mut moved = [0u8; 64];
    for n in 0..320 {
        let c = n / 5;
        let j = n % 5;
        put_bit(
            &mut moved,
            origin_of(c, j),
            j,
            digit(u64::from(columns[c]), j),
        );
    }
    moved
}

// Byte k of the state, or 0 where there is none.
fn read(columns: &ColumnBytes, k: usize) -> u8
    ensures { result ≡ slice_index (held columns.now) k }
{
    if k < 40 { byte_at(columns, k) } else { 0 }
}

// Byte k becomes b; past the last byte nothing changes.
fn write(columns: &mut ColumnBytes, k: usize, b: u8)
    ensures { held columns.new ≡ slice_set (held columns.old) k b }
{
    if k < 40 {
        put_byte(columns, k, b);
    }
}

// Byte k stands in word k / 8, in eight columns.
fn byte_at(columns: &ColumnBytes, k: usize) -> u8
    requires { k < 40 }
    ensures { result ≡ slice_index (held columns.now) k }
{
    let first = 8 * (k % 8);
    columns[first..first + 8].iter().rev().fold(
        0,
        |byte, column| byte << 1 | digit(u64::from(*column), k / 8),
    )
}

// By number: `iter_mut` over the eight columns was tried, and its proof did not close, since its goals speak of a part that is
// written back.
fn put_byte(columns: &mut ColumnBytes, k: usize, b: u8)
    requires { k < 40 }
    ensures { held columns.new ≡ slice_set (held columns.old) k b }
{
    let j = k / 8;
    let first = 8 * (k % 8);
    for i in 0..8 {
        put_bit(columns, first + i, j, digit(u64::from(b), i));
    }
}
