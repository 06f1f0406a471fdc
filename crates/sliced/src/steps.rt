//! Steps 1 and 4 of a round on five words, there and back, each on all 64 columns at once.

ghost use Rattle.std.specs.Prelude.{◌≡◌, ℕ, ◌<◌};
ghost use Rattle.sliced.specs.Rows.{gathered};
ghost use Rattle.sycon.specs.Permutation.{arranged, bit, origin, substituted};
ghost use Rattle.sycon.specs.Steps.{on_state};
ghost use Rattle.words.specs.Words.{meant, word_bits};

use std::array;
use words::Words;

pub mod engine;

// The S-box on all columns.
fn sbox(words: &Words) -> Words
    ensures { meant result ≡ on_state substituted (meant words.now) }
{
    let [a0, a1, a2, a3, a4] = words.rows;
    let t0 = a2 ^ a4;
    let t1 = t0 ^ a1;
    let t2 = a1 ^ a3;
    let t3 = a0 ^ a4;
    Words {
        rows: [
            t3 ^ (t1 & a3),
            (!a1 & a3) ^ t1 ^ (!t2 & a0),
            (!t3 & a2) ^ t2,
            (!t0 & a3) ^ a0 ^ !a2,
            (!a4 & a0) ^ t2,
        ],
    }
}

// The words that the S-box takes to these.
fn inverse_sbox(words: &Words) -> Words
    ensures { on_state substituted (meant result) ≡ meant words.now }
{
    let [b0, b1, b2, b3, b4] = words.rows;
    let t0 = b0 ^ b3;
    let t1 = t0 ^ b1;
    let a0 = !((b1 | b3) ^ b2 ^ ((t1 & !b3) | b4));
    let a3 = !(a0 | b4) ^ t1;
    let a4 = (a3 & t0) ^ a0 ^ b0;
    let a1 = (!a4 & a0) ^ a3 ^ b4;
    let a2 = !a4 ^ t0 ^ (!a1 & a3);
    Words {
        rows: [a0, a1, a2, a3, a4],
    }
}

// A rotation to the right, and the mask that it is cut down to.
type Term = (u32, u64);

// For each word the terms (k, mask) of step 4: column c, where the mask has it, comes from column c + k.
const ARRANGEMENT: [&[Term]; 5] = [
    &[
        (3, 0x0000_E000_00FF_1F00),
        (11, 0xFF00_001F_FF00_0000),
        (19, 0x0000_1F00_0000_0000),
        (27, 0x00E0_0000_0000_0000),
        (43, 0x001F_0000_0000_0000),
        (51, 0x0000_0000_0000_E0FF),
        (59, 0x0000_00E0_0000_0000),
    ],
    &[
        (4, 0x0000_0000_0000_00FF),
        (20, 0x0000_0000_F000_0000),
        (36, 0xF0FF_0000_0F00_0000),
        (44, 0x0000_00F0_00F0_FF00),
        (52, 0x0F00_0000_0000_0000),
        (60, 0x0000_FF0F_000F_0000),
    ],
    &[
        (2, 0x0000_0000_0000_C000),
        (10, 0x003F_0000_FFC0_0000),
        (18, 0x0000_C000_0000_3F00),
        (26, 0xFF00_0000_003F_0000),
        (34, 0x0000_3FFF_0000_0000),
        (50, 0x0000_0000_0000_00FF),
        (58, 0x00C0_0000_0000_0000),
    ],
    &[
        (7, 0xFEFF_FE00_0100_0000),
        (15, 0x0000_0000_00FE_0000),
        (23, 0x0100_0100_0000_00FF),
        (31, 0x0000_0000_0001_FF00),
        (39, 0x0000_00FF_0000_0000),
        (55, 0x0000_0000_FE00_0000),
    ],
    &[
        (5, 0x0000_F800_0000_0000),
        (13, 0x0000_0007_0000_00F8),
        (21, 0x0000_0700_0000_0000),
        (29, 0x0000_0000_0000_0007),
        (37, 0x00FF_0000_0000_0000),
        (45, 0xFF00_0000_FFF8_FF00),
        (61, 0x0000_00F8_0007_0000),
    ],
];

// The terms that take step 4 back.
const UNARRANGEMENT: [&[Term]; 5] = [
    &[
        (5, 0x0000_0007_0000_0000),
        (13, 0x07F8_0000_0000_0007),
        (21, 0x0000_0000_F800_0000),
        (37, 0x0000_0000_0007_0000),
        (45, 0xF800_0000_0000_0000),
        (53, 0x0000_FFF8_0000_07F8),
        (61, 0x0007_0000_07F8_F800),
    ],
    &[
        (4, 0x0000_0FF0_F000_F000),
        (12, 0x0000_F000_0000_0000),
        (20, 0x0FF0_0000_000F_000F),
        (28, 0xF000_000F_0FF0_0000),
        (44, 0x000F_0000_0000_0000),
        (60, 0x0000_0000_0000_0FF0),
    ],
    &[
        (6, 0x0003_0000_0000_0000),
        (14, 0x03FC_0000_0000_0000),
        (30, 0x0000_0000_0000_FFFC),
        (38, 0x0000_FC00_03FC_0000),
        (46, 0x0000_0000_FC00_0003),
        (54, 0xFC00_03FF_0000_0000),
        (62, 0x0000_0000_0003_0000),
    ],
    &[
        (9, 0x0000_0000_007F_0000),
        (25, 0x0000_0000_0000_7F80),
        (33, 0x0000_FF80_0000_0000),
        (41, 0x8000_0000_7F80_8000),
        (49, 0x0000_007F_0000_0000),
        (57, 0x7FFF_0000_8000_007F),
    ],
    &[
        (3, 0x0000_001F_0000_E000),
        (19, 0x1FE0_1FE0_0000_1FFF),
        (27, 0x0000_0000_1FE0_0000),
        (35, 0x0000_0000_E000_0000),
        (43, 0xE000_0000_0000_0000),
        (51, 0x0000_E000_001F_0000),
        (59, 0x001F_0000_0000_0000),
    ],
];

// Rotations of the word, each cut down to its mask, in one word.
fn gather(x: u64, terms: &[Term]) -> u64
    ensures { (c : ℕ) → c < 64 → bit result c ≡ gathered terms.now (bit x) c }
{
    terms
        .iter()
        .fold(0, |row, (k, mask)| row ^ (x.rotate_right(*k) & *mask))
}

// Word j after step 4. The table is named here and in `unarranged_row`, and is no argument of one function for both: a table
// that comes as an argument is read at run time, and the rounds then take twice as long. A trait with the table as its
// constant would be longer: a constant in contracts is given twice, in the code and as the trait's ghost member, so both
// tables would stand twice.
fn arranged_row(rows: &[u64; 5], j: usize) -> u64
    requires { j < 5 }
    ensures { (c : ℕ) → c < 64 → bit result c ≡ arranged (word_bits rows.now) j c }
{
    gather(rows[j], ARRANGEMENT[j])
}

// Step 4.
fn arrange(words: &Words) -> Words
    ensures { meant result ≡ on_state arranged (meant words.now) }
{
    let Words { rows } = words;
    Words {
        rows: array::from_fn(|j| arranged_row(rows, j)),
    }
}

// The row that step 4 takes to word j.
fn unarranged_row(rows: &[u64; 5], j: usize) -> u64
    requires { j < 5 }
    ensures { (c : ℕ) → c < 64 → bit result (origin j c) ≡ word_bits rows.now j c }
{
    gather(rows[j], UNARRANGEMENT[j])
}

// Step 4, taken back.
fn unarrange(words: &Words) -> Words
    ensures { on_state arranged (meant result) ≡ meant words.now }
{
    let Words { rows } = words;
    Words {
        rows: array::from_fn(|j| unarranged_row(rows, j)),
    }
}
