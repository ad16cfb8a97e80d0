// Tables of bits. A row is ROW_WORDS words of 64 bits, and a table has as many rows as a row has bits.
#![tactic(auto)]

ghost use Rattle.std.specs.Prelude.{◌≡◌, ℕ, ◌+◌, ◌*◌, ◌<◌, ◌≤◌, length, eqb};
ghost use Rattle.bits.specs.Table.{row_words, row_bits, rows, bit, bit_at, union, intersection, difference, column, Alone, Marked, Replaced, RowCopied, Subset};
ghost use Rattle.bits.specs.First.{First};
ghost use Rattle.bits.specs.Last.{Last};
ghost use Rattle.bits.specs.Inner.Words.{BitLength, RowChanged, LastOfWords};

// The number of words in a row. The other sizes follow from it.
pub const ROW_WORDS: usize = 2;

pub const ROW_BITS: usize = 64 * ROW_WORDS;

pub const TABLE_WORDS: usize = ROW_BITS * ROW_WORDS;

pub type Row = [u64; ROW_WORDS];

pub type Table = [u64; TABLE_WORDS];

// Whether the bit at (row, col) is set, in a table of any number of rows.
fn is_set<const N: usize>(t: &[u64; N], row: usize, col: usize) -> bool
    requires in_table { row_words * row + row_words ≤ N }
    requires in_row { col < row_bits }
    ensures { result ≡ eqb (bit_at t.now row col) 1 }
{
    (t[ROW_WORDS * row + col / 64] >> (col % 64)) & 1 == 1
}

// Makes each word of the row what `word` gives for its place in the row and what it was, in a table of any number of rows. Each word is stored, so that the
// compiler can hold a row in registers.
fn change_row<F: Fn(usize, u64) -> u64>(t: &mut [u64], row: usize, word: F)
    requires in_table { row_words * row + row_words ≤ length t.old }
    requires callable { (k w : ℕ) → k < row_words → F.pre word k w }
    ensures { RowChanged (F.post word) t.old t.new row }
{
    let from = ROW_WORDS * row;
    for (k, w) in t[from..from + ROW_WORDS].iter_mut().enumerate() {
        *w = word(k, *w);
    }
}

// Whether the bit at (row, col) is set.
pub fn marked(t: &Table, row: usize, col: usize) -> bool
    requires { (row < rows) × (col < row_bits) }
    ensures { result ≡ eqb (bit_at t.now row col) 1 }
{
    is_set(t, row, col)
}

// Whether the column is in the row m.
pub fn has(m: &Row, col: usize) -> bool
    requires { col < row_bits }
    ensures { result ≡ eqb (bit_at m.now 0 col) 1 }
{
    is_set(m, 0, col)
}

// Sets the bit at (row, col).
pub fn mark(t: &mut Table, row: usize, col: usize)
    requires { (row < rows) × (col < row_bits) }
    ensures { Marked t.old t.new row col }
{
    join(t, row, &column(col));
}

// Adds the column to the row m.
pub fn add(m: &mut Row, col: usize)
    requires { col < row_bits }
    ensures { Marked m.old m.new 0 col }
{
    add_all(m, &column(col));
}

// The row that has this column alone.
pub fn column(col: usize) -> Row
    ensures { Alone col result }
{
    let mut m = [0; ROW_WORDS];
    change_row(&mut m, 0, |k, _| ((col / 64 == k) as u64) << (col % 64));
    m
}

// Adds the columns of the row m to the row of t.
pub fn join(t: &mut Table, row: usize, m: &Row)
    requires { row < rows }
    ensures { Replaced t.old t.new row (union (bit_at t.old row) (bit_at m.now 0)) }
{
    change_row(t, row, |k, w| w | m[k]);
}

// Adds to the row dst of t those columns of the row src of u that are in the mask.
pub fn join_within(t: &mut Table, dst: usize, u: &Table, src: usize, mask: &Row)
    requires { (dst < rows) × (src < rows) }
    ensures { Replaced t.old t.new dst (union (bit_at t.old dst) (intersection (bit_at u.now src) (bit_at mask.now 0))) }
{
    change_row(t, dst, |k, w| w | (u[ROW_WORDS * src + k] & mask[k]));
}

// Adds the columns of the row of t to the row m.
pub fn add_row(m: &mut Row, t: &Table, row: usize)
    requires { row < rows }
    ensures { Replaced m.old m.new 0 (union (bit_at m.old 0) (bit_at t.now row)) }
{
    change_row(m, 0, |k, w| w | t[ROW_WORDS * row + k]);
}

// Adds the columns of the row n to the row m.
pub fn add_all(m: &mut Row, n: &Row)
    ensures { Replaced m.old m.new 0 (union (bit_at m.old 0) (bit_at n.now 0)) }
{
    change_row(m, 0, |k, w| w | n[k]);
}

// Leaves in the row m only the columns of either of two rows of t.
pub fn keep_either(m: &mut Row, t: &Table, a: usize, b: usize)
    requires { (a < rows) × (b < rows) }
    ensures { Replaced m.old m.new 0 (intersection (bit_at m.old 0) (union (bit_at t.now a) (bit_at t.now b))) }
{
    change_row(
        m,
        0,
        |k, w| w & (t[ROW_WORDS * a + k] | t[ROW_WORDS * b + k]),
    );
}

// Replaces the row of t by the row m.
pub fn replace_row(t: &mut Table, row: usize, m: &Row)
    requires { row < rows }
    ensures { Replaced t.old t.new row (bit_at m.now 0) }
{
    change_row(t, row, |k, _| m[k]);
}

// A row of the table, by itself.
pub fn row_of(t: &Table, row: usize) -> Row
    requires { row < rows }
    ensures { RowCopied t.now row result }
{
    let mut m = [0; ROW_WORDS];
    change_row(&mut m, 0, |k, _| t[ROW_WORDS * row + k]);
    m
}

// The bits of w that are not in m.
fn outside(w: u64, m: u64) -> u64
    ensures { (b : ℕ) → b < 64 → bit result b ≡ difference (bit w) (bit m) b }
{
    w & !m
}

// The first marked column of the row that is not in the mask.
pub fn first_outside(t: &Table, row: usize, mask: &Row) -> Option<usize>
    requires { row < rows }
    ensures { First (difference (bit_at t.now row) (bit_at mask.now 0)) result }
{
    for k in 0..ROW_WORDS {
        let b = u64::trailing_zeros(outside(t[ROW_WORDS * row + k], mask[k])) as usize;
        if b < 64 {
            return Some(64 * k + b);
        }
    }
    None
}

// Whether every marked column of the row is in the mask.
pub fn within(t: &Table, row: usize, mask: &Row) -> bool
    requires { row < rows }
    ensures { Subset (bit_at t.now row) (bit_at mask.now 0) result }
{
    first_outside(t, row, mask).is_none()
}

// One more than the last bit of w, or 0 where there is none.
fn length_of(w: u64) -> usize
    ensures { BitLength w result }
{
    64 - u64::leading_zeros(w) as usize
}

// The last column of the row whose words `word` gives.
fn last<F: Fn(usize) -> u64>(word: F) -> Option<usize>
    requires { (k : ℕ) → k < row_words → F.pre word k }
    ensures { LastOfWords (F.post word) result }
{
    for k in (0..ROW_WORDS).rev() {
        let n = length_of(word(k));
        if n > 0 {
            return Some(64 * k + n - 1);
        }
    }
    None
}

// The last marked column of the row that is in the mask.
pub fn last_within(t: &Table, row: usize, mask: &Row) -> Option<usize>
    requires { row < rows }
    ensures { Last (intersection (bit_at t.now row) (bit_at mask.now 0)) result }
{
    last(|k| t[ROW_WORDS * row + k] & mask[k])
}

// The last column of the row m that is not in the mask.
pub fn last_outside(m: &Row, mask: &Row) -> Option<usize>
    ensures { Last (difference (bit_at m.now 0) (bit_at mask.now 0)) result }
{
    last(|k| outside(m[k], mask[k]))
}
