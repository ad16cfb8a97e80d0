// Whether the tables of a book, of any bytes, are those of a valid one, and whether those of a gate agree about its runs taken back.
#![tactic(auto)]

ghost use Rattle.std.specs.Prelude.{◌≡◌, ◌≤◌, length, take};
ghost use Rattle.theory.specs.Answers.{Answers};
ghost use Rattle.theory.specs.Lists.{sum};
ghost use Rattle.theory.specs.History.{count};
ghost use Rattle.book.specs.Format.{run_limit, step_limit};
ghost use Rattle.book.specs.Book.{code_limit, Flags, Column, RunsValid, Valid};
ghost use Rattle.valid.specs.TakenBack.{TakenBackAgree};
ghost use Rattle.valid.specs.Inner.Tables.{Largest, Counted, CountsValid, HistoryWithin};

use book::Book;

// The largest of the bytes from `start` on; 0 where there are none.
pub fn largest(s: &[u8], start: usize) -> u8
    ensures { Largest s.now start result }
{
    let mut m: u8 = 0;
    for &x in &s[start.min(s.len())..] {
        m = m.max(x);
    }
    m
}

// Numbers of 64 bits have so many quotients by Book::TOUCHES.
const QUOTIENTS: u64 = 17592186044416;

// Where this is added, the quotient reaches QUOTIENTS of each number that is no code of a step, and of no other.
const LIFT: u64 = QUOTIENTS - 1 - Book::TOUCHES;

// How many are no codes of steps, without a comparison: the vectors of x86-64 have none of 64 bits.
fn others_in(s: &[u64]) -> u64
    ensures { Counted s.now code_limit 0 result }
{
    let mut n: u64 = 0;
    for &x in s {
        n += (x / Book::TOUCHES + LIFT) / QUOTIENTS;
    }
    n
}

// How many from `start` on are not 0.
fn set_from(s: &[u64], start: usize) -> u64
    ensures { Counted s.now 1 start result }
{
    let mut n: u64 = 0;
    for &x in &s[start.min(s.len())..] {
        if x != 0 {
            n += 1;
        }
    }
    n
}

// Whether each is 0 or 1.
#[tactic(auto, using(crate::proofs::Testing::flags_answer))]
fn flags_in(s: &[u8]) -> bool
    ensures { Answers (Flags (length s.now) s.now) result }
{
    largest(s, 0) <= 1
}

// The same, of a table by value.
pub fn are_flags(l: [u8; Book::RUNS]) -> bool
    ensures { Answers (Flags run_limit l) result }
{
    flags_in(&l)
}

// Whether each is below the limit, and from `end` on 0.
#[tactic(auto, using(crate::proofs::Testing::column_answer))]
fn is_column(s: &[u8], limit: u8, end: usize) -> bool
    ensures { Answers (Column (length s.now) limit end s.now) result }
{
    (largest(s, 0) < limit) & (largest(s, end) == 0)
}

// Whether each is the code of a step, and from `end` on 0.
fn are_codes(s: &[u64], end: usize) -> bool
    ensures { Answers (Column (length s.now) code_limit end s.now) result }
{
    (others_in(s) == 0) & (set_from(s, end) == 0)
}

// The sum of a number for each run.
fn sum_of(s: &[u8]) -> usize
    requires { length s.now ≤ run_limit }
    ensures { result ≡ sum s.now }
{
    let mut total: usize = 0;
    for &x in s {
        total += book::wide(x);
    }
    total
}

// How often x stands in the first n.
fn count_of(s: &[u8], n: usize, x: u8) -> u8
    requires { (n ≤ step_limit) × (n ≤ length s.now) }
    ensures { result ≡ count (take n s.now) x }
{
    let mut found: u8 = 0;
    for &y in &s[..n] {
        if y == x {
            found += 1;
        }
    }
    found
}

// Whether the book's runs and steps are valid.
#[tactic(auto, using(crate::proofs::Testing::runs_answer))]
fn runs_valid(b: &Book) -> bool
    ensures { Answers (RunsValid b.now.lengths b.now.steps b.now.declared b.now.total) result }
{
    let within = (b.declared <= Book::RUNS) & (b.total <= Book::STEPS);
    let lengths = is_column(&b.lengths, Book::RUN_STEPS as u8 + 1, b.declared);
    let columns = lengths & are_codes(&b.steps, b.total);
    within & columns & (sum_of(&b.lengths) == b.total)
}

// Whether each run's count is that of its done steps, and not above its length.
fn counts_valid(b: &Book) -> bool
    requires { b.now.done ≤ step_limit }
    ensures { Answers (CountsValid b.now.lengths b.now.counts b.now.history b.now.done run_limit) result }
{
    for (r, &n) in b.counts.iter().enumerate() {
        if n != count_of(&b.history, b.done, r as u8) {
            return false;
        }
        if b.lengths[r] < n {
            return false;
        }
    }
    true
}

// Whether the book's history is valid.
#[tactic(auto, using(crate::proofs::Testing::history_answer))]
fn history_valid(b: &Book) -> bool
    ensures { Answers (HistoryWithin b.now.lengths b.now.counts b.now.history b.now.done) result }
{
    if Book::STEPS < b.done {
        return false;
    }
    let column = is_column(&b.history, Book::RUNS as u8, b.done);
    column & (sum_of(&b.counts) == b.done) & counts_valid(b)
}

// Whether the tables are those of a valid book.
#[tactic(auto, using(crate::proofs::Testing::valid_answer))]
pub fn is_valid(b: Book) -> bool
    ensures { Answers (Valid b) result }
{
    let flags = flags_in(&b.pairs) & flags_in(&b.cuts);
    flags & runs_valid(&b) & history_valid(&b)
}

// Whether each run taken back is withdrawn and has no step kept.
#[tactic(auto, using(crate::proofs::Scans::not_withdrawn, crate::proofs::Scans::step_kept_of_it))]
pub fn taken_back_agree(
    taken_back: [u8; Book::RUNS],
    withdrawn: [u8; Book::RUNS],
    counts: [u8; Book::RUNS],
) -> bool
    ensures { Answers (TakenBackAgree taken_back withdrawn counts) result }
{
    for (r, &flag) in taken_back.iter().enumerate() {
        if flag != 0 {
            if withdrawn[r] == 0 {
                return false;
            }
            if counts[r] != 0 {
                return false;
            }
        }
    }
    true
}
