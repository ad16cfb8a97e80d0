// The class tests: serial, relatively atomic, relatively serial, conflict serializable.
#![tactic(auto)]

ghost use Rattle.std.specs.Prelude.{◌<◌, ◌≡◌, ℕ, true, false, take};
ghost use Rattle.theory.specs.History.{Serial};
ghost use Rattle.book.specs.Book.{Valid, contents_of};
ghost use Rattle.book.specs.Meaning.{SerialHistory, RelativelyAtomicHistory, RelativelySerialHistory, ConflictSerializableHistory};
ghost use Rattle.theory.specs.Answers.{Answers};
ghost use Rattle.dependence.specs.Inner.Tables.{HistoryOf};
ghost use Rattle.graph.specs.Inner.Arcs.{Rowed};
ghost use Rattle.classes.specs.Tested.{TestedAs};
ghost use Rattle.classes.specs.Inner.Tables.{InterleavedIn, ViolatesIn, AtomicBy, RelativelySerialBy};
ghost use Rattle.classes.specs.Inner.Books.{without_cuts};

use bits::{Row, Table};
use book::{Book, Refusal};
use graph::Units;

// What a call that reads a book and answers yes or no says: the reader's refusal, or whether it is so.
pub type Tested = Result<bool, Refusal>;

// Whether each run's steps stand together: a step whose run came before follows a step of the same run.
fn stands_together(history: &[u8; Book::STEPS], n: usize) -> bool
    requires { HistoryOf history.now n }
    ensures { Answers (Serial (take n history.now)) result }
{
    let mut seen: Row = [0; bits::ROW_WORDS];
    for p in 0..n {
        let r = dependence::run_of(history, p);
        if bits::has(&seen, r) {
            if dependence::run_of(history, p - 1) != r {
                return false;
            }
        } else {
            bits::add(&mut seen, r);
        }
    }
    true
}

// Whether no two places b before c of the first n pass the test.
fn no_pair<F: Fn(usize, usize) -> bool>(n: usize, test: F) -> bool
    requires { (b c : ℕ) → b < c → c < n → F.pre test b c }
    ensures none { result ≡ true → (c : ℕ) → c < n → (b : ℕ) → b < c → F.post test b c false }
    ensures some { result ≡ false → (c : ℕ) × ((c < n) × ((b : ℕ) × ((b < c) × F.post test b c true))) }
{
    for c in 0..n {
        for b in 0..c {
            if test(b, c) {
                return false;
            }
        }
    }
    true
}

// Whether b is interleaved with c's unit.
fn interleaved(history: &[u8; Book::STEPS], n: usize, firsts: &Units, b: usize, c: usize) -> bool
    requires { HistoryOf history.now n × Rowed n firsts.now × (b < n) × (c < n) }
    ensures { Answers (InterleavedIn history.now firsts.now b c) result }
{
    let o = dependence::run_of(history, b);
    dependence::run_of(history, c) != o && graph::place_in(firsts, n, c, o) < b
}

// Whether no step is interleaved with a unit of another run.
fn atomic_by(history: &[u8; Book::STEPS], n: usize, firsts: &Units) -> bool
    requires { HistoryOf history.now n × Rowed n firsts.now }
    ensures { AtomicBy history.now n firsts.now result }
{
    no_pair(n, |b, c| interleaved(history, n, firsts, b, c))
}

// Whether b is interleaved with c's unit, and depends on a step of it or a step of it on b.
fn violates(
    history: &[u8; Book::STEPS],
    n: usize,
    firsts: &Units,
    lasts: &Units,
    dep: &Table,
    b: usize,
    c: usize,
) -> bool
    requires { HistoryOf history.now n × Rowed n firsts.now × Rowed n lasts.now × (b < n) × (c < n) }
    ensures { Answers (ViolatesIn history.now firsts.now lasts.now dep.now b c) result }
{
    let o = dependence::run_of(history, b);
    interleaved(history, n, firsts, b, c)
        && (bits::marked(dep, b, graph::place_in(firsts, n, c, o))
            || bits::marked(dep, graph::place_in(lasts, n, c, o), b))
}

// Whether no step depends on a unit of another run that it is interleaved with, nor the unit on it.
fn relatively_serial_by(
    history: &[u8; Book::STEPS],
    n: usize,
    firsts: &Units,
    lasts: &Units,
    dep: &Table,
) -> bool
    requires { HistoryOf history.now n × Rowed n firsts.now × Rowed n lasts.now }
    ensures { RelativelySerialBy history.now n firsts.now lasts.now dep.now result }
{
    no_pair(n, |b, c| violates(history, n, firsts, lasts, dep, b, c))
}

// Whether a valid book's history is serial.
#[tactic(auto, using(dependence::proofs::BookTables::book_history, crate::proofs::BookLaws::book_serial))]
pub fn is_serial(b: Book) -> bool
    requires { Valid b }
    ensures { Answers (SerialHistory (contents_of b)) result }
{
    let history = b.history;
    stands_together(&history, b.done)
}

// Whether a valid book's history is relatively atomic.
// It makes the units alone: a whole graph takes more than twice as long.
pub fn is_relatively_atomic(b: Book) -> bool
    requires { Valid b }
    ensures { Answers (RelativelyAtomicHistory (contents_of b)) result }
{
    let mut firsts: Units = [0; graph::UNITS_SIZE];
    let mut lasts: Units = [0; graph::UNITS_SIZE];
    graph::units_lent(&b, &mut firsts, &mut lasts);
    atomic_by(&b.history, b.done, &firsts)
}

// Whether a valid book's history is relatively serial.
// Its tables are no graph: with one, histories of few steps take longer.
#[tactic(auto, using(dependence::proofs::BookTables::book_history, crate::proofs::BookLaws::book_firsts, crate::proofs::BookLaws::book_lasts, crate::proofs::BookLaws::book_relatively_serial))]
pub fn is_relatively_serial(b: Book) -> bool
    requires { Valid b }
    ensures { Answers (RelativelySerialHistory (contents_of b)) result }
{
    let mut dep: Table = [0; bits::TABLE_WORDS];
    dependence::dependences_lent(&b, &mut dep);
    let mut firsts: Units = [0; graph::UNITS_SIZE];
    let mut lasts: Units = [0; graph::UNITS_SIZE];
    graph::units_lent(&b, &mut firsts, &mut lasts);
    relatively_serial_by(&b.history, b.done, &firsts, &lasts, &dep)
}

// The book without its cuts.
fn without_cuts(b: Book) -> Book
    ensures { result ≡ without_cuts b }
{
    Book {
        cuts: [0; Book::CUTS_SIZE],
        ..b
    }
}

// Whether a valid book's history is conflict serializable: the judge passes it without its cuts.
#[tactic(auto, using(crate::proofs::UncutLaws::valid_uncut, crate::proofs::UncutLaws::uncut_answer))]
pub fn is_conflict_serializable(b: Book) -> bool
    requires { Valid b }
    ensures { Answers (ConflictSerializableHistory (contents_of b)) result }
{
    judge::passes(without_cuts(b))
}

// Whether the history of the book is serial.
#[tactic(auto, using(crate::proofs::BookLaws::tested))]
pub fn serial(s: &[u8]) -> Tested
    ensures { TestedAs SerialHistory s.now result }
{
    let b = reader::read(s)?;
    Ok(is_serial(b))
}

// Whether the history of the book is relatively atomic.
pub fn relatively_atomic(s: &[u8]) -> Tested
    ensures { TestedAs RelativelyAtomicHistory s.now result }
{
    let b = reader::read(s)?;
    Ok(is_relatively_atomic(b))
}

// Whether the history of the book is relatively serial.
pub fn relatively_serial(s: &[u8]) -> Tested
    ensures { TestedAs RelativelySerialHistory s.now result }
{
    let b = reader::read(s)?;
    Ok(is_relatively_serial(b))
}

// Whether the history of the book is conflict serializable.
pub fn conflict_serializable(s: &[u8]) -> Tested
    ensures { TestedAs ConflictSerializableHistory s.now result }
{
    let b = reader::read(s)?;
    Ok(is_conflict_serializable(b))
}
