// Dependence, step by step as a history is read, and direct dependence by runs.
#![tactic(auto)]

ghost use Rattle.std.specs.Prelude.{◌≡◌, ◌+◌, ◌*◌, ◌<◌, ◌≤◌, length, take, get_or};
ghost use Rattle.theory.specs.Deck.{single, listed};
ghost use Rattle.theory.specs.Relative.{Depends};
ghost use Rattle.theory.specs.Lists.{sum};
ghost use Rattle.book.specs.Format.{kind_limit, run_limit, step_limit};
ghost use Rattle.book.specs.Book.{code_limit, as_touch, as_step, pairs_of, Valid, contents_of};
ghost use Rattle.book.specs.Meaning.{conflict_of};
ghost use Rattle.dependence.specs.Marks.{Marks};
ghost use Rattle.dependence.specs.Catalogue.{base, run_part, parts};
ghost use Rattle.dependence.specs.Dependence.{Blank, KindsLow, StepRead, StepAnswered};
ghost use Rattle.dependence.specs.Inner.Reading.{PartRow, HomesAs, OtherHomeRow, PartsEntered, KindsJoined, KindJoined, TouchJoined, StepEntered, Finds, TouchConflicts, StepFinds, ConflictsWith, Linked, RowFrom, ReadFromCodes, StepLinked, LinkedFromCodes};
ghost use Rattle.dependence.specs.Inner.Tables.{Small, HistoryOf, NumberAt, StepAt, NextTaken, Starts, RunsRoom, RunRows, RunLinked};
ghost use Rattle.bits.specs.Table.{RowCopied};

use bits::{Row, Table};
use book::{Book, Step, Touch};

// Runs and the digits of a position are below this.
const BASE: usize = 16;

// The parts of a touch that a catalogue of the places read tells apart: the digits of its position, the lowest first, its run, whether it homes.
const DIGIT_PARTS: usize = 4;

const RUN_PART: usize = 4;

const HOME_PART: usize = 5;

const PARTS: usize = 6;

// Behind the rows of the parts a catalogue has one for each kind, of the places whose kind is paired with it.
const PART_ROWS: usize = PARTS * BASE;

// The run of place p.
pub fn run_of(history: &[u8; Book::STEPS], p: usize) -> usize
    requires { (p < step_limit) × Small run_limit history.now }
    ensures { NumberAt history.now p run_limit result }
{
    book::wide(history[p])
}

// The step at index i of a table of codes.
fn step_at(steps: &[u64; Book::STEPS], i: usize) -> Step
    requires { (i < step_limit) × Small code_limit steps.now }
    ensures { StepAt steps.now i result }
{
    book::step_coded(steps[i])
}

// Where each run's steps begin among the book's steps.
fn starts(lengths: &[u8; Book::RUNS], t: &mut [u8; Book::RUNS])
    requires { sum lengths.now ≤ step_limit }
    ensures { Starts lengths.now t.new }
{
    let mut s = 0;
    for (r, &length) in lengths.iter().enumerate() {
        t[r] = s;
        s += length;
    }
}

// Whether kinds a and b are a listed pair.
fn is_listed(pairs: &[u8; Book::PAIRS_SIZE], a: usize, b: usize) -> bool
    requires { (a < kind_limit) × (b < kind_limit) }
    ensures { result ≡ listed (pairs_of pairs.now) a b }
{
    book::wide(pairs[a * Book::KINDS + b]) + book::wide(pairs[b * Book::KINDS + a]) != 0
}

// 1 if the touch homes, else 0.
fn homes(x: Touch) -> usize
    ensures { HomesAs (as_touch x) result }
{
    (x.position == Book::HOME) as usize
}

// The catalogue's row of the part k of a touch of run r.
fn part_row(r: usize, x: Touch, k: usize) -> usize
    requires { (r < run_limit) × (k < parts) }
    ensures { PartRow r (as_touch x) k result }
{
    let position = x.position as usize;
    let part = match k {
        0 => position % BASE,
        1 => position / 16 % BASE,
        2 => position / 256 % BASE,
        3 => position / 4096,
        RUN_PART => r,
        _ => homes(x),
    };
    k * BASE + part
}

// The catalogue's row of the places that home if x does not, and of those that do not if x does.
fn other_home_row(x: Touch) -> usize
    ensures { OtherHomeRow (as_touch x) result }
{
    HOME_PART * BASE + (1 - homes(x))
}

// Enters the touch x of run r, by its parts, as the place whose column alone the row `column` has.
fn enter_parts(catalogue: &mut Table, column: &Row, r: usize, x: Touch)
    requires { r < run_limit }
    ensures { PartsEntered catalogue.old catalogue.new column.now r (as_touch x) parts }
{
    for k in 0..PARTS {
        bits::join(catalogue, part_row(r, x, k), column);
    }
}

// Enters the place in the row of kind k, if k is paired with `kind`.
fn enter_kind(
    pairs: &[u8; Book::PAIRS_SIZE],
    catalogue: &mut Table,
    column: &Row,
    kind: usize,
    k: usize,
)
    requires { (kind < kind_limit) × (k < kind_limit) }
    ensures { KindJoined pairs.now catalogue.old catalogue.new column.now kind k }
{
    if is_listed(pairs, kind, k) {
        bits::join(catalogue, PART_ROWS + k, column);
    }
}

// Enters the place in the rows of the kinds that are paired with `kind`.
fn enter_kinds(pairs: &[u8; Book::PAIRS_SIZE], catalogue: &mut Table, column: &Row, kind: usize)
    requires { kind < kind_limit }
    ensures { KindsJoined pairs.now catalogue.old catalogue.new column.now kind kind_limit }
{
    for k in 0..Book::KINDS {
        enter_kind(pairs, catalogue, column, kind, k);
    }
}

// Enters the touch x of run r. Each row is stored whole, as it is read later: a row of which a word alone was stored just before is slower to read.
fn enter(pairs: &[u8; Book::PAIRS_SIZE], catalogue: &mut Table, column: &Row, r: usize, x: Touch)
    requires { (r < run_limit) × (x.kind < kind_limit) }
    ensures { TouchJoined pairs.now catalogue.old catalogue.new column.now r (as_touch x) }
{
    enter_parts(catalogue, column, r, x);
    enter_kinds(pairs, catalogue, column, book::wide(x.kind));
}

// Enters the step x of run r as place q: its first touch, and the second, if it is a transfer, in a catalogue of its own, there under run 0, so that one row
// has all places of transfers.
fn enter_step(
    pairs: &[u8; Book::PAIRS_SIZE],
    catalogue: &mut Table,
    seconds: &mut Table,
    q: usize,
    r: usize,
    x: Step,
)
    requires { (q < step_limit) × (r < run_limit) × KindsLow (as_step x) }
    ensures { StepEntered pairs.now catalogue.old catalogue.new seconds.old seconds.new q r (as_step x) }
{
    let column = bits::column(q);
    match x {
        Step::Single(t) => {
            enter(pairs, catalogue, &column, r, t);
        }
        Step::Transfer(t, u) => {
            enter(pairs, catalogue, &column, r, t);
            enter(pairs, seconds, &column, 0, u);
        }
    }
}

// The places of a catalogue whose touch conflicts with the touch x: of a kind paired with its own, and at the same position. That is where each digit is the
// same, or where exactly one of the two homes; where both home, their digits are the same.
fn conflicting(catalogue: &Table, x: Touch) -> Row
    requires { x.kind < kind_limit }
    ensures { Finds (TouchConflicts (as_touch x)) catalogue.now result }
{
    let other = other_home_row(x);
    let mut m = bits::row_of(catalogue, PART_ROWS + book::wide(x.kind));
    for k in 0..DIGIT_PARTS {
        bits::keep_either(&mut m, catalogue, part_row(0, x, k), other);
    }
    m
}

// The places any touch of whose step conflicts with the touch x. The first row of runs of the catalogue of second touches has all places of transfers: where
// there is none, no second touch is looked for.
fn touching(catalogue: &Table, seconds: &Table, x: Touch) -> Row
    requires { x.kind < kind_limit }
    ensures { StepFinds (ConflictsWith (single (as_touch x))) catalogue.now seconds.now result }
{
    let mut m = conflicting(catalogue, x);
    let none = [0; bits::ROW_WORDS];
    if bits::within(seconds, RUN_PART * BASE, &none) {
        return m;
    }
    let n = conflicting(seconds, x);
    bits::add_all(&mut m, &n);
    m
}

// The places that a step x conflicts with where they are of another run: any touch of the one with any touch of the other.
fn conflicting_steps(catalogue: &Table, seconds: &Table, x: Step) -> Row
    requires { KindsLow (as_step x) }
    ensures { StepFinds (ConflictsWith (as_step x)) catalogue.now seconds.now result }
{
    match x {
        Step::Single(t) => touching(catalogue, seconds, t),
        Step::Transfer(t, u) => {
            let mut m = touching(catalogue, seconds, t);
            let n = touching(catalogue, seconds, u);
            bits::add_all(&mut m, &n);
            m
        }
    }
}

// The places on which a step x of run r directly depends: those that it conflicts with, and those of its run.
fn linked_row(catalogue: &Table, seconds: &Table, r: usize, x: Step) -> Row
    requires { (r < run_limit) × KindsLow (as_step x) }
    ensures { StepFinds (Linked r (as_step x)) catalogue.now seconds.now result }
{
    let mut m = conflicting_steps(catalogue, seconds, x);
    bits::add_row(&mut m, catalogue, RUN_PART * BASE + r);
    m
}

// The places on which a place depends, from those on which it directly depends, the last first. One that is in the row already adds nothing: with it
// the row has all that it depends on.
fn dependence_row(dep: &Table, linked: &Row) -> Row
    ensures { RowFrom dep.now linked.now result }
{
    let mut m = [0; bits::ROW_WORDS];
    let mut end = bits::ROW_BITS;
    while end > 0 {
        match bits::last_outside(linked, &m) {
            Some(p) => {
                bits::add_row(&mut m, dep, p);
                bits::add(&mut m, p);
                end = p;
            }
            None => {
                return m;
            }
        }
    }
    m
}

// Reads one more step, x of run r, as place q.
fn read_in_range(
    pairs: &[u8; Book::PAIRS_SIZE],
    q: usize,
    r: usize,
    x: Step,
    catalogue: &mut Table,
    seconds: &mut Table,
    dep: &mut Table,
)
    requires { (q < step_limit) × (r < run_limit) × KindsLow (as_step x) }
    ensures { StepRead pairs.now catalogue.old catalogue.new seconds.old seconds.new dep.old dep.new q r (as_step x) }
{
    let linked = linked_row(catalogue, seconds, r, x);
    let row = dependence_row(dep, &linked);
    bits::replace_row(dep, q, &row);
    enter_step(pairs, catalogue, seconds, q, r, x);
}

// Reads one more step, x of run r, as place q, for the rows of the runs: row r takes the places on which x directly depends.
fn link_in_range(
    pairs: &[u8; Book::PAIRS_SIZE],
    q: usize,
    r: usize,
    x: Step,
    catalogue: &mut Table,
    seconds: &mut Table,
    links: &mut Table,
)
    requires { (q < step_limit) × (r < run_limit) × KindsLow (as_step x) }
    ensures { StepLinked pairs.now catalogue.old catalogue.new seconds.old seconds.new links.old links.new q r (as_step x) }
{
    let linked = linked_row(catalogue, seconds, r, x);
    bits::join(links, r, &linked);
    enter_step(pairs, catalogue, seconds, q, r, x);
}

// Reads one more step, x of run r, as place q, and answers true; where there is no such place, run or kind, it answers false and changes nothing. The
// catalogues of first and of second touches and the dependence table are those of the steps read before, at first all zero.
pub fn read_step(
    pairs: &[u8; Book::PAIRS_SIZE],
    q: usize,
    r: usize,
    x: Step,
    catalogue: &mut Table,
    seconds: &mut Table,
    dep: &mut Table,
) -> bool
    ensures { StepAnswered pairs.now catalogue.old catalogue.new seconds.old seconds.new dep.old dep.new q r (as_step x) result }
{
    if q >= Book::STEPS {
        return false;
    }
    if r >= Book::RUNS {
        return false;
    }
    if book::kinds_low(x) {
        read_in_range(pairs, q, r, x, catalogue, seconds, dep);
        return true;
    }
    false
}

// The run of place q and the step that is done there, the next of the run.
fn next_step(
    history: &[u8; Book::STEPS],
    steps: &[u64; Book::STEPS],
    next: &mut [u8; Book::RUNS],
    q: usize,
) -> (usize, Step)
    requires in_range { (q < step_limit) × Small run_limit history.now × Small code_limit steps.now }
    requires left { get_or next.old (get_or history.now q 0) 0 < step_limit }
    ensures { NextTaken history.now steps.now next.old next.new q result.0 result.1 }
{
    let r = run_of(history, q);
    let i = next[r];
    next[r] = i + 1;
    (r, step_at(steps, book::wide(i)))
}

// Reads the first n steps of a history, one by one, into tables that mark nothing yet.
pub fn read_steps(
    history: &[u8; Book::STEPS],
    n: usize,
    lengths: &[u8; Book::RUNS],
    steps: &[u64; Book::STEPS],
    pairs: &[u8; Book::PAIRS_SIZE],
    catalogue: &mut Table,
    seconds: &mut Table,
    dep: &mut Table,
)
    requires { HistoryOf history.now n × RunsRoom (take n history.now) lengths.now × Small code_limit steps.now × Blank catalogue.old × Blank seconds.old × Blank dep.old }
    ensures { ReadFromCodes pairs.now (take n history.now) lengths.now steps.now catalogue.new seconds.new dep.new }
{
    // The next step of each run.
    let mut next = [0u8; Book::RUNS];
    starts(lengths, &mut next);
    for q in 0..n {
        let (r, x) = next_step(history, steps, &mut next, q);
        read_in_range(pairs, q, r, x, catalogue, seconds, dep);
    }
}

// The dependence table of a lent book's history: bit p of row q where q depends on p.
pub fn dependences_lent(b: &Book, dep: &mut Table)
    requires { Valid b.now }
    ensures { Marks (Depends (conflict_of (contents_of b.now)) (contents_of b.now).history) dep.new }
{
    *dep = [0; bits::TABLE_WORDS];
    let mut catalogue = [0; bits::TABLE_WORDS];
    let mut seconds = [0; bits::TABLE_WORDS];
    read_steps(
        &b.history,
        b.done,
        &b.lengths,
        &b.steps,
        &b.pairs,
        &mut catalogue,
        &mut seconds,
        dep,
    );
}

// The same of a book by value.
pub fn dependences(b: Book, dep: &mut Table)
    requires { Valid b }
    ensures { Marks (Depends (conflict_of (contents_of b)) (contents_of b).history) dep.new }
{
    dependences_lent(&b, dep);
}

// Reads the first n steps of a history, one by one, for the rows of the runs, into tables that mark nothing yet.
fn link_steps(
    history: &[u8; Book::STEPS],
    n: usize,
    lengths: &[u8; Book::RUNS],
    steps: &[u64; Book::STEPS],
    pairs: &[u8; Book::PAIRS_SIZE],
    catalogue: &mut Table,
    seconds: &mut Table,
    links: &mut Table,
)
    requires { HistoryOf history.now n × RunsRoom (take n history.now) lengths.now × Small code_limit steps.now × Blank catalogue.old × Blank seconds.old × Blank links.old }
    ensures { LinkedFromCodes pairs.now (take n history.now) lengths.now steps.now catalogue.new seconds.new links.new }
{
    // The next step of each run.
    let mut next = [0u8; Book::RUNS];
    starts(lengths, &mut next);
    for q in 0..n {
        let (r, x) = next_step(history, steps, &mut next, q);
        link_in_range(pairs, q, r, x, catalogue, seconds, links);
    }
}

// The runs' rows of a lent book's history: bit p of row r where some step of run r directly depends on p; and the catalogue, for the places of each run.
pub fn run_links_lent(b: &Book, catalogue: &mut Table, links: &mut Table)
    requires { Valid b.now }
    ensures run_rows { RunRows (contents_of b.now).history b.now.done catalogue.new }
    ensures marks { Marks (RunLinked (conflict_of (contents_of b.now)) (contents_of b.now).history) links.new }
{
    *catalogue = [0; bits::TABLE_WORDS];
    *links = [0; bits::TABLE_WORDS];
    let mut seconds = [0; bits::TABLE_WORDS];
    link_steps(
        &b.history,
        b.done,
        &b.lengths,
        &b.steps,
        &b.pairs,
        catalogue,
        &mut seconds,
        links,
    );
}

// The same of a book by value.
pub fn run_links(b: Book, catalogue: &mut Table, links: &mut Table)
    requires { Valid b }
    ensures run_rows { RunRows (contents_of b).history b.done catalogue.new }
    ensures marks { Marks (RunLinked (conflict_of (contents_of b)) (contents_of b).history) links.new }
{
    run_links_lent(&b, catalogue, links);
}

// The places of run r.
pub fn run_places(catalogue: &Table, r: usize) -> Row
    requires { r < run_limit }
    ensures { RowCopied catalogue.now (run_part * base + r) result }
{
    bits::row_of(catalogue, RUN_PART * BASE + r)
}
