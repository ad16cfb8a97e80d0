// Turns over a table of arcs: the smallest ready place at each turn, and where none is ready a cycle.
#![tactic(auto)]

ghost use Rattle.std.specs.Prelude.{◌<◌, ◌≤◌, length};
ghost use Rattle.bits.specs.Table.{row_bits};
ghost use Rattle.book.specs.Format.{step_limit};
ghost use Rattle.theory.specs.Answers.{Answers};
ghost use Rattle.dependence.specs.Inner.Tables.{HistoryOf};
ghost use Rattle.turns.specs.Inner.Turns.{ReadyIn, AllTaken, FirstUntaken, FirstReady, TurnsTaken};
ghost use Rattle.turns.specs.Inner.Cycles.{Stuck, CycleIn};

use bits::{Row, Table};
use book::Book;

// The turns so far: how many, the run numbers of the places taken, in that order, and the set of these places.
#[derive(Clone, Copy)]
pub struct Turns {
    pub count: usize,
    pub order: [u8; Book::STEPS],
    pub taken: Row,
}

// Whether p is not taken and all sources of its arcs are.
fn is_ready(arc: &Table, taken: &Row, p: usize) -> bool
    requires { p < row_bits }
    ensures { Answers (ReadyIn arc.now taken.now p) result }
{
    !bits::has(taken, p) && bits::within(arc, p, taken)
}

// The smallest place that is not taken, or n; those below `from` are taken.
fn untaken(taken: &Row, from: usize, n: usize) -> usize
    requires { (n ≤ row_bits) × (from ≤ n) × AllTaken taken.now from }
    ensures { FirstUntaken taken.now n result }
{
    (from..n).find(|&p| !bits::has(taken, p)).unwrap_or(n)
}

// The smallest ready place; those below `from` are taken.
fn ready(arc: &Table, taken: &Row, from: usize, n: usize) -> Option<usize>
    requires { (n ≤ row_bits) × (from ≤ n) × AllTaken taken.now from }
    ensures { FirstReady arc.now taken.now n result }
{
    (from..n).find(|&p| is_ready(arc, taken, p))
}

// Turn by turn the smallest ready place, as far as it goes.
pub fn greedy(history: &[u8; Book::STEPS], n: usize, arc: &Table) -> Turns
    requires { HistoryOf history.now n }
    ensures { TurnsTaken history.now n arc.now result }
{
    let mut order = [0u8; Book::STEPS];
    let mut taken = [0u64; bits::ROW_WORDS];
    let mut from = 0;
    for count in 0..n {
        let Some(p) = ready(arc, &taken, from, n) else {
            return Turns {
                count,
                order,
                taken,
            };
        };
        order[count] = history[p];
        bits::add(&mut taken, p);
        from = untaken(&taken, from, n);
    }
    Turns {
        count: n,
        order,
        taken,
    }
}

// A cycle of the arcs, where no place is ready: back from source to source, none of them taken, until a place comes again.
pub fn find_cycle(arc: &Table, n: usize, taken: &Row, cycle: &mut [u8]) -> usize
    requires { Stuck arc.now taken.now n × (step_limit ≤ length cycle.old) }
    ensures { CycleIn arc.now n cycle.old cycle.new result }
{
    // The walk's places, its last one first, at the end of `trail`; `seen` has the number of each place on it.
    let mut trail = [0u8; Book::STEPS];
    let mut seen: [Option<u8>; Book::STEPS] = [None; Book::STEPS];
    let mut v = untaken(taken, 0, n);
    for len in 0..Book::STEPS {
        let at = Book::STEPS - (len + 1);
        trail[at] = v as u8;
        seen[v] = Some(len as u8);
        let Some(x) = bits::first_outside(arc, v, taken) else {
            // Never: v is not ready.
            return 0;
        };
        if let Some(s) = seen[x] {
            let end = Book::STEPS - book::wide(s);
            return buffer::put_bytes(&trail[at..end], cycle);
        }
        v = x;
    }
    // Never: the walk has at most n places.
    0
}
