// The evidence checks and the arc test.
#![tactic(auto)]

ghost use Rattle.std.specs.Prelude.{◌≡◌, ◌≤◌, length};
ghost use Rattle.theory.specs.Relative.{RelativelySerialOrder};
ghost use Rattle.theory.specs.Graph.{Cycle};
ghost use Rattle.book.specs.Format.{step_limit};
ghost use Rattle.book.specs.Book.{Valid, contents_of};
ghost use Rattle.book.specs.Meaning.{conflict_of, unit_of};
ghost use Rattle.classes.specs.Tested.{TestedAs};
ghost use Rattle.theory.specs.Answers.{Answers};
ghost use Rattle.names.specs.Names.{names_of};
ghost use Rattle.evidence.specs.Named.{NamedAs};
ghost use Rattle.evidence.specs.Inner.Tables.{NextStep, EquivalentBy, any_of, FollowsBy, CycleBy};

use bits::{Row, Table};
use book::{Book, Refusal};
use classes::Tested;
use graph::Graph;
use names::ArcNames;

// What the arc test of a book's bytes says: the reader's refusal, or the names of the arcs.
pub type Named = Result<ArcNames, Refusal>;

// The first place of run r that is not taken.
fn next_step(history: &[u8], taken: &Row, r: u8) -> Option<usize>
    requires { length history.now ≤ step_limit }
    ensures { NextStep history.now taken.now r result }
{
    (0..history.len()).find(|&p| history[p] == r && !bits::has(taken, p))
}

// Whether l is an order of the history that agrees with it on every conflicting pair: l's steps are taken in turn, each after all that it
// depends on.
fn equivalent_by(history: &[u8], dep: &Table, l: &[u8]) -> bool
    requires { length history.now ≤ step_limit }
    ensures { EquivalentBy history.now dep.now l.now result }
{
    if l.len() != history.len() {
        return false;
    }
    let mut taken: Row = [0; bits::ROW_WORDS];
    for r in l {
        let Some(q) = next_step(history, &taken, *r) else {
            return false;
        };
        if !bits::within(dep, q, &taken) {
            return false;
        }
        bits::add(&mut taken, q);
    }
    true
}

// Whether any of the names holds.
fn any(w: ArcNames) -> bool
    ensures { result ≡ any_of w }
{
    w.i || (w.d || (w.f || w.b))
}

// Whether x, a place of the history, was not seen and has an arc from the place before it.
fn follows(g: &Graph, seen: &Row, before: usize, x: usize) -> bool
    ensures { FollowsBy g.now seen.now before x result }
{
    if x >= g.n || bits::has(seen, x) {
        return false;
    }
    any(names::arc_names(g, before, x))
}

// Whether c is a cycle: 2 to n places, all distinct, each with an arc from the one before it, the first from the last.
fn cycle_by(g: &Graph, c: &[u8]) -> bool
    ensures { CycleBy g.now c.now result }
{
    let len = c.len();
    if len < 2 || len > g.n {
        return false;
    }
    let mut before = book::wide(c[len - 1]);
    let mut seen: Row = [0; bits::ROW_WORDS];
    for place in c {
        let x = book::wide(*place);
        if !follows(g, &seen, before, x) {
            return false;
        }
        bits::add(&mut seen, x);
        before = x;
    }
    true
}

// Whether l is a relatively serial order of a valid book's history that agrees with it on all conflicting pairs.
#[tactic(auto, using(book::proofs::Books::done_within))]
fn is_relatively_serial_order(b: &Book, l: &[u8]) -> bool
    requires { Valid b.now }
    ensures { Answers (RelativelySerialOrder (conflict_of (contents_of b.now)) (unit_of (contents_of b.now)) (contents_of b.now).history l.now) result }
{
    let mut dep: Table = [0; bits::TABLE_WORDS];
    dependence::dependences_lent(b, &mut dep);
    if !equivalent_by(&b.history[..b.done], &dep, l) {
        return false;
    }
    let reordered = book::with_history(*b, l);
    classes::is_relatively_serial(reordered)
}

// Whether the places c are a cycle of the graph of a valid book's history.
fn is_cycle(b: &Book, c: &[u8]) -> bool
    requires { Valid b.now }
    ensures { Answers (Cycle (conflict_of (contents_of b.now)) (unit_of (contents_of b.now)) (contents_of b.now).history c.now) result }
{
    let g = graph::tables(b);
    cycle_by(&g, c)
}

// The names of the arcs of that graph from the place x to the place y.
fn names_of(b: &Book, x: usize, y: usize) -> ArcNames
    requires { Valid b.now }
    ensures { result ≡ names_of (conflict_of (contents_of b.now)) (unit_of (contents_of b.now)) (contents_of b.now).history x y }
{
    let g = graph::tables(b);
    names::arc_names(&g, x, y)
}

// Whether the run numbers l are a relatively serial order of the book's history that agrees with it on all conflicting pairs.
pub fn order_check(s: &[u8], l: &[u8]) -> Tested
    ensures { TestedAs (λ c. RelativelySerialOrder (conflict_of c) (unit_of c) c.history l.now) s.now result }
{
    let b = reader::read(s)?;
    Ok(is_relatively_serial_order(&b, l))
}

// Whether the places are a cycle of the graph of the book's history.
pub fn cycle_check(s: &[u8], places: &[u8]) -> Tested
    ensures { TestedAs (λ c. Cycle (conflict_of c) (unit_of c) c.history places.now) s.now result }
{
    let b = reader::read(s)?;
    Ok(is_cycle(&b, places))
}

// The names of the arcs from the place x to the place y in the graph of the book's history.
pub fn arc_test(s: &[u8], x: usize, y: usize) -> Named
    ensures { NamedAs (λ c. names_of (conflict_of c) (unit_of c) c.history x y) s.now result }
{
    let b = reader::read(s)?;
    Ok(names_of(&b, x, y))
}
