// The graph of a history: units and arc rows.
#![tactic(auto)]

ghost use Rattle.std.specs.Prelude.{◌≡◌, ◌≢◌, ◌+◌, ◌*◌, ◌<◌, ◌≤◌, take};
ghost use Rattle.theory.specs.Graph.{FirstOf, LastOf};
ghost use Rattle.book.specs.Format.{run_limit, step_limit};
ghost use Rattle.book.specs.Book.{Valid, contents_of};
ghost use Rattle.book.specs.Meaning.{conflict_of, unit_of};
ghost use Rattle.dependence.specs.Inner.Tables.{HistoryOf, NumberAt};
ghost use Rattle.graph.specs.Units.{UnchangedFrom, UnitTables};
ghost use Rattle.graph.specs.Inner.Tables.{Numbering, Counts, EachBy, RowRoom, RowSet, by_flag, copied_row};
ghost use Rattle.graph.specs.Inner.Arcs.{GraphOf, ArcOf, ArcOfPlaces, GainedBy, ArcRows, RunMask, Rowed};
ghost use Rattle.bits.specs.Table.{bit_at, intersection};
ghost use Rattle.bits.specs.Last.{LastAt};

use bits::{Row, Table};
use book::Book;
pub use graph::{Graph, UNITS_SIZE, Units};

mod graph;

// The size of a table of a place for each step, of run r and ordinal i at r * Book::RUN_STEPS + i.
const PLACES_SIZE: usize = Book::RUNS * Book::RUN_STEPS;

// The ordinal of each place, and the place of each step.
fn number_places(
    history: &[u8; Book::STEPS],
    n: usize,
    ordinals: &mut [u8; Book::STEPS],
    places: &mut [u8; PLACES_SIZE],
)
    requires { HistoryOf history.now n }
    ensures { Numbering (take n history.now) ordinals.new places.new }
{
    let mut counts = [0; Book::RUNS];
    for p in 0..n {
        let r = dependence::run_of(history, p);
        let i = counts[r];
        ordinals[p] = i;
        places[r * Book::RUN_STEPS + book::wide(i)] = p as u8;
        counts[r] = i + 1;
    }
}

// Sets the row of p to p itself.
fn set_row(t: &mut Units, p: usize)
    requires { p < step_limit }
    ensures { RowSet t.old t.new p (λ o. p) run_limit }
{
    t[p * Book::RUNS..(p + 1) * Book::RUNS].fill(p as u8);
}

// a where there is no flag, b where there is one.
fn by_flag(flag: u8, a: u8, b: u8) -> u8
    ensures { result ≡ by_flag flag a b }
{
    if flag == 0 { a } else { b }
}

// Sets the row of p to the row of the step next to it, but for the runs that see a cut between the two to p itself.
fn copy_row(cuts: &[u8; Book::CUTS_SIZE], at: usize, t: &mut Units, p: usize, from: usize)
    requires { RowRoom at p from }
    ensures { RowSet t.old t.new p (copied_row cuts.now at t.old p from) run_limit }
{
    let mut row = [0; Book::RUNS];
    for (o, place) in row.iter_mut().enumerate() {
        *place = by_flag(cuts[at + o], t[from * Book::RUNS + o], p as u8);
    }
    t[p * Book::RUNS..(p + 1) * Book::RUNS].copy_from_slice(&row);
}

// A book with its done steps numbered run by run: the ordinal of each place, and the place of each step.
#[derive(Clone, Copy)]
struct Numbered<'a> {
    book: &'a Book,
    ordinals: [u8; Book::STEPS],
    places: [u8; PLACES_SIZE],
    ghost stored: { HistoryOf book.now.history book.now.done },
    ghost counted: { Counts (take book.now.done book.now.history) book.now.counts },
    ghost numbering: { Numbering (take book.now.done book.now.history) ordinals places },
}

impl Numbered<'_> {
    // The first place of each unit: a step's own, or that of the step before it.
    fn unit_firsts(&self, t: &mut Units)
        ensures { EachBy FirstOf self.now.book.now.cuts (take self.now.book.now.done self.now.book.now.history) 0 self.now.book.now.done t.new × UnchangedFrom self.now.book.now.done t.old t.new }
    {
        let b = self.book;
        for p in 0..b.done {
            let r = dependence::run_of(&b.history, p);
            let i = book::wide(self.ordinals[p]);
            if i == 0 {
                set_row(t, p);
            } else {
                let from = book::wide(self.places[r * Book::RUN_STEPS + i - 1]);
                copy_row(&b.cuts, r * Book::RUN_CUTS + i * Book::RUNS, t, p, from);
            }
        }
    }

    // The last place of each unit: a step's own, or that of the step after it.
    fn unit_lasts(&self, t: &mut Units)
        ensures { EachBy LastOf self.now.book.now.cuts (take self.now.book.now.done self.now.book.now.history) 0 self.now.book.now.done t.new × UnchangedFrom self.now.book.now.done t.old t.new }
    {
        let b = self.book;
        for p in (0..b.done).rev() {
            let r = dependence::run_of(&b.history, p);
            let i = book::wide(self.ordinals[p]) + 1;
            if i < book::wide(b.counts[r]) {
                let from = book::wide(self.places[r * Book::RUN_STEPS + i]);
                copy_row(&b.cuts, r * Book::RUN_CUTS + i * Book::RUNS, t, p, from);
            } else {
                set_row(t, p);
            }
        }
    }
}

// The first and the last place of each place's unit in a lent book, as seen by each run.
pub fn units_lent(b: &Book, firsts: &mut Units, lasts: &mut Units)
    requires { Valid b.now }
    ensures { UnitTables (unit_of (contents_of b.now)) (contents_of b.now).history firsts.old firsts.new lasts.old lasts.new }
{
    let mut ordinals = [0; Book::STEPS];
    let mut places = [0; PLACES_SIZE];
    number_places(&b.history, b.done, &mut ordinals, &mut places);
    let numbered = Numbered {
        book: b,
        ordinals,
        places,
    };
    numbered.unit_firsts(firsts);
    numbered.unit_lasts(lasts);
}

// The same of a book by value.
pub fn units(b: Book, firsts: &mut Units, lasts: &mut Units)
    requires { Valid b }
    ensures { UnitTables (unit_of (contents_of b)) (contents_of b).history firsts.old firsts.new lasts.old lasts.new }
{
    units_lent(&b, firsts, lasts);
}

// What a table of units has of place p and run o.
pub fn place_in(t: &Units, n: usize, p: usize, o: usize) -> usize
    requires { Rowed n t.now × (p < n) × (n ≤ step_limit) × (o < run_limit) }
    ensures { NumberAt t.now (p * run_limit + o) step_limit result }
{
    book::wide(t[p * Book::RUNS + o])
}

// The places of one run in a graph's history, as a row.
#[derive(Clone, Copy)]
struct RunPlaces<'a> {
    graph: &'a Graph,
    run: usize,
    places: Row,
    ghost marked: { RunMask graph.now places run },
}

impl RunPlaces<'_> {
    // The arcs that come of what place q, of another run s, depends on among these places; l is the last such place.
    // D: from each to q. F: from the last place of l's unit to q. B: from each to the first place of q's unit.
    fn arcs_across(&self, q: usize, s: usize, l: usize, arc: &mut Table)
        requires { (q < self.now.graph.now.n) × NumberAt self.now.graph.now.history q run_limit s × (self.now.run ≢ s)
            × LastAt (intersection (bit_at self.now.graph.now.dep q) (bit_at self.now.places 0)) l }
        ensures { GainedBy ArcOf self.now.graph.now self.now.run q arc.old arc.new }
    {
        let g = self.graph;
        let e = g.last(l, s);
        let f = g.first(q, self.run);
        bits::mark(arc, q, e);
        bits::join_within(arc, q, &g.dep, q, &self.places);
        bits::join_within(arc, f, &g.dep, q, &self.places);
    }

    // The arcs that come of what place q depends on among these places. I: from the last, if they are of q's run.
    fn arcs_between(&self, q: usize, arc: &mut Table)
        requires { q < self.now.graph.now.n }
        ensures { GainedBy ArcOf self.now.graph.now self.now.run q arc.old arc.new }
    {
        if let Some(l) = bits::last_within(&self.graph.dep, q, &self.places) {
            let s = self.graph.run(q);
            if self.run == s {
                bits::mark(arc, q, l);
            } else {
                self.arcs_across(q, s, l, arc);
            }
        }
    }

    // The arcs that come of what any place depends on among these places.
    fn arcs(&self, arc: &mut Table)
        ensures { GainedBy ArcOfPlaces self.now.graph.now self.now.run self.now.graph.now.n arc.old arc.new }
    {
        for q in 0..self.graph.n {
            self.arcs_between(q, arc);
        }
    }
}

// The tables of the book's history.
pub fn tables(b: &Book) -> Graph
    requires { Valid b.now }
    ensures { GraphOf (conflict_of (contents_of b.now)) (unit_of (contents_of b.now)) (contents_of b.now).history result }
{
    let mut catalogue = [0; bits::TABLE_WORDS];
    let mut seconds = [0; bits::TABLE_WORDS];
    let mut dep = [0; bits::TABLE_WORDS];
    let mut firsts = [0; UNITS_SIZE];
    let mut lasts = [0; UNITS_SIZE];
    dependence::read_steps(
        &b.history,
        b.done,
        &b.lengths,
        &b.steps,
        &b.pairs,
        &mut catalogue,
        &mut seconds,
        &mut dep,
    );
    units_lent(b, &mut firsts, &mut lasts);
    Graph {
        history: b.history,
        n: b.done,
        declared: b.declared,
        catalogue,
        dep,
        firsts,
        lasts,
    }
}

// The arc table: bit x of row y where an arc leads from x to y. The rows are made run after run; the catalogue has the places of each run.
pub fn arcs(g: &Graph, arc: &mut Table)
    ensures { ArcRows g.now arc.new }
{
    let mut rows = [0; bits::TABLE_WORDS];
    for r in 0..g.declared {
        let places = dependence::run_places(&g.catalogue, r);
        let of_run = RunPlaces {
            graph: g,
            run: r,
            places,
        };
        of_run.arcs(&mut rows);
    }
    *arc = rows;
}
