// The graph of a history, as its tables.
ghost use Rattle.std.specs.Prelude.{◌+◌, ◌*◌, ◌<◌, take};
ghost use Rattle.book.specs.Format.{run_limit, step_limit};
ghost use Rattle.dependence.specs.Inner.Tables.{HistoryOf, Declared, NumberAt, RunRows};
ghost use Rattle.graph.specs.Inner.Tables.{TablesOf};

use bits::Table;
use book::Book;

// The size of a table of a place for each place and each run.
pub const UNITS_SIZE: usize = Book::STEPS * Book::RUNS;

// For each place p and each run o a place, at p * Book::RUNS + o.
pub type Units = [u8; UNITS_SIZE];

// The first n places of a history, whose runs are below `declared`, and its tables: the catalogue has the places of each run, the dependence table what
// each place depends on, `firsts` and `lasts` the first and the last place of each place's unit as seen by each run.
#[derive(Drop)]
pub struct Graph {
    pub history: [u8; Book::STEPS],
    pub n: usize,
    pub declared: usize,
    pub catalogue: Table,
    pub dep: Table,
    pub firsts: Units,
    pub lasts: Units,
    pub ghost stored: { HistoryOf history n },
    pub ghost runs: { Declared history n declared },
    pub ghost run_rows: { RunRows (take n history) n catalogue },
    pub ghost tables: { ∥ TablesOf (take n history) dep firsts lasts ∥₁ },
}

impl Graph {
    // The run of place p.
    pub fn run(&self, p: usize) -> usize
        requires { p < self.now.n }
        ensures { NumberAt self.now.history p run_limit result }
    {
        dependence::run_of(&self.history, p)
    }

    // The first place of p's unit, as seen by run o.
    pub fn first(&self, p: usize, o: usize) -> usize
        requires { (p < self.now.n) × (o < run_limit) }
        ensures { NumberAt self.now.firsts (p * run_limit + o) step_limit result }
    {
        crate::place_in(&self.firsts, self.n, p, o)
    }

    // The last place of p's unit, as seen by run o.
    pub fn last(&self, p: usize, o: usize) -> usize
        requires { (p < self.now.n) × (o < run_limit) }
        ensures { NumberAt self.now.lasts (p * run_limit + o) step_limit result }
    {
        crate::place_in(&self.lasts, self.n, p, o)
    }
}
