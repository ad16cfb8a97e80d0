// The names of the arcs from one place to another: which of I, D, F and B lead there.
#![tactic(auto)]

ghost use Rattle.std.specs.Prelude.{◌≡◌, cond, ◌+◌, ◌*◌, ◌<◌, ◌≤◌};
ghost use Rattle.theory.specs.Answers.{Answers};
ghost use Rattle.bits.specs.Table.{rows, bit_at, intersection};
ghost use Rattle.bits.specs.Last.{LastAt};
ghost use Rattle.book.specs.Format.{run_limit};
ghost use Rattle.dependence.specs.Catalogue.{base, run_part};
ghost use Rattle.names.specs.Names.{names_value};
ghost use Rattle.names.specs.Inner.Tables.{LastLeads, FirstLed, NamesBy};

use graph::Graph;

// Which of I, D, F and B lead from one place to another.
#[derive(Clone, Copy, Default)]
pub struct ArcNames {
    pub i: bool,
    pub d: bool,
    pub f: bool,
    pub b: bool,
}

// k where t holds, else 0.
fn value_if(t: bool, k: u8) -> u8
    ensures { (result ≡ cond t k 0) × (result ≤ k) }
{
    if t { k } else { 0 }
}

// The value of the names: the sum of I 1, D 2, F 4 and B 8, of those that hold.
pub fn names_value(w: ArcNames) -> u8
    ensures { result ≡ names_value w }
{
    value_if(w.i, 1) + (value_if(w.d, 2) + (value_if(w.f, 4) + value_if(w.b, 8)))
}

// Whether x is the last place of run s on which y depends. If s is y's run, that is the place of the step before y's.
fn is_last(g: &Graph, s: usize, x: usize, y: usize) -> bool
    requires { (s < run_limit) × (y < rows) }
    ensures { Answers (LastAt (intersection (bit_at g.now.dep y) (bit_at g.now.catalogue (run_part * base + s))) x) result }
{
    let mask = dependence::run_places(&g.catalogue, s);
    bits::last_within(&g.dep, y, &mask) == Some(x)
}

// Whether x is the last of its unit as seen by run s, and y depends on the first.
fn last_leads(g: &Graph, s: usize, x: usize, y: usize) -> bool
    requires { (s < run_limit) × (x < g.now.n) × (y < g.now.n) }
    ensures { Answers (LastLeads g.now s x y) result }
{
    g.last(x, s) == x && bits::marked(&g.dep, y, g.first(x, s))
}

// Whether y is the first of its unit as seen by run r, and the last depends on x.
fn first_led(g: &Graph, r: usize, x: usize, y: usize) -> bool
    requires { (r < run_limit) × (x < g.now.n) × (y < g.now.n) }
    ensures { Answers (FirstLed g.now r x y) result }
{
    g.first(y, r) == y && bits::marked(&g.dep, g.last(y, r), x)
}

// The names of the arcs from the place x to the place y. What a step depends on in a run is a prefix of that run, so the first and the last place of a
// unit stand for all of it, and the names take no search. A place beyond the done steps has none.
pub fn arc_names(g: &Graph, x: usize, y: usize) -> ArcNames
    ensures { NamesBy g.now x y result }
{
    if x >= g.n || y >= g.n {
        return ArcNames::default();
    }
    let r = g.run(x);
    let s = g.run(y);
    if r == s {
        return ArcNames {
            i: is_last(g, s, x, y),
            ..ArcNames::default()
        };
    }
    let d = bits::marked(&g.dep, y, x);
    let f = last_leads(g, s, x, y);
    let b = first_led(g, r, x, y);
    ArcNames { i: false, d, f, b }
}
