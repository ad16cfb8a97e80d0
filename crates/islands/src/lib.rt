// Islands: the connected components of a book's runs by conflicts of done steps, each named by its smallest run; an island's history; an island judged.
#![tactic(auto)]

ghost use Rattle.std.specs.Prelude.{◌≡◌, ◌+◌, ◌<◌, ◌≤◌, length};
ghost use Rattle.theory.specs.Answers.{Answers};
ghost use Rattle.book.specs.Format.{run_limit, step_limit};
ghost use Rattle.book.specs.Book.{contents_of, Valid};
ghost use Rattle.islands.specs.Islands.{island_list, IslandsListed, HistoryFound, IslandHistory, PartJudged, IslandJudged};
ghost use Rattle.islands.specs.Inner.Names.{name_in, LinksTo, Renamed, Connects, NamesUpTo, BookNames, HasOwnName, OthersFlagged, OutsideFound};

use bits::Table;
use book::{Book, Cause, Refusal};
use judge::Judgement;

// The islands of a book: of each run the smallest run of its island, 0 behind the last; the islands' smallest runs, rising, 0 behind the last; the number of
// runs, and that of islands.
#[derive(Clone, Copy)]
pub struct IslandList {
    pub smallest: [u8; Book::RUNS],
    pub list: [u8; Book::RUNS],
    pub runs: usize,
    pub count: usize,
}

// An island's history: the run of each of its steps, 0 behind the last; their number.
#[derive(Clone, Copy)]
pub struct IslandSteps {
    pub history: [u8; Book::STEPS],
    pub count: usize,
}

// Whether some step of run r directly depends on a step of run s.
#[tactic(auto, using(crate::proofs::Naming::links_answer))]
fn links_to(catalogue: &Table, links: &Table, r: usize, s: usize) -> bool
    requires { (r < run_limit) × (s < run_limit) }
    ensures { Answers (LinksTo catalogue.now links.now r s) result }
{
    let places = dependence::run_places(catalogue, s);
    bits::last_within(links, r, &places).is_some()
}

// Puts the name `to` in place of `from`.
fn rename(names: &mut [u8; Book::RUNS], from: u8, to: u8)
    ensures { Renamed names.old from to names.new }
{
    for name in names.iter_mut() {
        if *name == from {
            *name = to;
        }
    }
}

// One name for the runs r and s, if a step of r directly depends on one of s: the smaller of their names.
fn connect(catalogue: &Table, links: &Table, names: &mut [u8; Book::RUNS], r: usize, s: usize)
    requires { (r < run_limit) × (s < run_limit) }
    ensures { Connects catalogue.now links.now names.old r s names.new }
{
    let x = names[r];
    let y = names[s];
    if x != y && links_to(catalogue, links, r, s) {
        rename(names, x.max(y), x.min(y));
    }
}

// One name for the run r and each of the n runs on a step of which one of its own directly depends.
fn connect_run(catalogue: &Table, links: &Table, n: usize, names: &mut [u8; Book::RUNS], r: usize)
    requires { (n ≤ run_limit) × (r < n) × NamesUpTo catalogue.now links.now n r names.old }
    ensures { NamesUpTo catalogue.now links.now n (r + 1) names.new }
{
    for s in 0..n {
        connect(catalogue, links, names, r, s);
    }
}

// Of each run of a valid book the smallest run of its island. A run that is not declared has its own number.
fn names_of(b: &Book) -> [u8; Book::RUNS]
    requires { Valid b.now }
    ensures { BookNames b.now result }
{
    let mut catalogue = [0u64; bits::TABLE_WORDS];
    let mut links = [0u64; bits::TABLE_WORDS];
    dependence::run_links_lent(b, &mut catalogue, &mut links);
    let mut names = [0; Book::RUNS];
    for (k, name) in names.iter_mut().enumerate() {
        *name = k as u8;
    }
    let n = b.declared;
    for r in 0..n {
        connect_run(&catalogue, &links, n, &mut names, r);
    }
    names
}

// The islands of the first n runs by these names.
fn listed(names: [u8; Book::RUNS], n: usize) -> IslandList
    requires { n ≤ run_limit }
    ensures { result ≡ island_list (name_in names) n }
{
    let mut smallest = [0u8; Book::RUNS];
    let mut list = [0u8; Book::RUNS];
    let mut count = 0;
    for r in 0..n {
        let name = names[r];
        smallest[r] = name;
        if book::wide(name) == r {
            list[count] = name;
            count += 1;
        }
    }
    IslandList {
        smallest,
        list,
        runs: n,
        count,
    }
}

// Whether run is one of the first n runs and has its own name.
fn is_smallest(names: [u8; Book::RUNS], n: usize, run: u8) -> bool
    requires { n ≤ run_limit }
    ensures { Answers (HasOwnName names n run) result }
{
    let r = book::wide(run);
    r < n && names[r] == run
}

// 1 for each run that does not have this name, else 0.
fn others(names: [u8; Book::RUNS], run: u8) -> [u8; Book::RUNS]
    ensures { OthersFlagged names run result }
{
    let mut flags = names;
    for flag in flags.iter_mut() {
        *flag = (*flag != run) as u8;
    }
    flags
}

// The flags of the runs that are not of the island whose smallest run is `run`.
#[tactic(auto, using(crate::proofs::Calls::no_island, crate::proofs::Calls::outside_flagged))]
fn outside(b: &Book, run: u8) -> Result<[u8; Book::RUNS], Refusal>
    requires { Valid b.now }
    ensures { OutsideFound (contents_of b.now) run result }
{
    let names = names_of(b);
    if !is_smallest(names, b.declared, run) {
        return book::refused(Cause::NoIsland, 0);
    }
    Ok(others(names, run))
}

// The islands of the book.
#[tactic(auto, using(crate::proofs::Calls::islands_accepted))]
pub fn islands(s: &[u8]) -> Result<IslandList, Refusal>
    ensures { IslandsListed s.now result }
{
    let b = reader::read(s)?;
    Ok(listed(names_of(&b), b.declared))
}

// The history of the island of a valid book whose smallest run is `run`.
fn steps_of(b: &Book, run: u8) -> Result<IslandSteps, Refusal>
    requires { Valid b.now }
    ensures { HistoryFound (contents_of b.now) run result }
{
    let flags = outside(b, run)?;
    let part = book::leave_out(*b, flags);
    let history = part.history;
    Ok(IslandSteps {
        history,
        count: part.done,
    })
}

// The history of the island whose smallest run is `run`.
pub fn island_history(s: &[u8], run: u8) -> Result<IslandSteps, Refusal>
    ensures { IslandHistory s.now run result }
{
    let b = reader::read(s)?;
    steps_of(&b, run)
}

// The judge of the island of a valid book whose smallest run is `run`.
fn judge_part(b: &Book, run: u8, order: &mut [u8], cycle: &mut [u8]) -> Result<Judgement, Refusal>
    requires { Valid b.now × (step_limit ≤ length order.old) × (step_limit ≤ length cycle.old) }
    ensures { PartJudged order.old order.new cycle.old cycle.new (contents_of b.now) run result }
{
    let flags = outside(b, run)?;
    let part = book::leave_out(*b, flags);
    let mut values = [0; Book::STEPS];
    Ok(judge::judge_book_lent(&part, order, cycle, &mut values))
}

// The judge of the book with the history of the island whose smallest run is `run`. Both buffers have at least Book::STEPS bytes, or it refuses.
pub fn judge_island(
    s: &[u8],
    run: u8,
    order: &mut [u8],
    cycle: &mut [u8],
) -> Result<Judgement, Refusal>
    ensures { IslandJudged order.old order.new cycle.old cycle.new s.now run result }
{
    if order.len() < Book::STEPS || cycle.len() < Book::STEPS {
        return book::refused(Cause::JudgeBufferShort, 0);
    }
    let b = reader::read(s)?;
    judge_part(&b, run, order, cycle)
}
