// The demands as contracts: `demand_1`, `demand_2` and `demand_3` make the public calls and ensure the demand of what they return; `nested_classes`,
// `nested_deck_classes` and `nested_text` ask for the classes of a book and ensure that they are nested; `named_arcs` asks for the arcs from one place to
// another and ensures that they are all that hold, `lettered_text` makes the text and ensures that each letter under a cycle is the first that holds;
// `feed_step` has one more step of a history read, and ensures what the one pass over it promises; `run_taken_back` takes a run back, and ensures what that
// does; `islands_judged` judges a book and each of its islands, and ensures that the whole is passed exactly when each is. `claims` states all this, and proves
// it of whatever meets the calls' contracts.
#![tactic(auto)]

ghost use Rattle.std.specs.Fn.{FnOnceReturnsAtMut};
ghost use Rattle.book.specs.Book.{as_step};
ghost use Rattle.demands.specs.Results.{BookRefusals, JudgeRefusals, WriteRefusals, ReplayRefusals, TextRefusals, GateRefusals, Demand2Of, Demand3Of, NestedAnswers, NestedDeckAnswers, NestedText, ArcsNamed, TextLettered, StepFed, TakenBackAs, IslandRefusals, IslandJudgeRefusals, VerdictsOf, WholeByIslands};
ghost use Rattle.claims.specs.Islands.{DeckIslandAnswered};

use bits::Table;
use book::{Book, Refusal, Step};
use capi::{Answered, Judged, ListedIslands, ListedSteps, OpenedGate};
use classes::Tested;
use gate::Gate;
use judge::Judgement;
use replay::Replayed;

// What the calls that read a book and change nothing return.
#[derive(Clone, Copy)]
pub struct BookAnswers {
    pub read_book: Answered,
    pub serial: Answered,
    pub atomic: Answered,
    pub relserial: Answered,
    pub conflict: Answered,
    pub check_order: Answered,
    pub check_cycle: Answered,
    pub arc: Answered,
    pub opened: OpenedGate,
}

// What the calls that are lent a buffer return.
#[derive(Clone, Copy)]
pub struct BufferAnswers {
    pub judged: Judged,
    pub written: Answered,
    pub replayed: Answered,
}

// What a call for C on a gate's record answers, and the record as it leaves it.
#[derive(Clone, Copy)]
pub struct DeckCalled {
    pub answer: Answered,
    pub gate: Gate,
}

// What the calls on a gate's record return.
#[derive(Clone, Copy)]
pub struct GateAnswers {
    pub stepped: DeckCalled,
    pub withdrawn: DeckCalled,
    pub taken_back: DeckCalled,
}

// The calls that read a book and change nothing.
fn book_answers(s: &[u8], list: &[u8], from: usize, to: usize) -> BookAnswers
    ensures { BookRefusals s.now result }
{
    let read_book = capi::deck_read(s);
    let serial = capi::deck_serial(s);
    let atomic = capi::deck_atomic(s);
    let relserial = capi::deck_relserial(s);
    let conflict = capi::deck_conflict(s);
    let check_order = capi::deck_check_order(s, list);
    let check_cycle = capi::deck_check_cycle(s, list);
    let arc = capi::deck_arc(s, from, to);
    let opened = capi::deck_open(s);
    BookAnswers {
        read_book,
        serial,
        atomic,
        relserial,
        conflict,
        check_order,
        check_cycle,
        arc,
        opened,
    }
}

// What a call answers that is made on a copy of the gate's record, and the copy as the call leaves it.
fn called<F: FnOnce(&mut Gate) -> Answered>(mut gate: Gate, call: F) -> DeckCalled
    requires { F.IsAlwaysCallable call }
    ensures { FnOnceReturnsAtMut F.FnOnce call gate result.answer result.gate }
{
    let answer = call(&mut gate);
    DeckCalled { answer, gate }
}

// The calls on a gate's record, each on a copy of its own.
fn gate_answers(g: Gate, run: u8) -> GateAnswers
    ensures { GateRefusals g run result }
{
    GateAnswers {
        stepped: called(g, |gate| capi::deck_step(gate, run)),
        withdrawn: called(g, |gate| capi::deck_withdraw(gate, run)),
        taken_back: called(g, |gate| capi::deck_take_back(gate, run)),
    }
}

// The calls that are lent a buffer.
fn buffer_answers(
    s: &[u8],
    calls: &[u8],
    order: &mut [u8],
    cycle: &mut [u8],
    out: &mut [u8],
    answers: &mut [u8],
) -> BufferAnswers
    ensures judge_refusals { JudgeRefusals s.now order.old order.new cycle.old cycle.new result.judged }
    ensures write_refusals { WriteRefusals s.now out.old out.new result.written }
    ensures replay_refusals { ReplayRefusals s.now calls.now answers.old answers.new result.replayed }
{
    let judged = capi::deck_judge(s, order, cycle);
    let written = capi::deck_write(s, out);
    let replayed = capi::deck_replay(s, calls, answers);
    BufferAnswers {
        judged,
        written,
        replayed,
    }
}

// The program's text.
fn text_answer(s: &[u8], text: &mut [u8; report::TEXT]) -> usize
    ensures { TextRefusals s.now text.old text.new result }
{
    report::report(s, text)
}

// What every call returns.
#[derive(Clone, Copy)]
pub struct AllAnswers {
    pub of_book: BookAnswers,
    pub of_buffers: BufferAnswers,
    pub of_gate: GateAnswers,
    pub text_length: usize,
}

// Demand 1 of every call but those on islands: on a book's bytes, a list for the two checks, two places, a list of calls, buffers, and a gate's record.
pub fn demand_1(
    s: &[u8],
    list: &[u8],
    from: usize,
    to: usize,
    calls: &[u8],
    order: &mut [u8],
    cycle: &mut [u8],
    out: &mut [u8],
    answers: &mut [u8],
    text: &mut [u8; report::TEXT],
    g: Gate,
    run: u8,
) -> AllAnswers
    ensures book_refusals { BookRefusals s.now result.of_book }
    ensures judge_refusals { JudgeRefusals s.now order.old order.new cycle.old cycle.new result.of_buffers.judged }
    ensures write_refusals { WriteRefusals s.now out.old out.new result.of_buffers.written }
    ensures replay_refusals { ReplayRefusals s.now calls.now answers.old answers.new result.of_buffers.replayed }
    ensures text_refusals { TextRefusals s.now text.old text.new result.text_length × GateRefusals g run result.of_gate }
{
    let of_book = book_answers(s, list, from, to);
    let of_buffers = buffer_answers(s, calls, order, cycle, out, answers);
    let text_length = text_answer(s, text);
    let of_gate = gate_answers(g, run);
    AllAnswers {
        of_book,
        of_buffers,
        of_gate,
        text_length,
    }
}

// What the calls on islands return.
#[derive(Clone, Copy)]
pub struct IslandAnswers {
    pub islands: ListedIslands,
    pub history: ListedSteps,
    pub judged: Judged,
}

// Demand 1 of the calls on islands: a function of its own, since `demand_1` is lent all the buffers that its proof can take in.
pub fn demand_1_of_islands(s: &[u8], run: u8, order: &mut [u8], cycle: &mut [u8]) -> IslandAnswers
    ensures island_refusals { IslandRefusals s.now run result.islands result.history }
    ensures island_judge_refusals { IslandJudgeRefusals s.now run order.old order.new cycle.old cycle.new result.judged }
{
    let islands = capi::deck_islands(s);
    let history = capi::deck_island_history(s, run);
    let judged = capi::deck_judge_island(s, run, order, cycle);
    IslandAnswers {
        islands,
        history,
        judged,
    }
}

// Demand 2 of the judge.
pub fn demand_2(s: &[u8], order: &mut [u8], cycle: &mut [u8]) -> Result<Judgement, Refusal>
    ensures { Demand2Of s.now order.old order.new cycle.old cycle.new result }
{
    judge::judge(s, order, cycle)
}

// Demand 3 of the gate: opened over a book, and called in turn.
pub fn demand_3(s: &[u8], calls: &[u8], answers: &mut [u8]) -> Replayed
    ensures { Demand3Of s.now calls.now answers.old answers.new result }
{
    replay::replay(s, calls, answers)
}

// What four class tests, each of which answers a T, and the judge, who answers a J, answer to one book.
#[derive(Clone, Copy)]
pub struct ClassAnswers<T, J> {
    pub serial: T,
    pub atomic: T,
    pub relserial: T,
    pub conflict: T,
    pub judged: J,
}

// The five classes of one book.
pub fn nested_classes(s: &[u8]) -> ClassAnswers<Tested, Result<Judgement, Refusal>>
    ensures { NestedAnswers s.now result }
{
    let mut order = [0; Book::STEPS];
    let mut cycle = [0; Book::STEPS];
    ClassAnswers {
        serial: classes::serial(s),
        atomic: classes::relatively_atomic(s),
        relserial: classes::relatively_serial(s),
        conflict: classes::conflict_serializable(s),
        judged: judge::judge(s, &mut order, &mut cycle),
    }
}

// The five classes of one book, by the calls for C.
pub fn nested_deck_classes(s: &[u8]) -> ClassAnswers<Answered, Judged>
    ensures { NestedDeckAnswers s.now result }
{
    let mut order = [0u8; Book::STEPS];
    let mut cycle = [0u8; Book::STEPS];
    ClassAnswers {
        serial: capi::deck_serial(s),
        atomic: capi::deck_atomic(s),
        relserial: capi::deck_relserial(s),
        conflict: capi::deck_conflict(s),
        judged: capi::deck_judge(s, &mut order, &mut cycle),
    }
}

// The five classes of one book, in the program's text.
pub fn nested_text(s: &[u8], text: &mut [u8; report::TEXT]) -> usize
    ensures { NestedText s.now text.old text.new result }
{
    report::report(s, text)
}

// The names of the arcs from one place to another.
pub fn named_arcs(s: &[u8], from: usize, to: usize) -> Answered
    ensures { ArcsNamed s.now from to result }
{
    capi::deck_arc(s, from, to)
}

// The letters of a cycle's arcs, in the program's text.
pub fn lettered_text(s: &[u8], text: &mut [u8; report::TEXT]) -> usize
    ensures { TextLettered s.now text.old text.new result }
{
    report::report(s, text)
}

// Has one more step, x of run r, read as place q, and answers whether it was.
pub fn feed_step(
    pairs: &[u8; Book::PAIRS_SIZE],
    q: usize,
    r: usize,
    x: Step,
    catalogue: &mut Table,
    seconds: &mut Table,
    dep: &mut Table,
) -> bool
    ensures { StepFed pairs.now catalogue.old catalogue.new seconds.old seconds.new dep.old dep.new q r (as_step x) result }
{
    dependence::read_step(pairs, q, r, x, catalogue, seconds, dep)
}

// Takes a run back.
pub fn run_taken_back(g: Gate, run: u8) -> DeckCalled
    ensures { TakenBackAs g run result }
{
    called(g, |gate| capi::deck_take_back(gate, run))
}

// The judge of one island, with buffers of its own.
fn island_judged(s: &[u8], run: u8) -> Judged
    ensures { DeckIslandAnswered s.now run result }
{
    let mut order = [0u8; Book::STEPS];
    let mut cycle = [0u8; Book::STEPS];
    capi::deck_judge_island(s, run, &mut order, &mut cycle)
}

// The verdict on each island of the list.
fn island_verdicts(s: &[u8], islands: ListedIslands) -> [u64; Book::RUNS]
    ensures { VerdictsOf s.now islands.list islands.count result }
{
    let mut verdicts = [0u64; Book::RUNS];
    for i in 0..Book::RUNS.min(islands.count as usize) {
        verdicts[i] = island_judged(s, islands.list[i]).verdict;
    }
    verdicts
}

// What the calls for C say of a book, of its islands, and of each of these.
#[derive(Clone, Copy)]
pub struct WholeAnswers {
    pub judged: Judged,
    pub islands: ListedIslands,
    pub verdicts: [u64; Book::RUNS],
}

// A book judged whole, and island by island.
pub fn islands_judged(s: &[u8]) -> WholeAnswers
    ensures { WholeByIslands s.now result }
{
    let mut order = [0u8; Book::STEPS];
    let mut cycle = [0u8; Book::STEPS];
    let judged = capi::deck_judge(s, &mut order, &mut cycle);
    let islands = capi::deck_islands(s);
    let verdicts = island_verdicts(s, islands);
    WholeAnswers {
        judged,
        islands,
        verdicts,
    }
}
