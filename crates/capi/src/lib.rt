// The calls for programs in C, declared in include/deck.h: thin entries over byte slices that answer numbers.
#![tactic(auto)]

ghost use Rattle.std.specs.Prelude.{◌≡◌, ℕ};
ghost use Rattle.theory.specs.Relative.{RelativelySerialOrder};
ghost use Rattle.theory.specs.Graph.{Cycle};
ghost use Rattle.book.specs.Format.{read};
ghost use Rattle.book.specs.Numbers.{refused_with, numbers_of, reading_numbers};
ghost use Rattle.book.specs.Meaning.{conflict_of, unit_of, SerialHistory, RelativelyAtomicHistory, RelativelySerialHistory, ConflictSerializableHistory};
ghost use Rattle.plain.specs.Plain.{step as step_call, withdraw as withdraw_call, take_back as take_back_call};
ghost use Rattle.classes.specs.Tested.{yes_value};
ghost use Rattle.names.specs.Names.{names_of, names_value};
ghost use Rattle.judge.specs.Judged.{verdict_numbers, verdict_of, count_of};
ghost use Rattle.gate.specs.Gate.{reply_value, reply_numbers, opening_numbers};
ghost use Rattle.capi.specs.Numbers.{answered, judged, opened_gate, listed_islands, listed_steps};
ghost use Rattle.capi.specs.Calls.{ReadCall, TestCall, NameCall, JudgeCall, WriteCall, OpenCall, GateCall, ReplayCall, IslandsCall, IslandHistoryCall, IslandJudgeCall};

use book::{Book, Cause, Refusal};
use gate::{Gate, Opened, Reply};
use islands::{IslandList, IslandSteps};
use judge::{Judgement, Verdict};
use names::ArcNames;

// The number of a refusal or 0, its place or 0, and what the call answers or 0.
#[repr(C)]
#[derive(Clone, Copy)]
pub struct Answered {
    pub number: u64,
    pub place: u64,
    pub value: u64,
}

// The number of a refusal or 0, its place or 0; the verdict: 0 refused, 1 passed, 2 tangled; the count.
#[repr(C)]
#[derive(Clone, Copy)]
pub struct Judged {
    pub number: u64,
    pub place: u64,
    pub verdict: u64,
    pub count: u64,
}

// The number of a refusal or 0, its place or 0, and the gate, which has no runs where the book was refused.
#[repr(C)]
#[derive(Clone, Copy)]
pub struct OpenedGate {
    pub number: u64,
    pub place: u64,
    pub gate: Gate,
}

// The number of a refusal or 0, its place or 0; the number of runs, and of islands; of each run the smallest run of its island, and the islands' smallest
// runs, rising; 0 behind the last.
#[repr(C)]
#[derive(Clone, Copy)]
pub struct ListedIslands {
    pub number: u64,
    pub place: u64,
    pub runs: u64,
    pub count: u64,
    pub smallest: [u8; Book::RUNS],
    pub list: [u8; Book::RUNS],
}

// The number of a refusal or 0, its place or 0; the number of an island's done steps, and the run of each; 0 behind the last.
#[repr(C)]
#[derive(Clone, Copy)]
pub struct ListedSteps {
    pub number: u64,
    pub place: u64,
    pub count: u64,
    pub history: [u8; Book::STEPS],
}

impl From<Refusal> for Answered {
    ghost from_gives = { λ x r. r ≡ answered (refused_with x.cause x.place) };

    fn from(refusal: Refusal) -> Self {
        Self {
            number: book::number_of(refusal.cause) as u64,
            place: refusal.place as u64,
            value: 0,
        }
    }
}

// What a call answers that is carried out, as a number.
trait Value {
    ghost number: { Self → ℕ };

    fn value(self) -> u64
        ensures { result ≡ number self };
}

impl Value for () {
    ghost number = { λ x. 0 };

    fn value(self) -> u64 {
        0
    }
}

// Yes is 1, no is 0.
impl Value for bool {
    ghost number = { yes_value };

    fn value(self) -> u64 {
        self as u64
    }
}

impl Value for usize {
    ghost number = { λ n. n };

    fn value(self) -> u64 {
        self as u64
    }
}

impl Value for ArcNames {
    ghost number = { names_value };

    fn value(self) -> u64 {
        names::names_value(self) as u64
    }
}

// The place of an admitted step; a withdrawal and a take-back have no value.
impl Value for Reply {
    ghost number = { reply_value };

    fn value(self) -> u64 {
        match self {
            Reply::Place(place) => place as u64,
            Reply::Withdrawn | Reply::TakenBack => 0,
        }
    }
}

impl<T: Value> From<Result<T, Refusal>> for Answered {
    ghost from_gives = { λ x r. r ≡ answered (numbers_of T.number x) };

    fn from(answer: Result<T, Refusal>) -> Self {
        match answer {
            Ok(x) => Self {
                number: 0,
                place: 0,
                value: x.value(),
            },
            Err(refusal) => refusal.into(),
        }
    }
}

// A call on a gate is refused with the number only.
impl From<Result<Reply, Cause>> for Answered {
    ghost from_gives = { λ x r. r ≡ answered (reply_numbers x) };

    fn from(reply: Result<Reply, Cause>) -> Self {
        reply.map_err(|cause| Refusal { cause, place: 0 }).into()
    }
}

// Where the judge refuses, verdict and count are 0, as a refusal's value.
impl From<Result<Judgement, Refusal>> for Judged {
    ghost from_gives = { λ x r. r ≡ judged (verdict_numbers (verdict_of x)) (count_of x) };

    fn from(answer: Result<Judgement, Refusal>) -> Self {
        match answer {
            Ok(judgement) => Self {
                number: 0,
                place: 0,
                verdict: match judgement.verdict {
                    Verdict::Passed => 1,
                    Verdict::Tangled => 2,
                },
                count: judgement.count as u64,
            },
            Err(refusal) => {
                let answer = Answered::from(refusal);
                Self {
                    number: answer.number,
                    place: answer.place,
                    verdict: answer.value,
                    count: answer.value,
                }
            }
        }
    }
}

impl From<Opened> for OpenedGate {
    ghost from_gives = { λ x r. r ≡ opened_gate (opening_numbers x.answer) x.gate };

    fn from(opened: Opened) -> Self {
        let answer = Answered::from(opened.answer);
        Self {
            number: answer.number,
            place: answer.place,
            gate: opened.gate,
        }
    }
}

// Where it is refused, every other number is 0.
impl From<Result<IslandList, Refusal>> for ListedIslands {
    ghost from_gives = { λ x r. r ≡ listed_islands x };

    fn from(answer: Result<IslandList, Refusal>) -> Self {
        match answer {
            Ok(islands) => {
                let smallest = islands.smallest;
                let list = islands.list;
                Self {
                    number: 0,
                    place: 0,
                    runs: islands.runs as u64,
                    count: islands.count as u64,
                    smallest,
                    list,
                }
            }
            Err(refusal) => {
                let answer = Answered::from(refusal);
                Self {
                    number: answer.number,
                    place: answer.place,
                    runs: 0,
                    count: 0,
                    smallest: [0; Book::RUNS],
                    list: [0; Book::RUNS],
                }
            }
        }
    }
}

impl From<Result<IslandSteps, Refusal>> for ListedSteps {
    ghost from_gives = { λ x r. r ≡ listed_steps x };

    fn from(answer: Result<IslandSteps, Refusal>) -> Self {
        match answer {
            Ok(steps) => {
                let history = steps.history;
                Self {
                    number: 0,
                    place: 0,
                    count: steps.count as u64,
                    history,
                }
            }
            Err(refusal) => {
                let answer = Answered::from(refusal);
                Self {
                    number: answer.number,
                    place: answer.place,
                    count: 0,
                    history: [0; Book::STEPS],
                }
            }
        }
    }
}

// The number of done steps of the book.
fn done_steps(s: &[u8]) -> Result<usize, Refusal>
    ensures { numbers_of (λ n. n) result ≡ reading_numbers (read s.now) }
{
    let b = reader::read(s)?;
    Ok(b.done)
}

#[unsafe(no_mangle)]
pub extern "C" fn deck_read(s: &[u8]) -> Answered
    ensures { ReadCall s.now result }
{
    done_steps(s).into()
}

#[unsafe(no_mangle)]
pub extern "C" fn deck_judge(s: &[u8], order: &mut [u8], cycle: &mut [u8]) -> Judged
    ensures { JudgeCall s.now order.old order.new cycle.old cycle.new result }
{
    judge::judge(s, order, cycle).into()
}

#[unsafe(no_mangle)]
pub extern "C" fn deck_serial(s: &[u8]) -> Answered
    ensures { TestCall SerialHistory s.now result }
{
    classes::serial(s).into()
}

#[unsafe(no_mangle)]
pub extern "C" fn deck_atomic(s: &[u8]) -> Answered
    ensures { TestCall RelativelyAtomicHistory s.now result }
{
    classes::relatively_atomic(s).into()
}

#[unsafe(no_mangle)]
pub extern "C" fn deck_relserial(s: &[u8]) -> Answered
    ensures { TestCall RelativelySerialHistory s.now result }
{
    classes::relatively_serial(s).into()
}

#[unsafe(no_mangle)]
pub extern "C" fn deck_conflict(s: &[u8]) -> Answered
    ensures { TestCall ConflictSerializableHistory s.now result }
{
    classes::conflict_serializable(s).into()
}

#[unsafe(no_mangle)]
pub extern "C" fn deck_check_order(s: &[u8], list: &[u8]) -> Answered
    ensures { TestCall (λ c. RelativelySerialOrder (conflict_of c) (unit_of c) c.history list.now) s.now result }
{
    evidence::order_check(s, list).into()
}

#[unsafe(no_mangle)]
pub extern "C" fn deck_check_cycle(s: &[u8], list: &[u8]) -> Answered
    ensures { TestCall (λ c. Cycle (conflict_of c) (unit_of c) c.history list.now) s.now result }
{
    evidence::cycle_check(s, list).into()
}

#[unsafe(no_mangle)]
pub extern "C" fn deck_arc(s: &[u8], from: usize, to: usize) -> Answered
    ensures { NameCall (λ c. names_of (conflict_of c) (unit_of c) c.history from to) s.now result }
{
    evidence::arc_test(s, from, to).into()
}

#[unsafe(no_mangle)]
pub extern "C" fn deck_write(s: &[u8], out: &mut [u8]) -> Answered
    ensures { WriteCall s.now out.old out.new result }
{
    writer::write(s, out).into()
}

#[unsafe(no_mangle)]
pub extern "C" fn deck_open(s: &[u8]) -> OpenedGate
    ensures { OpenCall s.now result }
{
    gate::open(s).into()
}

#[unsafe(no_mangle)]
pub extern "C" fn deck_step(g: &mut Gate, run: u8) -> Answered
    ensures { GateCall (step_call run) g.old g.new result }
{
    gate::step(g, run).into()
}

#[unsafe(no_mangle)]
pub extern "C" fn deck_withdraw(g: &mut Gate, run: u8) -> Answered
    ensures { GateCall (withdraw_call run) g.old g.new result }
{
    gate::withdraw(g, run).into()
}

#[unsafe(no_mangle)]
pub extern "C" fn deck_take_back(g: &mut Gate, run: u8) -> Answered
    ensures { GateCall (take_back_call run) g.old g.new result }
{
    gate::take_back(g, run).into()
}

#[unsafe(no_mangle)]
pub extern "C" fn deck_replay(s: &[u8], calls: &[u8], answers: &mut [u8]) -> Answered
    ensures { ReplayCall s.now calls.now answers.old answers.new result }
{
    replay::replay(s, calls, answers).played.into()
}

#[unsafe(no_mangle)]
pub extern "C" fn deck_islands(s: &[u8]) -> ListedIslands
    ensures { IslandsCall s.now result }
{
    islands::islands(s).into()
}

#[unsafe(no_mangle)]
pub extern "C" fn deck_island_history(s: &[u8], run: u8) -> ListedSteps
    ensures { IslandHistoryCall s.now run result }
{
    islands::island_history(s, run).into()
}

#[unsafe(no_mangle)]
pub extern "C" fn deck_judge_island(s: &[u8], run: u8, order: &mut [u8], cycle: &mut [u8]) -> Judged
    ensures { IslandJudgeCall s.now run order.old order.new cycle.old cycle.new result }
{
    islands::judge_island(s, run, order, cycle).into()
}
