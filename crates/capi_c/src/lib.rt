// The calls for programs in C, as include/deck.h declares them: each is the call of crate `capi` under its name, with its contract.
#![tactic(auto)]

ghost use Rattle.theory.specs.Relative.{RelativelySerialOrder};
ghost use Rattle.theory.specs.Graph.{Cycle};
ghost use Rattle.book.specs.Meaning.{conflict_of, unit_of, SerialHistory, RelativelyAtomicHistory, RelativelySerialHistory, ConflictSerializableHistory};
ghost use Rattle.plain.specs.Plain.{step as step_call, withdraw as withdraw_call, take_back as take_back_call};
ghost use Rattle.names.specs.Names.{names_of};
ghost use Rattle.capi.specs.Calls.{ReadCall, TestCall, NameCall, JudgeCall, WriteCall, OpenCall, GateCall, ReplayCall, IslandsCall, IslandHistoryCall, IslandJudgeCall};

use capi::{Answered, Judged, ListedIslands, ListedSteps, OpenedGate};
use gate::Gate;

#[unsafe(no_mangle)]
pub extern "C" fn deck_read(s: &[u8]) -> Answered
    ensures { ReadCall s.now result }
{
    capi::deck_read(s)
}

#[unsafe(no_mangle)]
pub extern "C" fn deck_judge(s: &[u8], order: &mut [u8], cycle: &mut [u8]) -> Judged
    ensures { JudgeCall s.now order.old order.new cycle.old cycle.new result }
{
    capi::deck_judge(s, order, cycle)
}

#[unsafe(no_mangle)]
pub extern "C" fn deck_serial(s: &[u8]) -> Answered
    ensures { TestCall SerialHistory s.now result }
{
    capi::deck_serial(s)
}

#[unsafe(no_mangle)]
pub extern "C" fn deck_atomic(s: &[u8]) -> Answered
    ensures { TestCall RelativelyAtomicHistory s.now result }
{
    capi::deck_atomic(s)
}

#[unsafe(no_mangle)]
pub extern "C" fn deck_relserial(s: &[u8]) -> Answered
    ensures { TestCall RelativelySerialHistory s.now result }
{
    capi::deck_relserial(s)
}

#[unsafe(no_mangle)]
pub extern "C" fn deck_conflict(s: &[u8]) -> Answered
    ensures { TestCall ConflictSerializableHistory s.now result }
{
    capi::deck_conflict(s)
}

#[unsafe(no_mangle)]
pub extern "C" fn deck_check_order(s: &[u8], list: &[u8]) -> Answered
    ensures { TestCall (λ c. RelativelySerialOrder (conflict_of c) (unit_of c) c.history list.now) s.now result }
{
    capi::deck_check_order(s, list)
}

#[unsafe(no_mangle)]
pub extern "C" fn deck_check_cycle(s: &[u8], list: &[u8]) -> Answered
    ensures { TestCall (λ c. Cycle (conflict_of c) (unit_of c) c.history list.now) s.now result }
{
    capi::deck_check_cycle(s, list)
}

#[unsafe(no_mangle)]
pub extern "C" fn deck_arc(s: &[u8], from: usize, to: usize) -> Answered
    ensures { NameCall (λ c. names_of (conflict_of c) (unit_of c) c.history from to) s.now result }
{
    capi::deck_arc(s, from, to)
}

#[unsafe(no_mangle)]
pub extern "C" fn deck_write(s: &[u8], out: &mut [u8]) -> Answered
    ensures { WriteCall s.now out.old out.new result }
{
    capi::deck_write(s, out)
}

#[unsafe(no_mangle)]
pub extern "C" fn deck_open(s: &[u8]) -> OpenedGate
    ensures { OpenCall s.now result }
{
    capi::deck_open(s)
}

#[unsafe(no_mangle)]
pub extern "C" fn deck_step(g: &mut Gate, run: u8) -> Answered
    ensures { GateCall (step_call run) g.old g.new result }
{
    capi::deck_step(g, run)
}

#[unsafe(no_mangle)]
pub extern "C" fn deck_withdraw(g: &mut Gate, run: u8) -> Answered
    ensures { GateCall (withdraw_call run) g.old g.new result }
{
    capi::deck_withdraw(g, run)
}

#[unsafe(no_mangle)]
pub extern "C" fn deck_take_back(g: &mut Gate, run: u8) -> Answered
    ensures { GateCall (take_back_call run) g.old g.new result }
{
    capi::deck_take_back(g, run)
}

#[unsafe(no_mangle)]
pub extern "C" fn deck_replay(s: &[u8], calls: &[u8], answers: &mut [u8]) -> Answered
    ensures { ReplayCall s.now calls.now answers.old answers.new result }
{
    capi::deck_replay(s, calls, answers)
}

#[unsafe(no_mangle)]
pub extern "C" fn deck_islands(s: &[u8]) -> ListedIslands
    ensures { IslandsCall s.now result }
{
    capi::deck_islands(s)
}

#[unsafe(no_mangle)]
pub extern "C" fn deck_island_history(s: &[u8], run: u8) -> ListedSteps
    ensures { IslandHistoryCall s.now run result }
{
    capi::deck_island_history(s, run)
}

#[unsafe(no_mangle)]
pub extern "C" fn deck_judge_island(s: &[u8], run: u8, order: &mut [u8], cycle: &mut [u8]) -> Judged
    ensures { IslandJudgeCall s.now run order.old order.new cycle.old cycle.new result }
{
    capi::deck_judge_island(s, run, order, cycle)
}
