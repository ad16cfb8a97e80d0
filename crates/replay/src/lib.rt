// The replay of a whole list of calls, in bytes, on a gate newly opened over a book.
#![tactic(auto)]

ghost use Rattle.std.specs.Prelude.{◌≡◌, ◌<◌, true, false, length, MatchOption};
ghost use Rattle.gate.specs.Gate.{as_call, answer_of};
ghost use Rattle.replay.specs.Replay.{is_call, call_of, calls_of, bad_at, answer_bytes, Replays};
ghost use Rattle.replay.specs.Inner.Calls.{Low, AnswersRoom, Plays};

use book::{Cause, Refusal};
use gate::{Call, Gate, Reply};

// One call in two bytes: 0x53 and a run steps it, 0x57 and a run withdraws it, 0x54 and a run takes it back; no other byte is a call's first.
fn call_of(op: u8, run: u8) -> Option<Call>
    ensures { MatchOption result (is_call op ≡ false) (λ x. (is_call op ≡ true) × (as_call x ≡ call_of op run)) }
{
    match op {
        0x53 => Some(Call::Step(run)),
        0x57 => Some(Call::Withdraw(run)),
        0x54 => Some(Call::TakeBack(run)),
        _ => None,
    }
}

// The two bytes of an answer: 0 and the place, 1 and 0 for "withdrawn", 2 and a refusal's number, 3 and 0 for "taken back".
fn answer_bytes(a: Result<Reply, Cause>) -> [u8; 2]
    requires { Low a }
    ensures { result ≡ answer_bytes (answer_of a) }
{
    match a {
        Ok(Reply::Place(p)) => [0, p as u8],
        Ok(Reply::Withdrawn) => [1, 0],
        Ok(Reply::TakenBack) => [3, 0],
        Err(cause) => [2, book::number_of(cause)],
    }
}

// The offset of the first call that is none of 0x53, 0x57 and 0x54, or is cut off, if there is one.
fn bad_call(calls: &[u8]) -> Option<usize>
    ensures { MatchOption result (bad_at 0 calls.now ≡ length calls.now) (λ at. (at ≡ bad_at 0 calls.now) × (at < length calls.now)) }
{
    let (pairs, rest) = calls.as_chunks::<2>();
    for (i, [op, run]) in pairs.iter().enumerate() {
        if call_of(*op, *run).is_none() {
            return Some(2 * i);
        }
    }
    if rest.is_empty() {
        None
    } else {
        Some(2 * pairs.len())
    }
}

// Makes the calls in turn on the one record, and puts their answers into the buffer.
fn play(g: &mut Gate, calls: &[u8], answers: &mut [u8])
    requires room { AnswersRoom g.old (calls_of calls.now) answers.old }
    requires whole { bad_at 0 calls.now ≡ length calls.now }
    ensures { Plays g.old (calls_of calls.now) answers.old answers.new g.new }
{
    let (pairs, _) = calls.as_chunks::<2>();
    for (i, [op, run]) in pairs.iter().enumerate() {
        let x = call_of(*op, *run).unwrap();
        let reply = g.call(x);
        answers[2 * i..2 * i + 2].copy_from_slice(&answer_bytes(reply));
    }
}

// What a replay answers: how many calls are made, all of the list; or the refusal, with its place in the book, or for 24 its offset in the list.
pub type Played = Result<usize, Refusal>;

// The answer, and the record as the last call left it; where the replay is refused, as opening left it.
#[derive(Clone, Copy)]
pub struct Replayed {
    pub played: Played,
    pub gate: Gate,
}

// Opens a gate over the book, makes the calls in turn on the one record, and puts their answers in order into the buffer.
pub fn replay(book: &[u8], calls: &[u8], answers: &mut [u8]) -> Replayed
    ensures { Replays book.now calls.now answers.old answers.new result }
{
    let opened = gate::open(book);
    let mut gate = opened.gate;
    let played = match opened.answer {
        Err(refusal) => Err(refusal),
        Ok(()) => {
            if let Some(at) = bad_call(calls) {
                book::refused(Cause::NoCall, at)
            } else if answers.len() < calls.len() {
                book::refused(Cause::AnswersShort, 0)
            } else {
                play(&mut gate, calls, answers);
                Ok(calls.len() / 2)
            }
        }
    };
    Replayed { played, gate }
}
