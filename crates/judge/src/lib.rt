// The judge: the order that takes the smallest ready place at each turn, or a cycle and the names of its arcs, in buffers that the caller lends.
#![tactic(auto)]

ghost use Rattle.std.specs.Prelude.{◌≡◌, ◌<◌, ◌≤◌, length};
ghost use Rattle.book.specs.Format.{step_limit};
ghost use Rattle.book.specs.Meaning.{conflict_of, unit_of, RelativelySerializableHistory};
ghost use Rattle.book.specs.Book.{contents_of, Valid};
ghost use Rattle.theory.specs.Answers.{Answers};
ghost use Rattle.graph.specs.Inner.Arcs.{ArcRows};
ghost use Rattle.judge.specs.Judged.{JudgedAs};
ghost use Rattle.judge.specs.Judge.{BytesJudged};
ghost use Rattle.judge.specs.Front.{first_bytes, front_of, front_at};
ghost use Rattle.judge.specs.Inner.Arcs.{JudgedBy};
ghost use Rattle.judge.specs.Inner.Names.{After, ValueBy, ValuesBy, CycleCounted, EvidenceNamed, EvidenceNamedBy};

use bits::Table;
use book::{Book, Cause, Refusal};
use graph::Graph;

// What the judge says of a history: passed, if it is relatively serializable, else tangled.
#[derive(Clone, Copy)]
pub enum Verdict {
    Passed,
    Tangled,
}

// The verdict, and how many bytes of its buffer are filled: the done steps if passed, the cycle's length if tangled.
#[derive(Clone, Copy)]
pub struct Judgement {
    pub verdict: Verdict,
    pub count: usize,
}

// The judge of a graph, whose arcs the table marks.
fn judge_arcs(g: &Graph, arc: &Table, order: &mut [u8], cycle: &mut [u8]) -> Judgement
    requires { ArcRows g.now arc.now × (step_limit ≤ length order.old) × (step_limit ≤ length cycle.old) }
    ensures { JudgedBy g.now order.old order.new cycle.old cycle.new result }
{
    let n = g.n;
    let t = turns::greedy(&g.history, n, arc);
    if t.count == n {
        buffer::put_bytes(&t.order[..n], order);
        return Judgement {
            verdict: Verdict::Passed,
            count: n,
        };
    }
    Judgement {
        verdict: Verdict::Tangled,
        count: turns::find_cycle(arc, n, &t.taken, cycle),
    }
}

// The index after i on a cycle of len places.
fn after(i: usize, len: usize) -> usize
    requires { i < len }
    ensures { After i len result }
{
    if i + 1 < len { i + 1 } else { 0 }
}

// The value of the names of arc i of the cycle: from place i to the one after.
#[tactic(auto, using(crate::proofs::NamedCycles::value_is))]
fn arc_value(g: &Graph, cycle: &[u8], i: usize) -> u8
    requires { i < length cycle.now }
    ensures { ValueBy g.now cycle.now i result }
{
    let x = book::wide(cycle[i]);
    let y = book::wide(cycle[after(i, cycle.len())]);
    names::names_value(names::arc_names(g, x, y))
}

// The value of the names of each arc of the cycle in turn, the one back to the first place last.
#[tactic(auto, using(crate::proofs::NamedCycles::named_all))]
fn name_arcs(g: &Graph, cycle: &[u8], values: &mut [u8])
    requires { length cycle.now ≤ length values.old }
    ensures { ValuesBy g.now cycle.now values.old values.new }
{
    for i in 0..cycle.len() {
        values[i] = arc_value(g, cycle, i);
    }
}

// The same of the cycle of a judgement that is tangled.
fn name_evidence(g: &Graph, judgement: Judgement, cycle: &[u8], values: &mut [u8])
    requires { CycleCounted cycle.now judgement.verdict judgement.count × (step_limit ≤ length values.old) }
    ensures { EvidenceNamedBy g.now cycle.now values.old values.new judgement.verdict judgement.count }
{
    match judgement.verdict {
        Verdict::Tangled => name_arcs(g, &cycle[..judgement.count], values),
        Verdict::Passed => {}
    }
}

// The judge of the history of a valid book that is lent. If it is tangled, `values` has the value of the names of each arc of the cycle, for whoever prints
// them.
pub fn judge_book_lent(b: &Book, order: &mut [u8], cycle: &mut [u8], values: &mut [u8]) -> Judgement
    requires { Valid b.now × (step_limit ≤ length order.old) × (step_limit ≤ length cycle.old) × (step_limit ≤ length values.old) }
    ensures judged_as { JudgedAs (conflict_of (contents_of b.now)) (unit_of (contents_of b.now)) (contents_of b.now).history order.old order.new cycle.old cycle.new result.verdict result.count }
    ensures evidence_named { EvidenceNamed (conflict_of (contents_of b.now)) (unit_of (contents_of b.now)) (contents_of b.now).history cycle.new values.old values.new result.verdict result.count }
{
    let g = graph::tables(b);
    let mut arc = [0; bits::TABLE_WORDS];
    graph::arcs(&g, &mut arc);
    let j = judge_arcs(&g, &arc, order, cycle);
    name_evidence(&g, j, cycle, values);
    j
}

// The same of a book by value.
pub fn judge_book(b: Book, order: &mut [u8], cycle: &mut [u8], values: &mut [u8]) -> Judgement
    requires { Valid b × (step_limit ≤ length order.old) × (step_limit ≤ length cycle.old) × (step_limit ≤ length values.old) }
    ensures judged_as { JudgedAs (conflict_of (contents_of b)) (unit_of (contents_of b)) (contents_of b).history order.old order.new cycle.old cycle.new result.verdict result.count }
    ensures evidence_named { EvidenceNamed (conflict_of (contents_of b)) (unit_of (contents_of b)) (contents_of b).history cycle.new values.old values.new result.verdict result.count }
{
    judge_book_lent(&b, order, cycle, values)
}

// Whether the judge passes a valid book's history, without evidence: whether the turns take every place.
#[tactic(auto, using(crate::proofs::Verdicts::graph_passes, theory::proofs::DeckLaws::lawful))]
pub fn passes(b: Book) -> bool
    requires { Valid b }
    ensures { Answers (RelativelySerializableHistory (contents_of b)) result }
{
    let g = graph::tables(&b);
    let mut arc = [0; bits::TABLE_WORDS];
    graph::arcs(&g, &mut arc);
    turns::greedy(&g.history, g.n, &arc).count == g.n
}

// The judge of a book's bytes. Both buffers have at least Book::STEPS bytes, or the judge refuses.
pub fn judge(s: &[u8], order: &mut [u8], cycle: &mut [u8]) -> Result<Judgement, Refusal>
    ensures { BytesJudged order.old order.new cycle.old cycle.new s.now result }
{
    if order.len() < Book::STEPS || cycle.len() < Book::STEPS {
        return book::refused(Cause::JudgeBufferShort, 0);
    }
    let b = reader::read(s)?;
    let mut values = [0; Book::STEPS];
    Ok(judge_book_lent(&b, order, cycle, &mut values))
}

// The first bytes of s, as many as the count, or an empty part if it is shorter.
fn first_bytes(s: &[u8], count: usize) -> &[u8]
    ensures value { result.now ≡ first_bytes count s.now }
    ensures place { result.ref_ptr ≡ s.entry.ref_ptr }
{
    if count <= s.len() {
        &s[..count]
    } else {
        &s[..0]
    }
}

// The filled part of the buffer that the verdict used: its first bytes, as many as the count; an empty part if it is shorter or the judge refused. The
// part lies in that buffer itself, and begins where it does; where the judge refused, in the order buffer.
pub fn front<'a>(order: &'a [u8], cycle: &'a [u8], judged: Result<Judgement, Refusal>) -> &'a [u8]
    ensures result_value { result.now ≡ front_of judged order.now cycle.now }
    ensures ref_ptr_value { result.ref_ptr ≡ front_at judged order.entry.ref_ptr cycle.entry.ref_ptr }
{
    let Ok(judgement) = judged else {
        return &order[..0];
    };
    match judgement.verdict {
        Verdict::Passed => first_bytes(order, judgement.count),
        Verdict::Tangled => first_bytes(cycle, judgement.count),
    }
}
