// The writer: it reads a book, and puts the bytes of what was read into a lent buffer. One function a group, each lent what is left of the
// buffer behind the group before. Each function that puts bytes answers how many.
#![tactic(auto)]

ghost use Rattle.std.specs.Prelude.{⊤, ◌≡◌, ◌∷◌, map, ◌+◌, ◌/◌, ◌<◌, ◌≤◌, length};
ghost use Rattle.buffer.specs.Put.{Put};
ghost use Rattle.book.specs.Format.{run, done, touch_bytes, step_bytes};
ghost use Rattle.book.specs.Render.{run_commands, render};
ghost use Rattle.book.specs.Book.{pairs_size, cuts_size, as_touch, as_step};
ghost use Rattle.writer.specs.Written.{Wrote};
ghost use Rattle.writer.specs.Inner.Groups.{bytes_of, pair_commands, cut_commands, step_commands, block_size, pair_piece, cut_piece, block_piece, step_piece, done_piece, runs_divided, Codes, RunsHeld, BookHeld, table_contents};

use book::{Book, Cause, Refusal, Step, Touch};
use buffer::Pieces;

// What the writer answers: a refusal, whose place is 0 where the buffer is short; or how many bytes are put, the book's length.
pub type Written = Result<usize, Refusal>;

// The table of cuts is put in blocks of so many flags. The compiler makes a loop over so many one over vectors, of 16 it does not.
const BLOCK: usize = 8 * Book::RUNS;

// A touch: a kind, and a position, high byte first.
fn touch_bytes(t: Touch) -> [u8; 3]
    ensures { result ≡ touch_bytes (as_touch t) }
{
    let [high, low] = t.position.to_be_bytes();
    [t.kind, high, low]
}

// 53 and a touch, or 54 and two.
fn put_step(x: Step, out: &mut [u8]) -> usize
    requires { length (step_bytes (as_step x)) ≤ length out.old }
    ensures { Put (step_bytes (as_step x)) out.old out.new result }
{
    match x {
        Step::Single(t) => {
            let [kind, high, low] = touch_bytes(t);
            buffer::put_bytes(&[0x53, kind, high, low], out)
        }
        Step::Transfer(t, u) => {
            let [k, h, l] = touch_bytes(t);
            let [kind, high, low] = touch_bytes(u);
            buffer::put_bytes(&[0x54, k, h, l, kind, high, low], out)
        }
    }
}

// A table of pairs: 43 and the kinds of the pair at each index, if its flag is set.
#[derive(Clone, Copy)]
struct Pairs<'a>(&'a [u8]);

impl<'a> Pieces for Pairs<'a> {
    ghost can_put = { λ p. length p.0.now ≤ pairs_size };

    ghost count = { λ p. length p.0.now };

    ghost piece = { λ p. pair_piece p.0.now };

    fn count(&self) -> usize {
        self.0.len()
    }

    fn put(&self, i: usize, out: &mut [u8]) -> usize {
        if self.0[i] == 0 {
            return 0;
        }
        let bytes = [0x43, (i / Book::KINDS) as u8, (i % Book::KINDS) as u8];
        buffer::put_bytes(&bytes, out)
    }
}

// A part of a table of cuts, of which the first flag is at index `first`: 42 and the triple of the cut at each index, if its flag is set.
#[derive(Clone, Copy)]
struct Cuts<'a> {
    flags: &'a [u8],
    first: usize,
}

impl<'a> Pieces for Cuts<'a> {
    ghost can_put = { λ p. p.first + length p.flags.now ≤ cuts_size };

    ghost count = { λ p. length p.flags.now };

    ghost piece = { λ p. cut_piece p.first p.flags.now };

    fn count(&self) -> usize {
        self.flags.len()
    }

    fn put(&self, i: usize, out: &mut [u8]) -> usize {
        if self.flags[i] == 0 {
            return 0;
        }
        let index = self.first + i;
        let bytes = [
            0x42,
            (index / Book::RUN_CUTS) as u8,
            (index % Book::RUN_CUTS / Book::RUNS) as u8,
            (index % Book::RUNS) as u8,
        ];
        buffer::put_bytes(&bytes, out)
    }
}

// A table of cuts, in blocks: no look at each flag of a block where none is set.
#[derive(Clone, Copy)]
struct Blocks<'a>(&'a [u8]);

impl<'a> Pieces for Blocks<'a> {
    ghost can_put = { λ p. length p.0.now ≡ cuts_size };

    ghost count = { λ p. length p.0.now / block_size };

    ghost piece = { λ p. block_piece block_size p.0.now };

    fn count(&self) -> usize {
        self.0.len() / BLOCK
    }

    fn put(&self, i: usize, out: &mut [u8]) -> usize {
        let first = i * BLOCK;
        let flags = &self.0[first..first + BLOCK];
        if valid::largest(flags, 0) == 0 {
            return 0;
        }
        buffer::put_pieces(&Cuts { flags, first }, out)
    }
}

// The steps of these codes.
#[derive(Clone, Copy)]
struct Steps<'a>(&'a [u64]);

impl<'a> Pieces for Steps<'a> {
    ghost can_put = { λ p. Codes p.0.now };

    ghost count = { λ p. length p.0.now };

    ghost piece = { λ p. step_piece p.0.now };

    fn count(&self) -> usize {
        self.0.len()
    }

    fn put(&self, i: usize, out: &mut [u8]) -> usize {
        put_step(book::step_coded(self.0[i]), out)
    }
}

// 48 and a run's number for each done step.
#[derive(Clone, Copy)]
struct Done<'a>(&'a [u8]);

impl<'a> Pieces for Done<'a> {
    ghost can_put = { λ p. ⊤ };

    ghost count = { λ p. length p.0.now };

    ghost piece = { λ p. done_piece p.0.now };

    fn count(&self) -> usize {
        self.0.len()
    }

    fn put(&self, i: usize, out: &mut [u8]) -> usize {
        buffer::put_bytes(&[0x48, self.0[i]], out)
    }
}

// The group of 43.
fn put_pairs(pairs: &[u8], out: &mut [u8]) -> usize
    requires { (length pairs.now ≤ pairs_size) × (length (bytes_of (pair_commands pairs.now)) ≤ length out.old) }
    ensures { Put (bytes_of (pair_commands pairs.now)) out.old out.new result }
{
    buffer::put_pieces(&Pairs(pairs), out)
}

// 52, the run's number, and its steps.
fn put_run(number: u8, steps: &[u64], out: &mut [u8]) -> usize
    requires { Codes steps.now × (length (bytes_of (run number ∷ step_commands steps.now)) ≤ length out.old) }
    ensures { Put (bytes_of (run number ∷ step_commands steps.now)) out.old out.new result }
{
    let n = buffer::put_bytes(&[0x52, number], &mut out[..]);
    let k = buffer::put_pieces(&Steps(steps), &mut out[n..]);
    n + k
}

// The group of 52, 53 and 54.
fn put_runs(lengths: &[u8], steps: &[u64], out: &mut [u8]) -> usize
    requires { RunsHeld (length lengths.now) lengths.now steps.now
        × (length (bytes_of (run_commands 0 (runs_divided (length lengths.now) lengths.now steps.now))) ≤ length out.old) }
    ensures { Put (bytes_of (run_commands 0 (runs_divided (length lengths.now) lengths.now steps.now))) out.old out.new result }
{
    let mut at: usize = 0;
    let mut base: usize = 0;
    for (r, length) in lengths.iter().enumerate() {
        let end = base + book::wide(*length);
        let n = put_run(r as u8, &steps[base..end], &mut out[at..]);
        at += n;
        base = end;
    }
    at
}

// The group of 42.
fn put_cuts(cuts: &[u8], out: &mut [u8]) -> usize
    requires { (length cuts.now ≡ cuts_size) × (length (bytes_of (cut_commands cuts.now)) ≤ length out.old) }
    ensures { Put (bytes_of (cut_commands cuts.now)) out.old out.new result }
{
    buffer::put_pieces(&Blocks(cuts), out)
}

// The group of 48.
fn put_history(history: &[u8], out: &mut [u8]) -> usize
    requires { length (bytes_of (map done history.now)) ≤ length out.old }
    ensures { Put (bytes_of (map done history.now)) out.old out.new result }
{
    buffer::put_pieces(&Done(history), out)
}

// All groups, each behind the one before, and the end.
fn put_book(b: &Book, out: &mut [u8]) -> usize
    requires { BookHeld b.now.pairs b.now.declared b.now.lengths b.now.steps b.now.cuts b.now.done b.now.history (length out.old) }
    ensures { Put (render (table_contents b.now.pairs b.now.declared b.now.lengths b.now.steps b.now.cuts b.now.done b.now.history)) out.old out.new result }
{
    let pairs_end = put_pairs(&b.pairs, &mut out[..]);
    let n = put_runs(&b.lengths[..b.declared], &b.steps, &mut out[pairs_end..]);
    let runs_end = pairs_end + n;
    let m = put_cuts(&b.cuts, &mut out[runs_end..]);
    let cuts_end = runs_end + m;
    let k = put_history(&b.history[..b.done], &mut out[cuts_end..]);
    let history_end = cuts_end + k;
    let e = buffer::put_byte(0x45, &mut out[history_end..]);
    history_end + e
}

// Reads a book, and puts the bytes of what was read into the buffer.
pub fn write(s: &[u8], out: &mut [u8]) -> Written
    ensures { Wrote s.now out.old out.new result }
{
    let b = reader::read(s)?;
    if out.len() < s.len() {
        return book::refused(Cause::WriterBufferShort, 0);
    }
    let n = put_book(&b, out);
    Ok(n)
}
