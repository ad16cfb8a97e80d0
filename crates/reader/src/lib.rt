// The reader: from the bytes of a deck book to its tables, or the refusal.
#![tactic(auto)]

ghost use Rattle.std.specs.Prelude.{MatchResult, ◌≡◌, ◌+◌, ◌-◌, ◌*◌, ◌<◌, length};
ghost use Rattle.book.specs.Format.{kind_limit, position_limit, run_limit, run_step_limit, step_limit, refused, step, width, touch_of_bytes, obey, pair_at, run_at, single_at, transfer_at, cut_at, done_at, end_at, command_at, read_by, read};
ghost use Rattle.book.specs.Book.{pairs_size, cuts_size, run_cuts, as_touch, as_step, Fitting, ReadAs};
ghost use Rattle.reader.specs.Inner.Reader.{at_start, past_pair, past_run, past_step, past_cut, past_done, so_far, refusal, Limited, Inside, Operands, Any, Lengths, Tables, command_width, Decides, PositionsLow, StepTested, MayTake, CommandReadAs};
ghost use Rattle.book.specs.declared.Cause.TheVariants.{EndsEarly};

use book::{Book, Cause, Refusal, Rules, Step, Touch, wide};

// The rules, and what the commands so far leave for the next one: the group of the last one, the least index that the next pair and the next
// cut may have in their tables, the number of steps of the last run, and the counts of the book so far.
#[derive(Clone, Copy)]
struct Progress {
    rules: Rules,
    group: u8,
    next_pair: usize,
    next_cut: usize,
    last: u8,
    declared: usize,
    total: usize,
    done: usize,
}

impl Progress {
    // Nothing is read yet.
    fn start(rules: Rules) -> Self
        ensures { result ≡ at_start rules }
    {
        Self {
            rules,
            group: 0,
            next_pair: 0,
            next_cut: 0,
            last: 0,
            declared: 0,
            total: 0,
            done: 0,
        }
    }

    // Behind a command, one for each; the index is that of the pair or the cut that was read.
    fn past_pair(mut self, index: usize) -> Self
        requires { index < pairs_size }
        ensures { result ≡ past_pair self index }
    {
        self.group = 0;
        self.next_pair = index + 1;
        self
    }

    fn past_run(mut self) -> Self
        requires { self.declared < run_limit }
        ensures { result ≡ past_run self }
    {
        self.group = 1;
        self.last = 0;
        self.declared += 1;
        self
    }

    fn past_step(mut self) -> Self
        requires { (self.last < run_step_limit) × (self.total < step_limit) }
        ensures { result ≡ past_step self }
    {
        self.group = 1;
        self.last += 1;
        self.total += 1;
        self
    }

    fn past_cut(mut self, index: usize) -> Self
        requires { index < cuts_size }
        ensures { result ≡ past_cut self index }
    {
        self.group = 2;
        self.next_cut = index + 1;
        self
    }

    fn past_done(mut self) -> Self
        requires { self.done < step_limit }
        ensures { result ≡ past_done self }
    {
        self.group = 3;
        self.done += 1;
        self
    }
}

// What a command says: what to add to the book, or the end.
#[derive(Clone, Copy)]
enum Command {
    // The index of a pair.
    Pair(usize),
    // The next run.
    Run,
    // The code of a step, and the number of its bytes.
    Step(u64, usize),
    // The index of a cut.
    Cut(usize),
    // The run.
    Done(u8),
    End,
}

impl Command {
    // The number of its bytes.
    fn width(self) -> usize
        ensures { result ≡ command_width self }
    {
        match self {
            Command::Pair(_) => 3,
            Command::Run => 2,
            Command::Step(_, size) => size,
            Command::Cut(_) => 4,
            Command::Done(_) => 2,
            Command::End => 1,
        }
    }
}

// The touch of three bytes: its kind, and its position, high byte first.
fn touch_of(kind: u8, high: u8, low: u8) -> Touch
    ensures { (as_touch result ≡ touch_of_bytes kind high low) × (result.position < position_limit) }
{
    Touch {
        kind,
        position: (high as u16) * 256 + (low as u16),
    }
}

// The index of a pair in its table.
fn pair_index(a: usize, b: usize) -> usize
    requires { (a < kind_limit) × (b < kind_limit) }
    ensures { result ≡ a * kind_limit + b }
{
    a * Book::KINDS + b
}

// The index of a cut in its table.
fn cut_index(r: usize, j: usize, o: usize) -> usize
    requires { (r < run_limit) × (j < 256) × (o < run_limit) }
    ensures { result ≡ r * run_cuts + j * run_limit + o }
{
    r * Book::RUN_CUTS + j * Book::RUNS + o
}

// Where a command begins: the bytes, its offset, and what the commands before it leave, with the runs' lengths and their counts of done steps.
#[derive(Clone, Copy)]
struct Place<'a> {
    s: &'a [u8],
    at: usize,
    p: Progress,
    lengths: &'a [u8; Book::RUNS],
    counts: &'a [u8; Book::RUNS],
    ghost inside: { Inside s.now at p },
}

impl Place<'_> {
    // The N bytes behind the command's own.
    fn operands<const N: usize>(&self) -> Result<[u8; N], Refusal>
        ensures { MatchResult result (Operands self.now.s.now self.now.at N) (λ e. (length self.now.s.now - self.now.at < N + 1) × (e ≡ refusal EndsEarly self.now.at)) }
    {
        if self.s.len() - self.at <= N {
            return book::refused(Cause::EndsEarly, self.at);
        }
        let from = self.at + 1;
        Ok(*self.s[from..from + N].first_chunk().unwrap())
    }

    // 43, kinds a, b.
    fn pair(&self) -> Result<Command, Refusal>
        ensures { Decides Any (obey pair_at) self.now.s.now self.now.at self.now.p result }
    {
        let [a, b] = self.operands::<2>()?;
        if self.p.group > 0 {
            return book::refused(Cause::OutOfOrder, self.at);
        }
        let a = wide(a);
        let b = wide(b);
        if b >= Book::KINDS || a > b {
            return book::refused(Cause::WrongKind, self.at);
        }
        let index = pair_index(a, b);
        if index < self.p.next_pair {
            return book::refused(Cause::NotRising, self.at);
        }
        Ok(Command::Pair(index))
    }

    // 52, run r.
    fn run(&self) -> Result<Command, Refusal>
        ensures { Decides Any (obey run_at) self.now.s.now self.now.at self.now.p result }
    {
        let [number] = self.operands::<1>()?;
        if self.p.group > 1 {
            return book::refused(Cause::OutOfOrder, self.at);
        }
        let r = wide(number);
        if r != self.p.declared {
            return book::refused(Cause::WrongRun, self.at);
        }
        if self.p.declared >= Book::RUNS {
            return book::refused(Cause::TooManyRuns, self.at);
        }
        Ok(Command::Run)
    }

    // The tests of a step of so many bytes behind that of its bytes.
    fn step(&self, x: Step, size: usize) -> Result<Command, Refusal>
        requires { PositionsLow (as_step x) × (size ≡ width (step (as_step x))) }
        ensures { StepTested x self.now.at self.now.p result }
    {
        if self.p.group > 1 || self.p.declared == 0 {
            return book::refused(Cause::OutOfOrder, self.at);
        }
        if !book::kinds_low(x) {
            return book::refused(Cause::WrongKind, self.at);
        }
        if wide(self.p.last) >= Book::RUN_STEPS {
            return book::refused(Cause::RunTooLong, self.at);
        }
        if self.p.total >= self.p.rules.step_limit as usize {
            return book::refused(Cause::TooManySteps, self.at);
        }
        Ok(Command::Step(book::code_of(x), size))
    }

    // 53, kind, position.
    fn single(&self) -> Result<Command, Refusal>
        ensures { Decides Any (obey single_at) self.now.s.now self.now.at self.now.p result }
    {
        let [kind, high, low] = self.operands::<3>()?;
        let t = touch_of(kind, high, low);
        self.step(Step::Single(t), 4)
    }

    // 54, kind, position, kind, position.
    fn transfer(&self) -> Result<Command, Refusal>
        ensures { Decides Any (obey transfer_at) self.now.s.now self.now.at self.now.p result }
    {
        let [k, h, l, kind, high, low] = self.operands::<6>()?;
        let t = touch_of(k, h, l);
        let u = touch_of(kind, high, low);
        self.step(Step::Transfer(t, u), 7)
    }

    // 42, run r, number j, run o.
    fn cut(&self) -> Result<Command, Refusal>
        ensures { Decides (Lengths self.now.lengths.now) (obey cut_at) self.now.s.now self.now.at self.now.p result }
    {
        let [r, j, o] = self.operands::<3>()?;
        if self.p.group > 2 {
            return book::refused(Cause::OutOfOrder, self.at);
        }
        let r = wide(r);
        let j = wide(j);
        let o = wide(o);
        if r >= self.p.declared || o >= self.p.declared || r == o {
            return book::refused(Cause::WrongRun, self.at);
        }
        let length = wide(self.lengths[r]);
        if j == 0 || j >= length {
            return book::refused(Cause::WrongCut, self.at);
        }
        let index = cut_index(r, j, o);
        if index < self.p.next_cut {
            return book::refused(Cause::NotRising, self.at);
        }
        Ok(Command::Cut(index))
    }

    // 48, run r.
    fn done(&self) -> Result<Command, Refusal>
        ensures { Decides (Tables self.now.lengths.now self.now.counts.now) (obey done_at) self.now.s.now self.now.at
            self.now.p result }
    {
        let [run] = self.operands::<1>()?;
        let r = wide(run);
        if r >= self.p.declared {
            return book::refused(Cause::WrongRun, self.at);
        }
        if self.counts[r] >= self.lengths[r] {
            return book::refused(Cause::NoStepLeft, self.at);
        }
        Ok(Command::Done(run))
    }

    // 45.
    fn end(&self) -> Result<Command, Refusal>
        ensures { Decides Any end_at self.now.s.now self.now.at self.now.p result }
    {
        let next = self.at + 1;
        if next < self.s.len() {
            return book::refused(Cause::BytesAfterEnd, next);
        }
        Ok(Command::End)
    }
}

// The command at an offset.
fn command_at<'a>(
    s: &'a [u8],
    at: usize,
    p: Progress,
    lengths: &'a [u8; Book::RUNS],
    counts: &'a [u8; Book::RUNS],
) -> Result<Command, Refusal>
    requires { Limited p }
    ensures { Decides (Tables lengths.now counts.now) command_at s.now at p result }
{
    if at >= s.len() {
        return book::refused(Cause::EndsEarly, at);
    }
    let place = Place {
        s,
        at,
        p,
        lengths,
        counts,
    };
    match s[at] {
        0x43 => place.pair(),
        0x52 => place.run(),
        0x53 => place.single(),
        0x54 if p.rules.has_transfers => place.transfer(),
        0x42 if p.rules.has_cuts => place.cut(),
        0x48 => place.done(),
        0x45 => place.end(),
        _ => book::refused(Cause::NoCommand, at),
    }
}

// The reader: the book's bytes, and how far it has come.
#[derive(Clone, Copy)]
struct Reader<'a> {
    src: &'a [u8],
    at: usize,
}

impl<'a> Reader<'a> {
    // Takes one command and moves on behind it; a refusal leaves the reader where it stands.
    fn take<'t>(
        &mut self,
        p: Progress,
        lengths: &'t [u8; Book::RUNS],
        counts: &'t [u8; Book::RUNS],
    ) -> Result<Command, Refusal>
        requires { MayTake self.old.src.now self.old.at p }
        ensures { (self.new.src ≡ self.old.src)
            × CommandReadAs lengths.now counts.now self.old.src.now self.old.at p result self.new.at }
    {
        let command = command_at(self.src, self.at, p, lengths, counts)?;
        self.at += command.width();
        Ok(command)
    }
}

// Reads a book of a dialect whose steps and bytes are no more than a book's tables have room for. The length is tested first. Then the commands are read in
// turn: the reader says what each adds, and that is stored where it belongs.
fn read_by(rules: Rules, s: &[u8]) -> Result<Book, Refusal>
    requires { Fitting rules }
    ensures { ReadAs (read_by rules s.now) result }
{
    if s.len() > rules.length_limit as usize {
        return book::refused(Cause::BookTooLong, 0);
    }
    let mut book = Book::empty();
    let mut p = Progress::start(rules);
    let mut reader = Reader { src: s, at: 0 };
    loop {
        let command = reader.take(p, &book.lengths, &book.counts)?;
        match command {
            Command::Pair(index) => {
                book.pairs[index] = 1;
                p = p.past_pair(index);
            }
            Command::Run => p = p.past_run(),
            Command::Step(code, _) => {
                book.steps[p.total] = code;
                book.lengths[p.declared - 1] = p.last + 1;
                p = p.past_step();
            }
            Command::Cut(index) => {
                book.cuts[index] = 1;
                p = p.past_cut(index);
            }
            Command::Done(run) => {
                book.history[p.done] = run;
                book.counts[wide(run)] += 1;
                p = p.past_done();
            }
            Command::End => return Ok(accepted(book, p)),
        }
    }
}

// The book of these tables, with the counts of the progress.
fn accepted(mut book: Book, p: Progress) -> Book
    ensures { result ≡ so_far book p }
{
    book.declared = p.declared;
    book.total = p.total;
    book.done = p.done;
    book
}

// Reads a deck book, for every string of bytes: the outcome is that of the format.
pub fn read(s: &[u8]) -> Result<Book, Refusal>
    ensures { ReadAs (read s.now) result }
{
    read_by(
        Rules {
            step_limit: Book::STEPS as u16,
            length_limit: Book::LENGTH as u16,
            has_cuts: true,
            has_transfers: true,
        },
        s,
    )
}
