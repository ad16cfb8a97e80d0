// The gate: one record, updated by each call. Opening, step, withdraw and take back.
#![tactic(auto)]

ghost use Rattle.std.specs.Prelude.{MatchResult};
ghost use Rattle.theory.specs.Answers.{Answers};
ghost use Rattle.book.specs.Format.{done, effect, read};
ghost use Rattle.book.specs.Book.{Valid, Represents, contents_of};
ghost use Rattle.plain.specs.Plain.{step as step_call, withdraw as withdraw_call, take_back as take_back_call, Eligible, Refusal as RefusedBy};
ghost use Rattle.gate.specs.Gate.{as_call, book_of, state_of, Sound, SoundCall, OpenedAs, CalledAs};
ghost use Rattle.gate.specs.Inner.Calls.{NewlyOpened, StepLeft};

use book::{Book, Cause, Refusal};

// The book, whose history is the kept list, and two flags for each run: 1 once it is withdrawn, and 1 once it is taken back, else 0.
#[repr(C)]
#[derive(Clone, Copy)]
pub struct Gate {
    pub book: Book,
    pub withdrawn: [u8; Book::RUNS],
    pub taken_back: [u8; Book::RUNS],
}

// A call for a run.
#[derive(Clone, Copy)]
pub enum Call {
    Step(u8),
    Withdraw(u8),
    TakeBack(u8),
}

// The answer to a call that is carried out.
#[derive(Clone, Copy)]
pub enum Reply {
    // The place of an admitted step.
    Place(usize),
    Withdrawn,
    TakenBack,
}

// The answer to a call, and the record as it leaves it.
#[derive(Clone, Copy)]
pub struct Called {
    pub answer: Result<Reply, Cause>,
    pub gate: Gate,
}

// Whether the book is accepted, or its refusal; and the gate, which has no runs where the book is refused.
#[derive(Clone, Copy)]
pub struct Opened {
    pub answer: Result<(), Refusal>,
    pub gate: Gate,
}

// Opens a gate over a book: no step is kept, no run withdrawn or taken back.
pub fn open(s: &[u8]) -> Opened
    ensures { OpenedAs (read s.now) result }
{
    match reader::read(s) {
        Ok(book) => Opened {
            answer: Ok(()),
            gate: Gate::over(book),
        },
        Err(refusal) => Opened {
            answer: Err(refusal),
            gate: Gate::over(Book::empty()),
        },
    }
}

impl Gate {
    // The gate newly opened over a valid book.
    fn over(book: Book) -> Self
        requires { Valid book }
        ensures { NewlyOpened (contents_of book) result }
    {
        Self {
            book: book::with_history(book, b""),
            withdrawn: [0; Book::RUNS],
            taken_back: [0; Book::RUNS],
        }
    }

    // Whether the tables have their ranges and agree with each other.
    fn is_sound(&self) -> bool
        ensures { Answers (Sound self.now) result }
    {
        valid::are_flags(self.withdrawn)
            && valid::are_flags(self.taken_back)
            && valid::taken_back_agree(self.taken_back, self.withdrawn, self.book.counts)
            && valid::is_valid(self.book)
    }

    // Refuses a call for run r by 20, 21 and 22, in that order.
    fn eligible(&self, r: u8) -> Result<(), Cause>
        requires { Sound self.now }
        ensures { MatchResult result (λ _. Eligible (book_of self.now) (state_of self.now) r) (RefusedBy (book_of self.now) (state_of self.now) r) }
    {
        let i = r as usize;
        if i >= self.book.declared {
            Err(Cause::NotDeclared)
        } else if self.withdrawn[i] != 0 {
            Err(Cause::Withdrawn)
        } else if self.book.counts[i] >= self.book.lengths[i] {
            Err(Cause::AllKept)
        } else {
            Ok(())
        }
    }

    // Step r on a sound record.
    fn step_run(&mut self, r: u8) -> Result<Reply, Cause>
        requires { Sound self.old }
        ensures { SoundCall self.old (step_call r) result self.new }
    {
        self.eligible(r)?;
        let place = self.book.done;
        let longer = with_done(self.book, r);
        if judge::passes(longer) {
            self.book = longer;
            return Ok(Reply::Place(place));
        }
        Err(Cause::Tangled)
    }

    // Withdraw r on a sound record.
    fn withdraw_run(&mut self, r: u8) -> Result<Reply, Cause>
        requires { Sound self.old }
        ensures { SoundCall self.old (withdraw_call r) result self.new }
    {
        self.eligible(r)?;
        self.withdrawn[r as usize] = 1;
        Ok(Reply::Withdrawn)
    }

    // Take back r on a sound record.
    fn take_run_back(&mut self, r: u8) -> Result<Reply, Cause>
        requires { Sound self.old }
        ensures { SoundCall self.old (take_back_call r) result self.new }
    {
        let i = r as usize;
        if i >= self.book.declared {
            return Err(Cause::NotDeclared);
        }
        if self.taken_back[i] != 0 {
            return Err(Cause::TakenBack);
        }
        let mut left_out = [0u8; Book::RUNS];
        left_out[i] = 1;
        self.book = book::leave_out(self.book, left_out);
        self.withdrawn[i] = 1;
        self.taken_back[i] = 1;
        Ok(Reply::TakenBack)
    }

    // Makes a call: refused by 26 where the record is not sound, else as `step`, `withdraw` and `take_back` say.
    pub fn call(&mut self, x: Call) -> Result<Reply, Cause>
        ensures { CalledAs self.old (as_call x) result self.new }
    {
        if !self.is_sound() {
            return Err(Cause::Damaged);
        }
        match x {
            Call::Step(r) => self.step_run(r),
            Call::Withdraw(r) => self.withdraw_run(r),
            Call::TakeBack(r) => self.take_run_back(r),
        }
    }
}

// The book with one more step of run r done.
fn with_done(mut b: Book, r: u8) -> Book
    requires { StepLeft b r }
    ensures { Represents (effect (done r) (contents_of b)) result }
{
    b.history[b.done] = r;
    b.counts[r as usize] += 1;
    b.done += 1;
    b
}

// Step r: refused by 26 where the record is not sound, then by 20, 21, 22, 23 in that order; else r joins the end of the kept list, and the answer is
// its place.
pub fn step(g: &mut Gate, r: u8) -> Result<Reply, Cause>
    ensures { CalledAs g.old (step_call r) result g.new }
{
    g.call(Call::Step(r))
}

// Withdraw r: refused by 26 where the record is not sound, then by 20, 21, 22 in that order; else r is withdrawn, and the kept list stays.
pub fn withdraw(g: &mut Gate, r: u8) -> Result<Reply, Cause>
    ensures { CalledAs g.old (withdraw_call r) result g.new }
{
    g.call(Call::Withdraw(r))
}

// Take back r: refused by 26 where the record is not sound, then by 20, 32 in that order; else r's steps leave the kept list, the others stay in order, and
// r is withdrawn.
pub fn take_back(g: &mut Gate, r: u8) -> Result<Reply, Cause>
    ensures { CalledAs g.old (take_back_call r) result g.new }
{
    g.call(Call::TakeBack(r))
}

// A call, for a caller that holds the record by value.
fn after(mut g: Gate, x: Call) -> Called
    ensures { CalledAs g (as_call x) result.answer result.gate }
{
    let answer = g.call(x);
    Called { answer, gate: g }
}

// `step`, for a caller that holds the record by value.
pub fn after_step(g: Gate, r: u8) -> Called
    ensures { CalledAs g (step_call r) result.answer result.gate }
{
    after(g, Call::Step(r))
}

// `withdraw`, for a caller that holds the record by value.
pub fn after_withdraw(g: Gate, r: u8) -> Called
    ensures { CalledAs g (withdraw_call r) result.answer result.gate }
{
    after(g, Call::Withdraw(r))
}

// `take_back`, for a caller that holds the record by value.
pub fn after_take_back(g: Gate, r: u8) -> Called
    ensures { CalledAs g (take_back_call r) result.answer result.gate }
{
    after(g, Call::TakeBack(r))
}
