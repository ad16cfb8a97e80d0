// The deck book: its type and limits, its steps and their touches, the causes of refusal and their numbers, and the book with another history, or with some
// runs' steps left out of its own.
#![tactic(auto)]

ghost use Rattle.std.specs.Prelude.{Err, ◌≡◌, ◌+◌, ◌*◌, ◌<◌};
ghost use Rattle.theory.specs.History.{project};
ghost use Rattle.theory.specs.Deck.{home};
ghost use Rattle.book.specs.Numbers.{number};
ghost use Rattle.book.specs.Format.{kind_limit, position_limit, run_limit, run_step_limit, step_limit, length_limit, kinds_low, with_history, Allowed};
ghost use Rattle.book.specs.Book.{refusal_at, touch_limit, code_limit, touch_coded, step_coded, as_touch, as_step, touch_code, step_code, unflagged, contents_of, empty_book, Valid, Represents};

// Why something is turned away: one for each row of document 01's table and each check of document 02, changes 1 and 7, two of the replay's own, one for a
// gate's record that is not sound, and one for a run that is no island's smallest.
#[derive(Clone, Copy)]
pub enum Cause {
    // A book over the length limit.
    BookTooLong = 1,
    // A byte that is no command.
    NoCommand = 2,
    // The book ends before 45 or inside operands.
    EndsEarly = 3,
    // A command after a later group, or 53 or 54 before any 52.
    OutOfOrder = 4,
    // A kind above 15, or a above b.
    WrongKind = 5,
    // A pair or triple not above the one before.
    NotRising = 6,
    // In 52 not the count so far; in 42 or 48 a run undeclared; in 42 r equal to o.
    WrongRun = 7,
    // A 17th run.
    TooManyRuns = 8,
    // A 33rd step of a run.
    RunTooLong = 30,
    // A 129th step of the book.
    TooManySteps = 31,
    // In 42, j is 0 or not below the steps of r.
    WrongCut = 9,
    // 48 for a run with no step left.
    NoStepLeft = 10,
    // Bytes after 45.
    BytesAfterEnd = 11,
    // The judge's order or cycle buffer under 128 bytes.
    JudgeBufferShort = 12,
    // The writer's buffer shorter than the book.
    WriterBufferShort = 13,
    // Gate: run not declared.
    NotDeclared = 20,
    // Gate: run withdrawn.
    Withdrawn = 21,
    // Gate: all steps of the run kept.
    AllKept = 22,
    // Gate: tangled.
    Tangled = 23,
    // Replay: no call, or a cut-off one, at an offset of the list.
    NoCall = 24,
    // Replay: the buffer of answers under two bytes a call.
    AnswersShort = 25,
    // Gate: a table of the record out of range, or not in agreement with another.
    Damaged = 26,
    // Islands: a run that is no island's smallest.
    NoIsland = 27,
    // Gate: run taken back already.
    TakenBack = 32,
}

// The number of a cause.
pub fn number_of(cause: Cause) -> u8
    ensures { result ≡ number cause }
{
    cause as u8
}

// What a dialect of the format sets.
#[derive(Clone, Copy)]
pub struct Rules {
    // The most steps in all.
    pub step_limit: u16,
    // The most bytes.
    pub length_limit: u16,
    // Whether 42 is a command.
    pub has_cuts: bool,
    // Whether 54 is a command.
    pub has_transfers: bool,
}

// A touch: its kind and its position.
#[derive(Clone, Copy)]
pub struct Touch {
    pub kind: u8,
    pub position: u16,
}

// A step.
#[derive(Clone, Copy)]
pub enum Step {
    // 53: one touch.
    Single(Touch),
    // 54: two touches.
    Transfer(Touch, Touch),
}

// The code of a touch.
fn touch_code(t: Touch) -> u64
    ensures { result ≡ touch_code t }
{
    (t.kind as u64) * Book::POSITIONS + (t.position as u64)
}

// The touch of a code.
fn touch_coded(code: u64) -> Touch
    requires { code < touch_limit }
    ensures { as_touch result ≡ touch_coded code }
{
    Touch {
        kind: (code / Book::POSITIONS) as u8,
        position: (code % Book::POSITIONS) as u16,
    }
}

// The code of a step in a book's table: of a single one that of its touch, below TOUCHES; of a transfer (that of its second touch + 1) * TOUCHES + that of its
// first.
pub fn code_of(x: Step) -> u64
    ensures { result ≡ step_code x }
{
    match x {
        Step::Single(t) => touch_code(t),
        Step::Transfer(t, u) => (touch_code(u) + 1) * Book::TOUCHES + touch_code(t),
    }
}

// The step of a code.
pub fn step_coded(code: u64) -> Step
    requires { code < code_limit }
    ensures { as_step result ≡ step_coded code }
{
    let first = touch_coded(code % Book::TOUCHES);
    if code < Book::TOUCHES {
        return Step::Single(first);
    }
    Step::Transfer(first, touch_coded(code / Book::TOUCHES - 1))
}

// Whether the kind of each touch is below its limit.
pub fn kinds_low(x: Step) -> bool
    ensures { result ≡ kinds_low (as_step x) }
{
    match x {
        Step::Single(t) => wide(t.kind) < Book::KINDS,
        Step::Transfer(t, u) => (wide(t.kind) < Book::KINDS) & (wide(u.kind) < Book::KINDS),
    }
}

// A deck book. What it means is `contents_of` in specs/Book.antt.
#[repr(C)]
#[derive(Clone, Copy)]
pub struct Book {
    // 1 at a * KINDS + b for each listed pair of kinds a, b; else 0.
    pub pairs: [u8; Book::PAIRS_SIZE],
    // 1 at r * RUN_CUTS + j * RUNS + o for each cut in run r after its j-th step as seen by run o; else 0.
    pub cuts: [u8; Book::CUTS_SIZE],
    // The code of each step, run after run.
    pub steps: [u64; Book::STEPS],
    // The number of steps of each run.
    pub lengths: [u8; Book::RUNS],
    // The number of done steps of each run.
    pub counts: [u8; Book::RUNS],
    // The run of each done step.
    pub history: [u8; Book::STEPS],
    // The number of runs.
    pub declared: usize,
    // The number of steps.
    pub total: usize,
    // The number of done steps.
    pub done: usize,
}

impl Book {
    // Kinds are below this.
    pub const KINDS: usize = 16;

    // Positions are below this.
    pub const POSITIONS: u64 = 65536;

    // The codes of touches are below this.
    pub const TOUCHES: u64 = 16 * Book::POSITIONS;

    // A touch at this position homes: it has the same position as any other touch.
    pub const HOME: u16 = 65535;

    // The most runs.
    pub const RUNS: usize = 16;

    // The most steps in a run.
    pub const RUN_STEPS: usize = 32;

    // The most steps in all.
    pub const STEPS: usize = 128;

    // The most bytes.
    pub const LENGTH: usize = 16384;

    // The sizes of the tables of pairs and of cuts.
    pub const PAIRS_SIZE: usize = Book::KINDS * Book::KINDS;

    pub const CUTS_SIZE: usize = Book::RUNS * Book::RUN_CUTS;

    // How many entries the table of cuts has of each run.
    pub const RUN_CUTS: usize = Book::RUN_STEPS * Book::RUNS;

    // The book without pairs, runs, cuts and history.
    pub fn empty() -> Self
        ensures { result ≡ empty_book }
    {
        Self {
            pairs: [0; Book::PAIRS_SIZE],
            cuts: [0; Book::CUTS_SIZE],
            steps: [0; Book::STEPS],
            lengths: [0; Book::RUNS],
            counts: [0; Book::RUNS],
            history: [0; Book::STEPS],
            declared: 0,
            total: 0,
            done: 0,
        }
    }
}

// The limits are the format's, and a touch homes where the theory's does.
fn limits()
    ensures kinds { Book.KINDS ≡ kind_limit }
    ensures positions { Book.POSITIONS ≡ position_limit }
    ensures touches { Book.TOUCHES ≡ touch_limit }
    ensures home_position { Book.HOME ≡ home }
    ensures runs { Book.RUNS ≡ run_limit }
    ensures run_steps { Book.RUN_STEPS ≡ run_step_limit }
    ensures steps { Book.STEPS ≡ step_limit }
    ensures length_of_book { Book.LENGTH ≡ length_limit }
{}

// A byte as a number.
pub fn wide(x: u8) -> usize
    ensures { (result ≡ x) × (result < 256) }
{
    x as usize
}

// A refusal: its cause, and its place in the bytes.
#[derive(Clone, Copy)]
pub struct Refusal {
    pub cause: Cause,
    pub place: usize,
}

// What a call answers that refuses by a cause, at a place.
pub fn refused<T>(cause: Cause, place: usize) -> Result<T, Refusal>
    ensures { result ≡ Err (refusal_at cause place) }
{
    Err(Refusal { cause, place })
}

// The book with a list of runs in place of its history, where no run stands in the list more often than it has steps.
pub fn with_history(b: Book, list: &[u8]) -> Book
    requires { Valid b × Allowed list.now (contents_of b) }
    ensures { Represents (with_history (contents_of b) list.now) result }
{
    let mut counts = [0; Book::RUNS];
    let mut history = [0; Book::STEPS];
    for (n, &run) in list.iter().enumerate() {
        history[n] = run;
        counts[wide(run)] += 1;
    }
    Book {
        counts,
        history,
        done: list.len(),
        ..b
    }
}

// The book whose history lacks the steps of the runs whose flag is not 0; the others stay in order.
#[tactic(auto, using(crate::proofs::Books::done_within))]
pub fn leave_out(b: Book, flags: [u8; Book::RUNS]) -> Book
    requires { Valid b }
    ensures { Represents (with_history (contents_of b) (project (unflagged flags) (contents_of b).history)) result }
{
    let mut counts = [0; Book::RUNS];
    let mut history = [0; Book::STEPS];
    let mut done: usize = 0;
    for &run in &b.history[..b.done] {
        let r = wide(run);
        if flags[r] == 0 {
            history[done] = run;
            counts[r] += 1;
            done += 1;
        }
    }
    Book {
        counts,
        history,
        done,
        ..b
    }
}
