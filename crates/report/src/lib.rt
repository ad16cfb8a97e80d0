// The report on a book: the program's text, put into a buffer that the caller lends. Each function that puts bytes answers how many.
#![tactic(auto)]

ghost use Rattle.std.specs.Prelude.{◌≡◌, ℕ, List, [], ◌∷◌, ◌++◌, map, ◌+◌, ◌*◌, ◌<◌, ◌≤◌, length};
ghost use Rattle.buffer.specs.Put.{Put};
ghost use Rattle.buffer.specs.Each.{each};
ghost use Rattle.book.specs.Format.{accepted, read, step_limit};
ghost use Rattle.book.specs.Book.{Valid, contents_of};
ghost use Rattle.book.specs.Numbers.{number};
ghost use Rattle.report.specs.Letters.{blank};
ghost use Rattle.report.specs.Text.{tangled, refused_at, accepted_with, text_of, decimal, answer_word, first_letter, line, done_line};
ghost use Rattle.report.specs.Reporting.{ClassesOn, Reports};
ghost use Rattle.report.specs.Inner.Widths.{number_limit, number_width, answer_width, done_width, classes_width, verdict_width, evidence_width, letter_width, arcs_width, refused_width, text_limit};
ghost use Rattle.report.specs.Inner.Lines.{PutWithin, class_lines, names_of_value, Short, verdict_by, EvidenceIn, verdict_lines, findings};

use book::{Book, Refusal};
use buffer::{put_byte, put_bytes};
use judge::{Judgement, Verdict};
use names::ArcNames;

// How many bytes each line takes at most: its head, its word or numbers, and the line end.
const DONE_WIDTH: usize = 5 + 3 + 1;

const SERIAL_WIDTH: usize = 7 + 3 + 1;

const ATOMIC_WIDTH: usize = 7 + 3 + 1;

const RELSERIAL_WIDTH: usize = 10 + 3 + 1;

const CONFLICT_WIDTH: usize = 9 + 3 + 1;

const VERDICT_WIDTH: usize = 15 + 1;

const EVIDENCE_WIDTH: usize = 5 + 4 * Book::STEPS + 1;

const ARCS_WIDTH: usize = 4 + 2 * Book::STEPS + 1;

// The length of the buffer: every text fits.
pub const TEXT: usize = DONE_WIDTH
    + SERIAL_WIDTH
    + ATOMIC_WIDTH
    + RELSERIAL_WIDTH
    + CONFLICT_WIDTH
    + VERDICT_WIDTH
    + EVIDENCE_WIDTH
    + ARCS_WIDTH;

// The answers of the four class tests.
#[derive(Clone, Copy)]
struct Classes {
    serial: bool,
    atomic: bool,
    relserial: bool,
    conflict: bool,
}

// The evidence of a verdict: the order's run numbers, or the cycle's places and the value of the names of each of its arcs.
#[derive(Clone, Copy)]
enum Evidence<'a> {
    Order(&'a [u8]),
    Cycle { places: &'a [u8], values: &'a [u8] },
}

// A number in base ten: all digits but the last, then the last.
fn put_decimal(x: usize, out: &mut [u8]) -> usize
    requires { length (decimal x) ≤ length out.old }
    ensures { Put (decimal x) out.old out.new result }
{
    if x < 10 {
        return put_byte(b'0' + x as u8, out);
    }
    let k = put_decimal(x / 10, &mut out[..]);
    let m = put_byte(b'0' + (x % 10) as u8, &mut out[k..]);
    k + m
}

// A head and a number.
fn put_number(head: &[u8], x: usize, out: &mut [u8]) -> usize
    requires { length head.now + length (decimal x) ≤ length out.old }
    ensures { Put (head.now ++ decimal x) out.old out.new result }
{
    let n = put_bytes(head, &mut out[..]);
    let m = put_decimal(x, &mut out[n..]);
    n + m
}

// Yes or no, and the line end.
fn put_answer(yes: bool, out: &mut [u8]) -> usize
    requires { answer_width ≤ length out.old }
    ensures { PutWithin answer_width (line (answer_word yes)) out.old out.new result }
{
    if yes {
        put_bytes(b"yes\n", out)
    } else {
        put_bytes(b"no\n", out)
    }
}

// The line of a class.
fn put_class(head: &[u8], yes: bool, out: &mut [u8]) -> usize
    requires { length head.now + answer_width ≤ length out.old }
    ensures { PutWithin (length head.now + answer_width) (line (head.now ++ answer_word yes)) out.old out.new result }
{
    let n = put_bytes(head, &mut out[..]);
    let m = put_answer(yes, &mut out[n..]);
    n + m
}

// The line of done steps.
fn put_done(done: usize, out: &mut [u8]) -> usize
    requires { (done < number_limit) × (done_width ≤ length out.old) }
    ensures { PutWithin done_width (done_line done) out.old out.new result }
{
    let n = put_number(b"done ", done, &mut out[..]);
    let m = put_byte(b'\n', &mut out[n..]);
    n + m
}

// The lines of the four classes.
fn put_classes(c: Classes, out: &mut [u8]) -> usize
    requires { classes_width ≤ length out.old }
    ensures { PutWithin classes_width (class_lines c) out.old out.new result }
{
    let serial_end = put_class(b"serial ", c.serial, &mut out[..]);
    let n = put_class(b"atomic ", c.atomic, &mut out[serial_end..]);
    let atomic_end = serial_end + n;
    let m = put_class(b"relserial ", c.relserial, &mut out[atomic_end..]);
    let relserial_end = atomic_end + m;
    let k = put_class(b"conflict ", c.conflict, &mut out[relserial_end..]);
    relserial_end + k
}

// The names with this value.
fn names_of(value: u8) -> ArcNames
    ensures { result ≡ names_of_value value }
{
    ArcNames {
        i: value % 2 == 1,
        d: value / 2 % 2 == 1,
        f: value / 4 % 2 == 1,
        b: value / 8 % 2 == 1,
    }
}

// The letter of the first of these names that holds.
fn first_letter(names: ArcNames) -> u8
    ensures { result ≡ first_letter names }
{
    if names.i {
        b'I'
    } else if names.d {
        b'D'
    } else if names.f {
        b'F'
    } else {
        b'B'
    }
}

// How a line writes each byte of a list, in `width` bytes at most.
trait Entry {
    ghost width: { ℕ };

    ghost text: { ℕ → List ℕ };

    fn put(x: u8, out: &mut [u8]) -> usize
        requires { width ≤ length out.old }
        ensures { PutWithin width (text x) out.old out.new result };
}

// A blank and the number.
struct Number;

impl Entry for Number {
    ghost width = { number_width };

    ghost text = { λ x. blank ∷ decimal x };

    fn put(x: u8, out: &mut [u8]) -> usize {
        put_number(b" ", book::wide(x), out)
    }
}

// A blank and the first letter of the names with this value.
struct Letter;

impl Entry for Letter {
    ghost width = { letter_width };

    ghost text = { λ x. blank ∷ first_letter (names_of_value x) ∷ [] };

    fn put(x: u8, out: &mut [u8]) -> usize {
        put_bytes(&[b' ', first_letter(names_of(x))], out)
    }
}

// The entries of the list.
fn put_entries<E: Entry>(list: &[u8], out: &mut [u8]) -> usize
    requires { E.width * length list.now ≤ length out.old }
    ensures { PutWithin (E.width * length list.now) (each E.text list.now) out.old out.new result }
{
    let mut at = 0;
    for x in list {
        let n = E::put(*x, &mut out[at..]);
        at += n;
    }
    at
}

// The head, the entries of the list and the line end.
fn put_list<E: Entry>(head: &[u8], list: &[u8], out: &mut [u8]) -> usize
    requires { length head.now + E.width * length list.now + 1 ≤ length out.old }
    ensures { PutWithin (length head.now + E.width * length list.now + 1) (line (head.now ++ each E.text list.now)) out.old out.new result }
{
    let n = put_bytes(head, &mut out[..]);
    let m = put_entries::<E>(list, &mut out[n..]);
    let at = n + m;
    let k = put_byte(b'\n', &mut out[at..]);
    at + k
}

// The lines of a tangled history: the verdict, the cycle and its arcs.
fn put_tangled(places: &[u8], values: &[u8], out: &mut [u8]) -> usize
    requires { (length places.now ≤ step_limit) × (length values.now ≤ step_limit) × (verdict_width + evidence_width + arcs_width ≤ length out.old) }
    ensures { PutWithin (verdict_width + evidence_width + arcs_width) (verdict_lines (tangled places.now (map names_of_value values.now))) out.old out.new result }
{
    let n = put_list::<Number>(b"verdict tangled\ncycle", places, &mut out[..]);
    let m = put_list::<Letter>(b"arcs", values, &mut out[n..]);
    n + m
}

// The lines of the verdict, of its order or its cycle, and of the cycle's arcs.
fn put_verdict(evidence: Evidence, out: &mut [u8]) -> usize
    requires { Short evidence × (verdict_width + evidence_width + arcs_width ≤ length out.old) }
    ensures { PutWithin (verdict_width + evidence_width + arcs_width) (verdict_lines (verdict_by evidence.entry)) out.old out.new result }
{
    match evidence {
        Evidence::Order(runs) => put_list::<Number>(b"verdict passed\norder", runs, out),
        Evidence::Cycle { places, values } => put_tangled(places, values, out),
    }
}

// The text for an accepted book.
fn put_findings(done: usize, classes: Classes, evidence: Evidence, out: &mut [u8]) -> usize
    requires { (done < number_limit) × Short evidence × (text_limit ≤ length out.old) }
    ensures { Put (text_of (accepted_with (findings done classes (verdict_by evidence.entry)))) out.old out.new result }
{
    let done_end = put_done(done, &mut out[..]);
    let n = put_classes(classes, &mut out[done_end..]);
    let classes_end = done_end + n;
    let m = put_verdict(evidence, &mut out[classes_end..]);
    classes_end + m
}

// The text for a refused book.
fn put_refused(refusal: Refusal, out: &mut [u8]) -> usize
    requires { refused_width ≤ length out.old }
    ensures { Put (text_of (refused_at (number refusal.cause) refusal.place)) out.old out.new result }
{
    let number = book::wide(book::number_of(refusal.cause));
    let number_end = put_number(b"refused ", number, &mut out[..]);
    let n = put_number(b" at ", refusal.place, &mut out[number_end..]);
    let place_end = number_end + n;
    let m = put_byte(b'\n', &mut out[place_end..]);
    place_end + m
}

// The four class tests of a valid book.
fn classes_of(b: Book) -> Classes
    requires { Valid b }
    ensures { ClassesOn (contents_of b) result.serial result.atomic result.relserial result.conflict }
{
    let serial = classes::is_serial(b);
    let atomic = classes::is_relatively_atomic(b);
    let relserial = classes::is_relatively_serial(b);
    let conflict = classes::is_conflict_serializable(b);
    Classes {
        serial,
        atomic,
        relserial,
        conflict,
    }
}

// The evidence of a judgement: the front parts of the buffers that the judge filled.
fn evidence_of<'a>(
    judgement: Judgement,
    order: &'a [u8; Book::STEPS],
    cycle: &'a [u8; Book::STEPS],
    values: &'a [u8; Book::STEPS],
) -> Evidence<'a>
    requires { judgement.count ≤ step_limit }
    ensures { EvidenceIn judgement.verdict judgement.count order.now cycle.now values.now result }
{
    let list = judge::front(order, cycle, Ok(judgement));
    match judgement.verdict {
        Verdict::Passed => Evidence::Order(list),
        Verdict::Tangled => Evidence::Cycle {
            places: list,
            values: &values[..judgement.count],
        },
    }
}

// The text for a valid book.
fn put_accepted(b: Book, out: &mut [u8]) -> usize
    requires { Valid b × (text_limit ≤ length out.old) }
    ensures { Reports (accepted (contents_of b)) out.old out.new result }
{
    let classes = classes_of(b);
    let mut order = [0u8; Book::STEPS];
    let mut cycle = [0u8; Book::STEPS];
    let mut values = [0u8; Book::STEPS];
    let judgement = judge::judge_book(b, &mut order, &mut cycle, &mut values);
    let evidence = evidence_of(judgement, &order, &cycle, &values);
    put_findings(b.done, classes, evidence, out)
}

// Puts the text of the report on the bytes s into the buffer, and answers its length.
pub fn report(s: &[u8], out: &mut [u8; TEXT]) -> usize
    ensures { Reports (read s.now) out.old out.new result }
{
    match reader::read(s) {
        Ok(b) => put_accepted(b, out),
        Err(refusal) => put_refused(refusal, out),
    }
}
