// Reads books from standard input and writes a line for each: its label, and what the reader answers.
// A book stands there as the label's length in one byte, the label, the book's length in two bytes, high first, and the book.
#![tactic(auto)]

ghost use Rattle.std.specs.Prelude.{◌<◌, length, IfSome};

use std::io;

#[derive(Clone, Copy)]
struct Entry<'a> {
    label: &'a [u8],
    book: &'a [u8],
    // The bytes behind the book.
    rest: &'a [u8],
}

// The entry at the front; `None` where there is no whole one.
fn first_entry(s: &[u8]) -> Option<Entry<'_>>
    ensures { IfSome result (λ entry. length entry.rest.now < length s.now) }
{
    let (label_len, s) = s.split_first()?;
    let (label, s) = s.split_at_checked(*label_len as usize)?;
    let (book_len, s) = s.split_first_chunk::<2>()?;
    let (book, rest) = s.split_at_checked(u16::from_be_bytes(*book_len) as usize)?;
    Some(Entry { label, book, rest })
}

fn write_answer(out: &impl Print, book: &[u8]) -> io::Result<()> {
    match reader::read(book) {
        Ok(b) => println!(out; ": accepted, done {}", b.done),
        Err(refusal) => println!(out;
            ": refused {} at {}",
            book::number_of(refusal.cause),
            refusal.place
        ),
    }
}

fn write_all(out: &impl Print, s: &[u8]) -> io::Result<()> {
    let mut rest = s;
    while let Some(entry) = first_entry(rest) {
        out.write_all(entry.label)?;
        write_answer(out, entry.book)?;
        rest = entry.rest;
    }
    Ok(())
}

fn main(rt: HostRuntime) -> io::Result<()> {
    let mut entries = [0u8; 65536];
    let n = input::read_full(&mut rt.stdin(), &mut entries)?;
    write_all(&rt, &entries[..n])
}
