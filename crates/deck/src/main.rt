// The program: reads a book from standard input and writes the report on it to standard output.
#![tactic(auto)]

use book::Book;
use std::io;

fn main(rt: HostRuntime) -> io::Result<()> {
    // One byte more than a book may have is enough to refuse it by 1.
    let mut book = [0u8; Book::LENGTH + 1];
    let n = input::read_full(&mut rt.stdin(), &mut book)?;
    let mut text = [0u8; report::TEXT];
    let m = report::report(&book[..n], &mut text);
    rt.write_all(&text[..m])
}
