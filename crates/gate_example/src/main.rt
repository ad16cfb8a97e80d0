// Document 01's gate example, run: a gate over the runs of row 2, uncut, and the answers to its eight calls, a line each. Behind them those to calls on
// another gate over the same runs, which take runs back (document 02, change 7).
#![tactic(auto)]

use std::io;

// Writes a line for each answer, which replay puts into two bytes.
fn write_answers(out: &impl Print, answers: &[u8]) -> io::Result<()> {
    for answer in answers.as_chunks::<2>().0 {
        match *answer {
            [0, place] => println!(out; "place {place}")?,
            [1, _] => println!(out; "withdrawn")?,
            [3, _] => println!(out; "taken back")?,
            [_, number] => println!(out; "refused {number}")?,
        }
    }
    Ok(())
}

// Makes the calls on a gate newly opened over the book, and writes their answers.
fn write_replay(out: &impl Print, book: &[u8], calls: &[u8], answers: &mut [u8]) -> io::Result<()> {
    match replay::replay(book, calls, answers).played {
        Ok(_) => write_answers(out, answers),
        Err(refusal) => println!(out; "refused by {}", book::number_of(refusal.cause)),
    }
}

fn main(rt: HostRuntime) -> io::Result<()> {
    // Pairs 0-1, 0-2, 1-1, 1-2; runs w5 w6 and r5 r6; no cuts, no history.
    let book =
        b"\x43\x00\x01\x43\x00\x02\x43\x01\x01\x43\x01\x02\x52\x00\x53\x01\x00\x05\x53\x01\x00\x06\x52\x01\x53\x00\x00\x05\x53\x00\x00\x06\x45";
    // Step 0, 1, 1, 0; withdraw 0; step 0, 1, 2.
    let mut answers = [0u8; 16];
    write_replay(
        &rt,
        book,
        b"\x53\x00\x53\x01\x53\x01\x53\x00\x57\x00\x53\x00\x53\x01\x53\x02",
        &mut answers,
    )?;
    // Step 0, 1, 1, 0; take back 1; step 0, 1; withdraw 1; take back 1, 2, 0.
    let mut more = [0u8; 22];
    write_replay(
        &rt,
        book,
        b"\x53\x00\x53\x01\x53\x01\x53\x00\x54\x01\x53\x00\x53\x01\x57\x01\x54\x01\x54\x02\x54\x00",
        &mut more,
    )
}
