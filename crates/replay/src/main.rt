// Replays vectors from standard input and prints, for each kind, how many there are and how many agree.
//
// A line of the input is a vector: words in hexadecimal, the kind first. The vectors come from outside the code that
// they test (tools/vectors says how each list is made).
#![tactic(auto)]

use std::io::Read;
use vectors::Kind;
use words::Line;

// How many vectors of a kind there were, and how many of them agreed.
#[derive(Clone, Copy)]
struct Tally {
    seen: u64,
    agreed: u64,
}

fn agrees(kind: u64, words: &[u64]) -> bool {
    match Kind::try_from(kind) {
        Ok(Kind::Call | Kind::Pins) => calls::agrees(kind, words),
        _ => vectors::agrees(words),
    }
}

// Counts a vector by its kind. A line with no word is none.
fn judge(vector: &[u64], tallies: &mut [Tally; 64]) {
    if let Some(&kind) = vector.first() {
        let tally = &mut tallies[(kind % 64) as usize];
        tally.seen = tally.seen.wrapping_add(1);
        if agrees(kind, vector) {
            tally.agreed = tally.agreed.wrapping_add(1);
        }
    }
}

// Takes one byte: a line's end has its vector judged.
fn byte(b: u8, words: &mut [u64], tallies: &mut [Tally; 64], line: Line) -> Line {
    if b == b'\n' {
        let end = line.closed(words);
        if let Some(vector) = words.get(..end.count) {
            judge(vector, tallies);
        }
        return Line::new();
    }
    line.with(words, b)
}

// Takes the bytes of one read.
fn take(bytes: &[u8], words: &mut [u64], tallies: &mut [Tally; 64], mut line: Line) -> Line {
    for b in bytes {
        line = byte(*b, words, tallies, line);
    }
    line
}

// How many vectors of a kind there were and how many agreed, as a line. A write that fails is not told of.
fn report(rt: &HostRuntime, kind: Kind, tally: Tally) {
    let Tally { seen, agreed } = tally;
    let _ = println!(rt; "{kind}: {agreed} of {seen} agree");
}

// The reports of all kinds, in order.
fn report_all(rt: &HostRuntime, tallies: &[Tally; 64]) {
    for kind in Kind::ALL {
        report(rt, kind, tallies[kind as usize]);
    }
}

fn main(rt: HostRuntime) {
    let mut bytes = [0u8; 65536];
    let mut words = [0u64; 8300];
    let mut tallies = [Tally { seen: 0, agreed: 0 }; 64];
    let mut line = Line::new();
    let mut input = rt.stdin();
    // A proved loop has to end, and nothing says that the input does: there are no more reads than a number that no run uses up.
    for _ in 0..u64::MAX {
        match input.read(&mut bytes) {
            Ok(0) | Err(_) => break,
            Ok(n) => line = take(&bytes[..n], &mut words, &mut tallies, line),
        }
    }
    report_all(&rt, &tallies);
}
