// Cases 1 to 5, 11 and 12 of document 01, run on its small schedule and compared with what that document says.
// A line for each call: e for ELCA or s for SLCA; refusal, place and total; then out as it is left, and for ELCA own. Both are lent full of 99.
#![tactic(auto)]

use index::{Lent, Reply};
use std::io;

const PARENTS: [u32; 18] = [0, 0, 1, 2, 3, 2, 5, 1, 7, 8, 7, 10, 0, 12, 13, 14, 0, 16];

const TAGS: [u32; 18] = [1, 2, 3, 4, 0, 5, 0, 3, 4, 0, 6, 0, 2, 3, 5, 0, 7, 0];

// The schedule with the lists and counts of p positive words.
fn lend<'a>(p: u32, ends: &'a [u32], occurrences: &'a [u32], counts: &'a [u32]) -> Lent<'a> {
    Lent {
        parents: &PARENTS,
        tags: &TAGS,
        positive: p,
        negative: 0,
        ends,
        occurrences,
        counts,
    }
}

// The line of a call: its reply, and what it left in the lists that it was lent.
fn print(rt: &impl Print, letter: char, r: Reply, out: &[u32], own: &[u32]) -> io::Result<()> {
    print!(rt; "{letter} {} {} {}", r.refusal, r.place, r.total)?;
    for number in out.iter().chain(own) {
        print!(rt; " {number}")?;
    }
    println!(rt)
}

fn elca(
    rt: &impl Print,
    p: u32,
    ends: &[u32],
    occurrences: &[u32],
    counts: &[u32],
    out: &mut [u32],
) -> io::Result<()> {
    let mut work = [99; 95];
    let mut own = [99; 9];
    let answer = elca::elca(
        lend(p, ends, occurrences, counts),
        &mut work,
        &mut *out,
        &mut own,
    );
    print(rt, 'e', answer.into(), out, &own)
}

fn slca(
    rt: &impl Print,
    p: u32,
    ends: &[u32],
    occurrences: &[u32],
    counts: &[u32],
) -> io::Result<()> {
    let mut work = [99; 95];
    let mut out = [99; 5];
    let answer = slca::slca(lend(p, ends, occurrences, counts), &mut work, &mut out);
    print(rt, 's', answer.into(), &out, &[])
}

// Cases 1, 2 and 11: the words A and Z, with room for five, for one and for two answers.
fn two_words(rt: &impl Print) -> io::Result<()> {
    let ends = [3, 5];
    let occurrences = [4, 9, 17, 6, 15];
    let counts = [
        3, 2, 1, 1, 1, 0, 0, 1, 1, 1, 0, 0, 0, 0, 0, 0, 1, 1, 2, 1, 1, 0, 0, 1, 1, 0, 0, 0, 0, 0,
        1, 1, 1, 1, 0, 0,
    ];
    slca(rt, 2, &ends, &occurrences, &counts)?;
    let mut five = [99; 5];
    elca(rt, 2, &ends, &occurrences, &counts, &mut five)?;
    let mut one = [99; 1];
    elca(rt, 2, &ends, &occurrences, &counts, &mut one)?;
    let mut two = [99; 2];
    elca(rt, 2, &ends, &occurrences, &counts, &mut two)
}

// Case 3: one word gives its own list in both searches.
fn one_word(rt: &impl Print) -> io::Result<()> {
    let ends = [3];
    let occurrences = [4, 9, 17];
    let counts = [3, 2, 1, 1, 1, 0, 0, 1, 1, 1, 0, 0, 0, 0, 0, 0, 1, 1];
    let mut five = [99; 5];
    elca(rt, 1, &ends, &occurrences, &counts, &mut five)?;
    slca(rt, 1, &ends, &occurrences, &counts)
}

// Case 4: a word at a node and at its child.
fn one_above_the_other(rt: &impl Print) -> io::Result<()> {
    let ends = [2];
    let occurrences = [1, 2];
    let counts = [2, 2, 1, 0, 0, 0, 0, 0, 0, 0, 0, 0, 0, 0, 0, 0, 0, 0];
    let mut five = [99; 5];
    elca(rt, 1, &ends, &occurrences, &counts, &mut five)?;
    slca(rt, 1, &ends, &occurrences, &counts)
}

// Case 5: the same word twice.
fn twice(rt: &impl Print) -> io::Result<()> {
    let ends = [3, 6];
    let occurrences = [4, 9, 17, 4, 9, 17];
    let counts = [
        3, 2, 1, 1, 1, 0, 0, 1, 1, 1, 0, 0, 0, 0, 0, 0, 1, 1, 3, 2, 1, 1, 1, 0, 0, 1, 1, 1, 0, 0,
        0, 0, 0, 0, 1, 1,
    ];
    let mut five = [99; 5];
    elca(rt, 2, &ends, &occurrences, &counts, &mut five)?;
    slca(rt, 2, &ends, &occurrences, &counts)
}

// Case 12: a word that occurs nowhere.
fn absent(rt: &impl Print) -> io::Result<()> {
    let ends = [3, 3];
    let occurrences = [4, 9, 17];
    let counts = [
        3, 2, 1, 1, 1, 0, 0, 1, 1, 1, 0, 0, 0, 0, 0, 0, 1, 1, 0, 0, 0, 0, 0, 0, 0, 0, 0, 0, 0, 0,
        0, 0, 0, 0, 0, 0,
    ];
    let mut five = [99; 5];
    elca(rt, 2, &ends, &occurrences, &counts, &mut five)?;
    slca(rt, 2, &ends, &occurrences, &counts)
}

fn main(rt: HostRuntime) -> io::Result<()> {
    two_words(&rt)?;
    one_word(&rt)?;
    one_above_the_other(&rt)?;
    twice(&rt)?;
    absent(&rt)
}
