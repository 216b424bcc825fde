// Cases 6 to 9 of document 01, the search with NOT, run on its small schedule and compared with what that document says.
// A line for each call: refusal, place and total; then out as it is left. It is lent full of 99.
#![tactic(auto)]

use index::{Lent, Reply};
use std::io;

const PARENTS: [u32; 18] = [0, 0, 1, 2, 3, 2, 5, 1, 7, 8, 7, 10, 0, 12, 13, 14, 0, 16];

const TAGS: [u32; 18] = [1, 2, 3, 4, 0, 5, 0, 3, 4, 0, 6, 0, 2, 3, 5, 0, 7, 0];

// One positive word and one negative word.
fn valid(rt: &impl Print, ends: &[u32], occurrences: &[u32], counts: &[u32]) -> io::Result<()> {
    let mut work = [99; 95];
    let mut out = [99; 5];
    let lent = Lent {
        parents: &PARENTS,
        tags: &TAGS,
        positive: 1,
        negative: 1,
        ends,
        occurrences,
        counts,
    };
    let r = Reply::from(valid::valid(lent, &mut work, &mut out));
    print!(rt; "v {} {} {}", r.refusal, r.place, r.total)?;
    for number in out {
        print!(rt; " {number}")?;
    }
    println!(rt)
}

// Case 6: A, NOT X.
fn a_not_x(rt: &impl Print) -> io::Result<()> {
    let ends = [3, 4];
    let occurrences = [4, 9, 17, 11];
    let counts = [
        3, 2, 1, 1, 1, 0, 0, 1, 1, 1, 0, 0, 0, 0, 0, 0, 1, 1, 1, 1, 0, 0, 0, 0, 0, 1, 0, 0, 1, 1,
        0, 0, 0, 0, 0, 0,
    ];
    valid(rt, &ends, &occurrences, &counts)
}

// Case 7: A, NOT Z.
fn a_not_z(rt: &impl Print) -> io::Result<()> {
    let ends = [3, 5];
    let occurrences = [4, 9, 17, 6, 15];
    let counts = [
        3, 2, 1, 1, 1, 0, 0, 1, 1, 1, 0, 0, 0, 0, 0, 0, 1, 1, 2, 1, 1, 0, 0, 1, 1, 0, 0, 0, 0, 0,
        1, 1, 1, 1, 0, 0,
    ];
    valid(rt, &ends, &occurrences, &counts)
}

// Case 8: Z, NOT A.
fn z_not_a(rt: &impl Print) -> io::Result<()> {
    let ends = [2, 5];
    let occurrences = [6, 15, 4, 9, 17];
    let counts = [
        2, 1, 1, 0, 0, 1, 1, 0, 0, 0, 0, 0, 1, 1, 1, 1, 0, 0, 3, 2, 1, 1, 1, 0, 0, 1, 1, 1, 0, 0,
        0, 0, 0, 0, 1, 1,
    ];
    valid(rt, &ends, &occurrences, &counts)
}

// Case 9: T, NOT Z.
fn t_not_z(rt: &impl Print) -> io::Result<()> {
    let ends = [2, 4];
    let occurrences = [1, 12, 6, 15];
    let counts = [
        2, 1, 0, 0, 0, 0, 0, 0, 0, 0, 0, 0, 1, 0, 0, 0, 0, 0, 2, 1, 1, 0, 0, 1, 1, 0, 0, 0, 0, 0,
        1, 1, 1, 1, 0, 0,
    ];
    valid(rt, &ends, &occurrences, &counts)
}

fn main(rt: HostRuntime) -> io::Result<()> {
    a_not_x(&rt)?;
    a_not_z(&rt)?;
    z_not_a(&rt)?;
    t_not_z(&rt)
}
