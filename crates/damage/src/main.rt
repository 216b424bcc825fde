// The index check on the small schedule of document 01, asked for the words A and Z: sound, then with one entry damaged of each kind, then with two.
// Each line is a reply, its refusal, place and total, then the first and last entries of work that a call uses and the first that it does not.
#![tactic(auto)]

use index::{Lent, Reply};
use std::io;

// What is damaged: p, or an entry of a list, by its place; and what is put there.
#[derive(Clone, Copy)]
enum Damage {
    Positive(u32),
    Parents(usize, u32),
    Tags(usize, u32),
    Ends(usize, u32),
    Occurrences(usize, u32),
    Counts(usize, u32),
}

use Damage::*;

fn put(list: &mut [u32], at: usize, value: u32) {
    if at < list.len() {
        list[at] = value;
    }
}

// The check of the schedule with these damages.
fn check(rt: &impl Print, damages: &[Damage]) -> io::Result<()> {
    let mut positive = 2;
    let mut parents = [0, 0, 1, 2, 3, 2, 5, 1, 7, 8, 7, 10, 0, 12, 13, 14, 0, 16];
    let mut tags = [1, 2, 3, 4, 0, 5, 0, 3, 4, 0, 6, 0, 2, 3, 5, 0, 7, 0];
    let mut ends = [3, 5];
    let mut occurrences = [4, 9, 17, 6, 15];
    let mut counts = [
        3, 2, 1, 1, 1, 0, 0, 1, 1, 1, 0, 0, 0, 0, 0, 0, 1, 1, 2, 1, 1, 0, 0, 1, 1, 0, 0, 0, 0, 0,
        1, 1, 1, 1, 0, 0,
    ];
    let mut work = [7; 73];
    for damage in damages {
        match *damage {
            Positive(p) => positive = p,
            Parents(at, value) => put(&mut parents, at, value),
            Tags(at, value) => put(&mut tags, at, value),
            Ends(at, value) => put(&mut ends, at, value),
            Occurrences(at, value) => put(&mut occurrences, at, value),
            Counts(at, value) => put(&mut counts, at, value),
        }
    }
    let lent = Lent {
        parents: &parents,
        tags: &tags,
        positive,
        negative: 0,
        ends: &ends,
        occurrences: &occurrences,
        counts: &counts,
    };
    let reply = Reply::from(index::check(lent, &mut work));
    print!(rt; "{} {} {} ", reply.refusal, reply.place, reply.total)?;
    println!(rt; "{} {} {}", work[0], work[71], work[72])
}

fn main(rt: HostRuntime) -> io::Result<()> {
    // sound
    check(&rt, &[])?;
    // SIZE: three words, with the ends of two
    check(&rt, &[Positive(3)])?;
    // TREE: a root that is not its own parent, a parent that is no ancestor of the node before, a text node with a child
    check(&rt, &[Parents(0, 1)])?;
    check(&rt, &[Parents(12, 3)])?;
    check(&rt, &[Tags(5, 0)])?;
    // LIST: an end past the occurrences, a last end short of them, a repeated node, a node past the last
    check(&rt, &[Ends(0, 6)])?;
    check(&rt, &[Ends(1, 4)])?;
    check(&rt, &[Occurrences(1, 4)])?;
    check(&rt, &[Occurrences(4, 18)])?;
    // COUNT: last season's count at the root, a count of the second word, a fresh occurrence beside old counts
    check(&rt, &[Counts(0, 2)])?;
    check(&rt, &[Counts(30, 0)])?;
    check(&rt, &[Occurrences(2, 16)])?;
    // two at once: the lowest number is the reply, and within it the lowest place
    check(&rt, &[Positive(0), Parents(0, 1)])?;
    check(&rt, &[Counts(0, 2), Parents(12, 3)])?;
    check(&rt, &[Counts(0, 2), Occurrences(4, 18)])?;
    check(&rt, &[Occurrences(4, 18), Occurrences(1, 4)])?;
    check(&rt, &[Counts(30, 0), Counts(1, 0)])?;
    check(&rt, &[Tags(5, 0), Parents(3, 9)])
}
