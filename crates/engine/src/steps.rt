// One step of the engine, on the top of the stack, the entry below it, and numbers: the node that comes next is put on the top, or the top is closed.
ghost use Rattle.std.specs.Prelude.{◌≡◌};
ghost use Rattle.engine.specs.Inner.Steps.{number, now, moved_to, risen, ClosePre, ArrivePre, AdvancePre, Closed, Arrived, Advanced};
ghost use Rattle.engine.specs.Inner.Writing.{PutPre, Put, JudgePre, Judged, ClimbPre};

use crate::cursors::Cursors;
use crate::{Entry, entries};

// The answers of a pass: how many have been counted or, where they are written, how many are left to write.
#[derive(Clone, Copy)]
pub(crate) enum Tally {
    Counted(usize),
    Left(usize),
}

impl Tally {
    pub(crate) fn number(self) -> usize
        ensures { result ≡ number self }
    {
        match self {
            Tally::Counted(m) | Tally::Left(m) => m,
        }
    }
}

// What one step hands to the next, beside the stack and the cursors.
#[derive(Clone, Copy)]
pub(crate) struct State {
    // how many nodes are open: the pass is over where none is
    pub depth: usize,
    // one more than the node that comes next, or 0 where none is left: what is left stands before it
    pub reach: u32,
    pub tally: Tally,
    // whether the smallest are listed
    pub smallest: bool,
}

#[derive(Clone, Copy)]
pub(crate) struct Step {
    pub state: State,
    pub top: Entry,
}

// ---- answers

// Writes an answer as entry m of out and, unless the smallest are listed, row m of own.
fn put(e: Entry, k: usize, m: usize, smallest: bool, out: &mut [u32], own: &mut [u32])
    requires { PutPre k m smallest out.old own.old }
    ensures { Put e k m smallest out.old own.old out.new own.new }
{
    out[m] = e.node;
    if !smallest {
        let from = m * k;
        let to = from + k;
        own[from..to].copy_from_slice(&e.own[..k]);
    }
}

// Counts a node that is closed, or writes it, if it is an answer.
fn judge(s: State, e: Entry, full: bool, k: usize, out: &mut [u32], own: &mut [u32]) -> Tally
    requires { JudgePre k out.old own.old s e full }
    ensures { Judged k out.old own.old s e result out.new own.new }
{
    if !e.answers(full, k, s.smallest) {
        return s.tally;
    }
    match s.tally {
        Tally::Counted(m) => Tally::Counted(m + 1),
        Tally::Left(m) => {
            put(e, k, m - 1, s.smallest, out, own);
            Tally::Left(m - 1)
        }
    }
}

// ---- closing

// From node's parent up, the first node that is not past `low`, or stands before `reach`: the nodes between have nothing of their own.
fn climb(parents: &[u32], node: u32, low: u32, reach: u32) -> u32
    requires { ClimbPre parents.now node }
    ensures { result ≡ risen parents.now low reach node }
{
    let mut v = parents[node as usize];
    while low < v && reach <= v {
        v = parents[v as usize];
    }
    v
}

// Closes the top e, below which b stands.
fn close(
    parents: &[u32],
    k: usize,
    out: &mut [u32],
    own: &mut [u32],
    s: State,
    e: Entry,
    b: Entry,
) -> Step
    requires { ClosePre parents.now k out.old own.old (now s) e b }
    ensures { Closed parents.now k out.old own.old (now s) e b (moved_to result) out.new own.new }
{
    let held = e.held();
    let full = entries::each_some(k, held);
    let tally = judge(s, e, full, k, out, own);
    if s.depth == 1 {
        let state = State {
            depth: 0,
            tally,
            ..s
        };
        return Step {
            state,
            top: Entry::new(0),
        };
    }
    let q = climb(parents, e.node, b.node, s.reach);
    if q == b.node {
        let state = State {
            depth: s.depth - 1,
            tally,
            ..s
        };
        let top = b.close_into(full, held);
        return Step { state, top };
    }
    let state = State { tally, ..s };
    let top = Entry::new(q).close_into(full, held);
    Step { state, top }
}

// ---- what comes next

// Puts the node that comes next on the top t, or adds to t what occurs there if t is that node.
fn arrive(ends: &[u32], occurrences: &[u32], cursors: &mut Cursors, s: State, t: Entry) -> Step
    requires { ArrivePre ends.now occurrences.now cursors.old (now s) t }
    ensures { Arrived ends.now occurrences.now cursors.old (now s) t (moved_to result) cursors.new }
{
    let x = s.reach - 1;
    let came = cursors.coming(s.reach);
    let reach = cursors.take(ends, occurrences, s.reach);
    if t.node == x {
        let state = State { reach, ..s };
        let own = entries::add(t.own, came);
        return Step {
            state,
            top: Entry { own, ..t },
        };
    }
    let state = State {
        depth: s.depth + 1,
        reach,
        ..s
    };
    let top = Entry {
        node: x,
        own: came,
        covered: [0; 8],
    };
    Step { state, top }
}

// One step: where the node that comes next is past the top or the top itself, it is put on it; else the top is closed.
pub(crate) fn advance(
    parents: &[u32],
    ends: &[u32],
    occurrences: &[u32],
    cursors: &mut Cursors,
    out: &mut [u32],
    own: &mut [u32],
    s: State,
    t: Entry,
    b: Entry,
) -> Step
    requires { AdvancePre parents.now ends.now occurrences.now cursors.old out.old own.old (now s) t b }
    ensures { Advanced parents.now ends.now occurrences.now cursors.old out.old own.old (now s) t b
        (moved_to result) cursors.new out.new own.new }
{
    if t.node < s.reach {
        return arrive(ends, occurrences, cursors, s, t);
    }
    close(parents, ends.len(), out, own, s, t, b)
}
