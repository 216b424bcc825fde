// Passes over the lists, on the lent stack. What is read of the stack and stored to it is one entry at a time; all else is on numbers and on entries by value.
ghost use Rattle.std.specs.Prelude.{◌≡◌, ◌≤◌, length};
ghost use Rattle.engine.specs.Search.{blanked};
ghost use Rattle.engine.specs.Inner.Passes.{job, PassPre, Passed};

use crate::cursors::Cursors;
use crate::steps::{State, Step, Tally};
use crate::{Entry, steps};

// The first 64 entries become zero; later ones stay.
pub(crate) fn clear(stack: &mut [Entry])
    requires { 64 ≤ length stack.old }
    ensures { stack.new ≡ blanked 64 stack.old }
{
    for entry in &mut stack[..64] {
        *entry = Entry::new(0);
    }
}

// A pass over the lists, from the root's entry on: answers are counted, or written, as the tally says. How many were counted, or are left to write.
// In each step the top is stored in its place, the entry below it is read, and both are handed on.
pub(crate) fn pass(
    stack: &mut [Entry],
    parents: &[u32],
    ends: &[u32],
    occurrences: &[u32],
    out: &mut [u32],
    own: &mut [u32],
    smallest: bool,
    tally: Tally,
) -> usize
    requires { PassPre (job parents.now ends.now occurrences.now) stack.old out.old own.old smallest tally }
    ensures { Passed (job parents.now ends.now occurrences.now) stack.old out.old own.old smallest tally
        result stack.new out.new own.new }
{
    let (mut cursors, reach) = Cursors::new(ends, occurrences);
    let mut n = Step {
        state: State {
            depth: 1,
            reach,
            tally,
            smallest,
        },
        top: Entry::new(0),
    };
    while n.state.depth > 0 {
        stack[n.state.depth - 1] = n.top;
        let low = n.state.depth.saturating_sub(2);
        n = steps::advance(
            parents,
            ends,
            occurrences,
            &mut cursors,
            out,
            own,
            n.state,
            n.top,
            stack[low],
        );
    }
    n.state.tally.number()
}
