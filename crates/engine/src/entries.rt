// Entries of the stack, by value. A row of counts has 8 numbers, one for each word there may be: rows of one length are added a few numbers at a time.
ghost use Rattle.std.specs.Prelude.{◌≡◌, ◌≤◌};
ghost use Rattle.engine.specs.Inner.Entries.{fresh, sums, held, each_some, answering, closed_into, SumsPre, ClosedIntoPre, AnswersPre};

use crate::Entry;

// Two rows added word by word.
pub(crate) fn add(a: [u32; 8], b: [u32; 8]) -> [u32; 8]
    requires { SumsPre a b }
    ensures { result ≡ sums a b }
{
    let mut sums = [0; 8];
    for j in 0..8 {
        sums[j] = a[j] + b[j];
    }
    sums
}

// Whether each of the first k counts is 1 or more.
pub(crate) fn each_some(k: usize, a: [u32; 8]) -> bool
    requires { k ≤ 8 }
    ensures { result ≡ each_some k a }
{
    for j in 0..k {
        if a[j] == 0 {
            return false;
        }
    }
    true
}

impl Entry {
    // The entry of a node with nothing counted yet.
    pub(crate) fn new(node: u32) -> Entry
        ensures { result ≡ fresh node }
    {
        Entry {
            node,
            own: [0; 8],
            covered: [0; 8],
        }
    }

    // What has been counted of each word, own and covered.
    pub(crate) fn held(self) -> [u32; 8]
        requires { SumsPre self.own self.covered }
        ensures { result ≡ held self }
    {
        add(self.own, self.covered)
    }

    // Whether a node that is closed with this entry is an answer; `full` says whether it is full.
    pub(crate) fn answers(self, full: bool, k: usize, smallest: bool) -> bool
        requires { AnswersPre self full k }
        ensures { result ≡ answering smallest k self }
    {
        if smallest {
            full && self.covered[0] == 0
        } else {
            each_some(k, self.own)
        }
    }

    // The entry, once a node that held so much has been closed into it.
    pub(crate) fn close_into(self, full: bool, held: [u32; 8]) -> Entry
        requires { ClosedIntoPre self «held» }
        ensures { result ≡ closed_into self full «held» }
    {
        if full {
            Entry {
                covered: add(self.covered, held),
                ..self
            }
        } else {
            Entry {
                own: add(self.own, held),
                ..self
            }
        }
    }
}
