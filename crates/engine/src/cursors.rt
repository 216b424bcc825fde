// The cursors: what is left of the words' lists, which are merged from their ends.
ghost use Rattle.std.specs.Prelude.{◌≡◌};
ghost use Rattle.engine.specs.Inner.Cursors.{coming_row, last_left, CursorsPre, Taken, SetPre, Set};
ghost use Rattle.engine.specs.Inner.Words.{LastPre, TakeWordPre, WordTaken};

// Of each word there may be, one more than the last occurrence that is left, or 0 where none is; and where what is left of its list ends.
#[derive(Clone, Copy)]
pub(crate) struct Cursors {
    pub heads: [u32; 8],
    pub stops: [u32; 8],
}

// One more than the last of the occurrences from `from` up to `to`, or 0 where there is none.
fn last_left(occurrences: &[u32], from: u32, to: u32) -> u32
    requires { LastPre occurrences.now «from» to }
    ensures { result ≡ last_left occurrences.now «from» to }
{
    if from < to {
        occurrences[(to - 1) as usize] + 1
    } else {
        0
    }
}

impl Cursors {
    // The cursors at the ends of the lists, and one more than the node that comes first, or 0 where there is no occurrence.
    pub(crate) fn new(ends: &[u32], occurrences: &[u32]) -> (Cursors, u32)
        requires { SetPre ends.now occurrences.now }
        ensures { Set ends.now occurrences.now result.1 result.0 }
    {
        let mut cursors = Cursors {
            heads: [0; 8],
            stops: [0; 8],
        };
        let mut reach = 0;
        let mut from = 0;
        for (j, &to) in ends.iter().enumerate() {
            let head = last_left(occurrences, from, to);
            cursors.heads[j] = head;
            cursors.stops[j] = to;
            reach = reach.max(head);
            from = to;
        }
        (cursors, reach)
    }

    // How often each word occurs at the node that comes next.
    pub(crate) fn coming(&self, reach: u32) -> [u32; 8]
        ensures { result ≡ coming_row self.now reach }
    {
        let mut came = [0; 8];
        for j in 0..8 {
            came[j] = u32::from(self.heads[j] == reach);
        }
        came
    }

    // Takes word j's occurrence at the node that comes next, if it has one. What is left of it: one more than its last, or 0.
    fn take_word(&mut self, occurrences: &[u32], j: usize, from: u32, reach: u32) -> u32
        requires { TakeWordPre occurrences.now self.old j «from» reach }
        ensures { WordTaken occurrences.now self.old j «from» reach result self.new }
    {
        let head = self.heads[j];
        if head != reach {
            return head;
        }
        let stop = self.stops[j] - 1;
        let next = last_left(occurrences, from, stop);
        self.heads[j] = next;
        self.stops[j] = stop;
        next
    }

    // Takes the node that comes next off the lists. One more than the node that comes after it, or 0 where none is left.
    pub(crate) fn take(&mut self, ends: &[u32], occurrences: &[u32], reach: u32) -> u32
        requires { CursorsPre ends.now occurrences.now self.old reach }
        ensures { Taken ends.now occurrences.now self.old reach result self.new }
    {
        let mut next = 0;
        let mut from = 0;
        for (j, &to) in ends.iter().enumerate() {
            next = next.max(self.take_word(occurrences, j, from, reach));
            from = to;
        }
        next
    }
}
