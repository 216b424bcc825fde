// Tops: for each node the SLCA at or above it, and which of them every positive word points to by a valid occurrence.
// Two rows have an entry for each node: marks, in the place of which come tops and then flags; and negators, in the place of which comes how many words in a row a
// node has seen.
ghost use Rattle.std.specs.Prelude.{◌≡◌, ◌≤◌, length};
ghost use Rattle.valid.specs.Inner.Tops.{top_here, AbovePre, top_above, PointPre, Pointed, SeePre, Saw, SeeListPre, SawList, SeeWordsPre, SawWords, Settled, KeepPre, Kept};

// The top of a node: n + 1 if it is a negator or its parent has that, else the node itself if it is marked, else the top of its parent.
fn top_here(mark: u32, shut: u32, me: u32, above: u32, n: u32) -> u32
    requires { n ≤ 65536 }
    ensures { result ≡ top_here mark shut me above n }
{
    if shut == n || n < above {
        n + 1
    } else if mark == 1 {
        me
    } else {
        above
    }
}

// The top of a node's parent; n above the root.
fn top_above(parents: &[u32], tops: &[u32], v: usize) -> u32
    requires { AbovePre parents.now tops.now v }
    ensures { result ≡ top_above parents.now tops.now v }
{
    if v == 0 {
        parents.len() as u32
    } else {
        tops[parents[v] as usize]
    }
}

// From marks and negators: the top of each node, in the place of the marks.
fn point(parents: &[u32], negators: &[u32], tops: &mut [u32])
    requires { PointPre parents.now negators.now tops.old }
    ensures { Pointed parents.now negators.now tops.old tops.new }
{
    let n = parents.len() as u32;
    for v in 0..parents.len() {
        let above = top_above(parents, &*tops, v);
        tops[v] = top_here(tops[v], negators[v], v as u32, above, n);
    }
}

// An occurrence of word j at x: its top, if it has one and has seen the words before j, has seen j too.
fn see(x: u32, j: u32, tops: &[u32], seen: &mut [u32])
    requires { SeePre x j tops.now }
    ensures { Saw x j tops.now seen.old seen.new }
{
    let top = tops[x as usize] as usize;
    if top < seen.len() && seen[top] == j {
        seen[top] = j + 1;
    }
}

// All occurrences of word j.
fn see_list(list: &[u32], j: u32, tops: &[u32], seen: &mut [u32])
    requires { SeeListPre j list.now tops.now }
    ensures { SawList j list.now tops.now seen.old seen.new }
{
    for x in list {
        see(*x, j, tops, &mut *seen);
    }
}

// The first p words, one after the other.
fn see_words(ends: &[u32], occurrences: &[u32], p: usize, tops: &[u32], seen: &mut [u32])
    requires { SeeWordsPre p ends.now occurrences.now tops.now seen.old }
    ensures { SawWords p ends.now occurrences.now tops.now seen.new }
{
    let mut from: usize = 0;
    for j in 0..p {
        let to = ends[j] as usize;
        see_list(&occurrences[from..to], j as u32, tops, &mut *seen);
        from = to;
    }
}

// The flags: 1 where a node has seen all p words.
fn settle(p: u32, seen: &[u32], flags: &mut [u32])
    requires { length flags.old ≡ length seen.now }
    ensures { Settled p seen.now flags.new }
{
    for v in 0..seen.len() {
        flags[v] = u32::from(seen[v] == p);
    }
}

// From marks and negators: the flags of the nodes kept in the place of the marks, zeros in that of the negators.
pub(crate) fn keep(
    parents: &[u32],
    p: usize,
    ends: &[u32],
    occurrences: &[u32],
    tops: &mut [u32],
    seen: &mut [u32],
)
    requires { KeepPre parents.now p ends.now occurrences.now tops.old seen.old }
    ensures { Kept parents.now p ends.now occurrences.now tops.old seen.old tops.new seen.new }
{
    point(parents, &*seen, &mut *tops);
    seq::clear(&mut *seen);
    see_words(ends, occurrences, p, &*tops, &mut *seen);
    settle(p as u32, &*seen, tops);
    seq::clear(seen);
}
