// Which occurrences are a full node's own: a flag for each node under it.
ghost use Rattle.std.specs.Prelude.{◌≡◌};
ghost use Rattle.reason.specs.Inner.{found_below, missing_by, flag_below, RowsPre, FlagPre, OwnFlagged};

// The first word whose count at v is 0.
pub(crate) fn first_missing(counts: &[u32], n: usize, k: usize, v: usize) -> Option<usize>
    requires { RowsPre counts.now n k v }
    ensures { result ≡ found_below k (missing_by counts.now n k v) }
{
    (0..k).position(|j| counts[j * n + v] == 0)
}

// The flag of a node u below v, where its parent's is `above`: what is at u is v's own if what is at its parent is, and u is not full.
fn flag_of(counts: &[u32], n: usize, k: usize, u: usize, above: u32) -> u32
    requires { RowsPre counts.now n k u }
    ensures { result ≡ flag_below counts.now n k u above }
{
    u32::from(above != 0 && first_missing(counts, n, k, u).is_some())
}

// From zeros: 1 at each node at which an occurrence is v's own. The nodes under v are those behind it up to the first whose parent stands before v; that one's number is given.
pub(crate) fn flag_own(
    parents: &[u32],
    counts: &[u32],
    k: usize,
    v: usize,
    row: &mut [u32],
) -> usize
    requires { FlagPre parents.now counts.now k v row.old }
    ensures { OwnFlagged parents.now counts.now k v result row.new }
{
    let n = parents.len();
    row[v] = 1;
    for u in v + 1..n {
        let up = parents[u] as usize;
        if up < v {
            return u;
        }
        row[u] = flag_of(counts, n, k, u, row[up]);
    }
    n
}
