// The rows of work that the ELCA search computes in: what the full children of each node hold, then a flag for each node.
ghost use Rattle.std.specs.Prelude.{◌≡◌, ◌+◌, ◌*◌, cond, length};
ghost use Rattle.seq.specs.Below.{tabulate};
ghost use Rattle.seq.specs.Memory.{over};
ghost use Rattle.index.specs.Inner.{cell};
ghost use Rattle.elca.specs.Inner.Rows.{flag_at, held_by, above_held, own_diff, own_rows, SumsAndFlags};
ghost use Rattle.elca.specs.Inner.Steps.{Grid, GivePre, given, TakeOffPre, is_flagged, NodePre, OwnRowPre, OwnPre};

// Adds child c's count of each word to what stands at node `up`.
fn give(counts: &[u32], n: usize, k: usize, c: usize, up: usize, work: &mut [u32])
    requires { GivePre n k c up counts.now work.old }
    ensures { SumsAndFlags n k (given counts.now n k c up work.old) (flag_at n k work.old)
        work.new }
{
    for j in 0..k {
        work[up * k + j] += counts[j * n + c];
    }
}

// From zeros: what the flagged children of each node hold of each word. The flags stay.
pub(crate) fn take_off(parents: &[u32], counts: &[u32], k: usize, work: &mut [u32])
    requires { TakeOffPre parents.now counts.now k work.old }
    ensures { SumsAndFlags (length parents.now) k
        (held_by parents.now counts.now (is_flagged (length parents.now) k work.old))
        (flag_at (length parents.now) k work.old) work.new }
{
    let n = parents.len();
    let sums = n * k;
    for c in 1..n {
        if work[sums + c] != 0 {
            let up = parents[c] as usize;
            give(counts, n, k, c, up, &mut *work);
        }
    }
}

// Whether each word's count at v is above what stands in work for it.
fn is_above(counts: &[u32], n: usize, k: usize, v: usize, work: &[u32]) -> bool
    requires { NodePre n k v counts.now work.now }
    ensures { result ≡ above_held counts.now n k work.now v }
{
    (0..k).all(|j| work[v * k + j] < counts[j * n + v])
}

// Each flag becomes 1 where each word's count is above what stands in work for it, else 0. The sums stay.
pub(crate) fn flag_above(counts: &[u32], n: usize, k: usize, work: &mut [u32])
    requires { Grid n k counts.now work.old }
    ensures { SumsAndFlags n k (cell k work.old)
        (λ v. cond (above_held counts.now n k work.old v) 1 0) work.new }
{
    let sums = n * k;
    for v in 0..n {
        let above = is_above(counts, n, k, v, &*work);
        work[sums + v] = u32::from(above);
    }
}

// The own counts of node v, in word order.
fn own_row(counts: &[u32], n: usize, k: usize, v: usize, work: &[u32], row: &mut [u32])
    requires { OwnRowPre n k v counts.now work.now row.old }
    ensures { row.new ≡ tabulate k (own_diff counts.now n k work.now v) }
{
    for (j, own) in row.iter_mut().enumerate() {
        *own = counts[j * n + v] - work[v * k + j];
    }
}

// Writes the own counts of the flagged nodes over the front of own.
pub(crate) fn write_own(counts: &[u32], n: usize, k: usize, work: &[u32], own: &mut [u32])
    requires { OwnPre n k counts.now work.now own.old }
    ensures { own.new ≡ over (own_rows counts.now n k work.now) own.old }
{
    let sums = n * k;
    let mut at: usize = 0;
    for v in 0..n {
        if work[sums + v] == 1 {
            let next = at + k;
            own_row(counts, n, k, v, work, &mut own[at..next]);
            at = next;
        }
    }
}
