// The lists of the query's words with their ends, from the flags; and then the counts, in the place of the flags.
ghost use Rattle.build.specs.Inner.{ListsPre, ListsWritten, SumRowPre, SumsRow, SumRowsPre, SumsRows};

// Writes each word's list behind the one before, and where it ends. Word j's flags are the n entries of `flags` from j * n on.
pub(crate) fn write_lists(flags: &[u32], n: usize, ends: &mut [u32], occurrences: &mut [u32])
    requires { ListsPre flags.now n ends.old occurrences.old }
    ensures { ListsWritten flags.now n ends.old occurrences.old ends.new occurrences.new }
{
    let mut at = 0;
    for j in 0..ends.len() {
        // there is room, since as many entries as the lists have were lent
        let m = listing::list_flagged(&flags[j * n..(j + 1) * n], &mut occurrences[at..]).unwrap();
        at += m as usize;
        ends[j] = at as u32;
    }
}

// Each entry becomes the sum of those under its node: from the last node to the first, each is added to its parent's.
fn sum_row(parents: &[u32], row: &mut [u32])
    requires { SumRowPre parents.now row.old }
    ensures { SumsRow parents.now row.old row.new }
{
    for i in (1..parents.len()).rev() {
        let up = parents[i] as usize;
        row[up] += row[i];
    }
}

// The same for each word's row of n entries.
pub(crate) fn sum_rows(parents: &[u32], k: usize, counts: &mut [u32])
    requires { SumRowsPre parents.now k counts.old }
    ensures { SumsRows parents.now k counts.old counts.new }
{
    let n = parents.len();
    for j in 0..k {
        sum_row(parents, &mut counts[j * n..(j + 1) * n]);
    }
}
