// The lowest own occurrence of each word, by the flags of the nodes.
ghost use Rattle.std.specs.Prelude.{◌≡◌};
ghost use Rattle.reason.specs.Inner.{lowest_by, FlaggedPre, FindPre, Finds};

// What is found on a checked index: the reason, and where it is `Listed` the lowest own occurrence of each word, then zeros.
#[derive(Clone, Copy)]
pub(crate) enum Why {
    NotFull(u32),
    NotListed(u32),
    Listed([u32; 8]),
}

// The first entry of a list whose node is flagged.
fn first_flagged(list: &[u32], row: &[u32]) -> Option<u32>
    requires { FlaggedPre list.now row.now }
    ensures { result ≡ lowest_by row.now list.now }
{
    for x in list {
        if row[*x as usize] != 0 {
            return Some(*x);
        }
    }
    None
}

// The first flagged entry of each word's list, or the first word whose list has none.
pub(crate) fn find(ends: &[u32], occurrences: &[u32], row: &[u32]) -> Why
    requires { FindPre ends.now occurrences.now row.now }
    ensures { Finds ends.now occurrences.now row.now result }
{
    let mut lowest = [0u32; 8];
    let mut from: usize = 0;
    for (j, end) in ends.iter().enumerate() {
        let to = *end as usize;
        let Some(x) = first_flagged(&occurrences[from..to], row) else {
            return Why::NotListed(j as u32);
        };
        lowest[j] = x;
        from = to;
    }
    Why::Listed(lowest)
}
