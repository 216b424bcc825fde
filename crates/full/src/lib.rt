// Full flags from counts: which nodes have every word under them (01, "Which nodes are listed").
#![tactic(auto)]

ghost use Rattle.std.specs.Prelude.{◌≡◌, length};
ghost use Rattle.full.specs.Full.{full_by, full_flags};
ghost use Rattle.full.specs.Inner.{FullPre};

// Whether each of k words has a count above 0 at node v.
fn is_full(counts: &[u32], n: usize, k: usize, v: usize) -> bool
    requires { FullPre counts.now n k v }
    ensures { result ≡ full_by counts.now n k v }
{
    for j in 0..k {
        if counts[j * n + v] == 0 {
            return false;
        }
    }
    true
}

// Each flag becomes 1 where its node is full by the counts, else 0. There are as many nodes as flags, and as many words as counts has whole rows of them.
pub fn flag_full(counts: &[u32], flags: &mut [u32])
    ensures { flags.new ≡ full_flags counts.now (length flags.old) }
{
    let n = flags.len();
    if n == 0 {
        return;
    }
    let k = counts.len() / n;
    for (v, flag) in flags.iter_mut().enumerate() {
        *flag = u32::from(is_full(counts, n, k, v));
    }
}
