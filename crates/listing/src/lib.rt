// Listing flagged nodes: how many there are, and their numbers written to out in increasing order (01, "Replies" and "Memory").
#![tactic(auto)]

ghost use Rattle.std.specs.Prelude.{◌≡◌, length};
ghost use Rattle.seq.specs.Below.{listed};
ghost use Rattle.seq.specs.Memory.{over};
ghost use Rattle.index.specs.Replies.{reply_of};
ghost use Rattle.listing.specs.Listing.{flagged, flagged_rows, Listed};
ghost use Rattle.listing.specs.Inner.{WritePre};

use index::Refusal;

// The number of nodes flagged with 1.
pub fn count_flagged(flags: &[u32]) -> usize
    ensures { result ≡ length (listed (length flags.now) (flagged flags.now)) }
{
    let mut m: usize = 0;
    for flag in flags {
        m += usize::from(*flag == 1);
    }
    m
}

// Writes the flagged nodes over the front of out.
fn write_flagged(flags: &[u32], out: &mut [u32])
    requires { WritePre flags.now out.old }
    ensures { out.new ≡ over (flagged_rows flags.now) out.old }
{
    let mut m: usize = 0;
    for (v, flag) in flags.iter().enumerate() {
        if *flag == 1 {
            out[m] = v as u32;
            m += 1;
        }
    }
}

// Lists the nodes flagged with 1.
//   Size      more than 65,536 flags; out stays
//   Room(m)   out is shorter than the m flagged nodes; out stays
//   Ok(m)     the m flagged nodes are written over the front of out, later entries stay
pub fn list_flagged(flags: &[u32], out: &mut [u32]) -> Result<u32, Refusal>
    ensures { Listed flags.now out.old (reply_of result) out.new }
{
    if 65536 < flags.len() {
        return Err(Refusal::Size);
    }
    let m = count_flagged(flags);
    if out.len() < m {
        return Err(Refusal::Room(m as u32));
    }
    write_flagged(flags, out);
    Ok(m as u32)
}
