// The three demands, of calls through the C interface: each function calls one that include/sonquilate.h declares and promises, of its reply and of what
// stands in the buffers, what users were promised in words. Its promise is proved from the contract of the function called, and that contract from its
// promise (proofs/Calls), so neither can be changed without the other.
#![tactic(auto)]

ghost use Rattle.index.specs.Promises.{lent};
ghost use Rattle.demands.specs.Calls.{CheckDemands, ElcaDemands, SlcaDemands, ValidDemands};

use index::Reply;

// The index check: every index gets a reply, by number and place as 01's table says.
pub fn check(
    parents: &[u32],
    tags: &[u32],
    p: u32,
    q: u32,
    ends: &[u32],
    occurrences: &[u32],
    counts: &[u32],
    work: &mut [u32],
) -> Reply
    ensures { CheckDemands (lent parents.now tags.now p q ends.now occurrences.now
        counts.now) work.old result work.new }
{
    sonquilate::sq_check(parents, tags, p, q, ends, occurrences, counts, work)
}

// ELCA: exactly the exclusive lowest common ancestors, and in own the credits of each.
pub fn elca(
    parents: &[u32],
    tags: &[u32],
    p: u32,
    q: u32,
    ends: &[u32],
    occurrences: &[u32],
    counts: &[u32],
    work: &mut [u32],
    out: &mut [u32],
    own: &mut [u32],
) -> Reply
    ensures { ElcaDemands (lent parents.now tags.now p q ends.now occurrences.now
        counts.now) work.old out.old own.old result work.new out.new
        own.new }
{
    sonquilate::sq_elca(
        parents,
        tags,
        p,
        q,
        ends,
        occurrences,
        counts,
        work,
        out,
        own,
    )
}

// SLCA: exactly the smallest lowest common ancestors, the shortest list that loses nothing.
pub fn slca(
    parents: &[u32],
    tags: &[u32],
    p: u32,
    q: u32,
    ends: &[u32],
    occurrences: &[u32],
    counts: &[u32],
    work: &mut [u32],
    out: &mut [u32],
) -> Reply
    ensures { SlcaDemands (lent parents.now tags.now p q ends.now occurrences.now
        counts.now) work.old out.old result work.new out.new }
{
    sonquilate::sq_slca(parents, tags, p, q, ends, occurrences, counts, work, out)
}

// Valid SLCA: exactly the smallest ones that are valid under NOT.
pub fn valid(
    parents: &[u32],
    tags: &[u32],
    p: u32,
    q: u32,
    ends: &[u32],
    occurrences: &[u32],
    counts: &[u32],
    work: &mut [u32],
    out: &mut [u32],
) -> Reply
    ensures { ValidDemands (lent parents.now tags.now p q ends.now occurrences.now
        counts.now) work.old out.old result work.new out.new }
{
    sonquilate::sq_valid(parents, tags, p, q, ends, occurrences, counts, work, out)
}
