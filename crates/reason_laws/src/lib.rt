// What dispatchers are promised of a reason, of a call through the C interface: the function here calls the one that include/sonquilate.h declares and promises,
// in plain statements, what the request has in words. Its promise is proved from the contract of the function called, and that contract from its promise
// (proofs/Calls), so neither can be changed without the other.
#![tactic(auto)]

ghost use Rattle.index.specs.Promises.{lent};
ghost use Rattle.reason_laws.specs.Calls.{ReasonDemands};

use reason::Numbers;

// The reason for a node: true, and the only one.
pub fn why(
    parents: &[u32],
    tags: &[u32],
    p: u32,
    q: u32,
    ends: &[u32],
    occurrences: &[u32],
    counts: &[u32],
    node: u32,
    work: &mut [u32],
) -> Numbers
    ensures { ReasonDemands (lent parents.now tags.now p q ends.now occurrences.now
        counts.now) node work.old result work.new }
{
    sonquilate::sq_reason(parents, tags, p, q, ends, occurrences, counts, node, work)
}
