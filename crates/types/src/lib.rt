// Types: which nodes are of a type that repeats (02, Q-1: some node of the type has a sibling with its tag).
// One entry point, `flag_repeated`. Slices of any length and any content may be lent. The work grows with the nodes, whatever the tags are.
#![tactic(auto)]

mod number;
mod order;

ghost use Rattle.std.specs.Prelude.{◌≡◌};
ghost use Rattle.types.specs.Repeated.{flag_rows, RepeatedFlagged};
ghost use Rattle.types.specs.Inner.Numbers.{MakePre};

// Over three rows: the flags, and two rows of zeros.
fn make_flags(parents: &[u32], tags: &[u32], rows: &mut [u32])
    requires { MakePre parents.now tags.now rows.old }
    ensures { rows.new ≡ flag_rows parents.now tags.now }
{
    let n = parents.len();
    let m = order::list_elements(tags, &mut rows[n..n * 2]);
    let by_tag = order::sort_tags(tags, m, &mut *rows);
    let at = order::pass_levels(parents, tags, m, by_tag, &mut *rows);
    let last = n * 3 - at;
    seq::clear(&mut rows[last..last + n]);
    rows[0] = 0;
    number::number(parents, tags, m, at, last, &mut *rows);
    number::spread(&mut rows[..n]);
    seq::clear(&mut rows[n..]);
}

// For n = parents.len() nodes: the first n entries of rows become 1 where the node is no text and some node of its type has a sibling with its tag, else 0; the
// next 2n entries become 0, and the rest stays. Says so by true. False, and rows stay as lent, where n is above 65,536, tags are not n long, rows are shorter
// than 3n or the tree breaks a rule of 01.
pub fn flag_repeated(parents: &[u32], tags: &[u32], rows: &mut [u32]) -> bool
    ensures { RepeatedFlagged parents.now tags.now rows.old result rows.new }
{
    let n = parents.len();
    if n > 65536 || tags.len() != n || rows.len() < n * 3 || tree::tree_bad(parents, tags) != n {
        return false;
    }
    if n > 0 {
        make_flags(parents, tags, &mut rows[..n * 3]);
    }
    true
}
