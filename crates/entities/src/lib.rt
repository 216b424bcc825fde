// Entities, and the closest entity of each node (01, "Which nodes are listed": Node classes, with 02's Q-1; source document 002).
// One entry point, `find_closest`. Slices of any length and any content may be lent. Which nodes are entities is asked in `is_entity` alone.
#![tactic(auto)]

ghost use Rattle.std.specs.Prelude.{◌≡◌, ◌≤◌, length};
ghost use Rattle.answers.specs.Classes.{closest};
ghost use Rattle.entities.specs.Inner.{grown, entity_by, closest_by, Holds, TreePre, codes};
ghost use Rattle.types.specs.Repeated.{repeat_flag};
ghost use Rattle.entities.specs.Closest.{closest_rows};

// A node with this tag and this code is an entity: it is no text, its type repeats, and it has not one text child alone.
fn is_entity(tag: u32, code: u32) -> bool
    ensures { result ≡ entity_by tag code }
{
    tag != 0 && (code == 1 || code == 5)
}

// The code after one more child, whose tag is `tag`.
fn grow(code: u32, tag: u32) -> u32
    requires { code ≤ 5 }
    ensures { result ≡ grown code tag }
{
    if code >= 4 {
        code
    } else if code >= 2 || tag == 0 {
        code + 2
    } else {
        code + 4
    }
}

// From the flags of the types that repeat: the code of each node.
fn count_children(parents: &[u32], tags: &[u32], row: &mut [u32])
    requires { TreePre parents.now tags.now (repeat_flag parents.now tags.now) row.old }
    ensures { Holds (length parents.now) (codes parents.now tags.now) row.new }
{
    for c in 1..parents.len() {
        let up = parents[c] as usize;
        row[up] = grow(row[up], tags[c]);
    }
}

// What the closest entity of node v is: v itself where its tag and code make it an entity, else the one above it.
fn closest_of(tag: u32, code: u32, v: u32, above: u32) -> u32
    ensures { result ≡ closest_by tag code v above }
{
    if is_entity(tag, code) { v } else { above }
}

// From the codes: the closest entity of each node, which is the node itself where it is an entity, and else its parent's.
fn pass_down(parents: &[u32], tags: &[u32], row: &mut [u32])
    requires { TreePre parents.now tags.now (codes parents.now tags.now) row.old }
    ensures { Holds (length parents.now) (closest parents.now tags.now) row.new }
{
    row[0] = 0;
    for v in 1..parents.len() {
        let up = parents[v] as usize;
        row[v] = closest_of(tags[v], row[v], v as u32, row[up]);
    }
}

// From the flags of the types that repeat: the closest entity of each node.
fn fill(parents: &[u32], tags: &[u32], row: &mut [u32])
    requires { TreePre parents.now tags.now (repeat_flag parents.now tags.now) row.old }
    ensures { Holds (length parents.now) (closest parents.now tags.now) row.new }
{
    count_children(parents, tags, &mut *row);
    pass_down(parents, tags, row);
}

// For n = parents.len() nodes: the first n entries of rows become the closest entity of each node, the root where there is none; the next 2n entries
// become 0, and the rest stays. Rows stay as lent where n is above 65,536, tags are not n long, rows are shorter than 3n or the tree breaks a rule of 01.
pub fn find_closest(parents: &[u32], tags: &[u32], rows: &mut [u32])
    ensures { rows.new ≡ closest_rows parents.now tags.now rows.old }
{
    if !types::flag_repeated(parents, tags, &mut *rows) {
        return;
    }
    let n = parents.len();
    if n == 0 {
        return;
    }
    fill(parents, tags, &mut rows[..n]);
}
