// The number of each element's type, which is the type's lowest node, and a flag at that node where the type has a twin.
ghost use Rattle.std.specs.Prelude.{◌≤◌};
ghost use Rattle.types.specs.Inner.Numbers.{TakeUpPre, TakenUp, NumberPre, Numbered, SpreadPre, Spread};

// Takes up node v, where `last` is the row in which each type has the last child taken up of its nodes. That one and v are of one type if they have one tag, and twins
// if they have one parent. A flag adds 65,536 to a type's number.
fn take_up(parents: &[u32], tags: &[u32], v: usize, last: usize, rows: &mut [u32])
    requires { TakeUpPre parents.now tags.now last v rows.old }
    ensures { TakenUp parents.now tags.now last v rows.old rows.new }
{
    let up = parents[v] as usize;
    let cell = last + (rows[up] % 65536) as usize;
    let before = rows[cell] as usize;
    rows[cell] = v as u32;
    rows[v] = v as u32;
    if before == 0 || tags[before] != tags[v] {
        return;
    }
    let first = rows[before] % 65536;
    rows[v] = first;
    if parents[before] == parents[v] {
        rows[first as usize] = first + 65536;
    }
}

// Numbers the types, taking the m elements up in the order that begins at `at`.
pub(crate) fn number(
    parents: &[u32],
    tags: &[u32],
    m: usize,
    at: usize,
    last: usize,
    rows: &mut [u32],
)
    requires { NumberPre parents.now tags.now m «at» last rows.old }
    ensures { Numbered parents.now tags.now rows.old rows.new }
{
    for i in 0..m {
        let v = rows[at + i] as usize;
        take_up(parents, tags, v, last, &mut *rows);
    }
}

// Each entry becomes the flag of its type, from the last entry to the first: a type's number is none of the entries already changed.
pub(crate) fn spread(row: &mut [u32])
    requires { SpreadPre row.old }
    ensures { Spread row.old row.new }
{
    for v in (0..row.len()).rev() {
        let first = (row[v] % 65536) as usize;
        row[v] = row[first] / 65536;
    }
}
