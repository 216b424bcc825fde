// Reads a table (01, "The table program"): p, q, how many nodes there are and the numbers on their lines, or the first line that breaks a rule.
#![tactic(auto)]

mod header;

ghost use Rattle.std.specs.Prelude.{◌≡◌, ◌≤◌, length, drop};
ghost use Rattle.text.specs.Text.{all_lines};
ghost use Rattle.sheet.specs.Inner.{most_in, RowRead, RowsRead};
ghost use Rattle.sheet.specs.Promises.{TableRead};

use header::{count, header_ok};
use text::{Writer, field_end, line_end, number};

// A table: p positive and q negative words, n nodes.
#[derive(Clone, Copy)]
pub struct Shape {
    pub p: usize,
    pub q: usize,
    pub n: usize,
}

// Why a text is no table: it is too long, or a line, from 1, is the first that breaks a rule.
#[derive(Clone, Copy)]
pub enum Broken {
    TooLong,
    Line(u32),
}

// The largest number that field i of a node line may be: 1 where it says whether a word occurs, else any number of five digits.
#[tactic(auto, unfolding(crate::specs::Inner::most_in, crate::specs::Table::occurrence))]
fn most(i: usize) -> u32
    ensures { result ≡ most_in i }
{
    match i {
        2.. if i % 2 == 0 => 1,
        _ => 99999,
    }
}

// Reads a node line of so many fields: whether it is good. The numbers before the first bad field are put behind the cells.
fn read_row(l: &[u8], width: usize, cells: &mut Writer<u32>) -> bool
    ensures { RowRead width l.now cells.old result cells.new }
{
    let mut from: usize = 0;
    for i in 0..width {
        let to = field_end(l, from);
        let Some(x) = number(&l[from..to]) else {
            return false;
        };
        if most(i) < x {
            return false;
        }
        cells.put(x);
        if to == l.len() {
            return i + 1 == width;
        }
        from = to + 1;
    }
    // a field too many
    false
}

// Reads the node lines from a place of the text on, at most 256: how many there are, or the first bad line. Their numbers are put behind the cells.
fn read_rows(s: &[u8], at: usize, width: usize, cells: &mut Writer<u32>) -> Result<usize, Broken>
    requires { at ≤ length s.now }
    ensures { RowsRead width (all_lines (drop at s.now)) cells.old result cells.new }
{
    let mut v: usize = 0;
    let mut from = at;
    while from < s.len() {
        let to = line_end(s, from);
        if v == 256 || !read_row(&s[from..to], width, &mut *cells) {
            return Err(Broken::Line(v as u32 + 2));
        }
        v += 1;
        from = (to + 2).min(s.len());
    }
    Ok(v)
}

// Reads a table. Length is tested first, then the header, then each further line.
pub fn read_table(s: &[u8], cells: &mut [u32]) -> Result<Shape, Broken>
    ensures { TableRead s.now cells.old result cells.new }
{
    if 16384 < s.len() {
        return Err(Broken::TooLong);
    }
    let to = line_end(s, 0);
    let header = &s[..to];
    let p = count(header, b'+');
    let q = count(header, b'-');
    if !header_ok(header, p, q) {
        return Err(Broken::Line(1));
    }
    let at = (to + 2).min(s.len());
    let mut cells = Writer { out: cells, at: 0 };
    let n = read_rows(s, at, 2 + 2 * (p + q), &mut cells)?;
    Ok(Shape { p, q, n })
}
