// The index that a table lends to a search (01, "The table program"): columns of its cells, and the nodes at which each word occurs.
ghost use Rattle.std.specs.Prelude.{◌≡◌, ◌+◌, ◌*◌, ◌<◌, ◌≤◌, eqb, length};
ghost use Rattle.seq.specs.Below.{tabulate, listed};
ghost use Rattle.text.specs.Buffers.{Added};
ghost use Rattle.sheet.specs.Table.{field_of, width};
ghost use Rattle.rows.specs.Inner.{table_in, Lent};

use sheet::Shape;
use text::Writer;

// The numbers on the node lines of a table, one line after the other.
#[derive(Clone, Copy)]
pub(crate) struct Rows<'a> {
    pub shape: Shape,
    pub cells: &'a [u32],
    ghost few_words: { shape.p + shape.q ≤ 8 },
    ghost few_nodes: { shape.n ≤ 256 },
    ghost full: { length cells.now ≡ shape.n * width (shape.p + shape.q) },
}

impl Rows<'_> {
    // The number in field i of node v's line.
    fn field(&self, v: usize, i: usize) -> u32
        requires node { v < self.now.shape.n }
        requires field { i < width (self.now.shape.p + self.now.shape.q) }
        ensures { result ≡ field_of (table_in self.now.shape self.now.cells.now) v i }
    {
        self.cells[v * (2 + 2 * (self.shape.p + self.shape.q)) + i]
    }

    // The numbers in field i of all node lines.
    pub(crate) fn put_column(&self, i: usize, out: &mut Writer<u32>)
        requires { i < width (self.now.shape.p + self.now.shape.q) }
        ensures { Added (tabulate self.now.shape.n (λ v. field_of (table_in self.now.shape self.now.cells.now) v i)) out.old out.new }
    {
        for v in 0..self.shape.n {
            out.put(self.field(v, i));
        }
    }

    // The nodes in whose lines field i is 1.
    fn put_list(&self, i: usize, out: &mut Writer<u32>)
        requires { i < width (self.now.shape.p + self.now.shape.q) }
        ensures { Added (listed self.now.shape.n (λ v. eqb (field_of (table_in self.now.shape self.now.cells.now) v i) 1)) out.old out.new }
    {
        for v in 0..self.shape.n {
            if self.field(v, i) == 1 {
                out.put(v as u32);
            }
        }
    }

    // Lends word j, where the words before it have been lent: its list, where that ends, and its counts.
    pub(crate) fn put_word(
        &self,
        j: usize,
        ends: &mut Writer<u32>,
        occurrences: &mut Writer<u32>,
        counts: &mut Writer<u32>,
    )
        requires word { j < self.now.shape.p + self.now.shape.q }
        requires before { Lent (table_in self.now.shape self.now.cells.now) j ends.old occurrences.old counts.old }
        ensures { Lent (table_in self.now.shape self.now.cells.now) (j + 1) ends.new occurrences.new counts.new }
    {
        self.put_list(2 + 2 * j, &mut *occurrences);
        ends.put(occurrences.at as u32);
        self.put_column(3 + 2 * j, counts);
    }
}
