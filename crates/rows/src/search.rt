// The searches over a table. What is lent to them is long enough for 256 nodes and 8 words.
ghost use Rattle.text.specs.Buffers.{Added};
ghost use Rattle.rows.specs.Output.{answers_text};
ghost use Rattle.rows.specs.Inner.{table_in};

use crate::lend::Rows;
use index::Lent;
use report::{put_pair, put_valid};
use sheet::Shape;
use text::Writer;

// The lines of the three searches over a table: ELCA and SLCA run on the positive words, valid SLCA on all.
pub(crate) fn put_answers(rows: &Rows, output: &mut Writer<u8>)
    ensures { Added (answers_text (table_in rows.now.shape rows.now.cells.now)) output.old output.new }
{
    let mut parents = Writer {
        out: &mut [0u32; 256],
        at: 0,
    };
    let mut tags = Writer {
        out: &mut [0u32; 256],
        at: 0,
    };
    let mut ends = Writer {
        out: &mut [0u32; 8],
        at: 0,
    };
    let mut occurrences = Writer {
        out: &mut [0u32; 2048],
        at: 0,
    };
    let mut counts = Writer {
        out: &mut [0u32; 2048],
        at: 0,
    };
    let Shape { p, q, n: _ } = rows.shape;
    rows.put_column(0, &mut parents);
    rows.put_column(1, &mut tags);
    for j in 0..p {
        rows.put_word(j, &mut ends, &mut occurrences, &mut counts);
    }
    let positive = Lent {
        parents: parents.written(),
        tags: tags.written(),
        positive: p as u32,
        negative: 0,
        ends: ends.written(),
        occurrences: occurrences.written(),
        counts: counts.written(),
    };
    put_pair(positive, &mut *output);
    for k in p..p + q {
        rows.put_word(k, &mut ends, &mut occurrences, &mut counts);
    }
    let all = Lent {
        parents: parents.written(),
        tags: tags.written(),
        positive: p as u32,
        negative: q as u32,
        ends: ends.written(),
        occurrences: occurrences.written(),
        counts: counts.written(),
    };
    put_valid(all, output)
}
