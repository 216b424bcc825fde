// The output of the table program (01, "The table program"): lines of search name, refusal number, place and node.
// Each function writes behind what a writer of a lent buffer has written; what does not fit is not written.
// `put_pair` runs ELCA and SLCA on a lent index and writes their lines, `put_valid` valid SLCA; `put_bare` writes one line without a node.
#![tactic(auto)]

mod lines;

ghost use Rattle.std.specs.Prelude.{[]};
ghost use Rattle.index.specs.Promises.{index_of};
ghost use Rattle.text.specs.Buffers.{Added};
ghost use Rattle.report.specs.Lines.{line_text, elca_text, slca_text, pair_text, valid_text};

use index::{Lent, Reply};
use lines::{put_answer, put_line};
use text::Writer;

// One line with an empty node field.
pub fn put_bare(out: &mut Writer<u8>, name: &[u8], reply: Reply)
    ensures { Added (line_text name.now reply []) out.old out.new }
{
    put_line(out, name, reply, None)
}

// The lines of ELCA.
fn put_elca(lent: Lent, output: &mut Writer<u8>)
    ensures { Added (elca_text (index_of lent.entry)) output.old output.new }
{
    let mut work = [0u32; 2560];
    let mut out = [0u32; 256];
    let mut own = [0u32; 2048];
    let reply = Reply::from(elca::elca(lent, &mut work, &mut out, &mut own));
    put_answer(output, b"elca", reply, &out)
}

// The lines of SLCA.
fn put_slca(lent: Lent, output: &mut Writer<u8>)
    ensures { Added (slca_text (index_of lent.entry)) output.old output.new }
{
    let mut work = [0u32; 2560];
    let mut out = [0u32; 256];
    let reply = Reply::from(slca::slca(lent, &mut work, &mut out));
    put_answer(output, b"slca", reply, &out)
}

// The lines of ELCA and of SLCA, on one index.
pub fn put_pair(lent: Lent, output: &mut Writer<u8>)
    ensures { Added (pair_text (index_of lent.entry)) output.old output.new }
{
    put_elca(lent, &mut *output);
    put_slca(lent, &mut *output);
}

// The lines of valid SLCA.
pub fn put_valid(lent: Lent, output: &mut Writer<u8>)
    ensures { Added (valid_text (index_of lent.entry)) output.old output.new }
{
    let mut work = [0u32; 2560];
    let mut out = [0u32; 256];
    let reply = Reply::from(valid::valid(lent, &mut work, &mut out));
    put_answer(output, b"valid", reply, &out)
}
