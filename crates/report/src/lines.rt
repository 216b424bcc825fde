// The lines of the output, each ended by CR LF.
ghost use Rattle.std.specs.Prelude.{◌≡◌, take};
ghost use Rattle.text.specs.Buffers.{Added};
ghost use Rattle.report.specs.Lines.{reply_text, line_text, answer_text, listed_by};
ghost use Rattle.report.specs.Inner.{node_text};

use index::Reply;
use text::Writer;

// What a line says before its node.
fn put_reply(out: &mut Writer<u8>, name: &[u8], reply: Reply)
    ensures { Added (reply_text name.now reply) out.old out.new }
{
    out.put_all(name);
    out.put(b',');
    out.put_number(reply.refusal);
    out.put(b',');
    out.put_number(reply.place);
    out.put(b',');
}

// A line, whose node field is empty where there is no node.
pub(crate) fn put_line(out: &mut Writer<u8>, name: &[u8], reply: Reply, node: Option<u32>)
    ensures { Added (line_text name.now reply (node_text node)) out.old out.new }
{
    put_reply(&mut *out, name, reply);
    if let Some(v) = node {
        out.put_number(v);
    }
    out.put_all(b"\r\n");
}

// The nodes that are listed under a reply: none under a refusal.
fn shown(reply: Reply, nodes: &[u32]) -> &[u32]
    ensures { result.now ≡ listed_by reply (take reply.total nodes.now) }
{
    if reply.refusal != 0 {
        return &[];
    }
    &nodes[..nodes.len().min(reply.total as usize)]
}

// The lines of a search: one for each node listed, or one with an empty node field where none is.
pub(crate) fn put_answer(out: &mut Writer<u8>, name: &[u8], reply: Reply, nodes: &[u32])
    ensures { Added (answer_text name.now reply (listed_by reply (take reply.total nodes.now))) out.old out.new }
{
    let listed = shown(reply, nodes);
    if listed.is_empty() {
        put_line(&mut *out, name, reply, None);
    }
    for v in listed {
        put_line(&mut *out, name, reply, Some(*v));
    }
}
