// Tables and their whole outputs, one after the other: 01's schedule with the words of its cases, then tables that break a rule.
#![tactic(auto)]

use std::io;

fn show(rt: &impl Print, input: &[u8]) -> io::Result<()> {
    let mut output = [0u8; 16384];
    let m = rows::answer_table(input, &mut output);
    rt.write_all(&output[..m])
}

fn main(rt: HostRuntime) -> io::Result<()> {
    // 01's cases 1 and 2: A and Z
    show(
        &rt,
        b"parent,tag,+,#,+,#\r\n0,1,0,3,0,2\r\n0,2,0,2,0,1\r\n1,3,0,1,0,1\r\n2,4,0,1,0,0\r\n3,0,1,1,0,0\r\n2,5,0,0,0,1\r\n5,0,0,0,1,1\r\n1,3,0,1,0,0\r\n7,4,0,1,0,0\r\n8,0,1,1,0,0\r\n7,6,0,0,0,0\r\n10,0,0,0,0,0\r\n0,2,0,0,0,1\r\n12,3,0,0,0,1\r\n13,5,0,0,0,1\r\n14,0,0,0,1,1\r\n0,7,0,1,0,0\r\n16,0,1,1,0,0\r\n",
    )?;
    // case 3: A alone
    show(
        &rt,
        b"parent,tag,+,#\r\n0,1,0,3\r\n0,2,0,2\r\n1,3,0,1\r\n2,4,0,1\r\n3,0,1,1\r\n2,5,0,0\r\n5,0,0,0\r\n1,3,0,1\r\n7,4,0,1\r\n8,0,1,1\r\n7,6,0,0\r\n10,0,0,0\r\n0,2,0,0\r\n12,3,0,0\r\n13,5,0,0\r\n14,0,0,0\r\n0,7,0,1\r\n16,0,1,1\r\n",
    )?;
    // case 4: U alone
    show(
        &rt,
        b"parent,tag,+,#\r\n0,1,0,2\r\n0,2,1,2\r\n1,3,1,1\r\n2,4,0,0\r\n3,0,0,0\r\n2,5,0,0\r\n5,0,0,0\r\n1,3,0,0\r\n7,4,0,0\r\n8,0,0,0\r\n7,6,0,0\r\n10,0,0,0\r\n0,2,0,0\r\n12,3,0,0\r\n13,5,0,0\r\n14,0,0,0\r\n0,7,0,0\r\n16,0,0,0\r\n",
    )?;
    // case 5: A and A
    show(
        &rt,
        b"parent,tag,+,#,+,#\r\n0,1,0,3,0,3\r\n0,2,0,2,0,2\r\n1,3,0,1,0,1\r\n2,4,0,1,0,1\r\n3,0,1,1,1,1\r\n2,5,0,0,0,0\r\n5,0,0,0,0,0\r\n1,3,0,1,0,1\r\n7,4,0,1,0,1\r\n8,0,1,1,1,1\r\n7,6,0,0,0,0\r\n10,0,0,0,0,0\r\n0,2,0,0,0,0\r\n12,3,0,0,0,0\r\n13,5,0,0,0,0\r\n14,0,0,0,0,0\r\n0,7,0,1,0,1\r\n16,0,1,1,1,1\r\n",
    )?;
    // case 6: A, NOT X
    show(
        &rt,
        b"parent,tag,+,#,-,#\r\n0,1,0,3,0,1\r\n0,2,0,2,0,1\r\n1,3,0,1,0,0\r\n2,4,0,1,0,0\r\n3,0,1,1,0,0\r\n2,5,0,0,0,0\r\n5,0,0,0,0,0\r\n1,3,0,1,0,1\r\n7,4,0,1,0,0\r\n8,0,1,1,0,0\r\n7,6,0,0,0,1\r\n10,0,0,0,1,1\r\n0,2,0,0,0,0\r\n12,3,0,0,0,0\r\n13,5,0,0,0,0\r\n14,0,0,0,0,0\r\n0,7,0,1,0,0\r\n16,0,1,1,0,0\r\n",
    )?;
    // case 7: A, NOT Z
    show(
        &rt,
        b"parent,tag,+,#,-,#\r\n0,1,0,3,0,2\r\n0,2,0,2,0,1\r\n1,3,0,1,0,1\r\n2,4,0,1,0,0\r\n3,0,1,1,0,0\r\n2,5,0,0,0,1\r\n5,0,0,0,1,1\r\n1,3,0,1,0,0\r\n7,4,0,1,0,0\r\n8,0,1,1,0,0\r\n7,6,0,0,0,0\r\n10,0,0,0,0,0\r\n0,2,0,0,0,1\r\n12,3,0,0,0,1\r\n13,5,0,0,0,1\r\n14,0,0,0,1,1\r\n0,7,0,1,0,0\r\n16,0,1,1,0,0\r\n",
    )?;
    // case 8: Z, NOT A
    show(
        &rt,
        b"parent,tag,+,#,-,#\r\n0,1,0,2,0,3\r\n0,2,0,1,0,2\r\n1,3,0,1,0,1\r\n2,4,0,0,0,1\r\n3,0,0,0,1,1\r\n2,5,0,1,0,0\r\n5,0,1,1,0,0\r\n1,3,0,0,0,1\r\n7,4,0,0,0,1\r\n8,0,0,0,1,1\r\n7,6,0,0,0,0\r\n10,0,0,0,0,0\r\n0,2,0,1,0,0\r\n12,3,0,1,0,0\r\n13,5,0,1,0,0\r\n14,0,1,1,0,0\r\n0,7,0,0,0,1\r\n16,0,0,0,1,1\r\n",
    )?;
    // case 9: T, NOT Z
    show(
        &rt,
        b"parent,tag,+,#,-,#\r\n0,1,0,2,0,2\r\n0,2,1,1,0,1\r\n1,3,0,0,0,1\r\n2,4,0,0,0,0\r\n3,0,0,0,0,0\r\n2,5,0,0,0,1\r\n5,0,0,0,1,1\r\n1,3,0,0,0,0\r\n7,4,0,0,0,0\r\n8,0,0,0,0,0\r\n7,6,0,0,0,0\r\n10,0,0,0,0,0\r\n0,2,1,1,0,1\r\n12,3,0,0,0,1\r\n13,5,0,0,0,1\r\n14,0,0,0,1,1\r\n0,7,0,0,0,0\r\n16,0,0,0,0,0\r\n",
    )?;
    // case 10: A with its count at node 1 set to 1
    show(
        &rt,
        b"parent,tag,+,#\r\n0,1,0,3\r\n0,2,0,1\r\n1,3,0,1\r\n2,4,0,1\r\n3,0,1,1\r\n2,5,0,0\r\n5,0,0,0\r\n1,3,0,1\r\n7,4,0,1\r\n8,0,1,1\r\n7,6,0,0\r\n10,0,0,0\r\n0,2,0,0\r\n12,3,0,0\r\n13,5,0,0\r\n14,0,0,0\r\n0,7,0,1\r\n16,0,1,1\r\n",
    )?;
    // case 12: A and a word with an empty list
    show(
        &rt,
        b"parent,tag,+,#,+,#\r\n0,1,0,3,0,0\r\n0,2,0,2,0,0\r\n1,3,0,1,0,0\r\n2,4,0,1,0,0\r\n3,0,1,1,0,0\r\n2,5,0,0,0,0\r\n5,0,0,0,0,0\r\n1,3,0,1,0,0\r\n7,4,0,1,0,0\r\n8,0,1,1,0,0\r\n7,6,0,0,0,0\r\n10,0,0,0,0,0\r\n0,2,0,0,0,0\r\n12,3,0,0,0,0\r\n13,5,0,0,0,0\r\n14,0,0,0,0,0\r\n0,7,0,1,0,0\r\n16,0,1,1,0,0\r\n",
    )?;
    // A, NOT Z, with a wrong count of Z at node 2: in `valid` alone
    show(
        &rt,
        b"parent,tag,+,#,-,#\r\n0,1,0,3,0,2\r\n0,2,0,2,0,1\r\n1,3,0,1,0,0\r\n2,4,0,1,0,0\r\n3,0,1,1,0,0\r\n2,5,0,0,0,1\r\n5,0,0,0,1,1\r\n1,3,0,1,0,0\r\n7,4,0,1,0,0\r\n8,0,1,1,0,0\r\n7,6,0,0,0,0\r\n10,0,0,0,0,0\r\n0,2,0,0,0,1\r\n12,3,0,0,0,1\r\n13,5,0,0,0,1\r\n14,0,0,0,1,1\r\n0,7,0,1,0,0\r\n16,0,1,1,0,0\r\n",
    )?;
    // a header alone
    show(&rt, b"parent,tag,+,#")?;
    // a text node with a child
    show(&rt, b"parent,tag,+,#\r\n0,1,0,0\r\n0,0,0,0\r\n1,2,0,0\r\n")?;
    // nothing
    show(&rt, b"")?;
    // lines ended by LF
    show(&rt, b"parent,tag,+,#\n0,1,1,1\n")?;
    // a leading zero
    show(&rt, b"parent,tag,+,#\r\n0,01,1,1\r\n")?;
    // six digits
    show(&rt, b"parent,tag,+,#\r\n0,100000,1,1\r\n")?;
    // a quoted field
    show(&rt, b"parent,tag,+,#\r\n0,1,1,1\r\n0,\"2\",0,0\r\n")?;
    // minus before plus
    show(&rt, b"parent,tag,-,#,+,#\r\n0,1,0,0,1,1\r\n")?;
    // a second end at the end
    show(&rt, b"parent,tag,+,#\r\n0,1,1,1\r\n\r\n")?;
    // one byte too many
    show(&rt, &[b'x'; 16385])
}
