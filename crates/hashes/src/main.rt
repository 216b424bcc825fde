// The hash of a word in three cases that are published for 32-bit FNV-1a: of no bytes, of "a" and of "foobar"; and of the last in capitals, which has the same.
#![tactic(auto)]

use std::io;

fn main(rt: HostRuntime) -> io::Result<()> {
    for word in ["", "a", "foobar", "FooBar"] {
        println!(rt; "{}", inplace::hash_of(word.as_bytes()))?;
    }
    Ok(())
}
