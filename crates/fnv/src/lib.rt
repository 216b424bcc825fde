// 32-bit FNV-1a (02, Q-5): the hash of a row of bytes, by which words are placed in a table.
#![tactic(auto)]

ghost use Rattle.std.specs.Prelude.{◌≡◌, ◌*◌, ◌%◌, ◌^◌};
ghost use Rattle.fnv.specs.Fnv.{hash_step};
ghost use Rattle.fnv.specs.Fnv as fnv;

// The hash of no bytes.
pub const START: u32 = 2166136261;

// What each byte multiplies by.
const FACTOR: u32 = 16777619;

// x times the factor of FNV, modulo 2 to the 32.
pub fn times_factor(x: u32) -> u32
    ensures { result ≡ x * fnv.FACTOR % 2 ^ 32 }
{
    x.wrapping_mul(FACTOR)
}

// The hash once the byte b is hashed too: h before it.
#[tactic(auto, unfolding(crate::specs::Fnv::hash_step))]
pub fn step(h: u32, b: u8) -> u32
    ensures { result ≡ hash_step h b }
{
    times_factor(h ^ u32::from(b))
}
