// The CRC of a frame, four bits at a time: the division is linear, so that what four bits leave can be looked up.
#![tactic(auto)]

ghost use Rattle.std.specs.Prelude.{◌≡◌, List, ◌++◌, ℕ, ◌*◌, ◌%◌, ◌^◌, ◌≤◌, ◌<◌};
ghost use Rattle.bits.specs.Rows.{bits};
ghost use Rattle.crc.specs.Crc.{crc};
ghost use Rattle.crc.specs.CrcFours.{crc_behind};
ghost use Rattle.crc.specs.Dlc.{data_bytes};

mod crc_list;

// The CRC of a header and the data field that its DLC announces, each the lowest bits of a number. The header has 39 bits; bits 0 before
// a shorter one change nothing.
pub fn of_frame(header: u64, field: u64) -> u64
    ensures { result ≡ crc (bits 39 header ++ bits (8 * data_bytes (header % 16)) field) }
{
    let register = of_header(header % 0x8000000000);
    let n = data_bytes(header % 16);
    (bring_down(register, field, 2 * n) / 2) as u64
}

// How many data bytes a DLC stands for. Not by `min`: the environment `library` of demands/proofs/Linked has no code of std.
#[tactic(auto, unfolding(crate::specs::Dlc::data_bytes))]
fn data_bytes(dlc: u64) -> usize
    ensures { (result ≡ data_bytes dlc) × (result ≤ 8) }
{
    if 8 < dlc { 8 } else { dlc as usize }
}

// The register behind a header: with bits 0 before it, the base form has 20 bits and the long form 40. Each call passes a literal, so that
// its loop is unrolled; a const parameter would need a second function for the data, whose count is no constant.
fn of_header(header: u64) -> u16
    requires { header < 2 ^ 39 }
    ensures { result ≡ crc (bits 39 header) * 2 }
{
    if header < 0x100000 {
        return bring_down(0, header, 5);
    }
    bring_down(0, header, 10)
}

// The CRC of a row from that of its front, and the `count` times four bits behind it. Both are moved up by one bit, to the register's
// top: what is divided there falls off.
fn bring_down(mut register: u16, number: u64, count: usize) -> u16
    requires { count ≤ 16 }
    ensures { (l : List ℕ) → register ≡ crc l * 2 → result ≡ crc (l ++ bits (4 * count) number) * 2 }
{
    for left in (0..count).rev() {
        register = divide(register, number >> (4 * left));
    }
    register
}

// The lowest four bits of a number are brought down: the register's highest four go out, and what they and the new ones leave comes in.
#[tactic(auto, using(crate::proofs::Division::xor_four))]
fn divide(register: u16, number: u64) -> u16
    ensures { (x : ℕ) → register ≡ x * 2 → result ≡ crc_behind x (number % 16) * 2 }
{
    let out = (register >> 12) ^ ((number % 16) as u16);
    crc_list::list()[out as usize] ^ (register << 4)
}
