// The CRC of each four bits, moved up by one bit.
ghost use Rattle.std.specs.Prelude.{◌≡◌};
ghost use Rattle.crc.specs.CrcFours.{crc_list};

const CRCS: [u16; 16] = [
    0x0000, // 0000
    0x8B32, // 0001
    0x9D56, // 0010
    0x1664, // 0011
    0xB19E, // 0100
    0x3AAC, // 0101
    0x2CC8, // 0110
    0xA7FA, // 0111
    0xE80E, // 1000
    0x633C, // 1001
    0x7558, // 1010
    0xFE6A, // 1011
    0x5990, // 1100
    0xD2A2, // 1101
    0xC4C6, // 1110
    0x4FF4, // 1111
];

pub(crate) fn list() -> &'static [u16; 16]
    ensures { result.now ≡ crc_list }
{
    &CRCS
}
