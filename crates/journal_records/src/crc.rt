//! The checksum of a record: the cyclic redundancy check of IEEE 802.3.
ghost use Rattle.std.specs.Prelude.{◌≡◌};
ghost use Rattle.journal_records.specs.Checksum as spec;

const ALL_ONES: u32 = 0xFFFF_FFFF;

/// What four bits leave behind in the register when they leave it: the generator polynomial, added where a one leaves.
const LEFT_BEHIND: [u32; 16] = [
    0x0000_0000,
    0x1DB7_1064,
    0x3B6E_20C8,
    0x26D9_30AC,
    0x76DC_4190,
    0x6B6B_51F4,
    0x4DB2_6158,
    0x5005_713C,
    0xEDB8_8320,
    0xF00F_9344,
    0xD6D6_A3E8,
    0xCB61_B38C,
    0x9B64_C2B0,
    0x86D3_D2D4,
    0xA00A_E278,
    0xBDBD_F21C,
];

/// The lowest four bits leave the register.
fn four_shifted(register: u32) -> u32
    ensures { result ≡ spec.shifts 4 register }
{
    (register / 16) ^ LEFT_BEHIND[(register % 16) as usize]
}

/// An octet is added, and its eight bits leave.
fn after_octet(register: u32, octet: u8) -> u32
    ensures { result ≡ spec.after_octet register octet }
{
    four_shifted(four_shifted(register ^ u32::from(octet)))
}

/// The CRC-32 of these octets (IEEE 802.3 clause 3.2.9).
pub fn checksum(octets: &[u8]) -> u32
    ensures { result ≡ spec.checksum octets.now }
{
    let mut register = ALL_ONES;
    for octet in octets {
        register = after_octet(register, *octet);
    }
    register ^ ALL_ONES
}
