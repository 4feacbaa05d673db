//! Numbers as octets.
ghost use Rattle.std.specs.Prelude.{◌≡◌};
ghost use Rattle.capture.specs.Numbers.{two, four};

/// A number as two octets, the high one first.
pub fn two(number: u16) -> [u8; 2]
    ensures { result ≡ two number }
{
    [(number / 256) as u8, (number % 256) as u8]
}

/// A number as four octets, the highest first.
pub fn four(number: u32) -> [u8; 4]
    ensures { result ≡ four number }
{
    [
        (number / 16_777_216) as u8,
        (number / 65_536 % 256) as u8,
        (number / 256 % 256) as u8,
        (number % 256) as u8,
    ]
}
