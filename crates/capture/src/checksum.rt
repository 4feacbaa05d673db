//! The internet checksum (RFC 1071).
ghost use Rattle.std.specs.Prelude.{◌≡◌, ◌++◌, ◌%◌, length};
ghost use Rattle.capture.specs.Checksum.{checksum, ones_add, ones_sum, words};

/// The sum of two numbers in ones' complement.
#[tactic(auto, unfolding(crate::specs::Checksum::ones_add))]
fn ones_add(a: u16, b: u16) -> u16
    ensures { result ≡ ones_add a b }
{
    let sum = u32::from(a) + u32::from(b);
    if sum < 65536 {
        sum as u16
    } else {
        (sum - 65535) as u16
    }
}

/// The sum, in ones' complement, of what was summed before and of the numbers of 16 bits that octets are.
fn ones_sum(mut sum: u16, mut octets: &[u8]) -> u16
    ensures { result ≡ ones_sum sum (words octets.now) }
{
    while let [high, low, rest @ ..] = octets {
        sum = ones_add(sum, u16::from(*high) * 256 + u16::from(*low));
        octets = rest;
    }
    match octets {
        [high, ..] => ones_add(sum, u16::from(*high) * 256),
        [] => sum,
    }
}

/// The checksum over two lists of octets, one behind the other. The first has an even number of them.
pub fn checksum(head: &[u8], octets: &[u8]) -> u16
    requires even { length head.now % 2 ≡ 0 }
    ensures sum { result ≡ checksum (head.now ++ octets.now) }
{
    65535 - ones_sum(ones_sum(0, head), octets)
}
