//! What holds of all checksums, and of the addresses of all links.
ghost use Rattle.capture.specs.Checksum.{ChecksSucceed};
ghost use Rattle.capture.specs.Ends.{FarIsUnique};

/// Who checks octets that have their checksum finds it right.
pub fn checks_succeed()
    ensures succeed { ChecksSucceed }
{}

/// Addresses tell a link: no two have the same other end, so each has a TCP stream of its own.
pub fn far_is_unique()
    ensures unique { FarIsUnique }
{}
