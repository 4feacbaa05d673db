//! Where the records of a file end.
ghost use Rattle.std.specs.Prelude.{◌≡◌, ◌↔◌, IsTrue};
ghost use Rattle.journal_resume.specs.Ends as spec;

use journal_records::{RecordFault, first_record};

/// Octets without the zeros at their end.
fn without_zeros(octets: &[u8]) -> &[u8]
    ensures { result.now ≡ spec.without_zeros octets.now }
{
    let mut length = 0;
    for place in 0..octets.len() {
        if octets[place] != 0 {
            length = place + 1;
        }
    }
    octets.split_at(length).0
}

/// Whether nothing follows but a record that was cut, or not even that; zeros may stand behind it up to the end, where a file
/// had grown before power failed, and what was written hadn't come.
pub(crate) fn is_end(octets: &[u8]) -> bool
    ensures { IsTrue result ↔ spec.IsEnd octets.now }
{
    match first_record(without_zeros(octets)) {
        Err(RecordFault::Cut) => true,
        Err(RecordFault::Damaged) | Ok(_) => false,
    }
}
