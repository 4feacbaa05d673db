use super::equals_at;
use super::failing::Failing;
use lab::LabFault;
use lab::program::perform;

/// What stands on standard input.
const STDIN: &[u8] = b"";

#[test]
fn a_text_that_is_not_written_is_a_fault(rt: HostRuntime) {
    for words in [&["--version"], &["runn"]] {
        let mut out = Failing::after(rt.alloc(), 0);
        let mut errors = Failing::after(rt.alloc(), 0);
        let ended = perform(&rt, words, STDIN, &mut out, &mut errors);
        equals_at(&rt, ended, Err(LabFault::Write), words);
    }
}
