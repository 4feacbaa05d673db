//! Records as texts: written, read, changed and cut.
use journal_records::{
    FIRST_LINE, FileFault, RecordFault, append_record, behind_first_line, checksum, first_record,
};
use std::alloc::Global;
use std::process::Abort;
use std::test::Fail;

/// The text whose check every account of CRC-32 gives.
#[test]
fn the_check_of_nine_digits(rt: HostRuntime) {
    assert_eq!(rt; checksum(b"123456789"), 0xCBF4_3926);
    assert_eq!(rt; checksum(b""), 0);
}

const BODY: &str = "in clear 1\nevent look 1 -> refused 1\n";

/// The record of a line, as a person wrote it down.
const TEXT: &str = "record 00000000000000000017 00000000000000000037";

fn record(alloc: Global) -> Result<Vec<u8>, Fail> {
    let mut text = Vec::new(alloc);
    append_record(&mut text, 17, BODY.as_bytes())?;
    Ok(text)
}

#[test]
fn a_record_is_written_and_read(rt: HostRuntime) -> Result<(), Fail> {
    let text = record(rt.alloc())?;
    assert!(rt; text.as_slice().starts_with(TEXT.as_bytes()));
    match first_record(&text) {
        Ok(read) => {
            assert_eq!(rt; read.number, 17);
            assert_eq!(rt; read.body, BODY.as_bytes());
            assert!(rt; read.behind.is_empty());
        }
        Err(fault) => panic!(rt; "{fault}"),
    }
    Ok(())
}

fn is_refused(rt: &impl Abort, octets: &[u8], wanted: RecordFault) {
    match first_record(octets) {
        Ok(_) => panic!(rt; "it was read"),
        Err(fault) => assert_eq!(rt; fault, wanted),
    }
}

/// Each octet of a record is changed in turn.
#[test]
fn a_changed_octet_is_damage(rt: HostRuntime) -> Result<(), Fail> {
    let mut text = record(rt.alloc())?;
    for place in 0..text.len() {
        let octet = text[place];
        text[place] = octet ^ 1;
        is_refused(&rt, &text, RecordFault::Damaged);
        text[place] = octet;
    }
    Ok(())
}

#[test]
fn a_beginning_is_cut(rt: HostRuntime) -> Result<(), Fail> {
    let text = record(rt.alloc())?;
    for length in 0..text.len() {
        is_refused(&rt, &text[..length], RecordFault::Cut);
    }
    Ok(())
}

#[test]
fn files_are_known(rt: HostRuntime) {
    assert_eq!(rt; behind_first_line(FIRST_LINE), Ok(b"".as_slice()));
    assert_eq!(rt;
        behind_first_line(b"gofnild journal 2\n"),
        Err(FileFault::UnknownVersion)
    );
    assert_eq!(rt;
        behind_first_line(b"in clear 1\n"),
        Err(FileFault::NotAJournal)
    );
}
