//! Each case once, and words that name none.
use bench_cases::case::{CASES, Case, find};
use bench_cases::fault::Fault;
use bench_cases::storm::{Crew, storm_sum};
use bench_cases::sum_of;
use bench_cases::words::{Job, read_words};
use std::fmt::Debug;
use std::process::Abort;

// Each test asserts by these: an assertion in a function of its own is proved once, and a call of it costs little.

/// What was found is what was wanted.
fn equals<T: Copy + Debug + PartialEq>(rt: &impl Abort, found: T, wanted: T) {
    assert_eq!(rt; found, wanted);
}

/// What was found at this place is what was wanted.
fn equals_at<T: Copy + Debug + PartialEq, W: Copy + Debug>(
    rt: &impl Abort,
    found: T,
    wanted: T,
    at: W,
) {
    assert_eq!(rt; found, wanted, "{at:?}");
}

/// The sum of two iterations of each case on its own octets, worked out from the definitions of the sums:
///
/// - CHANNEL ACTIVATION read: timeslot 3, type 2, mode 0 + 1 + 8 + 1, reference 42 and then 43: 57 + 58. Written: the 14
///   octets, 129 and then 130.
/// - A whole call: the octets that are sent, 76 of `08 21 01 0B 03 00 06 04 00 01 08 01` and 66 of `08 2E 01 0B`: 142
///   in each iteration.
/// - A whole handover: the octets that are sent, 85 of `08 21 01 09 03 02 06 04 00 01 08 01 09 00`, 102 of `03 01 01 09 02
///   00 0B 00 09 06 2B 00 03 09 00 05 00 00` (carriers 3 and 5 of cell 1), 64 of `08 2E 01 09` and 64 of `00 0B 17 04 01
///   0C 05 05 01 00 01 00 01` (cell 1): 315; then 85 + 108 (carriers 6 and 8 of cell 2) + 64 + 65 (cell 2): 322.
/// - A whole handover to another controller: 107 of `00 0C 11 04 01 0C 1B 1A 05 01 00 02 00 00` (cell 0 of area 2), 85 of the
///   same CHANNEL ACTIVATION, 130 of `00 0C 12 17 09 06 2B 08 00 09 00 02 00 00` (its colour codes 1 and 0, carriers 0 and
///   2), 104 of `03 01 01 09 02 00 0B 00 09 06 2B 08 00 09 00 02 00 00`, 28 of `00 01 1B`, 44 of `00 03 14 15 00`, 64 of
///   `08 2E 01 09` and 34 of `00 01 21`: 596; then back to area 1 (106) and colour codes 0 and 0 (122 and 96): 579.
/// - A life: twelve events that are accepted.
/// - An attempt in a cell that is picked: Take, Reserve and Undo are accepted, since each cell has free channels of both
///   rates, no other attempt has a reference, and cell 0, in which the call is served, is never picked: 3 + 3.
/// - Of the hundred events of a list seven are the attempt's own (Take, Reserve,
///   Activate, Confirm, Command, Undo, Released), 93 stay. Of the twenty events of each of five hundred attempts in a history
///   the last is refused: 9,500 are accepted; 500 attempts are undone and settled.
/// - MEASUREMENT RESULT read: timeslot 3, number 0 and then 1, uplink 0 + 30 + 0, power 0; levels 30 + 30, qualities
///   0 + 0, one neighbour, 40 + 2 + 21: 157 + 158. Written: the report's 18 octets, 369, and the message's 34 octets,
///   547 and then 548: 916 + 917.
/// - HANDOVER COMMAND read: 871 + 2 + 5, 3 + 5 + 875, reference 42 and then 43, level 5: 1,808 + 1,809. Written: the 9
///   octets, 693 and then 694.
/// - HANDOVER REQUEST read: channel type 1 + 8 + 1, encryption 1, classmark 51, cells 23 + 102 and 23 + 101, and then
///   23 + 102: 311 + 312. Written: the 27 octets, 428 and then 429.
/// - HANDOVER REQUIRED read: cause 12, response 1, cell 23 + 102 and then 23 + 103: 138 + 139. Written: the 14 octets,
///   230 and then 231.
/// - A site read: 64 cells, and the carriers 0 to 3 of cell 0 and then 4 to 7 of cell 1: 70 + 86.
/// - A report added: lengths 1 + 2, and the serving cell's 30 + 31.
/// - Candidates: the serving cell has 30 + 31 + .. + 61, 1,456; the first four neighbours have 32 times 63, 50, 50 and 48,
///   2,016 + 1,600 + 1,600 + 1,536: 6,752; they are the cells 1 to 4 and then 2 to 5: 6,752 + 10 + 6,752 + 14.
const SUMS: [(&str, u64); 22] = [
    ("chan_act.dec", 115),
    ("chan_act.enc", 259),
    ("call.octets", 284),
    ("handover.octets", 637),
    ("ho_external.octets", 1175),
    ("step.life", 24),
    ("any", 6),
    ("any.halves", 6),
    ("rewind.100", 186),
    ("run.10000", 19_000),
    ("audit.10000", 1_000),
    ("meas_res.dec", 315),
    ("meas_res.enc", 1833),
    ("ho_command.dec", 3617),
    ("ho_command.enc", 1387),
    ("ho_request.dec", 623),
    ("ho_request.enc", 857),
    ("ho_required.dec", 277),
    ("ho_required.enc", 461),
    ("site.read", 156),
    ("window.add", 64),
    ("candidates.64", 13_528),
];

/// The case of this name.
fn case(rt: &impl Abort, name: &str) -> Case {
    find(&CASES, name).expect(rt, "a case has this name")
}

fn have_sums<R: Abort + AllocGlobal>(rt: &R, sums: &[(&str, u64)]) {
    for (name, want) in sums {
        let case = case(rt, name);
        equals_at(
            rt,
            sum_of(rt.alloc(), case, 2, case.octets),
            Ok(*want),
            name,
        );
        equals_at(rt, sum_of(rt.alloc(), case, 0, case.octets), Ok(0), name);
    }
}

#[test]
fn each_case_has_its_sum(rt: HostRuntime) {
    equals(&rt, CASES.len(), SUMS.len());
    have_sums(&rt, &SUMS);
}

#[test]
fn other_octets_of_the_message(rt: HostRuntime) {
    // reference 255 wraps to 0: 3 + 2 + 10 + 255, then 3 + 2 + 10
    let octets = [8, 0x21, 1, 0x0B, 3, 2, 6, 4, 0, 1, 8, 1, 9, 255];
    let activation = case(&rt, "chan_act.dec");
    equals(&rt, sum_of(rt.alloc(), activation, 2, &octets), Ok(285));
}

/// The cases that read their octets as one message, whether to read it again, to write it or to keep it.
const READERS: [&str; 12] = [
    "chan_act.dec",
    "chan_act.enc",
    "meas_res.dec",
    "meas_res.enc",
    "ho_command.dec",
    "ho_command.enc",
    "ho_request.dec",
    "ho_request.enc",
    "ho_required.dec",
    "ho_required.enc",
    "window.add",
    "candidates.64",
];

/// The cases in which a controller hears a CHANNEL ACTIVATION ACKNOWLEDGE.
const CONTROLLED: [&str; 3] = ["call.octets", "handover.octets", "ho_external.octets"];

const REQUEST: [&str; 2] = ["ho_request.dec", "ho_request.enc"];

const REQUIRED: [&str; 2] = ["ho_required.dec", "ho_required.enc"];

/// Each of these cases refuses these octets.
fn refuse<R: Abort + AllocGlobal>(rt: &R, names: &[&str], octets: &[u8]) {
    for name in names {
        let sum = sum_of(rt.alloc(), case(rt, name), 1, octets);
        equals_at(rt, sum, Err(Fault::Words), name);
    }
}

#[test]
fn octets_of_no_such_message(rt: HostRuntime) {
    refuse(&rt, &READERS, &[8, 0x2E, 1, 0x0B]);
    refuse(&rt, &READERS, &[6, 0x2C, 0]);
    refuse(&rt, &READERS, &[]);
    refuse(&rt, &CONTROLLED, &[]);
    refuse(&rt, &REQUEST, case(&rt, "ho_required.dec").octets);
    refuse(&rt, &REQUIRED, case(&rt, "ho_request.dec").octets);
}

/// Words that ask for nothing.
const WRONG: [&[&str]; 7] = [
    &[],
    &["all"],
    &["chan_act.dec"],
    &["all", "-1"],
    &["all", "2", "00"],
    &["chan_act.dec", "1", "0"],
    &["chan_act.dec", "1", "00", "00"],
];

fn ask_for_nothing<R: Abort + AllocGlobal>(rt: &R, table: &[&[&str]]) {
    for words in table {
        let fault = read_words(rt.alloc(), words).err();
        equals_at(rt, fault, Some(Fault::Words), words);
    }
}

#[test]
fn words_that_ask_for_nothing(rt: HostRuntime) {
    ask_for_nothing(&rt, &WRONG);
}

/// The name of the case that these words ask for, or `all`, and the count; the case is asked for on these octets.
fn asked<R: Abort + AllocGlobal>(
    rt: &R,
    words: &[&str],
    want: &[u8],
) -> Result<(&'static str, u64), Fault> {
    Ok(match read_words(rt.alloc(), words)? {
        Job::One {
            case,
            count,
            octets,
        } => {
            equals(rt, octets.as_slice(), want);
            (case.name, count)
        }
        Job::Storms { crew: _, count } => ("storms", count),
        Job::All { count } => ("all", count),
    })
}

#[test]
fn words_that_ask_for_cases(rt: HostRuntime) {
    equals(&rt, asked(&rt, &["all", "7"], &[]), Ok(("all", 7)));
    equals(&rt, asked(&rt, &["storm.4", "2"], &[]), Ok(("storms", 2)));
    equals(
        &rt,
        asked(&rt, &["ho_command.enc", "3", "062B"], &[6, 0x2B]),
        Ok(("ho_command.enc", 3)),
    );
    equals(
        &rt,
        asked(
            &rt,
            &["ho_command.dec", "4"],
            case(&rt, "ho_command.dec").octets,
        ),
        Ok(("ho_command.dec", 4)),
    );
}

#[test]
fn storms_have_their_sum(rt: HostRuntime) {
    // 64 calls and as many attempts, half of them completed and half undone, and no channel in use: 192
    equals(&rt, storm_sum(&rt, rt.alloc(), Crew::Two, 2), Ok(384));
}
