//! The cases that are repeated.
ghost use Rattle.std.specs.Prelude.{◌≡◌, ◌≢◌, All, Contains, IfSome, IfNone};

use std::fmt;

/// What is done in an iteration.
#[derive(Clone, Copy, Debug, PartialEq, Eq)]
pub enum Task {
    /// Reads a CHANNEL ACTIVATION (TS 48.058 clause 8.4.1).
    DecodeActivation,
    /// Writes a CHANNEL ACTIVATION.
    EncodeActivation,
    /// A whole call by the procedure: its opening, the CHANNEL ACTIVATION ACKNOWLEDGE (TS 48.058 clause 8.4.2), its
    /// clearing and the RF CHANNEL RELEASE ACKNOWLEDGE.
    CallByOctets,
    /// A whole handover by the procedure, beside 1,024 other calls on 64 cells: its begin, the CHANNEL ACTIVATION
    /// ACKNOWLEDGE, the HANDOVER DETECTION (TS 48.058 clause 8.4.7), the HANDOVER COMPLETE (TS 44.018 clause 9.1.16) and
    /// the RF CHANNEL RELEASE ACKNOWLEDGE of the old channel.
    HandoverByOctets,
    /// A whole handover from one controller to another, each beside 1,024 other calls on 64 cells: the procedure's part in
    /// both, with what the stations and the switching centre send.
    ExternalByOctets,
    /// A call's life, from its opening to the release of its channel, with a handover to another cell: twelve events of
    /// the radio book, beside 1,024 other calls on 64 cells.
    LiveByStep,
    /// An attempt at handover to a cell that a seed picks: the book chooses a free channel of full rate and a free
    /// reference, and the attempt is undone. Three events of the radio book, beside 1,024 other calls on 64 cells.
    ChooseFull,
    /// An attempt at handover at half rate, on a site whose odd timeslots also carry halves; else as `ChooseFull`.
    ChooseHalf,
    /// Takes an undone attempt at handover out of a list of a hundred events.
    RewindList,
    /// Runs ten thousand events with five hundred undone attempts.
    RunHistory,
    /// Audits a history of ten thousand events with five hundred undone attempts.
    AuditHistory,
    /// Reads a MEASUREMENT RESULT (TS 48.058 clause 8.4.8) and the MEASUREMENT REPORT in it (TS 44.018 clause 9.1.21).
    DecodeMeasurement,
    /// Writes a MEASUREMENT REPORT and a MEASUREMENT RESULT.
    EncodeMeasurement,
    /// Reads a HANDOVER COMMAND (TS 44.018 clause 9.1.15).
    DecodeCommand,
    /// Writes a HANDOVER COMMAND.
    EncodeCommand,
    /// Reads a HANDOVER REQUEST (TS 48.008 clause 3.2.1.8).
    DecodeRequest,
    /// Writes a HANDOVER REQUEST.
    EncodeRequest,
    /// Reads a HANDOVER REQUIRED (TS 48.008 clause 3.2.1.9).
    DecodeRequired,
    /// Writes a HANDOVER REQUIRED.
    EncodeRequired,
    /// Reads a site file of 64 cells with four TRX each.
    ReadSite,
    /// Adds a report to a window of 32.
    AddReport,
    /// Lists the candidates for a handover on a site of 64 cells, by a window of 32 reports.
    ListCandidates,
}

/// A case: what is repeated, and on which octets.
#[derive(Clone, Copy, Debug)]
pub struct Case {
    /// The name by which the command line calls it.
    pub name: &'static str,
    /// What is done in an iteration.
    pub task: Task,
    /// The octets that it is done on where the command line gives none.
    pub octets: &'static [u8],
    /// The place of the octet that changes with the iteration, counted from 0.
    pub place: usize,
}

/// Every case, in the order in which they are printed: name, task, octets, place.
pub const CASES: [Case; 22] = [
    Case {
        name: "chan_act.dec",
        task: Task::DecodeActivation,
        octets: ACTIVATION,
        place: 13,
    },
    Case {
        name: "chan_act.enc",
        task: Task::EncodeActivation,
        octets: ACTIVATION,
        place: 13,
    },
    Case {
        name: "call.octets",
        task: Task::CallByOctets,
        octets: ACKNOWLEDGEMENT,
        place: 6,
    },
    Case {
        name: "handover.octets",
        task: Task::HandoverByOctets,
        octets: ACKNOWLEDGEMENT_1,
        place: 6,
    },
    Case {
        name: "ho_external.octets",
        task: Task::ExternalByOctets,
        octets: ACKNOWLEDGEMENT_1,
        place: 6,
    },
    Case {
        name: "step.life",
        task: Task::LiveByStep,
        octets: &[0],
        place: 0,
    },
    Case {
        name: "any",
        task: Task::ChooseFull,
        octets: &[0],
        place: 0,
    },
    Case {
        name: "any.halves",
        task: Task::ChooseHalf,
        octets: &[0],
        place: 0,
    },
    Case {
        name: "rewind.100",
        task: Task::RewindList,
        octets: &[0],
        place: 0,
    },
    Case {
        name: "run.10000",
        task: Task::RunHistory,
        octets: &[0],
        place: 0,
    },
    Case {
        name: "audit.10000",
        task: Task::AuditHistory,
        octets: &[0],
        place: 0,
    },
    Case {
        name: "meas_res.dec",
        task: Task::DecodeMeasurement,
        octets: MEASUREMENT,
        place: 5,
    },
    Case {
        name: "meas_res.enc",
        task: Task::EncodeMeasurement,
        octets: MEASUREMENT,
        place: 5,
    },
    Case {
        name: "ho_command.dec",
        task: Task::DecodeCommand,
        octets: COMMAND,
        place: 7,
    },
    Case {
        name: "ho_command.enc",
        task: Task::EncodeCommand,
        octets: COMMAND,
        place: 7,
    },
    Case {
        name: "ho_request.dec",
        task: Task::DecodeRequest,
        octets: REQUEST,
        place: 26,
    },
    Case {
        name: "ho_request.enc",
        task: Task::EncodeRequest,
        octets: REQUEST,
        place: 26,
    },
    Case {
        name: "ho_required.dec",
        task: Task::DecodeRequired,
        octets: REQUIRED,
        place: 13,
    },
    Case {
        name: "ho_required.enc",
        task: Task::EncodeRequired,
        octets: REQUIRED,
        place: 13,
    },
    Case {
        name: "site.read",
        task: Task::ReadSite,
        octets: &[0],
        place: 0,
    },
    Case {
        name: "window.add",
        task: Task::AddReport,
        octets: REPORT,
        place: 2,
    },
    Case {
        name: "candidates.64",
        task: Task::ListCandidates,
        octets: SIX_NEIGHBOURS,
        place: 2,
    },
];

/// The first of these cases that has this name.
pub fn find(cases: &[Case], name: &str) -> Option<Case>
    ensures found { IfSome result (λ case. Contains cases.now case × (case.name.now ≡ name.now)) }
    ensures none { IfNone result (All (λ case. case.name.now ≢ name.now) cases.now) }
{
    for case in cases {
        if case.name == name {
            return Some(*case);
        }
    }
    None
}

impl fmt::Display for Case {
    fn fmt<W: fmt::Write>(&self, f: &mut fmt::Formatter<W>) -> fmt::Result {
        f.write_str(self.name)
    }
}

/// CHANNEL ACTIVATION of timeslot 3 for a handover, with reference 42.
const ACTIVATION: &[u8] = &[
    0x08, 0x21, 0x01, 0x0B, 0x03, 0x02, 0x06, 0x04, 0x00, 0x01, 0x08, 0x01, 0x09, 0x2A,
];

/// CHANNEL ACTIVATION ACKNOWLEDGE of timeslot 3 with frame number 4660.
const ACKNOWLEDGEMENT: &[u8] = &[0x08, 0x22, 0x01, 0x0B, 0x08, 0x12, 0x34];

/// CHANNEL ACTIVATION ACKNOWLEDGE of timeslot 1 with frame number 4660.
const ACKNOWLEDGEMENT_1: &[u8] = &[0x08, 0x22, 0x01, 0x09, 0x08, 0x12, 0x34];

/// MEASUREMENT RESULT of timeslot 3 with number 0 and three octets of uplink measurements; its report has one
/// neighbour of level 40 at position 2 with code 21, and serving levels of 30.
const MEASUREMENT: &[u8] = &[
    0x08, 0x28, 0x01, 0x0B, 0x1B, 0x00, 0x19, 0x03, 0x00, 0x1E, 0x00, 0x04, 0x00, 0x0B, 0x00, 0x12,
    0x06, 0x15, 0x1E, 0x1E, 0x00, 0x68, 0x12, 0xA0, 0, 0, 0, 0, 0, 0, 0, 0, 0, 0,
];

/// HANDOVER COMMAND to the cell of carrier 871 with colour codes 2 and 5: timeslot 3, training sequence 5 and carrier
/// 875, reference 42, power level 5.
const COMMAND: &[u8] = &[0x06, 0x2B, 0xD5, 0x67, 0x0B, 0xA3, 0x6B, 0x2A, 0x05];

/// HANDOVER REQUEST from the cell of area 23 and identity 102 to that of 23 and 101: speech, a full rate channel, no
/// encryption, classmark 1.
const REQUEST: &[u8] = &[
    0x00, 0x19, 0x10, 0x0B, 0x03, 0x01, 0x08, 0x01, 0x0A, 0x01, 0x01, 0x1D, 0x33, 0x05, 0x05, 0x01,
    0x00, 0x17, 0x00, 0x66, 0x05, 0x05, 0x01, 0x00, 0x17, 0x00, 0x65,
];

/// HANDOVER REQUIRED for a better cell, that of area 23 and identity 102, with a response requested.
const REQUIRED: &[u8] = &[
    0x00, 0x0C, 0x11, 0x04, 0x01, 0x0C, 0x1B, 0x1A, 0x05, 0x01, 0x00, 0x17, 0x00, 0x66,
];

/// MEASUREMENT REPORT with one neighbour of level 40 at position 2 with code 21, and serving levels of 30.
const REPORT: &[u8] = &[
    0x06, 0x15, 0x1E, 0x1E, 0x00, 0x68, 0x12, 0xA0, 0, 0, 0, 0, 0, 0, 0, 0, 0, 0,
];

/// MEASUREMENT REPORT with serving levels of 30, and neighbours of levels 63, 50, 50, 48, 40 and 20 at positions 0 to 5 with
/// code 0.
const SIX_NEIGHBOURS: &[u8] = &[
    0x06, 0x15, 0x1E, 0x1E, 0x01, 0xBF, 0x00, 0x19, 0x04, 0x0C, 0x84, 0x06, 0x03, 0x02, 0x82, 0x00,
    0xA1, 0x40,
];
