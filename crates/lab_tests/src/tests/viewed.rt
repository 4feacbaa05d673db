//! The files of a run's views where its trace can't be written.
use super::failing::Failing;
use super::{ONE_CALL, SITE, equals_at, holds_at, remove_files, write_files};
use lab::LabFault;
use lab::files::run_files;
use lab::site_files::GivenPaths;
use lab::words::Ending;
use std::fs;
use std::process::Abort;
use std::rt::Files;
use std::test::Fail;
use view_options::{ChartView, Views};

/// The files of a run and of its views, in the folder that the test runs in.
const SITE_FILE: &str = "viewed.toml";

const SCRIPT_FILE: &str = "viewed.txt";

const PCAP_FILE: &str = "viewed.pcap";

const CHART_FILE: &str = "viewed.svg";

/// All views.
const ALL: Views<'_> = Views {
    words: true,
    state: true,
    decisions: true,
    pcap: Some(PCAP_FILE),
    chart: Some(ChartView {
        path: CHART_FILE,
        looks: false,
        pages: false,
    }),
    summary: None,
    lines: false,
    call: None,
};

/// The site alone.
const PATHS: GivenPaths<'_> = GivenPaths {
    first: Some(SITE_FILE),
    peer: None,
};

/// A run of this script ends with a write that fails behind so many others; what they wrote.
fn fails_behind(
    rt: &(impl Files + AllocGlobal + Abort),
    script: &str,
    writes: u64,
) -> Result<String, Fail> {
    write_files(
        rt,
        &[
            (SITE_FILE, SITE),
            (SCRIPT_FILE, script),
            (PCAP_FILE, "old"),
            (CHART_FILE, "old"),
        ],
    )?;
    let mut out = Failing::after(rt.alloc(), writes);
    let mut errors = Vec::new(rt.alloc());
    let ended = run_files(
        rt,
        PATHS,
        SCRIPT_FILE,
        &ALL,
        Ending::Plain,
        &mut out,
        &mut errors,
    );
    equals_at(rt, ended, Err(LabFault::Write), script);
    Ok(String::from_utf8(out.text)?)
}

/// The first message of a run, as its trace has it.
const FIRST_MESSAGE: &str = "out abis 0 0 0821010b0300060400010801";

/// A run of this script ends with the first write that fails behind that message.
fn fails_behind_one_message(
    rt: &(impl Files + AllocGlobal + Abort),
    script: &str,
) -> Result<(), Fail> {
    for writes in 0..1_000 {
        if fails_behind(rt, script, writes)?.contains(FIRST_MESSAGE) {
            return Ok(());
        }
    }
    Err(Fail::from("a message"))
}

/// The files have what came up to the first message: the capture a header and one packet of 12 octets, the chart one arrow.
fn have_one_message(rt: &(impl Files + AllocGlobal + Abort)) -> Result<(), Fail> {
    equals_at(rt, fs::read(rt, PCAP_FILE)?.len(), 24 + 59 + 12, PCAP_FILE);
    let chart = fs::read_to_string(rt, CHART_FILE)?;
    let arrows = chart.matches("marker-end").count();
    equals_at(rt, arrows, 1, chart.as_str());
    holds_at(rt, chart.ends_with("</svg>\n"), chart.as_str());
    Ok(())
}

/// The files are as they were.
fn are_old(rt: &(impl Files + AllocGlobal + Abort)) -> Result<(), Fail> {
    for path in [PCAP_FILE, CHART_FILE] {
        let text = fs::read_to_string(rt, path)?;
        equals_at(rt, text.as_str(), "old", path);
    }
    Ok(())
}

#[test]
fn a_run_that_ends_early_is_viewed(rt: HostRuntime) -> Result<(), Fail> {
    fails_behind_one_message(&rt, ONE_CALL.0)?;
    have_one_message(&rt)?;
    // a refusal that can't be printed changes no file, either
    fails_behind(&rt, "open 1\n", 0)?;
    are_old(&rt)?;
    remove_files(&rt, &[SITE_FILE, SCRIPT_FILE, PCAP_FILE, CHART_FILE])
}
