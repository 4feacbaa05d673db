//! The cases of `bsc_bench`, each repeated as often as the command line asks. What is read gets another octet in each
//! iteration, what is written is one of two messages alternately, and the results are added up: none can be left out.
#![tactic(auto)]

mod abis;
mod bssmap;
mod call;
pub mod case;
mod chosen;
mod controlled;
mod external;
pub mod fault;
mod handover;
mod history;
mod life;
mod measured;
mod radio;
mod repeated;
mod reports;
mod site;
pub mod storm;
mod varying;
pub mod words;

use crate::abis::Activations;
use crate::bssmap::{Subject, encode_messages};
use crate::case::{Case, Task};
use crate::fault::Fault;
use crate::measured::Measurements;
use crate::radio::Commands;
use crate::repeated::read_each;
use crate::varying::Varying;
use channel_fsm::Rate;
use std::alloc::Global;

/// What so many iterations of a case add up to, modulo 2^64. Refused are octets that the case has no use for (`Words`), a
/// setting that can't be made (`Setting`), and memory (`NoMemory`).
pub fn sum_of(alloc: Global, case: Case, count: u64, octets: &[u8]) -> Result<u64, Fault> {
    let mut varying = Varying::new(alloc, octets, case.place)?;
    match case.task {
        Task::DecodeActivation => read_each(&Activations, alloc, &mut varying, count),
        Task::EncodeActivation => abis::encode_activations(alloc, &mut varying, count),
        Task::CallByOctets => call::call_by_octets(alloc, &mut varying, count),
        Task::HandoverByOctets => handover::handover_by_octets(alloc, &mut varying, count),
        Task::ExternalByOctets => external::external_by_octets(alloc, &mut varying, count),
        Task::LiveByStep => life::live_by_steps(alloc, &mut varying, count),
        Task::ChooseFull => chosen::choose_by_steps(alloc, Rate::Full, &mut varying, count),
        Task::ChooseHalf => chosen::choose_by_steps(alloc, Rate::Half, &mut varying, count),
        Task::RewindList => life::rewind_lists(alloc, &mut varying, count),
        Task::RunHistory => history::run_histories(alloc, &mut varying, count),
        Task::AuditHistory => history::audit_histories(alloc, &mut varying, count),
        Task::DecodeMeasurement => read_each(&Measurements, alloc, &mut varying, count),
        Task::EncodeMeasurement => measured::encode_measurements(alloc, &mut varying, count),
        Task::DecodeCommand => read_each(&Commands, alloc, &mut varying, count),
        Task::EncodeCommand => radio::encode_commands(alloc, &mut varying, count),
        Task::DecodeRequest => read_each(&Subject::Request, alloc, &mut varying, count),
        Task::EncodeRequest => encode_messages(alloc, Subject::Request, &mut varying, count),
        Task::DecodeRequired => read_each(&Subject::Required, alloc, &mut varying, count),
        Task::EncodeRequired => encode_messages(alloc, Subject::Required, &mut varying, count),
        Task::ReadSite => site::read_sites(alloc, &mut varying, count),
        Task::AddReport => reports::add_reports(alloc, &mut varying, count),
        Task::ListCandidates => reports::list_candidates(alloc, &mut varying, count),
    }
}
