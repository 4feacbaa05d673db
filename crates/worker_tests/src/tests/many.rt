//! A worker answers each of very many inputs: that it has ended is never said of one that takes them.
use super::offices::{Course, Hall, Left, are_ok, at_an_office, give_all};
use crate::bag::Taken;
use sample_sites::THREE_CHANNELS;
use std::alloc::Global;
use std::process::Abort;
use std::sync::Wait;
use std::test::Fail;
use std::thread::Threads;

/// How many inputs a worker is given.
const INPUTS: usize = 100_000;

/// A timer that doesn't run.
const INPUT: &str = "expire 1 T8";

/// So many inputs of one worker.
#[derive(Drop)]
struct Many;

impl Course for Many {
    fn give<R: Threads + Wait + Abort + AllocGlobal + Drop>(
        &self,
        rt: &R,
        hall: &mut Hall<R, Global>,
        _taken: &Taken,
    ) {
        for _ in 0..INPUTS {
            give_all(rt, hall, INPUT);
        }
    }

    fn see<R: Wait + Abort + AllocGlobal + Drop>(
        &self,
        rt: &R,
        left: &Left<R, Global>,
    ) -> Result<(), Fail> {
        let worker = left.workers.first().ok_or("no worker")?;
        assert!(rt; worker.taken.len() == INPUTS);
        are_ok(rt, &worker.taken);
        Ok(())
    }
}

#[test]
fn a_worker_takes_a_hundred_thousand_inputs(rt: HostRuntime) -> Result<(), Fail> {
    at_an_office(&rt, THREE_CHANNELS, 1, &Many)
}
