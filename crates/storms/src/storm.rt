//! A storm over a site.
ghost use Rattle.std.specs.Prelude.{◌≡◌, ◌≤◌, IfOk, Ok, []};
ghost use Rattle.cell_table.specs.SiteFile.{IsBlankFile};
ghost use Rattle.cell_table.specs.declared.fault.SiteFault.TheVariants.{Missing};
ghost use Rattle.cell_table.specs.declared.fault.Key.TheVariants.{Handover};
ghost use Rattle.radio_book.specs.State.{empty_book};
ghost use Rattle.storms.specs.Outcomes.{IsOutcome, AreFigures};

use crate::front::Front;
use crate::outcome::{Figures, Outcome, StormFault, outcome_of, unreadable, untravelled};
use crate::simulated::Simulated;
use crate::trip::{Trip, trips_of};
use crate::watch::Watch;
use cell_table::Site;
use radio_book::book::Book;
use radio_desk::desk::Desk;
use std::alloc::{AllocError, Allocator, Global};
use std::sync::{Arc, Wait};
use std::thread::Threads;

/// Runs a storm of so many calls (1 to 1,024) over a site that is given as a text, with so many workers (1 to 16) on threads
/// of their own, and tells `watch` how far it is. All threads that were started have ended when it returns.
///
/// With `n` cells, call `k`, counted from 0, is opened on the traffic channel at place `k / n` of cell `k mod n` (by TRX and
/// timeslot), and tries to move to the cell `(k + 1) mod n`: mobiles of calls with even numbers arrive there, those of odd
/// ones return. Then the switching centre hangs up each. Each of the three phases begins once all is quiet after the one
/// before. Where `n < 2`, or a cell has fewer than twice as many traffic channels as calls begin in one, the site is too
/// small.
///
/// Where nothing is run the answer says why: the text describes no site, or what the site lacks. Else the figures are those of
/// a desk that opened with the empty book of the site, was asked to open each of the calls, and whose history leads from there
/// to its book; or the office failed. `scratch` serves while the site is read, `alloc` for all else. The error: memory was
/// refused, be it to a worker. A text of white space and comments alone takes none.
pub fn run_storm<
    R: Threads + Wait + Clone + Drop + Send + 'static,
    A: Allocator + Copy + Send + Sync + 'static,
    V: Watch,
>(
    rt: &R,
    alloc: A,
    scratch: Global,
    site: &str,
    workers: u8,
    calls: u16,
    watch: &mut V,
) -> Result<Outcome, AllocError>
    requires workers { (1 ≤ workers) × (workers ≤ 16) }
    requires calls { (1 ≤ calls) × (calls ≤ 1024) }
    ensures outcome { IfOk result (λ outcome. IsOutcome site.now calls outcome) }
    ensures blank { IsBlankFile site.now → result ≡ Ok (Outcome.NoSite (Missing Handover)) }
{
    let site = match Site::read(alloc, scratch, site) {
        Ok(site) => site,
        Err(fault) => return unreadable(fault),
    };
    let trips = match trips_of(alloc, &site, calls) {
        Ok(trips) => trips,
        Err(fault) => return untravelled(fault),
    };
    let ended = travel(rt, alloc, site, workers, &trips, watch);
    watch.end();
    outcome_of(ended)
}

/// A site that several share.
fn shared<A: Allocator + Copy>(alloc: A, site: Site<A>) -> Result<Arc<Site<A>, A>, AllocError>
    ensures { IfOk result (λ shared. shared.value ≡ site) }
{
    match Arc::new(alloc, site) {
        Ok(shared) => Ok(shared),
        Err(fault) => Err(AllocError::from(fault)),
    }
}

/// A desk over the empty book of a site, and what is simulated around it.
fn laid_out<A: Allocator + Copy>(
    alloc: A,
    site: Site<A>,
) -> Result<(Desk<A>, Simulated<A>), AllocError>
    ensures empty { IfOk result (λ laid. laid.0.history ≡ []) }
    ensures opening { IfOk result (λ laid. laid.0.opening ≡ empty_book site) }
{
    let site = shared(alloc, site)?;
    let simulated = Simulated::new(alloc, &site)?;
    let desk = Desk::new(alloc, Book::new(alloc, site)?)?;
    Ok((desk, simulated))
}

/// Runs these trips.
#[tactic(auto, using(crate::proofs::Openings::figures_of_trips))]
fn travel<
    R: Threads + Wait + Clone + Drop + Send + 'static,
    A: Allocator + Copy + Send + Sync + 'static,
    V: Watch,
>(
    rt: &R,
    alloc: A,
    site: Site<A>,
    workers: u8,
    trips: &[Trip],
    watch: &mut V,
) -> Result<Figures, StormFault>
    requires workers { (1 ≤ workers) × (workers ≤ 16) }
    ensures figures { IfOk result (λ figures. AreFigures (empty_book site) trips.now figures) }
{
    let (desk, simulated) = laid_out(alloc, site)?;
    let mut front = Front::start(rt, alloc, desk, simulated, workers)?;
    let ended = front.run(rt, trips, watch);
    // the workers' threads end whatever came
    let closed = front.close();
    ended?;
    closed
}
