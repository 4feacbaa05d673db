//! Takes all settled attempts out of what the controllers of a run were asked.
ghost use Rattle.std.specs.Prelude.{◌≡◌, ◌≢◌, ◌↔◌, Ok, None, IsTrue, IfOk, IfSome, is_some};
ghost use Rattle.lab_script.specs.Script.{first_unreadable};
ghost use Rattle.lab_runs.specs.Course.{option_list};
ghost use Rattle.lab_runs.specs.Sites.{texts_of, views_of};
ghost use Rattle.radio_desk.specs.Audit.{IsAuditOf};
ghost use Rattle.audits.specs.Runs.{AreTold, AreAuditsOf, IsAuditedRun, AreSame};

use crate::noting::{EventLines, Noting};
use crate::shown::{Asked, Beside, beside_of, print_audit};
use ho_procedure::controller::Controller;
use lab_runs::controllers::Controllers;
use lab_runs::course::Run;
use lab_runs::noting as view;
use lab_runs::run::{Sites, Status, play, read_sites, refuse_site};
use lab_script::script::Side;
use radio_desk::audit::Audit;
use remainders::choices_in;
use run_listeners::{LabFault, Listener, Turn};
use std::alloc::{AllocError, Allocator, Global};
use std::io::{self, Write};
use trace_text::trace::Mark;

/// The result of the audit of a controller's history.
#[derive(Clone, Copy, Debug, PartialEq, Eq)]
pub struct Found {
    pub audit: Audit,
    /// The line of the first held event, counted from 1.
    pub held: Option<usize>,
}

/// The results of the audits of a run's controllers: of the first, and of its peer if there is one.
#[derive(Clone, Copy, Debug, PartialEq, Eq)]
pub struct Audits {
    pub first: Found,
    pub peer: Option<Found>,
}

/// What the audit of a controller's history comes to, whose events stand in these lines.
fn found_of<A: Allocator + Copy>(
    controller: &Controller<view::Noting<A>, A>,
    lines: &EventLines<A>,
    side: Side,
) -> Result<Found, AllocError>
    ensures told { IfOk result (λ found. IsAuditOf controller.now.0.desk found.audit) }
{
    let audit = controller.view().desk().audit()?;
    let held = match audit.held {
        Some(place) => lines.line_of(side, place),
        None => None,
    };
    Ok(Found { audit, held })
}

/// What the audit of the peer found, if there is one.
fn peer_found<A: Allocator + Copy>(
    peer: &Option<Controller<view::Noting<A>, A>>,
    lines: &EventLines<A>,
) -> Result<Option<Found>, AllocError>
    ensures told { IfOk result (λ found. AreTold (option_list found) (option_list peer.now)) }
{
    match peer {
        Some(peer) => Ok(Some(found_of(peer, lines, Side::Peer)?)),
        None => Ok(None),
    }
}

/// The audits of controllers.
fn audits_of<A: Allocator + Copy>(
    controllers: &Controllers<A>,
    lines: &EventLines<A>,
) -> Result<Audits, AllocError>
    ensures first { IfOk result (λ audits. IsAuditOf controllers.now.first.0.desk audits.first.audit) }
    ensures peer { IfOk result (λ audits.
        AreTold (option_list audits.peer) (option_list controllers.now.peer)) }
{
    let first = found_of(&controllers.first, lines, Side::First)?;
    let peer = peer_found(&controllers.peer, lines)?;
    Ok(Audits { first, peer })
}

/// What is told of the audit of a controller's history beside what it found.
fn beside_in<A: Allocator + Copy>(
    alloc: A,
    controller: &Controller<view::Noting<A>, A>,
    turns: &[Turn<A>],
    lines: &EventLines<A>,
    side: Side,
    audit: &Audit,
) -> Result<Beside<A>, LabFault> {
    let desk = controller.view().desk();
    let (mut events, mut replies) = (Vec::new(alloc), Vec::new(alloc));
    for place in 0..desk.len() {
        if let Some((event, reply)) = desk.entry(place) {
            events.reserve(1)?;
            events.push_reserved(*event);
            replies.reserve(1)?;
            replies.push_reserved(*reply);
        }
    }
    let lines = lines.asked(side);
    let choices = choices_in(alloc, turns, side, lines)?;
    let asked = Asked {
        events: &events,
        replies: &replies,
        lines: lines.events,
        choices: &choices,
    };
    beside_of(alloc, desk.opening(), asked, audit)
}

/// What is printed with the audits of the controllers of a run, besides their results.
#[derive(Drop)]
pub struct AllBeside<A: Allocator = Global> {
    first: Beside<A>,
    peer: Option<Beside<A>>,
}

/// What is told beside the audits of a run whose lines were noted.
fn all_beside<A: Allocator + Copy>(
    alloc: A,
    run: &Run<A>,
    lines: &EventLines<A>,
    audits: &Audits,
) -> Result<AllBeside<A>, LabFault> {
    let Controllers { first, peer } = &run.controllers;
    let audit = &audits.first.audit;
    let first = beside_in(alloc, first, &run.turns, lines, Side::First, audit)?;
    let peer = match (peer, audits.peer) {
        (Some(peer), Some(found)) => {
            let audit = &found.audit;
            Some(beside_in(alloc, peer, &run.turns, lines, Side::Peer, audit)?)
        }
        (Some(_), None) | (None, _) => None,
    };
    Ok(AllBeside { first, peer })
}

/// What the audits of the controllers of a run come to, whose lines were noted, and to which what is told beside is noted.
fn audits_told<A: Allocator + Copy, L: Listener<A>>(
    alloc: A,
    run: &Run<A>,
    noting: &mut Noting<'_, L, A>,
) -> Result<Audits, LabFault>
    ensures first { IfOk result (λ audits.
        IsAuditOf run.now.controllers.first.0.desk audits.first.audit) }
    ensures peer { IfOk result (λ audits.
        AreTold (option_list audits.peer) (option_list run.now.controllers.peer)) }
{
    let audits = audits_of(&run.controllers, noting.lines())?;
    let beside = all_beside(alloc, run, noting.lines(), &audits)?;
    noting.tell_beside(beside);
    Ok(audits)
}

/// Runs a script over sites that were read, and audits its controllers at the end.
fn audit_played<A: Allocator + Copy, L: Listener<A>>(
    alloc: A,
    sites: Sites<A>,
    script: &str,
    noting: &mut Noting<'_, L, A>,
) -> Result<Option<Audits>, LabFault>
    ensures read { IfOk result (λ found. IfSome found (λ _.
        first_unreadable (is_some sites.peer) script.now ≡ None)) }
    ensures told { IfOk result (λ found. IfSome found (λ audits.
        AreAuditsOf A (views_of sites) script.now audits)) }
{
    match play(alloc, sites, script, noting)? {
        Some(run) => Ok(Some(audits_told(alloc, &run, noting)?)),
        None => Ok(None),
    }
}

/// Runs a script over a site, or over two if a peer's is given, all as texts, as [`run_for`](lab_runs::run::run_for) does;
/// tells a listener what comes of it; and takes all settled attempts out of what each controller was asked. Nothing if
/// nothing is run; the listener was told why.
///
/// `scratch` serves while the sites are read, `alloc` for all else. Once memory was refused (`NoMemory`), or the listener
/// couldn't write (`Write`), it is told nothing more.
pub fn audited_run<A: Allocator + Copy, L: Listener<A>>(
    alloc: A,
    scratch: Global,
    site: &str,
    peer: Option<&str>,
    script: &str,
    noting: &mut Noting<'_, L, A>,
) -> Result<Option<Audits>, LabFault>
    ensures told { IfOk result (λ found. IfSome found
        (IsAuditedRun A site.now (texts_of peer.entry) script.now)) }
{
    match read_sites(alloc, scratch, site, peer) {
        Ok(sites) => audit_played(alloc, sites, script, noting),
        Err(fault) => {
            refuse_site(fault, noting)?;
            Ok(None)
        }
    }
}

/// Whether of each controller all that remains comes to the same.
fn are_same(audits: &Audits) -> bool
    ensures { IsTrue result ↔ AreSame audits.now }
{
    match audits.peer {
        Some(peer) => audits.first.audit.same && peer.audit.same,
        None => audits.first.audit.same,
    }
}

/// Prints four lines for each controller, behind its mark if there are two.
fn print_all<W: Write>(out: &mut W, audits: &Audits, beside: &AllBeside) -> io::Result<()> {
    let first = audits.first;
    match (audits.peer, &beside.peer) {
        (Some(peer), Some(of_peer)) => {
            print_audit(out, Mark::First, &first.audit, first.held, &beside.first)?;
            print_audit(out, Mark::Peer, &peer.audit, peer.held, of_peer)
        }
        (Some(_), None) | (None, _) => {
            print_audit(out, Mark::Alone, &first.audit, first.held, &beside.first)
        }
    }
}

/// Prints the results of the audits of a run's controllers: four lines for each, after its mark if there are two. The answer
/// is `Done` if the rest stays the same for each controller, else `Differs`.
pub fn print_audits<W: Write>(
    out: &mut W,
    audits: &Audits,
    beside: &AllBeside,
) -> Result<Status, LabFault>
    ensures done { result ≡ Ok Status.Done → AreSame audits.now }
    ensures differs { result ≡ Ok Status.Differs → AreSame audits.now → ⊥ }
    ensures refused { result ≢ Ok Status.Refused }
{
    print_all(out, audits, beside)?;
    if are_same(audits) {
        Ok(Status::Done)
    } else {
        Ok(Status::Differs)
    }
}
