//! One controller or two, driven by a script on one thread.
ghost use Rattle.std.specs.Prelude.{◌≡◌, ◌≢◌, ◌⊎◌, ◌∷◌, [], Ok, Err, None, Some, IsSome, IsSomeAnd, IfOk, IfErr, IfSome, false, is_some, option_map, map};
ghost use Rattle.cell_table.specs.SiteFile.{described_site, IsBlankFile};
ghost use Rattle.cell_table.specs.declared.fault.Key.TheVariants.{Handover};
ghost use Rattle.lab_script.specs.Script.{first_unreadable, items_of, AreThere};
ghost use Rattle.lab_runs.specs.Course.{Played, IsPlayed, IsRunOf, AreOpenings, positions_of, has_peer, has_simulators, option_list};
ghost use Rattle.lab_runs.specs.Sites.{views_of, texts_of};
ghost use Rattle.lab_runs.specs.Statuses.{status_of, status_after, exit_status_of};

use crate::course::{Course, Run};
use cell_table::{Site, SiteFault};
use lab_script::script::{Item, ScriptFault, read_script};
use run_listeners::{LabFault, Listener, Printing};
use std::alloc::{AllocError, Allocator, Global};
use std::io::Write;
use std::sync::Arc;

/// How the work ended.
#[derive(Clone, Copy, Debug, PartialEq, Eq)]
pub enum Status {
    /// A script was run to its end, an undone attempt left no trace, or the message, help or the version was printed.
    Done,
    /// An undone attempt left a trace: without it the book, or a reply to an event that stays, is different. Or all settled
    /// attempts of a history together left one. Or something else came of a script than its comments expect.
    Differs,
    /// Something was refused, and what was printed says what: the words, a file, the site, a line of the script or of the
    /// trace, what was to be decoded, or what was to be taken out.
    Refused,
}

/// The status after work that came to its end.
fn status_of(status: Status) -> u8
    ensures { result ≡ status_of status }
{
    match status {
        Status::Done => 0,
        Status::Differs => 1,
        Status::Refused => 2,
    }
}

/// The status after work that didn't.
fn status_after(fault: LabFault) -> u8
    ensures { result ≡ status_after fault }
{
    match fault {
        LabFault::Write => 2,
        LabFault::NoMemory => 3,
    }
}

/// The exit status of the program: 0 if the work is done, 1 if undone attempts left a trace or a script gave something else
/// than it expects, 2 if something was refused or the output couldn't be written, 3 if memory was refused.
pub fn exit_status(ended: Result<Status, LabFault>) -> u8
    ensures status { result ≡ exit_status_of ended }
{
    match ended {
        Ok(status) => status_of(status),
        Err(fault) => status_after(fault),
    }
}

/// The site of a controller, and its peer's if there is one.
#[derive(Drop)]
pub struct Sites<A: Allocator + Copy = Global> {
    pub first: Site<A>,
    pub peer: Option<Site<A>>,
}

/// A site that several share.
fn shared<A: Allocator + Copy>(alloc: A, site: Site<A>) -> Result<Arc<Site<A>, A>, AllocError>
    ensures { IfOk result (λ shared. shared.value ≡ site) }
{
    Arc::new(alloc, site).map_err(AllocError::from)
}

/// The peer's, if there is one.
fn shared_peer<A: Allocator + Copy>(
    alloc: A,
    site: Option<Site<A>>,
) -> Result<Option<Arc<Site<A>, A>>, AllocError>
    ensures { IfOk result (λ peer. option_map (λ shared. shared.value) peer ≡ site) }
{
    match site {
        Some(site) => Ok(Some(shared(alloc, site)?)),
        None => Ok(None),
    }
}

/// Controllers of the sites, which have been given nothing yet.
pub fn fresh_course<A: Allocator + Copy>(alloc: A, sites: Sites<A>) -> Result<Course<A>, AllocError>
    ensures openings { IfOk result (λ course. AreOpenings (views_of sites)
        (positions_of course.controllers)) }
    ensures peer { IfOk result (λ course. has_peer course ≡ is_some sites.peer) }
    ensures turns { IfOk result (λ course. course.turns.items ≡ []) }
    ensures sim { IfOk result (λ course. has_simulators course ≡ false) }
{
    let first = shared(alloc, sites.first)?;
    let peer = shared_peer(alloc, sites.peer)?;
    Course::new(alloc, first, peer)
}

/// What the lines of a script give; nothing if a line can't be read (a listener was told its number).
pub fn script_items<A: Allocator + Copy, L: Listener<A>>(
    alloc: A,
    script: &str,
    has_peer: bool,
    listener: &mut L,
) -> Result<Option<Vec<Item<A>, A>>, LabFault>
    ensures read { IfOk result (λ items. IsSome items → first_unreadable has_peer script.now ≡ None) }
    ensures items { IfOk result (λ items. IfSome items (λ found. found.items ≡ items_of script.now)) }
    ensures sides { IfOk result (λ items. IfSome items (λ found. AreThere has_peer found.items)) }
    ensures refused { IfOk result (λ items. items ≡ None → IsSome (first_unreadable has_peer script.now)) }
    ensures memory { result ≡ Err LabFault.NoMemory → first_unreadable has_peer script.now ≡ None }
{
    match read_script(alloc, script, has_peer) {
        Ok(items) => Ok(Some(items)),
        Err(ScriptFault::Line(number)) => {
            listener.hear_unreadable(number)?;
            Ok(None)
        }
        Err(ScriptFault::NoMemory) => Err(LabFault::NoMemory),
    }
}

/// Runs a script over sites that were read, tells a listener what comes of it, and returns what came of each input. If a
/// line of the script can't be read, nothing is run, and the listener is told the line's number (see [`lab_run`]).
///
/// The run's turns are the script's inputs in order, with the messages of simulators between them. An input that a line
/// finds by its controller's book depends on the book when the line is played. Each input was handled by its controller as
/// the procedure says, from empty books on to the controllers with which the run ends.
///
/// `NoMemory`: memory was refused; then every line of the script can be read. `Write`: the listener couldn't write. After
/// either the listener was told what came before.
pub fn play<A: Allocator + Copy, L: Listener<A>>(
    alloc: A,
    sites: Sites<A>,
    script: &str,
    listener: &mut L,
) -> Result<Option<Run<A>>, LabFault>
    ensures read { IfOk result (λ run. IsSome run →
        first_unreadable (is_some sites.peer) script.now ≡ None) }
    ensures ran { IfOk result (λ run. IfSome run
        (λ run. IsRunOf (views_of sites) (items_of script.now) run)) }
    ensures refused { IfOk result (λ run. run ≡ None →
        IsSome (first_unreadable (is_some sites.peer) script.now)) }
    ensures memory { result ≡ Err LabFault.NoMemory →
        first_unreadable (is_some sites.peer) script.now ≡ None }
{
    let has_peer = sites.peer.is_some();
    let Some(items) = script_items(alloc, script, has_peer, listener)? else {
        return Ok(None);
    };
    let mut course = fresh_course(alloc, sites)?;
    course.run(items, listener)?;
    Ok(Some(course.into_run()))
}

/// How a script ended: done where it was run.
fn outcome_of<A: Allocator + Copy>(run: &Option<Run<A>>) -> Status
    ensures done { result ≡ Status.Done → IsSome run.now }
    ensures differs { result ≢ Status.Differs }
    ensures refused { result ≡ Status.Refused → run.now ≡ None }
{
    match run {
        Some(_) => Status::Done,
        None => Status::Refused,
    }
}

/// The peer's site, where its text is given.
fn read_peer<A: Allocator + Copy>(
    alloc: A,
    scratch: Global,
    text: Option<&str>,
) -> Result<Option<Site<A>>, SiteFault>
    ensures described { IfOk result (λ site. option_map described_site (texts_of text.entry) ≡
        option_map Some site) }
    ensures refused { IfErr result (λ fault. fault ≢ SiteFault.NoMemory →
        IsSomeAnd (texts_of text.entry) (λ text. described_site text ≡ None)) }
{
    match text {
        Some(text) => Ok(Some(Site::read(alloc, scratch, text)?)),
        None => Ok(None),
    }
}

/// The sites of one controller or two. That of the first is looked at first.
pub fn read_sites<A: Allocator + Copy>(
    alloc: A,
    scratch: Global,
    site: &str,
    peer: Option<&str>,
) -> Result<Sites<A>, SiteFault>
    ensures described { IfOk result (λ sites. map described_site
        (site.now ∷ option_list (texts_of peer.entry)) ≡ map Some (views_of sites)) }
    ensures peer { IfOk result (λ sites. is_some sites.peer ≡ is_some (texts_of peer.entry)) }
    ensures refused { IfErr result (λ fault. fault ≢ SiteFault.NoMemory →
        (described_site site.now ≡ None) ⊎
        IsSomeAnd (texts_of peer.entry) (λ text. described_site text ≡ None)) }
    ensures blank { IsBlankFile site.now → result ≡ Err (SiteFault.Missing Handover) }
{
    let first = Site::read(alloc, scratch, site)?;
    let peer = read_peer(alloc, scratch, peer)?;
    Ok(Sites { first, peer })
}

/// Tells a listener why there is no site to run over.
pub fn refuse_site<A: Allocator + Copy, L: Listener<A>>(
    fault: SiteFault,
    listener: &mut L,
) -> Result<Status, LabFault>
    ensures done { result ≢ Ok Status.Done }
    ensures differs { result ≢ Ok Status.Differs }
    ensures refused { result ≡ Ok Status.Refused → fault ≢ SiteFault.NoMemory }
    ensures memory { result ≡ Err LabFault.NoMemory → fault ≡ SiteFault.NoMemory }
{
    match fault {
        SiteFault::NoMemory => return Err(LabFault::NoMemory),
        SiteFault::Toml
        | SiteFault::Missing(_)
        | SiteFault::Range(_)
        | SiteFault::Twice(_)
        | SiteFault::NoTraffic(_) => listener.hear_no_site(fault)?,
    }
    Ok(Status::Refused)
}

/// Runs a script over a site, or over two if a peer's is given, all as texts, and tells a listener what comes of it, or why
/// nothing is run. The site is read first, then the peer's, then all lines of the script. The answer is `Done` after a run
/// to the end, and `Refused` if nothing is run.
///
/// `scratch` serves while the sites are read, `alloc` for all else. Once memory was refused (`NoMemory`), or the listener
/// couldn't write (`Write`), it is told nothing more; of a site of white space and comments alone it is told without any
/// memory.
#[tactic(auto, using(crate::proofs::CourseFacts::some_played))]
pub fn run_for<A: Allocator + Copy, L: Listener<A>>(
    alloc: A,
    scratch: Global,
    site: &str,
    peer: Option<&str>,
    script: &str,
    listener: &mut L,
) -> Result<Status, LabFault>
    ensures played { result ≡ Ok Status.Done → IsPlayed A site.now (texts_of peer.entry) script.now }
    ensures differs { result ≢ Ok Status.Differs }
    ensures refused { result ≡ Ok Status.Refused →
        (described_site site.now ≡ None)
        ⊎ IsSomeAnd (texts_of peer.entry) (λ text. described_site text ≡ None)
        ⊎ IsSome (first_unreadable (is_some peer.entry) script.now) }
    ensures memory { result ≡ Err LabFault.NoMemory → ¬ IsBlankFile site.now }
{
    match read_sites(alloc, scratch, site, peer) {
        Ok(sites) => {
            let run = play(alloc, sites, script, listener)?;
            Ok(outcome_of(&run))
        }
        Err(fault) => refuse_site(fault, listener),
    }
}

/// Runs a script over a site, or over two if a peer's is given, all given as texts, and prints the trace to `out`.
///
/// With a peer there are two controllers, each with a book of its own, and each line that one of them prints begins with `1:
/// ` or `2: `. The site is read first, then the peer's, then all lines of the script. A text that describes no site prints
/// one line: `site 1` if it isn't TOML, `site 2` and the key where a key is missing, `site 3` and the key where a value is
/// of another kind or out of its range, `site 4` and the kind where something stands twice, `site 5` and the cell where it
/// has no traffic channel. A script prints `line` and the number of its first line that can't be read, counted from 1. Then
/// nothing else is printed and the answer is `Refused`; after a run to its end it is `Done`. `scratch` serves while the
/// sites are read, `alloc` for all else. Once memory was refused (`NoMemory`), or `out` can't be written to (`Write`),
/// nothing more is printed; a site of white space and comments alone is refused without any memory.
pub fn lab_run<A: Allocator + Copy, W: Write>(
    alloc: A,
    scratch: Global,
    site: &str,
    peer: Option<&str>,
    script: &str,
    out: &mut W,
) -> Result<Status, LabFault>
    ensures played { result ≡ Ok Status.Done → IsPlayed A site.now (texts_of peer.entry) script.now }
    ensures differs { result ≢ Ok Status.Differs }
    ensures refused { result ≡ Ok Status.Refused →
        (described_site site.now ≡ None)
        ⊎ IsSomeAnd (texts_of peer.entry) (λ text. described_site text ≡ None)
        ⊎ IsSome (first_unreadable (is_some peer.entry) script.now) }
    ensures memory { result ≡ Err LabFault.NoMemory → ¬ IsBlankFile site.now }
{
    run_for(alloc, scratch, site, peer, script, &mut Printing::new(out))
}
