//! A run that gathers, for each line of its script, what came of it.
ghost use Rattle.std.specs.Prelude.{◌≡◌, [], ◌∷◌, Bool, true, is_some, length, IfOk, OnOk};
ghost use Rattle.lab_script.specs.Script.{AreThere, is_item_there};
ghost use Rattle.lab_runs.specs.Course.{Played, Follows, has_peer};
ghost use Rattle.tested_scripts.specs.declared.heard.Came.{Came};
ghost use Rattle.tested_scripts.specs.Heard.{HasHeard, IsTold};
ghost use Rattle.lab_runs.specs.Sites.{views_of};

use crate::gathered::Gathered;
use lab_runs::course::Course;
use lab_runs::run::{Sites, fresh_course};
use lab_script::script::Item;
use run_listeners::LabFault;
use std::alloc::Allocator;

/// What came of a part of a script, as texts: the lines of the trace; for each of them the same with its message in words, or
/// an empty one where it is none; and what the books hold then, as `--state` prints it.
#[derive(Clone, Copy, Debug, PartialEq, Eq)]
pub(crate) struct Came<'a> {
    pub trace: &'a str,
    pub words: &'a str,
    pub held: &'a str,
}

/// Who is told what comes of the lines of a script, part by part: a part is what stands before the first line that gives
/// something, or behind one up to the next.
pub(crate) trait PartListener {
    /// Told what came, it is then another.
    ghost Hears: { Self → Came → Self → Type 0 };
    /// Told what came last, without the trace's end and with it, it answers whether all is well.
    ghost HearsEnd: { Self → Came → Came → Bool → Type 0 };

    /// Whether it asks what the books hold behind the next part.
    fn wants_held(&self) -> bool;

    /// What comes of the next part but the last.
    fn hear(&mut self, came: Came<'_>) -> Result<(), LabFault>
        ensures hears { OnOk result (Hears self.old came.entry self.new) };

    /// What comes of the last part, without the trace's end and with it; answers whether all is well.
    fn hear_last(&mut self, came: Came<'_>, ended: Came<'_>) -> Result<bool, LabFault>
        ensures hears { IfOk result (λ well. HearsEnd self.old came.entry ended.entry well) };
}

/// Does what a line of a script gives, and gathers what comes of that, which lacks nothing but memory.
fn follow_gathered<A: Allocator + Copy>(
    course: &mut Course<A>,
    item: Item<A>,
    gathered: &mut Gathered<A>,
) -> Result<(), LabFault>
    requires there { is_item_there (has_peer course.old) item ≡ true }
    ensures { OnOk result (Follows (item ∷ []) course.old course.new) }
{
    match course.follow(item, gathered) {
        Ok(()) => Ok(()),
        Err(LabFault::NoMemory | LabFault::Write) => Err(LabFault::NoMemory),
    }
}

/// Gathers what the books hold, where a listener asks for it; that lacks nothing but memory.
fn hold_wanted<A: Allocator + Copy, L: PartListener>(
    course: &Course<A>,
    gathered: &mut Gathered<A>,
    listener: &L,
) -> Result<(), LabFault> {
    if !listener.wants_held() {
        return Ok(());
    }
    match gathered.hold(course) {
        Ok(()) => Ok(()),
        Err(LabFault::NoMemory | LabFault::Write) => Err(LabFault::NoMemory),
    }
}

/// Tells a listener what came, and then does what a line of a script gives.
fn follow_heard<A: Allocator + Copy, L: PartListener>(
    course: &mut Course<A>,
    item: Item<A>,
    gathered: &mut Gathered<A>,
    listener: &mut L,
) -> Result<(), LabFault>
    requires there { is_item_there (has_peer course.old) item ≡ true }
    ensures went { OnOk result (Follows (item ∷ []) course.old course.new) }
    ensures heard { OnOk result ((came : Came) × L.Hears listener.old came listener.new) }
{
    hold_wanted(course, gathered, listener)?;
    listener.hear(gathered.came())?;
    gathered.clear();
    follow_gathered(course, item, gathered)?;
    Ok(())
}

/// Does what the lines of a script give, in their order, and tells a listener what comes of each but the last.
fn follow_all<A: Allocator + Copy, L: PartListener>(
    course: &mut Course<A>,
    items: Vec<Item<A>, A>,
    gathered: &mut Gathered<A>,
    listener: &mut L,
) -> Result<(), LabFault>
    requires there { AreThere (has_peer course.old) items.items }
    ensures went { OnOk result (Follows items.items course.old course.new) }
    ensures heard { OnOk result (HasHeard L.Hears listener.old (length items.items) listener.new) }
{
    for item in items {
        follow_heard(course, item, gathered, listener)?;
    }
    Ok(())
}

/// Gathers the trace's end, which lacks nothing but memory.
fn gather_ends<A: Allocator + Copy>(
    course: &Course<A>,
    gathered: &mut Gathered<A>,
) -> Result<(), LabFault> {
    match course.tell_ends(gathered) {
        Ok(()) => Ok(()),
        Err(_) => Err(LabFault::NoMemory),
    }
}

/// Tells a listener what came last, without the trace's end and with it.
fn hear_end<A: Allocator + Copy, L: PartListener>(
    course: &Course<A>,
    gathered: &mut Gathered<A>,
    listener: &mut L,
) -> Result<bool, LabFault>
    ensures heard { IfOk result (λ well. (came : Came) × (ended : Came) × L.HearsEnd listener.old came ended well) }
{
    hold_wanted(course, gathered, listener)?;
    let end = gathered.end();
    gather_ends(course, gathered)?;
    listener.hear_last(gathered.came_before(end), gathered.came())
}

/// Does what the lines of a script give, in their order, and tells a listener what comes of them; answers whether all is
/// well.
fn follow_to_end<A: Allocator + Copy, L: PartListener>(
    alloc: A,
    course: &mut Course<A>,
    items: Vec<Item<A>, A>,
    listener: &mut L,
) -> Result<bool, LabFault>
    requires there { AreThere (has_peer course.old) items.items }
    ensures went { IfOk result (λ well. well ≡ true → Follows items.items course.old course.new) }
    ensures told { IfOk result (λ well.
        IsTold L.Hears L.HearsEnd listener.old (length items.items) well) }
{
    let mut gathered = Gathered::new(alloc);
    follow_all(course, items, &mut gathered, listener)?;
    hear_end(course, &mut gathered, listener)
}

/// Follows what the lines of a script give over empty books of the sites, and tells a listener what comes of them; answers
/// whether all is well.
pub(crate) fn run_heard<A: Allocator + Copy, L: PartListener>(
    alloc: A,
    sites: Sites<A>,
    items: Vec<Item<A>, A>,
    listener: &mut L,
) -> Result<bool, LabFault>
    requires there { AreThere (is_some sites.peer) items.items }
    ensures played { IfOk result (λ well. well ≡ true → Played A (views_of sites) items.items) }
    ensures told { IfOk result (λ well.
        IsTold L.Hears L.HearsEnd listener.old (length items.items) well) }
{
    let mut course = fresh_course(alloc, sites)?;
    follow_to_end(alloc, &mut course, items, listener)
}
