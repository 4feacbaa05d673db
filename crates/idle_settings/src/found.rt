//! The lines of a script that have no effect.
use crate::inputs::lack_of_restart;
use crate::lack::Lack;
use crate::lines::{Kind, Line, chan_of, lines_of, without_line};
use crate::played::{Asked, Taken, Texts, gives_trace, trace_of};
use bts_model::{Act, Habit, Setting};
use cell_table::Site;
use channel_fsm::ChanId;
use lab_runs::run::Sites;
use lab_script::script::Side;
use run_listeners::{LabFault, Unmet};
use std::alloc::{AllocError, Allocator, Global};

/// So many lines are played at most to find out what settings come to.
const MOST_PLAYED: usize = 100_000;

/// Why a line of a script has no effect.
#[derive(Clone, Copy, Debug, PartialEq, Eq)]
pub enum Cause {
    /// It asks something of a station, and there isn't this.
    Lacks(Lack),
    /// Without it the same comes. It is about this channel.
    Unused(ChanId),
    /// Without it the same comes, because a later line replaces it. It is about this channel.
    Again(ChanId),
    /// It asks the book of its controller in vain.
    Unmet(Unmet),
    /// It is an input of which nothing came, and could come in no state of the book, as there isn't this.
    Input(Lack),
}

/// A line of a script that has no effect.
#[derive(Clone, Copy, Debug, PartialEq, Eq)]
pub struct Idle {
    /// Its number, counted from 1.
    pub line: usize,
    pub cause: Cause,
}

/// What was noted of the line of this number, where it is the first of the notes; and the other notes.
fn noted_first(
    notes: &[(usize, Setting)],
    number: usize,
) -> (Option<Setting>, &[(usize, Setting)]) {
    match notes {
        [(of, noted), behind @ ..] if *of == number => (Some(*noted), behind),
        [..] => (None, notes),
    }
}

/// The lines of a script that have no effect, as far as they were looked for.
#[derive(Drop)]
pub struct Found<A: Allocator = Global> {
    /// These lines, in order.
    pub idle: Vec<Idle, A>,
    /// The numbers of lines that have one: inputs of which something came, and settings without which something else comes.
    pub effects: Vec<usize, A>,
    /// The calls that it opened under a number for which the switching centre asks.
    pub taken: Vec<Taken, A>,
    /// Whether each setting of the script was looked at.
    pub is_whole: bool,
}

/// The site of a side.
fn site_of<A: Allocator + Copy>(sites: &Sites<A>, side: Side) -> Option<&Site<A>> {
    match (side, &sites.peer) {
        (Side::First, _) => Some(&sites.first),
        (Side::Peer, Some(peer)) => Some(peer),
        (Side::Peer, None) => None,
    }
}

/// Whether the site of a side has a channel.
fn has_channel<A: Allocator + Copy>(sites: &Sites<A>, side: Side, chan: ChanId) -> bool {
    site_of(sites, side).is_some_and(|site| site.is_traffic(chan))
}

/// What the site of its side lacks of the station that a line restarts.
fn restart_lack<A: Allocator + Copy>(sites: &Sites<A>, line: Line) -> Option<Lack> {
    match line.kind {
        Kind::Restart(side, restart) => lack_of_restart(site_of(sites, side)?, side, restart),
        Kind::Setting(..) | Kind::OfCall(_) | Kind::Input | Kind::Other => None,
    }
}

/// Whether an act takes the place of another on the same channel. What is kept back adds up.
fn replaces(by: Act, of: Act) -> bool {
    match of {
        Act::Mobile(_) => matches!(by, Act::Mobile(_)),
        Act::Cut(_) => matches!(by, Act::Cut(_)),
        Act::Double => by == Act::Double,
        Act::Refuse => by == Act::Refuse,
        Act::Hold(_) | Act::Release => false,
    }
}

/// A setting: the number of its line, and the side whose channel it is about.
#[derive(Clone, Copy)]
struct Placed {
    number: usize,
    side: Side,
    setting: Setting,
}

impl Placed {
    /// Its channel.
    fn chan(self) -> ChanId {
        chan_of(self.setting)
    }

    /// Whether another takes its place.
    fn is_replaced_by(self, other: Placed) -> bool {
        other.side == self.side
            && other.chan() == self.chan()
            && replaces(other.setting.act, self.setting.act)
    }
}

/// In which order settings are looked at: those that add up are looked at from the last on.
#[derive(Clone, Copy, PartialEq, Eq)]
enum Order {
    Forward,
    Backward,
}

/// How a setting is looked at; nothing if it sets back what another asked: there may be nothing to set back.
fn order_of(act: Act) -> Option<Order> {
    match act {
        Act::Refuse | Act::Mobile(Habit::Return | Habit::Vanish) | Act::Double | Act::Cut(_) => {
            Some(Order::Forward)
        }
        Act::Hold(_) => Some(Order::Backward),
        Act::Mobile(Habit::Arrive) | Act::Release => None,
    }
}

/// A script of which lines that come to nothing were taken out, with what comes of it still, and the lines that were found to.
#[derive(Drop)]
struct Search<'a, A: Allocator + Copy> {
    alloc: A,
    sites: Texts<'a>,
    script: String<A>,
    trace: &'a [u8],
    idle: Vec<Idle, A>,
}

impl<A: Allocator + Copy> Search<'_, A> {
    /// The script without the settings that take the place of another, of these behind it; nothing if none does.
    fn without_others(
        &self,
        placed: Placed,
        behind: &[Placed],
    ) -> Result<Option<String<A>>, AllocError> {
        let mut without = None;
        for other in behind {
            if placed.is_replaced_by(*other) {
                let script = without.as_ref().unwrap_or(&self.script);
                without = Some(without_line(self.alloc, script, other.number)?);
            }
        }
        Ok(without)
    }

    /// Whether it matters in a script whether the line of a setting is there.
    fn is_used_in(&self, script: &str, placed: Placed) -> Result<bool, LabFault> {
        let lines = lines_of(self.alloc, script, self.sites.peer.is_some())?;
        let mut asked = Asked::new(self.alloc);
        let others = without_line(self.alloc, script, placed.number)?;
        match trace_of(self.alloc, self.sites, script, &lines, &mut asked)? {
            Some(trace) => Ok(!gives_trace(self.alloc, self.sites, &others, &trace)?),
            None => Ok(false),
        }
    }

    /// Why a setting comes to nothing, behind which these stand: were it not for those that take its place it would be used, or
    /// not.
    fn cause_of(&self, placed: Placed, behind: &[Placed]) -> Result<Cause, LabFault> {
        match self.without_others(placed, behind)? {
            Some(script) if self.is_used_in(&script, placed)? => Ok(Cause::Again(placed.chan())),
            Some(_) | None => Ok(Cause::Unused(placed.chan())),
        }
    }

    /// Looks at a setting, behind which these stand.
    fn look_at(&mut self, placed: Placed, behind: &[Placed]) -> Result<(), LabFault> {
        let others = without_line(self.alloc, &self.script, placed.number)?;
        if gives_trace(self.alloc, self.sites, &others, self.trace)? {
            let idle = Idle {
                line: placed.number,
                cause: self.cause_of(placed, behind)?,
            };
            self.idle.push(idle).map_err(AllocError::from)?;
            self.script = others;
        }
        Ok(())
    }

    /// Looks at the settings that replace one another.
    fn look_forward(&mut self, settings: &[Placed]) -> Result<(), LabFault> {
        let mut rest = settings;
        while let [placed, behind @ ..] = rest {
            if order_of(placed.setting.act) == Some(Order::Forward) {
                self.look_at(*placed, behind)?;
            }
            rest = behind;
        }
        Ok(())
    }

    /// Looks at the settings that add up.
    fn look_backward(&mut self, settings: &[Placed]) -> Result<(), LabFault> {
        for placed in settings.iter().rev() {
            if order_of(placed.setting.act) == Some(Order::Backward) {
                self.look_at(*placed, &[])?;
            }
        }
        Ok(())
    }
}

/// Whether some of what a script's lines give may come to nothing.
fn may_be_idle(lines: &[Line]) -> bool {
    lines.iter().any(|line| match line.kind {
        Kind::Setting(..) | Kind::OfCall(_) | Kind::Restart(..) | Kind::Input => true,
        Kind::Other => false,
    })
}

/// The setting of a line, where it is one; this is what it asked of the mobile of a call.
fn setting_of(line: Line, asked: Option<Setting>) -> Option<Placed> {
    let (side, setting) = match line.kind {
        Kind::Setting(side, setting) => (side, setting),
        Kind::OfCall(side) => (side, asked?),
        Kind::Restart(..) | Kind::Input | Kind::Other => return None,
    };
    Some(Placed {
        number: line.number,
        side,
        setting,
    })
}

/// Adds the lines that asked in vain.
fn add_unmet<A: Allocator>(asked: &Asked<A>, idle: &mut Vec<Idle, A>) -> Result<(), AllocError> {
    for (line, unmet) in &asked.unmet {
        let cause = Cause::Unmet(*unmet);
        idle.push(Idle { line: *line, cause })?;
    }
    Ok(())
}

/// Adds the inputs of which nothing could come.
fn add_inputs<A: Allocator>(asked: &Asked<A>, idle: &mut Vec<Idle, A>) -> Result<(), AllocError> {
    for (line, lack) in &asked.inputs {
        let cause = Cause::Input(*lack);
        idle.push(Idle { line: *line, cause })?;
    }
    Ok(())
}

/// Adds the lines that restart a station that there isn't.
fn add_restarts<A: Allocator + Copy>(
    sites: &Sites<A>,
    lines: &[Line],
    idle: &mut Vec<Idle, A>,
) -> Result<(), AllocError> {
    for line in lines {
        if let Some(lack) = restart_lack(sites, *line) {
            let cause = Cause::Lacks(lack);
            idle.push(Idle {
                line: line.number,
                cause,
            })?;
        }
    }
    Ok(())
}

/// The settings of lines, in their order; those of channels that there aren't are added to `idle`.
fn settings_of<A: Allocator + Copy>(
    alloc: A,
    sites: &Sites<A>,
    lines: &[Line],
    asked: &Asked<A>,
    idle: &mut Vec<Idle, A>,
) -> Result<Vec<Placed, A>, AllocError> {
    let mut settings = Vec::new(alloc);
    let mut notes = asked.settings.as_slice();
    for line in lines {
        let (noted, others) = noted_first(notes, line.number);
        notes = others;
        match setting_of(*line, noted) {
            Some(placed) if has_channel(sites, placed.side, placed.chan()) => {
                settings.push(placed)?;
            }
            Some(placed) => idle.push(Idle {
                line: placed.number,
                cause: Cause::Lacks(Lack::Channel(placed.side, placed.chan())),
            })?,
            None => {}
        }
    }
    Ok(settings)
}

/// Adds the settings that were looked at, and aren't idle, to the lines that have an effect.
fn add_used<A: Allocator>(
    settings: &[Placed],
    idle: &[Idle],
    effects: &mut Vec<usize, A>,
) -> Result<(), AllocError> {
    for placed in settings {
        let is_idle = idle.iter().any(|idle| idle.line == placed.number);
        if order_of(placed.setting.act).is_some() && !is_idle {
            effects.push(placed.number)?;
        }
    }
    Ok(())
}

/// Adds those of a script's settings without which the same comes to what is known to come to nothing.
fn look_at_all<A: Allocator + Copy>(
    alloc: A,
    sites: Texts<'_>,
    script: &str,
    trace: &[u8],
    settings: &[Placed],
    idle: Vec<Idle, A>,
) -> Result<Vec<Idle, A>, LabFault> {
    let mut search = Search {
        alloc,
        sites,
        script: without_line(alloc, script, 0)?,
        trace,
        idle,
    };
    search.look_forward(settings)?;
    search.look_backward(settings)?;
    Ok(search.idle)
}

/// The lines of a script that come to nothing over sites: settings for a channel that a site lacks; settings without which the same
/// comes of each line, one after another, until each that is left matters (but for `let`, `arrive` and `restart`, which set back, and
/// where more than 100,000 lines would be played for it); lines that ask a controller's book in vain; inputs of which nothing came, and
/// nothing could, because there isn't the cell, the TRX, the channel or the call. Nothing is said of a script that can't be read, nor
/// where a text describes no site.
pub fn idle_settings<A: Allocator + Copy>(
    alloc: A,
    sites: Texts<'_>,
    script: &str,
) -> Result<Found<A>, LabFault> {
    let mut found = Found {
        idle: Vec::new(alloc),
        effects: Vec::new(alloc),
        taken: Vec::new(alloc),
        is_whole: true,
    };
    let lines = lines_of(alloc, script, sites.peer.is_some())?;
    if !may_be_idle(&lines) {
        return Ok(found);
    }
    let mut asked = Asked::new(alloc);
    let Some(trace) = trace_of(alloc, sites, script, &lines, &mut asked)? else {
        return Ok(found);
    };
    let Some(read) = sites.sites(alloc)? else {
        return Ok(found);
    };
    add_unmet(&asked, &mut found.idle)?;
    add_inputs(&asked, &mut found.idle)?;
    add_restarts(&read, &lines, &mut found.idle)?;
    let settings = settings_of(alloc, &read, &lines, &asked, &mut found.idle)?;
    found.is_whole = lines.len().saturating_mul(settings.len()) <= MOST_PLAYED;
    if found.is_whole {
        found.idle = look_at_all(alloc, sites, script, &trace, &settings, found.idle)?;
        add_used(&settings, &found.idle, &mut asked.effects)?;
    }
    found.idle.sort_unstable_by_key(|idle| idle.line);
    found.effects = asked.effects;
    found.taken = asked.taken;
    Ok(found)
}
