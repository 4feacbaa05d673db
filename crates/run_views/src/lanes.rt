//! The columns of a chart: who is in which.
use chart::Side;
use std::alloc::{AllocError, Allocator};
use trace_text::trace::Mark;

/// Who stands at a lane.
#[derive(Clone, Copy, Debug, PartialEq, Eq)]
pub(crate) enum Post {
    /// A mobile, on a channel of a station of the controller with this mark.
    Mobile(Mark),
    /// The station of a cell, of the controller with this mark.
    Station(Mark, u8),
    /// The controller with this mark.
    Controller(Mark),
    /// The switching centre.
    Centre,
}

/// The stations of a controller that have lanes: those with which a message was exchanged; and whether mobiles have one.
#[derive(Clone, Copy)]
struct Stations {
    /// Whether the station of each cell is one.
    has_lane: [bool; 256],
    /// Whether a mobile has said or heard something.
    has_mobile: bool,
}

/// How many of these are.
fn count(has_lane: &[bool]) -> u32 {
    let mut count: u32 = 0;
    for has_lane in has_lane {
        if *has_lane {
            count = count.saturating_add(1);
        }
    }
    count
}

impl Stations {
    /// None.
    fn new() -> Stations {
        Stations {
            has_lane: [false; 256],
            has_mobile: false,
        }
    }

    /// That of this cell has one.
    fn add(&mut self, cell: u8) {
        self.has_lane[cell as usize] = true;
    }

    /// How many there are.
    fn len(&self) -> u32 {
        count(&self.has_lane)
    }

    /// How many there are of cells with lower numbers.
    fn below(&self, cell: u8) -> u32 {
        count(&self.has_lane[..cell as usize])
    }

    /// How many lanes mobiles have.
    fn mobiles(&self) -> u32 {
        u32::from(self.has_mobile)
    }
}

/// The lanes of one controller: mobiles, its stations by the numbers of their cells, then it, then the switching centre. With
/// a peer, the switching centre stands between the two, and at the right the peer's stations, then mobiles again. A station
/// and mobiles have a lane only where they say or hear something.
#[derive(Drop)]
pub(crate) struct Lanes {
    has_peer: bool,
    first: Stations,
    peer: Stations,
}

/// Whose lanes stand behind those of the stations of one controller.
const OTHERS_OF_ONE: &[&str] = &["controller", "switching centre"];

/// Whose lanes stand between those of the stations of two.
const OTHERS_OF_TWO: &[&str] = &["controller 1", "switching centre", "controller 2"];

/// Adds the name of mobiles, where they have a lane.
fn push_mobile<A: Allocator + Copy>(
    alloc: A,
    stations: &Stations,
    names: &mut Vec<String<A>, A>,
) -> Result<(), AllocError> {
    if stations.has_mobile {
        names.push(String::from_str(alloc, "mobile")?)?;
    }
    Ok(())
}

/// Adds the names of stations.
fn push_stations<A: Allocator + Copy>(
    alloc: A,
    stations: &Stations,
    controller: &str,
    names: &mut Vec<String<A>, A>,
) -> Result<(), AllocError> {
    for (cell, has_lane) in stations.has_lane.iter().enumerate() {
        if *has_lane {
            names.push(format!(in alloc; "station {cell}{controller}")?)?;
        }
    }
    Ok(())
}

impl Lanes {
    /// Those of one controller, or of two, without a station.
    pub(crate) fn new(has_peer: bool) -> Lanes {
        Lanes {
            has_peer,
            first: Stations::new(),
            peer: Stations::new(),
        }
    }

    /// A station, or mobiles, have a lane from here on; anybody else has one anyway.
    pub(crate) fn add(&mut self, post: Post) {
        match post {
            Post::Mobile(Mark::Alone | Mark::First) => self.first.has_mobile = true,
            Post::Mobile(Mark::Peer) => self.peer.has_mobile = true,
            Post::Station(Mark::Alone | Mark::First, cell) => self.first.add(cell),
            Post::Station(Mark::Peer, cell) => self.peer.add(cell),
            Post::Controller(_) | Post::Centre => {}
        }
    }

    /// The place of somebody's lane, counted from 0.
    pub(crate) fn place(&self, post: Post) -> u32 {
        let mobiles = self.first.mobiles();
        let first = mobiles.saturating_add(self.first.len());
        match post {
            Post::Mobile(Mark::Alone | Mark::First) => 0,
            Post::Station(Mark::Alone | Mark::First, cell) => {
                mobiles.saturating_add(self.first.below(cell))
            }
            Post::Controller(Mark::Alone | Mark::First) => first,
            Post::Centre => first.saturating_add(1),
            Post::Controller(Mark::Peer) => first.saturating_add(2),
            Post::Station(Mark::Peer, cell) => {
                first
                    .saturating_add(3)
                    .saturating_add(self.peer.below(cell))
            }
            Post::Mobile(Mark::Peer) => { first.saturating_add(3).saturating_add(self.peer.len()) }
        }
    }

    /// The names of the lanes, from the left.
    pub(crate) fn names<A: Allocator + Copy>(
        &self,
        alloc: A,
    ) -> Result<Vec<String<A>, A>, AllocError> {
        let (of_first, others) = if self.has_peer {
            (" of 1", OTHERS_OF_TWO)
        } else {
            ("", OTHERS_OF_ONE)
        };
        let mut names = Vec::new(alloc);
        push_mobile(alloc, &self.first, &mut names)?;
        push_stations(alloc, &self.first, of_first, &mut names)?;
        for other in others {
            names.push(String::from_str(alloc, *other)?)?;
        }
        // without a peer there is no station of its
        push_stations(alloc, &self.peer, " of 2", &mut names)?;
        push_mobile(alloc, &self.peer, &mut names)?;
        Ok(names)
    }
}

/// What the bars of a side are: those at the left the first controller's, those at the right the second's.
pub(crate) fn bars_are(has_peer: bool, side: Side) -> &'static str {
    if !has_peer {
        return "undone attempts";
    }
    match side {
        Side::Left => "undone attempts of controller 1",
        Side::Right => "undone attempts of controller 2",
    }
}
