//! The site, and how it is searched.
ghost use Rattle.std.specs.Prelude.{◌≡◌, ◌≢◌, ◌↔◌, ℕ, IsTrue, Some, None, Ok, Err, true, IfOk, IfErr, length, option_map, slice_get};
ghost use Rattle.std.specs.Result.{is_ok};
ghost use Rattle.std.specs.List.{position};
ghost use Rattle.toml.specs.View.{view};
ghost use Rattle.channel_fsm.specs.Masks.{has};
ghost use Rattle.channel_fsm.specs.declared.ChanId.{ChanId};
ghost use Rattle.cell_table.specs.Site.{IsSite, IsWithinLimits, TrafficLiesWithin, trx_at, identity_at, slots_with, is_traffic, IsCellOf, channels, index_of};
ghost use Rattle.cell_table.specs.Searches.{has_codes, first_cell};
ghost use Rattle.cell_table.specs.SiteFile.{site_of, read_site, IsBlankFile};
ghost use Rattle.cell_table.specs.Kept.{kept_site};
ghost use Rattle.std.proofs.Common.{rules};
ghost use Rattle.std.specs.Cmp.Rules.{comparing};
ghost use Rattle.cell_table.specs.Same.{same_site};
ghost use Rattle.cell_table.specs.Neighbours.{IsNamedCell};

mod naming;

use crate::checks::broken_rule;
use crate::fault::{Key, SiteFault};
use crate::limits::FIRST_OUTSIDE;
use crate::neighbours::neighbour_named;
use crate::places::{cell_sizes, channel_of_cells, channels_before, mask_of};
use crate::reading::{cells_of, handover_at, outside_of};
use crate::tables::{Cell, CellIdentity, Tables, Trx};
use channel_fsm::{ChanId, Sub};
use std::alloc::{AllocError, Allocator, Global};
use std::marker::Model;
use toml::Value;

/// The cells of a controller, each with its TRX, and the cells of others that mobiles may be handed over to.
///
/// Own cells are numbered from 0 in the order of the site file, outside cells from 64, TRX of a cell from 0. A site has
/// 1 to 64 own cells and at most 64 outside cells, a cell 1 to 4 TRX, and a timeslot is a number from 0 to 7
/// (TS 45.002 clause 4.3.2). Timeslot 0 of the first TRX carries the cell's broadcast channels (TS 45.002 clause 7) and
/// never traffic. Every own cell has a traffic channel.
#[derive(Debug, Drop)]
pub struct Site<A: Allocator = Global> {
    tables: Box<Tables, A>,
}

impl<A: Allocator> Model for Site<A> {
    ghost use Rattle.cell_table.specs.Site.{SiteView, IsSite};

    ghost Value = { SiteView };

    ghost view = { λ a. a.tables.value };

    ghost invariant = { λ a. IsSite a.tables.value };
}

/// Two sites are equal where every key says the same in both, entry by entry: all that a contract sees of a site.
/// Where their memory lies doesn't count. Takes no memory.
impl<A: Allocator> PartialEq for Site<A> {
    ghost eq = { same_site };

    ghost laws = { Prim.search (comparing, rules) depth 15 };

    fn eq(&self, other: &Site<A>) -> bool
        ensures value { result ≡ same_site self.now other.now }
        ensures same { IsTrue result ↔ (self.now ≡ other.now) }
    {
        *self.tables == *other.tables
    }
}

impl<A: Allocator> Eq for Site<A> {
    ghost laws = { Prim.search (comparing, rules) depth 15 };
}

impl<A: Allocator + Copy> Site<A> {
    /// Reads a site file, a TOML text with these keys; any other key is ignored.
    ///
    /// - A table `handover`: `window` (1 to 32 reports), `margin` and `minimum` (0 to 63 each).
    /// - An array `cell` of 1 to 64 tables: `lac` and `ci` (0 to 65535), `bcch` (0 to 1023), `ncc` and `bcc` (0 to 7),
    ///   `power` (0 to 31), `ba` (at most 32 carriers, 0 to 1023 each), and `trx`, an array of 1 to 4 tables with
    ///   `arfcn` (0 to 1023; in the first it is the cell's `bcch`), `tch` (timeslots 0 to 7, but not 0 in the first) and
    ///   `half` (those of `tch` that also carry half-rate channels). `half` may be absent.
    /// - An array `outside` of at most 64 tables, with `lac`, `ci`, `bcch`, `ncc` and `bcc` as in `cell`. It may be
    ///   absent.
    ///
    /// The fault is the first check that fails: TOML, the keys in the order above (`cell` cell by cell, `trx` TRX by
    /// TRX), what may stand once only, each kind looked for over the whole file in the order of [`What`](crate::What),
    /// and a cell without traffic channel.
    ///
    /// TOML is read in the memory of `scratch`, and the document is read by [`Site::of_document`]. `NoMemory` is answered
    /// where memory of `scratch` or of `alloc` is refused. A blank text, of white space and comments alone, takes none: it
    /// lacks `handover`.
    pub fn read(alloc: A, scratch: Global, text: &str) -> Result<Site<A>, SiteFault>
        ensures described { IfOk result (λ site. read_site text.now ≡ Ok site) }
        ensures refused { IfErr result (λ fault. fault ≢ SiteFault.NoMemory →
            read_site text.now ≡ Err fault) }
        ensures blank { IsBlankFile text.now → result ≡ Err (SiteFault.Missing Key.Handover) }
    {
        match toml::table_from_str(scratch, text) {
            Ok(document) => Site::of_document(alloc, &Value::Table(document)),
            Err(fault) if fault.is_memory() => Err(SiteFault::NoMemory),
            Err(_) => Err(SiteFault::Toml),
        }
    }

    /// Reads the document that a site file is, by the checks of [`Site::read`] after TOML itself.
    ///
    /// Memory of `alloc` is asked for in one piece, once the document is known to describe a site: `NoMemory` is
    /// answered to no other.
    #[tactic(auto, unfolding(crate::specs::SiteFile::site_of))]
    pub fn of_document(alloc: A, document: &Value) -> Result<Site<A>, SiteFault>
        ensures described { IfOk result (λ site. site_of (view document.now) ≡ Ok site) }
        ensures refused { IfErr result (λ fault. fault ≢ SiteFault.NoMemory →
            site_of (view document.now) ≡ Err fault) }
        ensures memory { result ≡ Err SiteFault.NoMemory →
            is_ok (site_of (view document.now)) ≡ true }
    {
        let tables = tables_of(document)?;
        Ok(site_of_tables(alloc, tables)?)
    }

    /// The number of own cells, 1 to 64. Its contract also says what holds of every site.
    pub fn cells(&self) -> u8
        ensures value { result ≡ length self.now.cells }
        ensures limits { IsSite self.now }
        ensures traffic { TrafficLiesWithin self.now }
    {
        self.tables.cells.len() as u8
    }

    /// The number of outside cells, at most 64.
    pub fn outside_cells(&self) -> u8
        ensures value { result ≡ length self.now.outside }
    {
        self.tables.outside.len() as u8
    }

    /// `window`: how many reports a window has.
    pub fn window(&self) -> u8
        ensures value { result ≡ self.now.handover.window }
    {
        self.tables.handover.window
    }

    /// `margin`: by how many levels a neighbour has to be better.
    pub fn margin(&self) -> u8
        ensures value { result ≡ self.now.handover.margin }
    {
        self.tables.handover.margin
    }

    /// `minimum`: the least level of a neighbour.
    pub fn minimum(&self) -> u8
        ensures value { result ≡ self.now.handover.minimum }
    {
        self.tables.handover.minimum
    }

    /// What identifies a cell, own or outside.
    fn identity(&self, cell: u8) -> Option<CellIdentity>
        ensures value { result ≡ identity_at self.now cell }
    {
        identity_in(&self.tables, cell)
    }

    /// `lac` of a cell, own or outside: its location area code; `None` if there is no such cell.
    pub fn lac(&self, cell: u8) -> Option<u16>
        ensures value { result ≡ option_map (λ c. c.lac) (identity_at self.now cell) }
    {
        Some(self.identity(cell)?.lac)
    }

    /// `ci` of a cell, own or outside: its cell identity; `None` if there is no such cell.
    pub fn ci(&self, cell: u8) -> Option<u16>
        ensures value { result ≡ option_map (λ c. c.ci) (identity_at self.now cell) }
    {
        Some(self.identity(cell)?.ci)
    }

    /// `bcch` of a cell, own or outside: its BCCH carrier; `None` if there is no such cell.
    pub fn bcch(&self, cell: u8) -> Option<u16>
        ensures value { result ≡ option_map (λ c. c.bcch) (identity_at self.now cell) }
    {
        Some(self.identity(cell)?.bcch)
    }

    /// `ncc` of a cell, own or outside: its network colour code; `None` if there is no such cell.
    pub fn ncc(&self, cell: u8) -> Option<u8>
        ensures value { result ≡ option_map (λ c. c.ncc) (identity_at self.now cell) }
    {
        Some(self.identity(cell)?.ncc)
    }

    /// `bcc` of a cell, own or outside: its base station colour code; `None` if there is no such cell.
    pub fn bcc(&self, cell: u8) -> Option<u8>
        ensures value { result ≡ option_map (λ c. c.bcc) (identity_at self.now cell) }
    {
        Some(self.identity(cell)?.bcc)
    }

    /// `power` of an own cell: the power level that mobiles begin with (TS 45.005 clause 4.1.1); `None` if there is no such
    /// cell.
    pub fn power(&self, cell: u8) -> Option<u8>
        ensures value { result ≡ option_map (λ c. c.power) (slice_get self.now.cells cell) }
    {
        Some(self.tables.cells.get(cell as usize)?.power)
    }

    /// `ba` of an own cell: its BA list, the BCCH carriers of its neighbours (TS 44.018 clause 10.5.2.22), in the site
    /// file's order; `None` if there is no such cell.
    pub fn ba(&self, cell: u8) -> Option<&[u16]>
        ensures value { option_map (λ found. found.now) result ≡
            option_map (λ c. c.ba) (slice_get self.now.cells cell) }
    {
        let found = self.tables.cells.get(cell as usize)?;
        Some(found.ba.as_slice())
    }

    /// The number of TRX of an own cell, 1 to 4; `None` if there is no such cell.
    pub fn trx(&self, cell: u8) -> Option<u8>
        ensures count { result ≡ option_map (λ c. length c.trx) (slice_get self.now.cells cell) }
    {
        Some(self.tables.cells.get(cell as usize)?.trx.len() as u8)
    }

    /// `arfcn` of a TRX of an own cell: its carrier; `None` if there is no such cell or TRX.
    pub fn arfcn(&self, cell: u8, trx: u8) -> Option<u16>
        ensures value { result ≡ option_map (λ t. t.arfcn) (trx_at self.now cell trx) }
    {
        Some(trx_in(&self.tables, cell, trx)?.arfcn)
    }

    /// `tch` of a TRX of an own cell: its traffic timeslots, in the site file's order; `None` if there is no such cell or
    /// TRX.
    pub fn tch(&self, cell: u8, trx: u8) -> Option<&[u8]>
        ensures value { option_map (λ found. found.now) result ≡
            option_map (λ t. t.tch) (trx_at self.now cell trx) }
    {
        let found = trx_in(&self.tables, cell, trx)?;
        Some(found.tch.as_slice())
    }

    /// `half` of a TRX of an own cell: those of its traffic timeslots that also carry half-rate channels (TS 45.002 clause
    /// 6.4.1), in the site file's order; `None` if there is no such cell or TRX.
    pub fn half(&self, cell: u8, trx: u8) -> Option<&[u8]>
        ensures value { option_map (λ found. found.now) result ≡
            option_map (λ t. t.half) (trx_at self.now cell trx) }
    {
        let found = trx_in(&self.tables, cell, trx)?;
        Some(found.half.as_slice())
    }

    /// Whether the site names the channel as one that carries traffic. Such a channel lies in one
    /// of the cells 0 to 63, on TRX 0 to 3 and timeslot 0 to 7.
    pub fn is_traffic(&self, chan: ChanId) -> bool
        ensures value { result ≡ is_traffic self.now chan }
        ensures limits { result ≡ true → IsWithinLimits chan }
    {
        match trx_in(&self.tables, chan.cell, chan.trx) {
            Some(found) => slots_with(found, chan.sub).contains(&chan.tn),
            None => false,
        }
    }

    /// The cell, own or outside, with this location area code and cell identity. There is at most one; `None` if there is
    /// none.
    pub fn cell_of(&self, lac: u16, ci: u16) -> Option<u8>
        ensures value { (cell : ℕ) → (result ≡ Some cell) ↔ IsCellOf self.now lac ci cell }
    {
        cell_with(&self.tables, lac, ci)
    }

    /// The cell, own or outside, that a mobile in an own cell names by a position in its neighbour list and a base station
    /// identity code; `None` if there is no such cell, position, or cell of that code.
    ///
    /// The neighbour list has the carriers of `ba` in ascending order, but carrier 0 last (TS 44.018 clause 10.5.2.20);
    /// positions are counted from 0. The cell's `bcch` is the carrier at the position, its `ncc` the code's high and
    /// its `bcc` the low three bits (TS 23.003 clause 4.3.2); codes are 0 to 63, and no cell has one above.
    pub fn by_bsic(&self, cell: u8, position: u8, bsic: u8) -> Option<u8>
        ensures value { (named : ℕ) → (result ≡ Some named) ↔
            IsNamedCell self.now cell position bsic named }
    {
        neighbour_named(&self.tables, cell, position, bsic)
    }

    /// The place of a channel, counted from 0, in the list of the site's traffic channels. They are listed by cell, TRX and
    /// timeslot, and then the whole timeslot, its lower and its upper half. `None` for any other channel.
    pub fn index_of(&self, chan: ChanId) -> Option<usize>
        ensures value { result ≡ index_of self.now chan }
    {
        if !self.is_traffic(chan) {
            return None;
        }
        Some(channels_before(self.tables.cells.as_slice(), chan))
    }

    /// The channel at a place of this list, which [`Site::index_of`] answers for the channel. `None` if the list has no such
    /// place.
    pub fn chan_at(&self, index: usize) -> Option<ChanId>
        ensures value { result ≡ slice_get (channels self.now) index }
        ensures inverse { (chan : ChanId) →
            (result ≡ Some chan) ↔ (index_of self.now chan ≡ Some index) }
    {
        channel_of_cells(self.tables.cells.as_slice(), 0, index)
    }

    /// How many traffic channels the site has.
    pub fn channels(&self) -> usize
        ensures count { result ≡ length (channels self.now) }
    {
        cell_sizes(self.tables.cells.as_slice())
    }

    /// The timeslots of a TRX of an own cell that carry traffic with this part of them, as the bits of an octet: timeslot
    /// `n`, 0 to 7, is the bit of value 2 to the power `n`. 0 if there is no such cell or TRX.
    pub fn traffic_mask(&self, cell: u8, trx: u8, sub: Sub) -> u8
        ensures timeslots { (tn : ℕ) → has result tn ≡
            is_traffic self.now (record { cell = cell; trx = trx; tn = tn; sub = sub }) }
        ensures none { trx_at self.now cell trx ≡ None → result ≡ 0 }
    {
        match trx_in(&self.tables, cell, trx) {
            Some(found) => mask_of(slots_with(found, sub)),
            None => 0,
        }
    }
}

/// What a document says.
fn tables_of(document: &Value) -> Result<Tables, SiteFault>
    ensures read { result ≡ site_of (view document.now) }
{
    kept_tables(document)
}

/// What a document says, by what is kept: of nine timeslots of a TRX two are the same, so that those after them tell nothing new.
#[tactic(auto, unfolding(crate::specs::Kept::kept_site))]
fn kept_tables(document: &Value) -> Result<Tables, SiteFault>
    ensures read { result ≡ kept_site (view document.now) }
{
    let tables = Tables {
        handover: handover_at(document)?,
        cells: cells_of(document)?,
        outside: outside_of(document)?,
    };
    match broken_rule(&tables) {
        Some(fault) => Err(fault),
        None => Ok(tables),
    }
}

/// Puts the tables of a site into memory.
fn site_of_tables<A: Allocator + Copy>(alloc: A, tables: Tables) -> Result<Site<A>, AllocError>
    requires { IsSite tables }
    ensures { IfOk result (λ site. site ≡ tables) }
{
    let tables = Box::new(alloc, tables).map_err(AllocError::from)?;
    Ok(Site { tables })
}

/// What identifies a cell, own or outside.
fn identity_in(tables: &Tables, cell: u8) -> Option<CellIdentity>
    ensures value { result ≡ identity_at tables.now cell }
{
    if cell < FIRST_OUTSIDE {
        Some(tables.cells.get(cell as usize)?.identity)
    } else {
        Some(*tables.outside.get((cell - FIRST_OUTSIDE) as usize)?)
    }
}

/// A TRX of an own cell.
fn trx_in(tables: &Tables, cell: u8, trx: u8) -> Option<&Trx>
    ensures value { option_map (λ found. found.now) result ≡ trx_at tables.now cell trx }
{
    let found = tables.cells.get(cell as usize)?;
    found.trx.get(trx as usize)
}

/// The first cell, own or outside, with a location area code and cell identity.
fn cell_with(tables: &Tables, lac: u16, ci: u16) -> Option<u8>
    ensures value { result ≡ first_cell (has_codes lac ci) tables.now }
{
    match own_cell_with(tables.cells.as_slice(), lac, ci) {
        Some(cell) => Some(cell as u8),
        None => {
            let place = outside_cell_with(tables.outside.as_slice(), lac, ci)?;
            Some(FIRST_OUTSIDE + place as u8)
        }
    }
}

/// The timeslots of a TRX that carry traffic with this part of them.
fn slots_with(trx: &Trx, sub: Sub) -> &[u8]
    ensures value { result.now ≡ slots_with sub trx.now }
{
    match sub {
        Sub::Full => trx.tch.as_slice(),
        Sub::Half0 | Sub::Half1 => trx.half.as_slice(),
    }
}

/// The first own cell with a location area code and cell identity.
fn own_cell_with(cells: &[Cell], lac: u16, ci: u16) -> Option<usize>
    ensures place { result ≡ position (λ c. has_codes lac ci c.identity) cells.now }
{
    cells
        .iter()
        .position(|cell| cell.identity.lac == lac && cell.identity.ci == ci)
}

/// The first outside cell with a location area code and cell identity.
fn outside_cell_with(cells: &[CellIdentity], lac: u16, ci: u16) -> Option<usize>
    ensures place { result ≡ position (has_codes lac ci) cells.now }
{
    cells
        .iter()
        .position(|cell| cell.lac == lac && cell.ci == ci)
}
