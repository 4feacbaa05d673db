//! The contents of a site: tables of fixed capacity, which take no memory of their own.
ghost use Rattle.std.specs.Prelude.{◌≡◌, ◌↔◌, IsTrue};
ghost use Rattle.std.proofs.Common.{rules};
ghost use Rattle.std.specs.Cmp.Rules.{comparing};
ghost use Rattle.cell_table.specs.Same.{same_trx, same_cell, same_site};

use crate::limits::{MOST_CELLS, MOST_NEIGHBOURS, MOST_OUTSIDE, MOST_TRX};
use arrayvec::ArrayVec;
use std::marker::Model;

/// When a neighbour is a candidate for a handover.
#[derive(Clone, Copy, Debug, PartialEq, Eq)]
pub struct HandoverRule {
    /// Reports in a window, 1 to 32.
    pub window: u8,
    /// By how many steps of RXLEV (TS 45.008 clause 8.1.4) a neighbour has to be better on average over the window, 0 to
    /// 63.
    pub margin: u8,
    /// The least RXLEV of a neighbour on average over the window, 0 to 63.
    pub minimum: u8,
}

/// What identifies a cell, own or outside.
#[derive(Clone, Copy, Debug, Default, PartialEq, Eq)]
pub struct CellIdentity {
    /// Location area code (TS 23.003 clause 4.1).
    pub lac: u16,
    /// Cell identity (TS 23.003 clause 4.3.1).
    pub ci: u16,
    /// BCCH carrier, an ARFCN from 0 to 1023 (TS 45.005 clause 2).
    pub bcch: u16,
    /// Network colour code, 0 to 7 (TS 23.003 clause 4.3.2).
    pub ncc: u8,
    /// Base station colour code, 0 to 7 (TS 23.003 clause 4.3.2).
    pub bcc: u8,
}

/// One TRX of an own cell.
#[derive(Debug, Default, Drop)]
pub struct Trx {
    pub arfcn: u16,
    pub tch: ArrayVec<u8, 9>,
    pub half: ArrayVec<u8, 9>,
}

impl Model for Trx {
    ghost use Rattle.cell_table.specs.Views.{TrxView};

    ghost Value = { TrxView };

    ghost view = { λ a. record { arfcn = a.arfcn; tch = a.tch.items; half = a.half.items } };
}

impl PartialEq for Trx {
    ghost eq = { same_trx };

    ghost laws = { Prim.search (comparing, rules) depth 9 };

    fn eq(&self, other: &Trx) -> bool {
        self.arfcn == other.arfcn
            && self.tch.as_slice() == other.tch.as_slice()
            && self.half.as_slice() == other.half.as_slice()
    }
}

impl Eq for Trx {
    ghost laws = { Prim.search (comparing, rules) depth 9 };
}

/// An own cell.
#[derive(Debug, Default, Drop)]
pub struct Cell {
    pub identity: CellIdentity,
    pub power: u8,
    pub ba: ArrayVec<u16, MOST_NEIGHBOURS>,
    pub trx: ArrayVec<Trx, MOST_TRX>,
}

impl Model for Cell {
    ghost use Rattle.cell_table.specs.Views.{CellView};

    ghost Value = { CellView };

    ghost view = { λ a. record {
      identity = a.identity;
      power = a.power;
      ba = a.ba.items;
      trx = a.trx.items;
    } };
}

impl PartialEq for Cell {
    ghost eq = { same_cell };

    ghost laws = { Prim.search (comparing, rules) depth 9 };

    fn eq(&self, other: &Cell) -> bool {
        self.identity == other.identity
            && self.power == other.power
            && self.ba.as_slice() == other.ba.as_slice()
            && self.trx.as_slice() == other.trx.as_slice()
    }
}

impl Eq for Cell {
    ghost laws = { Prim.search (comparing, rules) depth 9 };
}

/// The cells of a site.
#[derive(Debug, Drop)]
pub struct Tables {
    pub handover: HandoverRule,
    pub cells: ArrayVec<Cell, MOST_CELLS>,
    pub outside: ArrayVec<CellIdentity, MOST_OUTSIDE>,
}

impl Model for Tables {
    ghost use Rattle.cell_table.specs.Views.{SiteView};

    ghost Value = { SiteView };

    ghost view = { λ a. record {
      handover = a.handover;
      cells = a.cells.items;
      outside = a.outside.items;
    } };
}

impl PartialEq for Tables {
    ghost eq = { same_site };

    ghost laws = { Prim.search (comparing, rules) depth 15 };

    fn eq(&self, other: &Tables) -> bool {
        self.handover == other.handover
            && self.cells.as_slice() == other.cells.as_slice()
            && self.outside.as_slice() == other.outside.as_slice()
    }
}

impl Eq for Tables {
    ghost laws = { Prim.search (comparing, rules) depth 15 };
}
