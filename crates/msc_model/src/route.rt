//! Where a handover leads.
ghost use Rattle.std.specs.Prelude.{◌≡◌};
ghost use Rattle.msc_model.specs.Routes.{route_of};

use crate::cell::{Cell, serving_cell, target_cell};
use bssmap_messages::CellId;

/// The first cell of the site that asks, and the cell of another that is asked for.
#[derive(Clone, Copy)]
pub struct Route {
    pub serving: Cell,
    pub target: Cell,
}

/// Where a handover leads that a controller asks for, if there is such a cell.
pub fn route_of(cells: &[Cell], controller: usize, asked: Option<CellId>) -> Option<Route>
    ensures { result ≡ route_of cells.now controller asked }
{
    let asked = asked?;
    Some(Route {
        serving: serving_cell(cells, controller)?,
        target: target_cell(cells, controller, asked)?,
    })
}
