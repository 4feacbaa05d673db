//! Laws of what a site file says: their clauses are the statements, and their bodies are empty.
ghost use Rattle.std.specs.Prelude.{◌≡◌};
ghost use Rattle.cell_table.specs.Laws.{NineNameOneTwice, SameSitesAreEqual, CodesNameOneCell, ReportsNameOneCell, PositionsAreCounted};
ghost use Rattle.cell_table.specs.Limits.{most_cells, most_outside, first_outside, most_trx, timeslots_of_trx, most_neighbours, most_reports, most_level, most_code, most_carrier, most_colour, most_power};

use crate::limits::{
    FIRST_OUTSIDE, MOST_CARRIER, MOST_CELLS, MOST_CODE, MOST_COLOUR, MOST_LEVEL, MOST_NEIGHBOURS,
    MOST_OUTSIDE, MOST_POWER, MOST_REPORTS, MOST_TRX, TIMESLOTS_OF_TRX,
};

/// The limits of the code are those of the definitions.
pub fn limits_are_those_defined()
    ensures cells { MOST_CELLS ≡ most_cells }
    ensures outside { MOST_OUTSIDE ≡ most_outside }
    ensures first { FIRST_OUTSIDE ≡ first_outside }
    ensures trx { MOST_TRX ≡ most_trx }
    ensures timeslots { TIMESLOTS_OF_TRX ≡ timeslots_of_trx }
    ensures neighbours { MOST_NEIGHBOURS ≡ most_neighbours }
    ensures reports { MOST_REPORTS ≡ most_reports }
    ensures level { MOST_LEVEL ≡ most_level }
    ensures code { MOST_CODE ≡ most_code }
    ensures carrier { MOST_CARRIER ≡ most_carrier }
    ensures colour { MOST_COLOUR ≡ most_colour }
    ensures power { MOST_POWER ≡ most_power }
{}

/// Among nine timeslots one is repeated. So no site has more than eight on a TRX.
pub fn nine_timeslots_name_one_twice()
    ensures law { NineNameOneTwice }
{}

/// `==` of two sites says whether they are equal in every key.
pub fn same_sites_are_equal()
    ensures law { SameSitesAreEqual }
{}

/// No two cells of a site, own or outside, have the same location area code and cell identity: what
/// [`Site::cell_of`](crate::Site::cell_of) answers is the one cell that has them.
pub fn codes_name_one_cell()
    ensures law { CodesNameOneCell }
{}

/// No position in a neighbour list and base station identity code name two cells: what
/// [`Site::by_bsic`](crate::Site::by_bsic) answers is the one cell that they name.
pub fn reports_name_one_cell()
    ensures law { ReportsNameOneCell }
{}

/// The position of a carrier in the sorted neighbour list is the number of carriers of the BA list before it.
pub fn positions_are_counted()
    ensures law { PositionsAreCounted }
{}
