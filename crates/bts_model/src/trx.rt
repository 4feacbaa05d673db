//! The TRX of the controllers.
ghost use Rattle.std.specs.Prelude.{◌≡◌, ◌<◌, ◌++◌, [], map, IfOk, OnOk, IsOk, ◌&&◌};
ghost use Rattle.std.specs.List.{list_any};
ghost use Rattle.bts_model.specs.Trxs.{trx_of, trxs_of_cell, trxs_of_site, trxs_of, is_on};

use crate::place::Place;
use cell_table::Site;
use std::alloc::{AllocError, Allocator};
use std::sync::Arc;

/// A TRX of a cell of a controller: the cell's colour (TS 44.018 clause 10.5.2.2), and the carrier of the TRX.
#[derive(Clone, Copy)]
pub struct Trx {
    pub controller: usize,
    pub cell: u8,
    pub trx: u8,
    pub bcch: u16,
    pub ncc: u8,
    pub bcc: u8,
    pub carrier: u16,
}

/// The channel is one of the TRX.
fn is_on(place: Place, trx: &Trx) -> bool
    ensures { result ≡ is_on place trx.now }
{
    trx.controller == place.controller
        && trx.cell == place.channel.cell
        && trx.trx == place.channel.trx
}

/// The channel is one of one of the TRX.
pub fn has_trx(trxs: &[Trx], place: Place) -> bool
    ensures { result ≡ list_any (is_on place) trxs.now }
{
    trxs.iter().any(|trx| is_on(place, trx))
}

/// All TRX of the sites, by controller, cell and TRX.
pub fn trxs_of<A: Allocator + Copy>(
    alloc: A,
    sites: &[Arc<Site<A>, A>],
) -> Result<Vec<Trx, A>, AllocError>
    ensures trxs { IfOk result (λ trxs. trxs.items ≡ trxs_of (map (λ site. site.value) sites.now)) }
    ensures empty { sites.now ≡ [] → IsOk result }
{
    let mut trxs = Vec::new(alloc);
    for controller in 0..sites.len() {
        push_site(&mut trxs, controller, &sites[controller])?;
    }
    Ok(trxs)
}

fn push_site<A: Allocator + Copy>(
    trxs: &mut Vec<Trx, A>,
    controller: usize,
    site: &Site<A>,
) -> Result<(), AllocError>
    ensures { OnOk result (trxs.new.items ≡ trxs.old.items ++ trxs_of_site controller site.now) }
{
    for cell in 0..site.cells() {
        push_cell(trxs, controller, site, cell)?;
    }
    Ok(())
}

fn push_cell<A: Allocator + Copy>(
    trxs: &mut Vec<Trx, A>,
    controller: usize,
    site: &Site<A>,
    cell: u8,
) -> Result<(), AllocError>
    ensures { OnOk result (trxs.new.items ≡
        trxs.old.items ++ trxs_of_cell controller site.now cell) }
{
    for trx in 0..site.trx(cell).unwrap_or(0) {
        if let Some(found) = trx_of(controller, site, cell, trx) {
            trxs.push(found)?;
        }
    }
    Ok(())
}

fn trx_of<A: Allocator + Copy>(controller: usize, site: &Site<A>, cell: u8, trx: u8) -> Option<Trx>
    ensures { result ≡ trx_of controller site.now cell trx }
{
    Some(Trx {
        controller,
        cell,
        trx,
        bcch: site.bcch(cell)?,
        ncc: site.ncc(cell)?,
        bcc: site.bcc(cell)?,
        carrier: site.arfcn(cell, trx)?,
    })
}
