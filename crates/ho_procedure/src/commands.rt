//! The command that sends a mobile to another channel, and how cells are named on A.
ghost use Rattle.std.specs.Prelude.{◌≡◌, ◌<◌, ◌^◌, Some, false, IfSome, IsSome};
ghost use Rattle.ho_procedure.specs.Messages.{command_to, cell_id_at};
ghost use Rattle.rr_messages.specs.declared.message.Rr.TheVariants.{HandoverCommand};

use bssmap_messages::CellId;
use cell_table::Site;
use channel_fsm::{ChanId, Sub};
use rr_elements::{CellDescription, ChanDescription, Power};
use rr_messages::Rr;
use std::alloc::Allocator;

/// What a command says of a cell.
#[derive(Clone, Copy)]
struct TargetCell {
    bcch: u16,
    ncc: u8,
    bcc: u8,
    power: u8,
}

/// HANDOVER COMMAND (TS 44.018 clause 9.1.15) to a channel of the site, with this reference; `None` if the channel is not a
/// traffic channel of the site.
pub(crate) fn command_to<S: Allocator + Copy>(
    site: &Site<S>,
    target: ChanId,
    reference: u8,
) -> Option<Rr>
    ensures { result ≡ command_to site.now target reference }
{
    let _cells = site.cells();
    if !site.is_traffic(target) {
        return None;
    }
    let cell = TargetCell {
        bcch: site.bcch(target.cell)?,
        ncc: site.ncc(target.cell)?,
        bcc: site.bcc(target.cell)?,
        power: site.power(target.cell)?,
    };
    command(
        cell,
        site.arfcn(target.cell, target.trx)?,
        target.tn,
        target.sub,
        reference,
    )
}

/// HANDOVER COMMAND to a timeslot of a carrier of a cell, or a half of it.
fn command(cell: TargetCell, carrier: u16, tn: u8, sub: Sub, reference: u8) -> Option<Rr>
    requires bcch { cell.bcch < 2 ^ 10 }
    requires ncc { cell.ncc < 2 ^ 3 }
    requires bcc { cell.bcc < 2 ^ 3 }
    requires power { cell.power < 2 ^ 5 }
    requires carrier { carrier < 2 ^ 10 }
    requires timeslot { tn < 2 ^ 3 }
    ensures { result ≡ Some (HandoverCommand
        (record { arfcn = cell.bcch; ncc = cell.ncc; bcc = cell.bcc })
        (record { tn = tn; sub = sub; tsc = cell.bcc; carrier = carrier }) reference
        (record { atc = false; level = cell.power })) }
{
    Some(Rr::HandoverCommand {
        cell: CellDescription::new(cell.bcch, cell.ncc, cell.bcc).ok()?,
        channel: ChanDescription::new(tn, sub, cell.bcc, carrier).ok()?,
        reference,
        power: Power::new(false, cell.power).ok()?,
    })
}

/// A cell, own or outside, as messages on A name it (TS 48.008 clause 3.2.2.17); `None` if the site lacks it.
pub(crate) fn cell_id_at<S: Allocator + Copy>(site: &Site<S>, cell: u8) -> Option<CellId>
    ensures cell { result ≡ cell_id_at site.now cell }
    ensures area { IfSome result (λ cell. IsSome cell.lac) }
{
    Some(CellId {
        lac: Some(site.lac(cell)?),
        ci: site.ci(cell)?,
    })
}
