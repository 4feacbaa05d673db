//! The messages that the centre sends.
ghost use Rattle.std.specs.Prelude.{◌≡◌, ◌<◌, ◌≤◌, length, IfOk};
ghost use Rattle.bssmap_messages.specs.Texts.{HasCanonical};
ghost use Rattle.msc_model.specs.Messages.{identifier, request};

use crate::cell::Cell;
use crate::route::Route;
use bssmap_messages::{Bssmap, CellId, Classmark, Octets};
use std::alloc::{AllocError, Allocator};

/// What a cell is called in messages.
fn identifier(cell: Cell) -> CellId
    ensures { result ≡ identifier cell }
{
    CellId {
        lac: Some(cell.lac),
        ci: cell.ci,
    }
}

/// CLEAR COMMAND.
pub fn clear_command<A: Allocator>(cause: u8) -> Bssmap<A>
    ensures value { result ≡ Bssmap.ClearCommand cause }
    ensures canonical { HasCanonical result }
{
    Bssmap::ClearCommand { cause }
}

/// HANDOVER REQUIRED REJECT.
pub fn required_reject<A: Allocator>(cause: u8) -> Bssmap<A>
    ensures value { result ≡ Bssmap.HandoverRequiredReject cause }
    ensures canonical { HasCanonical result }
{
    Bssmap::HandoverRequiredReject { cause }
}

/// HANDOVER COMMAND with the layer 3 information of an acknowledgement.
pub fn command<A: Allocator + Copy>(alloc: A, layer3: &[u8]) -> Result<Bssmap<A>, AllocError>
    requires some { 0 < length layer3.now }
    requires short { length layer3.now ≤ 250 }
    ensures value { IfOk result (λ message. message ≡ Bssmap.HandoverCommand layer3.now) }
    ensures canonical { IfOk result HasCanonical }
{
    Ok(Bssmap::HandoverCommand {
        layer3: Octets::new(alloc, layer3)?,
    })
}

/// HANDOVER REQUEST: speech on a full rate channel, version 1, without ciphering.
pub fn request<A: Allocator + Copy>(alloc: A, route: Route) -> Result<Bssmap<A>, AllocError>
    ensures value { IfOk result (λ message. message ≡ request route) }
    ensures canonical { IfOk result HasCanonical }
{
    Ok(Bssmap::HandoverRequest {
        channel: Octets::new(alloc, &[0x01, 0x08, 0x01])?,
        encryption: Octets::new(alloc, &[0x01])?,
        classmark: Classmark::One(0x33),
        serving: identifier(route.serving),
        target: identifier(route.target),
    })
}
