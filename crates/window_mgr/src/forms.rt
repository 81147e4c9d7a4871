//! Why a call is refused for its names and bytes alone.
ghost use Rattle.std.specs.Prelude.{◌≡◌};
ghost use Rattle.window_mgr.specs.FullDesk.{FullDesk};
ghost use Rattle.window_mgr.specs.Refused.{IsFormRefusal};

use crate::WindowCall;
use crate::draw::is_formal;
use def_iface::{Stocked, WindowStock};
use tb_geom::Refusal;

/// Why a call is refused whatever is open: it names a kind that the stock does not have, or its bytes
/// have not their form.
pub fn form_refusal(call: &WindowCall<'_>, stock: &WindowStock) -> Option<Refusal>
    ensures { (desk : FullDesk) → desk.stock ≡ ⟦<WindowStock as Stocked>⟧.slots stock.now
        → IsFormRefusal call.now desk result }
{
    match call {
        WindowCall::New(window) | WindowCall::NewFloating(window)
            if !stock.has(window.kind.as_slice()) => Some(Refusal::NoSuchName),
        WindowCall::Draw(drawing) => match drawing.operation.judge() {
            Err(refusal) if is_formal(refusal) => Some(refusal),
            _ => None,
        },
        WindowCall::Region(region) => match region.judge() {
            Err(refusal) if is_formal(refusal) => Some(refusal),
            _ => None,
        },
        _ => None,
    }
}
