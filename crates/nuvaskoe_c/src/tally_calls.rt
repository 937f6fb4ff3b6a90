// The exported calls of crate ffi_tally.
// Made by tools/boundary.py from the Rattle source; not edited by hand.
ghost use Rattle.std.specs.Prelude.{◌≡◌};
ghost use Rattle.trace.specs.Events.{event_in};
ghost use Rattle.ffi_tally.specs.Answers.{tally_in};
ghost use Rattle.ffi_tally.specs.Calls.{open_by, take_by, close_by};

use ffi_figures::Figured;
use ffi_tally::{Tallied, TallyNumbers};

// As ffi_tally::nuvaskoe_tally_open.
#[unsafe(no_mangle)]
pub extern "C" fn nuvaskoe_tally_open(gmin: u32, spacing: u32, event: u32) -> Tallied
    ensures { result ≡ open_by gmin spacing (event_in event) }
{
    ffi_tally::nuvaskoe_tally_open(gmin, spacing, event)
}

// As ffi_tally::nuvaskoe_tally_take.
#[unsafe(no_mangle)]
pub extern "C" fn nuvaskoe_tally_take(tally: TallyNumbers, packet: u8) -> Tallied
    ensures { result ≡ take_by tally packet (tally_in tally) }
{
    ffi_tally::nuvaskoe_tally_take(tally, packet)
}

// As ffi_tally::nuvaskoe_tally_close.
#[unsafe(no_mangle)]
pub extern "C" fn nuvaskoe_tally_close(tally: TallyNumbers) -> Figured
    ensures { result ≡ close_by (tally_in tally) }
{
    ffi_tally::nuvaskoe_tally_close(tally)
}
