// The exported calls of crate ffi_figures.
// Made by tools/boundary.py from the Rattle source; not edited by hand.
ghost use Rattle.std.specs.Prelude.{◌≡◌};
ghost use Rattle.trace.specs.Events.{event_in};
ghost use Rattle.figures.specs.Figures.{loss_block, discard_block};
ghost use Rattle.ffi_figures.specs.Answers.{figures_by};

use block::{DiscardSummary, LossSummary};
use bursts::Figures;
use ffi_figures::Figured;

// As ffi_figures::nuvaskoe_figures.
#[unsafe(no_mangle)]
pub extern "C" fn nuvaskoe_figures(trace: &[u8], gmin: u32, spacing: u32, event: u32) -> Figured
    ensures { result ≡ figures_by gmin spacing trace.now (event_in event) }
{
    ffi_figures::nuvaskoe_figures(trace, gmin, spacing, event)
}

// As ffi_figures::nuvaskoe_loss_block.
#[unsafe(no_mangle)]
pub extern "C" fn nuvaskoe_loss_block(figures: Figures, source: u32, flag: u8) -> LossSummary
    ensures { result ≡ loss_block figures source flag }
{
    ffi_figures::nuvaskoe_loss_block(figures, source, flag)
}

// As ffi_figures::nuvaskoe_discard_block.
#[unsafe(no_mangle)]
pub extern "C" fn nuvaskoe_discard_block(figures: Figures, source: u32, flag: u8) -> DiscardSummary
    ensures { result ≡ discard_block figures source flag }
{
    ffi_figures::nuvaskoe_discard_block(figures, source, flag)
}
