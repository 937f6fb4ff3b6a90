// The exported calls of crate ffi_summary.
// Made by tools/boundary.py from the Rattle source; not edited by hand.
ghost use Rattle.std.specs.Prelude.{◌≡◌};
ghost use Rattle.trace.specs.declared.Event.TheVariants.{Lost, Discarded};
ghost use Rattle.figures.specs.Figures.{figures_in, summary_of};
ghost use Rattle.ffi_tally.specs.Answers.{tally_in};
ghost use Rattle.ffi_summary.specs.Answers.{summary_out, block_by};

use ffi_summary::SummaryNumbers;
use ffi_tally::TallyNumbers;

// As ffi_summary::nuvaskoe_loss_of_trace.
#[unsafe(no_mangle)]
pub extern "C" fn nuvaskoe_loss_of_trace(
    trace: &[u8],
    gmin: u32,
    spacing: u32,
    source: u32,
    flag: u8,
) -> SummaryNumbers
    ensures { result ≡ summary_out (summary_of Lost source flag (figures_in gmin spacing Lost trace.now)) }
{
    ffi_summary::nuvaskoe_loss_of_trace(trace, gmin, spacing, source, flag)
}

// As ffi_summary::nuvaskoe_discard_of_trace.
#[unsafe(no_mangle)]
pub extern "C" fn nuvaskoe_discard_of_trace(
    trace: &[u8],
    gmin: u32,
    spacing: u32,
    source: u32,
    flag: u8,
) -> SummaryNumbers
    ensures { result ≡ summary_out (summary_of Discarded source flag (figures_in gmin spacing Discarded trace.now)) }
{
    ffi_summary::nuvaskoe_discard_of_trace(trace, gmin, spacing, source, flag)
}

// As ffi_summary::nuvaskoe_tally_block.
#[unsafe(no_mangle)]
pub extern "C" fn nuvaskoe_tally_block(tally: TallyNumbers, source: u32, flag: u8) -> SummaryNumbers
    ensures { result ≡ block_by source flag (tally_in tally) }
{
    ffi_summary::nuvaskoe_tally_block(tally, source, flag)
}
