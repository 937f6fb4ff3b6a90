// The block 17 or 18 of a measurement at the boundary to C: of a trace, or of a tally. A crate of its own, so that the closing
// of a tally keeps one caller in crate ffi_tally and is compiled into it.
#![tactic(auto)]

ghost use Rattle.std.specs.Prelude.{◌≡◌};
ghost use Rattle.trace.specs.declared.Event.TheVariants.{Lost, Discarded};
ghost use Rattle.figures.specs.Figures.{figures_in, summary_of};
ghost use Rattle.ffi_tally.specs.Answers.{tally_in};
ghost use Rattle.ffi_summary.specs.Answers.{summary_out, block_by};

use block::{DiscardSummary, LossSummary};
use ffi_answer::{NONE, RefusalFields};
use ffi_tally::TallyNumbers;
use figures::Summary;
use refusal::Refusal;
use tally::Tally;

// The answer of a call that makes the block of a measurement. A block that is not filled is all 0, and adding it to a
// packet is refused with 16.
// C: nuvaskoe_summary
#[repr(C)]
#[derive(Clone, Copy)]
pub struct SummaryNumbers {
    pub refusal: RefusalFields,
    pub block_type: u32, // NUVASKOE_BLOCK_LOSS or NUVASKOE_BLOCK_DISCARD: the block that is filled; 0 where refused
    pub loss: LossSummary,
    pub discard: DiscardSummary,
}

const NO_LOSS: LossSummary = LossSummary {
    flag: 0,
    source: 0,
    burst_rate: 0,
    gap_rate: 0,
    burst_mean: 0,
    burst_variance: 0,
};

const NO_DISCARD: DiscardSummary = DiscardSummary {
    flag: 0,
    source: 0,
    burst_rate: 0,
    gap_rate: 0,
};

impl From<Result<Summary, Refusal>> for SummaryNumbers {
    ghost from_gives = { λ summary fields. fields ≡ summary_out summary };

    fn from(summary: Result<Summary, Refusal>) -> SummaryNumbers {
        match summary {
            Ok(Summary::Loss(loss)) => SummaryNumbers {
                refusal: NONE,
                block_type: block::LOSS as u32,
                loss,
                discard: NO_DISCARD,
            },
            Ok(Summary::Discard(discard)) => SummaryNumbers {
                refusal: NONE,
                block_type: block::DISCARD as u32,
                loss: NO_LOSS,
                discard,
            },
            Err(why) => SummaryNumbers {
                refusal: why.into(),
                block_type: 0,
                loss: NO_LOSS,
                discard: NO_DISCARD,
            },
        }
    }
}

// The block 17 of a whole trace: the figures of its lost packets, with this source and interval flag. Refusals as of
// nuvaskoe_figures. Adding the block to a packet is not refused with 16 where the flag is 1, 2 or 3.
#[unsafe(no_mangle)]
pub extern "C" fn nuvaskoe_loss_of_trace(
    trace: &[u8],
    gmin: u32,
    spacing: u32,
    source: u32,
    flag: u8,
) -> SummaryNumbers
    ensures { result ≡ summary_out (summary_of Lost source flag (figures_in gmin spacing Lost trace.now)) }
{
    figures::loss_of_trace(trace, gmin, spacing, source, flag).into()
}

// The block 18 of a whole trace: the figures of its discarded packets, in the same way.
#[unsafe(no_mangle)]
pub extern "C" fn nuvaskoe_discard_of_trace(
    trace: &[u8],
    gmin: u32,
    spacing: u32,
    source: u32,
    flag: u8,
) -> SummaryNumbers
    ensures { result ≡ summary_out (summary_of Discarded source flag (figures_in gmin spacing Discarded trace.now)) }
{
    figures::discard_of_trace(trace, gmin, spacing, source, flag).into()
}

// The block of all packets taken, with this source and interval flag: a 17 of a tally that counts lost packets, an 18 of
// one that counts discarded ones. Refusal: 15, also of one that counts either: no block has its events.
#[unsafe(no_mangle)]
pub extern "C" fn nuvaskoe_tally_block(tally: TallyNumbers, source: u32, flag: u8) -> SummaryNumbers
    ensures { result ≡ block_by source flag (tally_in tally) }
{
    Tally::try_from(tally)
        .and_then(|t| figures::of_tally(t, source, flag))
        .into()
}
