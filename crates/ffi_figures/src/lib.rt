// Burst and gap figures of a trace, and their blocks, at the boundary to C. An event is known by its number; any other
// number is refusal 15.
#![tactic(auto)]

ghost use Rattle.std.specs.Prelude.{◌≡◌};
ghost use Rattle.trace.specs.Events.{event_in};
ghost use Rattle.figures.specs.Figures.{loss_block, discard_block};
ghost use Rattle.ffi_figures.specs.Answers.{figures_out, figures_by};

use block::{DiscardSummary, LossSummary, UNAVAILABLE};
use bursts::Figures;
use ffi_answer::{NONE, RefusalFields};
use refusal::Refusal;
use trace::Event;

// The answer of a call that measures.
// C: nuvaskoe_figured
#[repr(C)]
#[derive(Clone, Copy)]
pub struct Figured {
    pub refusal: RefusalFields,
    pub figures: Figures, // all unavailable where refused
}

// Of a refused call: four zeros would read as a line without loss.
pub const NO_FIGURES: Figures = Figures {
    burst_rate: UNAVAILABLE,
    gap_rate: UNAVAILABLE,
    burst_mean: UNAVAILABLE,
    burst_variance: UNAVAILABLE,
};

impl From<Result<Figures, Refusal>> for Figured {
    ghost from_gives = { λ measured fields. fields ≡ figures_out measured };

    fn from(measured: Result<Figures, Refusal>) -> Figured {
        match measured {
            Ok(figures) => Figured {
                refusal: NONE,
                figures,
            },
            Err(why) => Figured {
                refusal: why.into(),
                figures: NO_FIGURES,
            },
        }
    }
}

// The figures of a whole trace: those of a tally that took all its packets. Refusals, in this order: 15, 10, 9 (placed
// at the index of the first byte above 2).
#[unsafe(no_mangle)]
pub extern "C" fn nuvaskoe_figures(trace: &[u8], gmin: u32, spacing: u32, event: u32) -> Figured
    ensures { result ≡ figures_by gmin spacing trace.now (event_in event) }
{
    Event::try_from(event)
        .and_then(|kind| figures::of_trace(trace, gmin, spacing, kind))
        .into()
}

// The block 17 with these figures, source and interval flag, each as given. Nothing looks at where
// the figures come from: a block that was measured comes from nuvaskoe_loss_of_trace or nuvaskoe_tally_block.
#[unsafe(no_mangle)]
pub extern "C" fn nuvaskoe_loss_block(figures: Figures, source: u32, flag: u8) -> LossSummary
    ensures { result ≡ loss_block figures source flag }
{
    figures::loss_block(figures, source, flag)
}

// The block 18 with these rates, in the same way.
#[unsafe(no_mangle)]
pub extern "C" fn nuvaskoe_discard_block(figures: Figures, source: u32, flag: u8) -> DiscardSummary
    ensures { result ≡ discard_block figures source flag }
{
    figures::discard_block(figures, source, flag)
}
