// The figures of a whole trace in one call, and the blocks 17 and 18 that carry figures: document 01, "The trace
// and its figures"; RFC 7004, sections 3.1 and 3.2. A block that was measured is made from its trace or its tally, so
// that a 17 has the figures of lost packets and an 18 those of discarded ones, and no block those of either.
#![tactic(auto)]

ghost use Rattle.std.specs.Prelude.{◌≡◌};
ghost use Rattle.trace.specs.declared.Event.TheVariants.{Lost, Discarded};
ghost use Rattle.tally.specs.Tally.{close_of};
ghost use Rattle.figures.specs.Figures.{figures_in, loss_block, discard_block, summary_of};

use block::{DiscardSummary, LossSummary};
use bursts::Figures;
use refusal::Refusal;
use tally::Tally;
use trace::Event;

// A block that was measured, of the kind of its event.
#[derive(Clone, Copy)]
pub enum Summary {
    Loss(LossSummary),
    Discard(DiscardSummary),
}

// The figures of a trace, with the events of this kind.
#[tactic(auto, using(crate::proofs::Whole::of_closed, crate::proofs::Whole::of_refused))]
pub fn of_trace(trace: &[u8], gmin: u32, spacing: u32, event: Event) -> Result<Figures, Refusal>
    ensures { result ≡ figures_in gmin spacing event trace.now }
{
    tally::of_trace(trace, gmin, spacing, event)?.close()
}

// Block 17 of a trace: the figures of its lost packets.
pub fn loss_of_trace(
    trace: &[u8],
    gmin: u32,
    spacing: u32,
    source: u32,
    flag: u8,
) -> Result<Summary, Refusal>
    ensures { result ≡ summary_of Lost source flag (figures_in gmin spacing Lost trace.now) }
{
    let lost = of_trace(trace, gmin, spacing, Event::Lost);
    summary_of(Event::Lost, source, flag, lost)
}

// Block 18 of a trace: the figures of its discarded packets.
// A call of its own: one for both would take the event too, a sixth parameter, of which one value has no block.
pub fn discard_of_trace(
    trace: &[u8],
    gmin: u32,
    spacing: u32,
    source: u32,
    flag: u8,
) -> Result<Summary, Refusal>
    ensures { result ≡ summary_of Discarded source flag (figures_in gmin spacing Discarded trace.now) }
{
    let discarded = of_trace(trace, gmin, spacing, Event::Discarded);
    summary_of(Event::Discarded, source, flag, discarded)
}

// The block of a tally: 17 of one that counts lost packets, 18 of one that counts discarded ones, none of one that counts either.
pub fn of_tally(tally: Tally, source: u32, flag: u8) -> Result<Summary, Refusal>
    ensures { result ≡ summary_of tally.event source flag (close_of tally) }
{
    summary_of(tally.event, source, flag, tally.close())
}

// The block that an event's figures go into.
fn summary_of(
    event: Event,
    source: u32,
    flag: u8,
    measured: Result<Figures, Refusal>,
) -> Result<Summary, Refusal>
    ensures { result ≡ summary_of event source flag measured }
{
    match event {
        Event::Lost => measured.map(|figures| Summary::Loss(loss_block(figures, source, flag))),
        Event::Discarded => {
            measured.map(|figures| Summary::Discard(discard_block(figures, source, flag)))
        }
        Event::Either => Err(Refusal::Setting),
    }
}

// Block 17 with these figures, wherever they come from. One call a block: the two are structs of the C interface with fields of
// their own.
pub fn loss_block(lost: Figures, source: u32, flag: u8) -> LossSummary
    ensures { result ≡ loss_block lost source flag }
{
    LossSummary {
        flag,
        source,
        burst_rate: lost.burst_rate,
        gap_rate: lost.gap_rate,
        burst_mean: lost.burst_mean,
        burst_variance: lost.burst_variance,
    }
}

// Block 18 with these rates; it has no mean and no variance.
pub fn discard_block(discarded: Figures, source: u32, flag: u8) -> DiscardSummary
    ensures { result ≡ discard_block discarded source flag }
{
    DiscardSummary {
        flag,
        source,
        burst_rate: discarded.burst_rate,
        gap_rate: discarded.gap_rate,
    }
}
