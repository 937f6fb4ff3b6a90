// The typed blocks of a listing in text: document 01, "Sheet of examples". Each function puts its text where the
// page goes on.
#![tactic(auto)]

ghost use Rattle.std.specs.Prelude.{◌≡◌};
ghost use Rattle.block.specs.declared.Block.TheVariants.{Measured, Loss, Discard, Effective, Streams};
ghost use Rattle.block.specs.Fields.{fields_of};
ghost use Rattle.text.specs.Page.{put_in};
ghost use Rattle.fields.specs.Fields.{counts, pieces_text, typed_text};

use block::{Block, DiscardSummary, EffectiveSummary, LossSummary, Measurement, StreamCounts};
use labels::{put_figure, put_number, put_source};
use text::Page;

// A typed block after its number.
pub fn put_typed(page: &mut Page, block: Block)
    ensures { page.new ≡ put_in page.old (typed_text block) }
{
    match block {
        Block::Measured(m) => put_measurement(page, m),
        Block::Loss(l) => put_loss(page, l),
        Block::Discard(d) => put_discard(page, d),
        Block::Effective(e) => put_effective(page, e),
        Block::Streams(t) => put_streams(page, t),
    }
}

fn put_measurement(page: &mut Page, m: Measurement)
    ensures { page.new ≡ put_in page.old (typed_text (Measured m)) }
{
    put_source(page, b" meas source ", m.source);
    put_number(page, b" first ", m.first as u64);
    put_number(page, b" efirst ", m.extended_first as u64);
    put_number(page, b" elast ", m.extended_last as u64);
    put_number(page, b" interval ", m.interval as u64);
    put_number(page, b" seconds ", m.seconds as u64);
    put_number(page, b" fraction ", m.fraction as u64);
}

fn put_loss(page: &mut Page, l: LossSummary)
    ensures { page.new ≡ put_in page.old (typed_text (Loss l)) }
{
    put_source(page, b" loss source ", l.source);
    put_number(page, b" i ", l.flag as u64);
    put_figure(page, b" burst ", l.burst_rate);
    put_figure(page, b" gap ", l.gap_rate);
    put_figure(page, b" mean ", l.burst_mean);
    put_figure(page, b" var ", l.burst_variance);
}

fn put_discard(page: &mut Page, d: DiscardSummary)
    ensures { page.new ≡ put_in page.old (typed_text (Discard d)) }
{
    put_source(page, b" discard source ", d.source);
    put_number(page, b" i ", d.flag as u64);
    put_figure(page, b" burst ", d.burst_rate);
    put_figure(page, b" gap ", d.gap_rate);
}

fn put_effective(page: &mut Page, e: EffectiveSummary)
    ensures { page.new ≡ put_in page.old (typed_text (Effective e)) }
{
    put_source(page, b" eli source ", e.source);
    put_number(page, b" index ", e.index as u64);
}

fn put_streams(page: &mut Page, t: StreamCounts)
    ensures { page.new ≡ put_in page.old (typed_text (Streams t)) }
{
    let covered = block::packets_covered(t.begin, t.end);
    put_source(page, b" ts source ", t.source);
    put_number(page, b" begin ", t.begin as u64);
    put_number(page, b" end ", t.end as u64);
    put_number(page, b" packets ", covered as u64);
    put_number(page, b" streams ", t.streams as u64);
    page.put(b" counts");
    put_counts(page, t);
}

// The eight counts, in document 004's order.
fn put_counts(page: &mut Page, t: StreamCounts)
    ensures { page.new ≡ put_in page.old (pieces_text (fields_of (Streams t)) counts) }
{
    put_number(page, b" ", t.sync_losses as u64);
    put_number(page, b" ", t.sync_byte_errors as u64);
    put_number(page, b" ", t.continuity_errors as u64);
    put_number(page, b" ", t.transport_errors as u64);
    put_number(page, b" ", t.pcr_errors as u64);
    put_number(page, b" ", t.pcr_repetition_errors as u64);
    put_number(page, b" ", t.pcr_discontinuity_errors as u64);
    put_number(page, b" ", t.pts_errors as u64);
}
