// Effective loss: document 002 and document 01, "Effective loss". Batches are all runs of B consecutive packets;
// the answer says how many of them hold more than T losses, and which is the first. A loss is what the event counts.
#![tactic(auto)]

ghost use Rattle.std.specs.Prelude.{◌≡◌, ℕ, Bool, ◌+◌, ◌-◌, ◌<◌, ◌≤◌, min, length};
ghost use Rattle.trace.specs.Sum.{bit, count};
ghost use Rattle.trace.specs.Trace.{counted_at, judged, trace_max};
ghost use Rattle.batch.specs.Judging.{judged_for};
ghost use Rattle.batch.specs.Batches.{losses_in, is_over, over_count, first_over};
ghost use Rattle.batch.specs.Stride.{stride};
ghost use Rattle.batch.specs.Forms.{Fitting, At, Passed, Found};
ghost use Rattle.batch.specs.Loss.{loss_of, loss_answer};

use refusal::Refusal;
use trace::{Event, counted};

// The index of a loss of every batch.
pub const FULL_LOSS: usize = 65_535;

// A stride: so many batches one after the other, and as many packets that enter or leave on the way. Their losses fit a
// byte, so that counting them is compiled to many packets a step.
const STRIDE: usize = 64;

// The batches that are looked at: how many packets each has, and how many losses it may hold.
#[derive(Clone, Copy)]
pub struct Batches {
    pub size: usize,
    pub threshold: usize,
}

// The running count: a batch, by the index of its first packet, and its losses.
#[derive(Clone, Copy)]
pub struct Running {
    pub start: usize,
    pub losses: usize,
}

// K batches of N are over the threshold; the index is K / N as a 16-bit fraction, 65,535 for all.
#[derive(Clone, Copy)]
pub struct EffectiveLoss {
    pub over: usize,
    pub batches: usize,
    pub index: u16,
    pub first: Option<usize>,
}

// The effective loss of a trace, with the packets that the event counts as its losses.
#[tactic(auto, unfolding(crate::specs::Loss::loss_answer))]
pub fn effective_loss(
    trace: &[u8],
    batch: u32,
    threshold: u32,
    event: Event,
) -> Result<EffectiveLoss, Refusal>
    ensures { result ≡ loss_answer (judged trace.now) (counted_at event trace.now) (length trace.now) batch threshold }
{
    judge(trace, batch, threshold)?;
    let batches = Batches {
        size: batch as usize,
        threshold: threshold as usize,
    };
    Ok(loss_of(&Bytes { event, trace }, batches))
}

// Judges the settings, then the trace, then the batch against the trace.
pub fn judge(trace: &[u8], batch: u32, threshold: u32) -> Result<(), Refusal>
    ensures { result ≡ judged_for (judged trace.now) (length trace.now) batch threshold }
{
    judge_for(trace::judge(trace), trace.len(), batch, threshold)
}

// The same of an input in any form, by the verdict on it and its number of packets.
#[tactic(auto, unfolding(crate::specs::Judging::judged_for))]
pub fn judge_for(
    verdict: Result<(), Refusal>,
    packets: usize,
    batch: u32,
    threshold: u32,
) -> Result<(), Refusal>
    ensures { result ≡ judged_for verdict packets batch threshold }
{
    if !settings::batch_in_range(batch, threshold) {
        return Err(Refusal::Setting);
    }
    verdict?;
    if packets < batch as usize {
        return Err(Refusal::BatchLength);
    }
    Ok(())
}

// A trace in one of its forms. The search and the count over its batches go through it by these steps, and each form has a way of
// its own to take many packets at once.
pub trait Form {
    // Which packets are losses, and how many packets there are.
    ghost lost: { Self → ℕ → Bool };

    ghost extent: { Self → ℕ };

    // How many packets the trace has.
    fn packets(&self) -> usize
        ensures { result ≡ extent self.now };

    // 1 where packet i is a loss, 0 where not.
    fn loss(&self, i: usize) -> usize
        requires { i < extent self.now }
        ensures { result ≡ bit (lost self.now i) };

    // The losses in the first batch.
    fn first_losses(&self, batches: Batches) -> usize
        requires { Fitting (extent self.now) batches.size batches.threshold }
        ensures { result ≡ losses_in (lost self.now) batches.size 0 };

    // Goes on from a batch that is not over, by strides without one that is.
    fn pass_under(&self, batches: Batches, from: Running) -> Running
        requires { Fitting (extent self.now) batches.size batches.threshold × At (lost self.now) (extent self.now) batches.size from.start from.losses × (from.losses ≤ batches.threshold) }
        ensures { Passed (lost self.now) (extent self.now) batches.size batches.threshold from.start result.start result.losses };

    // How many batches after a batch are over the threshold.
    fn over_after(&self, batches: Batches, from: Running) -> usize
        requires { Fitting (extent self.now) batches.size batches.threshold × At (lost self.now) (extent self.now) batches.size from.start from.losses }
        ensures { result ≡ count (is_over (lost self.now) batches.size batches.threshold) (from.start + 1) (extent self.now - batches.size - from.start) };
}

// The effective loss of an accepted trace in any form. No batch before the first is over, so the count goes on from there.
pub fn loss_of<F: Form>(form: &F, batches: Batches) -> EffectiveLoss
    requires { Fitting (F.extent form.now) batches.size batches.threshold }
    ensures { result ≡ loss_of (F.lost form.now) (F.extent form.now) batches.size batches.threshold }
{
    let all = form.packets() - batches.size + 1;
    let first = first_over(form, batches);
    let over = over_from(form, batches, first);
    EffectiveLoss {
        over: over,
        batches: all,
        index: (over * FULL_LOSS / all) as u16,
        first: first.map(|at| at.start),
    }
}

// The first batch over the threshold. The running count gains the packet that enters and drops the one that leaves. Strides in
// which no batch can be over are passed by; the next goes packet by packet, until a batch is over.
fn first_over<F: Form>(form: &F, batches: Batches) -> Option<Running>
    requires { Fitting (F.extent form.now) batches.size batches.threshold }
    ensures { Found (F.lost form.now) (F.extent form.now) batches.size batches.threshold result }
{
    let last = form.packets() - batches.size;
    let mut start = 0;
    let mut losses = form.first_losses(batches);
    if batches.threshold < losses {
        return Some(Running { start, losses });
    }
    let mut first = None;
    // Each turn begins where the strides that were passed by end, so no range names it.
    'batches: while start < last {
        let passed = form.pass_under(batches, Running { start, losses });
        losses = passed.losses;
        let end = passed.start + STRIDE.min(last - passed.start);
        for k in passed.start..end {
            losses = losses + form.loss(k + batches.size) - form.loss(k);
            if batches.threshold < losses {
                let start = k + 1;
                first = Some(Running { start, losses });
                break 'batches;
            }
        }
        start = end;
    }
    first
}

// How many batches are over the threshold, from the first of them on.
fn over_from<F: Form>(form: &F, batches: Batches, first: Option<Running>) -> usize
    requires { Fitting (F.extent form.now) batches.size batches.threshold × Found (F.lost form.now) (F.extent form.now) batches.size batches.threshold first }
    ensures { result ≡ over_count (F.lost form.now) (F.extent form.now) batches.size batches.threshold }
{
    match first {
        Some(at) => 1 + form.over_after(batches, at),
        None => 0,
    }
}

// A trace of a byte a packet, with the packets that an event counts as its losses.
#[derive(Clone, Copy)]
struct Bytes<'a> {
    event: Event,
    trace: &'a [u8],
}

impl Form for Bytes<'_> {
    ghost lost = { λ s. counted_at s.event s.trace.now };

    ghost extent = { λ s. length s.trace.now };

    fn packets(&self) -> usize {
        self.trace.len()
    }

    fn loss(&self, i: usize) -> usize {
        counted(self.event, self.trace[i])
    }

    // Stride by stride.
    fn first_losses(&self, batches: Batches) -> usize {
        let whole = batches.size / STRIDE;
        let mut losses = 0;
        for k in 0..whole {
            losses += self.losses_among(STRIDE * k, STRIDE);
        }
        losses + self.losses_among(STRIDE * whole, batches.size % STRIDE)
    }

    // By whole strides, as long as what enters cannot take a batch over the threshold. A range would not say where that ends.
    fn pass_under(&self, batches: Batches, from: Running) -> Running {
        let last = self.trace.len() - batches.size;
        let mut start = from.start;
        let mut losses = from.losses;
        while start + STRIDE <= last {
            let entering = self.losses_among(start + batches.size, STRIDE);
            if batches.threshold < losses + entering {
                break;
            }
            losses = losses + entering - self.losses_among(start, STRIDE);
            start += STRIDE;
        }
        Running { start, losses }
    }

    // Stride by stride, and the rest behind the last whole one from where that ends.
    fn over_after(&self, batches: Batches, from: Running) -> usize {
        let last = self.trace.len() - batches.size;
        let mut over = 0;
        let mut start = from.start;
        let mut losses = from.losses;
        while start + STRIDE <= last {
            let entering = self.losses_among(start + batches.size, STRIDE);
            let leaving = self.losses_among(start, STRIDE);
            let at = Running { start, losses };
            over += self.over_in_stride(batches, at, entering, leaving);
            losses = losses + entering - leaving;
            start += STRIDE;
        }
        over + self.over_between(batches, Running { start, losses }, last)
    }
}

impl Bytes<'_> {
    // How many batches of the stride after a batch are over the threshold: none, where what enters cannot take one there; all,
    // where what leaves cannot take one back.
    fn over_in_stride(
        &self,
        batches: Batches,
        from: Running,
        entering: usize,
        leaving: usize,
    ) -> usize
        requires { At (counted_at self.now.event self.now.trace.now) (length self.now.trace.now) batches.size from.start from.losses × (from.start + stride + batches.size ≤ length self.now.trace.now) × (entering ≡ count (counted_at self.now.event self.now.trace.now) (from.start + batches.size) stride) × (leaving ≡ count (counted_at self.now.event self.now.trace.now) from.start stride) }
        ensures { result ≡ count (is_over (counted_at self.now.event self.now.trace.now) batches.size batches.threshold) (from.start + 1) stride }
    {
        if from.losses + entering <= batches.threshold {
            return 0;
        }
        if batches.threshold + leaving < from.losses {
            return STRIDE;
        }
        self.over_between(batches, from, from.start + STRIDE)
    }

    // How many batches after a batch, up to batch `end`, are over the threshold, packet by packet. Nothing here branches on a
    // packet.
    fn over_between(&self, batches: Batches, from: Running, end: usize) -> usize
        requires { At (counted_at self.now.event self.now.trace.now) (length self.now.trace.now) batches.size from.start from.losses × (from.start ≤ end) × (end + batches.size ≤ length self.now.trace.now) }
        ensures { result ≡ count (is_over (counted_at self.now.event self.now.trace.now) batches.size batches.threshold) (from.start + 1) (end - from.start) }
    {
        let mut over = 0;
        let mut losses = from.losses;
        for k in from.start..end {
            losses = losses + self.loss(k + batches.size) - self.loss(k);
            over += (batches.threshold < losses) as usize;
        }
        over
    }

    // The losses among n packets from packet i on, no more than a stride of them.
    fn losses_among(&self, i: usize, n: usize) -> usize
        requires { (n ≤ stride) × (i + n ≤ length self.now.trace.now) }
        ensures { result ≡ count (counted_at self.now.event self.now.trace.now) i n }
    {
        let mut losses = 0u8;
        for packet in &self.trace[i..i + n] {
            losses += counted(self.event, *packet) as u8;
        }
        losses as usize
    }
}
