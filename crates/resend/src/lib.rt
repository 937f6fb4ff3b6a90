// The resend plan: demand 3 and document 01, "The plan". One byte for each packet of a trace, 1 to resend and 0
// otherwise, so that no batch is left with more than T losses: as few marks as can be, each as late as can be.
#![tactic(auto)]

ghost use Rattle.std.specs.Prelude.{◌≡◌, ℕ, Bool, ◌++◌, ◌-◌, ◌<◌, ◌≤◌, min, length, get_or, drop};
ghost use Rattle.trace.specs.Sum.{bit};
ghost use Rattle.trace.specs.Trace.{counted_at, judged};
ghost use Rattle.resend.specs.Plans.{marks};
ghost use Rattle.resend.specs.Greedy.{plan_of};
ghost use Rattle.resend.specs.Steps.{leaving};
ghost use Rattle.resend.specs.Answer.{plan_answer, buffer_after, Plannable, PlannedBest};

use batch::{Batches, judge};
use refusal::Refusal;
use trace::{Event, counts};

// Writes the plan of a trace, which marks packets that the event counts, into the front of out. The clause `best` is
// demand 3 by itself: wherever it is asked, the front is its plan, the answer is the number of its marks, and the further
// bytes are as they were. `packed_plan::plan` stands beside it: it fills words at once, and only the judging is the same.
pub fn plan(
    trace: &[u8],
    batch: u32,
    threshold: u32,
    event: Event,
    out: &mut [u8],
) -> Result<usize, Refusal>
    ensures answer { result ≡ plan_answer (judged trace.now) (counted_at event trace.now) (length trace.now) batch threshold out.old }
    ensures buffer { out.new ≡ buffer_after (judged trace.now) (counted_at event trace.now) (length trace.now) batch threshold out.old }
    ensures best { Plannable (judged trace.now) (length trace.now) batch threshold out.old → PlannedBest (counted_at event trace.now) (length trace.now) batch threshold out.old result out.new }
{
    judge(trace, batch, threshold)?;
    if out.len() < trace.len() {
        return Err(Refusal::BufferShort);
    }
    let batches = Batches {
        size: batch as usize,
        threshold: threshold as usize,
    };
    Ok(fill_for(event, trace, batches, out))
}

// The plan by an event, and the number of its marks: the loop is compiled for each event by itself, and does not ask at every packet
// what is counted.
fn fill_for(event: Event, s: &[u8], batches: Batches, out: &mut [u8]) -> usize
    requires { (1 ≤ batches.size) × (length s.now ≤ length out.old) }
    ensures count { result ≡ marks (plan_of (counted_at event s.now) batches.size batches.threshold (length s.now)) }
    ensures buffer { out.new ≡ plan_of (counted_at event s.now) batches.size batches.threshold (length s.now) ++ drop (length s.now) out.old }
{
    match event {
        Event::Lost => fill(|packet| counts(Event::Lost, packet), s, batches, out),
        Event::Discarded => fill(|packet| counts(Event::Discarded, packet), s, batches, out),
        Event::Either => fill(|packet| counts(Event::Either, packet), s, batches, out),
    }
}

// The plan of the packets that a test counts, and the number of its marks. A counted packet is marked when `threshold`
// without a mark already stand among the `size` - 1 packets before it; `left` is the running count. It branches on a counted packet:
// without the branch a plan with a batch of 1 waits for the mark that it has just stored, and takes 1.4 times as long. `min` branches on
// whether its argument is the less, as the count with one more seldom is where losses are many.
fn fill<C: Fn(u8) -> bool>(counts: C, s: &[u8], batches: Batches, out: &mut [u8]) -> usize
    ghost lost: { ℕ → Bool }
    requires callable { C.IsAlwaysCallable counts }
    requires test { (i : ℕ) (r : Bool) → i < length s.now → C.post counts (get_or s.now i 0) r → r ≡ lost i }
    requires room { (1 ≤ batches.size) × (length s.now ≤ length out.old) }
    ensures count { result ≡ marks (plan_of lost batches.size batches.threshold (length s.now)) }
    ensures buffer { out.new ≡ plan_of lost batches.size batches.threshold (length s.now) ++ drop (length s.now) out.old }
{
    let mut left = 0;
    let mut marks = 0;
    for at in 0..s.len() {
        let before = slide(&counts, s, out, batches.size, at, left);
        if counts(s[at]) {
            left = batches.threshold.min(before + 1);
            out[at] = (before + 1 - left) as u8;
            marks += before + 1 - left;
        } else {
            left = before;
            out[at] = 0;
        }
    }
    marks
}

// The running count without the packet that stands `batch` before packet i.
fn slide<C: Fn(u8) -> bool>(
    counts: &C,
    s: &[u8],
    plan: &[u8],
    batch: usize,
    i: usize,
    left: usize,
) -> usize
    ghost lost: { ℕ → Bool }
    requires callable { C.IsAlwaysCallable counts.now }
    requires test { (i : ℕ) (r : Bool) → i < length s.now → C.post counts.now (get_or s.now i 0) r → r ≡ lost i }
    requires place { (1 ≤ batch) × (i < length s.now) × (i < length plan.now) }
    requires enough { leaving lost batch plan.now i ≤ left }
    requires marked { batch ≤ i → get_or plan.now (i - batch) 0 ≤ bit (lost (i - batch)) }
    ensures { result ≡ left - leaving lost batch plan.now i }
{
    if i < batch {
        return left;
    }
    let at = i - batch;
    left - (counts(s[at]) as usize - plan[at] as usize)
}
