// The resend plan of a packed trace: document 02, ticket 6. It is the plan of the byte form, still written a byte a packet. A word
// that could not take the count over the threshold even if nothing left is written in one step, any other packet by packet.
#![tactic(auto)]

ghost use Rattle.std.specs.Prelude.{◌≡◌, ◌++◌, ℕ, ◌+◌, ◌-◌, ◌<◌, ◌≤◌, min, length, get_or, drop};
ghost use Rattle.trace.specs.Sum.{sum, bit, count};
ghost use Rattle.trace.specs.Trace.{trace_max};
ghost use Rattle.resend.specs.Plans.{marked, marks};
ghost use Rattle.resend.specs.Greedy.{plan_of};
ghost use Rattle.resend.specs.Steps.{leaving, Filling};
ghost use Rattle.resend.specs.Answer.{plan_answer, buffer_after, Plannable, PlannedBest};
ghost use Rattle.packed.specs.Words.{word_bits, one_in, number_of};
ghost use Rattle.packed.specs.Judging.{judged_packed};
ghost use Rattle.packed_plan.specs.Steps.{behind, cleared, Standing};

use batch::Batches;
use packed::WORD;
use refusal::Refusal;

// So many losses of a word are many, whatever the threshold.
const MANY: usize = 12;

// Behind some packets: the losses without a mark among the last `batch` of them, and how many marks were made.
#[derive(Clone, Copy)]
struct Filled {
    left: usize,
    marks: usize,
}

// Writes the plan of a packed trace into the front of out. The clause `best` is demand 3 by itself, as with the byte form. A call of
// its own beside `resend::plan`: that one fills packet by packet, this one a word at once, and only the judging is the same.
pub fn plan(
    words: &[u64],
    packets: usize,
    batch: u32,
    threshold: u32,
    out: &mut [u8],
) -> Result<usize, Refusal>
    ensures answer { result ≡ plan_answer (judged_packed words.now packets) (one_in words.now) packets batch threshold out.old }
    ensures buffer { out.new ≡ buffer_after (judged_packed words.now packets) (one_in words.now) packets batch threshold out.old }
    ensures best { Plannable (judged_packed words.now packets) packets batch threshold out.old → PlannedBest (one_in words.now) packets batch threshold out.old result out.new }
{
    batch::judge_for(packed::judge(words, packets), packets, batch, threshold)?;
    if out.len() < packets {
        return Err(Refusal::BufferShort);
    }
    let words = packed::needed(words, packets);
    let batches = Batches {
        size: batch as usize,
        threshold: threshold as usize,
    };
    let packed = Packed {
        words,
        packets,
        batches,
    };
    Ok(packed.fill(out))
}

// A packed trace, by its words and how many packets they hold, and the batches that its plan is made for.
#[derive(Clone, Copy)]
struct Packed<'a> {
    words: &'a [u64],
    packets: usize,
    batches: Batches,
    ghost most: { packets ≤ trace_max },
    ghost least: { 1 ≤ batches.size },
}

impl Packed<'_> {
    // The plan of the ones, and the number of its marks.
    fn fill(&self, out: &mut [u8]) -> usize
        requires { self.now.packets ≤ length out.old }
        ensures count { result ≡ marks (plan_of (one_in self.now.words.now) self.now.batches.size self.now.batches.threshold self.now.packets) }
        ensures buffer { out.new ≡ plan_of (one_in self.now.words.now) self.now.batches.size self.now.batches.threshold self.now.packets ++ drop self.now.packets out.old }
    {
        let mut left = 0;
        let mut marks = 0;
        let mut i = 0;
        // A range of words took a third longer where no packet is lost.
        while i + WORD <= self.packets {
            let next = self.fill_word(out, i, left);
            left = next.left;
            marks += next.marks;
            i += WORD;
        }
        let rest = self.fill_each::<false>(out, i, self.packets, left);
        marks + rest.marks
    }

    // The 64 packets from packet i on. Where what enters cannot take the count over the threshold, none of them is marked.
    fn fill_word(&self, out: &mut [u8], i: usize, left: usize) -> Filled
        requires { Standing (one_in self.now.words.now) self.now.batches.size self.now.batches.threshold self.now.packets out.old left i × (i + word_bits ≤ self.now.packets) }
        ensures { Filling (one_in self.now.words.now) self.now.batches.size self.now.batches.threshold self.now.packets out.old out.new result.left (count (marked (plan_of (one_in self.now.words.now) self.now.batches.size self.now.batches.threshold self.now.packets)) 0 i + result.marks) (i + word_bits) }
    {
        let size = self.batches.size;
        let enters = packed::ones_among(self.words, i, WORD);
        if self.batches.threshold < left + enters {
            // Of every `size` packets as many losses stay without a mark as the threshold says. Where more than these get one, or losses
            // are many, most counts stand at the threshold.
            let unmarked = (2 * WORD).saturating_mul(self.batches.threshold);
            if MANY <= enters || unmarked < enters.saturating_mul(size) {
                return self.fill_each::<true>(out, i, i + WORD, left);
            }
            return self.fill_each::<false>(out, i, i + WORD, left);
        }
        clear(out, i);
        if left + enters == 0 {
            return Filled { left: 0, marks: 0 };
        }
        let from = i.saturating_sub(size);
        let n = (i + WORD).saturating_sub(size) - from;
        let leaves = packed::ones_among(self.words, from, n) - marks_among(out, from, n);
        Filled {
            left: left + enters - leaves,
            marks: 0,
        }
    }

    // The packets from packet i up to `end`, no more than a word of them, one by one. A loss is marked when `threshold` without a
    // mark already stand among the `size` - 1 packets before it: with it they would be one more. Never inlined: within the loop over
    // words it would take the registers that words without a loss need.
    #[inline(never)]
    fn fill_each<const DENSE: bool>(
        &self,
        out: &mut [u8],
        i: usize,
        end: usize,
        running: usize,
    ) -> Filled
        requires { Standing (one_in self.now.words.now) self.now.batches.size self.now.batches.threshold self.now.packets out.old running i × (i ≤ end) × (end ≤ self.now.packets) × (end ≤ i + word_bits) }
        ensures { Filling (one_in self.now.words.now) self.now.batches.size self.now.batches.threshold self.now.packets out.old out.new result.left (count (marked (plan_of (one_in self.now.words.now) self.now.batches.size self.now.batches.threshold self.now.packets)) 0 i + result.marks) end }
    {
        let mut enters = packed::window(self.words, i);
        let mut leaves = self.gone(i);
        let threshold = self.batches.threshold;
        let mut left = running;
        let mut marks = 0;
        for next in i..end {
            let held = self.slide(out, next, left, leaves % 2) + (enters % 2) as usize;
            left = kept::<DENSE>(held, threshold);
            out[next] = (held - left) as u8;
            marks += held - left;
            enters /= 2;
            leaves /= 2;
        }
        Filled { left, marks }
    }

    // The running count without the packet that stands a batch before packet i; `gone` says whether one does that is a loss. Its mark
    // is read only then: with a small batch it has just been written, and reading it at every packet would make each wait for the
    // one before.
    fn slide(&self, plan: &[u8], i: usize, left: usize, gone: u64) -> usize
        requires { (i < length plan.now) × (gone ≡ bit (behind (one_in self.now.words.now) self.now.batches.size i)) × (leaving (one_in self.now.words.now) self.now.batches.size plan.now i ≤ left) × (self.now.batches.size ≤ i → get_or plan.now (i - self.now.batches.size) 0 ≤ bit (one_in self.now.words.now (i - self.now.batches.size))) }
        ensures { result ≡ left - leaving (one_in self.now.words.now) self.now.batches.size plan.now i }
    {
        if gone == 0 {
            return left;
        }
        let at = i - self.batches.size;
        left - (1 - plan[at] as usize)
    }

    // Of the 64 packets from packet i on: whether a loss stands a batch before each, the first in the lowest bit.
    fn gone(&self, i: usize) -> u64
        ensures { result ≡ number_of (behind (one_in self.now.words.now) self.now.batches.size) i word_bits }
    {
        let size = self.batches.size;
        if size <= i {
            return packed::window(self.words, i - size);
        }
        let ahead = size - i;
        if WORD <= ahead {
            return 0;
        }
        packed::window(self.words, 0) << ahead
    }
}

// What is kept of a count without marks. Both are the lesser of two, and each is compiled to a branch on what `min` asks, whether its
// argument is the less: where most losses get a mark few counts are below the threshold, elsewhere few are above it.
fn kept<const DENSE: bool>(held: usize, threshold: usize) -> usize
    ensures { result ≡ min held threshold }
{
    if DENSE {
        threshold.min(held)
    } else {
        held.min(threshold)
    }
}

// No marks for the 64 packets from packet i on.
fn clear(out: &mut [u8], i: usize)
    requires { i + word_bits ≤ length out.old }
    ensures { out.new ≡ cleared out.old i word_bits }
{
    out[i..i + WORD].copy_from_slice(&[0; WORD]);
}

// The marks of n packets from packet i on. As many fit a byte, so that they are added many at a time.
fn marks_among(plan: &[u8], i: usize, n: usize) -> usize
    requires { (n ≤ word_bits) × (i + n ≤ length plan.now) × ((p : ℕ) → i ≤ p → p < i + n → get_or plan.now p 0 ≤ 1) }
    ensures { result ≡ sum (λ p. get_or plan.now p 0) i n }
{
    let mut marks = 0u8;
    for mark in &plan[i..i + n] {
        marks += *mark;
    }
    marks as usize
}
