// Effective loss of a packed trace: document 02, ticket 6. Batches are those of the byte form, and so is the answer. The running
// count goes on by 64 batches at a time, and over words without a loss by as many as there are.
#![tactic(auto)]

ghost use Rattle.std.specs.Prelude.{◌≡◌, false, ℕ, ◌+◌, ◌-◌, ◌<◌, ◌≤◌, length, get_or};
ghost use Rattle.trace.specs.Sum.{count};
ghost use Rattle.trace.specs.Trace.{trace_max};
ghost use Rattle.batch.specs.Batches.{losses_in, is_over};
ghost use Rattle.batch.specs.Loss.{loss_answer};
ghost use Rattle.packed.specs.Words.{word_bits, one_in};
ghost use Rattle.packed.specs.Judging.{judged_packed};
ghost use Rattle.batch.specs.Forms.{Fitting, At};
ghost use Rattle.packed_loss.specs.Steps.{group, Settled, Walked, Quiet};

use batch::{Batches, EffectiveLoss, Form, Running};
use crossing::Steps;
use packed::WORD;
use refusal::Refusal;

// Words that are looked at together for a loss.
const GROUP: usize = 8;

// How many of the batches up to a later one are over the threshold, and that one's place and losses.
#[derive(Clone, Copy)]
struct Stride {
    over: usize,
    start: usize,
    losses: usize,
}

// The effective loss of a packed trace.
pub fn effective_loss(
    words: &[u64],
    packets: usize,
    batch: u32,
    threshold: u32,
) -> Result<EffectiveLoss, Refusal>
    ensures { result ≡ loss_answer (judged_packed words.now packets) (one_in words.now) packets batch threshold }
{
    batch::judge_for(packed::judge(words, packets), packets, batch, threshold)?;
    let words = packed::needed(words, packets);
    let batches = Batches {
        size: batch as usize,
        threshold: threshold as usize,
    };
    Ok(batch::loss_of(&Packed { words, packets }, batches))
}

// A packed trace: its words, and how many packets they hold.
#[derive(Clone, Copy)]
struct Packed<'a> {
    words: &'a [u64],
    packets: usize,
    ghost most: { packets ≤ trace_max },
}

impl Form for Packed<'_> {
    ghost lost = { λ s. one_in s.words.now };

    ghost extent = { λ s. s.packets };

    fn packets(&self) -> usize {
        self.packets
    }

    fn loss(&self, i: usize) -> usize {
        packed::one_in(self.words, i)
    }

    // By the ones of whole words and of the front of one more.
    fn first_losses(&self, batches: Batches) -> usize {
        let whole = batches.size / WORD;
        let mut losses = 0;
        for k in 0..whole {
            losses += packed::ones(packed::window(self.words, WORD * k));
        }
        losses + packed::ones_among(self.words, WORD * whole, batches.size % WORD)
    }

    fn pass_under(&self, batches: Batches, from: Running) -> Running {
        let passed = self.go_on(batches, from, true);
        Running {
            start: passed.start,
            losses: passed.losses,
        }
    }

    // By strides, and the rest one by one.
    fn over_after(&self, batches: Batches, from: Running) -> usize {
        let walked = self.go_on(batches, from, false);
        let start = walked.start;
        let left = (self.packets - batches.size - start) as u32;
        let steps = Steps {
            threshold: batches.threshold as u32,
            losses: walked.losses as u32,
            entering: packed::window(self.words, start + batches.size),
            leaving: packed::window(self.words, start),
        };
        walked.over + steps.one_by_one(left)
    }
}

impl Packed<'_> {
    // Goes on from a batch by strides, as far as these go, and counts the batches over the threshold; where it is told to stop, no
    // further than strides without one. Search and count go through here, so that the code of a stride stands in the library once.
    // A range would not say where that ends.
    fn go_on(&self, batches: Batches, from: Running, stop: bool) -> Stride
        requires { Fitting self.now.packets batches.size batches.threshold × At (one_in self.now.words.now) self.now.packets batches.size from.start from.losses }
        ensures { Walked (one_in self.now.words.now) self.now.packets batches.size batches.threshold from.start stop result.over result.start result.losses }
    {
        let last = self.packets - batches.size;
        let mut over = 0;
        let mut start = from.start;
        let mut losses = from.losses;
        while start + WORD <= last {
            let next = self.settle(batches, Running { start, losses });
            if stop & (next.over != 0) {
                break;
            }
            over += next.over;
            start = next.start;
            losses = next.losses;
        }
        Stride {
            over,
            start,
            losses,
        }
    }

    // The stride after a batch that is not within 64 of the last: 64 batches, or where the batch holds no loss as many as go by
    // until the next word with one.
    fn settle(&self, batches: Batches, from: Running) -> Stride
        requires { Fitting self.now.packets batches.size batches.threshold × At (one_in self.now.words.now) self.now.packets batches.size from.start from.losses × (from.start + word_bits + batches.size ≤ self.now.packets) }
        ensures { Settled (one_in self.now.words.now) self.now.packets batches.size batches.threshold from.start result.over result.start result.losses }
    {
        let end = self.clear_until(from.start + batches.size, from.losses);
        if from.start + batches.size < end {
            return Stride {
                over: 0,
                start: end - batches.size,
                losses: 0,
            };
        }
        self.settle_word(batches, from)
    }

    // The 64 batches after a batch, by the packets that enter and those that leave.
    fn settle_word(&self, batches: Batches, from: Running) -> Stride
        requires { Fitting self.now.packets batches.size batches.threshold × At (one_in self.now.words.now) self.now.packets batches.size from.start from.losses × (from.start + word_bits + batches.size ≤ self.now.packets) }
        ensures { Settled (one_in self.now.words.now) self.now.packets batches.size batches.threshold from.start result.over result.start result.losses }
    {
        let entering = packed::window(self.words, from.start + batches.size);
        let leaving = packed::window(self.words, from.start);
        let steps = Steps {
            threshold: batches.threshold as u32,
            losses: from.losses as u32,
            entering,
            leaving,
        };
        Stride {
            over: steps.over_in_word(),
            start: from.start + WORD,
            losses: from.losses + packed::ones(entering) - packed::ones(leaving),
        }
    }

    // Where a batch holds no loss, the packets from packet i behind it up to this one are no losses.
    fn clear_until(&self, i: usize, losses: usize) -> usize
        requires { i ≤ self.now.packets }
        ensures { (result ≤ self.now.packets) × (i < result → losses ≡ 0) × ((j : ℕ) → i ≤ j → j < result → one_in self.now.words.now j ≡ false) }
    {
        if losses != 0 {
            return i;
        }
        self.quiet_end(i)
    }

    // Packets from packet i on up to this one, no further than the last, are no losses: whole words of them.
    fn quiet_end(&self, i: usize) -> usize
        requires { i ≤ self.now.packets }
        ensures { (result ≤ self.now.packets) × ((j : ℕ) → i ≤ j → j < result → one_in self.now.words.now j ≡ false) }
    {
        let words = self.words;
        let most = words.len().min(self.packets / WORD + 1);
        let end = quiet_words(words, quiet_groups(words, i / WORD, most), most);
        self.packets.min(end * WORD)
    }
}

// The words from this one on that are zero, by whole groups: answers where they end. It stands beside `quiet_words`, since the two
// differ in the step and in where they end.
fn quiet_groups(w: &[u64], from: usize, most: usize) -> usize
    requires { (most ≤ length w.now) × (most ≤ trace_max) × (from ≤ trace_max) }
    ensures { Quiet w.now from result }
{
    let mut q = from;
    // A range would not say where it ended.
    while q + GROUP <= most {
        if any_one(w, q) != 0 {
            break;
        }
        q += GROUP;
    }
    q
}

// The same word by word.
fn quiet_words(w: &[u64], from: usize, most: usize) -> usize
    requires { (most ≤ length w.now) × (most ≤ trace_max) × (from ≤ trace_max) }
    ensures { Quiet w.now from result }
{
    for q in from..most {
        if w[q] != 0 {
            return q;
        }
    }
    from.max(most)
}

// The words of a group laid over each other: zero, where each of them is.
fn any_one(w: &[u64], from: usize) -> u64
    requires { from + group ≤ length w.now }
    ensures { result ≡ 0 → (k : ℕ) → from ≤ k → k < from + group → get_or w.now k 0 ≡ 0 }
{
    let mut any = 0;
    for word in &w[from..from + GROUP] {
        any |= *word;
    }
    any
}
