// How many batches in a row are over the threshold, by the packets that enter and those that leave: packet j of both words is that
// of the step to batch j + 1 behind a batch that is known. Where the count cannot cross the threshold on the way, all of them are
// settled in one step.
#![tactic(auto)]

ghost use Rattle.std.specs.Prelude.{◌≡◌, cond, ltb};
ghost use Rattle.packed.specs.Words.{word_bits};
ghost use Rattle.crossing.specs.Crossing.{over_among};

// Up to so many changes of the count in 64 batches, it is faster to go from change to change than from batch to batch.
const FEW: usize = 24;

// The steps to the batches behind one that holds so many losses, and the packets that enter and leave at each.
#[derive(Clone, Copy)]
pub struct Steps {
    pub threshold: u32,
    pub losses: u32,
    pub entering: u64,
    pub leaving: u64,
}

impl Steps {
    // Of 64 batches, how many are over the threshold.
    pub fn over_in_word(self) -> usize
        ensures { result ≡ over_among self.threshold self.losses self.entering self.leaving word_bits }
    {
        let threshold = self.threshold as usize;
        let losses = self.losses as usize;
        if losses + packed::ones(self.entering) <= threshold {
            return 0;
        }
        if threshold + packed::ones(self.leaving) < losses {
            return packed::WORD;
        }
        if packed::ones(self.entering ^ self.leaving) <= FEW {
            return self.by_change();
        }
        self.one_by_one(packed::WORD as u32)
    }

    // The same of the next n batches, one by one. Nothing here branches on a packet. In place of one count that rises and falls, the
    // threshold rises with what leaves.
    pub fn one_by_one(self, n: u32) -> usize
        ensures { result ≡ over_among self.threshold self.losses self.entering self.leaving n }
    {
        let mut over = 0usize;
        let mut low = self.threshold as usize;
        let mut high = self.losses as usize;
        let mut enters = self.entering;
        let mut leaves = self.leaving;
        for _ in 0..n {
            low += (leaves % 2) as usize;
            high += (enters % 2) as usize;
            over += (low < high) as usize;
            leaves /= 2;
            enters /= 2;
        }
        over
    }

    // The same of 64 batches, from one change of the count to the next: until then as many enter as leave at each step.
    fn by_change(self) -> usize
        ensures { result ≡ over_among self.threshold self.losses self.entering self.leaving word_bits }
    {
        let mut over = 0usize;
        let mut low = self.threshold as usize;
        let mut high = self.losses as usize;
        let mut enters = self.entering;
        let mut leaves = self.leaving;
        let mut j = 0usize;
        // Each turn goes on by as many steps as its words say, so no range names them.
        while enters != leaves {
            let same = (enters ^ leaves).trailing_zeros() as usize;
            over += all_or_none(low, high, same);
            let left = leaves >> same;
            let came = enters >> same;
            low += (left % 2) as usize;
            high += (came % 2) as usize;
            over += (low < high) as usize;
            leaves = left / 2;
            enters = came / 2;
            j += same + 1;
        }
        over + all_or_none(low, high, packed::WORD - j)
    }
}

// Of n batches that hold the same, how many are over.
fn all_or_none(low: usize, high: usize, n: usize) -> usize
    ensures { result ≡ cond (ltb low high) n 0 }
{
    if low < high { n } else { 0 }
}
