// A packed trace: document 02, tickets 6 and 7. 64-bit words, packet i in word i / 64 at bit i modulo 64, a one for each packet that
// counts as a loss, by whatever choice the trace was packed.
//
//     word 0                               word 1
//     bit 63 ..           bit 1   bit 0    bit 63 ..            bit 0
//     packet 63 ..   packet 1   packet 0    packet 127 ..   packet 64
//
// The bits of the last needed word that are past the end are zero. Words behind it are neither read nor changed.
#![tactic(auto)]

ghost use Rattle.std.specs.Prelude.{◌≡◌, min, take};
ghost use Rattle.trace.specs.Sum.{bit, count};
ghost use Rattle.packed.specs.Words.{word_bits, one_at, one_in, words_for, number_of};
ghost use Rattle.packed.specs.Judging.{judged_packed};

use refusal::Refusal;

// The packets of a word.
pub const WORD: usize = 64;

// How many words so many packets need.
pub fn words_for(packets: usize) -> usize
    ensures { result ≡ words_for packets }
{
    packets.div_ceil(WORD)
}

// The words that so many packets need, as a part of those given; all of them, where they are too few.
pub fn needed(words: &[u64], packets: usize) -> &[u64]
    ensures { result.now ≡ take (words_for packets) words.now }
{
    &words[..words_for(packets).min(words.len())]
}

// Judges a packed trace by its number of packets, by its words, and by the bits past the end.
pub fn judge(words: &[u64], packets: usize) -> Result<(), Refusal>
    ensures { result ≡ judged_packed words.now packets }
{
    if !trace::in_range(packets, trace::TRACE_MAX) {
        return Err(Refusal::TraceLength);
    }
    if words.len() < words_for(packets) {
        return Err(Refusal::BufferShort);
    }
    if packets % WORD == 0 {
        return Ok(());
    }
    let past = words[packets / WORD] >> (packets % WORD);
    if past == 0 {
        return Ok(());
    }
    Err(Refusal::TraceByte(packets + past.trailing_zeros() as usize))
}

// The 64 packets from packet i on, packet i in the lowest bit. Packets past the words are as received. The tests come one by one: two
// calls of `get` would test both places in every call, where a whole word inside needs one.
pub fn window(words: &[u64], i: usize) -> u64
    ensures { result ≡ number_of (one_in words.now) i word_bits }
{
    let word = i / WORD;
    let skipped = i % WORD;
    if words.len() <= word + 1 {
        if words.len() <= word {
            return 0;
        }
        return words[word] >> skipped;
    }
    let low = words[word] >> skipped;
    if skipped == 0 {
        return low;
    }
    low | (words[word + 1] << (WORD - skipped))
}

// 1 for a packet that is a one, 0 for any other; past the words there is none.
pub fn one_in(words: &[u64], i: usize) -> usize
    ensures { result ≡ bit (one_in words.now i) }
{
    (window(words, i) % 2) as usize
}

// The ones of a word, by the processor's own count where the machine that the library is made for has one.
pub fn ones(word: u64) -> usize
    ensures { result ≡ count (one_at word) 0 word_bits }
{
    word.count_ones() as usize
}

// How many of the n packets from packet i on are ones, no more than a word of them.
pub fn ones_among(words: &[u64], i: usize, n: usize) -> usize
    ensures { result ≡ count (one_in words.now) i (min n word_bits) }
{
    if WORD <= n {
        return ones(window(words, i));
    }
    ones(window(words, i) & ((1u64 << n) - 1))
}
