// The chunks of a Loss RLE block: RFC 3611, section 4.1. The lost packets are counted by the lengths of runs and the ones of
// vectors, and no packet looked at by itself.
#![tactic(auto)]

ghost use Rattle.std.specs.Prelude.{◌≡◌, ◌+◌, ◌*◌, ◌<◌, ◌≤◌, min, length, take, drop};
ghost use Rattle.wire.specs.BigEndian.{be16};
ghost use Rattle.chunk.specs.Chunks.{packets_of, covers, lost_in, chunks_in};
ghost use Rattle.chunk.specs.Counting.{count_of};
ghost use Rattle.chunk.specs.Steps.{most_fours, four_at, Halves, Sweeping, One, Step};

// The bits of a chunk.
//
//   0                   1                    0                   1
//   0 1 2 3 4 5 6 7 8 9 0 1 2 3 4 5          0 1 2 3 4 5 6 7 8 9 0 1 2 3 4 5
//  +-+-+-+-+-+-+-+-+-+-+-+-+-+-+-+-+        +-+-+-+-+-+-+-+-+-+-+-+-+-+-+-+-+
//  |0|R|        run length         |        |1|        bit vector           |
//  +-+-+-+-+-+-+-+-+-+-+-+-+-+-+-+-+        +-+-+-+-+-+-+-+-+-+-+-+-+-+-+-+-+
pub const VECTOR: u16 = 32_768;

pub const RUN_OF_RECEIVED: u16 = 16_384;

const RUN_LENGTH: u16 = 16_383; // the bits of it

// The types of four chunks side by side, all vectors.
const TYPES: u64 = 9_223_512_776_490_647_552;

// So many bytes of vectors in a row are enough to look for more by fours, of which no more than these at once.
const ENOUGH: usize = 32;

const MOST_FOURS: usize = 64;

pub const VECTOR_BITS: usize = 15;

// The next chunks: how many bytes they take, how many of the packets left they report on, how many of these are lost, and how
// many bytes of vectors stand in a row then.
#[derive(Clone, Copy)]
struct Part {
    bytes: usize,
    packets: usize,
    lost: usize,
    since: usize,
}

// How many of so many packets are lost, as the chunks describe them.
pub fn count(chunks: &[u8], packets: usize) -> Option<usize>
    ensures { result ≡ count_of packets (chunks_in chunks.now) }
{
    let mut left = packets;
    let mut lost = 0;
    let mut i = 0;
    let mut since = 0;
    // How far a part reaches is known once it is read, so there is no range to go over.
    while 0 < left {
        let part = next_part(chunks, i, left, since)?;
        lost += part.lost;
        left -= part.packets;
        since = part.since;
        i += part.bytes;
    }
    if !all_null(chunks, i) {
        return None;
    }
    Some(lost)
}

// The chunk at i, or, where vectors have stood in a row, as many more as have been, all at once. None where the chunk there is
// null, or none is left.
fn next_part(chunks: &[u8], i: usize, left: usize, since: usize) -> Option<Part>
    requires { (0 < left) × (i ≤ length chunks.now) × (since ≤ i) }
    ensures { Step chunks.now i left since result }
{
    if chunks.len() - i < 2 {
        return None;
    }
    let chunk = pair_at(chunks, i);
    if chunk < VECTOR {
        return one_part(chunk, left, 0);
    }
    if since < ENOUGH {
        return one_part(chunk, left, since + 2);
    }
    let fours = (since / 8)
        .min(MOST_FOURS)
        .min(left / 60)
        .min((chunks.len() - i) / 8);
    let swept = sweep(chunks, i, fours);
    if fours == 0 {
        return one_part(chunk, left, 2);
    }
    if swept.all & TYPES != TYPES {
        return one_part(chunk, left, 2);
    }
    Some(Part {
        bytes: 8 * fours,
        packets: 60 * fours,
        lost: 64 * fours - swept.ones,
        since: since + 8 * fours,
    })
}

// One chunk, with so many packets left. None where it is null.
fn one_part(chunk: u16, left: usize, since: usize) -> Option<Part>
    requires { 0 < left }
    ensures { One chunk left since result }
{
    let whole = span(chunk);
    if chunk == 0 {
        return None;
    }
    let packets = whole.min(left);
    Some(Part {
        bytes: 2,
        packets,
        lost: lost_among(chunk, packets),
        since,
    })
}

// Chunks by fours: the bits that all have, and the ones of all together. Nothing leaves this loop early, so that it is
// compiled to many bytes a step.
#[derive(Clone, Copy)]
struct Swept {
    all: u64,
    ones: usize,
}

fn sweep(chunks: &[u8], i: usize, fours: usize) -> Swept
    requires { (i + 8 * fours ≤ length chunks.now) × (fours ≤ most_fours) }
    ensures { Sweeping chunks.now i fours result.all result.ones }
{
    let mut all = 18_446_744_073_709_551_615;
    let mut ones = 0;
    for k in 0..fours {
        let four = four_at(chunks, i + 8 * k);
        all = all & four;
        ones += u64::count_ones(four) as usize;
    }
    Swept { all, ones }
}

// Four chunks side by side.
fn four_at(s: &[u8], i: usize) -> u64
    requires { i + 8 ≤ length s.now }
    ensures { (result ≡ four_at s.now i) × Halves s.now i }
{
    u64::from_be_bytes([
        s[i],
        s[i + 1],
        s[i + 2],
        s[i + 3],
        s[i + 4],
        s[i + 5],
        s[i + 6],
        s[i + 7],
    ])
}

// The chunk at i.
#[tactic(auto, unfolding(wire::specs::BigEndian::be16))]
fn pair_at(s: &[u8], i: usize) -> u16
    requires { i + 2 ≤ length s.now }
    ensures { result ≡ be16 s.now i }
{
    u16::from_be_bytes([s[i], s[i + 1]])
}

// Whether all chunks from i on are null. Nothing leaves this loop early either.
fn all_null(chunks: &[u8], i: usize) -> bool
    requires { i ≤ length chunks.now }
    ensures { result ≡ covers 0 (chunks_in (drop i chunks.now)) }
{
    let mut null = true;
    for k in 0..(chunks.len() - i) / 2 {
        null = null & (pair_at(chunks, i + 2 * k) == 0);
    }
    null
}

// How many packets a chunk reports on.
pub fn span(chunk: u16) -> usize
    ensures { result ≡ length (packets_of chunk) }
{
    if chunk < VECTOR {
        return (chunk & RUN_LENGTH) as usize;
    }
    VECTOR_BITS
}

// How many of a chunk's first n packets are lost.
fn lost_among(chunk: u16, n: usize) -> usize
    requires { n ≤ length (packets_of chunk) }
    ensures { (result ≡ lost_in (take n (packets_of chunk))) × (result ≤ n) }
{
    if chunk < RUN_OF_RECEIVED {
        return n;
    }
    if chunk < VECTOR {
        return 0;
    }
    n - u16::count_ones((chunk & 32_767) >> (VECTOR_BITS - n)) as usize
}
