// Two report packets compared, block by block: document 02, ticket 1. D4 is judged in each packet by a table of its measured
// sources. A list of no numbers only counts, so one walk over both packets serves to count the differences and to list them.
#![tactic(auto)]

ghost use Rattle.std.specs.Prelude.{◌≡◌, true, [], ◌∷◌, ◌≤◌, length, get_or};
ghost use Rattle.sorting.specs.Order.{Sorted};
ghost use Rattle.frame.specs.Packet.{packet_of};
ghost use Rattle.difference.specs.Differences.{senders, where_unequal};
ghost use Rattle.difference.specs.Numbers.{Adds};
ghost use Rattle.compare.specs.Differences.{same_numbers, between};
ghost use Rattle.compare.specs.Answer.{differences_of, compare_answer, list_after};
ghost use Rattle.compare.specs.Steps.{Whole, Blocks, SizeTyped, GoodSummary, Waiting, both_typed, whole, content_in, block_differences, Ready, Holds, Answers};

use difference::{Difference, Kind};
use refusal::Refusal;

// Packets of so many bytes have a small table each. Most reports are shorter, and a table is cleared before it is filled.
const SHORT: usize = 2_048;

// A table has an entry for every 32 bytes of its packet, the size of a block 14.
const SHORT_TABLE: usize = 64;

const TABLE: usize = 8_192; // no packet is longer than 262,144 bytes

// The measured sources of two packets, each in a sorted table, and whether the two tables are the same.
#[derive(Clone, Copy)]
struct Measured<'a> {
    first: &'a [u32],
    second: &'a [u32],
    alike: bool, // a source that stands twice in one of them makes them unlike, which costs time alone
    ghost sorted: { Sorted first.now },
    ghost second_sorted: { Sorted second.now },
    ghost same: { alike ≡ true → first.now ≡ second.now },
}

// A block that both packets have, by its bytes in each; both have a first word.
#[derive(Clone, Copy)]
struct Pair<'a> {
    x: &'a [u8],
    y: &'a [u8],
    ghost some: { 4 ≤ length x.now },
    ghost other_some: { 4 ≤ length y.now },
}

// Every differing field of two packets, blocks paired by index: five numbers of out for each difference.
pub fn packets(first: &[u8], second: &[u8], out: &mut [u32]) -> Result<usize, Refusal>
    ensures answer { result ≡ compare_answer (packet_of first.now) (packet_of second.now) out.old }
    ensures list { out.new ≡ list_after (packet_of first.now) (packet_of second.now) out.old }
{
    if (first.len() <= SHORT) & (second.len() <= SHORT) {
        let mut table = [0; SHORT_TABLE];
        let mut other = [0; SHORT_TABLE];
        return with_tables(first, second, &mut table, &mut other, out);
    }
    long_packets(first, second, out)
}

fn long_packets(first: &[u8], second: &[u8], out: &mut [u32]) -> Result<usize, Refusal>
    ensures { Answers first.now second.now out.old out.new result }
{
    let mut table = [0; TABLE];
    let mut other = [0; TABLE];
    with_tables(first, second, &mut table, &mut other, out)
}

// With a table for each packet that has room for all its sources.
// Packets and list stay parameters, as they are lent: of_two takes the packets alone, so that a struct would only be taken apart.
fn with_tables(
    first: &[u8],
    second: &[u8],
    table: &mut [u32],
    other: &mut [u32],
    out: &mut [u32],
) -> Result<usize, Refusal>
    requires { Holds first.now table.old × Holds second.now other.old }
    ensures { Answers first.now second.now out.old out.new result }
{
    let (j, k) = sources::of_two(first, second, table, other)?;
    good_packets(first, second, &table[..j], &other[..k], out)
}

// Two good packets. Where the list has room for as many differences as there can be, they need not be counted first.
fn good_packets(
    first: &[u8],
    second: &[u8],
    table: &[u32],
    other: &[u32],
    out: &mut [u32],
) -> Result<usize, Refusal>
    requires { Ready first.now second.now table.now other.now }
    ensures { Answers first.now second.now out.old out.new result }
{
    let sources = Measured {
        first: table,
        second: other,
        alike: table == other,
    };
    let room = out.len() / difference::NUMBERS;
    if (3 * first.len() / 8 <= room) & (3 * second.len() / 8 <= room) {
        return Ok(list(first, second, sources, out));
    }
    if room < list(first, second, sources, &mut out[..0]) {
        return Err(Refusal::BufferShort);
    }
    Ok(list(first, second, sources, out))
}

// The differences of two good packets, added to a list of none.
fn list(first: &[u8], second: &[u8], sources: Measured<'_>, out: &mut [u32]) -> usize
    requires { Ready first.now second.now sources.first.now sources.second.now }
    ensures { Adds (differences_of (packet_of first.now) (packet_of second.now)) out.old out.new 0 result }
{
    let mut n = put_sender(wire::u32_at(first, 4), wire::u32_at(second, 4), out);
    let mut at = frame::FIRST_BLOCK;
    let mut bt = frame::FIRST_BLOCK;
    let mut k = 0;
    // On to the end of the longer packet: a `zip` of two walks ends with the shorter.
    while (at < first.len()) | (bt < second.len()) {
        let x = frame::block_at(first, at);
        let y = frame::block_at(second, bt);
        n = put_block(x, y, sources, out, n as u32, k);
        at += x.len();
        bt += y.len();
        k += 1;
    }
    n
}

fn put_sender(a: u32, b: u32, out: &mut [u32]) -> usize
    ensures { Adds (where_unequal a b (senders a b)) out.old out.new 0 result }
{
    if a == b {
        return 0;
    }
    difference::put(
        out,
        0,
        Difference {
            kind: Kind::Sender,
            block: 0,
            field: 0,
            first: a,
            second: b,
        },
    )
}

// Block k of both packets, by its bytes in each; no bytes where a packet has no such block.
// The list, its count and k stay parameters: difference::put and put_fields take them so, and a struct would only be taken apart.
fn put_block(x: &[u8], y: &[u8], sources: Measured<'_>, out: &mut [u32], n: u32, k: u32) -> usize
    requires { Blocks x.now y.now }
    ensures { Adds (block_differences k sources.entry.first.now sources.entry.second.now x.now y.now) out.old out.new n result }
{
    if y.is_empty() {
        return put_whole(Kind::OnlyFirst, out, n, k);
    }
    if x.is_empty() {
        return put_whole(Kind::OnlySecond, out, n, k);
    }
    put_pair(x, y, sources, out, n, k)
}

// A block that both packets have. The same bytes differ only where they are typed in one packet alone.
fn put_pair(x: &[u8], y: &[u8], sources: Measured<'_>, out: &mut [u32], n: u32, k: u32) -> usize
    requires { Whole x.now × Whole y.now }
    ensures { Adds (between k (content_in sources.entry.first.now x.now) (content_in sources.entry.second.now y.now)) out.old out.new n result }
{
    let pair = Pair { x, y };
    if pair.typed_by_size() {
        return difference::put_fields(x, y, out, n, k);
    }
    if same_blocks(x, y) {
        if sources.alike {
            return n as usize;
        }
        return put_same(x, y, sources, out, n, k);
    }
    if pair.both_typed(sources) {
        return difference::put_fields(x, y, out, n, k);
    }
    put_whole(Kind::Block, out, n, k)
}

// A block with the same bytes in both packets, whose tables are not the same.
fn put_same(x: &[u8], y: &[u8], sources: Measured<'_>, out: &mut [u32], n: u32, k: u32) -> usize
    requires { same_numbers x.now y.now ≡ true }
    ensures { Adds (between k (content_in sources.entry.first.now x.now) (content_in sources.entry.second.now y.now)) out.old out.new n result }
{
    let typed = verdict::is_typed(x, sources.first);
    if typed == verdict::is_typed(y, sources.second) {
        return n as usize;
    }
    put_whole(Kind::Block, out, n, k)
}

// A difference of this kind that has no readings.
fn put_whole(kind: Kind, out: &mut [u32], n: u32, k: u32) -> usize
    ensures { Adds (whole kind k ∷ []) out.old out.new n result }
{
    difference::put(
        out,
        n,
        Difference {
            kind,
            block: k,
            field: 0,
            first: 0,
            second: 0,
        },
    )
}

impl Pair<'_> {
    // Whether both are 14, both 240 or both 241, and of their size: nothing else can drop these.
    fn typed_by_size(self) -> bool
        ensures { result ≡ true → SizeTyped self.entry.x.now self.entry.y.now }
    {
        let Pair { x, y } = self;
        let kind = x[0];
        if kind != y[0] {
            return false;
        }
        if x.len() != y.len() {
            return false;
        }
        match kind {
            14 => x.len() == 4 + block::MEASUREMENT_BYTES,
            240 => x.len() == 4 + block::EFFECTIVE_BYTES,
            241 => x.len() == 4 + block::STREAMS_BYTES,
            _ => false,
        }
    }

    // Whether both are of one type and typed, each in its packet.
    fn both_typed(self, sources: Measured<'_>) -> bool
        ensures { result ≡ both_typed sources.entry.first.now sources.entry.second.now self.entry.x.now self.entry.y.now }
    {
        if self.both_wait() {
            return self.both_measured(sources);
        }
        let Pair { x, y } = self;
        if x[0] != y[0] {
            return false;
        }
        if !verdict::is_typed(x, sources.first) {
            return false;
        }
        verdict::is_typed(y, sources.second)
    }

    // Whether both are good 17s, or good 18s, so that each waits for a measurement alone.
    fn both_wait(self) -> bool
        ensures { result ≡ true → Waiting self.entry.x.now self.entry.y.now }
    {
        let Pair { x, y } = self;
        let kind = x[0];
        if kind != y[0] {
            return false;
        }
        match kind {
            17 => good_summary(x, 4 + block::LOSS_BYTES) & good_summary(y, 4 + block::LOSS_BYTES),
            18 => good_summary(x, 4 + block::DISCARD_BYTES)
                & good_summary(y, 4 + block::DISCARD_BYTES),
            _ => false,
        }
    }

    // Whether two blocks that wait are measured, each in its packet. Where the tables are the same, one search for a source settles
    // both.
    fn both_measured(self, sources: Measured<'_>) -> bool
        requires { Waiting self.x.now self.y.now }
        ensures { result ≡ both_typed sources.entry.first.now sources.entry.second.now self.entry.x.now self.entry.y.now }
    {
        let Pair { x, y } = self;
        let source = wire::u32_at(x, 4);
        if !verdict::has(sources.first, source) {
            return false;
        }
        let other_source = wire::u32_at(y, 4);
        if sources.alike & (source == other_source) {
            return true;
        }
        verdict::has(sources.second, other_source)
    }
}

// Whether a 17 or 18 has this size, and a flag and rates that reading lets through.
fn good_summary(z: &[u8], size: usize) -> bool
    requires { 4 ≤ length z.now }
    ensures { result ≡ true → GoodSummary z.now size }
{
    if z.len() != size {
        return false;
    }
    block::summary_good(z[1] / 64, wire::u16_at(z, 8), wire::u16_at(z, 10))
}

// Whether two blocks have the same bytes. By words, which are four bytes a step.
fn same_blocks(x: &[u8], y: &[u8]) -> bool
    requires { Whole x.now × Whole y.now }
    ensures { result ≡ same_numbers x.now y.now }
{
    if x.len() != y.len() {
        return false;
    }
    let last = x.len() - 4;
    let mut i = 0;
    while i <= last {
        if wire::u32_at(x, i) != wire::u32_at(y, i) {
            return false;
        }
        i += 4;
    }
    true
}
