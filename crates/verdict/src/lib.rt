// A block's verdict as a number: from its own bytes, and, where it waits for a measurement, from a table of the measured
// sources.
#![tactic(auto)]

ghost use Rattle.std.specs.Prelude.{◌≡◌, cond, [], leb, ◌<◌, ◌≤◌, length};
ghost use Rattle.sorting.specs.Order.{Sorted};
ghost use Rattle.block.specs.Reading.{read_rle, read_bytes, measures_of};
ghost use Rattle.packet.specs.Blocks.{read_among};
ghost use Rattle.verdict.specs.Verdict.{verdict_of};
ghost use Rattle.verdict.specs.Search.{Search};
ghost use Rattle.verdict.specs.Sources.{member, gathered_count, gathered_table, typed_by};
ghost use Rattle.verdict.specs.Alone.{size_verdict, summary_verdict};

use block::{BlockRead, Reason};

// The verdicts besides the reasons to drop a block. A verdict is a number, also where `alone` answers it: nuvaskoe_packet_list and
// nuvaskoe_block hold these numbers, and C reads them there.
pub const TYPED: u8 = 0;

pub const RLE: u8 = 254;

pub const UNKNOWN: u8 = 255;

// The verdict of a 17 or 18 whose source nothing measures: the number of that reason.
pub const UNMEASURED: u8 = Reason::Unmeasured as u8;

// The verdict of a block of these bytes in a packet that measures nothing: as `block::read_bytes` has it, but a good 17 or 18
// is unmeasured. A typed block's struct is not made. Fewer than four bytes are no block, and unknown.
pub fn alone(bytes: &[u8]) -> u8
    ensures { result ≡ verdict_of (read_among [] (read_bytes bytes.now)) }
{
    if bytes.len() < 4 {
        return UNKNOWN;
    }
    let kind = bytes[0];
    match kind {
        1 => rle_verdict(bytes[1], &bytes[4..]),
        14 => size_verdict(bytes.len(), 4 + block::MEASUREMENT_BYTES),
        17 => summary_verdict(bytes, 4 + block::LOSS_BYTES, bytes[1] / 64),
        18 => summary_verdict(bytes, 4 + block::DISCARD_BYTES, bytes[1] / 64),
        240 => size_verdict(bytes.len(), 4 + block::EFFECTIVE_BYTES),
        241 => size_verdict(bytes.len(), 4 + block::STREAMS_BYTES),
        _ => UNKNOWN,
    }
}

// The verdict of a type 1, which waits for no measurement. Only its chunks tell whether it is good, so that it is read.
fn rle_verdict(specific: u8, body: &[u8]) -> u8
    ensures { result ≡ verdict_of (read_rle specific body.now) }
{
    match block::read_rle(specific, body) {
        BlockRead::Typed(_) => TYPED,
        BlockRead::Rle(_) => RLE,
        BlockRead::Unknown => UNKNOWN,
        BlockRead::Dropped(reason) => reason.into(),
    }
}

fn size_verdict(size: usize, wanted: usize) -> u8
    ensures { result ≡ size_verdict size wanted }
{
    if size != wanted {
        return Reason::BadSize.into();
    }
    TYPED
}

// The verdict of a 17 or 18, of which a good one waits for a measurement.
fn summary_verdict(bytes: &[u8], wanted: usize, flag: u8) -> u8
    ensures { result ≡ summary_verdict bytes.now wanted flag }
{
    if bytes.len() != wanted {
        return Reason::BadSize.into();
    }
    if !block::flag_good(flag) {
        return Reason::BadFlag.into();
    }
    if !block::rates_good(wire::u16_at(bytes, 8), wire::u16_at(bytes, 10)) {
        return Reason::BadRate.into();
    }
    UNMEASURED
}

// The source that a block of these bytes measures, if any, put behind the table's first k: answers how many these are
// then. A table of no more than k stays as it is. The table is lent and only its front is filled, since there is no heap: so
// the count goes beside it.
pub fn gather(bytes: &[u8], table: &mut [u32], k: usize) -> usize
    ensures count { result ≡ gathered_count (measures_of (read_bytes bytes.now)) (length table.old) k }
    ensures table { table.new ≡ gathered_table (measures_of (read_bytes bytes.now)) table.old k }
{
    if table.len() <= k {
        return k;
    }
    match block::measured_by(bytes) {
        Some(source) => {
            table[k] = source;
            k + 1
        }
        None => k,
    }
}

// Whether a block of these bytes is typed in a packet whose measured sources are those of the table. With a table that is
// not sorted the answer is free.
pub fn is_typed(bytes: &[u8], table: &[u32]) -> bool
    ensures { Sorted table.now → result ≡ typed_by table.now (read_bytes bytes.now) }
{
    let verdict = alone(bytes);
    if verdict == TYPED {
        return true;
    }
    if verdict != UNMEASURED {
        return false;
    }
    has(table, wire::u32_at(bytes, 4))
}

// Whether x stands in a sorted table: of the three numbers or fewer that are left of a search, the first, the middle and the
// last are all. In a table that is not sorted the answer is free.
pub fn has(table: &[u32], x: u32) -> bool
    ensures { Sorted table.now → result ≡ member x table.now }
{
    if table.is_empty() {
        return false;
    }
    let part = quarter(table, x);
    let low = part.low;
    let size = part.size;
    (table[low] == x) | (table[low + size / 2] == x) | (table[low + size - 1] == x)
}

// Where a search goes on: among so many numbers of the table, from low on.
#[derive(Clone, Copy)]
struct Part {
    low: usize,
    size: usize,
}

// A search for x down to three numbers or fewer, by quarters: the three numbers of a turn are read at once, and no branch depends
// on what the table holds.
fn quarter(table: &[u32], x: u32) -> Part
    requires { 0 < length table.now }
    ensures { Search table.now x result.low result.size × (result.size ≤ 3) }
{
    let part = near(table, x);
    let mut low = part.low;
    let mut size = part.size;
    while 3 < size {
        let fourth = size / 4;
        let first = at_most(table[low + fourth], x);
        let second = at_most(table[low + 2 * fourth], x);
        let third = at_most(table[low + 3 * fourth], x);
        low += fourth * (first + second + third);
        size -= 3 * fourth;
    }
    Part { low, size }
}

// Where a search begins. Sources are drawn at random (RFC 3550), so that x stands about as far into a long table as into all
// numbers: among the 63 there, if those around it say so, else anywhere.
#[tactic(auto, using(crate::proofs::Searching::share))]
fn near(table: &[u32], x: u32) -> Part
    requires { 0 < length table.now }
    ensures { Search table.now x result.low result.size }
{
    let size = table.len();
    if size < 128 {
        return Part { low: 0, size };
    }
    if 65_536 < size {
        return Part { low: 0, size };
    }
    let low = ((size - 64) as u64 * x as u64 / 4_294_967_296) as usize;
    if x < table[low] {
        return Part { low: 0, size };
    }
    if table[low + 63] <= x {
        return Part { low: 0, size };
    }
    Part { low, size: 63 }
}

// 1 where y is at most x, and 0 where not, as the carry of x + 2 ^ 32 - y: a test would be compiled to a branch.
fn at_most(y: u32, x: u32) -> usize
    ensures { result ≡ cond (leb y x) 1 0 }
{
    ((x as u64 + 4_294_967_296 - y as u64) / 4_294_967_296) as usize
}
