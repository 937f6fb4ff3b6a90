// The measured sources of two packets, as two sorted tables, with both packets judged on the way. A walk waits on each
// block's length before it knows the next place; the two packets are walked side by side, so that the two waits are one.
#![tactic(auto)]

ghost use Rattle.std.specs.Prelude.{◌≡◌, ◌+◌, ◌^◌, ◌<◌, ◌≤◌, length};
ghost use Rattle.block.specs.Reading.{read_bytes, measures_of};
ghost use Rattle.frame.specs.Frames.{first_block};
ghost use Rattle.frame.specs.Packet.{packet_of};
ghost use Rattle.verdict.specs.Sources.{gathered_count, gathered_table};
ghost use Rattle.sources.specs.Tables.{JudgedBoth};
ghost use Rattle.sources.specs.Steps.{Standing, EndedAs};

use frame::Extent;
use refusal::Refusal;

// How far the walk over a packet came: its next block, and how many sources stand in its table.
#[derive(Clone, Copy)]
struct Place {
    at: usize,
    count: usize,
}

const START: Place = Place {
    at: frame::FIRST_BLOCK,
    count: 0,
};

impl Place {
    // Past a block of these bytes, whose source goes into the table.
    fn past(self, bytes: &[u8], table: &mut [u32]) -> Place
        requires { self.at + length bytes.now < 2 ^ 64 }
        ensures at { result.at ≡ self.at + length bytes.now }
        ensures count { result.count ≡ gathered_count (measures_of (read_bytes bytes.now)) (length table.old) self.count }
        ensures table { table.new ≡ gathered_table (measures_of (read_bytes bytes.now)) table.old self.count }
    {
        Place {
            at: self.at + bytes.len(),
            count: verdict::gather(bytes, table, self.count),
        }
    }
}

// Judges two packets, the first before the second, and fills a table for each with the sources that it measures, sorted;
// answers how many stand in each. A table with one entry for each 32 bytes of its packet, the size of a block 14, has room
// for all. What a smaller one holds is free, and so is what both hold where a packet is refused.
pub fn of_two(
    first: &[u8],
    second: &[u8],
    table: &mut [u32],
    other: &mut [u32],
) -> Result<(usize, usize), Refusal>
    ensures { JudgedBoth (packet_of first.now) (packet_of second.now) first.now second.now table.new other.new result }
{
    if let Err(bad) = frame::read_header(second, Extent::Whole) {
        frame::locate(first, Extent::Whole, 0)?;
        return Err(bad);
    }
    frame::read_header(first, Extent::Whole)?;
    let (one, two) = both(first, second, table, other);
    let j = finish(first, one, table)?;
    let k = finish(second, two, other)?;
    Ok((j, k))
}

// Walks both packets block by block, as far as both have whole blocks, and gathers their sources.
fn both(first: &[u8], second: &[u8], table: &mut [u32], other: &mut [u32]) -> (Place, Place)
    requires { (first_block ≤ length first.now) × (first_block ≤ length second.now) }
    ensures { Standing first.now table.new result.0.at result.0.count × Standing second.now other.new result.1.at result.1.count }
{
    let mut one = START;
    let mut two = START;
    let second_blocks = frame::blocks_from(second, frame::FIRST_BLOCK);
    for (x, y) in frame::blocks_from(first, frame::FIRST_BLOCK).zip(second_blocks) {
        one = one.past(x, table);
        two = two.past(y, other);
    }
    (one, two)
}

// Walks one packet on to its end, and sorts all sources of its table.
fn finish(s: &[u8], from: Place, table: &mut [u32]) -> Result<usize, Refusal>
    requires { Standing s.now table.old from.at from.count }
    ensures { EndedAs s.now table.new result }
{
    let mut place = from;
    for bytes in frame::blocks_from(s, from.at) {
        place = place.past(bytes, table);
    }
    if place.at < s.len() {
        return Err(Refusal::BlockPastEnd(place.at));
    }
    sorting::sort(&mut table[..place.count]);
    Ok(place.count)
}
