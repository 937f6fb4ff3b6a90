// All blocks of a packet at once: for each its place and its verdict. D4 asks whether a source is measured anywhere
// in the packet, so the sources of the measurement blocks are sorted into a table and looked up there. The lent
// list is the only room: while it is filled, its first half holds the table, and its second half one number for each
// block, place and verdict packed.
#![tactic(auto)]

ghost use Rattle.std.specs.Prelude.{◌≡◌, ◌&&◌, ◌++◌, ◌+◌, ◌*◌, ◌/◌, ◌%◌, ◌≤◌, eqb, length, take, drop};
ghost use Rattle.refusal.specs.Answer.{after};
ghost use Rattle.wire.specs.BigEndian.{u32_at};
ghost use Rattle.block.specs.Types.{unmeasured};
ghost use Rattle.frame.specs.Packet.{packet_of};
ghost use Rattle.packet.specs.Blocks.{measured};
ghost use Rattle.packet.specs.Steps.{blocks_of};
ghost use Rattle.verdict.specs.Sources.{Table};
ghost use Rattle.survey.specs.Survey.{list_of, list_answer};
ghost use Rattle.survey.specs.Packed.{verdicts, packing, spread_of, Room, Marked, Settleable};

use frame::Extent;
use refusal::Refusal;

// A packed block is its place times this, plus its verdict. Places are below 262,144.
const VERDICTS: u32 = 256;

// Fills out with two numbers for each block, its place and its verdict.
pub fn list(packet: &[u8], out: &mut [u32]) -> Result<usize, Refusal>
    ensures answer { result ≡ list_answer (packet_of packet.now) out.old }
    ensures buffer { out.new ≡ after (list_answer (packet_of packet.now) out.old) (list_of (packet_of packet.now)) out.old }
{
    let located = frame::locate(packet, Extent::Whole, 0)?;
    let count = located.count;
    if out.len() / 2 < count {
        return Err(Refusal::BufferShort);
    }
    let k = mark(packet, out, count);
    sorting::sort(&mut out[..k]);
    settle(packet, out, count, k);
    spread(out, count);
    Ok(2 * count)
}

// Walks the blocks: entry count + i takes block i, judged as if nothing were measured, and the first entries
// take the sources that are measured, as they come. Answers how many these are.
fn mark(s: &[u8], out: &mut [u32], count: usize) -> usize
    requires { Room s.now out.old count }
    ensures { Marked s.now out.old out.new count result }
{
    let mut at = frame::FIRST_BLOCK;
    let mut i = count;
    let mut k = 0;
    // Three numbers go on together: the block's place, its entry and the sources so far.
    for bytes in frame::blocks_from(s, frame::FIRST_BLOCK) {
        out[i] = at as u32 * VERDICTS + verdict::alone(bytes) as u32;
        k = verdict::gather(bytes, out, k);
        at += bytes.len();
        i += 1;
    }
    k
}

// Takes D4 back from each packed block whose source is in the table, the first k entries.
fn settle(s: &[u8], out: &mut [u32], count: usize, k: usize)
    requires { Settleable s.now out.old count k }
    ensures { drop count out.new ≡ packing (blocks_of s.now) (blocks_of s.now) ++ drop (2 * count) out.old }
{
    for i in count..2 * count {
        let packed = out[i];
        if is_measured(s, out, k, packed) {
            out[i] = packed - verdict::UNMEASURED as u32;
        }
    }
}

// Whether a packed block waits for a measurement, and has it.
fn is_measured(s: &[u8], table: &[u32], k: usize, packed: u32) -> bool
    requires { Table s.now table.now k }
    ensures { result ≡ (eqb (packed % verdicts) unmeasured && measured (u32_at s.now (packed / verdicts + 4)) (blocks_of s.now)) }
{
    if packed % VERDICTS != verdict::UNMEASURED as u32 {
        return false;
    }
    let start = (packed / VERDICTS) as usize + 4;
    verdict::has(&table[..k], wire::u32_at(s, start))
}

// Takes the packed blocks apart, from the front: entry 2 i + 1 is never past entry count + i, which was read.
fn spread(out: &mut [u32], count: usize)
    requires { 2 * count ≤ length out.old }
    ensures { out.new ≡ spread_of (take count (drop count out.old)) ++ drop (2 * count) out.old }
{
    for i in 0..count {
        let packed = out[count + i];
        out[2 * i] = packed / VERDICTS;
        out[2 * i + 1] = packed % VERDICTS;
    }
}
