// Report packets written: document 01, "Writing". A new packet, and a typed block added to the packet at the
// front of a lent buffer, which may be longer than the packet; what is judged before words of any kind are appended.
#![tactic(auto)]

ghost use Rattle.std.specs.Prelude.{◌≡◌};
ghost use Rattle.refusal.specs.Answer.{after};
ghost use Rattle.encode.specs.Words.{words_of};
ghost use Rattle.compose.specs.Writing.{new_bytes, new_answer, append_answer, grown, own_of, add_answer};

use block::Block;
use frame::Extent;
use refusal::Refusal;

// 80 CF 00 01: version 2, no padding, type 207 and a length field of 1, the first word of a packet with no blocks.
const EMPTY_FIRST_WORD: u32 = 2_161_049_601;

const LENGTH_MAX: usize = 65_535;

// A packet with this sender and no blocks, in the first eight bytes of out.
pub fn new_packet(out: &mut [u8], sender: u32) -> Result<usize, Refusal>
    ensures answer { result ≡ new_answer out.old }
    ensures buffer { out.new ≡ after (new_answer out.old) (new_bytes sender) out.old }
{
    if out.len() < frame::FIRST_BLOCK {
        return Err(Refusal::BufferShort);
    }
    wire::put_u32(out, 0, EMPTY_FIRST_WORD);
    wire::put_u32(out, 4, sender);
    Ok(frame::FIRST_BLOCK)
}

// Adds a block to the packet at the front of out, and answers the packet's new size in bytes. What is already
// there is walked once, as refusal 6 asks.
pub fn add(out: &mut [u8], b: Block) -> Result<usize, Refusal>
    ensures answer { result ≡ add_answer out.old b }
    ensures buffer { out.new ≡ after (add_answer out.old b) (grown out.old (words_of b)) out.old }
{
    let words = encode::words(b);
    let count = words.as_slice().len();
    let size = judge_append(out, judge_block(b), count)?;
    encode::write(out, size - 4 * count, b);
    wire::put_u16(out, 2, (size / 4 - 1) as u16);
    Ok(size)
}

// Whether a block of this many words, with its own refusals judged, can be appended to the packet at the front of s: the
// packet's size with it, or why not.
pub fn judge_append(s: &[u8], own: Result<(), Refusal>, words: usize) -> Result<usize, Refusal>
    ensures { result ≡ append_answer s.now own words }
{
    frame::locate(s, Extent::Front, 0)?;
    own?;
    let length = wire::u16_at(s, 2) as usize;
    if LENGTH_MAX - length < words {
        return Err(Refusal::PacketFull);
    }
    let size = 4 * (length + words + 1);
    if s.len() < size {
        return Err(Refusal::BufferShort);
    }
    Ok(size)
}

// A typed block's own refusal: 16.
fn judge_block(b: Block) -> Result<(), Refusal>
    ensures { result ≡ own_of b }
{
    if !encode::writable(b) {
        return Err(Refusal::BlockValue);
    }
    Ok(())
}
