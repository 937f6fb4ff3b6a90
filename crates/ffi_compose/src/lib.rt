// Report packets written at the boundary to C: one call for each kind of block, each with a struct of exact widths, so
// that every value that C can pass is one that document 01 speaks of.
#![tactic(auto)]

ghost use Rattle.std.specs.Prelude.{◌≡◌};
ghost use Rattle.refusal.specs.Answer.{after};
ghost use Rattle.block.specs.declared.Block.TheVariants.{Measured, Loss, Discard, Effective, Streams};
ghost use Rattle.encode.specs.Words.{words_of};
ghost use Rattle.compose.specs.Writing.{new_bytes, new_answer, add_answer, grown};
ghost use Rattle.ffi_answer.specs.Answers.{written_out};

use block::{Block, DiscardSummary, EffectiveSummary, LossSummary, Measurement, StreamCounts};
use ffi_answer::WrittenSize;
use refusal::Refusal;

// Writes a packet with this sender and no blocks into the first 8 bytes of out; the bytes after them keep what they
// held. A good write answers size 8. Refusal: 8.
#[unsafe(no_mangle)]
pub extern "C" fn nuvaskoe_packet_new(sender: u32, out: &mut [u8]) -> WrittenSize
    ensures answer { result ≡ written_out (new_answer out.old) }
    ensures buffer { out.new ≡ after (new_answer out.old) (new_bytes sender) out.old }
{
    compose::new_packet(out, sender).into()
}

// Adds a block 14 to the packet at the front of out.
#[unsafe(no_mangle)]
pub extern "C" fn nuvaskoe_packet_add_measurement(out: &mut [u8], block: Measurement) -> WrittenSize
    ensures answer { result ≡ written_out (add_answer out.old (Measured block)) }
    ensures buffer { out.new ≡ after (add_answer out.old (Measured block)) (grown out.old (words_of (Measured block))) out.old }
{
    compose::add(out, Block::Measured(block)).into()
}

// Adds a block 17.
#[unsafe(no_mangle)]
pub extern "C" fn nuvaskoe_packet_add_loss(out: &mut [u8], block: LossSummary) -> WrittenSize
    ensures answer { result ≡ written_out (add_answer out.old (Loss block)) }
    ensures buffer { out.new ≡ after (add_answer out.old (Loss block)) (grown out.old (words_of (Loss block))) out.old }
{
    compose::add(out, Block::Loss(block)).into()
}

// Adds a block 18.
#[unsafe(no_mangle)]
pub extern "C" fn nuvaskoe_packet_add_discard(out: &mut [u8], block: DiscardSummary) -> WrittenSize
    ensures answer { result ≡ written_out (add_answer out.old (Discard block)) }
    ensures buffer { out.new ≡ after (add_answer out.old (Discard block)) (grown out.old (words_of (Discard block))) out.old }
{
    compose::add(out, Block::Discard(block)).into()
}

// Adds a block 240.
#[unsafe(no_mangle)]
pub extern "C" fn nuvaskoe_packet_add_effective(
    out: &mut [u8],
    block: EffectiveSummary,
) -> WrittenSize
    ensures answer { result ≡ written_out (add_answer out.old (Effective block)) }
    ensures buffer { out.new ≡ after (add_answer out.old (Effective block)) (grown out.old (words_of (Effective block))) out.old }
{
    compose::add(out, Block::Effective(block)).into()
}

// Adds a block 241.
#[unsafe(no_mangle)]
pub extern "C" fn nuvaskoe_packet_add_streams(out: &mut [u8], block: StreamCounts) -> WrittenSize
    ensures answer { result ≡ written_out (add_answer out.old (Streams block)) }
    ensures buffer { out.new ≡ after (add_answer out.old (Streams block)) (grown out.old (words_of (Streams block))) out.old }
{
    compose::add(out, Block::Streams(block)).into()
}
