// One block at the boundary to C: what reading it came to, its fields as thirteen numbers with an order by type.
#![tactic(auto)]

ghost use Rattle.std.specs.Prelude.{◌≡◌, ◌++◌, ◌≤◌, length, take};
ghost use Rattle.block.specs.Reading.{read_block};
ghost use Rattle.block.specs.declared.Block.TheVariants.{Measured, Streams};
ghost use Rattle.ffi_block.specs.Answers.{no_fields, fields_out, rle_out, read_out, block_out};

use block::{Block, BlockRead, LossRle, Measurement, StreamCounts};
use ffi_answer::{NONE, RefusalFields};
use packet::BlockAt;
use refusal::Refusal;

// How many numbers the fields of any block take.
pub const FIELDS: usize = 13;

// One block.
// C: nuvaskoe_block
#[repr(C)]
#[derive(Clone, Copy)]
pub struct BlockFields {
    pub refusal: RefusalFields,
    pub block_type: u32, // 0 where refused
    pub verdict: u32, // NUVASKOE_VERDICT_UNKNOWN where refused
    pub fields: [u32; FIELDS], // where typed, or Loss RLE, by the names of its type's places; all others 0
}

pub const NO_FIELDS: [u32; FIELDS] = [0; FIELDS];

// Of a refused call: 0 would read as typed.
const NO_VERDICT: u32 = verdict::UNKNOWN as u32;

// So many fields, with zeros behind.
fn padded(fields: &[u32]) -> [u32; FIELDS]
    requires { length fields.now ≤ 13 }
    ensures { result ≡ take 13 (fields.now ++ no_fields) }
{
    let mut all = NO_FIELDS;
    all[..fields.len()].copy_from_slice(fields);
    all
}

// The fields of a typed block, in the header's order.
fn fields_of(b: Block) -> [u32; FIELDS]
    ensures { result ≡ fields_out b }
{
    match b {
        Block::Measured(m) => measurement_fields(m),
        Block::Loss(l) => padded(&[
            l.flag as u32,
            l.source,
            l.burst_rate as u32,
            l.gap_rate as u32,
            l.burst_mean as u32,
            l.burst_variance as u32,
        ]),
        Block::Discard(d) => padded(&[
            d.flag as u32,
            d.source,
            d.burst_rate as u32,
            d.gap_rate as u32,
        ]),
        Block::Effective(e) => padded(&[e.source, e.index as u32]),
        Block::Streams(t) => stream_fields(t),
    }
}

fn measurement_fields(m: Measurement) -> [u32; FIELDS]
    ensures { result ≡ fields_out (Measured m) }
{
    padded(&[
        m.source,
        m.first as u32,
        m.extended_first,
        m.extended_last,
        m.interval,
        m.seconds,
        m.fraction,
    ])
}

fn stream_fields(t: StreamCounts) -> [u32; FIELDS]
    ensures { result ≡ fields_out (Streams t) }
{
    [
        t.source,
        t.begin as u32,
        t.end as u32,
        block::packets_covered(t.begin, t.end) as u32,
        t.streams,
        t.sync_losses,
        t.sync_byte_errors,
        t.continuity_errors,
        t.transport_errors,
        t.pcr_errors,
        t.pcr_repetition_errors,
        t.pcr_discontinuity_errors,
        t.pts_errors,
    ]
}

// The fields of a good type 1, in the header's order.
fn rle_fields(r: LossRle) -> [u32; FIELDS]
    ensures { result ≡ rle_out r }
{
    let packets = block::packets_covered(r.begin, r.end);
    padded(&[
        r.source,
        r.begin as u32,
        r.end as u32,
        packets as u32,
        r.lost as u32,
    ])
}

impl From<BlockAt> for BlockFields {
    ghost from_gives = { λ found fields. fields ≡ read_out found.kind found.read };

    fn from(found: BlockAt) -> BlockFields {
        let (verdict, fields) = match found.read {
            BlockRead::Typed(b) => (verdict::TYPED, fields_of(b)),
            BlockRead::Rle(r) => (verdict::RLE, rle_fields(r)),
            BlockRead::Unknown => (verdict::UNKNOWN, NO_FIELDS),
            BlockRead::Dropped(reason) => (reason.into(), NO_FIELDS),
        };
        BlockFields {
            refusal: NONE,
            block_type: found.kind as u32,
            verdict: verdict as u32,
            fields,
        }
    }
}

// What a call on a packet answers about one block, or why it said no.
impl From<Result<BlockAt, Refusal>> for BlockFields {
    ghost from_gives = { λ block fields. fields ≡ block_out block };

    fn from(block: Result<BlockAt, Refusal>) -> BlockFields {
        match block {
            Ok(found) => found.into(),
            Err(why) => BlockFields {
                refusal: why.into(),
                block_type: 0,
                verdict: NO_VERDICT,
                fields: NO_FIELDS,
            },
        }
    }
}

// One block by itself, from its type, type-specific byte and body: never refused, and never
// NUVASKOE_VERDICT_UNMEASURED.
#[unsafe(no_mangle)]
pub extern "C" fn nuvaskoe_block_read(block_type: u8, specific: u8, body: &[u8]) -> BlockFields
    ensures { result ≡ read_out block_type (read_block block_type specific body.now) }
{
    BlockAt {
        kind: block_type,
        read: block::read(block_type, specific, body),
    }
    .into()
}
