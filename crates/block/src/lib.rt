// The five typed blocks, Loss RLE, and one block read by itself: document 01, "The packet". A reader takes the body of
// a block, the words after its first, of any size, and answers typed, Loss RLE, unknown, or dropped with its reason.
#![tactic(auto)]

ghost use Rattle.std.specs.Prelude.{◌≡◌};
ghost use Rattle.block.specs.Types.{reason_number};
ghost use Rattle.block.specs.Layouts.{covered};
ghost use Rattle.block.specs.Reading.{rate_good, rates_good, flag_good, summary_good, summary_read, read_measurement, read_loss, read_discard, read_effective, read_streams, read_rle, read_block, read_bytes, needs_of, measures_of};

use std::num::wrapping_sub_u16;

pub const RLE: u8 = 1;

pub const MEASUREMENT: u8 = 14;

pub const LOSS: u8 = 17;

pub const DISCARD: u8 = 18;

pub const EFFECTIVE: u8 = 240;

pub const STREAMS: u8 = 241;

// The words after a block's first: its block length.
pub const MEASUREMENT_WORDS: u16 = 7;

pub const LOSS_WORDS: u16 = 3;

pub const DISCARD_WORDS: u16 = 2;

pub const EFFECTIVE_WORDS: u16 = 2;

pub const STREAMS_WORDS: u16 = 11;

// The same in bytes: the size of the body.
pub const MEASUREMENT_BYTES: usize = 4 * MEASUREMENT_WORDS as usize;

pub const LOSS_BYTES: usize = 4 * LOSS_WORDS as usize;

pub const DISCARD_BYTES: usize = 4 * DISCARD_WORDS as usize;

pub const EFFECTIVE_BYTES: usize = 4 * EFFECTIVE_WORDS as usize;

pub const STREAMS_BYTES: usize = 4 * STREAMS_WORDS as usize;

// The words of a type 1 before its chunks, in bytes.
pub const RLE_HEAD: usize = 8;

// The longest interval of a type 1, in packets.
pub const INTERVAL_MAX: u16 = 65_533;

// The highest rate: every packet an event.
pub const RATE_MAX: u16 = 32_768;

// What is sent for a figure that is unavailable.
pub const UNAVAILABLE: u16 = 65_535;

// Type 14, Measurement Information: RFC 6776, section 4.
//
//   0                   1                   2                   3
//   0 1 2 3 4 5 6 7 8 9 0 1 2 3 4 5 6 7 8 9 0 1 2 3 4 5 6 7 8 9 0 1
//  +-+-+-+-+-+-+-+-+-+-+-+-+-+-+-+-+-+-+-+-+-+-+-+-+-+-+-+-+-+-+-+-+
//  |     BT=14     |    Reserved   |      block length = 7         |
//  +-+-+-+-+-+-+-+-+-+-+-+-+-+-+-+-+-+-+-+-+-+-+-+-+-+-+-+-+-+-+-+-+
//  |                    SSRC of stream source                      |
//  +-+-+-+-+-+-+-+-+-+-+-+-+-+-+-+-+-+-+-+-+-+-+-+-+-+-+-+-+-+-+-+-+
//  |            Reserved           |    first sequence number      |
//  +-+-+-+-+-+-+-+-+-+-+-+-+-+-+-+-+-+-+-+-+-+-+-+-+-+-+-+-+-+-+-+-+
//  |           extended first sequence number of interval          |
//  +-+-+-+-+-+-+-+-+-+-+-+-+-+-+-+-+-+-+-+-+-+-+-+-+-+-+-+-+-+-+-+-+
//  |                 extended last sequence number                 |
//  +-+-+-+-+-+-+-+-+-+-+-+-+-+-+-+-+-+-+-+-+-+-+-+-+-+-+-+-+-+-+-+-+
//  |              Measurement Duration (Interval)                  |
//  +-+-+-+-+-+-+-+-+-+-+-+-+-+-+-+-+-+-+-+-+-+-+-+-+-+-+-+-+-+-+-+-+
//  |     Measurement Duration (Cumulative) - Seconds (bit 0-31)    |
//  +-+-+-+-+-+-+-+-+-+-+-+-+-+-+-+-+-+-+-+-+-+-+-+-+-+-+-+-+-+-+-+-+
//  |     Measurement Duration (Cumulative) - Fraction (bit 0-31)   |
//  +-+-+-+-+-+-+-+-+-+-+-+-+-+-+-+-+-+-+-+-+-+-+-+-+-+-+-+-+-+-+-+-+
// C: nuvaskoe_measurement
#[repr(C)]
#[derive(Clone, Copy)]
pub struct Measurement {
    pub source: u32,
    pub first: u16, // first sequence number
    pub extended_first: u32, // extended first sequence number of the interval
    pub extended_last: u32, // extended last sequence number
    pub interval: u32, // interval duration
    pub seconds: u32, // cumulative duration, its seconds
    pub fraction: u32, // cumulative duration, its fraction
}

// Type 17, Burst/Gap Loss Summary Statistics: RFC 7004, section 3.1.
//
// I is the interval flag.
//
//   0                   1                   2                   3
//   0 1 2 3 4 5 6 7 8 9 0 1 2 3 4 5 6 7 8 9 0 1 2 3 4 5 6 7 8 9 0 1
//  +-+-+-+-+-+-+-+-+-+-+-+-+-+-+-+-+-+-+-+-+-+-+-+-+-+-+-+-+-+-+-+-+
//  |     BT=17     | I |  Reserved |      block length = 3         |
//  +-+-+-+-+-+-+-+-+-+-+-+-+-+-+-+-+-+-+-+-+-+-+-+-+-+-+-+-+-+-+-+-+
//  |                        SSRC of Source                         |
//  +-+-+-+-+-+-+-+-+-+-+-+-+-+-+-+-+-+-+-+-+-+-+-+-+-+-+-+-+-+-+-+-+
//  |        Burst Loss Rate        |         Gap Loss Rate         |
//  +-+-+-+-+-+-+-+-+-+-+-+-+-+-+-+-+-+-+-+-+-+-+-+-+-+-+-+-+-+-+-+-+
//  |      Burst Duration Mean      |    Burst Duration Variance    |
//  +-+-+-+-+-+-+-+-+-+-+-+-+-+-+-+-+-+-+-+-+-+-+-+-+-+-+-+-+-+-+-+-+
// C: nuvaskoe_loss_summary
#[repr(C)]
#[derive(Clone, Copy)]
pub struct LossSummary {
    pub flag: u8, // interval flag, 1 to 3
    pub source: u32,
    pub burst_rate: u16, // 0 to 32,768, or 65,535 for unavailable
    pub gap_rate: u16, // 0 to 32,768, or 65,535 for unavailable
    pub burst_mean: u16, // milliseconds; 65,534 for over range, 65,535 for unavailable
    pub burst_variance: u16, // the same two marks
}

// Type 18, Burst/Gap Discard Summary Statistics: RFC 7004, section 3.2.
//
//  +-+-+-+-+-+-+-+-+-+-+-+-+-+-+-+-+-+-+-+-+-+-+-+-+-+-+-+-+-+-+-+-+
//  |     BT=18     | I |  Reserved |      block length = 2         |
//  +-+-+-+-+-+-+-+-+-+-+-+-+-+-+-+-+-+-+-+-+-+-+-+-+-+-+-+-+-+-+-+-+
//  |                        SSRC of Source                         |
//  +-+-+-+-+-+-+-+-+-+-+-+-+-+-+-+-+-+-+-+-+-+-+-+-+-+-+-+-+-+-+-+-+
//  |       Burst Discard Rate      |        Gap Discard Rate       |
//  +-+-+-+-+-+-+-+-+-+-+-+-+-+-+-+-+-+-+-+-+-+-+-+-+-+-+-+-+-+-+-+-+
// C: nuvaskoe_discard_summary
#[repr(C)]
#[derive(Clone, Copy)]
pub struct DiscardSummary {
    pub flag: u8, // interval flag, 1 to 3
    pub source: u32,
    pub burst_rate: u16, // 0 to 32,768, or 65,535 for unavailable
    pub gap_rate: u16, // 0 to 32,768, or 65,535 for unavailable
}

// Type 240, effective loss: draft-zheng-xrblock-effective-loss-index. The number is ours, the length RFC 3611's.
//
//  +-+-+-+-+-+-+-+-+-+-+-+-+-+-+-+-+-+-+-+-+-+-+-+-+-+-+-+-+-+-+-+-+
//  |     BT=240    |    Reserved   |      block length = 2         |
//  +-+-+-+-+-+-+-+-+-+-+-+-+-+-+-+-+-+-+-+-+-+-+-+-+-+-+-+-+-+-+-+-+
//  |                        SSRC of Source                         |
//  +-+-+-+-+-+-+-+-+-+-+-+-+-+-+-+-+-+-+-+-+-+-+-+-+-+-+-+-+-+-+-+-+
//  |     Effective Loss Index      |            Reserved           |
//  +-+-+-+-+-+-+-+-+-+-+-+-+-+-+-+-+-+-+-+-+-+-+-+-+-+-+-+-+-+-+-+-+
// C: nuvaskoe_effective_summary
#[repr(C)]
#[derive(Clone, Copy)]
pub struct EffectiveSummary {
    pub source: u32,
    pub index: u16, // effective loss index; 65,535 is full loss
}

// Type 241, TR 101 290 decodability: draft-huang-xrblock-rtcp-xr-decodability, section 3. The number is ours. Every
// word from the third on is one of the fields after end, in their order.
//
//  +-+-+-+-+-+-+-+-+-+-+-+-+-+-+-+-+-+-+-+-+-+-+-+-+-+-+-+-+-+-+-+-+
//  |     BT=241    |    Reserved   |      block length = 11        |
//  +-+-+-+-+-+-+-+-+-+-+-+-+-+-+-+-+-+-+-+-+-+-+-+-+-+-+-+-+-+-+-+-+
//  |                        SSRC of source                         |
//  +-+-+-+-+-+-+-+-+-+-+-+-+-+-+-+-+-+-+-+-+-+-+-+-+-+-+-+-+-+-+-+-+
//  |          begin_seq            |             end_seq           |
//  +-+-+-+-+-+-+-+-+-+-+-+-+-+-+-+-+-+-+-+-+-+-+-+-+-+-+-+-+-+-+-+-+
//  |             Number of TSs, then eight counts of 32 bits       |
//  +-+-+-+-+-+-+-+-+-+-+-+-+-+-+-+-+-+-+-+-+-+-+-+-+-+-+-+-+-+-+-+-+
// C: nuvaskoe_stream_counts
#[repr(C)]
#[derive(Clone, Copy)]
pub struct StreamCounts {
    pub source: u32,
    pub begin: u16, // first sequence number
    pub end: u16, // sequence number after the last: it covers end minus begin packets, modulo 65,536
    pub streams: u32, // number of transport streams
    pub sync_losses: u32,
    pub sync_byte_errors: u32,
    pub continuity_errors: u32,
    pub transport_errors: u32,
    pub pcr_errors: u32,
    pub pcr_repetition_errors: u32,
    pub pcr_discontinuity_errors: u32,
    pub pts_errors: u32,
}

// Type 1, Loss RLE: RFC 3611, section 4.1. T is the thinning; crate chunk has the chunks.
//
//  +-+-+-+-+-+-+-+-+-+-+-+-+-+-+-+-+-+-+-+-+-+-+-+-+-+-+-+-+-+-+-+-+
//  |     BT=1      | rsvd. |   T   |         block length          |
//  +-+-+-+-+-+-+-+-+-+-+-+-+-+-+-+-+-+-+-+-+-+-+-+-+-+-+-+-+-+-+-+-+
//  |                        SSRC of source                         |
//  +-+-+-+-+-+-+-+-+-+-+-+-+-+-+-+-+-+-+-+-+-+-+-+-+-+-+-+-+-+-+-+-+
//  |          begin_seq            |             end_seq           |
//  +-+-+-+-+-+-+-+-+-+-+-+-+-+-+-+-+-+-+-+-+-+-+-+-+-+-+-+-+-+-+-+-+
//  |          chunk 1              |             chunk 2           |
//  +-+-+-+-+-+-+-+-+-+-+-+-+-+-+-+-+-+-+-+-+-+-+-+-+-+-+-+-+-+-+-+-+
//  :                              ...                              :
//  +-+-+-+-+-+-+-+-+-+-+-+-+-+-+-+-+-+-+-+-+-+-+-+-+-+-+-+-+-+-+-+-+
//  |          chunk n-1            |             chunk n           |
//  +-+-+-+-+-+-+-+-+-+-+-+-+-+-+-+-+-+-+-+-+-+-+-+-+-+-+-+-+-+-+-+-+
#[derive(Clone, Copy)]
pub struct LossRle {
    pub source: u32,
    pub begin: u16, // first sequence number
    pub end: u16, // sequence number after the last: the interval is end minus begin packets, modulo 65,536
    pub lost: u16, // packets of the interval that are lost
}

// Why a block is dropped, D1 to D5. D2 is the interval flag of a 17 or 18, and the thinning of a type 1.
#[derive(Clone, Copy, Debug, PartialEq, Eq)]
pub enum Reason {
    BadSize = 1,
    BadFlag = 2,
    BadRate = 3,
    Unmeasured = 4,
    BadChunks = 5,
}

// The numbers of the reasons, by the names that programs may use: a verdict is a number in what nuvaskoe_packet_list and
// nuvaskoe_block hold.
pub const BAD_SIZE: u8 = Reason::BadSize as u8;

pub const BAD_FLAG: u8 = Reason::BadFlag as u8;

pub const BAD_RATE: u8 = Reason::BadRate as u8;

pub const UNMEASURED: u8 = Reason::Unmeasured as u8;

pub const BAD_CHUNKS: u8 = Reason::BadChunks as u8;

// The number of a reason.
impl From<Reason> for u8 {
    ghost from_gives = { λ reason number. number ≡ reason_number reason };

    fn from(reason: Reason) -> u8 {
        reason as u8
    }
}

#[derive(Clone, Copy)]
pub enum Block {
    Measured(Measurement),
    Loss(LossSummary),
    Discard(DiscardSummary),
    Effective(EffectiveSummary),
    Streams(StreamCounts),
}

// What reading a block answers.
#[derive(Clone, Copy)]
pub enum BlockRead {
    Typed(Block),
    Rle(LossRle),
    Unknown,
    Dropped(Reason),
}

// One block by itself, from its type, type-specific byte and body.
pub fn read(kind: u8, specific: u8, body: &[u8]) -> BlockRead
    ensures { result ≡ read_block kind specific body.now }
{
    match kind {
        1 => read_rle(specific, body),
        14 => read_measurement(body),
        17 => read_loss(specific, body),
        18 => read_discard(specific, body),
        240 => read_effective(body),
        241 => read_streams(body),
        _ => BlockRead::Unknown,
    }
}

// One block by itself, from its own bytes: type, type-specific byte, two bytes of block length, body.
pub fn read_bytes(bytes: &[u8]) -> BlockRead
    ensures { result ≡ read_bytes bytes.now }
{
    if bytes.len() < 4 {
        return BlockRead::Unknown;
    }
    read(bytes[0], bytes[1], &bytes[4..])
}

fn read_measurement(body: &[u8]) -> BlockRead
    ensures { result ≡ read_measurement body.now }
{
    if body.len() != MEASUREMENT_BYTES {
        return BlockRead::Dropped(Reason::BadSize);
    }
    BlockRead::Typed(Block::Measured(Measurement {
        source: wire::u32_at(body, 0),
        first: wire::u16_at(body, 6),
        extended_first: wire::u32_at(body, 8),
        extended_last: wire::u32_at(body, 12),
        interval: wire::u32_at(body, 16),
        seconds: wire::u32_at(body, 20),
        fraction: wire::u32_at(body, 24),
    }))
}

fn read_loss(specific: u8, body: &[u8]) -> BlockRead
    ensures { result ≡ read_loss specific body.now }
{
    if body.len() != LOSS_BYTES {
        return BlockRead::Dropped(Reason::BadSize);
    }
    let l = LossSummary {
        flag: specific / 64,
        source: wire::u32_at(body, 0),
        burst_rate: wire::u16_at(body, 4),
        gap_rate: wire::u16_at(body, 6),
        burst_mean: wire::u16_at(body, 8),
        burst_variance: wire::u16_at(body, 10),
    };
    judge_summary(l.flag, l.burst_rate, l.gap_rate, Block::Loss(l))
}

fn read_discard(specific: u8, body: &[u8]) -> BlockRead
    ensures { result ≡ read_discard specific body.now }
{
    if body.len() != DISCARD_BYTES {
        return BlockRead::Dropped(Reason::BadSize);
    }
    let d = DiscardSummary {
        flag: specific / 64,
        source: wire::u32_at(body, 0),
        burst_rate: wire::u16_at(body, 4),
        gap_rate: wire::u16_at(body, 6),
    };
    judge_summary(d.flag, d.burst_rate, d.gap_rate, Block::Discard(d))
}

fn read_effective(body: &[u8]) -> BlockRead
    ensures { result ≡ read_effective body.now }
{
    if body.len() != EFFECTIVE_BYTES {
        return BlockRead::Dropped(Reason::BadSize);
    }
    BlockRead::Typed(Block::Effective(EffectiveSummary {
        source: wire::u32_at(body, 0),
        index: wire::u16_at(body, 4),
    }))
}

fn read_streams(body: &[u8]) -> BlockRead
    ensures { result ≡ read_streams body.now }
{
    if body.len() != STREAMS_BYTES {
        return BlockRead::Dropped(Reason::BadSize);
    }
    BlockRead::Typed(Block::Streams(StreamCounts {
        source: wire::u32_at(body, 0),
        begin: wire::u16_at(body, 4),
        end: wire::u16_at(body, 6),
        streams: wire::u32_at(body, 8),
        sync_losses: wire::u32_at(body, 12),
        sync_byte_errors: wire::u32_at(body, 16),
        continuity_errors: wire::u32_at(body, 20),
        transport_errors: wire::u32_at(body, 24),
        pcr_errors: wire::u32_at(body, 28),
        pcr_repetition_errors: wire::u32_at(body, 32),
        pcr_discontinuity_errors: wire::u32_at(body, 36),
        pts_errors: wire::u32_at(body, 40),
    }))
}

// Type 1. Its lost packets are counted chunk by chunk.
pub fn read_rle(specific: u8, body: &[u8]) -> BlockRead
    ensures { result ≡ read_rle specific body.now }
{
    if body.len() < RLE_HEAD {
        return BlockRead::Dropped(Reason::BadSize);
    }
    if body.len() % 4 != 0 {
        return BlockRead::Dropped(Reason::BadSize);
    }
    if specific % 16 != 0 {
        return BlockRead::Dropped(Reason::BadFlag);
    }
    let begin = wire::u16_at(body, 4);
    let end = wire::u16_at(body, 6);
    let interval = packets_covered(begin, end);
    if INTERVAL_MAX < interval {
        return BlockRead::Dropped(Reason::BadChunks);
    }
    let Some(lost) = chunk::count(&body[RLE_HEAD..], interval as usize) else {
        return BlockRead::Dropped(Reason::BadChunks);
    };
    BlockRead::Rle(LossRle {
        source: wire::u32_at(body, 0),
        begin,
        end,
        lost: lost as u16,
    })
}

// A 17 or 18 of its size, with this interval flag and these rates: dropped for D2 or D3, or typed.
fn judge_summary(flag: u8, burst_rate: u16, gap_rate: u16, b: Block) -> BlockRead
    ensures { result ≡ summary_read flag burst_rate gap_rate b }
{
    if !flag_good(flag) {
        return BlockRead::Dropped(Reason::BadFlag);
    }
    if !rates_good(burst_rate, gap_rate) {
        return BlockRead::Dropped(Reason::BadRate);
    }
    BlockRead::Typed(b)
}

// Whether a 17 or 18 with this interval flag and these rates may be written: reading would not drop it.
pub fn summary_good(flag: u8, burst_rate: u16, gap_rate: u16) -> bool
    ensures { result ≡ summary_good flag burst_rate gap_rate }
{
    flag_good(flag) & rates_good(burst_rate, gap_rate)
}

// Whether an interval flag is one that reading lets through.
pub fn flag_good(flag: u8) -> bool
    ensures { result ≡ flag_good flag }
{
    (1 <= flag) & (flag <= 3)
}

// Whether both rates are such.
pub fn rates_good(burst_rate: u16, gap_rate: u16) -> bool
    ensures { result ≡ rates_good burst_rate gap_rate }
{
    rate_good(burst_rate) & rate_good(gap_rate)
}

fn rate_good(r: u16) -> bool
    ensures { result ≡ rate_good r }
{
    (r <= RATE_MAX) | (r == UNAVAILABLE)
}

// What a typed block needs in its packet.
pub fn needed_by(b: Block) -> Option<u32>
    ensures { result ≡ needs_of b }
{
    match b {
        Block::Loss(l) => Some(l.source),
        Block::Discard(d) => Some(d.source),
        _ => None,
    }
}

// What a block with these bytes measures. It is asked of every block of a packet, so it reads the source alone.
pub fn measured_by(bytes: &[u8]) -> Option<u32>
    ensures { result ≡ measures_of (read_bytes bytes.now) }
{
    if bytes.len() != 4 + MEASUREMENT_BYTES {
        return None;
    }
    if bytes[0] != MEASUREMENT {
        return None;
    }
    Some(wire::u32_at(bytes, 4))
}

// The packets that a block 1 or 241 covers, over the wrap of 16-bit sequence numbers.
pub fn packets_covered(begin: u16, end: u16) -> u16
    ensures { result ≡ covered begin end }
{
    wrapping_sub_u16(end, begin)
}
