// A trace read out of the chunks of a Loss RLE block: RFC 3611, section 4.1. Runs are filled. A whole vector is put eight
// packets at a time, and one that the end cuts off bit by bit.
#![tactic(auto)]

ghost use Rattle.std.specs.Prelude.{◌≡◌, ◌++◌, ◌+◌, ◌-◌, ◌≤◌, min, length, take, drop};
ghost use Rattle.chunk.specs.Chunks.{vector_bits, vector_of, packets_of, packets_in, chunks_in};
ghost use Rattle.unroll.specs.Packed.{packed};

// The trace of so many packets that the chunks describe, as far as they reach and out has room, into the front of out;
// answers how many packets that is.
pub fn read_out(chunks: &[u8], packets: usize, out: &mut [u8]) -> usize
    ensures answer { result ≡ length (take (min packets (length out.old)) (packets_in (chunks_in chunks.now))) }
    ensures buffer { out.new ≡ take (min packets (length out.old)) (packets_in (chunks_in chunks.now)) ++ drop result out.old }
{
    let end = packets.min(out.len());
    let mut at = 0;
    for pair in chunks.chunks_exact(2) {
        at += put_chunk(&mut out[at..end], u16::from_be_bytes([pair[0], pair[1]]));
    }
    at
}

// A chunk's packets, as far as out has room, into the front of out: answers how many that is.
fn put_chunk(out: &mut [u8], bits: u16) -> usize
    ensures answer { result ≡ length (take (length out.old) (packets_of bits)) }
    ensures buffer { out.new ≡ take (length out.old) (packets_of bits) ++ drop result out.old }
{
    let part = chunk::span(bits).min(out.len());
    if bits < chunk::VECTOR {
        out[..part].fill((1 - bits / chunk::RUN_OF_RECEIVED) as u8);
        return part;
    }
    put_vector(&mut out[..part], bits);
    part
}

// The first packets of a vector, as many as out is long. Of a whole one the packet in the middle is put twice, so that both times it
// is eight. The test stands between the two: without it the compiler leaves out that packet the first time, and then puts byte by byte.
fn put_vector(out: &mut [u8], bits: u16)
    requires { length out.old ≤ vector_bits }
    ensures { out.new ≡ take (length out.old) (vector_of vector_bits bits) }
{
    if out.len() < 8 {
        put_bits(out, bits);
        return;
    }
    put_eight(&mut out[..8], (bits / 128 % 256) as u8);
    if out.len() < chunk::VECTOR_BITS {
        put_bits(out, bits);
        return;
    }
    put_eight(&mut out[7..], (bits % 256) as u8);
}

// The first packets of a vector, one by one.
fn put_bits(out: &mut [u8], bits: u16)
    requires { length out.old ≤ vector_bits }
    ensures { out.new ≡ take (length out.old) (vector_of vector_bits bits) }
{
    for j in 0..out.len() {
        out[j] = 1 - (bits >> (chunk::VECTOR_BITS - 1 - j) & 1) as u8;
    }
}

// The packets of eight bits, which are the bytes of one number in order, so that the compiler makes one store of them.
fn put_eight(out: &mut [u8], bits: u8)
    requires { length out.old ≡ 8 }
    ensures { out.new ≡ vector_of 8 bits }
{
    out.copy_from_slice(&eight(bits).to_le_bytes());
}

// A number times this is seven copies of it, nine places apart.
const SEVEN_COPIES: u64 = 0x0040_2010_0804_0201;

// A one in each byte.
const ONES: u64 = 0x0101_0101_0101_0101;

// The packets of eight bits as one number, the first in its lowest byte. Eight copies, nine places apart, bring bit 7 - k to the
// top place of byte k, and no two of them meet. Of the eighth only the lowest bit is left, which is the one wanted.
fn eight(bits: u8) -> u64
    ensures { result ≡ packed (vector_of 8 bits) }
{
    let copies = bits as u64 * SEVEN_COPIES + ((bits as u64) << 63);
    ONES - (copies / 128 & ONES)
}
