// Big-endian numbers in bytes: RFC 3611, section 2. A number that runs past the end reads as 0 and is not
// written, so that the calls take any bytes and any position; a caller that knows its size never meets that.
#![tactic(auto)]

ghost use Rattle.std.specs.Prelude.{◌≡◌};
ghost use Rattle.wire.specs.BigEndian.{u16_at, u32_at, bytes_in, bytes16, bytes32, placed};

// The 16-bit number whose first byte stands at i.
pub fn u16_at(s: &[u8], i: usize) -> u16
    ensures { result ≡ u16_at s.now i }
{
    u16::from_be_bytes(bytes_at(s, i))
}

// The 32-bit number whose first byte stands at i.
pub fn u32_at(s: &[u8], i: usize) -> u32
    ensures { result ≡ u32_at s.now i }
{
    u32::from_be_bytes(bytes_at(s, i))
}

// The bytes from i on; zeros where they run past the end. Of the two tests the first is of the slice alone, so that a loop over a slice
// makes it once.
fn bytes_at<const N: usize>(s: &[u8], i: usize) -> [u8; N]
    ensures { result ≡ bytes_in N s.now i }
{
    if s.len() < N || s.len() - N < i {
        return [0; N];
    }
    *s[i..i + N].first_chunk().unwrap()
}

// Writes a 16-bit number whose first byte then stands at i.
pub fn put_u16(s: &mut [u8], i: usize, half: u16)
    ensures { s.new ≡ placed s.old i (bytes16 half) }
{
    put(s, i, half.to_be_bytes());
}

// Writes a 32-bit number whose first byte then stands at i.
pub fn put_u32(s: &mut [u8], i: usize, word: u32)
    ensures { s.new ≡ placed s.old i (bytes32 word) }
{
    put(s, i, word.to_be_bytes());
}

// Writes bytes, the first of them at i.
fn put<const N: usize>(s: &mut [u8], i: usize, bytes: [u8; N])
    ensures { s.new ≡ placed s.old i bytes.entry }
{
    let length = s.len();
    if length < N || length - N < i {
        return;
    }
    s[i..i + N].copy_from_slice(&bytes);
}
