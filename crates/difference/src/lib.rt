// One difference of two packets in the lent list, and those of two typed blocks of one type, field by field: document 02,
// ticket 1. A block's fields are read from its own bytes, by their places (specs/Places.antt, the diagrams of crate block).
// An entry is counted in any case, and written where the list has room for it.
#![tactic(auto)]

ghost use Rattle.std.specs.Prelude.{◌≡◌, [], ◌∷◌, ◌≤◌, length};
ghost use Rattle.block.specs.Types.{measurement_type, loss_type, discard_type, effective_type, streams_type};
ghost use Rattle.difference.specs.Differences.{kind_number};
ghost use Rattle.difference.specs.Numbers.{Adds};
ghost use Rattle.difference.specs.Places.{flag, half, word, field_differences};
ghost use Rattle.difference.specs.Steps.{count_max, AddsField, AddsPlaces, of_type};

// The kinds of difference, each with its number in the list.
#[derive(Clone, Copy, Debug, PartialEq, Eq)]
pub enum Kind {
    Sender = 0,
    Field = 1,
    Block = 2,
    OnlyFirst = 3,
    OnlySecond = 4,
}

impl From<Kind> for u32 {
    ghost from_gives = { λ kind number. number ≡ kind_number kind };

    fn from(kind: Kind) -> u32 {
        kind as u32
    }
}

// How many numbers of the list a difference takes.
pub const NUMBERS: usize = 5;

// The sizes of the five kinds in bytes, with the first word.
const MEASUREMENT_SIZE: usize = 4 + block::MEASUREMENT_BYTES;

const LOSS_SIZE: usize = 4 + block::LOSS_BYTES;

const DISCARD_SIZE: usize = 4 + block::DISCARD_BYTES;

const EFFECTIVE_SIZE: usize = 4 + block::EFFECTIVE_BYTES;

const STREAMS_SIZE: usize = 4 + block::STREAMS_BYTES;

// One difference: its kind, and the numbers of it that this kind uses; the others are 0.
#[derive(Clone, Copy)]
pub struct Difference {
    pub kind: Kind,
    pub block: u32, // the block's index
    pub field: u32, // the field's place in layout order, from 0
    pub first: u32, // the first packet's reading of a field, or its sender
    pub second: u32, // the second packet's
}

// Adds a difference to a list with n of them, and answers how many there are then.
pub fn put(out: &mut [u32], n: u32, d: Difference) -> usize
    ensures { Adds (d ∷ []) out.old out.new n result }
{
    add(out, n as usize, d)
}

// Adds the fields in which two blocks of one type, number k of their packets, differ; none of two types, or where one has not
// the size of its type.
pub fn put_fields(x: &[u8], y: &[u8], out: &mut [u32], n: u32, k: u32) -> usize
    ensures { Adds (field_differences k x.now y.now) out.old out.new n result }
{
    if x.len() != y.len() {
        return n as usize;
    }
    if x.len() == 0 {
        return n as usize;
    }
    let kind = x[0];
    if kind != y[0] {
        return n as usize;
    }
    match kind {
        14 => measurement_fields(x, y, out, n, k),
        17 => loss_fields(x, y, out, n, k),
        18 => discard_fields(x, y, out, n, k),
        240 => effective_fields(x, y, out, n, k),
        241 => stream_fields(x, y, out, n, k),
        _ => n as usize,
    }
}

// The kinds one by one, for two blocks of the same size. The size is tested first, so that no number is tested for its end, and
// each kind has its own straight line: one loop over a table of places was tried and took 1.37 times as long.
// The five parameters stay: put_fields takes them so, and a struct would only be taken apart for each line, where n alone changes.
fn measurement_fields(x: &[u8], y: &[u8], out: &mut [u32], n: u32, k: u32) -> usize
    ensures { Adds (of_type measurement_type k x.now y.now) out.old out.new n result }
{
    if x.len() != MEASUREMENT_SIZE {
        return n as usize;
    }
    let n = add_word(x, y, 4, 0, out, n as usize, k);
    let n = add_half(x, y, 10, 1, out, n, k);
    let n = add_word(x, y, 12, 2, out, n, k);
    let n = add_word(x, y, 16, 3, out, n, k);
    let n = add_word(x, y, 20, 4, out, n, k);
    let n = add_word(x, y, 24, 5, out, n, k);
    add_word(x, y, 28, 6, out, n, k)
}

fn loss_fields(x: &[u8], y: &[u8], out: &mut [u32], n: u32, k: u32) -> usize
    requires { length y.now ≡ length x.now }
    ensures { Adds (of_type loss_type k x.now y.now) out.old out.new n result }
{
    if x.len() != LOSS_SIZE {
        return n as usize;
    }
    let n = add_flag(x, y, out, n, k);
    let n = add_word(x, y, 4, 1, out, n, k);
    let n = add_half(x, y, 8, 2, out, n, k);
    let n = add_half(x, y, 10, 3, out, n, k);
    let n = add_half(x, y, 12, 4, out, n, k);
    add_half(x, y, 14, 5, out, n, k)
}

fn discard_fields(x: &[u8], y: &[u8], out: &mut [u32], n: u32, k: u32) -> usize
    requires { length y.now ≡ length x.now }
    ensures { Adds (of_type discard_type k x.now y.now) out.old out.new n result }
{
    if x.len() != DISCARD_SIZE {
        return n as usize;
    }
    let n = add_flag(x, y, out, n, k);
    let n = add_word(x, y, 4, 1, out, n, k);
    let n = add_half(x, y, 8, 2, out, n, k);
    add_half(x, y, 10, 3, out, n, k)
}

fn effective_fields(x: &[u8], y: &[u8], out: &mut [u32], n: u32, k: u32) -> usize
    ensures { Adds (of_type effective_type k x.now y.now) out.old out.new n result }
{
    if x.len() != EFFECTIVE_SIZE {
        return n as usize;
    }
    let n = add_word(x, y, 4, 0, out, n as usize, k);
    add_half(x, y, 8, 1, out, n, k)
}

fn stream_fields(x: &[u8], y: &[u8], out: &mut [u32], n: u32, k: u32) -> usize
    ensures { Adds (of_type streams_type k x.now y.now) out.old out.new n result }
{
    if x.len() != STREAMS_SIZE {
        return n as usize;
    }
    let n = add_word(x, y, 4, 0, out, n as usize, k);
    let n = add_half(x, y, 8, 1, out, n, k);
    let n = add_half(x, y, 10, 2, out, n, k);
    let n = add_word(x, y, 12, 3, out, n, k);
    let n = add_word(x, y, 16, 4, out, n, k);
    let n = add_word(x, y, 20, 5, out, n, k);
    let n = add_word(x, y, 24, 6, out, n, k);
    let n = add_word(x, y, 28, 7, out, n, k);
    let n = add_word(x, y, 32, 8, out, n, k);
    let n = add_word(x, y, 36, 9, out, n, k);
    let n = add_word(x, y, 40, 10, out, n, k);
    add_word(x, y, 44, 11, out, n, k)
}

// The interval flag of a 17 or 18, their first field; the bits beside it are reserved.
fn add_flag(x: &[u8], y: &[u8], out: &mut [u32], n: u32, k: u32) -> usize
    requires { (2 ≤ length x.now) × (2 ≤ length y.now) }
    ensures { AddsPlaces k 0 (flag ∷ []) x.now y.now out.old out.new n result }
{
    add_field(
        out,
        n as usize,
        k,
        0,
        (x[1] / 64) as u32,
        (y[1] / 64) as u32,
    )
}

// The 32-bit number at byte i, as field f.
fn add_word(x: &[u8], y: &[u8], i: usize, f: u32, out: &mut [u32], n: usize, k: u32) -> usize
    requires { n ≤ count_max }
    ensures { AddsPlaces k f (word i ∷ []) x.now y.now out.old out.new n result }
{
    add_field(out, n, k, f, wire::u32_at(x, i), wire::u32_at(y, i))
}

// The 16-bit number at byte i, as field f.
fn add_half(x: &[u8], y: &[u8], i: usize, f: u32, out: &mut [u32], n: usize, k: u32) -> usize
    requires { n ≤ count_max }
    ensures { AddsPlaces k f (half i ∷ []) x.now y.now out.old out.new n result }
{
    add_field(
        out,
        n,
        k,
        f,
        wire::u16_at(x, i) as u32,
        wire::u16_at(y, i) as u32,
    )
}

// Field f of block k, where its two readings differ.
fn add_field(out: &mut [u32], n: usize, k: u32, f: u32, a: u32, b: u32) -> usize
    requires { n ≤ count_max }
    ensures { AddsField k f a b out.old out.new n result }
{
    if a == b {
        return n;
    }
    add(
        out,
        n,
        Difference {
            kind: Kind::Field,
            block: k,
            field: f,
            first: a,
            second: b,
        },
    )
}

// The difference behind n others. The bound of n stays a clause: a type that has it would be made anew by each line, as n goes up.
fn add(out: &mut [u32], n: usize, d: Difference) -> usize
    requires { n ≤ count_max }
    ensures { Adds (d ∷ []) out.old out.new n result }
{
    let at = NUMBERS * n;
    if out.len() < at + NUMBERS {
        return n + 1;
    }
    out[at..at + NUMBERS].copy_from_slice(&[d.kind.into(), d.block, d.field, d.first, d.second]);
    n + 1
}
