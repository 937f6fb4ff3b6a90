// Writes the body of one block of a report packet as raw bytes, nothing where asking for the block is refused: document 01,
// "The packet". The block's number, counted from 0, is the one argument; the packet comes from standard input, at most 65,536
// bytes; more gives only `too long`. A read or a write that fails ends the program with its error.
#![tactic(auto)]

ghost use Rattle.std.specs.Prelude.{◌≡◌};
ghost use Rattle.body.specs.Number.{number_of};

use std::env::{Env, FillError};
use std::io;
use std::io::Read;

// The longest packet, in bytes; the buffer has room for one more.
const MOST: u64 = 65_536;

// The most digits of a block's number: more than the blocks of a packet need.
const DIGITS: usize = 6;

fn main(rt: HostRuntime) -> io::Result<()> {
    match asked(&rt) {
        Some(index) => show(&rt, index),
        None => rt.write_all(b"usage: body NUMBER < PACKET\n"),
    }
}

// The number of the one argument. An argument of more than DIGITS bytes is no number.
fn asked(env: &impl Env) -> Option<usize> {
    if has_argument(env, 2) {
        return None;
    }
    let mut digits = [0u8; DIGITS];
    let n = env.arg(1, &mut digits).ok()?;
    number_in(&digits[..n])
}

// Whether there is an argument i; 0 is the program's own name.
fn has_argument(env: &impl Env, i: usize) -> bool {
    !matches!(env.arg(i, &mut [0u8; 1]), Err(FillError::NotPresent))
}

fn show(rt: &(impl Input + Print), index: usize) -> io::Result<()> {
    let mut buffer = [0u8; 65_537];
    let n = io::copy(&mut rt.reader().take(MOST + 1), &mut &mut buffer[..])?;
    if MOST < n {
        return rt.write_all(b"too long\n");
    }
    rt.write_all(packet::body(&buffer[..n as usize], index))
}

// The number of a text of one to six decimal digits; any other text has none.
#[tactic(auto, using(crate::proofs::Digits::by_digits), unfolding(crate::specs::Number::number_of))]
fn number_in(text: &[u8]) -> Option<usize>
    ensures { result ≡ number_of text.now }
{
    if text.is_empty() || DIGITS < text.len() {
        return None;
    }
    let mut n = 0;
    for &c in text {
        if !c.is_ascii_digit() {
            return None;
        }
        n = 10 * n + (c - b'0') as usize;
    }
    Some(n)
}
