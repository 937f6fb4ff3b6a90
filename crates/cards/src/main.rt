// Reads settings cards from standard input, one a line, and writes a line for each: the card that its
// settings are written as and the four settings, or the refusal. At most 65,536 bytes; more gives only
// `too long`. A line's end is no part of its card. A read or a write that fails ends the program with its error.
#![tactic(auto)]

use refusal::Refusal;
use settings::Settings;
use std::io;
use std::io::Read;

fn main(rt: HostRuntime) -> io::Result<()> {
    let mut buffer = [0u8; 65_537];
    let n = io::copy(&mut rt.reader().take(65_537), &mut &mut buffer[..])?;
    if 65_536 < n {
        return rt.write_all(b"too long\n");
    }
    list(&rt, &buffer[..n as usize])
}

// Each line of the input.
fn list(rt: &impl Print, input: &[u8]) -> io::Result<()> {
    for line in input.split_inclusive(|b| *b == b'\n') {
        show(rt, line.strip_suffix(b"\n").unwrap_or(line))?;
    }
    Ok(())
}

fn show(rt: &impl Print, line: &[u8]) -> io::Result<()> {
    let mut card = [0; card::CARD_LENGTH];
    match write_again(line, &mut card) {
        Ok(settings) => show_settings(rt, settings, &card),
        Err(why) => println!(rt; "{why}"),
    }
}

// The settings on a card, which are written as a card into out.
fn write_again(line: &[u8], out: &mut [u8]) -> Result<Settings, Refusal> {
    let settings = card::read(line)?;
    card::write(settings, out)?;
    Ok(settings)
}

fn show_settings(rt: &impl Print, s: Settings, card: &[u8]) -> io::Result<()> {
    rt.write_all(b"card ")?;
    rt.write_all(card)?;
    println!(rt;
        " gmin {} batch {} threshold {} spacing {}",
        s.gmin, s.batch, s.threshold, s.spacing
    )
}
