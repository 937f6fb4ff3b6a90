// Lists a report packet from standard input: its sender and a line for each block, or the refusal alone.
// Document 01, "Sheet of examples". At most 65,536 bytes; more gives only `too long`. The packet is surveyed
// once, and lines are gathered in a page that goes out in large writes. A read or a write that fails ends the
// program with its error.
#![tactic(auto)]

ghost use Rattle.std.specs.Prelude.{◌≡◌, ◌+◌, ◌<◌, ◌≤◌, IfOk, OnErr, length};
ghost use Rattle.frame.specs.Frames.{next_at, entry_at};
ghost use Rattle.packet.specs.Blocks.{read_in};
ghost use Rattle.packet.specs.Steps.{blocks_of};
ghost use Rattle.verdict.specs.Verdict.{verdict_of};
ghost use Rattle.lines.specs.Lines.{line_room};
ghost use Rattle.listing.specs.Room.{Listed, Roomy, judged_by, line_at, Added};

use block::{BlockRead, Reason};
use std::io;
use std::io::Read;
use text::Page;

// The longest input, in bytes; the buffer has room for one more.
const MOST: u64 = 65_536;

fn main(rt: HostRuntime) -> io::Result<()> {
    let mut buffer = [0u8; 65_537];
    let n = io::copy(&mut rt.reader().take(MOST + 1), &mut &mut buffer[..])?;
    if MOST < n {
        return rt.write_all(b"too long\n");
    }
    list(&rt, &buffer[..n as usize])
}

// A packet of MOST bytes has at most 16,382 blocks, two numbers each in the table.
fn list(rt: &impl Print, packet: &[u8]) -> io::Result<()> {
    let mut table = [0u32; 32_768];
    let mut bytes = [0u8; 65_536];
    let mut page = Page {
        bytes: &mut bytes,
        at: 0,
    };
    report(rt, packet, &mut table, &mut page)
}

fn report(rt: &impl Print, packet: &[u8], table: &mut [u32], page: &mut Page) -> io::Result<()>
    requires { Roomy page.old }
{
    match survey::list(packet, table) {
        Ok(size) => list_blocks(rt, packet, table, size / 2, page),
        Err(why) => {
            lines::put_refusal(page, why);
            send(rt, page)
        }
    }
}

// The first line, then that of each block, whose place and verdict stand in the survey.
fn list_blocks(
    rt: &impl Print,
    s: &[u8],
    table: &[u32],
    count: usize,
    page: &mut Page,
) -> io::Result<()>
    requires { Listed s.now table.now × (count ≡ length (blocks_of s.now)) × Roomy page.old }
{
    lines::put_head(page, wire::u32_at(s, 4), count);
    for k in 0..count {
        make_room(rt, page)?;
        put_line(page, s, table[2 * k] as usize, k, table[2 * k + 1]);
    }
    send(rt, page)
}

// The line of block number k, which stands at offset at.
fn put_line(page: &mut Page, s: &[u8], at: usize, k: usize, verdict: u32)
    requires { (next_at s.now at ≤ length s.now) × (verdict ≡ verdict_of (read_in (blocks_of s.now) (entry_at s.now at))) × (page.old.at + line_room ≤ length page.old.bytes.now) }
    ensures { Added page.old page.new (line_at s.now at k) }
{
    let bytes = frame::block_at(s, at);
    let read = judged(block::read_bytes(bytes), verdict);
    lines::put_block(page, k, bytes[0], bytes.len() - 4, read);
}

// A block read by itself, judged by its verdict among the blocks of its packet: only D4 is added.
#[tactic(auto, unfolding(crate::specs::Room::judged_by))]
fn judged(own: BlockRead, verdict: u32) -> BlockRead
    ensures { result ≡ judged_by own verdict }
{
    if verdict == u8::from(Reason::Unmeasured) as u32 {
        return BlockRead::Dropped(Reason::Unmeasured);
    }
    own
}

// Room for a line: the page is sent first if it has none, and only sending it can fail.
fn make_room(rt: &impl Print, page: &mut Page) -> io::Result<()>
    requires { Roomy page.old }
    ensures ok { IfOk result (λ _. page.new.at + line_room ≤ length page.new.bytes.now) }
    ensures err { OnErr result (length page.old.bytes.now < page.old.at + line_room) }
    ensures bytes { page.new.bytes.now ≡ page.old.bytes.now }
{
    if page.bytes.len() - page.at < lines::LINE {
        send(rt, page)?;
        page.at = 0;
    }
    Ok(())
}

fn send(rt: &impl Print, page: &Page) -> io::Result<()>
    requires { page.now.at ≤ length page.now.bytes.now }
{
    rt.write_all(&page.bytes[..page.at])
}
