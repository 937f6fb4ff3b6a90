// The lines of a packet's listing: document 01, "Sheet of examples". Each call puts one line where the page goes
// on, its newline too. A line is never longer than LINE bytes.
#![tactic(auto, using(text::proofs::Joined::joined_in_page), unfolding(crate::specs::Lines::rle_text))]

ghost use Rattle.std.specs.Prelude.{◌≡◌};
ghost use Rattle.text.specs.Page.{put_in};
ghost use Rattle.lines.specs.Lines.{rle_text, block_line, head_line, refusal_line};

use block::{BlockRead, LossRle};
use labels::{put_number, put_source};
use refusal::Refusal;
use text::Page;

// Room that is enough for any line.
pub const LINE: usize = 512;

// The first line: the sender and the number of blocks.
pub fn put_head(page: &mut Page, sender: u32, count: usize)
    ensures { page.new ≡ put_in page.old (head_line sender count) }
{
    put_source(page, b"ssrc ", sender);
    put_number(page, b" blocks ", count as u64);
    page.put(b"\n");
}

// The only line of a refused packet. Not by Display, whose call answers a Result: to put a line cannot fail.
pub fn put_refusal(page: &mut Page, r: Refusal)
    ensures { page.new ≡ put_in page.old (refusal_line r) }
{
    put_number(page, b"refused ", r.number() as u64);
    put_number(page, b" at ", r.place() as u64);
    page.put(b"\n");
}

// The line of block number k: its type, the size of its body and what reading it among its packet's blocks gave.
pub fn put_block(page: &mut Page, k: usize, kind: u8, size: usize, read: BlockRead)
    ensures { page.new ≡ put_in page.old (block_line k kind size read) }
{
    page.put_decimal(k as u64);
    match read {
        BlockRead::Typed(block) => fields::put_typed(page, block),
        BlockRead::Rle(r) => put_rle(page, r),
        BlockRead::Unknown => {
            put_number(page, b" unknown type ", kind as u64);
            put_number(page, b" bytes ", size as u64);
        }
        BlockRead::Dropped(reason) => {
            put_number(page, b" dropped type ", kind as u64);
            put_number(page, b" reason ", u8::from(reason) as u64);
        }
    }
    page.put(b"\n");
}

// A good type 1 after its number.
fn put_rle(page: &mut Page, r: LossRle)
    ensures { page.new ≡ put_in page.old (rle_text r) }
{
    put_source(page, b" rle source ", r.source);
    put_number(page, b" begin ", r.begin as u64);
    put_number(page, b" end ", r.end as u64);
    put_number(page, b" lost ", r.lost as u64);
}
