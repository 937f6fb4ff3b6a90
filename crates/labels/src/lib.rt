// A label with a number, a source or a figure behind it, put into a page: what the lines of a listing are made of.
// Document 01, "Sheet of examples". Each call puts its text where the page goes on. The three calls share the label alone: what
// stands behind it is written in a way of its own, so that one generic call would need a trait for two lines.
#![tactic(auto, using(text::proofs::Joined::joined_in_page), unfolding(crate::specs::Labels::number, crate::specs::Labels::source, crate::specs::Labels::figure))]

ghost use Rattle.std.specs.Prelude.{◌≡◌};
ghost use Rattle.text.specs.Page.{put_in};
ghost use Rattle.labels.specs.Labels.{number, source, figure};

use block::UNAVAILABLE;
use text::Page;

// A 16-bit figure that is over range.
const OVER: u16 = 65_534;

// A label and a number.
pub fn put_number(page: &mut Page, label: &[u8], n: u64)
    ensures { page.new ≡ put_in page.old (number label.now n) }
{
    page.put(label);
    page.put_decimal(n);
}

// A label and a source, eight hexadecimal digits.
pub fn put_source(page: &mut Page, label: &[u8], n: u32)
    ensures { page.new ≡ put_in page.old (source label.now n) }
{
    page.put(label);
    page.put_hex(n);
}

// A label and a figure: a number, over range, or none.
pub fn put_figure(page: &mut Page, label: &[u8], n: u16)
    ensures { page.new ≡ put_in page.old (figure label.now n) }
{
    page.put(label);
    match n {
        OVER => page.put(b"over"),
        UNAVAILABLE => page.put(b"none"),
        _ => page.put_decimal(n as u64),
    }
}
