// Text put into a page: bytes, a number in decimal, a number as eight hexadecimal digits. A call puts its text
// where the page goes on. What does not fit is cut off at the page's end, so any position and any text may be
// given; calls one after the other put what one call with the joined text puts.
#![tactic(auto)]

ghost use Rattle.std.specs.Prelude.{◌≡◌};
ghost use Rattle.text.specs.Text.{decimal_of, hex_of};
ghost use Rattle.text.specs.Page.{put_in};

// Lent bytes, and where the next text goes in: at any position, also past their end. Not written to by std's Write, whose calls
// answer a Result: to put a text cannot fail.
#[derive(Drop)]
pub struct Page<'a> {
    pub bytes: &'a mut [u8],
    pub at: usize,
}

impl Page<'_> {
    pub fn put(&mut self, text: &[u8])
        ensures { self.new ≡ put_in self.old text.now }
    {
        let bytes = &mut *self.bytes;
        if bytes.len() <= self.at {
            return;
        }
        let n = text.len().min(bytes.len() - self.at);
        bytes[self.at..self.at + n].copy_from_slice(&text[..n]);
        self.at += n;
    }

    // Decimal digits, with no zeros in front.
    pub fn put_decimal(&mut self, n: u64)
        ensures { self.new ≡ put_in self.old (decimal_of n) }
    {
        let mut digits = [0u8; 20];
        let k = io::decimal(n, &mut digits);
        self.put(&digits[..k]);
    }

    // Eight lower-case hexadecimal digits.
    pub fn put_hex(&mut self, n: u32)
        ensures { self.new ≡ put_in self.old (hex_of n) }
    {
        let mut places = [0u8; 16];
        let k = io::hex(n as u64, 8, &mut places);
        self.put(&places[..k]);
    }
}
