// A text in a lent buffer, put together piece by piece: bytes as they are, a number in decimal, a label with a number, and a line's end.
// The buffer is lent and not a `String`, since the programs use no heap.
ghost use Rattle.std.specs.Prelude.{◌≡◌, [], ◌++◌, ◌+◌, ◌≤◌, length};

use itoa::Buffer;

// The buffer, of which the first `filled` bytes are the text. A contract sees it as `filled_of` says: the text, the rest of the buffer,
// and which buffer it is. So whoever lent the buffer knows what stands in it once the text has ended.
#[derive(Drop)]
pub struct Text<'a> {
    buffer: &'a mut [u8],
    filled: usize,
    ghost inside: { filled ≤ length buffer.now },
}

impl<'a> Text<'a> {
    ghost use Rattle.report.specs.Text.{decimal};
    ghost use Rattle.report.specs.Lines.{line_end};
    ghost use Rattle.report.specs.Filled.{filled_of, unfilled};
    ghost use Rattle.report.specs.Puts.{Puts};

    // No text yet.
    pub fn new(buffer: &'a mut [u8]) -> Text<'a>
        ensures no_text { ((filled_of result).text ≡ []) × ((filled_of result).rest ≡ buffer.old) }
        ensures same_buffer { (filled_of result).lent ≡ buffer.entry.ghost_name }
    {
        Text { buffer, filled: 0 }
    }

    // The bytes of the text.
    pub fn as_bytes(&self) -> &[u8]
        ensures { result.now ≡ (filled_of self.now).text }
    {
        let filled = self.filled;
        &self.buffer[..filled]
    }

    // Begins again with no text.
    pub fn clear(&mut self)
        ensures { filled_of self.new ≡ unfilled (filled_of self.old) }
    {
        self.filled = 0;
    }

    // Bytes as they are.
    pub fn put_bytes(&mut self, bytes: &[u8])
        requires { length bytes.now ≤ length (filled_of self.old).rest }
        ensures { Puts (filled_of self.old) bytes.now (length bytes.now) (filled_of self.new) }
    {
        let start = self.filled;
        let end = start + bytes.len();
        let buffer = &mut *self.buffer;
        buffer[start..end].copy_from_slice(bytes);
        self.filled = end;
    }

    // A number in decimal.
    pub fn put_number(&mut self, value: u64)
        requires { 20 ≤ length (filled_of self.old).rest }
        ensures { Puts (filled_of self.old) (decimal value) 20 (filled_of self.new) }
    {
        let mut digits = Buffer::new();
        self.put_bytes(digits.format(value).as_bytes());
    }

    // A label and a number.
    pub fn put_field(&mut self, label: &[u8], value: u64)
        requires { length label.now + 20 ≤ length (filled_of self.old).rest }
        ensures { Puts (filled_of self.old) (label.now ++ decimal value) (length label.now + 20) (filled_of self.new) }
    {
        self.put_bytes(label);
        self.put_number(value);
    }

    // The end of a line.
    #[tactic(auto, unfolding(crate::specs::Text::ascii))]
    pub fn put_line_end(&mut self)
        requires { 1 ≤ length (filled_of self.old).rest }
        ensures { Puts (filled_of self.old) line_end 1 (filled_of self.new) }
    {
        self.put_bytes(b"\n");
    }

    // The last label and number of a line, and the line's end.
    pub fn put_last_field(&mut self, label: &[u8], value: u64)
        requires { length label.now + 21 ≤ length (filled_of self.old).rest }
        ensures { Puts (filled_of self.old) (label.now ++ decimal value ++ line_end) (length label.now + 21)
            (filled_of self.new) }
    {
        self.put_field(label, value);
        self.put_line_end();
    }
}
