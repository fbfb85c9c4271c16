// A text that grows in a buffer that is lent: bytes and numbers are written one behind the other.
ghost use Rattle.std.specs.Prelude.{[], ◌∷◌, ◌++◌, ◌+◌, ◌≤◌, length};
ghost use Rattle.ground.specs.Bytes.{Adds};
ghost use Rattle.lines.specs.Text.{newline, decimal};
ghost use Rattle.lines.specs.Writing.{spaced, TextRoom, WritesText};

// The buffer, and the position behind what is written so far.
#[derive(Drop)]
pub(crate) struct Text<'a> {
    pub(crate) out: &'a mut [u8],
    pub(crate) end: usize,
}

// Writes a number in decimal into `out` at `at`, and tells the position behind it. Not by `write!`: that may fail, as far as its
// contract says, and a listing may not. One or two digits, as all of a row's line but the row's own number have, are written here:
// the library zeroes a buffer of 40 bytes for each number, and its digits are copied by a length that varies. With all
// numbers by the library a listing's text took seven tenths more time. It stays a call of its own, so that a text's end passes from
// number to number in a register: as part of `Text::number` it took three tenths more time.
#[inline(never)]
fn write_number(out: &mut [u8], at: usize, value: usize) -> usize
    requires { at + length (decimal value) ≤ length out.old }
    ensures { Adds out.old out.new at result (decimal value) }
{
    if value < 10 {
        return ground::write_byte(out, at, b'0' + value as u8);
    }
    if value < 100 {
        let last = ground::write_byte(out, at, b'0' + (value / 10) as u8);
        return ground::write_byte(out, last, b'0' + (value % 10) as u8);
    }
    let mut digits = itoa::Buffer::new();
    ground::write_bytes(out, at, digits.format(value).as_bytes())
}

impl Text<'_> {
    // Writes one byte.
    pub(crate) fn byte(&mut self, byte: u8)
        requires { TextRoom self.old 1 }
        ensures { WritesText self.old self.new (byte ∷ []) }
    {
        self.end = ground::write_byte(self.out, self.end, byte);
    }

    // Writes bytes as they are.
    pub(crate) fn bytes(&mut self, bytes: &[u8])
        requires { TextRoom self.old (length bytes.now) }
        ensures { WritesText self.old self.new bytes.now }
    {
        self.end = ground::write_bytes(self.out, self.end, bytes);
    }

    // Writes a number in decimal.
    pub(crate) fn number(&mut self, value: usize)
        requires { TextRoom self.old (length (decimal value)) }
        ensures { WritesText self.old self.new (decimal value) }
    {
        self.end = write_number(self.out, self.end, value);
    }

    // Writes numbers, each with a space behind it.
    pub(crate) fn numbers(&mut self, numbers: &[usize])
        requires { TextRoom self.old (length (spaced numbers.now)) }
        ensures { WritesText self.old self.new (spaced numbers.now) }
    {
        for number in numbers {
            self.number(*number);
            self.byte(b' ');
        }
    }

    // Writes a line of numbers: those before the last one, and the last one.
    pub(crate) fn line(&mut self, numbers: &[usize], last: usize)
        requires { TextRoom self.old (length (spaced numbers.now ++ decimal last ++ newline ∷ [])) }
        ensures { WritesText self.old self.new (spaced numbers.now ++ decimal last ++ newline ∷ []) }
    {
        self.numbers(numbers);
        self.number(last);
        self.byte(b'\n');
    }
}
