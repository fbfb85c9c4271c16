// What stands under every floor: bytes as numbers, numbers of two bytes, bytes put into a buffer, and a record of use. Nothing
// here is about shelves. The laws of tests, numbers, bytes and lists that all crates share are in specs/.
#![tactic(auto)]

ghost use Rattle.std.specs.Prelude.{◌≡◌, [], ◌∷◌, ◌+◌, ◌≤◌, ◌<◌, length, get_or};
ghost use Rattle.ground.specs.Bytes.{high_byte, low_byte, number_at, Adds};
ghost use Rattle.ground.specs.Words.{word_size, has_bit, put_bit, least, Neither};
ghost use Rattle.ground.specs.Marks.{Marked};

// The byte that stands at a position, as a number.
pub fn byte_at(bytes: &[u8], at: usize) -> usize
    requires { at < length bytes.now }
    ensures { (result ≡ get_or bytes.now at 0) × (result < 256) }
{
    usize::from(bytes[at])
}

// The two-byte number that stands at a position, its high byte first.
#[tactic(auto, unfolding(crate::specs::Bytes::number_at))]
pub fn number_at(bytes: &[u8], at: usize) -> usize
    requires { at + 2 ≤ length bytes.now }
    ensures { (result ≡ number_at bytes.now at) × (result < 65536) }
{
    usize::from(u16::from_be_bytes([bytes[at], bytes[at + 1]]))
}

// The high byte of a two-byte number.
#[tactic(auto, unfolding(crate::specs::Bytes::high_byte))]
pub fn high_byte(value: usize) -> u8
    ensures { result ≡ high_byte value }
{
    value.to_le_bytes()[1]
}

// The low byte of a two-byte number.
#[tactic(auto, unfolding(crate::specs::Bytes::low_byte))]
pub fn low_byte(value: usize) -> u8
    ensures { result ≡ low_byte value }
{
    value.to_le_bytes()[0]
}

// Writes one byte into `out` at `at`, and tells the position behind it.
pub fn write_byte(out: &mut [u8], at: usize, byte: u8) -> usize
    requires { at < length out.old }
    ensures { Adds out.old out.new at result (byte ∷ []) }
{
    write_bytes(out, at, &[byte])
}

// Writes all bytes of `source` into `out` from `at` on, and tells the position behind them. That position is counted and handed on,
// since `Adds` promises it, and a writer goes on from there.
pub fn write_bytes(out: &mut [u8], at: usize, source: &[u8]) -> usize
    requires { at + length source.now ≤ length out.old }
    ensures { Adds out.old out.new at result source.now }
{
    let next = at + source.len();
    out[at..next].copy_from_slice(source);
    next
}

// Whether a bit of a word is set.
#[tactic(auto, using(crate::specs::WordsLaws::shifted_bit), unfolding(crate::specs::Words::word_size))]
pub fn has_bit(word: u32, bit: usize) -> bool
    requires { bit < word_size }
    ensures { result ≡ has_bit word bit }
{
    (word >> bit) % 2 == 1
}

// The word with a bit set, or cleared; the others are kept.
#[tactic(auto, unfolding(crate::specs::Words::word_size, crate::specs::Words::put_bit, crate::specs::Words::inverted))]
pub fn put_bit(word: u32, bit: usize, set: bool) -> u32
    requires { bit < word_size }
    ensures { result ≡ put_bit word bit set }
{
    let alone = 1 << bit;
    if set { word | alone } else { word & !alone }
}

// The word of the bits that neither word has set.
#[tactic(auto, using(crate::specs::WordsLaws::neither_bit), unfolding(crate::specs::Words::word_size, crate::specs::Words::inverted))]
pub fn neither(first: u32, second: u32) -> u32
    ensures { Neither first second result }
{
    !(first | second)
}

// The lowest bit that is set; the number of bits where none is. The cast widens: there is no `From<u32>` for `usize`.
#[tactic(auto, using(crate::specs::WordsLaws::trailing_least), unfolding(crate::specs::Words::word_size))]
pub fn lowest_bit(word: u32) -> usize
    ensures { result ≡ least word_size (has_bit word) }
{
    word.trailing_zeros() as usize
}

// Marks a bit of a word in a record of use, and tells whether it was marked before.
pub fn mark(used: &mut [u32], at: usize, bit: usize) -> bool
    requires { (at < length used.old) × (bit < word_size) }
    ensures { Marked used.old used.new at bit result }
{
    let word = used[at];
    used[at] = put_bit(word, bit, true);
    has_bit(word, bit)
}
