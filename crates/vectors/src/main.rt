// Stored inputs, answered by the compiled entries: what is printed is compared with the answers of an independent
// implementation. An input has a head of 53 bytes: the entry by one byte; n, m, r, the cycle and a row by eight bytes each; then the
// lengths of note, calls, settings and of three rooms by two bytes each, all with the high byte first. The bytes of these six follow.
// A file to be read, listed or converted stands in the place of the calls, a call to be added in that of the note. For each input a line is
// printed: the numbers that the entry answers, then each byte of the rooms as the entry left them. Of a listing the numbers are the
// length of the text and how many bytes beyond it were changed in the buffer, and the bytes are those of the text.
#![tactic(auto)]

ghost use Rattle.std.specs.Prelude.{◌≡◌, length, IfSome};

use calls::{Refusal, Verdict};
use conversion::To;
use planner::{Plan, Planned};
use planwriter::Parts;
use shelf::Network;
use std::io::{self, Read, Write};
use trailer::{Kind, Layout, Told};

// Where in a head the sizes begin, and the lengths, and the bytes of a whole head.
const SIZES_AT: usize = 1;

const LENGTHS_AT: usize = 41;

const HEAD: usize = 53;

// The bytes of a buffer for the parts of an input, and of each room. Buffers are fixed arrays: nothing is allocated.
const BUFFER: usize = 65536;

// More inputs than these are not answered.
const MOST_INPUTS: usize = 65536;

// What the buffer of a listing holds before: no byte of a text.
const FILLED: u8 = 0xA5;

// Who answers an input.
#[derive(Clone, Copy, Debug, PartialEq, Eq)]
enum Entry {
    Plan,
    Accept,
    Read,
    Write(Kind),
    Convert(To),
    List,
    Add,
    Drop,
}

// The entries by the first byte of an input. Any other byte is a planned file to be written, as the stored inputs have it.
impl From<u8> for Entry {
    fn from(byte: u8) -> Entry {
        match byte {
            0 => Entry::Plan,
            1 => Entry::Accept,
            2 => Entry::Read,
            3 => Entry::Write(Kind::CallsOnly),
            5 => Entry::List,
            6 => Entry::Add,
            7 => Entry::Drop,
            8 => Entry::Write(Kind::CallsWithCycle),
            9 => Entry::Write(Kind::PlannedWithCycle),
            10 => Entry::Convert(To::New),
            11 => Entry::Convert(To::Old),
            _ => Entry::Write(Kind::Planned),
        }
    }
}

// The head of an input: the entry, the network, the row, and how many bytes of each part and each room follow.
#[derive(Clone, Copy)]
struct Head {
    entry: Entry,
    net: Network,
    row: usize,
    note: u16,
    calls: u16,
    settings: u16,
    first: u16,
    second: u16,
    third: u16,
}

impl Head {
    // The next head; none where the input ends before it does, or a read fails. It is read in one go, and then taken apart by rows of eight and of
    // two bytes, each of which has to be there.
    fn read<R: Read>(input: &mut R) -> Option<Head> {
        let head = read_bytes::<R, HEAD>(input)?;
        let (sizes, _) = head[SIZES_AT..LENGTHS_AT].as_chunks::<8>();
        let (lengths, _) = head[LENGTHS_AT..].as_chunks::<2>();
        Some(Head {
            entry: Entry::from(head[0]),
            net: Network {
                n: usize::from_be_bytes(sizes[0]),
                m: usize::from_be_bytes(sizes[1]),
                r: usize::from_be_bytes(sizes[2]),
                w: usize::from_be_bytes(sizes[3]),
            },
            row: usize::from_be_bytes(sizes[4]),
            note: u16::from_be_bytes(lengths[0]),
            calls: u16::from_be_bytes(lengths[1]),
            settings: u16::from_be_bytes(lengths[2]),
            first: u16::from_be_bytes(lengths[3]),
            second: u16::from_be_bytes(lengths[4]),
            third: u16::from_be_bytes(lengths[5]),
        })
    }
}

// Where the bytes of an input are kept: the parts one behind the other, and each room.
#[derive(Drop)]
struct Buffers {
    parts: [u8; BUFFER],
    first: [u8; BUFFER],
    second: [u8; BUFFER],
    third: [u8; BUFFER],
}

// A whole input: what is asked, and the rooms that the entry is lent.
#[derive(Drop)]
struct Asked<'a> {
    entry: Entry,
    net: Network,
    row: usize,
    note: &'a [u8],
    calls: &'a [u8],
    settings: &'a [u8],
    first: &'a mut [u8],
    second: &'a mut [u8],
    third: &'a mut [u8],
}

fn main(rt: HostRuntime) -> io::Result<()> {
    let mut input = rt.stdin();
    let mut out = rt.stdout();
    let mut buffers = Buffers {
        parts: [0; BUFFER],
        first: [0; BUFFER],
        second: [0; BUFFER],
        third: [0; BUFFER],
    };
    for _ in 0..MOST_INPUTS {
        let Some(asked) = Asked::read(&mut input, &mut buffers) else {
            break;
        };
        asked.answer(&mut out)?;
    }
    Ok(())
}

impl<'a> Asked<'a> {
    // The next input; none where no whole one is left, or a read fails, or the buffers have no room for it.
    fn read<R: Read>(input: &mut R, buffers: &'a mut Buffers) -> Option<Asked<'a>> {
        let head = Head::read(input)?;
        let note_end = usize::from(head.note);
        let calls_end = note_end + usize::from(head.calls);
        let settings_end = calls_end + usize::from(head.settings);
        let Buffers {
            parts,
            first,
            second,
            third,
        } = buffers;
        let parts = read_front(input, parts, settings_end)?;
        let first = read_front(input, first, usize::from(head.first))?;
        let second = read_front(input, second, usize::from(head.second))?;
        let third = read_front(input, third, usize::from(head.third))?;
        Some(Asked {
            entry: head.entry,
            net: head.net,
            row: head.row,
            note: &parts[..note_end],
            calls: &parts[note_end..calls_end],
            settings: &parts[calls_end..settings_end],
            first: &mut first[..usize::from(head.first)],
            second: &mut second[..usize::from(head.second)],
            third: &mut third[..usize::from(head.third)],
        })
    }

    // Lets the entry answer, and prints the line.
    fn answer<W: Write>(self, out: &mut W) -> io::Result<()> {
        let Asked {
            entry,
            net,
            row,
            note,
            calls,
            settings,
            first,
            second,
            third,
        } = self;
        let parts = Parts {
            note,
            calls,
            settings,
        };
        match entry {
            Entry::Plan => show_planned(out, planner::plan(net, calls, first)),
            Entry::Accept => show_verdict(out, acceptance::accept(net, calls, settings)),
            Entry::Read => show_told(out, planfile::read(calls)),
            Entry::Write(kind) => show_verdict(out, planwriter::write(net, kind, parts, first)),
            Entry::Convert(to) => show_verdict(out, conversion::convert(to, calls, first)),
            Entry::List => show_listing(out, calls),
            Entry::Add => show_planned(
                out,
                adding::add(net, calls, settings, note, first, second, third),
            ),
            Entry::Drop => show_verdict(
                out,
                dropping::drop(net, calls, settings, row, first, second),
            ),
        }?;
        show_bytes(out, first)?;
        show_bytes(out, second)?;
        show_bytes(out, third)?;
        writeln!(out)
    }
}

// The next bytes of the input; none where it ends before, or a read fails.
fn read_bytes<R: Read, const N: usize>(input: &mut R) -> Option<[u8; N]> {
    let mut bytes = [0; N];
    input.read_exact(&mut bytes).ok()?;
    Some(bytes)
}

// The next bytes of the input, at the front of a buffer; none where the buffer has no room for them, the input ends before, or a read
// fails.
fn read_front<'a, R: Read>(input: &mut R, buffer: &'a mut [u8], end: usize) -> Option<&'a mut [u8]>
    ensures { IfSome result (λ front. length front.now ≡ end) }
{
    let front = buffer.get_mut(..end)?;
    input.read_exact(front).ok()?;
    Some(front)
}

// Prints the numbers and the text of a listing.
fn show_listing<W: Write>(out: &mut W, file: &[u8]) -> io::Result<()> {
    let mut text = [FILLED; lines::LONGEST_LISTING];
    let size = lines::list(file, &mut text);
    let changed = text[size..].iter().filter(|byte| **byte != FILLED).count();
    write!(out, "{size} {changed} ")?;
    show_bytes(out, &text[..size])
}

// Prints number, row and moved count.
fn show_planned<W: Write>(out: &mut W, answer: Result<Plan, Refusal>) -> io::Result<()> {
    let Planned { number, row, moved } = Planned::from(answer);
    write!(out, "{number} {row} {moved} ")
}

// Prints number and row.
fn show_verdict<W: Write>(out: &mut W, answer: Result<usize, Refusal>) -> io::Result<()> {
    let Verdict { number, row } = Verdict::from(answer);
    write!(out, "{number} {row} ")
}

// Prints all that a reader tells.
fn show_told<W: Write>(out: &mut W, answer: Result<Layout, Refusal>) -> io::Result<()> {
    let Told {
        number,
        row,
        n,
        m,
        r,
        w,
        kind,
        count,
        note_at,
        calls_at,
        settings_at,
    } = Told::from(answer);
    write!(out, "{number} {row} {n} {m} {r} {w} {kind} {count} ")?;
    write!(out, "{note_at} {calls_at} {settings_at} ")
}

// Prints bytes, each by two hexadecimal digits.
fn show_bytes<W: Write>(out: &mut W, bytes: &[u8]) -> io::Result<()> {
    for byte in bytes {
        write!(out, "{byte:02x}")?;
    }
    Ok(())
}
