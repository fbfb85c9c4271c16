// The text of the listing program: a plan file's rows in decimal, or why the file is refused. It is written into a buffer that is
// lent (src/text.rt); what it is stands in specs/Text.antt.
#![tactic(auto)]

ghost use Rattle.std.specs.Prelude.{◌+◌, ◌*◌, ◌≤◌};
ghost use Rattle.shelf.specs.Network.{most_calls};
ghost use Rattle.shelf.specs.Rows.{row_count};
ghost use Rattle.trailer.specs.File.{all_kinds};
ghost use Rattle.calls.specs.Refusal.{number_of, row_of};
ghost use Rattle.trailer.specs.Trailer.{whole_told};
ghost use Rattle.planfile.specs.Reader.{read_answer, Reads};
ghost use Rattle.lines.specs.Text.{refused_text, first_line, row_line, row_lines, table_text, calls_text, told_text};
ghost use Rattle.lines.specs.Writing.{number_digits, most_first_line, most_row_line, longest_listing, moved_word, TextRoom, WritesText, HasRow, HasRows, Lists};

use calls::Refusal;
use shelf::{CallRow, Network, SettingsRow};
use text::Text;
use trailer::Layout;

mod text;

// The most digits of a byte, of a row's number, and of any number.
const BYTE_DIGITS: usize = 3;

const ROW_DIGITS: usize = 4;

const NUMBER_DIGITS: usize = 20;

// The most bytes of a first line or of a refusal. A first line has five numbers, each with a space or a newline behind it.
const FIRST_LINE: usize = 5 * (NUMBER_DIGITS + 1);

// The most bytes of the line of a row: its number, and the seven bytes of its call and its settings.
const ROW_LINE: usize = (ROW_DIGITS + 1) + 7 * (BYTE_DIGITS + 1);

// A buffer of so many bytes has room for every listing.
pub const LONGEST_LISTING: usize = FIRST_LINE + ROW_LINE * Network::MOST_CALLS;

// Writes the moved count, or a dash in its place.
fn write_moved(text: &mut Text<'_>, moved: Option<usize>)
    requires { TextRoom text.old number_digits }
    ensures written { WritesText text.old text.new (moved_word moved) }
    ensures short { text.new.end ≤ text.old.end + number_digits }
{
    match moved {
        Some(count) => text.number(count),
        None => text.byte(b'-'),
    }
}

// Writes the first line: the sizes of the network, K, and the moved count.
fn write_first_line(text: &mut Text<'_>, net: Network, count: usize, moved: Option<usize>)
    requires { TextRoom text.old most_first_line }
    ensures written { WritesText text.old text.new (first_line net count (moved_word moved)) }
    ensures short { text.new.end ≤ text.old.end + most_first_line }
{
    text.numbers(&[net.n, net.m, net.r, count]);
    write_moved(text, moved);
    text.byte(b'\n');
}

// Writes the line of one row.
fn write_row(text: &mut Text<'_>, calls: &[u8], settings: &[u8], row: usize)
    requires { TextRoom text.old most_row_line × HasRow calls.now settings.now row }
    ensures written { WritesText text.old text.new (row_line calls.now settings.now row) }
    ensures short { text.new.end ≤ text.old.end + most_row_line }
{
    let call = CallRow::at(calls, row);
    let light = SettingsRow::at(settings, row);
    let numbers = [
        row,
        call.input_module,
        call.input_channel,
        light.to_central,
        light.central,
        light.from_central,
        call.output_module,
    ];
    text.line(&numbers, call.output_channel);
}

// Writes the lines of all rows.
fn write_rows(text: &mut Text<'_>, calls: &[u8], settings: &[u8])
    requires { TextRoom text.old (most_row_line * row_count calls.now) × HasRows calls.now settings.now }
    ensures { WritesText text.old text.new (row_lines calls.now settings.now (row_count calls.now)) }
{
    for row in 0..calls.len() / 4 {
        write_row(text, calls, settings, row);
    }
}

// Writes a table: a first line, and the lines of all rows.
fn write_table(
    text: &mut Text<'_>,
    net: Network,
    calls: &[u8],
    settings: &[u8],
    moved: Option<usize>,
)
    requires { TextRoom text.old longest_listing × HasRows calls.now settings.now }
    ensures { WritesText text.old text.new (table_text net calls.now settings.now (moved_word moved)) }
{
    write_first_line(text, net, calls.len() / 4, moved);
    write_rows(text, calls, settings);
}

// Writes a refusal, with its number and row.
fn write_refusal(text: &mut Text<'_>, refusal: Refusal)
    requires { TextRoom text.old most_first_line }
    ensures { WritesText text.old text.new (refused_text (number_of refusal) (row_of refusal)) }
{
    let number = refusal.number();
    let row = refusal.row();
    text.bytes(b"refused ");
    text.number(number);
    text.bytes(b" row ");
    text.number(row);
    text.byte(b'\n');
}

// Plans the calls of a file that holds no settings, and lists them, or tells the planner's refusal.
fn plan_and_list(text: &mut Text<'_>, net: Network, calls: &[u8])
    requires { TextRoom text.old longest_listing × (row_count calls.now ≤ most_calls) }
    ensures { WritesText text.old text.new (calls_text net calls.now) }
{
    let mut settings = [0u8; 3 * Network::MOST_CALLS];
    match planner::plan(net, calls, &mut settings) {
        Ok(plan) => {
            let end = 3 * plan.count;
            write_table(text, net, calls, &settings[..end], Some(plan.moved));
        }
        Err(refusal) => write_refusal(text, refusal),
    }
}

// Lists a file with the layout that the reader tells: the rows with the file's own settings, or the calls planned.
fn list_layout(text: &mut Text<'_>, file: &[u8], layout: Layout)
    requires { TextRoom text.old longest_listing × Reads all_kinds file.now (whole_told layout) }
    ensures { WritesText text.old text.new (told_text file.now (read_answer all_kinds file.now)) }
{
    let calls = &file[layout.calls_at..layout.settings_at];
    if trailer::has_settings(layout.kind) {
        let end = layout.settings_at + 3 * layout.count;
        let settings = &file[layout.settings_at..end];
        write_table(text, layout.net, calls, settings, None);
    } else {
        plan_and_list(text, layout.net, calls);
    }
}

// Lists a file that is not too long, or tells the reader's refusal.
fn list_told(text: &mut Text<'_>, file: &[u8])
    requires { TextRoom text.old longest_listing }
    ensures { WritesText text.old text.new (told_text file.now (read_answer all_kinds file.now)) }
{
    match planfile::read(file) {
        Ok(layout) => list_layout(text, file, layout),
        Err(refusal) => write_refusal(text, refusal),
    }
}

// Writes the listing of a file to the front of `out`, and tells how many bytes it has; the bytes beyond are kept. Nothing is
// asked of the file. The length is told beside the buffer, as `Lists` promises it.
pub fn list(file: &[u8], out: &mut [u8; LONGEST_LISTING]) -> usize
    ensures { Lists file.now out.old out.new result }
{
    let mut text = Text { out, end: 0 };
    if trailer::LONGEST_FILE < file.len() {
        text.bytes(b"too long\n");
        return text.end;
    }
    list_told(&mut text, file);
    text.end
}
