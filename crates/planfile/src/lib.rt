// The reader of plan files: any bytes are read or refused. How a file is laid out is stated once, by the crate below, which takes the
// trailer apart.
#![tactic(auto)]

ghost use Rattle.std.specs.Prelude.{◌≡◌, T, length};
ghost use Rattle.shelf.specs.Network.{within_limits};
ghost use Rattle.shelf.specs.Rows.{row_count};
ghost use Rattle.calls.specs.Refusal.{checked_by, with_verdict};
ghost use Rattle.trailer.specs.File.{all_kinds, settings_distance};
ghost use Rattle.trailer.specs.Trailer.{told_by, LaidOut};
ghost use Rattle.planfile.specs.Checks.{table_checks};
ghost use Rattle.planfile.specs.Reader.{layout_checks, file_answer, Reads};

use calls::Refusal;
use shelf::Network;
use trailer::{Kinds, Layout};

// Reads a file of any kind: the layout that its trailer tells, or the first refusal in the order 14, 1, 3, 15, 5, 6, 7, then for a
// planned file row by row 9 to 13. Nothing is asked of the input.
pub fn read(file: &[u8]) -> Result<Layout, Refusal>
    ensures told { Reads all_kinds file.now (told_by (with_verdict result)) }
    ensures layout { with_verdict result ≡ file_answer all_kinds file.now }
{
    check_file(Kinds::all(), file)
}

// A reader of these kinds: the layout of a file that it takes, or its refusal. No row is touched before the trailer is taken apart, by the form that
// the scope asks for, `let .. else`.
pub fn check_file(kinds: Kinds, file: &[u8]) -> Result<Layout, Refusal>
    ensures { with_verdict result ≡ file_answer kinds file.now }
{
    let answer = trailer::take_trailer(kinds, file);
    let Ok(layout) = answer else {
        return answer;
    };
    check_layout(file, layout)?;
    Ok(layout)
}

// The checks of the rows of a file with this layout.
fn check_layout(file: &[u8], layout: Layout) -> Result<(), Refusal>
    requires { LaidOut (length file.now) layout }
    ensures { checked_by result ≡ layout_checks file.now layout }
{
    let calls = &file[layout.calls_at..layout.settings_at];
    let settings = &file[layout.settings_at..layout.trailer_at];
    check_table(layout.net, layout.kind, calls, settings)
}

// Refusals 5, 6 and 7, and for a planned file 9 to 13 row by row, for sizes and lengths that were tested. The network is a plain one, and the
// kind a number, as this function has promised its answer for any.
pub fn check_table(net: Network, kind: usize, calls: &[u8], settings: &[u8]) -> Result<(), Refusal>
    requires { T (within_limits net) × (length settings.now ≡ settings_distance kind (row_count calls.now)) }
    ensures { checked_by result ≡ table_checks net kind calls.now settings.now }
{
    if trailer::has_settings(kind) {
        acceptance::check_rows(net, calls, settings)
    } else {
        calls::check_calls(net, calls)
    }
}
