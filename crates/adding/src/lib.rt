// Adding one call to a running shelf: from any lawful settings, whoever made them, one step of the choice rule places the call, and
// the rows that had to move are told. Nothing is planned anew.
#![tactic(auto)]

ghost use Rattle.std.specs.Prelude.{◌≡◌, ◌&&◌, [], ◌∷◌, ◌++◌, ◌+◌, ◌*◌, ◌≤◌, eqb, length};
ghost use Rattle.ground.specs.Bytes.{front, Adds};
ghost use Rattle.ground.specs.Below.{some_below};
ghost use Rattle.shelf.specs.Rows.{row_count, module_of, channel_of, is_output};
ghost use Rattle.calls.specs.Verdict.{in_turn};
ghost use Rattle.calls.specs.Refusal.{checked_by};
ghost use Rattle.choice.specs.Colouring.{at_module};
ghost use Rattle.planner.specs.Answer.{planned_by};
ghost use Rattle.adding.specs.Adding.{row_bytes, short, add_checks, new_row_checks, AddsCall};
ghost use Rattle.adding.specs.Steps.{NewRow, Entered, Addable, SettingsAdded, Tellable, rows_told};

use calls::{Point, Refusal};
use choice::Record;
use planner::Plan;
use shelf::{CallRow, Network, Side};

// How many bytes the lent buffers have: that of the calls, that of the settings and that of the moved rows.
#[derive(Clone, Copy)]
struct Rooms {
    calls: usize,
    settings: usize,
    moved: usize,
}

impl Rooms {
    // Whether a buffer lacks room for as many calls or settings as `row` and one more, or for `row` moved rows.
    fn are_short(self, row: usize) -> bool
        requires { row ≤ Network.MOST_CALLS }
        ensures { result ≡ short row self.calls self.settings self.moved }
    {
        self.calls < 4 * row + 4 || self.settings < 3 * row + 3 || self.moved < 2 * row
    }
}

// Writes the table with `call` in its last row, K, to the front of `calls_after`, settings for it to the front of `settings_after`,
// and the rows that had to change their central to the front of `moved_rows`: two bytes each, the high byte first, in chain order.
// The bytes beyond are kept. Tells the count of the table made, K + 1, and the number of rows moved. Refuses what acceptance refuses, as
// it does; then 2, 3 and 4, then 5, 6, 7 and 8 of the new row; and then changes nothing. Nothing is asked of the input. Three buffers are
// lent side by side, and not as one record, since C hands each on by itself.
pub fn add(
    net: Network,
    calls: &[u8],
    settings: &[u8],
    call: &[u8],
    calls_after: &mut [u8],
    settings_after: &mut [u8],
    moved_rows: &mut [u8],
) -> Result<Plan, Refusal>
    ensures { AddsCall net calls.now settings.now call.now (record { calls = calls_after.old; settings = settings_after.old; moved = moved_rows.old }) (record { calls = calls_after.new; settings = settings_after.new; moved = moved_rows.new }) (planned_by result) }
{
    let rooms = Rooms {
        calls: calls_after.len(),
        settings: settings_after.len(),
        moved: moved_rows.len(),
    };
    check(net, calls, settings, call, rooms)?;
    let row = calls.len() / 4;
    let end = append(calls, call, calls_after);
    let table = &calls_after[..end];
    let rows_end = 3 * row + 3;
    let moved = place_and_write(
        net,
        table,
        settings,
        &mut settings_after[..rows_end],
        moved_rows,
    );
    Ok(Plan {
        count: row + 1,
        moved,
    })
}

// All refusals in their order, for buffers of so many bytes.
fn check(
    net: Network,
    calls: &[u8],
    settings: &[u8],
    call: &[u8],
    rooms: Rooms,
) -> Result<(), Refusal>
    ensures { checked_by result ≡ in_turn (add_checks net calls.now settings.now call.now rooms.calls rooms.settings rooms.moved) }
{
    let row = acceptance::accept(net, calls, settings)?;
    if call.len() != 4 {
        return Err(Refusal::Lengths);
    }
    if Network::MOST_CALLS < row + 1 {
        return Err(Refusal::TooManyCalls);
    }
    if rooms.are_short(row) {
        return Err(Refusal::NoRoom);
    }
    check_new_row(net, calls, call)
}

// Refusals 5, 6, 7 and 8 of a new row behind the calls.
fn check_new_row(net: Network, calls: &[u8], call: &[u8]) -> Result<(), Refusal>
    requires { NewRow net calls.now call.now }
    ensures { checked_by result ≡ in_turn (new_row_checks net (calls.now ++ call.now) (row_count calls.now)) }
{
    let row = calls.len() / 4;
    let new = CallRow::at(call, 0);
    if calls::is_outside(net, new) {
        return Err(Refusal::Outside(row));
    }
    if has_point(calls, calls::point_at(call, 0, Side::Input), Side::Input) {
        return Err(Refusal::InletTwice(row));
    }
    if has_point(calls, calls::point_at(call, 0, Side::Output), Side::Output) {
        return Err(Refusal::OutletTwice(row));
    }
    let inputs = calls_at(calls, new.input_module, Side::Input);
    let outputs = calls_at(calls, new.output_module, Side::Output);
    if net.centrals() <= inputs.max(outputs) {
        return Err(Refusal::Overfull(row));
    }
    Ok(())
}

// Whether one of the calls has this inlet, or this outlet, by the side.
fn has_point(calls: &[u8], point: Point, side: Side) -> bool
    ensures { result ≡ some_below (row_count calls.now) (λ j. eqb (module_of calls.now (is_output side) j) point.«module» && eqb (channel_of calls.now (is_output side) j) point.channel) }
{
    let count = calls.len() / 4;
    (0..count).any(|row| calls::point_at(calls, row, side) == point)
}

// How many of the calls stand at a module of one side.
fn calls_at(calls: &[u8], module: usize, side: Side) -> usize
    ensures { (result ≡ length (at_module (module_of calls.now (is_output side)) (row_count calls.now) «module»)) × (result ≤ row_count calls.now) }
{
    let count = calls.len() / 4;
    (0..count)
        .filter(|row| module_at(calls, *row, side) == module)
        .count()
}

// The module of a row on one side.
fn module_at(calls: &[u8], row: usize, side: Side) -> usize
    requires { 4 * row + 4 ≤ length calls.now }
    ensures { result ≡ module_of calls.now (is_output side) row }
{
    calls::point_at(calls, row, side).module
}

// Writes the calls and behind them the new one to the front of `out`, and tells where they end.
fn append(calls: &[u8], call: &[u8], out: &mut [u8]) -> usize
    requires { length calls.now + length call.now ≤ length out.old }
    ensures { Adds out.old out.new 0 result (calls.now ++ call.now) }
{
    let end = ground::write_bytes(out, 0, calls);
    ground::write_bytes(out, end, call)
}

// Places the last call of the table, writes settings for all rows and the rows that were moved, and tells how many these are. It stays a call of its
// own, so that its records take no stack while the input is checked.
#[inline(never)]
fn place_and_write(
    net: Network,
    table: &[u8],
    settings: &[u8],
    rows: &mut [u8],
    moved_rows: &mut [u8],
) -> usize
    requires { Addable net table.now settings.now rows.old moved_rows.old }
    ensures { SettingsAdded net table.now settings.now rows.new moved_rows.old moved_rows.new result }
{
    let row = settings.len() / 3;
    ground::write_bytes(rows, 0, settings);
    enter_calls(table, rows);
    let mut used = Record::new();
    used.record_rows(rows, row);
    let mut chain = [0u16; choice::CHAIN];
    let moved = planner::place_rest(net, table, rows, row, &mut used, &mut chain);
    tell_rows(&chain, 2 * net.r - 1, moved, moved_rows);
    planner::write_wavelengths(net.cycle(), rows);
    moved
}

// The modules of every call stand in its row, in the place of its wavelengths.
fn enter_calls(calls: &[u8], rows: &mut [u8])
    requires { (length calls.now ≡ 4 * row_count calls.now) × (length rows.old ≡ 3 * row_count calls.now) }
    ensures { Entered calls.now rows.old (row_count calls.now) rows.new }
{
    let count = calls.len() / 4;
    for row in 0..count {
        planner::enter_call(calls, rows, row);
    }
}

// Writes the rows of a chain, which are told from the place below `start` down, by two bytes each.
fn tell_rows(chain: &[u16; choice::CHAIN], start: usize, moved: usize, out: &mut [u8])
    requires { Tellable chain.now start moved out.old }
    ensures { out.new ≡ front out.old (row_bytes (rows_told chain.now start moved)) }
{
    let mut end = 0;
    for row in chain[start - moved..start].iter().rev() {
        end = write_number(out, end, *row);
    }
}

// Writes a number by two bytes, the high byte first, and tells the position behind them.
fn write_number(out: &mut [u8], at: usize, number: u16) -> usize
    requires { at + 2 ≤ length out.old }
    ensures { Adds out.old out.new at result (row_bytes (number ∷ [])) }
{
    ground::write_bytes(out, at, &number.to_be_bytes())
}
