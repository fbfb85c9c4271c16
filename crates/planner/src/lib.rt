// The planner: settings for a table of calls by the choice rule and the grating rule, for any bytes at all. Where no module has
// more calls than there are centrals it yields lawful settings; where one has more it refuses, and no settings would be lawful.
#![tactic(auto)]

ghost use Rattle.std.specs.Prelude.{◌≡◌, true, false, ℕ, ◌+◌, ◌*◌, ◌/◌, ◌≤◌, ◌<◌, T, length, get_or, set};
ghost use Rattle.grating.specs.Grating.{wavelength_between};
ghost use Rattle.shelf.specs.Network.{within_limits};
ghost use Rattle.shelf.specs.Rows.{row_count, α, β};
ghost use Rattle.calls.specs.Refusal.{checked_by};
ghost use Rattle.calls.specs.Table.{Inside};
ghost use Rattle.choice.specs.Rule.{at};
ghost use Rattle.choice.specs.Rows.{module_in, centrals_of};
ghost use Rattle.planner.specs.Answer.{planned_by};
ghost use Rattle.planner.specs.Planner.{settings_rows, overfull_row, planned_settings, planned_moved, Plans};
ghost use Rattle.planner.specs.Steps.{refusals, Counted, Plannable, Ready, AllPlaced, Passable, Writable};

pub use answer::Plan;
use calls::Refusal;
use choice::Record;
use shelf::{CallRow, Network};

mod answer;

// The planner's answer as programs in C take it: 0, K and the number of calls moved; or a refusal's number and row, with nothing moved.
#[repr(C)]
#[derive(Clone, Copy, Debug, PartialEq, Eq)]
pub struct Planned {
    pub number: usize,
    pub row: usize,
    pub moved: usize,
}

impl From<Result<Plan, Refusal>> for Planned {
    ghost from_gives = { λ answer planned. planned ≡ planned_by answer };

    fn from(answer: Result<Plan, Refusal>) -> Planned {
        match answer {
            Ok(plan) => Planned {
                number: 0,
                row: plan.count,
                moved: plan.moved,
            },
            Err(refusal) => Planned {
                number: refusal.number(),
                row: refusal.row(),
                moved: 0,
            },
        }
    }
}

// A count for each module of both sides, as many as a record of use has words.
const MODULES: usize = choice::RECORD;

// Writes the settings of the calls to the front of `settings`, three bytes for each call; the bytes beyond are kept. Tells K and how many
// calls were moved. Refuses in the order 1, 2, 3, 4, 5, 6, 7, 8, and then changes nothing. Nothing is asked of the input.
pub fn plan(net: Network, calls: &[u8], settings: &mut [u8]) -> Result<Plan, Refusal>
    ensures { Plans net calls.now settings.old settings.new (planned_by result) }
{
    check(net, calls, settings.len())?;
    let count = calls.len() / 4;
    let end = 3 * count;
    let moved = place_and_write(net, calls, &mut settings[..end]);
    Ok(Plan { count, moved })
}

// Places the calls and writes their settings, and tells how many calls were moved. Until the wavelengths are known, the rows
// hold the modules in their place.
fn place_and_write(net: Network, calls: &[u8], rows: &mut [u8]) -> usize
    requires { Plannable net calls.now rows.old }
    ensures settings { rows.new ≡ planned_settings net calls.now }
    ensures moved { result ≡ planned_moved net calls.now }
{
    let mut used = Record::new();
    let mut chain = [0u16; choice::CHAIN];
    let moved = place_rest(net, calls, rows, 0, &mut used, &mut chain);
    write_wavelengths(net.cycle(), rows);
    moved
}

// All refusals in their order, for a buffer of `room` bytes.
fn check(net: Network, calls: &[u8], room: usize) -> Result<(), Refusal>
    ensures { checked_by result ≡ refusals net calls.now room }
{
    calls::check_sizes(net, calls.len(), 0, 0)?;
    let needed = 3 * (calls.len() / 4);
    if room < needed {
        return Err(Refusal::NoRoom);
    }
    calls::check_calls(net, calls)?;
    seek_overfull(net, calls)
}

// Refusal 8: the first row with which its input module or its output module has more calls than there are centrals.
fn seek_overfull(net: Network, calls: &[u8]) -> Result<(), Refusal>
    requires { T (within_limits net) × ((i : ℕ) → i < row_count calls.now → Inside net calls.now i) }
    ensures { checked_by result ≡ overfull_row net calls.now }
{
    let count = calls.len() / 4;
    let mut tally = [0u8; MODULES];
    for row in 0..count {
        let call = CallRow::at(calls, row);
        let inputs = one_more(&mut tally, call.input_module);
        let outputs = one_more(&mut tally, Network::MOST_MODULES + call.output_module);
        if net.centrals() < inputs.max(outputs) {
            return Err(Refusal::Overfull(row));
        }
    }
    Ok(())
}

// Counts one call more at a module, by its number among those of both sides, and tells how many it has now.
fn one_more(tally: &mut [u8; MODULES], module: usize) -> usize
    requires { («module» < MODULES) × (get_or tally.old «module» 0 < 255) }
    ensures { Counted tally.old tally.new «module» result }
{
    tally[module] += 1;
    usize::from(tally[module])
}

// Places the calls of the rows from `first` on, in row order, and tells how many calls were moved. `rows` has three bytes for each
// call: its input module, its central and its output module. What is asked is any proper colouring of the rows before `first`, with
// its record, and room for the others. `chain` tells the rows of the last chain, as a placement leaves them there.
pub fn place_rest(
    net: Network,
    calls: &[u8],
    rows: &mut [u8],
    first: usize,
    used: &mut Record,
    chain: &mut [u16; choice::CHAIN],
) -> usize
    requires { Ready net calls.now rows.old first used.old.words chain.old }
    ensures { AllPlaced net calls.now rows.old rows.new first chain.new result }
{
    let count = calls.len() / 4;
    let mut moved = 0;
    for row in first..count {
        enter_call(calls, rows, row);
        let end = 3 * row + 3;
        moved += choice::place(net, &mut rows[..end], row, used, chain);
    }
    moved
}

// The modules of a call stand in its row.
pub fn enter_call(calls: &[u8], rows: &mut [u8], row: usize)
    requires { (4 * row + 4 ≤ length calls.now) × (3 * row + 3 ≤ length rows.old) }
    ensures { rows.new ≡ set (set rows.old (3 * row) (α calls.now row)) (3 * row + 2) (β calls.now row) }
{
    rows[3 * row] = calls[4 * row];
    rows[3 * row + 2] = calls[4 * row + 2];
}

// In each row the wavelengths that lead to its central and from it take the place of its modules.
// The rows go by their numbers, since the contracts of `as_chunks_mut` and `chunks_exact_mut` do not tell what the slice ends as.
pub fn write_wavelengths(cycle: usize, rows: &mut [u8])
    requires { Writable cycle rows.old }
    ensures { rows.new ≡ settings_rows cycle (module_in rows.old false) (module_in rows.old true) (at (centrals_of rows.old)) (length rows.old / 3) }
{
    let count = rows.len() / 3;
    for row in 0..count {
        write_row(cycle, rows, row);
    }
}

// The same in one row. A wavelength is narrowed to its byte by `as`, which is proved to lose nothing: `try_from` would only add an `unwrap`.
fn write_row(cycle: usize, rows: &mut [u8], row: usize)
    requires { (3 * row + 3 ≤ length rows.old) × Passable cycle rows.old row }
    ensures { rows.new ≡ set (set rows.old (3 * row) (wavelength_between cycle (get_or rows.old (3 * row) 0) (get_or rows.old (3 * row + 1) 0))) (3 * row + 2) (wavelength_between cycle (get_or rows.old (3 * row + 1) 0) (get_or rows.old (3 * row + 2) 0)) }
{
    let start = 3 * row;
    let input = ground::byte_at(rows, start);
    let central = ground::byte_at(rows, start + 1);
    let output = ground::byte_at(rows, start + 2);
    rows[start] = grating::wavelength_between(cycle, input, central) as u8;
    rows[start + 2] = grating::wavelength_between(cycle, central, output) as u8;
}
