// The checks of a call table, once, for all who need them: the planner, acceptance, adds, and the reader and writers of plan
// files. Each check passes or tells its refusal; what a check means is a definition in specs/Table.antt.
#![tactic(auto)]

ghost use Rattle.std.specs.Prelude.{◌≡◌, ℕ, ◌+◌, ◌*◌, ◌≤◌, ◌<◌, T, length};
ghost use Rattle.shelf.specs.Network.{within_limits};
ghost use Rattle.shelf.specs.Rows.{row_count, is_output};
ghost use Rattle.calls.specs.Refusal.{refused_by, checked_by, answered_by};
ghost use Rattle.calls.specs.Table.{size_checks, call_checks, outside_call, outside_row, point_twice, twice_number, PointRead, PointFits};

pub use refusal::Refusal;
use shelf::{CallRow, Network, Side};

mod refusal;

// An answer as programs in C take it: 0 and a row count for success, or the number of a refusal and its row.
#[repr(C)]
#[derive(Clone, Copy, Debug, PartialEq, Eq)]
pub struct Verdict {
    pub number: usize,
    pub row: usize,
}

impl From<Refusal> for Verdict {
    ghost from_gives = { λ refusal verdict. verdict ≡ refused_by refusal };

    fn from(refusal: Refusal) -> Verdict {
        Verdict {
            number: refusal.number(),
            row: refusal.row(),
        }
    }
}

impl From<Result<usize, Refusal>> for Verdict {
    ghost from_gives = { λ answer verdict. verdict ≡ answered_by answer };

    #[tactic(auto, unfolding(crate::specs::Verdict::success))]
    fn from(answer: Result<usize, Refusal>) -> Verdict {
        match answer {
            Ok(count) => Verdict {
                number: 0,
                row: count,
            },
            Err(refusal) => Verdict::from(refusal),
        }
    }
}

// An inlet or an outlet: a module and one of its channels.
#[derive(Clone, Copy, Debug, PartialEq, Eq)]
pub struct Point {
    pub module: usize,
    pub channel: usize,
}

// Refusals 1, 2 and 3, for calls and settings of these lengths in bytes. Settings have `settings_per_call` bytes for each
// call, 0 where none are to be given.
#[tactic(auto, using(crate::specs::TableLaws::size_checks_is), unfolding(shelf::specs::Network::most_calls, crate::specs::Verdict::passed))]
pub fn check_sizes(
    net: Network,
    calls_length: usize,
    settings_length: usize,
    settings_per_call: usize,
) -> Result<(), Refusal>
    requires { settings_per_call ≤ 3 }
    ensures { checked_by result ≡ size_checks net calls_length settings_length settings_per_call }
{
    if !net.within_limits() {
        return Err(Refusal::Sizes);
    }
    let count = calls_length / 4;
    if calls_length % 4 != 0 || settings_length != settings_per_call * count {
        return Err(Refusal::Lengths);
    }
    if Network::MOST_CALLS < count {
        return Err(Refusal::TooManyCalls);
    }
    Ok(())
}

// Refusals 5, 6 and 7, each sought over the whole table before the next. It asks for a network within
// its limits and takes no type that says so, which would ask more of its callers than a plain `Network`.
pub fn check_calls(net: Network, calls: &[u8]) -> Result<(), Refusal>
    requires { T (within_limits net) }
    ensures { checked_by result ≡ call_checks net calls.now }
{
    seek_outside(net, calls)?;
    seek_repeat(calls, Side::Input)?;
    seek_repeat(calls, Side::Output)
}

// Refusal 5: the first row with a module or a channel that the network does not have. It and the searches below go by the row's number, which the
// refusal holds. All stay calls of their own: put into their callers, the ends of a loop lie far behind it, and the check took a third more time.
#[inline(never)]
fn seek_outside(net: Network, calls: &[u8]) -> Result<(), Refusal>
    ensures { checked_by result ≡ outside_row net calls.now }
{
    let count = calls.len() / 4;
    for row in 0..count {
        if is_outside(net, CallRow::at(calls, row)) {
            return Err(Refusal::Outside(row));
        }
    }
    Ok(())
}

// Whether the call has a module or a channel that the network does not have: whether the larger number of its two modules is too large, or that of
// its two channels. Two tests take less time than four.
#[tactic(auto, unfolding(ground::specs::Truth::any, crate::specs::Table::outside_call))]
pub fn is_outside(net: Network, call: CallRow) -> bool
    ensures { result ≡ outside_call net call }
{
    net.r <= call.input_module.max(call.output_module)
        || net.n <= call.input_channel.max(call.output_channel)
}

// Refusal 6 or 7, by the side: the first row whose inlet, or whose outlet, an earlier row uses.
#[inline(never)]
fn seek_repeat(calls: &[u8], side: Side) -> Result<(), Refusal>
    requires { (i : ℕ) → i < row_count calls.now → PointFits calls.now (is_output side) i }
    ensures { checked_by result ≡ point_twice calls.now (is_output side) (twice_number side) }
{
    let count = calls.len() / 4;
    let mut used = [0u32; Network::MOST_MODULES];
    for row in 0..count {
        let point = point_at(calls, row, side);
        if ground::mark(&mut used, point.module, point.channel) {
            return Err(twice(side, row));
        }
    }
    Ok(())
}

// The refusal of a row whose inlet, or whose outlet, an earlier row uses.
fn twice(side: Side, row: usize) -> Refusal
    ensures { refused_by result ≡ record { number = twice_number side; row = row } }
{
    match side {
        Side::Input => Refusal::InletTwice(row),
        Side::Output => Refusal::OutletTwice(row),
    }
}

// The inlet of a row, or its outlet, by the side.
pub fn point_at(calls: &[u8], row: usize, side: Side) -> Point
    requires { 4 * row + 4 ≤ length calls.now }
    ensures { PointRead calls.now (is_output side) row result }
{
    let call = CallRow::at(calls, row);
    match side {
        Side::Input => Point {
            module: call.input_module,
            channel: call.input_channel,
        },
        Side::Output => Point {
            module: call.output_module,
            channel: call.output_channel,
        },
    }
}
