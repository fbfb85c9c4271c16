// The eleven entries for programs in C and Rust, which take an answer as a record of numbers: 0 or the number of a refusal first. Each has
// its entry's own contract, on the record that the entry's answer tells, so what is proved of an entry holds of its export, and so does
// every law over its guarantee. Network, calls and settings stay parameters of their own, and so does each buffer, since C hands each on by
// itself. There is an export for each kind of file and for each way of a conversion, since programs in C call them by
// these names. Nothing is asked of the input.
#![tactic(auto)]

ghost use Rattle.std.specs.Prelude.{true, false};
ghost use Rattle.acceptance.specs.Acceptance.{Accepts};
ghost use Rattle.planner.specs.Planner.{Plans};
ghost use Rattle.adding.specs.Adding.{AddsCall};
ghost use Rattle.dropping.specs.Dropping.{DropsCall};
ghost use Rattle.trailer.specs.File.{calls_only, planned, calls_with_cycle, planned_with_cycle, old_kinds, new_kinds, all_kinds};
ghost use Rattle.planfile.specs.Reader.{Reads};
ghost use Rattle.planwriter.specs.Writer.{Writes};
ghost use Rattle.conversion.specs.Conversion.{Converts};

use calls::Verdict;
use conversion::To;
use planner::Planned;
use planwriter::Parts;
use shelf::Network;
use trailer::{Kind, Told};

// Settings for the calls, at the front of `settings`.
#[unsafe(no_mangle)]
pub extern "C" fn bolikwaru_plan(net: Network, calls: &[u8], settings: &mut [u8]) -> Planned
    ensures { Plans net calls.now settings.old settings.new result }
{
    Planned::from(planner::plan(net, calls, settings))
}

// Whether the settings are lawful for the calls.
#[unsafe(no_mangle)]
pub extern "C" fn bolikwaru_accept(net: Network, calls: &[u8], settings: &[u8]) -> Verdict
    ensures { Accepts net calls.now settings.now result }
{
    Verdict::from(acceptance::accept(net, calls, settings))
}

// The table with one call more, settings for it, and the rows that were moved, at the front of the three buffers.
#[unsafe(no_mangle)]
pub extern "C" fn bolikwaru_add(
    net: Network,
    calls: &[u8],
    settings: &[u8],
    call: &[u8],
    calls_after: &mut [u8],
    settings_after: &mut [u8],
    moved_rows: &mut [u8],
) -> Planned
    ensures { AddsCall net calls.now settings.now call.now (record { calls = calls_after.old; settings = settings_after.old; moved = moved_rows.old }) (record { calls = calls_after.new; settings = settings_after.new; moved = moved_rows.new }) result }
{
    Planned::from(adding::add(
        net,
        calls,
        settings,
        call,
        calls_after,
        settings_after,
        moved_rows,
    ))
}

// The table and its settings without one row, at the front of the two buffers.
#[unsafe(no_mangle)]
pub extern "C" fn bolikwaru_drop(
    net: Network,
    calls: &[u8],
    settings: &[u8],
    row: usize,
    calls_after: &mut [u8],
    settings_after: &mut [u8],
) -> Verdict
    ensures { DropsCall net calls.now settings.now row (record { calls = calls_after.old; settings = settings_after.old }) (record { calls = calls_after.new; settings = settings_after.new }) result }
{
    Verdict::from(dropping::drop(net, calls, settings, row, calls_after, settings_after))
}

// What a plan file tells.
#[unsafe(no_mangle)]
pub extern "C" fn bolikwaru_read(file: &[u8]) -> Told
    ensures { Reads all_kinds file.now result }
{
    Told::from(planfile::read(file))
}

// A calls-only file, at the front of `out`.
#[unsafe(no_mangle)]
pub extern "C" fn bolikwaru_write_calls(
    net: Network,
    note: &[u8],
    calls: &[u8],
    settings: &[u8],
    out: &mut [u8],
) -> Verdict
    ensures { Writes calls_only net note.now calls.now settings.now out.old out.new result }
{
    let parts = Parts {
        note,
        calls,
        settings,
    };
    Verdict::from(planwriter::write(net, Kind::CallsOnly, parts, out))
}

// A planned file, at the front of `out`.
#[unsafe(no_mangle)]
pub extern "C" fn bolikwaru_write_planned(
    net: Network,
    note: &[u8],
    calls: &[u8],
    settings: &[u8],
    out: &mut [u8],
) -> Verdict
    ensures { Writes planned net note.now calls.now settings.now out.old out.new result }
{
    let parts = Parts {
        note,
        calls,
        settings,
    };
    Verdict::from(planwriter::write(net, Kind::Planned, parts, out))
}

// A calls-only file that holds the cycle, at the front of `out`.
#[unsafe(no_mangle)]
pub extern "C" fn bolikwaru_write_calls_with_cycle(
    net: Network,
    note: &[u8],
    calls: &[u8],
    settings: &[u8],
    out: &mut [u8],
) -> Verdict
    ensures { Writes calls_with_cycle net note.now calls.now settings.now out.old out.new result }
{
    let parts = Parts {
        note,
        calls,
        settings,
    };
    Verdict::from(planwriter::write(net, Kind::CallsWithCycle, parts, out))
}

// A planned file that holds the cycle, at the front of `out`.
#[unsafe(no_mangle)]
pub extern "C" fn bolikwaru_write_planned_with_cycle(
    net: Network,
    note: &[u8],
    calls: &[u8],
    settings: &[u8],
    out: &mut [u8],
) -> Verdict
    ensures { Writes planned_with_cycle net note.now calls.now settings.now out.old out.new result }
{
    let parts = Parts {
        note,
        calls,
        settings,
    };
    Verdict::from(planwriter::write(net, Kind::PlannedWithCycle, parts, out))
}

// An old file as a new one, at the front of `out`.
#[unsafe(no_mangle)]
pub extern "C" fn bolikwaru_convert_to_new(file: &[u8], out: &mut [u8]) -> Verdict
    ensures { Converts old_kinds true file.now out.old out.new result }
{
    Verdict::from(conversion::convert(To::New, file, out))
}

// A new file as an old one, at the front of `out`.
#[unsafe(no_mangle)]
pub extern "C" fn bolikwaru_convert_to_old(file: &[u8], out: &mut [u8]) -> Verdict
    ensures { Converts new_kinds false file.now out.old out.new result }
{
    Verdict::from(conversion::convert(To::Old, file, out))
}
