// Dropping one call from a running shelf: its row is taken out of both tables, and later rows close up. No other call is touched, and
// the central of the dropped call is free at both its modules again.
#![tactic(auto)]

ghost use Rattle.std.specs.Prelude.{◌≡◌, ◌+◌, ◌-◌, ◌*◌, ◌≤◌, length};
ghost use Rattle.ground.specs.Bytes.{front};
ghost use Rattle.calls.specs.Verdict.{in_turn};
ghost use Rattle.calls.specs.Refusal.{checked_by, answered_by};
ghost use Rattle.dropping.specs.Dropping.{without_row, drop_checks, DropsCall};

use calls::Refusal;
use shelf::Network;

// Writes the calls without the row, and the settings without the row, to the front of `calls_after` and `settings_after`; the bytes
// beyond are kept. Tells K - 1. Refuses what acceptance refuses, as it does; then 17 for a row that is not there, then 4; and then
// changes nothing. Nothing is asked of the input.
pub fn drop(
    net: Network,
    calls: &[u8],
    settings: &[u8],
    row: usize,
    calls_after: &mut [u8],
    settings_after: &mut [u8],
) -> Result<usize, Refusal>
    ensures { DropsCall net calls.now settings.now row (record { calls = calls_after.old; settings = settings_after.old }) (record { calls = calls_after.new; settings = settings_after.new }) (answered_by result) }
{
    check(
        net,
        calls,
        settings,
        row,
        calls_after.len(),
        settings_after.len(),
    )?;
    let left = calls.len() / 4 - 1;
    close_up::<4>(calls, row, calls_after);
    close_up::<3>(settings, row, settings_after);
    Ok(left)
}

// Whether the row can be dropped, into buffers of so many bytes: acceptance's refusals, then 17, then 4.
fn check(
    net: Network,
    calls: &[u8],
    settings: &[u8],
    row: usize,
    calls_room: usize,
    settings_room: usize,
) -> Result<(), Refusal>
    ensures { checked_by result ≡ in_turn (drop_checks net calls.now settings.now row calls_room settings_room) }
{
    let count = acceptance::accept(net, calls, settings)?;
    if count <= row {
        return Err(Refusal::NoSuchRow);
    }
    let left = count - 1;
    if calls_room < 4 * left || settings_room < 3 * left {
        return Err(Refusal::NoRoom);
    }
    Ok(())
}

// Writes the table, of `SIZE` bytes a row, without one of its rows to the front of `out`.
fn close_up<const SIZE: usize>(table: &[u8], row: usize, out: &mut [u8])
    requires { (SIZE * row + SIZE ≤ length table.now) × (length table.now - SIZE ≤ length out.old) }
    ensures { out.new ≡ front out.old (without_row SIZE row table.now) }
{
    let start = SIZE * row;
    let end = ground::write_bytes(out, 0, &table[..start]);
    ground::write_bytes(out, end, &table[start + SIZE..]);
}
