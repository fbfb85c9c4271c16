// The writer of plan files: any parts are written as a file of any kind, or refused. How a file is laid out is stated once, by the crate
// `trailer`, and that files read back as written is a law over reader and writer (proofs/RoundTrips.antt).
#![tactic(auto)]

ghost use Rattle.std.specs.Prelude.{◌∷◌, ◌≡◌, ◌≤◌, ◌<◌, T, length};
ghost use Rattle.ground.specs.Bytes.{front};
ghost use Rattle.shelf.specs.Network.{within_limits, most_calls};
ghost use Rattle.calls.specs.Refusal.{checked_by, answered_by};
ghost use Rattle.calls.specs.Verdict.{in_turn};
ghost use Rattle.trailer.specs.File.{kind_number, last_twelve, file_of};
ghost use Rattle.planwriter.specs.Writer.{untold_cycle, part_checks, HasRoom, Writes};

use calls::Refusal;
use shelf::Network;
use trailer::Kind;

// What stands in a file before its trailer: the note, the call rows and the settings rows.
#[derive(Clone, Copy)]
pub struct Parts<'a> {
    pub note: &'a [u8],
    pub calls: &'a [u8],
    pub settings: &'a [u8],
}

// Writes a file of this kind at the front of `out`: K, or the first refusal in the order 1, 2, 3, 16, 4, 5, 6, 7, then for a planned file
// row by row 9 to 13, then 18. A planned file has 3 bytes of settings for each call and a calls-only file none, else 2. 18 is for a
// kind without the cycle, where the network's is not the larger of r and m. A refusal changes no byte, and bytes beyond the file keep their
// values. Nothing is asked of the input. From here on the kind is its number, as `put_file` and `planfile::check_table` take it.
pub fn write(net: Network, kind: Kind, parts: Parts, out: &mut [u8]) -> Result<usize, Refusal>
    ensures { Writes (kind_number kind) net parts.entry.note.now parts.entry.calls.now parts.entry.settings.now out.old out.new (answered_by result) }
{
    let kind = kind.number();
    check_parts(net, kind, parts, out.len())?;
    put_file(net, kind, parts, out);
    Ok(parts.calls.len() / 4)
}

// Puts the file of these parts at the front of `out`, which has room for it. The kind is a number, any below 256: a narrower
// type would ask more of callers.
pub fn put_file(net: Network, kind: usize, parts: Parts, out: &mut [u8])
    requires { (kind < 256) × HasRoom kind net parts.note.now parts.calls.now parts.settings.now (length out.old) }
    ensures { out.new ≡ front out.old (file_of net kind parts.entry.note.now parts.entry.calls.now parts.entry.settings.now) }
{
    let longer = trailer_of(net, kind, parts.calls.len() / 4);
    let calls_at = ground::write_bytes(out, 0, parts.note);
    let settings_at = ground::write_bytes(out, calls_at, parts.calls);
    let trailer_at = ground::write_bytes(out, settings_at, parts.settings);
    let shorter = trailer::LONG_TRAILER - trailer::trailer_length(kind);
    ground::write_bytes(out, trailer_at, &longer[shorter..]);
}

// The checks of the parts of a file that is to be written, in the writer's order.
fn check_parts(net: Network, kind: usize, parts: Parts, room: usize) -> Result<(), Refusal>
    ensures { checked_by result ≡ in_turn (part_checks kind net parts.entry.note.now parts.entry.calls.now parts.entry.settings.now room) }
{
    let Parts {
        note,
        calls,
        settings,
    } = parts;
    calls::check_sizes(
        net,
        calls.len(),
        settings.len(),
        trailer::settings_per_call(kind),
    )?;
    let size = note.len() + calls.len() + settings.len() + trailer::trailer_length(kind);
    if trailer::MOST_NOTE < note.len() {
        return Err(Refusal::LongNote);
    }
    if room < size {
        return Err(Refusal::NoRoom);
    }
    planfile::check_table(net, kind, calls, settings)?;
    check_cycle(net, kind)
}

// Refusal 18: the network's cycle is not the larger of r and m, and a file of this kind has no place for it.
#[tactic(auto, unfolding(crate::specs::Writer::untold_cycle, crate::specs::Writer::other_cycle, calls::specs::Verdict::refused_if, calls::specs::Verdict::passed))]
fn check_cycle(net: Network, kind: usize) -> Result<(), Refusal>
    ensures { checked_by result ≡ untold_cycle kind net }
{
    if trailer::has_cycle(kind) || net.has_least_cycle() {
        Ok(())
    } else {
        Err(Refusal::UntoldCycle)
    }
}

// The longer trailer of a file with `count` calls, whose last twelve bytes are the shorter one. The sizes are narrowed to bytes by `as`, which is proved
// to lose nothing: `try_from` would only add an `unwrap` to each. The halves of a number are `ground`'s, of any number: those of a `u16` would ask for one more cast. That
// the network is within its limits is asked in words, as of `put_file`.
fn trailer_of(net: Network, kind: usize, count: usize) -> [u8; trailer::LONG_TRAILER]
    requires { T (within_limits net) × (kind < 256) × (count ≤ most_calls) }
    ensures { result ≡ net.w ∷ 0 ∷ last_twelve net kind count }
{
    let settings_back = trailer::settings_distance(kind, count);
    let calls_back = trailer::calls_distance(kind, count);
    [
        net.w as u8,
        0,
        net.n as u8,
        net.m as u8,
        net.r as u8,
        kind as u8,
        ground::high_byte(count),
        ground::low_byte(count),
        ground::high_byte(settings_back),
        ground::low_byte(settings_back),
        ground::high_byte(calls_back),
        ground::low_byte(calls_back),
        ground::high_byte(trailer::MARK),
        ground::low_byte(trailer::MARK),
    ]
}
