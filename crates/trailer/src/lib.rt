// The kinds of plan file, how a file is laid out, and its trailer, which stands last and points back: it is taken apart before a row is
// touched. The layout is stated once for all kinds, in specs/File.antt, for readers and writers above.
#![tactic(auto)]

ghost use Rattle.std.specs.Prelude.{◌≡◌, ◌*◌, ◌≤◌, T, length};
ghost use Rattle.shelf.specs.Network.{most_calls, sized};
ghost use Rattle.calls.specs.Refusal.{with_verdict};
ghost use Rattle.trailer.specs.File.{has_settings, has_cycle, takes, old_kinds, new_kinds, all_kinds, short_trailer, trailer_length, settings_per_call, settings_distance, calls_distance};
ghost use Rattle.trailer.specs.Trailer.{kind_in, told_net, front_stands, has_trailer, distances_stated, told_by, TakenApart};

use calls::Refusal;
pub use kind::{Kind, UnknownKind};
use shelf::Network;

mod kind;

// The bytes of a trailer without the cycle and with it, and the most that a note may have.
pub const SHORT_TRAILER: usize = 12;

pub const LONG_TRAILER: usize = 14;

pub const MOST_NOTE: usize = 255;

// The bytes of the longest file: the longest note, the most calls, their settings, and the longer trailer.
pub const LONGEST_FILE: usize = MOST_NOTE
    + 4 * Network::MOST_CALLS
    + 3 * Network::MOST_CALLS
    + LONG_TRAILER;

// Where the spare byte stands in a longer trailer. The cycle stands first.
const SPARE_AT: usize = 1;

// Where in the twelve bytes that every trailer ends with stand n, m, r, kind, K, the distances back to settings and to calls, and the
// mark.
const N_AT: usize = 0;

const M_AT: usize = 1;

const R_AT: usize = 2;

const KIND_AT: usize = 3;

const COUNT_AT: usize = 4;

const SETTINGS_BACK_AT: usize = 6;

const CALLS_BACK_AT: usize = 8;

const MARK_AT: usize = 10;

// The mark at a trailer's end, two bytes as one number.
pub const MARK: usize = 0x4157;

// The kinds that a reader takes: from the first to the last, by their numbers. These may be any, since what a reader of any kinds promises
// (`TakenApart`, `Reads`) and its laws (`same_read`, `not_read`) speak of them all.
#[derive(Clone, Copy)]
pub struct Kinds {
    pub first: usize,
    pub last: usize,
}

impl Kinds {
    // The kinds of the first issue, whose files hold no cycle.
    #[tactic(auto, unfolding(crate::specs::File::old_kinds))]
    pub fn old() -> Kinds
        ensures { result ≡ old_kinds }
    {
        Kinds {
            first: Kind::CallsOnly.number(),
            last: Kind::Planned.number(),
        }
    }

    // The kinds whose files hold the cycle.
    #[tactic(auto, unfolding(crate::specs::File::new_kinds))]
    pub fn with_cycle() -> Kinds
        ensures { result ≡ new_kinds }
    {
        Kinds {
            first: Kind::CallsWithCycle.number(),
            last: Kind::PlannedWithCycle.number(),
        }
    }

    // Every kind.
    #[tactic(auto, unfolding(crate::specs::File::all_kinds))]
    pub fn all() -> Kinds
        ensures { result ≡ all_kinds }
    {
        Kinds {
            first: Kind::CallsOnly.number(),
            last: Kind::PlannedWithCycle.number(),
        }
    }

    // Whether this is one of the kinds.
    #[tactic(auto, unfolding(ground::specs::Truth::all, crate::specs::File::takes))]
    fn takes(self, kind: usize) -> bool
        ensures { result ≡ takes self kind }
    {
        (self.first..=self.last).contains(&kind)
    }
}

// What a reader tells: number and row, the network with its cycle, the kind, K, and where note, calls and settings begin. A refused
// read tells zero for all but number and row. Programs in C share this record.
#[repr(C)]
#[derive(Clone, Copy)]
pub struct Told {
    pub number: usize,
    pub row: usize,
    pub n: usize,
    pub m: usize,
    pub r: usize,
    pub w: usize,
    pub kind: usize,
    pub count: usize,
    pub note_at: usize,
    pub calls_at: usize,
    pub settings_at: usize,
}

impl From<Result<Layout, Refusal>> for Told {
    ghost from_gives = { λ answer told. told ≡ told_by (with_verdict answer) };

    // Of a whole file 0 and K, and its layout, where the note stands first; of a refusal its number and row, and zero for all else.
    #[tactic(auto, unfolding(crate::specs::Trailer::whole_told, crate::specs::Trailer::refused_told))]
    fn from(answer: Result<Layout, Refusal>) -> Told {
        match answer {
            Ok(layout) => {
                let net = layout.net;
                Told {
                    number: 0,
                    row: layout.count,
                    n: net.n,
                    m: net.m,
                    r: net.r,
                    w: net.w,
                    kind: layout.kind,
                    count: layout.count,
                    note_at: 0,
                    calls_at: layout.calls_at,
                    settings_at: layout.settings_at,
                }
            }
            Err(refusal) => Told {
                number: refusal.number(),
                row: refusal.row(),
                n: 0,
                m: 0,
                r: 0,
                w: 0,
                kind: 0,
                count: 0,
                note_at: 0,
                calls_at: 0,
                settings_at: 0,
            },
        }
    }
}

// What a whole trailer says of its file. Its kind is a number, as `take_trailer` promises it of readers of any kinds.
#[derive(Clone, Copy)]
pub struct Layout {
    pub net: Network,
    pub kind: usize,
    pub count: usize,
    pub trailer_at: usize,
    pub calls_at: usize,
    pub settings_at: usize,
}

// Whether files of this kind hold settings. Here and below a kind is any number, and what is none has neither settings nor cycle: a
// trailer can tell it, and what is promised of such a file speaks of it (`take_trailer`, `planfile::check_table`).
pub fn has_settings(kind: usize) -> bool
    ensures { result ≡ has_settings kind }
{
    Kind::try_from(kind).is_ok_and(Kind::has_settings)
}

// Whether the trailer of a file of this kind holds the cycle.
pub fn has_cycle(kind: usize) -> bool
    ensures { result ≡ has_cycle kind }
{
    Kind::try_from(kind).is_ok_and(Kind::has_cycle)
}

// The bytes of the trailer of a file of this kind.
#[tactic(auto, unfolding(crate::specs::File::short_trailer, crate::specs::File::long_trailer, crate::specs::File::trailer_length))]
pub fn trailer_length(kind: usize) -> usize
    ensures { result ≡ trailer_length kind }
{
    if has_cycle(kind) {
        LONG_TRAILER
    } else {
        SHORT_TRAILER
    }
}

// The bytes of settings for each call in a file of this kind.
#[tactic(auto, unfolding(crate::specs::File::settings_per_call))]
pub fn settings_per_call(kind: usize) -> usize
    ensures { (result ≡ settings_per_call kind) × (result ≤ 3) }
{
    if has_settings(kind) { 3 } else { 0 }
}

// How far back from the trailer's start the first settings row stands.
#[tactic(auto, unfolding(shelf::specs::Network::most_calls, crate::specs::File::settings_distance))]
pub fn settings_distance(kind: usize, count: usize) -> usize
    requires { count ≤ most_calls }
    ensures { (result ≡ settings_distance kind count) × (result ≤ 3 * count) }
{
    settings_per_call(kind) * count
}

// How far back from the trailer's start the first call row stands.
#[tactic(auto, unfolding(shelf::specs::Network::most_calls, crate::specs::File::calls_distance))]
pub fn calls_distance(kind: usize, count: usize) -> usize
    requires { count ≤ most_calls }
    ensures { result ≡ calls_distance kind count }
{
    4 * count + settings_distance(kind, count)
}

// Takes the trailer apart, of a file of one of these kinds: the layout, or refusal 14, 1, 3 or 15.
#[tactic(auto, unfolding(shelf::specs::Network::most_calls))]
pub fn take_trailer(kinds: Kinds, file: &[u8]) -> Result<Layout, Refusal>
    ensures { TakenApart kinds file.now (with_verdict result) }
{
    if !has_trailer(kinds, file) {
        return Err(Refusal::NoTrailer);
    }
    let net = network_in(file).ok_or(Refusal::Sizes)?;
    let twelve_at = file.len() - SHORT_TRAILER;
    let twelve = &file[twelve_at..];
    let kind = ground::byte_at(twelve, KIND_AT);
    let trailer_at = file.len() - trailer_length(kind);
    let count = ground::number_at(twelve, COUNT_AT);
    if Network::MOST_CALLS < count {
        return Err(Refusal::TooManyCalls);
    }
    let settings_back = ground::number_at(twelve, SETTINGS_BACK_AT);
    let calls_back = ground::number_at(twelve, CALLS_BACK_AT);
    if !are_stated(kind, count, settings_back, calls_back, trailer_at) {
        return Err(Refusal::Distances);
    }
    Ok(Layout {
        net,
        kind,
        count,
        trailer_at,
        calls_at: trailer_at - calls_back,
        settings_at: trailer_at - settings_back,
    })
}

// Whether a file ends in a trailer of one of these kinds: it has the trailer's bytes, the mark at its end, and a spare byte, where there
// is one, that is zero.
#[tactic(auto, unfolding(ground::specs::Truth::all, crate::specs::File::short_trailer, crate::specs::Trailer::has_trailer))]
fn has_trailer(kinds: Kinds, file: &[u8]) -> bool
    ensures { result ≡ has_trailer kinds file.now }
{
    SHORT_TRAILER <= file.len() && ends_in_trailer(kinds, file)
}

// The same, of a file that has the bytes of the shorter trailer.
#[tactic(auto, unfolding(ground::specs::Truth::all, ground::specs::Bytes::part, crate::specs::File::short_trailer, crate::specs::File::mark, crate::specs::Trailer::has_trailer, crate::specs::Trailer::front_stands, crate::specs::Trailer::twelve_in, crate::specs::Trailer::told_mark, crate::specs::Trailer::told_kind, crate::specs::Trailer::kind_in))]
fn ends_in_trailer(kinds: Kinds, file: &[u8]) -> bool
    requires { short_trailer ≤ length file.now }
    ensures { result ≡ has_trailer kinds file.now }
{
    let twelve = &file[file.len() - SHORT_TRAILER..];
    let kind = ground::byte_at(twelve, KIND_AT);
    ground::number_at(twelve, MARK_AT) == MARK && kinds.takes(kind) && has_front(kind, file)
}

// Whether the front of a trailer of this kind is there: nothing without the cycle, and with it two bytes, of which the spare one is zero.
#[tactic(auto, unfolding(ground::specs::Truth::all, ground::specs::Truth::any, crate::specs::File::long_trailer, crate::specs::File::trailer_length, crate::specs::Trailer::front_stands, crate::specs::Trailer::spare_in, crate::specs::Trailer::trailer_place))]
fn has_front(kind: usize, file: &[u8]) -> bool
    requires { (short_trailer ≤ length file.now) × (kind ≡ kind_in file.now) }
    ensures { result ≡ front_stands file.now }
{
    let size = file.len();
    !has_cycle(kind)
        || (LONG_TRAILER <= size && ground::byte_at(file, size - LONG_TRAILER + SPARE_AT) == 0)
}

// The network that a trailer tells, with its cycle; none where one of its numbers is outside its limits.
#[tactic(auto, unfolding(ground::specs::Bytes::part, shelf::specs::Network::of_sizes, crate::specs::File::short_trailer, crate::specs::File::long_trailer, crate::specs::File::trailer_length, crate::specs::Trailer::twelve_in, crate::specs::Trailer::told_kind, crate::specs::Trailer::kind_in, crate::specs::Trailer::trailer_place, crate::specs::Trailer::cycle_in, crate::specs::Trailer::told_net))]
fn network_in(file: &[u8]) -> Option<Network>
    requires { (short_trailer ≤ length file.now) × (trailer_length (kind_in file.now) ≤ length file.now) }
    ensures { result ≡ sized (told_net file.now) }
{
    let size = file.len();
    let twelve = &file[size - SHORT_TRAILER..];
    let n = ground::byte_at(twelve, N_AT);
    let m = ground::byte_at(twelve, M_AT);
    let r = ground::byte_at(twelve, R_AT);
    if !has_cycle(ground::byte_at(twelve, KIND_AT)) {
        return Network::new(n, m, r);
    }
    Network::with_cycle(n, m, r, ground::byte_at(file, size - LONG_TRAILER))
}

// Whether the distances are as stated for the kind and K, no more than stands before the trailer, and leave a note that is
// not too long.
#[tactic(auto, unfolding(ground::specs::Truth::all, crate::specs::File::most_note, crate::specs::Trailer::distances_stated))]
fn are_stated(
    kind: usize,
    count: usize,
    settings_back: usize,
    calls_back: usize,
    start: usize,
) -> bool
    requires { count ≤ most_calls }
    ensures { result ≡ distances_stated kind count settings_back calls_back start }
{
    settings_back == settings_distance(kind, count)
        && calls_back == calls_distance(kind, count)
        && calls_back <= start
        && start - calls_back <= MOST_NOTE
}
