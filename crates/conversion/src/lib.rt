// Conversions of plan files: of old files to new ones, which hold the cycle, and of new files to old ones. Any bytes are converted or
// refused. That there and back gives the first file's bytes is a law over the two (proofs/ThereAndBack.antt).
#![tactic(auto)]

ghost use Rattle.std.specs.Prelude.{◌≡◌, ◌≤◌, length};
ghost use Rattle.shelf.specs.Network.{most_calls};
ghost use Rattle.calls.specs.Refusal.{answered_by};
ghost use Rattle.trailer.specs.Trailer.{LaidOut};
ghost use Rattle.conversion.specs.Conversion.{kinds_for, cycle_for, Recasts, Converts};

use calls::Refusal;
use planwriter::Parts;
use trailer::{Kind, Kinds, Layout};

// Which way a file is converted: to a new file, which holds the cycle, or to an old one, which does not.
#[derive(Clone, Copy, Debug, PartialEq, Eq)]
pub enum To {
    New,
    Old,
}

impl To {
    // The kinds of the files that are converted this way: those of the other files.
    fn kinds(self) -> Kinds
        ensures { result ≡ kinds_for self }
    {
        match self {
            To::New => Kinds::old(),
            To::Old => Kinds::with_cycle(),
        }
    }

    // Whether the files that are made hold the cycle.
    fn has_cycle(self) -> bool
        ensures { result ≡ cycle_for self }
    {
        match self {
            To::New => true,
            To::Old => false,
        }
    }
}

// Converts an old file, of kind 1 or 2, to one of kind 3 or 4, or a new file back, at the front of `out`: K, or the first refusal in the reader's
// order, with 14 for any other kind, then 18, then 4. 18 is for a cycle that is not the larger of r and m, since an old file could not tell it. A
// refusal changes no byte, and bytes beyond the file keep their values. Nothing is asked of the input.
pub fn convert(to: To, file: &[u8], out: &mut [u8]) -> Result<usize, Refusal>
    ensures { Converts (kinds_for to) (cycle_for to) file.now out.old out.new (answered_by result) }
{
    let layout = planfile::check_file(to.kinds(), file)?;
    recast(to, layout, file, out)
}

// Puts the parts of a file with this layout into a file with the cycle or without it, or refuses with 18 or 4.
fn recast(to: To, layout: Layout, file: &[u8], out: &mut [u8]) -> Result<usize, Refusal>
    requires { LaidOut (length file.now) layout × (layout.count ≤ most_calls) }
    ensures { Recasts (cycle_for to) layout file.now out.old out.new (answered_by result) }
{
    let net = layout.net;
    if !net.has_least_cycle() {
        return Err(Refusal::UntoldCycle);
    }
    let kind = Kind::with(trailer::has_settings(layout.kind), to.has_cycle()).number();
    if out.len() < layout.trailer_at + trailer::trailer_length(kind) {
        return Err(Refusal::NoRoom);
    }
    let parts = Parts {
        note: &file[..layout.calls_at],
        calls: &file[layout.calls_at..layout.settings_at],
        settings: &file[layout.settings_at..layout.trailer_at],
    };
    planwriter::put_file(net, kind, parts, out);
    Ok(layout.count)
}
