// The grating rule: where a wavelength leaves one grating, and which wavelength leads from one port to another.
// A grating has a cycle: its wavelengths and its ports are numbered from 0 to the cycle less 1. Crates above rely on
// the two promises below and on the laws of proofs/Laws.antt. This crate is no entry for outside callers. No sum is formed that a
// cycle near the largest number would not hold, and no remainder: one comparison stands for it.
#![tactic(auto)]

ghost use Rattle.std.specs.Prelude.{◌≡◌, ◌<◌};
ghost use Rattle.grating.specs.Grating.{exit_port, wavelength_between};

// The port at which `wavelength`, entering at `entry`, leaves.
#[tactic(auto, unfolding(crate::specs::Grating::exit_port, crate::specs::Grating::remainder))]
pub fn exit_port(cycle: usize, wavelength: usize, entry: usize) -> usize
    requires { (wavelength < cycle) × (entry < cycle) }
    ensures { result ≡ exit_port cycle wavelength entry }
{
    if entry <= wavelength {
        wavelength - entry
    } else {
        cycle - (entry - wavelength)
    }
}

// The one wavelength that, entering at `entry`, leaves at `exit`.
#[tactic(auto, unfolding(crate::specs::Grating::wavelength_between, crate::specs::Grating::remainder))]
pub fn wavelength_between(cycle: usize, entry: usize, exit: usize) -> usize
    requires { (entry < cycle) × (exit < cycle) }
    ensures { result ≡ wavelength_between cycle entry exit }
{
    let room = cycle - entry;
    if exit < room {
        entry + exit
    } else {
        exit - room
    }
}
