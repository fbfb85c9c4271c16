// Acceptance of settings: any bytes are answered, with a number and a row. For a call table in order the number is 0 exactly
// when the settings are lawful, which is proved from how light travels (proofs/Exactly.antt).
#![tactic(auto)]

ghost use Rattle.std.specs.Prelude.{◌≡◌, ℕ, ◌*◌, ◌<◌, T, length};
ghost use Rattle.shelf.specs.Network.{within_limits};
ghost use Rattle.shelf.specs.Rows.{row_count};
ghost use Rattle.shelf.specs.Light.{row_of};
ghost use Rattle.calls.specs.Refusal.{checked_by, answered_by};
ghost use Rattle.calls.specs.Table.{Inside};
ghost use Rattle.acceptance.specs.Acceptance.{has_numbers, light_verdict, unlawful_row, row_checks, Accepts};

use calls::Refusal;
use shelf::{CallRow, Network, SettingsRow};

// Whether the settings are lawful for the calls: K, or the first refusal in the order 1, 2, 3, 5, 6, 7, then row by row 9 to 13.
// Nothing is asked of the input.
pub fn accept(net: Network, calls: &[u8], settings: &[u8]) -> Result<usize, Refusal>
    ensures { Accepts net calls.now settings.now (answered_by result) }
{
    calls::check_sizes(net, calls.len(), settings.len(), 3)?;
    check_rows(net, calls, settings)?;
    Ok(calls.len() / 4)
}

// Acceptance from refusal 5 on, for sizes and lengths that were tested. That is asked in words, here and below: a type that says so would ask more of
// callers than a plain network.
pub fn check_rows(net: Network, calls: &[u8], settings: &[u8]) -> Result<(), Refusal>
    requires { T (within_limits net) × (length settings.now ≡ 3 * row_count calls.now) }
    ensures { checked_by result ≡ row_checks net calls.now settings.now }
{
    calls::check_calls(net, calls)?;
    seek_unlawful(net, calls, settings)
}

// The first row that 9 to 13 refuse, by records of the pairs (input module, central) and (output module, central) in use: a word for
// each module, with a bit for each central. They stay two arrays, since one goes by input modules and the other by output modules: a
// struct of both would only name them again, and so be no plainer. The search stays a call of its own, so that they take no stack while the calls are checked.
#[inline(never)]
fn seek_unlawful(net: Network, calls: &[u8], settings: &[u8]) -> Result<(), Refusal>
    requires { T (within_limits net) × (length settings.now ≡ 3 * row_count calls.now) × ((i : ℕ) → i < row_count calls.now → Inside net calls.now i) }
    ensures { checked_by result ≡ unlawful_row net calls.now settings.now }
{
    let count = calls.len() / 4;
    let mut inputs = [0u32; Network::MOST_MODULES];
    let mut outputs = [0u32; Network::MOST_MODULES];
    for row in 0..count {
        let call = CallRow::at(calls, row);
        let set = SettingsRow::at(settings, row);
        judge_light(net, row, call, set)?;
        if ground::mark(&mut inputs, call.input_module, set.central) {
            return Err(Refusal::InputPairTwice(row));
        }
        if ground::mark(&mut outputs, call.output_module, set.central) {
            return Err(Refusal::OutputPairTwice(row));
        }
    }
    Ok(())
}

// Refusals 9, 10 and 11 of one row: its wavelengths and its central, and the ports at which its light leaves the gratings.
fn judge_light(net: Network, row: usize, call: CallRow, set: SettingsRow) -> Result<(), Refusal>
    requires { T (within_limits net) × (call.input_module < net.r) }
    ensures { checked_by result ≡ light_verdict net row (row_of call set) }
{
    if !has_numbers(net, set) {
        return Err(Refusal::NotOwned(row));
    }
    let cycle = net.cycle();
    if grating::exit_port(cycle, set.to_central, call.input_module) != set.central {
        return Err(Refusal::WrongCentral(row));
    }
    if grating::exit_port(cycle, set.from_central, set.central) != call.output_module {
        return Err(Refusal::WrongOutput(row));
    }
    Ok(())
}

// Whether the shelf has wavelengths and a central of a row's numbers.
fn has_numbers(net: Network, set: SettingsRow) -> bool
    ensures { result ≡ has_numbers net set.to_central set.central set.from_central }
{
    let cycle = net.cycle();
    set.to_central < cycle && set.from_central < cycle && set.central < net.m
}
