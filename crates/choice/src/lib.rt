// One placement of the choice rule: the first common central by a record of use, else the chain that exchanges two centrals.
// The rule itself, and that it keeps any proper colouring proper, are definitions in specs/ and laws in proofs/.
//
// The calls placed so far lie in one slice of rows of three bytes: input module, central, output module. A central or a row is narrowed into
// its place by `as`, which is proved to lose nothing: `try_from` would only add an `unwrap`.
#![tactic(auto)]

ghost use Rattle.std.specs.Prelude.{◌≡◌, true, false, ◌+◌, ◌*◌, ◌-◌, ◌/◌, ◌%◌, ◌≤◌, ◌<◌, T, eqb, length, set};
ghost use Rattle.ground.specs.Words.{put_at};
ghost use Rattle.shelf.specs.Network.{most_modules, most_centrals, most_calls, within_limits};
ghost use Rattle.shelf.specs.Order.{order};
ghost use Rattle.shelf.specs.Rows.{is_output};
ghost use Rattle.choice.specs.Rule.{at, first_of, row_on};
ghost use Rattle.choice.specs.Rows.{module_in, centrals_of};
ghost use Rattle.choice.specs.Record.{module_number, nothing_used, both_free, taking, swapping, found_by, Recorded, Recordable};
ghost use Rattle.choice.specs.Placement.{chain_places, Mendable, Mended, Placeable, Placed, NoCommon};

use shelf::{Network, Side};

// A word for each module of each side, with a bit for each central.
pub const RECORD: usize = 2 * Network::MOST_MODULES;

// A place for each row of a chain: it meets no module twice, and that of the new call is met before its first row. How many rows a chain has is
// told beside them: `Placed` promises the two as they are.
pub const CHAIN: usize = 2 * Network::MOST_MODULES - 1;

// Places the call of `row`, which stands last in `rows`, when the rows before it are placed: it takes the first central that is
// free at both its modules, or the first that is free at its input module, after a chain from its output module. Tells how many
// calls the chain changed, and in `chain` their rows, in chain order from the place 2 * r - 2 down.
// What is asked is any proper colouring of the rows before it with its record, and room at both modules.
pub fn place(
    net: Network,
    rows: &mut [u8],
    row: usize,
    used: &mut Record,
    chain: &mut [u16; CHAIN],
) -> usize
    requires { Placeable net rows.old row used.old.words chain.old }
    ensures { Placed net rows.old rows.new row used.new.words chain.old chain.new result }
{
    let input = module_number(rows, row, Side::Input);
    let output = module_number(rows, row, Side::Output);
    let Some(common) = used.first_common(net, input, output) else {
        return place_by_chain(net, rows, row, used, chain);
    };
    rows[3 * row + 1] = common as u8;
    used.record_row(rows, row);
    0
}

// The same where no central is free at both modules. Let a be the first that is free at the input module, and b at the output module:
// the new call stands on b until the first step of the chain gives it a.
fn place_by_chain(
    net: Network,
    rows: &mut [u8],
    row: usize,
    used: &mut Record,
    chain: &mut [u16; CHAIN],
) -> usize
    requires { Placeable net rows.old row used.old.words chain.old × NoCommon net rows.old row used.old.words }
    ensures { Placed net rows.old rows.new row used.new.words chain.old chain.new result }
{
    let input = module_number(rows, row, Side::Input);
    let output = module_number(rows, row, Side::Output);
    let a = used.first_common(net, input, input).unwrap();
    let b = used.first_common(net, output, output).unwrap();
    rows[3 * row + 1] = b as u8;
    let start = 2 * net.r - 1;
    let left = chain_from_output(rows, chain, row, a as u8, start);
    let moved = start - left;
    let end = module_number(rows, usize::from(chain[left]), end_side(moved));
    used.swap(end, a, b);
    used.take(output, b);
    used.take(input, a);
    moved
}

// The side of the last module of a chain of so many calls from an output module.
fn end_side(moved: usize) -> Side
    ensures { is_output result ≡ eqb (moved % 2) 0 }
{
    if moved % 2 == 0 {
        Side::Output
    } else {
        Side::Input
    }
}

// The chain from the output module of the row `from`, which takes `central` and has another one so far: the call that stands there on
// `central` takes that other one, and the chain goes on from that call's input module. Where none stands there, the chain has ended.
// `left` is the number of the modules not yet met, of both sides: it falls with each call, and is never what ends a chain
// (proofs/NotYetMet.antt). The rows are told in `chain`, each at the place of the number left after it; what is told back is the number
// left at the end. As written, a chain has a frame on the stack for each of its calls, so nothing is kept in it for afterwards.
// One step for each side, since the scope of work asks for two that call each other.
#[cycle(chain_from_input_chain_from_output)]
fn chain_from_output(
    rows: &mut [u8],
    chain: &mut [u16; CHAIN],
    from: usize,
    central: u8,
    left: usize,
) -> usize
    requires { Mendable true rows.old from central left }
    ensures { Mended true rows.old rows.new chain.old chain.new from central left result }
{
    let found = row_on(rows, from, central, Side::Output);
    let other = change(rows, from, central);
    let Some(row) = found else {
        return left;
    };
    tell(chain, left - 1, row);
    chain_from_input(rows, chain, row, other, left - 1)
}

// The chain from the input module of the row `from`, in the same way, with the sides exchanged.
#[cycle(chain_from_input_chain_from_output)]
fn chain_from_input(
    rows: &mut [u8],
    chain: &mut [u16; CHAIN],
    from: usize,
    central: u8,
    left: usize,
) -> usize
    requires { Mendable false rows.old from central left }
    ensures { Mended false rows.old rows.new chain.old chain.new from central left result }
{
    let found = row_on(rows, from, central, Side::Input);
    let other = change(rows, from, central);
    let Some(row) = found else {
        return left;
    };
    tell(chain, left - 1, row);
    chain_from_output(rows, chain, row, other, left - 1)
}

// A row takes a central; told back is the one that it had.
fn change(rows: &mut [u8], row: usize, central: u8) -> u8
    requires { 3 * row + 3 ≤ length rows.old }
    ensures { (rows.new ≡ set rows.old (3 * row + 1) central) × (result ≡ at (centrals_of rows.old) row) }
{
    let other = central_at(rows, row);
    rows[3 * row + 1] = central;
    other
}

// A row is told at a place of `chain`.
fn tell(chain: &mut [u16; CHAIN], place: usize, row: usize)
    requires { (place < chain_places) × (row < most_calls) }
    ensures { chain.new ≡ set chain.old place row }
{
    chain[place] = row as u16;
}

// The call that stands on a central at the module of the row `from` of one side, among the rows before the last.
fn row_on(rows: &[u8], from: usize, central: u8, side: Side) -> Option<usize>
    requires { 3 * from + 3 ≤ length rows.now }
    ensures { row_on (module_in rows.now (is_output side)) (at (centrals_of rows.now)) (length rows.now / 3 - 1) (module_in rows.now (is_output side) from) central ≡ found_by result }
{
    let module = module_at(rows, from, side);
    let last = rows.len() / 3 - 1;
    (0..last).find(|row| module_at(rows, *row, side) == module && central_at(rows, *row) == central)
}

// The module of a row on one side.
fn module_at(rows: &[u8], row: usize, side: Side) -> u8
    requires { 3 * row + 3 ≤ length rows.now }
    ensures { result ≡ module_in rows.now (is_output side) row }
{
    match side {
        Side::Input => rows[3 * row],
        Side::Output => rows[3 * row + 2],
    }
}

// The number of a row's module of one side among those of both: the input modules first, then the output modules.
fn module_number(rows: &[u8], row: usize, side: Side) -> usize
    requires { (3 * row + 3 ≤ length rows.now) × (module_in rows.now (is_output side) row < most_modules) }
    ensures { (result ≡ module_number (is_output side) (module_in rows.now (is_output side) row)) × (result < RECORD) }
{
    let module = usize::from(module_at(rows, row, side));
    match side {
        Side::Input => module,
        Side::Output => Network::MOST_MODULES + module,
    }
}

// The central of a row.
fn central_at(rows: &[u8], row: usize) -> u8
    requires { 3 * row + 3 ≤ length rows.now }
    ensures { result ≡ at (centrals_of rows.now) row }
{
    rows[3 * row + 1]
}

// The record of use: which centrals are in use at each module of both sides, by the module's number among those of both.
#[derive(Clone, Copy)]
pub struct Record {
    pub words: [u32; RECORD],
}

impl Record {
    // The record of no calls.
    pub fn new() -> Record
        ensures { result.words ≡ nothing_used }
    {
        Record { words: [0; RECORD] }
    }

    // Makes the record of no calls that of the first `count` rows, for any colouring of them. It is lent, since a record that is given back by
    // value is copied. The rows are gone through by number, by which the record of so many rows is promised.
    pub fn record_rows(&mut self, rows: &[u8], count: usize)
        requires { (self.old.words ≡ nothing_used) × Recordable rows.now count }
        ensures { Recorded (module_in rows.now) (at (centrals_of rows.now)) count self.new.words }
    {
        for row in 0..count {
            self.record_row(rows, row);
        }
    }

    // The record of one row more: its central is taken at both its modules.
    fn record_row(&mut self, rows: &[u8], row: usize)
        requires { Recordable rows.now (row + 1) × Recorded (module_in rows.now) (at (centrals_of rows.now)) row self.old.words }
        ensures { Recorded (module_in rows.now) (at (centrals_of rows.now)) (row + 1) self.new.words }
    {
        let central = usize::from(central_at(rows, row));
        self.take(module_number(rows, row, Side::Input), central);
        self.take(module_number(rows, row, Side::Output), central);
    }

    // The first of the shelf's own centrals that is free at both modules. The limits of the network are asked for in words, as `place` asks for them. It is the lowest bit of the free word, which has a bit set for
    // each central that is in use at neither.
    fn first_common(&self, net: Network, p: usize, q: usize) -> Option<usize>
        requires { (p < RECORD) × (q < RECORD) × T (within_limits net) }
        ensures { first_of (order net) (both_free self.now.words p q) ≡ found_by result }
    {
        let free = ground::neither(self.words[p], self.words[q]);
        let central = ground::lowest_bit(free);
        if central < net.m { Some(central) } else { None }
    }

    // A central is taken at a module.
    fn take(&mut self, module: usize, central: usize)
        requires { («module» < RECORD) × (central < most_centrals) }
        ensures { self.new.words ≡ taking self.old.words «module» central }
    {
        self.put(module, central, true);
    }

    // Two centrals change places in what is recorded of a module: the one that was in use is free, and the other is in use.
    fn swap(&mut self, module: usize, a: usize, b: usize)
        requires { («module» < RECORD) × (a < most_centrals) × (b < most_centrals) }
        ensures { self.new.words ≡ swapping self.old.words «module» a b }
    {
        let word = self.words[module];
        self.put(module, a, ground::has_bit(word, b));
        self.put(module, b, ground::has_bit(word, a));
    }

    // It is recorded whether a central is in use at a module.
    fn put(&mut self, module: usize, central: usize, in_use: bool)
        requires { («module» < RECORD) × (central < most_centrals) }
        ensures { self.new.words ≡ put_at self.old.words «module» central in_use }
    {
        self.words[module] = ground::put_bit(self.words[module], central, in_use);
    }
}
