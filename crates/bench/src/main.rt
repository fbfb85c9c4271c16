// The bench table of the scope of work, answered by the compiled entries. What the table says is a definition (specs/Bench.antt), proved of
// the written rules by one statement over its list; the table below is proved to be that list, and each of its parts is given to the compiled
// entry and compared with it.
#![tactic(auto)]

ghost use Rattle.std.specs.Prelude.{◌≡◌, map};
ghost use Rattle.bench.specs.Bench.{bench_table};
ghost use Rattle.bench.specs.Program.{part_of};

use calls::Refusal;
use planner::Plan;
use shelf::Network;
use std::io::{self, Write};

// The parts of the bench table, and the bytes of the buffer that rooms are lent from.
const PARTS: usize = 19;

const MOST_ROOM: usize = 16;

// What each byte of that buffer is before: no settings of the table have such a byte.
const BLANK: u8 = 9;

// Who answers a part, what is given to it beside network and calls, and what comes back.
#[derive(Clone, Copy)]
pub enum Entry {
    // The planner is lent so many bytes of room, and writes to the front of it: nothing where it refuses.
    Planner {
        room: usize,
        answer: Result<Plan, Refusal>,
        written: &'static [u8],
    },
    // Acceptance is given settings. It is lent nothing that it could write.
    Acceptance {
        settings: &'static [u8],
        answer: Result<usize, Refusal>,
    },
}

// A part of a case.
#[derive(Clone, Copy)]
pub struct Part {
    pub case: usize,
    pub n: usize,
    pub m: usize,
    pub r: usize,
    pub calls: &'static [u8],
    pub entry: Entry,
}

impl Part {
    // Whether the compiled entry answers as it is written.
    fn is_answered(self) -> bool {
        match self.entry {
            Entry::Planner {
                room,
                answer,
                written,
            } => self.is_planned(room, answer, written),
            Entry::Acceptance { settings, answer } => self.is_accepted(settings, answer),
        }
    }

    // Whether the planner, lent so much room, answers this and leaves every byte of the buffer as it is written: those of the room, of a
    // refusal too, and those beyond what is lent. A part with more room than the buffer has is not answered.
    fn is_planned(self, room: usize, answer: Result<Plan, Refusal>, written: &[u8]) -> bool {
        let mut buffer = [BLANK; MOST_ROOM];
        let Some(lent) = buffer.get_mut(..room) else {
            return false;
        };
        planner::plan(self.network(), self.calls, lent) == answer && is_written(&buffer, written)
    }

    // Whether acceptance, given these settings, answers this.
    fn is_accepted(self, settings: &[u8], answer: Result<usize, Refusal>) -> bool {
        acceptance::accept(self.network(), self.calls, settings) == answer
    }

    // The network of a part, whose cycle is the larger of r and m.
    fn network(self) -> Network {
        Network::of_sizes(self.n, self.m, self.r)
    }
}

// Whether these bytes stand at the front of a buffer, and those beyond are as they were.
fn is_written(buffer: &[u8], written: &[u8]) -> bool {
    buffer
        .strip_prefix(written)
        .is_some_and(|beyond| beyond.iter().all(|byte| *byte == BLANK))
}

// The table as this program has it: what `bench_table` hands out.
#[rattlefmt::skip]
const TABLE: [Part; PARTS] = [
    Part {
        case: 1, n: 1, m: 1, r: 1, calls: &[],
        entry: Entry::Planner { room: 0, answer: Ok(Plan { count: 0, moved: 0 }), written: &[] },
    },
    Part {
        case: 2, n: 1, m: 1, r: 1, calls: &[0, 0, 0, 0],
        entry: Entry::Planner { room: 3, answer: Ok(Plan { count: 1, moved: 0 }), written: &[0, 0, 0] },
    },
    Part {
        case: 3, n: 2, m: 2, r: 2, calls: &[0, 0, 0, 0, 1, 0, 1, 0, 1, 1, 0, 1, 0, 1, 1, 1],
        entry: Entry::Planner { room: 16, answer: Ok(Plan { count: 4, moved: 0 }), written: &[0, 0, 0, 1, 0, 1, 0, 1, 1, 1, 1, 0] },
    },
    Part {
        case: 4, n: 2, m: 2, r: 3, calls: &[0, 0, 0, 0, 0, 1, 1, 0, 1, 0, 2, 0, 1, 1, 1, 1],
        entry: Entry::Planner { room: 12, answer: Ok(Plan { count: 4, moved: 2 }), written: &[1, 1, 1, 0, 0, 1, 1, 0, 2, 2, 1, 2] },
    },
    Part {
        case: 5, n: 2, m: 1, r: 1, calls: &[0, 0, 0, 0, 0, 1, 0, 1],
        entry: Entry::Planner { room: 6, answer: Err(Refusal::Overfull(1)), written: &[] },
    },
    Part {
        case: 5, n: 2, m: 2, r: 1, calls: &[0, 0, 0, 0, 0, 1, 0, 1],
        entry: Entry::Planner { room: 6, answer: Ok(Plan { count: 2, moved: 0 }), written: &[0, 0, 0, 1, 1, 1] },
    },
    Part {
        case: 6, n: 2, m: 2, r: 1, calls: &[0, 0, 0, 0, 0, 0, 0, 1],
        entry: Entry::Planner { room: 6, answer: Err(Refusal::InletTwice(1)), written: &[] },
    },
    Part {
        case: 7, n: 2, m: 2, r: 1, calls: &[0, 0, 0, 0, 0, 1, 0, 0],
        entry: Entry::Planner { room: 6, answer: Err(Refusal::OutletTwice(1)), written: &[] },
    },
    Part {
        case: 8, n: 1, m: 1, r: 1, calls: &[1, 0, 0, 0],
        entry: Entry::Planner { room: 3, answer: Err(Refusal::Outside(0)), written: &[] },
    },
    Part {
        case: 9, n: 2, m: 2, r: 2, calls: &[0, 0, 1, 0],
        entry: Entry::Acceptance { settings: &[1, 1, 0], answer: Ok(1) },
    },
    Part {
        case: 9, n: 2, m: 2, r: 2, calls: &[0, 0, 1, 0],
        entry: Entry::Acceptance { settings: &[2, 1, 0], answer: Err(Refusal::NotOwned(0)) },
    },
    Part {
        case: 9, n: 2, m: 2, r: 2, calls: &[0, 0, 1, 0],
        entry: Entry::Acceptance { settings: &[1, 0, 0], answer: Err(Refusal::WrongCentral(0)) },
    },
    Part {
        case: 9, n: 2, m: 2, r: 2, calls: &[0, 0, 1, 0],
        entry: Entry::Acceptance { settings: &[1, 1, 1], answer: Err(Refusal::WrongOutput(0)) },
    },
    Part {
        case: 10, n: 2, m: 2, r: 2, calls: &[0, 0, 0, 0, 0, 1, 1, 0],
        entry: Entry::Acceptance { settings: &[0, 0, 0, 0, 0, 1], answer: Err(Refusal::InputPairTwice(1)) },
    },
    Part {
        case: 11, n: 2, m: 2, r: 2, calls: &[0, 0, 0, 0, 1, 0, 0, 1],
        entry: Entry::Acceptance { settings: &[0, 0, 0, 1, 0, 0], answer: Err(Refusal::OutputPairTwice(1)) },
    },
    Part {
        case: 12, n: 1, m: 32, r: 1, calls: &[],
        entry: Entry::Planner { room: 0, answer: Ok(Plan { count: 0, moved: 0 }), written: &[] },
    },
    Part {
        case: 12, n: 1, m: 33, r: 1, calls: &[],
        entry: Entry::Planner { room: 0, answer: Err(Refusal::Sizes), written: &[] },
    },
    Part {
        case: 12, n: 2, m: 2, r: 2, calls: &[0, 0, 0, 0, 1, 0, 1, 0, 1, 1, 0, 1, 0, 1, 1, 1],
        entry: Entry::Planner { room: 12, answer: Ok(Plan { count: 4, moved: 0 }), written: &[0, 0, 0, 1, 0, 1, 0, 1, 1, 1, 1, 0] },
    },
    Part {
        case: 12, n: 2, m: 2, r: 2, calls: &[0, 0, 0, 0, 1, 0, 1, 0, 1, 1, 0, 1, 0, 1, 1, 1],
        entry: Entry::Planner { room: 11, answer: Err(Refusal::NoRoom), written: &[] },
    },
];

fn main(rt: HostRuntime) -> io::Result<()> {
    let mut out = rt.stdout();
    for part in bench_table() {
        show(&mut out, part)?;
    }
    Ok(())
}

// The bench table.
fn bench_table() -> [Part; PARTS]
    ensures { map part_of result ≡ bench_table }
{
    TABLE
}

// Prints the number of a part's case, and whether the compiled entry answers as it is written.
fn show<W: Write>(out: &mut W, part: Part) -> io::Result<()> {
    let case = part.case;
    if part.is_answered() {
        writeln!(out, "case {case} as written")
    } else {
        writeln!(out, "case {case} NOT as written")
    }
}
