// Why an input is refused: a case for each refusal of the scope of work and its requests. A refusal that is sought row by row holds
// its row. What number and row a case tells is a definition (specs/Refusal.antt).

ghost use Rattle.std.specs.Prelude.{◌≡◌};
ghost use Rattle.calls.specs.Refusal.{number_of, row_of};

#[derive(Clone, Copy, Debug, PartialEq, Eq)]
pub enum Refusal {
    // 1: a size of the network, or its cycle, is outside its limits.
    Sizes,
    // 2: the calls are not whole rows, or the settings not a row for each call.
    Lengths,
    // 3: there are too many calls.
    TooManyCalls,
    // 4: a buffer has no room for what is to be written.
    NoRoom,
    // 5: a call has a module or a channel that the network does not have.
    Outside(usize),
    // 6 and 7: an earlier row uses the inlet, or the outlet.
    InletTwice(usize),
    OutletTwice(usize),
    // 8: with this row a module has more calls than there are centrals.
    Overfull(usize),
    // 9: the shelf has no such wavelength or central.
    NotOwned(usize),
    // 10 and 11: the light does not reach the central, or not the output module.
    WrongCentral(usize),
    WrongOutput(usize),
    // 12 and 13: an earlier row uses the pair of input module and central, or of central and output module.
    InputPairTwice(usize),
    OutputPairTwice(usize),
    // 14: the file has no trailer of a kind that is taken.
    NoTrailer,
    // 15: the distances are not as stated, or the note that they leave is too long.
    Distances,
    // 16: the note to be written is too long.
    LongNote,
    // 17: there is no such row.
    NoSuchRow,
    // 18: the file has no place for the network's cycle.
    UntoldCycle,
}

impl Refusal {
    // The number by which the refusal is told.
    pub fn number(self) -> usize
        ensures { result ≡ number_of self }
    {
        match self {
            Refusal::Sizes => 1,
            Refusal::Lengths => 2,
            Refusal::TooManyCalls => 3,
            Refusal::NoRoom => 4,
            Refusal::Outside(_) => 5,
            Refusal::InletTwice(_) => 6,
            Refusal::OutletTwice(_) => 7,
            Refusal::Overfull(_) => 8,
            Refusal::NotOwned(_) => 9,
            Refusal::WrongCentral(_) => 10,
            Refusal::WrongOutput(_) => 11,
            Refusal::InputPairTwice(_) => 12,
            Refusal::OutputPairTwice(_) => 13,
            Refusal::NoTrailer => 14,
            Refusal::Distances => 15,
            Refusal::LongNote => 16,
            Refusal::NoSuchRow => 17,
            Refusal::UntoldCycle => 18,
        }
    }

    // The row that is told with it: the one that is refused, or 0.
    pub fn row(self) -> usize
        ensures { result ≡ row_of self }
    {
        match self {
            Refusal::Outside(row)
            | Refusal::InletTwice(row)
            | Refusal::OutletTwice(row)
            | Refusal::Overfull(row)
            | Refusal::NotOwned(row)
            | Refusal::WrongCentral(row)
            | Refusal::WrongOutput(row)
            | Refusal::InputPairTwice(row)
            | Refusal::OutputPairTwice(row) => row,
            _ => 0,
        }
    }
}
