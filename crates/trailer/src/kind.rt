// The kinds of plan file, for those who choose one. What a kind is, are two facts: whether its files hold settings, and whether their
// trailer holds the cycle. Of a file that is read the kind is a number: readers are promised for any
// `Kinds`, and a trailer can tell any byte.

ghost use Rattle.std.specs.Prelude.{◌≡◌};
ghost use Rattle.trailer.specs.File.{kind_number, kind_with, has_settings, has_cycle, Decodes};

// The four kinds of file.
#[derive(Clone, Copy, Debug, PartialEq, Eq)]
pub enum Kind {
    CallsOnly,
    Planned,
    CallsWithCycle,
    PlannedWithCycle,
}

// A number that tells no kind.
#[derive(Clone, Copy, Debug, PartialEq, Eq)]
pub struct UnknownKind(pub usize);

impl TryFrom<usize> for Kind {
    type Error = UnknownKind;

    ghost try_from_gives = { Decodes };

    #[tactic(auto, using(crate::proofs::KindLaws::not_a_kind), unfolding(crate::specs::File::calls_only, crate::specs::File::planned, crate::specs::File::calls_with_cycle, crate::specs::File::planned_with_cycle))]
    fn try_from(number: usize) -> Result<Kind, UnknownKind> {
        match number {
            1 => Ok(Kind::CallsOnly),
            2 => Ok(Kind::Planned),
            3 => Ok(Kind::CallsWithCycle),
            4 => Ok(Kind::PlannedWithCycle),
            _ => Err(UnknownKind(number)),
        }
    }
}

impl Kind {
    // The kind of files that hold settings or not, and the cycle or not.
    #[tactic(auto, unfolding(crate::specs::File::kind_with))]
    pub fn with(settings: bool, cycle: bool) -> Kind
        ensures { kind_number result ≡ kind_with settings cycle }
    {
        match (settings, cycle) {
            (false, false) => Kind::CallsOnly,
            (true, false) => Kind::Planned,
            (false, true) => Kind::CallsWithCycle,
            (true, true) => Kind::PlannedWithCycle,
        }
    }

    // The number by which a trailer tells the kind.
    #[tactic(auto, unfolding(crate::specs::File::calls_only, crate::specs::File::planned, crate::specs::File::calls_with_cycle, crate::specs::File::planned_with_cycle))]
    pub fn number(self) -> usize
        ensures { result ≡ kind_number self }
    {
        match self {
            Kind::CallsOnly => 1,
            Kind::Planned => 2,
            Kind::CallsWithCycle => 3,
            Kind::PlannedWithCycle => 4,
        }
    }

    // Whether files of this kind hold settings.
    #[tactic(auto, unfolding(ground::specs::Truth::any, crate::specs::File::calls_only, crate::specs::File::planned, crate::specs::File::calls_with_cycle, crate::specs::File::planned_with_cycle, crate::specs::File::has_settings))]
    pub fn has_settings(self) -> bool
        ensures { result ≡ has_settings (kind_number self) }
    {
        matches!(self, Kind::Planned | Kind::PlannedWithCycle)
    }

    // Whether the trailer of a file of this kind holds the cycle.
    #[tactic(auto, unfolding(ground::specs::Truth::any, crate::specs::File::calls_only, crate::specs::File::planned, crate::specs::File::calls_with_cycle, crate::specs::File::planned_with_cycle, crate::specs::File::has_cycle))]
    pub fn has_cycle(self) -> bool
        ensures { result ≡ has_cycle (kind_number self) }
    {
        matches!(self, Kind::CallsWithCycle | Kind::PlannedWithCycle)
    }
}
