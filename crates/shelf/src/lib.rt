// The shelf: the network's own record with its limits, and the rows of a call table and of settings out of bytes.
// How light travels through a shelf, and which settings are lawful, are definitions in specs/Light.antt.
#![tactic(auto)]

ghost use Rattle.std.specs.Prelude.{◌≡◌, ◌+◌, ◌*◌, ◌≤◌, length};
ghost use Rattle.shelf.specs.Network.{Limits, most_wavelengths, within, cycle, cycle_within, within_limits, least_cycle, of_sizes, has_least_cycle, Built};
ghost use Rattle.shelf.specs.Order.{order};
ghost use Rattle.shelf.specs.Rows.{CallRead, SettingsRead};

// A network: n channels of each module, m central modules, r input modules and as many output modules, and w, the cycle of
// both gratings. The numbers in a record may be any numbers: who is lent one asks `within_limits`. Programs in C share this
// record.
#[repr(C)]
#[derive(Clone, Copy)]
pub struct Network {
    pub n: usize,
    pub m: usize,
    pub r: usize,
    pub w: usize,
}

impl Network {
    pub const MOST_CHANNELS: usize = 16;

    pub const MOST_CENTRALS: usize = 32;

    pub const MOST_MODULES: usize = 64;

    pub const MOST_CALLS: usize = 1024;

    pub const MOST_WAVELENGTHS: usize = 64;

    // The network of these sizes whose cycle is the larger of r and m; none, which is refusal 1, where one of them is outside its limits.
    #[tactic(auto, unfolding(crate::specs::Network::most_channels, crate::specs::Network::most_centrals, crate::specs::Network::most_modules, crate::specs::Network::most_calls))]
    pub fn new(n: usize, m: usize, r: usize) -> Option<Network>
        ensures answer { Built (of_sizes n m r) result }
        ensures limits { Limits Network.MOST_CHANNELS Network.MOST_CENTRALS Network.MOST_MODULES Network.MOST_CALLS }
    {
        Network::of_sizes(n, m, r).tested()
    }

    // The network of these sizes and this cycle; none where one of them is outside its limits.
    #[tactic(auto, unfolding(crate::specs::Network::most_wavelengths))]
    pub fn with_cycle(n: usize, m: usize, r: usize, w: usize) -> Option<Network>
        ensures answer { Built (record { n = n; m = m; r = r; w = w }) result }
        ensures limit { Network.MOST_WAVELENGTHS ≡ most_wavelengths }
    {
        Network { n, m, r, w }.tested()
    }

    // The record of these sizes whose cycle is the larger of r and m: that of a table with no cycle told. It is not tested.
    #[tactic(auto, unfolding(crate::specs::Network::of_sizes))]
    pub fn of_sizes(n: usize, m: usize, r: usize) -> Network
        ensures { result ≡ of_sizes n m r }
    {
        Network {
            n,
            m,
            r,
            w: least_cycle(m, r),
        }
    }

    // The constructors' answer: this network, or none.
    #[tactic(auto, unfolding(crate::specs::Network::sized))]
    fn tested(self) -> Option<Network>
        ensures { Built self result }
    {
        Some(self).filter(|net| net.within_limits())
    }

    // Whether n, m, r and the cycle are within their limits.
    #[tactic(auto, unfolding(ground::specs::Truth::all, crate::specs::Network::within_limits, crate::specs::Network::most_channels, crate::specs::Network::most_centrals, crate::specs::Network::most_modules))]
    pub fn within_limits(self) -> bool
        ensures { result ≡ within_limits self }
    {
        in_range(self.n, Network::MOST_CHANNELS)
            && in_range(self.m, Network::MOST_CENTRALS)
            && in_range(self.r, Network::MOST_MODULES)
            && self.cycle_within()
    }

    // Whether the cycle has a port for each module and each central, and is at most its limit.
    #[tactic(auto, unfolding(ground::specs::Truth::all, crate::specs::Network::cycle, crate::specs::Network::cycle_within, crate::specs::Network::most_wavelengths))]
    fn cycle_within(self) -> bool
        ensures { result ≡ cycle_within self }
    {
        self.r <= self.w && self.m <= self.w && self.w <= Network::MOST_WAVELENGTHS
    }

    // The cycle of both gratings: how many wavelengths there are inside the shelf.
    #[tactic(auto, unfolding(crate::specs::Network::cycle))]
    pub fn cycle(self) -> usize
        ensures { result ≡ cycle self }
    {
        self.w
    }

    // Whether the cycle is the larger of r and m.
    #[tactic(auto, unfolding(crate::specs::Network::cycle, crate::specs::Network::has_least_cycle))]
    pub fn has_least_cycle(self) -> bool
        ensures { result ≡ has_least_cycle self }
    {
        least_cycle(self.m, self.r) == self.w
    }

    // How many centrals the shelf has to choose from.
    #[tactic(auto, using(crate::specs::OrderLaws::order_length))]
    pub fn centrals(self) -> usize
        ensures { result ≡ length (order self) }
    {
        self.m
    }
}

// Whether `size` is at least 1 and at most `most`.
#[tactic(auto, unfolding(crate::specs::Network::within))]
fn in_range(size: usize, most: usize) -> bool
    ensures { result ≡ within size most }
{
    (1..=most).contains(&size)
}

// The larger of r and m: the least cycle that has a port for each module and each central.
#[tactic(auto, unfolding(crate::specs::Network::least_cycle))]
fn least_cycle(m: usize, r: usize) -> usize
    ensures { result ≡ least_cycle m r }
{
    r.max(m)
}

// A side of the shelf: that of the input modules, or that of the output modules.
#[derive(Clone, Copy, Debug, PartialEq, Eq)]
pub enum Side {
    Input,
    Output,
}

// A call row: the inlet and the outlet of one call.
#[derive(Clone, Copy)]
pub struct CallRow {
    pub input_module: usize,
    pub input_channel: usize,
    pub output_module: usize,
    pub output_channel: usize,
}

impl CallRow {
    // The call row that stands at `row` in the table.
    pub fn at(calls: &[u8], row: usize) -> CallRow
        requires { 4 * row + 4 ≤ length calls.now }
        ensures { CallRead calls.now row result }
    {
        let (rows, _) = calls.as_chunks::<4>();
        let [input_module, input_channel, output_module, output_channel] = &rows[row];
        CallRow {
            input_module: usize::from(*input_module),
            input_channel: usize::from(*input_channel),
            output_module: usize::from(*output_module),
            output_channel: usize::from(*output_channel),
        }
    }
}

// A settings row: the wavelength to the central module, the central module, the wavelength from it.
#[derive(Clone, Copy)]
pub struct SettingsRow {
    pub to_central: usize,
    pub central: usize,
    pub from_central: usize,
}

impl SettingsRow {
    // The settings row that stands at `row` in the settings.
    pub fn at(settings: &[u8], row: usize) -> SettingsRow
        requires { 3 * row + 3 ≤ length settings.now }
        ensures { SettingsRead settings.now row result }
    {
        let (rows, _) = settings.as_chunks::<3>();
        let [to_central, central, from_central] = &rows[row];
        SettingsRow {
            to_central: usize::from(*to_central),
            central: usize::from(*central),
            from_central: usize::from(*from_central),
        }
    }
}
