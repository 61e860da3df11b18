ghost use Rattle.std.specs.Prelude.{◌≡◌};

/// The numbers that an option may have.
#[derive(Clone, Copy, PartialEq, Eq, Debug)]
pub struct Rule {
    pub least: u64,
    pub most: u64,
    /// The number of which each is a multiple.
    pub unit: u64,
    /// The number where the option is not given.
    pub default: u64,
}

impl Rule {
    /// The rule of an option whose numbers have 32 bits.
    pub fn short(least: u32, most: u32, unit: u32, default: u32) -> Rule
        ensures { result ≡ record { least = least; most = most; unit = unit; default = default } }
    {
        Rule {
            least: u64::from(least),
            most: u64::from(most),
            unit: u64::from(unit),
            default: u64::from(default),
        }
    }
}
