//! Numbers by chance. Throws follow each other by xorshift on 64 bits; a throw yields as many
//! numbers as one record takes, each for a purpose of its own.
ghost use Rattle.std.specs.Prelude.{◌-◌, ◌≤◌, ◌<◌, ◌^◌};

/// What a number of a throw is for, as it is mixed into the throw.
#[derive(Clone, Copy)]
pub(crate) enum Purpose {
    Temper = 1,
    NodesWanted = 2,
    Mark = 5,
    NodeOfSerial = 6,
    SerialKind = 7,
    Serial = 8,
    NodeOfTakenKey = 9,
    TakenKey = 10,
    Joiner = 11,
    StartOfWalk = 12,
    OddJoin = 13,
    OddRight = 14,
    PlaceKind = 15,
    Place = 16,
    Budget = 17,
    BudgetKind = 18,
    StartOfQuestion = 19,
    Node = 20,
    Welcome = 21,
    SerialFault = 22,
    SerialFaultKind = 23,
    FirstUndeclared = 24,
    Undeclared = 25,
    Declared = 26,
    SecondFault = 27,
    FaultyMark = 28,
    FaultyField = 29,
    NoMark = 30,
    EarlyDeclaration = 31,
    TightBudget = 33,
    Fault = 34,
    StartOfLastQuestion = 35,
    JoinByWalk = 36,
    AnyLeft = 37,
    AnyRight = 38,
    Length = 47,
}

// Each bit of the result depends on all bits of the number: sums with shifts of itself, which wrap,
// in turn with shifts to the right.
fn mixed(number: u64) -> u64 {
    let mut x = number.wrapping_add(number << 21);
    x ^= x >> 24;
    x = x.wrapping_add(x << 8);
    x ^= x >> 14;
    x = x.wrapping_add(x << 4);
    x ^ (x >> 28)
}

#[derive(Clone, Copy)]
pub(crate) struct Throw(u64);

impl Throw {
    /// The throw that a script begins with.
    pub(crate) fn of_script(ordinal: u32) -> Throw {
        Throw(mixed(u64::from(ordinal % 65_536) * 173_961_102_589_770 + 1))
    }

    /// The throw that follows.
    pub(crate) fn following(self) -> Throw {
        let mut x = self.0;
        x ^= x << 13;
        x ^= x >> 7;
        x ^= x << 17;
        Throw(x)
    }

    /// Another throw, which depends on this one.
    pub(crate) fn again(self) -> Throw {
        Throw(mixed(self.0))
    }

    /// The number below a limit that the throw has for a purpose; 0 where there is none.
    pub(crate) fn below(self, purpose: Purpose, limit: u32) -> u32
        ensures { result ≤ limit - 1 }
    {
        let x = mixed(
            self.0
                .wrapping_add(purpose as u64 * 208_230_376_151_711_743),
        );
        (x >> 8).checked_rem(u64::from(limit)).unwrap_or(0) as u32
    }

    /// An element of a list.
    pub(crate) fn pick<T: Copy, const N: usize>(self, purpose: Purpose, list: [T; N]) -> T
        requires { (0 < N) × (N < 2 ^ 32) }
    {
        list[self.below(purpose, N as u32) as usize]
    }

    pub(crate) fn byte_below(self, purpose: Purpose, limit: u8) -> u8 {
        self.below(purpose, u32::from(limit)) as u8
    }

    /// Whether it comes to one case of so many.
    pub(crate) fn one_of(self, purpose: Purpose, cases: u32) -> bool {
        self.below(purpose, cases) == 0
    }

    pub(crate) fn is_multiple_of(self, number: u64) -> bool {
        self.0.is_multiple_of(number)
    }
}
