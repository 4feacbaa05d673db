//! Timeslots at a glance.
ghost use Rattle.std.specs.Prelude.{◌≡◌, codes};
ghost use Rattle.expectations.specs.Slots.{symbol_of};

/// What a channel is used for.
#[derive(Clone, Copy, Debug, PartialEq, Eq)]
pub(crate) enum Use {
    /// Nothing: it is free.
    Free,
    /// A call: it is on.
    On,
    /// It is in another state.
    Other,
}

/// The three channels of a timeslot: the whole, and its halves.
#[derive(Clone, Copy, Debug, PartialEq, Eq)]
pub(crate) struct Slot {
    pub full: Use,
    pub half0: Use,
    pub half1: Use,
}

impl Slot {
    /// All of them free.
    pub(crate) const FREE: Slot = Slot {
        full: Use::Free,
        half0: Use::Free,
        half1: Use::Free,
    };

    /// The symbol of a timeslot: `-` where it is free, `F`, `H-`, `-H` or `HH` where these are on and nothing else is in
    /// use, `!` otherwise.
    pub(crate) fn symbol(self) -> &'static str
        ensures { result.now ≡ symbol_of self.full self.half0 self.half1 }
    {
        match (self.full, self.half0, self.half1) {
            (Use::Free, Use::Free, Use::Free) => "-",
            (Use::On, Use::Free, Use::Free) => "F",
            (Use::Free, Use::On, Use::Free) => "H-",
            (Use::Free, Use::Free, Use::On) => "-H",
            (Use::Free, Use::On, Use::On) => "HH",
            _ => "!",
        }
    }
}
