// Drawn numbers: each key has one for each purpose.
ghost use Rattle.std.specs.Prelude.{◌≡◌, ◌<◌};
ghost use Rattle.book_trials.specs.Keys.{prime, key_of, at_part, blended, stirred, drawn};

/// A part of an alternative; `as` gives each its number, from 0.
#[derive(Clone, Copy)]
pub(crate) enum Part {
    Whole,
    First,
    Second,
}

/// What a number is drawn for; `as` gives each its number, from 0.
#[derive(Clone, Copy)]
pub(crate) enum Purpose {
    Alternatives,
    Form,
    Terms,
    Unknown,
    Partner,
    Value,
    Weight,
}

/// A place in a drawn book: an alternative, or a part of it.
#[derive(Clone, Copy)]
pub(crate) struct Key {
    pub(crate) seed: u32,
    pub(crate) unknown: u32,
    pub(crate) number: u32,
    pub(crate) part: Part,
}

// Drawn numbers lie below this prime.
const PRIME: u64 = 2147483647;

// A number turned into another that looks unlike it.
#[tactic(auto, unfolding(crate::specs::Keys::stirred))]
fn stir(number: u64) -> u64
    requires { number < prime }
    ensures value { result ≡ stirred number }
    ensures bound { result < prime }
{
    (number * number + 1013904223) % PRIME
}

impl Key {
    /// The key of an alternative.
    pub(crate) fn new(seed: u32, unknown: u32, number: u32) -> Key
        ensures { result ≡ key_of seed unknown number }
    {
        Key {
            seed,
            unknown,
            number,
            part: Part::Whole,
        }
    }

    /// The key of a part of the same alternative.
    pub(crate) fn at(self, part: Part) -> Key
        ensures { result ≡ at_part part self }
    {
        Key { part, ..self }
    }

    // The key and a purpose as one number.
    #[tactic(auto, unfolding(crate::specs::Keys::blended))]
    fn blend(self, purpose: Purpose) -> u64
        ensures value { result ≡ blended self purpose }
        ensures bound { result < prime }
    {
        let place = u64::from(self.seed) * 7919
            + u64::from(self.unknown) * 104729
            + u64::from(self.number) * 1299709;
        let codes = self.part as u64 * 15485863 + purpose as u64 * 32452843;
        (place + codes) % PRIME
    }

    /// The number that is drawn for a purpose.
    #[tactic(auto, unfolding(crate::specs::Keys::drawn))]
    pub(crate) fn draw(self, purpose: Purpose) -> u64
        ensures { result ≡ drawn self purpose }
    {
        stir(stir(self.blend(purpose)))
    }
}
