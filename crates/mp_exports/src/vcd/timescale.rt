//! How long a unit of time is in a dump.

/// How many of a unit of IEEE Std 1364.
#[derive(Clone, Copy)]
pub enum TimeNumber {
    One,
    Ten,
    Hundred,
}

/// A unit of IEEE Std 1364.
#[derive(Clone, Copy)]
pub enum TimeUnit {
    Seconds,
    Milliseconds,
    Microseconds,
    Nanoseconds,
    Picoseconds,
    Femtoseconds,
}

/// How long a unit of time is in a dump: one of the 18 lengths that IEEE Std 1364 allows in `$timescale`.
#[derive(Clone, Copy)]
pub struct Timescale {
    pub number: TimeNumber,
    pub unit: TimeUnit,
}

impl Timescale {
    ghost use Rattle.std.specs.Prelude.{◌≡◌, MatchOption};
    ghost use Rattle.mp_exports.specs.vcd.Timescales.{IsNoTimescale, nanosecond, timescale_word};

    /// 1 ns, the length if nothing else is asked for.
    pub fn nanosecond() -> Timescale
        ensures { result ≡ nanosecond }
    {
        Timescale {
            number: TimeNumber::One,
            unit: TimeUnit::Nanoseconds,
        }
    }

    /// The timescale of a word: 1, 10 or 100, and behind it `s`, `ms`, `us`, `ns`, `ps` or `fs`, as `10ps`. `None` for any other word.
    pub fn of_word(word: &str) -> Option<Timescale>
        ensures { MatchOption result (IsNoTimescale word.now) (λ scale. timescale_word scale ≡ word.now) }
    {
        TimeNumber::One
            .timescale(word)
            .or(TimeNumber::Ten.timescale(word))
            .or(TimeNumber::Hundred.timescale(word))
    }
}

impl TimeNumber {
    ghost use Rattle.std.specs.Prelude.{◌≡◌, MatchOption};
    ghost use Rattle.mp_exports.specs.vcd.Timescales.{IsNotNumbered, number_word, timescale_word};

    /// Its digits.
    pub(crate) fn word(self) -> &'static str
        ensures { result.now ≡ number_word self }
    {
        match self {
            TimeNumber::One => "1",
            TimeNumber::Ten => "10",
            TimeNumber::Hundred => "100",
        }
    }

    /// The timescale of a word that has this number before a unit.
    fn timescale(self, word: &str) -> Option<Timescale>
        ensures { MatchOption result (IsNotNumbered self word.now) (λ scale. timescale_word scale ≡ word.now) }
    {
        let unit = TimeUnit::of_word(word.strip_prefix(self.word())?)?;
        Some(Timescale { number: self, unit })
    }
}

impl TimeUnit {
    ghost use Rattle.std.specs.Prelude.{◌≡◌, MatchOption};
    ghost use Rattle.mp_exports.specs.vcd.Timescales.{IsNoUnit, unit_word};

    /// Its abbreviation.
    pub(crate) fn word(self) -> &'static str
        ensures { result.now ≡ unit_word self }
    {
        match self {
            TimeUnit::Seconds => "s",
            TimeUnit::Milliseconds => "ms",
            TimeUnit::Microseconds => "us",
            TimeUnit::Nanoseconds => "ns",
            TimeUnit::Picoseconds => "ps",
            TimeUnit::Femtoseconds => "fs",
        }
    }

    /// The unit of this abbreviation.
    fn of_word(word: &str) -> Option<TimeUnit>
        ensures { MatchOption result (IsNoUnit word.now) (λ unit. unit_word unit ≡ word.now) }
    {
        Some(match word {
            "s" => TimeUnit::Seconds,
            "ms" => TimeUnit::Milliseconds,
            "us" => TimeUnit::Microseconds,
            "ns" => TimeUnit::Nanoseconds,
            "ps" => TimeUnit::Picoseconds,
            "fs" => TimeUnit::Femtoseconds,
            _ => return None,
        })
    }
}
