ghost use Rattle.std.specs.Option.{SomeIff};
ghost use Rattle.std.specs.Prelude.{◌≡◌, ◌↔◌, ◌+◌, ◌-◌, ◌*◌, ◌<◌, ◌≤◌, ℕ, length, min, slice_index, IfSome, IsUtf8};
ghost use Rattle.al_base.specs.Limits.{last_stamp};
ghost use Rattle.al_base.specs.Times.{day_after, digit as digit_of, stamp_text};

use jiff_core::civil::Date;
use std::marker::Model;

/// A moment in milliseconds since 1970-01-01T00:00:00Z, up to 9999-12-31T23:59:59.999Z.
#[derive(Clone, Copy, Debug, PartialEq, Eq, PartialOrd, Ord)]
pub struct Stamp {
    ms: u64,
}

impl Model for Stamp {
    ghost Value = { ℕ };

    ghost view = { λ s. s.ms };

    ghost invariant = { λ s. s.ms ≤ last_stamp };

    ghost inverse = { λ n. record { ms = n } };
}

impl Stamp {
    /// The moment that all stamps count from.
    pub const EPOCH: Stamp = Stamp { ms: 0 };

    /// The last moment that a stamp can tell.
    pub const LAST: Stamp = Stamp {
        ms: 253_402_300_799_999,
    };

    /// The stamp of so many milliseconds since 1970, None past the last one.
    pub fn of(ms: u64) -> Option<Stamp>
        ensures { SomeIff result (ms ≤ last_stamp) ms }
    {
        if ms <= Stamp::LAST.ms {
            Some(Stamp { ms })
        } else {
            None
        }
    }

    /// The milliseconds since 1970.
    pub fn ms(self) -> u64
        ensures value { result ≡ self }
        ensures bound { self ≤ last_stamp }
    {
        self.ms
    }

    #[tactic(auto, unfolding(crate::specs::Times::stamp_text))]
    /// Writes the stamp as text, as `2024-05-01T10:00:00.000Z`.
    pub fn print(&self, out: &mut [u8; 24])
        ensures text { out.new ≡ stamp_text self.now }
        ensures utf8 { IsUtf8 out.new }
    {
        let clock = self.ms % MS_PER_DAY;
        let (year, month, day) = date_of(self.ms / MS_PER_DAY);
        *out = [
            digit(year, 1000),
            digit(year, 100),
            digit(year, 10),
            digit(year, 1),
            b'-',
            digit(month, 10),
            digit(month, 1),
            b'-',
            digit(day, 10),
            digit(day, 1),
            b'T',
            digit(clock / 3_600_000, 10),
            digit(clock / 3_600_000, 1),
            b':',
            digit(clock / 60_000 % 60, 10),
            digit(clock / 60_000 % 60, 1),
            b':',
            digit(clock / 1000 % 60, 10),
            digit(clock / 1000 % 60, 1),
            b'.',
            digit(clock % 1000, 100),
            digit(clock % 1000, 10),
            digit(clock % 1000, 1),
            b'Z',
        ];
    }

    /// The stamp of a text that `print` writes, None of any other.
    pub fn read(bytes: &[u8]) -> Option<Stamp>
        ensures { (ms : ℕ) → (result ≡ Some ms)
            ↔ ((ms ≤ last_stamp) × (bytes.now ≡ stamp_text ms)) }
    {
        let stamp = of_digits(bytes)?;
        let mut text = [0; 24];
        stamp.print(&mut text);
        if bytes == text.as_slice() {
            Some(stamp)
        } else {
            None
        }
    }
}

const MS_PER_DAY: u64 = 86_400_000;

/// The year, the month and the day so many days after 1 January 1970.
fn date_of(day_number: u64) -> (u64, u64, u64)
    requires { day_number ≤ 2932896 }
    ensures year { result.0 ≡ (day_after day_number).year }
    ensures month { result.1 ≡ (day_after day_number).month }
    ensures day { result.2 ≡ (day_after day_number).day }
{
    let Ok(date) = Date::from_unix_epoch_day(day_number as i64) else {
        unreachable!();
    };
    (date.year as u64, u64::from(date.month), u64::from(date.day))
}

/// How many days after 1 January 1970 the calendar has this date, None of a date that it hasn't.
fn day_number(year: u64, month: u64, day: u64) -> Option<u64>
    requires year_high { year ≤ 9999 }
    requires month_high { month ≤ 99 }
    requires day_high { day ≤ 99 }
    ensures value { (n : ℕ) → n ≤ 2932896
        → day_after n ≡ record { year = year; month = month; day = day } → result ≡ Some n }
    ensures bound { IfSome result (λ n. n ≤ 2932896) }
{
    let date = Date::new(year as i16, month as i8, day as i8).ok()?;
    u64::try_from(date.to_unix_epoch_day()).ok()
}

/// The digit of a number that counts so many.
fn digit(number: u64, unit: u64) -> u8
    requires { 0 < unit }
    ensures { result ≡ digit_of number unit }
{
    b'0' + (number / unit % 10) as u8
}

/// The number that a digit stands for, and some number up to 9 for another byte.
fn value_at(bytes: &[u8], place: usize) -> u64
    requires { place < length bytes.now }
    ensures value { result ≡ min 9 (slice_index bytes.now place - 48) }
    ensures bound { result ≤ 9 }
{
    u64::from(bytes[place].saturating_sub(b'0')).min(9)
}

/// The number that two digits stand for.
fn two_at(bytes: &[u8], place: usize) -> u64
    requires { place + 1 < length bytes.now }
    ensures value { result ≡ 10 * min 9 (slice_index bytes.now place - 48)
        + min 9 (slice_index bytes.now (place + 1) - 48) }
    ensures bound { result ≤ 99 }
{
    10 * value_at(bytes, place) + value_at(bytes, place + 1)
}

/// What the digits of a stamp's text say, whatever stands between them.
fn of_digits(bytes: &[u8]) -> Option<Stamp>
    ensures { (ms : ℕ) → ms ≤ last_stamp → bytes.now ≡ stamp_text ms → result ≡ Some ms }
{
    if bytes.len() != 24 {
        return None;
    }
    let year = 100 * two_at(bytes, 0) + two_at(bytes, 2);
    let day = day_number(year, two_at(bytes, 5), two_at(bytes, 8))?;
    let minutes = 60 * two_at(bytes, 11) + two_at(bytes, 14);
    let seconds = 60 * minutes + two_at(bytes, 17);
    let thousandths = 10 * two_at(bytes, 20) + value_at(bytes, 22);
    Stamp::of(MS_PER_DAY * day + 1000 * seconds + thousandths)
}
