// Moments, and texts that are dates.
ghost use Rattle.std.specs.Prelude.{◌≡◌, ◌≤◌, ◌<◌, length, option_map, IfSome, pos};
ghost use Rattle.hk_meta.specs.Date as spec;
ghost use Rattle.hk_meta.specs.Date.{IsMoment};

use crate::Metadata;
use jiff::civil::Date;

/// A day of the years 0000 to 9999 and a time of it, ordered in time.
#[derive(Clone, Copy, Debug, PartialEq, Eq, PartialOrd, Ord, Drop)]
pub struct Moment {
    pub year: i32,
    pub month: u8,
    pub day: u8,
    pub hour: u8,
    pub minute: u8,
    pub second: u8,
}

/// The date of an item: the first that reads as a date of the value of `published`, the value of `date`, and the first
/// ten bytes of the path's last component where an eleventh byte `-` follows. `None` exactly where none of them does.
/// A date is `YYYY-MM-DD`, or that with a space or `T`, `HH:MM:SS` and at most one `Z`, in the Gregorian calendar; without a
/// time it is midnight. Linear in the path; takes no memory.
pub fn date_of(meta: &Metadata, path: &[u8]) -> Option<Moment>
    ensures value { result ≡ spec.date_of meta.now path.now }
    ensures valid { IfSome result IsMoment }
{
    if let Some(moment) = read_value(meta.get(b"published")) {
        return Some(moment);
    }
    if let Some(moment) = read_value(meta.get(b"date")) {
        return Some(moment);
    }
    read_name(last_component(path))
}

fn read_value(text: Option<&[u8]>) -> Option<Moment>
    ensures value { result ≡ spec.read_value (option_map (λ t. t.now) text.entry) }
    ensures valid { IfSome result IsMoment }
{
    match text {
        Some(text) => read_date(text),
        None => None,
    }
}

/// What follows the last `/` of a path, or all of it, lent. Linear in what is given; takes no memory.
pub fn last_component(path: &[u8]) -> &[u8]
    ensures { result.now ≡ spec.last_component path.now }
{
    let mut start = path.len();
    while start > 0 && path[start - 1] != b'/' {
        start -= 1;
    }
    &path[start..]
}

fn read_name(name: &[u8]) -> Option<Moment>
    ensures value { result ≡ spec.read_name name.now }
    ensures valid { IfSome result IsMoment }
{
    if name.len() > 10 && name[10] == b'-' {
        read_day(&name[..10])
    } else {
        None
    }
}

/// A date text: `YYYY-MM-DD`, or that with a space or `T`, `HH:MM:SS` and at most one `Z`.
pub(crate) fn read_date(text: &[u8]) -> Option<Moment>
    ensures value { result ≡ spec.read_date text.now }
    ensures valid { IfSome result IsMoment }
{
    if text.len() == 10 {
        read_day(text)
    } else {
        read_day_and_time(without_zone(text))
    }
}

fn without_zone(text: &[u8]) -> &[u8]
    ensures { result.now ≡ spec.without_zone text.now }
{
    if text.len() == 20 && text[19] == b'Z' {
        &text[..19]
    } else {
        text
    }
}

fn read_day_and_time(text: &[u8]) -> Option<Moment>
    ensures value { result ≡ spec.read_day_and_time text.now }
    ensures valid { IfSome result IsMoment }
{
    if text.len() == 19 && begins_time(text[10]) {
        with_time(read_day(&text[..10]), &text[11..])
    } else {
        None
    }
}

fn begins_time(byte: u8) -> bool
    ensures { result ≡ spec.begins_time byte }
{
    byte == b' ' || byte == b'T'
}

fn with_time(start: Option<Moment>, text: &[u8]) -> Option<Moment>
    ensures value { result ≡ spec.with_time start text.now }
    ensures valid { IfSome start IsMoment → IfSome result IsMoment }
{
    match start {
        Some(start) => read_time(start, text),
        None => None,
    }
}

#[tactic(auto, unfolding(crate::specs::Date::read_day))]
fn read_day(text: &[u8]) -> Option<Moment>
    ensures value { result ≡ spec.read_day text.now }
    ensures valid { IfSome result IsMoment }
{
    if text.len() == 10 && text[4] == b'-' && text[7] == b'-' {
        midnight(
            number(&text[0..4]),
            number(&text[5..7]),
            number(&text[8..10]),
        )
    } else {
        None
    }
}

fn midnight(year: Option<u16>, month: Option<u16>, day: Option<u16>) -> Option<Moment>
    requires years { IfSome year (λ y. y < 10000) }
    requires months { IfSome month (λ m. m < 100) }
    requires days { IfSome day (λ d. d < 100) }
    ensures value { result ≡ spec.midnight_by year month day }
    ensures valid { IfSome result IsMoment }
{
    match (year, month, day) {
        (Some(year), Some(month), Some(day)) => {
            if is_day(year, month, day) {
                Some(Moment {
                    year: i32::from(year),
                    month: month as u8,
                    day: day as u8,
                    hour: 0,
                    minute: 0,
                    second: 0,
                })
            } else {
                None
            }
        }
        _ => None,
    }
}

fn is_day(year: u16, month: u16, day: u16) -> bool
    requires years { year < 10000 }
    requires months { month < 100 }
    requires days { day < 100 }
    ensures { result ≡ spec.is_day (pos year) month day }
{
    Date::new(year as i16, month as i8, day as i8).is_ok()
}

#[tactic(auto, unfolding(crate::specs::Date::read_time))]
fn read_time(start: Moment, text: &[u8]) -> Option<Moment>
    ensures value { result ≡ spec.read_time start text.now }
    ensures valid { IsMoment start → IfSome result IsMoment }
{
    if text.len() == 8 && text[2] == b':' && text[5] == b':' {
        at_time(
            start,
            number(&text[0..2]),
            number(&text[3..5]),
            number(&text[6..8]),
        )
    } else {
        None
    }
}

fn at_time(
    start: Moment,
    hour: Option<u16>,
    minute: Option<u16>,
    second: Option<u16>,
) -> Option<Moment>
    ensures value { result ≡ spec.time_by start hour minute second }
    ensures valid { IsMoment start → IfSome result IsMoment }
{
    match (hour, minute, second) {
        (Some(hour), Some(minute), Some(second)) => {
            if hour <= 23 && minute <= 59 && second <= 59 {
                Some(Moment {
                    hour: hour as u8,
                    minute: minute as u8,
                    second: second as u8,
                    ..start
                })
            } else {
                None
            }
        }
        _ => None,
    }
}

/// What at most four digits count to.
fn number(digits: &[u8]) -> Option<u16>
    requires { length digits.now ≤ 4 }
    ensures value { result ≡ spec.number_from 0 digits.now }
    ensures two { length digits.now ≡ 2 → IfSome result (λ n. n < 100) }
    ensures four { length digits.now ≡ 4 → IfSome result (λ n. n < 10000) }
{
    let mut value = 0;
    for byte in digits {
        if !byte.is_ascii_digit() {
            return None;
        }
        value = value * 10 + u16::from(*byte - b'0');
    }
    Some(value)
}
