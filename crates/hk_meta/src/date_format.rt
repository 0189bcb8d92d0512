// Dates printed by a pattern.
ghost use Rattle.std.specs.Prelude.{◌≡◌, true, IfOk};
ghost use Rattle.hk_meta.specs.Date.{IsMoment};
ghost use Rattle.hk_meta.specs.DateFormat as spec;
ghost use Rattle.hk_meta.specs.DateParts.{parts};
ghost use Rattle.hk_meta.specs.DatePattern.{pattern_ok};
ghost use Rattle.jiff_strtime.specs.Text.{parts_of};

use crate::Moment;
use hk_base::{NoMemory, Text};
use jiff::fmt::strtime::{self, BrokenDownTime, Config, Locale};
use jiff::{Error, civil};
use std::alloc::Global;

/// Prints a moment by a pattern: `%Y` in four digits, `%m`, `%d`, `%H`, `%M` and `%S` in two, `%e` as the day in two
/// places with a space in front, `%B` and `%A` as the English names of the month and the weekday, `%b` and `%a` as their
/// first three letters, `%%` as a percent sign, and every other byte as it is. The pattern has to be one that `pattern_ok`
/// accepts, and the moment a day of the calendar in the years 0 to 9999 and a time of a clock, as each that `date_of`
/// gives is. `NoMemory` only for want of memory. Linear.
pub fn format_date(alloc: Global, date: &Moment, pattern: &[u8]) -> Result<Text, NoMemory>
    requires pattern { pattern_ok pattern.now ≡ true }
    requires date { IsMoment date.now }
    ensures { IfOk result (λ text. text ≡ spec.format_date date.now pattern.now) }
{
    let config = Config {
        locale: Locale::Default,
        lenient: false,
    };
    match strtime::to_bytes(alloc, config, pattern, &make_parts(date)) {
        Ok(bytes) => Ok(Text::from_vec(bytes)),
        Err(error) => {
            // A pattern that is accepted prints each moment.
            prove!(matches!(&error, Error::OutOfMemory));
            Err(NoMemory)
        }
    }
}

fn make_parts(date: &Moment) -> BrokenDownTime<'static>
    requires { IsMoment date.now }
    ensures { parts_of result ≡ parts date.now }
{
    let year = date.year as i16;
    let weekday = civil::date(year, date.month as i8, date.day as i8).weekday();
    BrokenDownTime {
        year: Some(year),
        month: Some(date.month),
        day: Some(date.day),
        day_of_year: None,
        iso_week_year: None,
        iso_week: None,
        week_sun: None,
        week_mon: None,
        hour: Some(date.hour),
        minute: Some(date.minute),
        second: Some(date.second),
        subsec: None,
        offset: None,
        weekday: Some(weekday),
        meridiem: None,
        timestamp: None,
        tz_abbreviation: None,
        iana: None,
    }
}
