// GPS time as a date and a time of day. GPS time has no leap seconds; it began at midnight of 6 January 1980.
ghost use Rattle.std.specs.Prelude.{◌≡◌, ◌+◌, ◌-◌, ◌/◌, ◌%◌, ◌^◌, ◌<◌, ◌≤◌};
ghost use Rattle.oxts_units.specs.Calendar.{leap, year_days, years_days, months_days, month_days, Timed};

use std::fmt;

#[derive(Clone, Copy)]
pub struct Date {
    pub year: u64,
    // Months and days count from 1.
    pub month: u64,
    pub day: u64,
}

#[derive(Clone, Copy)]
pub struct GpsTime {
    pub date: Date,
    pub hour: u64,
    pub minute: u64,
    pub second: u64,
    pub millisecond: u64,
}

// A day by its year and its place in the year, from 0.
#[derive(Clone, Copy)]
struct YearDay {
    year: u64,
    day: u64,
}

fn is_leap(year: u64) -> bool
    ensures value { result ≡ leap year }
{
    year % 400 == 0 || (year % 100 != 0 && year % 4 == 0)
}

fn days_of_year(year: u64) -> u64
    ensures value { result ≡ year_days year }
{
    if is_leap(year) { 366 } else { 365 }
}

fn days_of_month(year: u64, month: u64) -> u64
    ensures value { result ≡ month_days (leap year) month }
{
    match month {
        2 => { if is_leap(year) { 29 } else { 28 } }
        4 | 6 | 9 | 11 => 30,
        _ => 31,
    }
}

// The year of a day that is counted from 1 January 1980, and its place in that year.
fn year_day(days: u64) -> YearDay
    requires few { days ≤ 2 ^ 40 }
    ensures from { 1980 ≤ result.year }
    ensures counted { years_days (result.year - 1980) + result.day ≡ days }
    ensures within { result.day < year_days result.year }
{
    let mut day = days;
    // The loop ends by its day: each year takes one or more. An end of the range by `days` takes longer to test.
    for year in 1980..u64::MAX {
        let length = days_of_year(year);
        if day < length {
            return YearDay { year, day };
        }
        day -= length;
    }
    // No day is counted so far on.
    unreachable!()
}

// A day of a year by its month.
fn month_date(place: YearDay) -> Date
    requires within { place.day < year_days place.year }
    ensures year { result.year ≡ place.year }
    ensures month { (1 ≤ result.month) × (result.month ≤ 12) }
    ensures day { (1 ≤ result.day) × (result.day ≤ month_days (leap place.year) result.month) }
    ensures counted { months_days (leap place.year) (result.month - 1) + result.day ≡ place.day + 1 }
{
    let YearDay { year, mut day } = place;
    for month in 1..12 {
        let length = days_of_month(year, month);
        if day < length {
            return Date {
                year,
                month,
                day: day + 1,
            };
        }
        day -= length;
    }
    Date {
        year,
        month: 12,
        day: day + 1,
    }
}

// Milliseconds since GPS time began, as a date and a time of day.
pub fn gps_time(milliseconds: u64) -> GpsTime
    ensures timed { Timed milliseconds result }
{
    let date = month_date(year_day(milliseconds / 86_400_000 + 5));
    let rest = milliseconds % 86_400_000;
    GpsTime {
        date,
        hour: rest / 3_600_000,
        minute: rest / 60_000 % 60,
        second: rest / 1000 % 60,
        millisecond: rest % 1000,
    }
}

impl fmt::Display for GpsTime {
    fn fmt<W: fmt::Write>(&self, f: &mut fmt::Formatter<W>) -> fmt::Result {
        let GpsTime {
            date: Date { year, month, day },
            hour,
            minute,
            second,
            millisecond,
        } = *self;
        write!(f, "{year:04}-{month:02}-{day:02}")?;
        write!(f, "T{hour:02}:{minute:02}:{second:02}.{millisecond:03}")
    }
}
