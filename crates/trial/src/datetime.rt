// How Cedar writes a point in time.

use std::fmt;

// Milliseconds since 1970-01-01.
#[derive(Clone, Copy)]
pub(crate) struct Datetime(pub(crate) i64);

// A day of the calendar.
struct Date {
    year: u64,
    month: u64,
    day: u64,
}

// The date of a day, counted from 0000-03-01. Years are counted from March, so that a leap day comes last.
fn date_of(days: u64) -> Date {
    let era = days / 146_097;
    let of_era = days % 146_097;
    let year_of_era = (of_era - of_era / 1_460 + of_era / 36_524 - of_era / 146_096) / 365;
    let of_year = of_era.saturating_sub(365 * year_of_era + year_of_era / 4 - year_of_era / 100);
    let from_march = (5 * of_year + 2) / 153;
    let day = of_year.saturating_sub((153 * from_march + 2) / 5) + 1;
    let (month, next) = if from_march < 10 {
        (from_march + 3, 0)
    } else {
        (from_march - 9, 1)
    };
    Date {
        year: year_of_era + era * 400 + next,
        month,
        day,
    }
}

// The units of a time, in milliseconds.
const SECOND: u64 = 1_000;

const MINUTE: u64 = 60_000;

const HOUR: u64 = 3_600_000;

const DAY: u64 = 86_400_000;

// 0000-03-01 and 10000-01-01, in milliseconds since 1970-01-01.
const START: i64 = -62_162_035_200_000;

const END: i64 = 253_402_300_800_000;

// A date string has four digits for the year: other years are told as an offset.
impl fmt::Display for Datetime {
    fn fmt<W: fmt::Write>(&self, f: &mut fmt::Formatter<W>) -> fmt::Result {
        let number = self.0;
        if !(START..END).contains(&number) {
            return write!(
                f,
                "datetime(\"1970-01-01\").offset(duration(\"{number}ms\"))"
            );
        }
        let since = (number - START) as u64;
        let Date { year, month, day } = date_of(since / DAY);
        let time = since % DAY;
        let (hour, minute) = (time / HOUR, time / MINUTE % 60);
        let (second, milli) = (time / SECOND % 60, time % SECOND);
        write!(f, "datetime(\"{year:04}-{month:02}-{day:02}T")?;
        write!(f, "{hour:02}:{minute:02}:{second:02}.{milli:03}Z\")")
    }
}
