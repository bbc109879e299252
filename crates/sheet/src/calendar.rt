// The Gregorian calendar.
ghost use Rattle.std.specs.Prelude.{◌≡◌};
ghost use Rattle.sheet.specs.Calendar.{is_leap, days_in, date_exists};

// Is it a leap year?
fn is_leap(year: u16) -> bool
    ensures { result ≡ is_leap year }
{
    year % 4 == 0 && (year % 100 != 0 || year % 400 == 0)
}

// The days of a month; a number that is no month has none.
fn days_in(year: u16, month: u8) -> u8
    ensures { result ≡ days_in year month }
{
    match month {
        4 | 6 | 9 | 11 => 30,
        2 => { if is_leap(year) { 29 } else { 28 } }
        1 | 3 | 5 | 7 => 31,
        8 | 10 | 12 => 31,
        _ => 0,
    }
}

// Does the date exist? The year is given less 2000.
pub fn date_exists(year: u8, month: u8, day: u8) -> bool
    ensures { result ≡ date_exists year month day }
{
    1 <= day && day <= days_in(2000 + year as u16, month)
}
