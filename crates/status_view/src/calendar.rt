//! Dates of the Gregorian calendar from 1970.

ghost use Rattle.std.specs.Prelude.{◌≡◌, ◌+◌, ◌-◌, ◌<◌, ◌≤◌};
ghost use Rattle.httpdate.specs.Calendar.{is_leap_year, days_in_year, days_in_month, days_of_years, days_of_months};
ghost use Rattle.status_view.specs.Calendar.{year_of, days_over, month_of, day_of};

/// A day, by its numbers in the calendar.
#[derive(Clone, Copy)]
pub struct Date {
    pub year: u32,
    pub month: u32,
    pub day: u32,
}

fn is_leap_year(year: u32) -> bool
    ensures { result ≡ is_leap_year year }
{
    year % 4 == 0 && (year % 100 != 0 || year % 400 == 0)
}

fn days_in_year(year: u32) -> u32
    ensures { result ≡ days_in_year year }
{
    if is_leap_year(year) { 366 } else { 365 }
}

fn days_in_month(year: u32, month: u32) -> u32
    ensures { result ≡ days_in_month year month }
{
    if month == 2 {
        if is_leap_year(year) { 29 } else { 28 }
    } else if month == 4 || month == 6 || month == 9 || month == 11 {
        30
    } else {
        31
    }
}

// The year of a day, and how many days of the year are over.
#[tactic(auto, using(crate::proofs::CalendarSteps::years))]
fn year_of(day: u32) -> (u32, u32)
    requires { day < 50000 }
    ensures year { result.0 ≡ year_of day }
    ensures over { result.1 ≡ days_over day }
    ensures fewer { result.1 ≤ day }
{
    let mut years = 0;
    let mut rest = day;
    let mut length = days_in_year(1970);
    while rest >= length {
        rest -= length;
        years += 1;
        length = days_in_year(1970 + years);
    }
    (1970 + years, rest)
}

// The month of a day, and its day there, by its year and how many days of the year are over.
#[tactic(auto, using(crate::proofs::CalendarSteps::months))]
fn month_of(day: u32, year: u32, over: u32) -> (u32, u32)
    requires of_year { year ≡ year_of day }
    requires of_day { over ≡ days_over day }
    requires short { over < 50000 }
    ensures month { result.0 ≡ month_of day }
    ensures day { result.1 ≡ day_of day }
{
    let mut months = 0;
    let mut rest = over;
    let mut length = days_in_month(year, 1);
    while months < 11 && rest >= length {
        rest -= length;
        months += 1;
        length = days_in_month(year, months + 1);
    }
    (months + 1, rest + 1)
}

/// The date of a day, of days since 1 January 1970.
pub fn date_of(day: u32) -> Date
    requires { day < 50000 }
    ensures year { result.year ≡ year_of day }
    ensures month { result.month ≡ month_of day }
    ensures day { result.day ≡ day_of day }
{
    let (year, over) = year_of(day);
    let (month, day) = month_of(day, year, over);
    Date { year, month, day }
}
