//! A moment that a form writes.

ghost use Rattle.std.specs.Prelude.{◌≡◌, ◌<◌, ◌≤◌, ◌*◌, true, IfOk, IfSome};
ghost use Rattle.httpdate.specs.Calendar.{is_leap_year, days_in_year, days_in_month, days_of_years, days_of_months};
ghost use Rattle.desk_forms.specs.Moments.{is_between, is_date, day_at, day_of, second_at, second_of, moment_of, time_of};

use gate_grammar::read_number;
use gate_model::{Text, push_number};
use std::alloc::{AllocError, Global};

fn is_leap_year(year: u32) -> bool
    ensures { result ≡ is_leap_year year }
{
    year % 4 == 0 && (year % 100 != 0 || year % 400 == 0)
}

fn days_in_year(year: u32) -> u32
    ensures { result ≡ days_in_year year }
{
    if is_leap_year(year) { 366 } else { 365 }
}

fn days_in_month(year: u32, month: u32) -> u32
    ensures value { result ≡ days_in_month year month }
    ensures few { result ≤ 31 }
{
    if month == 2 {
        if is_leap_year(year) { 29 } else { 28 }
    } else if month == 4 || month == 6 || month == 9 || month == 11 {
        30
    } else {
        31
    }
}

#[tactic(auto, using(crate::proofs::MomentSteps::years))]
fn days_of_years(years: u32) -> u32
    requires { years < 10000 }
    ensures value { result ≡ days_of_years years }
    ensures few { result ≤ 366 * years }
{
    let mut days = 0;
    for year in 0..years {
        days += days_in_year(1970 + year);
    }
    days
}

#[tactic(auto, using(crate::proofs::MomentSteps::months))]
fn days_of_months(year: u32, months: u32) -> u32
    requires { months < 12 }
    ensures value { result ≡ days_of_months year months }
    ensures few { result ≤ 31 * months }
{
    let mut days = 0;
    for month in 0..months {
        days += days_in_month(year, month + 1);
    }
    days
}

fn is_between(least: u32, most: u32, number: u32) -> bool
    ensures value { result ≡ is_between least most number }
    ensures is { result ≡ true → (least ≤ number) × (number ≤ most) }
{
    least <= number && number <= most
}

fn is_date(year: u32, month: u32, day: u32) -> bool
    ensures value { result ≡ is_date year month day }
    ensures year { result ≡ true → (1970 ≤ year) × (year ≤ 9999) }
    ensures month { result ≡ true → (1 ≤ month) × (month ≤ 12) }
    ensures day { result ≡ true → (1 ≤ day) × (day ≤ 31) }
{
    is_between(1970, 9999, year)
        && is_between(1, 12, month)
        && is_between(1, days_in_month(year, month), day)
}

fn day_at(year: u32, month: u32, day: u32) -> Option<u32>
    ensures day { result ≡ day_at year month day }
    ensures few { IfSome result (λ day. day < 4000000) }
{
    if is_date(year, month, day) {
        Some(days_of_years(year - 1970) + days_of_months(year, month - 1) + (day - 1))
    } else {
        None
    }
}

fn day_of(text: &[u8]) -> Option<u32>
    ensures day { result ≡ day_of text.now }
    ensures few { IfSome result (λ day. day < 4000000) }
{
    if text.len() != 10 || text[4] != b'-' || text[7] != b'-' {
        return None;
    }
    let year = read_number(&text[..4])?;
    let month = read_number(&text[5..7])?;
    let day = read_number(&text[8..])?;
    day_at(year, month, day)
}

fn second_at(hour: u32, minute: u32) -> Option<u32>
    ensures second { result ≡ second_at hour minute }
    ensures few { IfSome result (λ second. second < 86400) }
{
    if hour < 24 && minute < 60 {
        Some(hour * 3600 + minute * 60)
    } else {
        None
    }
}

fn second_of(text: &[u8]) -> Option<u32>
    ensures second { result ≡ second_of text.now }
    ensures few { IfSome result (λ second. second < 86400) }
{
    if text.len() != 5 || text[2] != b':' {
        return None;
    }
    let hour = read_number(&text[..2])?;
    let minute = read_number(&text[3..])?;
    second_at(hour, minute)
}

// The moment in seconds since 1970, where 32 bits hold it.
fn moment_of(text: &[u8]) -> Option<u32>
    ensures { result ≡ moment_of text.now }
{
    if text.len() != 16 || text[10] != b'T' {
        return None;
    }
    let day = day_of(&text[..10])?;
    let second = second_of(&text[11..])?;
    let moment = u64::from(day) * 86400 + u64::from(second);
    if moment < 1 << 32 {
        Some(moment as u32)
    } else {
        None
    }
}

/// A time of a form as a request has it: a date and a time in UTC by their seconds since 1970, and
/// another text as it is. The only error is out of memory.
pub(crate) fn time_of(alloc: Global, text: Text) -> Result<Text, AllocError>
    ensures { IfOk result (λ time. time ≡ time_of text) }
{
    match moment_of(text.bytes()) {
        Some(moment) => {
            let mut time = Vec::new(alloc);
            push_number(&mut time, u64::from(moment))?;
            Ok(Text::new(time))
        }
        None => Ok(text),
    }
}
