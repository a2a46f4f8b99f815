// The date and time of a stamp in UTC.
ghost use Rattle.std.specs.Prelude.{◌≡◌, ◌<◌, ◌≤◌, ◌+◌, ◌*◌, ◌++◌, pos, length, OnOk};
ghost use Rattle.jiff.specs.Words.{epoch_day};
ghost use Rattle.plus_blocks.specs.Calendar.{date_of, weekday_of};
ghost use Rattle.plus_blocks.specs.Date as spec;

use host_types::Stamp;
use jiff::ToSpan;
use jiff::civil::{Date, date};
use std::alloc::AllocError;

const DAYS: &[u8; 21] = b"MonTueWedThuFriSatSun";

const MONTHS: &[u8; 36] = b"JanFebMarAprMayJunJulAugSepOctNovDec";

/// A day of the calendar; months and days count from 1.
#[derive(Clone, Copy, Debug)]
pub(crate) struct Civil {
    pub year: u16,
    pub month: u8,
    pub day: u8,
}

/// The date so many days after 1 January 1970, up to the end of 9999.
fn date_after(days: u64) -> Date
    requires { days ≤ 2932896 }
    ensures { epoch_day result ≡ pos days }
{
    date(1970, 1, 1).checked_add((days as i64).days()).unwrap()
}

/// The date so many days after 1 January 1970, and its weekday from 0 for Monday.
fn day_at(days: u64) -> (Civil, u8)
    requires { days ≤ 2932896 }
    ensures civil { result.0 ≡ date_of days }
    ensures month { (1 ≤ result.0.month) × (result.0.month ≤ 12) }
    ensures weekday { result.1 ≡ weekday_of days }
{
    let date = date_after(days);
    let year = date.year().unsigned_abs();
    let month = date.month().unsigned_abs();
    let day = date.day().unsigned_abs();
    let weekday = date.weekday().to_monday_zero_offset().unsigned_abs();
    (Civil { year, month, day }, weekday)
}

/// Adds the last two digits of a number.
fn push_two(out: &mut Vec<u8>, number: u16) -> Result<(), AllocError>
    ensures { OnOk result (out.new.items ≡ out.old.items ++ spec.two_digits number) }
{
    out.push(b'0' + (number / 10 % 10) as u8)?;
    out.push(b'0' + (number % 10) as u8)?;
    Ok(())
}

/// Adds the last four digits of a number.
fn push_four(out: &mut Vec<u8>, number: u16) -> Result<(), AllocError>
    ensures { OnOk result (out.new.items ≡ out.old.items ++ spec.four_digits number) }
{
    push_two(out, number / 100)?;
    push_two(out, number)
}

/// Adds the name of three letters at a place.
fn push_name(out: &mut Vec<u8>, names: &[u8], place: u8) -> Result<(), AllocError>
    requires { 3 * place + 3 ≤ length names.now }
    ensures { OnOk result (out.new.items ≡ out.old.items ++ spec.name_at place names.now) }
{
    let start = 3 * place as usize;
    out.extend_from_slice(&names[start..start + 3])
}

/// Adds the time of day, as `17:02:01`.
#[tactic(auto, unfolding(crate::specs::Date::hour_of))]
fn push_clock(out: &mut Vec<u8>, second: u32) -> Result<(), AllocError>
    requires { second < 86400 }
    ensures { OnOk result (out.new.items ≡ out.old.items ++ spec.clock second) }
{
    push_two(out, (second / 3600) as u16)?;
    out.push(b':')?;
    push_two(out, (second / 60 % 60) as u16)?;
    out.push(b':')?;
    push_two(out, (second % 60) as u16)
}

/// Adds the time of day without signs, as `170201`.
#[tactic(auto, unfolding(crate::specs::Date::hour_of))]
fn push_time(out: &mut Vec<u8>, second: u32) -> Result<(), AllocError>
    requires { second < 86400 }
    ensures { OnOk result (out.new.items ≡ out.old.items ++ spec.time second) }
{
    push_two(out, (second / 3600) as u16)?;
    push_two(out, (second / 60 % 60) as u16)?;
    push_two(out, (second % 60) as u16)
}

/// Adds the name of a weekday, from 0 for Monday.
#[tactic(auto, unfolding(crate::specs::Date::day_name))]
fn push_day_name(out: &mut Vec<u8>, weekday: u8) -> Result<(), AllocError>
    requires { weekday < 7 }
    ensures { OnOk result (out.new.items ≡ out.old.items ++ spec.day_name weekday) }
{
    push_name(out, DAYS, weekday)
}

/// Adds the name of a month, from 1 for January.
#[tactic(auto, unfolding(crate::specs::Date::month_name))]
fn push_month_name(out: &mut Vec<u8>, month: u8) -> Result<(), AllocError>
    requires first { 1 ≤ month }
    requires last { month ≤ 12 }
    ensures { OnOk result (out.new.items ≡ out.old.items ++ spec.month_name month) }
{
    push_name(out, MONTHS, month - 1)
}

/// Adds a date and time, as `Wed Jul 28 17:02:01 1993`.
#[tactic(auto, unfolding(crate::specs::Date::spoken))]
fn push_spoken(out: &mut Vec<u8>, date: Civil, weekday: u8, second: u32) -> Result<(), AllocError>
    requires weekday { weekday < 7 }
    requires first { 1 ≤ date.month }
    requires last { date.month ≤ 12 }
    requires time { second < 86400 }
    ensures { OnOk result (out.new.items ≡ out.old.items ++ spec.spoken date weekday second) }
{
    push_day_name(out, weekday)?;
    out.push(b' ')?;
    push_month_name(out, date.month)?;
    out.push(b' ')?;
    push_two(out, u16::from(date.day))?;
    out.push(b' ')?;
    push_clock(out, second)?;
    out.push(b' ')?;
    push_four(out, date.year)
}

/// Adds a date and time without signs, as `19930728170201`.
#[tactic(auto, unfolding(crate::specs::Date::numbered))]
fn push_numbered(out: &mut Vec<u8>, date: Civil, second: u32) -> Result<(), AllocError>
    requires { second < 86400 }
    ensures { OnOk result (out.new.items ≡ out.old.items ++ spec.numbered date second) }
{
    push_four(out, date.year)?;
    push_two(out, u16::from(date.month))?;
    push_two(out, u16::from(date.day))?;
    push_time(out, second)
}

/// Adds a stamp's date and time in UTC, as `Wed Jul 28 17:02:01 1993 <19930728170201>`.
#[tactic(auto, unfolding(crate::specs::Date::mod_date, crate::specs::Date::day_of, crate::specs::Date::second_of))]
pub(crate) fn push_mod_date(out: &mut Vec<u8>, stamp: Stamp) -> Result<(), AllocError>
    ensures { OnOk result (out.new.items ≡ out.old.items ++ spec.mod_date stamp) }
{
    let seconds = stamp.seconds();
    let second = (seconds % 86_400) as u32;
    let (date, weekday) = day_at(seconds / 86_400);
    push_spoken(out, date, weekday, second)?;
    out.extend_from_slice(b" <")?;
    push_numbered(out, date, second)?;
    out.push(b'>')?;
    Ok(())
}

/// Adds a date, as `1993-07-28`.
#[tactic(auto, unfolding(crate::specs::Date::dashed_day))]
fn push_dashed_day(out: &mut Vec<u8>, date: Civil) -> Result<(), AllocError>
    ensures { OnOk result (out.new.items ≡ out.old.items ++ spec.dashed_day date) }
{
    push_four(out, date.year)?;
    out.push(b'-')?;
    push_two(out, u16::from(date.month))?;
    out.push(b'-')?;
    push_two(out, u16::from(date.day))
}

/// Adds a date and time, as `1993-07-28T17:02:01Z`.
#[tactic(auto, unfolding(crate::specs::Date::dashed))]
fn push_dashed(out: &mut Vec<u8>, date: Civil, second: u32) -> Result<(), AllocError>
    requires { second < 86400 }
    ensures { OnOk result (out.new.items ≡ out.old.items ++ spec.dashed date second) }
{
    push_dashed_day(out, date)?;
    out.push(b'T')?;
    push_clock(out, second)?;
    out.push(b'Z')?;
    Ok(())
}

/// Adds a date and time, as `28/Jul/1993:17:02:01 +0000`.
#[tactic(auto, unfolding(crate::specs::Date::slashed))]
fn push_slashed(out: &mut Vec<u8>, date: Civil, second: u32) -> Result<(), AllocError>
    requires first { 1 ≤ date.month }
    requires last { date.month ≤ 12 }
    requires time { second < 86400 }
    ensures { OnOk result (out.new.items ≡ out.old.items ++ spec.slashed date second) }
{
    push_two(out, u16::from(date.day))?;
    out.push(b'/')?;
    push_month_name(out, date.month)?;
    out.push(b'/')?;
    push_four(out, date.year)?;
    out.push(b':')?;
    push_clock(out, second)?;
    out.extend_from_slice(b" +0000")
}

/// Adds a stamp's date and time in UTC as a listing has it, `1993-07-28T17:02:01Z`.
#[tactic(auto, unfolding(crate::specs::Date::listed_date, crate::specs::Date::day_of, crate::specs::Date::second_of))]
pub fn push_listed_date(out: &mut Vec<u8>, stamp: Stamp) -> Result<(), AllocError>
    ensures { OnOk result (out.new.items ≡ out.old.items ++ spec.listed_date stamp) }
{
    let seconds = stamp.seconds();
    let (date, _) = day_at(seconds / 86_400);
    push_dashed(out, date, (seconds % 86_400) as u32)
}

/// Adds a stamp's date and time in UTC as the common log format has it, `28/Jul/1993:17:02:01 +0000`.
#[tactic(auto, unfolding(crate::specs::Date::log_date, crate::specs::Date::day_of, crate::specs::Date::second_of))]
pub fn push_log_date(out: &mut Vec<u8>, stamp: Stamp) -> Result<(), AllocError>
    ensures { OnOk result (out.new.items ≡ out.old.items ++ spec.log_date stamp) }
{
    let seconds = stamp.seconds();
    let (date, _) = day_at(seconds / 86_400);
    push_slashed(out, date, (seconds % 86_400) as u32)
}
