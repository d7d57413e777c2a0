//! Dates: their texts, and the texts that stand for them.

ghost use Rattle.std.specs.Prelude.{◌≡◌, ◌≤◌, ◌<◌, ◌++◌, ◌≤ℤ◌, ◌+ℤ◌, ◌-ℤ◌, ◌*ℤ◌, pos, neg_ℤ, IfSome, length};
ghost use Rattle.std.specs.List.{list_all};
ghost use Rattle.avp_forms.specs.Dates.{after_month, clock_spelled, clock_text, date_of_moment, date_spelled, date_text, day_spelled, day_text, four_digits, has_day, in_32_bits, internet_date_spelled, is_zone_name, is_zone_octet, month_name, month_spelled, moment_text, numeral, offset_spelled, server_date_spelled, server_moment, signed_offset, two_digits, zone_spelled};

use crate::numerals::{number_up_to, number_within};
use crate::short_texts::{ShortText, push_all};
use arrayvec::ArrayVec;
use jiff_core::civil::Date;

const SECONDS_OF_DAY: u32 = 86400;

// From the first of January of the year -9999.
const DAYS_BEFORE_1970: u32 = 4_371_587;

// ---- reading

// The number of so many digits.
#[tactic(auto, unfolding(crate::specs::Dates::numeral))]
fn numeral(count: usize, most: u32, text: &[u8]) -> Option<u32>
    ensures value { result ≡ numeral count most text.now }
    ensures within { IfSome result (λ number. number ≤ most) }
{
    if text.len() != count {
        return None;
    }
    let number = number_within(10, u64::from(most), text)?;
    Some(number as u32)
}

// The seconds of HH:MM:SS.
#[tactic(auto, unfolding(crate::specs::Dates::clock_spelled))]
fn clock_spelled(text: &[u8]) -> Option<u32>
    ensures value { result ≡ clock_spelled text.now }
    ensures within { IfSome result (λ seconds. seconds < 86400) }
{
    if text.len() != 8 || text[2] != b':' || text[5] != b':' {
        return None;
    }
    let hour = numeral(2, 23, &text[0..2])?;
    let minute = numeral(2, 59, &text[3..5])?;
    let second = numeral(2, 59, &text[6..8])?;
    Some(hour * 3600 + minute * 60 + second)
}

// The date of a day and of seconds of it, where clocks are so many minutes before UTC's.
#[tactic(auto, unfolding(crate::specs::Dates::date_of_moment))]
fn date_of_moment(year: u32, month: u32, day: u32, seconds: u32, offset: i16) -> Option<u32>
    requires year { year ≤ 9999 }
    requires month { month ≤ 12 }
    requires day { day ≤ 31 }
    requires seconds { seconds < 86400 }
    ensures { result ≡ date_of_moment year month day seconds offset }
{
    match Date::new(year as i16, month as i8, day as i8) {
        Ok(date) => in_32_bits(moment_of(date.to_unix_epoch_day(), seconds, offset)),
        Err(_) => None,
    }
}

// Seconds since 1970.
fn moment_of(day: i32, seconds: u32, offset: i16) -> i64
    requires low { neg_ℤ (pos 5000000) ≤ℤ day }
    requires high { day ≤ℤ pos 5000000 }
    ensures { result ≡ day *ℤ pos 86400 +ℤ pos seconds -ℤ offset *ℤ pos 60 }
{
    i64::from(day) * 86400 + i64::from(seconds) - i64::from(offset) * 60
}

fn in_32_bits(moment: i64) -> Option<u32>
    ensures { result ≡ in_32_bits moment }
{
    if 0 <= moment && moment <= u32::MAX as i64 {
        Some(moment as u32)
    } else {
        None
    }
}

fn signed_offset(sign: u8, minutes: u32) -> Option<i16>
    requires { minutes < 1440 }
    ensures { result ≡ signed_offset sign minutes }
{
    match sign {
        b'+' => Some(minutes as i16),
        b'-' => Some(-(minutes as i16)),
        _ => None,
    }
}

/// How many minutes the clocks of a zone are before UTC's: `Z`, or a sign and HH:MM (RFC 3339, section 5.6).
#[tactic(auto, unfolding(crate::specs::Dates::offset_spelled))]
pub fn offset_spelled(text: &[u8]) -> Option<i16>
    ensures { result ≡ offset_spelled text.now }
{
    if text == b"Z".as_slice() {
        return Some(0);
    }
    if text.len() != 6 || text[3] != b':' {
        return None;
    }
    let hour = numeral(2, 23, &text[1..3])?;
    let minute = numeral(2, 59, &text[4..6])?;
    signed_offset(text[0], hour * 60 + minute)
}

// `2026-11-24T10:00:00Z`.
#[tactic(auto, unfolding(crate::specs::Dates::internet_date_spelled))]
fn internet_date_spelled(text: &[u8]) -> Option<u32>
    ensures { result ≡ internet_date_spelled text.now }
{
    if text.len() < 20 || text[4] != b'-' || text[7] != b'-' || text[10] != b'T' {
        return None;
    }
    let year = numeral(4, 9999, &text[0..4])?;
    let month = numeral(2, 12, &text[5..7])?;
    let day = numeral(2, 31, &text[8..10])?;
    let seconds = clock_spelled(&text[11..19])?;
    let offset = offset_spelled(&text[19..])?;
    date_of_moment(year, month, day, seconds, offset)
}

#[tactic(auto, unfolding(crate::specs::Dates::month_spelled))]
fn month_spelled(text: &[u8]) -> Option<u32>
    ensures value { result ≡ month_spelled text.now }
    ensures within { IfSome result (λ month. month ≤ 12) }
{
    if text == b"Jan".as_slice() {
        Some(1)
    } else if text == b"Feb".as_slice() {
        Some(2)
    } else if text == b"Mar".as_slice() {
        Some(3)
    } else if text == b"Apr".as_slice() {
        Some(4)
    } else if text == b"May".as_slice() {
        Some(5)
    } else if text == b"Jun".as_slice() {
        Some(6)
    } else if text == b"Jul".as_slice() {
        Some(7)
    } else if text == b"Aug".as_slice() {
        Some(8)
    } else if text == b"Sep".as_slice() {
        Some(9)
    } else if text == b"Oct".as_slice() {
        Some(10)
    } else if text == b"Nov".as_slice() {
        Some(11)
    } else if text == b"Dec".as_slice() {
        Some(12)
    } else {
        None
    }
}

fn is_zone_octet(octet: u8) -> bool
    ensures { result ≡ is_zone_octet octet }
{
    octet.is_ascii_alphanumeric() || octet == b'+' || octet == b'-'
}

fn is_zone_name(name: &[u8]) -> bool
    ensures { result ≡ is_zone_name name.now }
{
    name.len() >= 1 && are_zone_octets(name)
}

fn are_zone_octets(name: &[u8]) -> bool
    ensures { result ≡ list_all is_zone_octet name.now }
{
    name.iter().all(|octet| is_zone_octet(*octet))
}

// `UTC`, or the name of another zone.
#[tactic(auto, unfolding(crate::specs::Dates::zone_spelled))]
fn zone_spelled(zone: Option<i16>, name: &[u8]) -> Option<i16>
    ensures { result ≡ zone_spelled zone name.now }
{
    if name == b"UTC".as_slice() {
        Some(0)
    } else if is_zone_name(name) {
        zone
    } else {
        None
    }
}

// A year, a time and a zone, after a month and a day.
#[tactic(auto, unfolding(crate::specs::Dates::server_moment))]
fn server_moment(zone: Option<i16>, month: u32, day: u32, text: &[u8]) -> Option<u32>
    requires month { month ≤ 12 }
    requires day { day ≤ 31 }
    ensures { result ≡ server_moment zone month day text.now }
{
    if text.len() < 15 || text[4] != b' ' || text[13] != b' ' {
        return None;
    }
    let year = numeral(4, 9999, &text[0..4])?;
    let seconds = clock_spelled(&text[5..13])?;
    let offset = zone_spelled(zone, &text[14..])?;
    date_of_moment(year, month, day, seconds, offset)
}

fn day_spelled(text: &[u8]) -> Option<u32>
    requires { length text.now ≡ 2 }
    ensures value { result ≡ day_spelled text.now }
    ensures within { IfSome result (λ day. day ≤ 31) }
{
    if text[0] == b' ' {
        numeral(1, 9, &text[1..2])
    } else {
        numeral(2, 31, text)
    }
}

// A day, and what follows it.
#[tactic(auto, unfolding(crate::specs::Dates::after_month))]
fn after_month(zone: Option<i16>, month: u32, text: &[u8]) -> Option<u32>
    requires { month ≤ 12 }
    ensures { result ≡ after_month zone month text.now }
{
    if text.len() < 3 {
        None
    } else if text[1] == b' ' {
        let day = numeral(1, 9, &text[0..1])?;
        server_moment(zone, month, day, &text[2..])
    } else if text[2] == b' ' {
        let day = day_spelled(&text[0..2])?;
        server_moment(zone, month, day, &text[3..])
    } else {
        None
    }
}

// `Nov 24 2026 10:00:00 UTC`, with one blank or two before a day of one digit.
#[tactic(auto, unfolding(crate::specs::Dates::server_date_spelled))]
fn server_date_spelled(zone: Option<i16>, text: &[u8]) -> Option<u32>
    ensures { result ≡ server_date_spelled zone text.now }
{
    if text.len() < 4 || text[3] != b' ' {
        return None;
    }
    let month = month_spelled(&text[0..3])?;
    after_month(zone, month, &text[4..])
}

/// The date that a text stands for.
#[tactic(auto, unfolding(crate::specs::Dates::date_spelled))]
pub fn date_spelled(zone: Option<i16>, text: &[u8]) -> Option<u32>
    ensures { result ≡ date_spelled zone text.now }
{
    if let Some(number) = number_up_to(u32::MAX as u64, text) {
        return Some(number as u32);
    }
    match internet_date_spelled(text) {
        Some(date) => Some(date),
        None => server_date_spelled(zone, text),
    }
}

// ---- printing

fn month_name(month: u8) -> [u8; 3]
    requires low { 1 ≤ month }
    requires high { month ≤ 12 }
    ensures { result ≡ month_name month }
{
    match month {
        1 => *b"Jan",
        2 => *b"Feb",
        3 => *b"Mar",
        4 => *b"Apr",
        5 => *b"May",
        6 => *b"Jun",
        7 => *b"Jul",
        8 => *b"Aug",
        9 => *b"Sep",
        10 => *b"Oct",
        11 => *b"Nov",
        _ => *b"Dec",
    }
}

fn two_digits(number: u32) -> [u8; 2]
    requires { number < 100 }
    ensures { result ≡ two_digits number }
{
    [b'0' + (number / 10) as u8, b'0' + (number % 10) as u8]
}

fn day_text(day: u8) -> [u8; 2]
    requires { day < 100 }
    ensures { result ≡ day_text day }
{
    if day < 10 {
        [b' ', b'0' + day]
    } else {
        two_digits(u32::from(day))
    }
}

// HH:MM:SS of so many seconds.
fn clock_text(seconds: u32) -> [u8; 8]
    requires { seconds < 86400 }
    ensures { result ≡ clock_text seconds }
{
    let [h0, h1] = two_digits(seconds / 3600);
    let [m0, m1] = two_digits(seconds / 60 % 60);
    let [s0, s1] = two_digits(seconds % 60);
    [h0, h1, b':', m0, m1, b':', s0, s1]
}

fn year_text(year: u32) -> [u8; 4]
    requires { year < 10000 }
    ensures { result ≡ four_digits year }
{
    let [a, b] = two_digits(year / 100);
    let [c, d] = two_digits(year % 100);
    [a, b, c, d]
}

// A day, and the seconds of it in UTC.
fn moment_text(year: u32, month: u8, day: u8, seconds: u32) -> ShortText
    requires year { year < 10000 }
    requires first { 1 ≤ month }
    requires month { month ≤ 12 }
    requires day { day < 100 }
    requires seconds { seconds < 86400 }
    ensures { result.items
        ≡ moment_text (record { year = year; month = month; day = day }) seconds }
{
    let mut text = ArrayVec::new();
    push_all(&mut text, &month_name(month));
    push_all(&mut text, b" ");
    push_all(&mut text, &day_text(day));
    push_all(&mut text, b" ");
    push_all(&mut text, &year_text(year));
    push_all(&mut text, b" ");
    push_all(&mut text, &clock_text(seconds));
    push_all(&mut text, b" UTC");
    text
}

/// The text that a server prints in UTC.
#[tactic(auto, unfolding(crate::specs::Dates::date_text))]
pub fn date_text(seconds: u32) -> ShortText
    ensures { result.items ≡ date_text seconds }
{
    let date = Date::from_days_since_min(seconds / SECONDS_OF_DAY + DAYS_BEFORE_1970);
    let year = u32::from(date.year.unsigned_abs());
    moment_text(year, date.month, date.day, seconds % SECONDS_OF_DAY)
}
