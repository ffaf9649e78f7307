//! The offset of a zone, as people write it.
ghost use Rattle.std.specs.Prelude.{◌≡◌, ◌<◌, IfSome, ◌≤◌, ◌^◌, ◌+◌, length, false, option_map, None};
ghost use Rattle.git_date.specs as Spec;
ghost use Rattle.gix_date.specs as GixDate;
ghost use Rattle.jiff_tz.specs.TzifReader.{be_u32};
ghost use Rattle.jiff.specs.ZoneView.{plain_zone};
ghost use Rattle.jiff_tz.specs.PosixReader.{read_whole};

use arrayvec::ArrayString;
use jiff::Error;
use jiff::tz::{TimeZone, Tzif};
use std::alloc::Global;

/// The most hours of an offset: `jiff` has none beyond 25:59:59.
const MAX_HOURS: u8 = 25;

/// The most minutes beside the hours of an offset.
const MAX_MINUTES: u8 = 59;

/// The seconds east of UTC of an offset: a sign, two digits of hours to 25, and perhaps two of minutes, with a colon before
/// them or without: `+0200`, `-03:30`, `+02`. `None` for any other text. Takes no memory.
#[tactic(auto, unfolding(crate::specs::zone_offset))]
pub fn parse_offset(text: &[u8]) -> Option<i32>
    ensures value { result ≡ Spec.zone_offset text.now }
    ensures near { IfSome result Spec.IsNear }
{
    match text {
        [sign, a, b] => signed(*sign, two_digits(*a, *b)?, 0),
        [sign, a, b, c, d] => signed_clock(*sign, *a, *b, *c, *d),
        [sign, a, b, mark, c, d] if *mark == b':' => signed_clock(*sign, *a, *b, *c, *d),
        _ => None,
    }
}

/// The seconds of hours and minutes.
fn signed_clock(sign: u8, a: u8, b: u8, c: u8, d: u8) -> Option<i32>
    ensures value { result ≡ Spec.signed_clock sign a b c d }
    ensures near { IfSome result Spec.IsNear }
{
    let hours = two_digits(a, b)?;
    let minutes = two_digits(c, d)?;
    signed(sign, hours, minutes)
}

/// The number of two digits.
fn two_digits(tens: u8, ones: u8) -> Option<u8>
    ensures value { result ≡ GixDate.two_digit_value tens ones }
    ensures small { IfSome result (λ n. n < 100) }
{
    if tens.is_ascii_digit() && ones.is_ascii_digit() {
        Some(10 * (tens - b'0') + (ones - b'0'))
    } else {
        None
    }
}

/// The seconds of hours and minutes east or west of UTC.
fn signed(sign: u8, hours: u8, minutes: u8) -> Option<i32>
    ensures value { result ≡ Spec.signed sign hours minutes }
    ensures near { IfSome result Spec.IsNear }
{
    if hours > MAX_HOURS || minutes > MAX_MINUTES {
        return None;
    }
    let distance = 3600 * i32::from(hours) + 60 * i32::from(minutes);
    match sign {
        b'+' => Some(distance),
        b'-' => Some(-distance),
        _ => None,
    }
}

/// The most seconds of an offset.
const WIDEST: u32 = 2_147_483_647;

/// The offset that a number says as Git's own code has it: hours and two digits of minutes, west of UTC below 0. So -130 is
/// `-0130`, which is -5400 seconds. One of more than 2147483647 seconds is that many, and no date is shown with it. Takes no
/// memory.
#[tactic(auto, unfolding(crate::specs::offset_from_decimal))]
pub fn offset_from_decimal(decimal: i32) -> i32
    ensures { result ≡ Spec.offset_from_decimal decimal }
{
    let digits = u64::from(decimal.unsigned_abs());
    let seconds = 3600 * (digits / 100) + 60 * (digits % 100);
    with_sign(decimal, seconds.min(u64::from(WIDEST)) as u32)
}

/// The number that says an offset in seconds, as Git's own code has it: -5400 is -130. Seconds beyond whole minutes are
/// dropped. Takes no memory.
#[tactic(auto, unfolding(crate::specs::offset_to_decimal))]
pub fn offset_to_decimal(offset: i32) -> i32
    ensures { result ≡ Spec.offset_to_decimal offset }
{
    let seconds = offset.unsigned_abs();
    with_sign(offset, 100 * (seconds / 3600) + seconds % 3600 / 60)
}

/// So far on the side of zero where a number lies.
fn with_sign(n: i32, size: u32) -> i32
    requires { size ≤ WIDEST }
    ensures { result ≡ Spec.with_sign n size }
{
    if n < 0 { -(size as i32) } else { size as i32 }
}

/// How many bytes a header of TZif data has.
const HEADER_LEN: usize = 44;

/// Why a file says no zone.
#[derive(Clone, Copy)]
pub enum TableError {
    /// Memory was refused.
    OutOfMemory,
    /// It is no TZif file that `jiff` reads.
    NotTzif,
    /// It counts leap seconds, as no time of Git does.
    CountsLeapSeconds,
}

/// The table of a TZif file, by its bytes.
///
/// [`TableError::NotTzif`], [`TableError::CountsLeapSeconds`] and [`TableError::OutOfMemory`]. Takes memory for the table.
pub fn zone_table(alloc: Global, file: &[u8]) -> Result<Tzif, TableError>
    ensures { Spec.IsTable file.now result }
{
    match Tzif::parse(alloc, None, file) {
        Ok(_) if counts_leap_seconds(file) => Err(TableError::CountsLeapSeconds),
        Ok(table) => Ok(table),
        Err(Error::OutOfMemory) => Err(TableError::OutOfMemory),
        Err(_) => Err(TableError::NotTzif),
    }
}

/// Whether a file counts leap seconds: by its only header in the first version, and else by the second.
#[tactic(auto, unfolding(crate::specs::counts_leap_seconds))]
fn counts_leap_seconds(file: &[u8]) -> bool
    ensures { result ≡ Spec.counts_leap_seconds file.now }
{
    if file.len() < HEADER_LEN {
        return false;
    }
    if file[4] == 0 {
        return says_leap_seconds(file);
    }
    says_leap_seconds(behind_first(file))
}

/// What stands behind the first header and its data.
#[tactic(auto, unfolding(crate::specs::behind_first))]
fn behind_first(file: &[u8]) -> &[u8]
    requires { HEADER_LEN ≤ length file.now }
    ensures { result.now ≡ Spec.behind_first file.now }
{
    file.get(HEADER_LEN + data_len(file)..).unwrap_or(&[])
}

/// Whether a header says leap seconds.
fn says_leap_seconds(block: &[u8]) -> bool
    ensures { result ≡ Spec.says_leap_seconds block.now }
{
    block.len() >= HEADER_LEN && count_at(block, 28) > 0
}

/// How many bytes stand between a header and the next, where times have four bytes.
#[tactic(auto, unfolding(crate::specs::data_len))]
fn data_len(header: &[u8]) -> usize
    requires { HEADER_LEN ≤ length header.now }
    ensures value { result ≡ Spec.data_len header.now }
    ensures small { result < 2 ^ 40 }
{
    5 * count_at(header, 32)
        + 6 * count_at(header, 36)
        + count_at(header, 40)
        + 8 * count_at(header, 28)
        + count_at(header, 24)
        + count_at(header, 20)
}

/// The count at a place of a header, which has four bytes.
fn count_at(header: &[u8], at: usize) -> usize
    requires { at + 4 ≤ length header.now }
    ensures value { result ≡ be_u32 header.now at }
    ensures small { result < 2 ^ 32 }
{
    u32::from_be_bytes([header[at], header[at + 1], header[at + 2], header[at + 3]]) as usize
}

/// The value of `TZ` that means the same as none: the path of the machine's zone. Where there is no such file, that is UTC.
pub const MACHINE_ZONE: &str = "/etc/localtime";

/// Where the files of zones lie, unless `TZDIR` says so.
pub const ZONE_FOLDER: &str = "/usr/share/zoneinfo";

/// The dates of a rule that has none: those of the United States.
const US_DATES: &str = ",M3.2.0,M11.1.0";

/// The most bytes of a rule without dates.
const MAX_DATELESS: usize = 52;

/// The most bytes of a rule to which dates are added.
const MAX_DATED: usize = 67;

/// The name of the file that says the zone which a value of `TZ` means, as the C library has it. A colon in front says
/// nothing. [`zone_folder`] is where it stands.
///
/// `None` if `TZ` is empty, or a POSIX rule with its dates. [`zone_without_file`] says the zone then, and where there is no
/// such file. Takes no memory.
#[tactic(auto, unfolding(crate::specs::file_of))]
pub fn zone_file(tz: &str) -> Option<&str>
    ensures { option_map (λ name. name.now) result ≡ Spec.file_of tz.now }
{
    let name = without_colon(tz);
    if name.is_empty() || TimeZone::posix(name).is_ok() {
        return None;
    }
    Some(name)
}

/// The folder of a file of this name: that of `TZDIR`, or [`ZONE_FOLDER`] if that is empty. A name that begins with `/` is
/// the whole path, and its folder is empty. Takes no memory.
pub fn zone_folder<'a>(name: &str, tzdir: &'a str) -> &'a str
    ensures { result.now ≡ Spec.folder_of name.now tzdir.now }
{
    if name.starts_with('/') {
        ""
    } else if tzdir.is_empty() {
        ZONE_FOLDER
    } else {
        tzdir
    }
}

/// The zone that a value of `TZ` means where no file says it. UTC if it is empty or [`MACHINE_ZONE`]; else
/// [`zone_of_text`], behind a colon too. Takes no memory.
pub fn zone_without_file(tz: &str) -> Option<TimeZone<'static>>
    ensures { Spec.IsZoneWithoutFile tz.now (option_map plain_zone result) }
{
    let name = without_colon(tz);
    if name.is_empty() || name == MACHINE_ZONE || is_utc(name) {
        return Some(TimeZone::UTC);
    }
    rule_zone(name)
}

/// A value of `TZ` behind its colon.
fn without_colon(tz: &str) -> &str
    ensures { result.now ≡ Spec.without_colon tz.now }
{
    if tz.starts_with(':') { &tz[1..] } else { tz }
}

/// The zone that a text means by itself: UTC by the names `UTC` and `GMT` in any case, or that of a POSIX rule, as
/// `EST5EDT,M3.2.0,M11.1.0`. `None` for any other text.
///
/// A rule without dates, as `CET-1CEST`, has those of the United States, as in the C library. Takes no memory.
pub fn zone_of_text(text: &str) -> Option<TimeZone<'static>>
    ensures { Spec.IsTextZone text.now (option_map plain_zone result) }
{
    if is_utc(text) {
        return Some(TimeZone::UTC);
    }
    rule_zone(text)
}

/// Whether a text is a name of UTC.
fn is_utc(name: &str) -> bool
    ensures { result ≡ Spec.is_utc name.now }
{
    name.eq_ignore_ascii_case("utc") || name.eq_ignore_ascii_case("gmt")
}

/// The zone of a rule, perhaps without dates.
#[tactic(auto, unfolding(crate::specs::rule_of))]
fn rule_zone(text: &str) -> Option<TimeZone<'static>>
    ensures { Spec.IsUtcOrRule false text.now (option_map plain_zone result) }
{
    match TimeZone::posix(text) {
        Ok(zone) => Some(zone),
        Err(_) => dateless_zone(text),
    }
}

/// The zone of a rule without dates.
#[tactic(auto, unfolding(crate::specs::rule_of))]
fn dateless_zone(text: &str) -> Option<TimeZone<'static>>
    requires { read_whole text.now ≡ None }
    ensures { Spec.IsUtcOrRule false text.now (option_map plain_zone result) }
{
    if text.len() > MAX_DATELESS {
        return None;
    }
    let mut dated: ArrayString<MAX_DATED> = ArrayString::new();
    dated.push_str(text);
    dated.push_str(US_DATES);
    TimeZone::posix(dated.as_str()).ok()
}
