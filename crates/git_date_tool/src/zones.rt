//! The zone of the moment.
ghost use Rattle.std.specs.Prelude.{◌≡◌, MatchResult, None, option_map, ◌≤◌, IfOk, IfSome, length, take};
ghost use Rattle.jiff.specs.ZoneView.{plain_zone};
ghost use Rattle.git_date_tool.specs.declared.zones.ZoneText.TheVariants as texts;
ghost use Rattle.git_date_tool.specs as Spec;
ghost use Rattle.git_date.specs as GitDate;
ghost use Rattle.git_date_tool.specs.declared.zones.TheConstants.{MAX_FILE_BYTES};

use git_date::{
    MACHINE_ZONE, TableError, parse_offset, zone_file, zone_folder, zone_table, zone_without_file,
};
use jiff::tz::{Offset, TimeZone, Tzif};
use std::alloc::{AllocError, Global};
use std::env::VarError;
use std::fs::{Metadata, OpenFile};
use std::io::{ErrorKind, Read};
use std::rt::{Env, Files};
use std::{env, fs, io};

/// What a zone is taken from.
#[derive(Drop)]
pub(crate) enum ZoneSource {
    /// A zone that needs no file.
    Plain(TimeZone<'static>),
    /// The table of a file.
    Table(Tzif),
}

impl ZoneSource {
    /// The zone itself.
    pub(crate) fn zone(&self) -> TimeZone<'_>
        ensures { Spec.IsTaken self.now (plain_zone result) }
    {
        match self {
            ZoneSource::Plain(zone) => *zone,
            ZoneSource::Table(table) => TimeZone::tzif(table),
        }
    }
}

/// Whose text says the zone.
#[derive(Clone, Copy)]
pub(crate) enum ZoneText<'w> {
    /// ZONE.
    Zone(&'w str),
    /// The value of `TZ`.
    Tz(&'w str),
    /// A value of `TZ` that is not UTF-8.
    TzNotText,
    /// A value of `TZ` for which there is no memory.
    TzNoMemory,
    /// Nobody's: the zone is that of the machine.
    Machine,
}

/// Whose text says the zone: ZONE, or else `TZ`, or else nobody's.
pub(crate) fn zone_text<'w>(zone: Option<&'w str>, tz: &'w Result<String, VarError>) -> ZoneText<'w>
    ensures { Spec.IsTextOf (option_map (λ text. text.now) zone.entry) result }
{
    match (zone, tz) {
        (Some(text), _) => ZoneText::Zone(text),
        (None, Ok(text)) => ZoneText::Tz(text.as_str()),
        (None, Err(VarError::NotPresent)) => ZoneText::Machine,
        (None, Err(VarError::NotUnicode)) => ZoneText::TzNotText,
        (None, Err(VarError::OutOfMemory)) => ZoneText::TzNoMemory,
    }
}

/// What the zone is taken from that a text says.
pub(crate) fn zone_source<S: Files + Env + AllocGlobal>(
    system: &S,
    text: ZoneText<'_>,
) -> Result<ZoneSource, NoZone>
    ensures { MatchResult result (Spec.IsSourceOf text.entry) (λ why. Spec.MayLackZone text.entry) }
{
    match text {
        ZoneText::Zone(text) => text_source(system, text),
        ZoneText::Tz(text) => named_source(system, text, false),
        ZoneText::TzNotText => Err(NoZone::Text(ZoneFault::NotText)),
        ZoneText::TzNoMemory => Err(NoZone::Memory),
        ZoneText::Machine => machine_source(system),
    }
}

/// What the zone of ZONE is taken from: an offset, or else as a value of `TZ`, but that `./` begins the path of a file of the current
/// folder.
fn text_source<S: Files + Env + AllocGlobal>(system: &S, text: &str) -> Result<ZoneSource, NoZone>
    ensures { MatchResult result (Spec.IsTextSource (GitDate.zone_offset text.now) text.now) (λ why. Spec.MayLackText text.now) }
{
    if let Some(zone) = offset_zone(text) {
        return Ok(ZoneSource::Plain(zone));
    }
    if text.is_empty() {
        return Err(NoZone::Text(ZoneFault::NoName));
    }
    named_source(system, text, true)
}

/// What the zone of the machine is taken from.
fn machine_source<S: Files + Env + AllocGlobal>(system: &S) -> Result<ZoneSource, NoZone>
    ensures { MatchResult result (Spec.IsSourceOf texts.Machine) (λ why. Unit {0}) }
{
    named_source(system, MACHINE_ZONE, false)
}

/// What the zone of a value of `TZ` is taken from: its file, or else its text.
fn named_source<S: Files + Env + AllocGlobal>(
    system: &S,
    tz: &str,
    from_here: bool,
) -> Result<ZoneSource, NoZone>
    ensures { MatchResult result (Spec.IsNamedSource (GitDate.file_of tz.now) tz.now) (λ why. Spec.IsName tz.now) }
{
    let Some(name) = zone_file(tz) else {
        return Ok(rule_source(tz));
    };
    match read_named(system, name, from_here) {
        Ok(bytes) => Ok(ZoneSource::Table(table_of(system.alloc(), bytes.as_slice())?)),
        Err(why) if why.is_missing() => source_without_file(tz, why),
        Err(why) => Err(why),
    }
}

/// What the zone of a value of `TZ` is taken from that names no file.
fn rule_source(tz: &str) -> ZoneSource
    requires { GitDate.file_of tz.now ≡ None }
    ensures { Spec.IsSaidSource tz.now result }
{
    match zone_without_file(tz) {
        Some(zone) => ZoneSource::Plain(zone),
        #[tactic(auto, using(crate::proofs::Offsets::no_lack))]
        None => unreachable!(),
    }
}

/// What the zone of a value of `TZ` is taken from whose file is missing.
fn source_without_file(tz: &str, why: NoZone) -> Result<ZoneSource, NoZone>
    ensures { MatchResult result (Spec.IsSaidSource tz.now) (λ why. Unit {0}) }
{
    match zone_without_file(tz) {
        Some(zone) => Ok(ZoneSource::Plain(zone)),
        None => Err(why),
    }
}

/// The zone that always has the offset of a text. `None` for any other text.
#[tactic(auto, using(gix_date::proofs::Text::Ints::held, crate::proofs::Offsets::offset_said))]
pub(crate) fn offset_zone(text: &str) -> Option<TimeZone<'static>>
    ensures { Spec.IsOffsetZone (GitDate.zone_offset text.now) (option_map plain_zone result) }
{
    match parse_offset(text.as_bytes()) {
        Some(seconds) => Some(fixed_zone(seconds)),
        None => None,
    }
}

/// The zone that is always so many seconds east of UTC.
#[tactic(auto, using(gix_date::proofs::Text::Ints::held, crate::proofs::Offsets::fixed_at))]
fn fixed_zone(seconds: i32) -> TimeZone<'static>
    requires { GitDate.IsNear seconds }
    ensures { Spec.IsFixedAt seconds (plain_zone result) }
{
    let Ok(offset) = Offset::from_seconds(seconds) else {
        unreachable!()
    };
    TimeZone::fixed(offset)
}

/// The most bytes of a file that is read as a zone, as in `jiff`.
const MAX_FILE_BYTES: u64 = 1 << 20;

/// Why there is no zone.
#[derive(Clone, Copy)]
pub(crate) enum NoZone {
    /// Memory was refused.
    Memory,
    /// The machine refused to read a file, whatever its name.
    Fault(ErrorKind),
    /// The text says no zone.
    Text(ZoneFault),
}

impl NoZone {
    /// Whether there is no file of a name or a path.
    pub(crate) fn is_missing(self) -> bool {
        matches!(
            self,
            NoZone::Text(ZoneFault::NoName | ZoneFault::NoFolder | ZoneFault::NoFile)
        )
    }
}

/// Why a text says no zone.
#[derive(Clone, Copy)]
pub(crate) enum ZoneFault {
    /// It is not UTF-8.
    NotText,
    /// There is no zone of this name.
    NoName,
    /// It is a name, and the system has no folder of zones.
    NoFolder,
    /// It is the path of no file.
    NoFile,
    /// Its file may not be read.
    Denied,
    /// Its file is a folder, a pipe or a device.
    NotRegular,
    /// Its file has more than 1 MiB.
    TooLarge,
    /// Its file is no TZif.
    NotTzif,
    /// Its file counts leap seconds, as no time of Git does.
    CountsLeapSeconds,
}

/// The bytes of the file of a name. A path from the root is that of the file itself, and so is one from the current folder if that is
/// asked. Any other name is that of a file below the folder that `TZDIR` says, or else below the system's.
pub(crate) fn read_named<S: Files + Env + AllocGlobal>(
    system: &S,
    name: &str,
    from_here: bool,
) -> Result<Vec<u8>, NoZone>
    ensures { IfOk result (λ bytes. length bytes.items ≤ MAX_FILE_BYTES) }
{
    if name.starts_with('/') || (from_here && name.starts_with("./")) {
        return read_file(system, name);
    }
    match env::var(system, "TZDIR") {
        Ok(folder) => read_below(system, zone_folder(name, folder.as_str()), name),
        Err(VarError::NotPresent) => read_below(system, zone_folder(name, ""), name),
        Err(VarError::NotUnicode) => Err(NoZone::Text(ZoneFault::NoFolder)),
        Err(VarError::OutOfMemory) => Err(NoZone::Memory),
    }
}

/// The bytes of the file of this name below a folder.
fn read_below<S: Files + AllocGlobal>(
    system: &S,
    folder: &str,
    name: &str,
) -> Result<Vec<u8>, NoZone>
    ensures { IfOk result (λ bytes. length bytes.items ≤ MAX_FILE_BYTES) }
{
    let path = path_of(system.alloc(), folder, name)
        .ok()
        .ok_or(NoZone::Memory)?;
    match read_file(system, path.as_str()) {
        Err(NoZone::Text(ZoneFault::NoFile)) => Err(NoZone::Text(missing(system, folder))),
        found => found,
    }
}

/// The path of a name in a folder.
fn path_of(alloc: Global, folder: &str, name: &str) -> Result<String, AllocError> {
    let mut path = String::from_str(alloc, folder)?;
    path.push('/')?;
    path.push_str(name)?;
    Ok(path)
}

/// What is missing where a folder has no file of a name.
fn missing<S: Files>(system: &S, folder: &str) -> ZoneFault {
    match fs::metadata(system, folder) {
        Ok(found) if found.is_dir() => ZoneFault::NoName,
        _ => ZoneFault::NoFolder,
    }
}

/// The bytes of a regular file of 1 MiB at most. By the second look the path may mean another file.
fn read_file<S: Files + AllocGlobal>(system: &S, path: &str) -> Result<Vec<u8>, NoZone>
    ensures { IfOk result (λ bytes. length bytes.items ≤ MAX_FILE_BYTES) }
{
    may_be_zone(fs::metadata(system, path).map_err(no_zone)?)?;
    let file = fs::open(system, path).map_err(no_zone)?;
    may_be_zone(file.metadata().map_err(no_zone)?)?;
    read_open(system.alloc(), file)
}

/// Whether a file may be read as a zone. A pipe or a device might never end, and neither might a file of the kernel, which says that it has
/// no byte.
fn may_be_zone(file: Metadata) -> Result<(), NoZone> {
    let fault = if !file.is_file() {
        ZoneFault::NotRegular
    } else if file.len() == 0 {
        ZoneFault::NotTzif
    } else if file.len() > MAX_FILE_BYTES {
        ZoneFault::TooLarge
    } else {
        return Ok(());
    };
    Err(NoZone::Text(fault))
}

/// All bytes of an open file, which may grow meanwhile.
#[tactic(auto, using(crate::proofs::FileBytes::all_read))]
fn read_open<R: Read + Drop>(alloc: Global, file: R) -> Result<Vec<u8>, NoZone>
    ensures few { IfOk result (λ bytes. length bytes.items ≤ MAX_FILE_BYTES) }
    ensures whole { IfOk result (λ bytes. IfSome (R.remaining file) (λ left. bytes.items ≡ left)) }
{
    let bytes = read_front(alloc, file, MAX_FILE_BYTES + 1)?;
    if bytes.len() as u64 > MAX_FILE_BYTES {
        return Err(NoZone::Text(ZoneFault::TooLarge));
    }
    Ok(bytes)
}

/// The first bytes of an open file, at most so many.
fn read_front<R: Read + Drop>(alloc: Global, file: R, most: u64) -> Result<Vec<u8>, NoZone>
    ensures { IfOk result (λ bytes. IfSome (R.remaining file) (λ left. bytes.items ≡ take most left)) }
{
    let mut bytes = Vec::new(alloc);
    match file.take(most).read_to_end(&mut bytes) {
        Ok(_) => Ok(bytes),
        Err(error) => Err(no_zone(error)),
    }
}

/// The table of a file's bytes.
pub(crate) fn table_of(alloc: Global, bytes: &[u8]) -> Result<Tzif, NoZone>
    requires { length bytes.now ≤ MAX_FILE_BYTES }
    ensures { IfOk result Spec.IsOfFile }
{
    match zone_table(alloc, bytes) {
        Ok(table) => Ok(table),
        Err(TableError::OutOfMemory) => Err(NoZone::Memory),
        Err(TableError::NotTzif) => Err(NoZone::Text(ZoneFault::NotTzif)),
        Err(TableError::CountsLeapSeconds) => Err(NoZone::Text(ZoneFault::CountsLeapSeconds)),
    }
}

/// What a fault of reading a file says of the text that names it, or of the machine.
fn no_zone(error: io::Error) -> NoZone {
    no_zone_of(error.kind())
}

fn no_zone_of(kind: ErrorKind) -> NoZone
    ensures { result ≡ Spec.no_zone_of kind }
{
    match kind {
        ErrorKind::OutOfMemory => NoZone::Memory,
        ErrorKind::NotFound => NoZone::Text(ZoneFault::NoFile),
        ErrorKind::NotADirectory => NoZone::Text(ZoneFault::NoFile),
        ErrorKind::InvalidFilename => NoZone::Text(ZoneFault::NoFile),
        ErrorKind::FilesystemLoop => NoZone::Text(ZoneFault::NoFile),
        ErrorKind::PermissionDenied => NoZone::Text(ZoneFault::Denied),
        other => NoZone::Fault(other),
    }
}
