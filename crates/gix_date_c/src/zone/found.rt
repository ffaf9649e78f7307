//! Zones that values of `TZ` and `TZDIR` mean. The caller reads the files.
ghost use Rattle.std.specs.Prelude.{◌≡◌, ◌≤◌, ◌⊎◌, length, Ok, Err, MatchResult};
ghost use Rattle.std.specs.Result.{result_map_both};
ghost use Rattle.jiff.specs.Words.{plain_zone};
ghost use Rattle.gix_date_c.specs.declared.values.status.Status.TheVariants.{Memory};
ghost use Rattle.gix_date_c.specs as Spec;

use crate::moment::table_of;
use crate::values::buffer::put_at;
use crate::values::status::Status;
use crate::values::text::utf8_text;
use crate::zone::held::{Held, shared};
use crate::zone::in_box;
use crate::zone::stored::CZone;
use git_date::{zone_file, zone_folder, zone_without_file};
use jiff::tz::TimeZone;
use std::alloc::Global;

/// The pieces of a path.
#[derive(Clone, Copy)]
pub(crate) struct Path<'a> {
    folder: &'a str,
    mark: &'a str,
    name: &'a str,
}

/// Puts the path of the file into a buffer that says the zone which values of `TZ` and `TZDIR` mean. Nothing where a file says none.
#[unsafe(no_mangle)]
pub extern "C" fn gix_date_zone_path(
    tz: &[u8],
    tzdir: &[u8],
    out: &mut [u8],
    len: &mut usize,
) -> u32
    ensures { Spec.outcome out.new len.new result ≡ Spec.outcome_of (Spec.path_answer tz.now tzdir.now) out.old }
{
    match path_of(tz, tzdir) {
        Ok(path) => {
            *len = path.len();
            path.store(out).number()
        }
        Err(status) => {
            *len = 0;
            status.number()
        }
    }
}

/// Makes a zone mean what a value of `TZ` does, of whose file these bytes were read. What was held before is freed.
#[unsafe(no_mangle)]
pub extern "C" fn gix_date_zone_named(
    alloc: Global,
    tz: &[u8],
    file: &[u8],
    zone: &mut CZone,
) -> u32
    ensures { Spec.Finds tz.now file.now zone.old zone.new result }
{
    match boxed(alloc, tz, file) {
        Ok(held) => {
            *zone = CZone::holding(alloc, 0, held);
            Status::Done.number()
        }
        Err(status) => status.number(),
    }
}

/// What is found, in a box.
fn boxed(alloc: Global, tz: &[u8], file: &[u8]) -> Result<Box<Held>, Status>
    ensures { MatchResult result (λ held. Spec.IsFound tz.now file.now (Ok held.value))
        (λ status. Spec.IsFound tz.now file.now (Err status) ⊎ (status ≡ Memory)) }
{
    in_box(alloc, found(alloc, tz, file)?)
}

/// The zone of a file, or else what a value of `TZ` means without one.
fn found(alloc: Global, tz: &[u8], file: &[u8]) -> Result<Held, Status>
    ensures { Spec.IsFound tz.now file.now result }
{
    if file.is_empty() {
        return Ok(Held::Rule(zone_left(tz)?));
    }
    Ok(Held::Table(shared(alloc, table_of(alloc, file)?)?))
}

/// The zone that a value of `TZ` means where no file says it.
fn zone_left(tz: &[u8]) -> Result<TimeZone<'static>, Status>
    ensures { Spec.IsZoneWithoutFile tz.now (result_map_both plain_zone (λ status. status) result) }
{
    zone_without_file(utf8_text(tz)?).ok_or(Status::InvalidZone)
}

/// The path of the file that says the zone.
fn path_of<'a>(tz: &'a [u8], tzdir: &'a [u8]) -> Result<Path<'a>, Status>
    ensures { result_map_both Spec.path_of (λ status. status) result ≡ Spec.path_answer tz.now tzdir.now }
{
    let Some(name) = zone_file(utf8_text(tz)?) else {
        return Ok(Path::below("", ""));
    };
    let folder = zone_folder(name, utf8_text(tzdir)?);
    Ok(Path::below(folder, name))
}

impl<'a> Path<'a> {
    /// The path of a name below a folder.
    fn below(folder: &'a str, name: &'a str) -> Path<'a>
        ensures { Spec.path_of result ≡ Spec.joined folder.now name.now }
    {
        let mark = if folder.is_empty() { "" } else { "/" };
        Path { folder, mark, name }
    }

    /// How many bytes it has. No memory holds a path for which the sum is not exact.
    fn len(self) -> usize
        ensures { result ≡ Spec.as_usize (length (Spec.path_of self.entry)) }
    {
        self.folder
            .len()
            .saturating_add(self.mark.len())
            .saturating_add(self.name.len())
    }

    /// Puts it at the front of a buffer that has room for it.
    fn store(self, out: &mut [u8]) -> Status
        ensures { record {
          bytes = out.new;
          len = Spec.as_usize (length (Spec.path_of self.entry));
          status = Spec.number_of result;
        }
            ≡ Spec.text_outcome (Spec.path_of self.entry) out.old }
    {
        if self.len() > out.len() {
            return Status::NoRoom;
        }
        self.put(out);
        Status::Done
    }

    #[tactic(auto, using(crate::proofs::Pieces::three_put))]
    fn put(self, out: &mut [u8])
        requires { length (Spec.path_of self) ≤ length out.old }
        ensures { out.new ≡ Spec.with_text (Spec.path_of self.entry) out.old }
    {
        let mark = put_at(out, 0, self.folder);
        let name = put_at(out, mark, self.mark);
        put_at(out, name, self.name);
    }
}
