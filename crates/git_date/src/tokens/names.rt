//! Names of days of the week and of zones, by their beginnings, in any letter case.
ghost use Rattle.std.specs.Prelude.{◌≡◌, ◌≤◌, true, length};
ghost use Rattle.git_date.specs as Spec;
ghost use Rattle.gix_date.specs as GixDate;

use gix_date::names::{begins, is_name, weekday_of_word};

/// How many letters of a name are enough for Git.
const LEAST: usize = 3;

/// Zones and their offsets in minutes, by their first letters. Some, as `AST` and `CAT`, are not those of today.
const ZONES: [(&[u8], i16); 44] = [
    (b"AST", -180),
    (b"ADT", -120),
    (b"BST", 60),
    (b"CAT", -600),
    (b"CST", -360),
    (b"CDT", -300),
    (b"CET", 60),
    (b"CEST", 120),
    (b"CCT", 480),
    (b"EST", -300),
    (b"EDT", -240),
    (b"EET", 120),
    (b"EEST", 180),
    (b"EAST", 600),
    (b"EADT", 660),
    (b"FWT", 60),
    (b"FST", 120),
    (b"GMT", 0),
    (b"GST", 600),
    (b"HST", -600),
    (b"HDT", -540),
    (b"IDLW", -720),
    (b"IDLE", 720),
    (b"JST", 540),
    (b"MST", -420),
    (b"MDT", -360),
    (b"MET", 60),
    (b"MEWT", 60),
    (b"MEST", 120),
    (b"MESZ", 120),
    (b"NT", -660),
    (b"NZT", 720),
    (b"NZST", 720),
    (b"NZDT", 780),
    (b"PST", -480),
    (b"PDT", -420),
    (b"UTC", 0),
    (b"WAT", -60),
    (b"WET", 0),
    (b"WAST", 420),
    (b"WADT", 480),
    (b"YST", -540),
    (b"YDT", -480),
    (b"Z", 0),
];

/// Whether a word is the front of a name and has three letters or more.
#[inline(always)]
fn is_short(word: &[u8], name: &[u8]) -> bool
    ensures { result ≡ GixDate.is_short word.now name.now }
{
    LEAST <= word.len() && begins(word, name)
}

/// Whether a word is a zone's name, or at least three letters of it.
fn is_zone_name(word: &[u8], name: &[u8]) -> bool
    ensures { result ≡ Spec.is_zone_name word.now name.now }
{
    match (word, name) {
        ([a, ..], [b, ..]) => {
            a.eq_ignore_ascii_case(b) && (word.eq_ignore_ascii_case(name) || is_short(word, name))
        }
        _ => is_name(word, name) || is_short(word, name),
    }
}

/// What stands in a table beside the first name between two places that a word tells.
#[tactic(auto, unfolding(crate::specs::zone_held))]
fn zone_in(word: &[u8], rows: &[(&[u8], i16)], first: usize, end: usize) -> Option<i16>
    requires { (first ≤ end) × (end ≤ length rows.now) }
    ensures { result ≡ Spec.zone_held word.now rows.now first end }
{
    let row = rows[first..end]
        .iter()
        .find(|row| is_zone_name(word, row.0))?;
    Some(row.1)
}

/// The places between which all zones stand whose names begin with this small letter, so that a word is compared with few.
#[tactic(auto, unfolding(crate::specs::stand_between))]
fn places_of(letter: u8) -> (usize, usize)
    ensures ordered { result.0 ≤ result.1 }
    ensures within { result.1 ≤ 44 }
    ensures all { Spec.stand_between letter result.0 result.1 ≡ true }
{
    match letter {
        b'a' => (0, 2),
        b'b' => (2, 3),
        b'c' => (3, 9),
        b'e' => (9, 15),
        b'f' => (15, 17),
        b'g' => (17, 19),
        b'h' => (19, 21),
        b'i' => (21, 23),
        b'j' => (23, 24),
        b'm' => (24, 30),
        b'n' => (30, 34),
        b'p' => (34, 36),
        b'u' => (36, 37),
        b'w' => (37, 41),
        b'y' => (41, 43),
        b'z' => (43, 44),
        _ => (0, ZONES.len()),
    }
}

/// The offset in minutes of the zone that a word tells.
#[tactic(auto, using(crate::proofs::Text::Tables::no_zone, crate::proofs::Text::Tables::zone_is))]
pub(crate) fn zone_named(word: &[u8]) -> Option<i16>
    ensures { result ≡ Spec.zone_named word.now }
{
    let [letter, ..] = word else {
        return None;
    };
    let (first, end) = places_of(letter.to_ascii_lowercase());
    zone_in(word, zones(), first, end)
}

#[tactic(auto, unfolding(crate::specs::AreZones))]
fn zones() -> &'static [(&'static [u8], i16)]
    ensures rows { Spec.AreZones result.now }
    ensures len { length result.now ≡ 44 }
{
    &ZONES
}
