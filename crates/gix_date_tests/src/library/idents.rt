//! Identity lines, with outside values, and written to writers that fail.
use crate::fakes::answers::{check, check_at, shows};
use crate::fakes::{Dribble, Slow};
use gix_date::Time;
use gix_date::device::Device;
use gix_date_callers::signature_caller::commit_author;
use gix_signature::{
    FsckFault, FsckId, GitTime, IdentFault, IdentRef, Role, SignatureError, fsck_of, laws, named,
    write_ident, write_ident_as_is,
};
use std::io::{ErrorKind, Write};

#[test]
fn a_line_in_latin_1_is_shown(rt: HostRuntime) {
    let ident = IdentRef::from_bytes(b"J\xf6rg \t<j@e> 5 +0100").expect(&rt, "an identity");
    check(&rt, ident.name == b"J\xf6rg".as_slice());
    check(&rt, ident.email == b"j@e".as_slice());
    let date = ident.date.expect(&rt, "a date");
    check(&rt, date.seconds == b"5".as_slice());
    check(&rt, date.offset == b"+0100".as_slice());
    let time = date.git_time();
    check(&rt, (time.seconds, time.offset) == (5, 100));
    check(&rt, time.to_time().ok() == Some(Time::new(5, 3600)));
}

#[test]
fn a_line_without_a_date_or_an_identity_says_so(rt: HostRuntime) {
    const OTHERS: [&[u8]; 4] = [b"A a> 5 +0000", b"A <a 5 +0000", b"", b"A\0 <a> 5 +0000"];
    let ident = IdentRef::from_bytes(b"Foo Bar <foo@bar.com>\n5 +0000").expect(&rt, "an identity");
    check(&rt, ident.name == b"Foo Bar".as_slice());
    check(&rt, ident.date.is_none());
    for line in &OTHERS {
        check(&rt, IdentRef::from_bytes(line).is_none());
    }
}

#[test]
fn fsck_says_where_a_line_is_wrong(rt: HostRuntime) {
    const WRONG: [(&[u8], FsckId, usize); 11] = [
        (b"A\0<a> 5 +0000", FsckId::NulInHeader, 1),
        (b"<a> 5 +0000", FsckId::MissingNameBeforeEmail, 0),
        (b"A >a< 5 +0000", FsckId::BadName, 2),
        (b"A", FsckId::MissingEmail, 1),
        (b"A<a> 5 +0000", FsckId::MissingSpaceBeforeEmail, 1),
        (b"A <a<b> 5 +0000", FsckId::BadEmail, 4),
        (b"A <a>5 +0000", FsckId::MissingSpaceBeforeDate, 5),
        (b"A <a> 05 +0000", FsckId::ZeroPaddedDate, 6),
        (b"A <a> -5 +0000", FsckId::BadDateOverflow, 6),
        (b"A <a> x", FsckId::BadDate, 6),
        (b"A <a> 5 +00000\n", FsckId::BadTimezone, 8),
    ];
    for &(line, id, place) in &WRONG {
        check_at(&rt, fsck_of(line) == Some(FsckFault { id, place }), &id);
    }
    check(&rt, fsck_of(b"J\xf6rg <j@e> 5 +9999\n<").is_none());
}

#[test]
fn refusals_of_a_line_come_before_a_byte(rt: HostRuntime) {
    const REFUSED: [(&[u8], &[u8], i64, i32, &str); 5] = [
        (b"A", b"a\0", -1, 0, "a name or email may not hold NUL"),
        (b"", b"a", -1, 0, "the name is empty"),
        (
            b" .<",
            b"a",
            -1,
            0,
            "the name consists only of disallowed characters",
        ),
        (
            b"A",
            b"a",
            -1,
            360_000,
            "a time before 1970 cannot be written",
        ),
        (b"A", b"a", 0, 360_000, "the offset is too wide"),
    ];
    for &(name, email, seconds, offset, text) in &REFUSED {
        let mut out = Dribble::new(99);
        match write_ident(name, email, Time::new(seconds, offset), &mut out) {
            Ok(()) => check_at(&rt, false, &text),
            Err(fault) => check_at(&rt, shows(rt.alloc(), &fault, text), &text),
        }
        check(&rt, out.calls == 0);
    }
}

/// How writing an identity ends, with the kind by which its writer failed, and what became of the writer.
fn identified<W: Write>(
    name: &[u8],
    email: &[u8],
    time: Time,
    writer: W,
) -> (Result<(), Option<ErrorKind>>, W) {
    let mut out = Device::new(writer);
    let answer = match write_ident(name, email, time, &mut out) {
        Ok(()) => Ok(()),
        Err(IdentFault::Write(kind)) => Err(Some(kind)),
        Err(_) => Err(None),
    };
    (answer, out.into_inner())
}

#[test]
fn crud_is_left_out_of_a_written_line(rt: HostRuntime) {
    let (answer, writer) = identified(
        b". A <x> \"B\"",
        b"a>\n",
        Time::new(5, 0),
        Slow::roomy(rt.alloc()),
    );
    check(&rt, answer.is_ok());
    check(&rt, writer.took(b"A x \"B <a> 5 +0000"));
}

#[test]
fn a_writer_that_fails_has_taken_a_prefix_of_the_cleaned_line(rt: HostRuntime) {
    let line = b"AB <ab> 5 +0100";
    for room in 0..line.len() {
        let writer = Slow::new(rt.alloc(), 2, room, ErrorKind::StorageFull);
        let (answer, writer) = identified(b"'A\nB'", b"<a>b", Time::new(5, 3600), writer);
        check_at(&rt, answer == Err(Some(ErrorKind::StorageFull)), &room);
        check_at(&rt, writer.took(&line[..room]), &room);
        check_at(&rt, writer.flushes == 0, &room);
    }
}

#[test]
fn a_law_of_identity_lines_is_called_for_nothing_but_what_it_states() {
    laws::written_passes(b"A", b"a", Time::new(5, 3600));
}

// As git cat-file prints them of commits that git hash-object --literally has taken.
#[test]
fn times_are_written_as_a_line_has_them(rt: HostRuntime) {
    let mut unknown = GitTime::new(0, 0);
    unknown.minus_zero = true;
    check(&rt, unknown.text().as_str() == "0 -0000");
    for &(seconds, offset, text) in &[
        (5, 530, "5 +0530"),
        (5, -60, "5 -0060"),
        (5, 51_800, "5 +51800"),
        (5, -1, "5 -0001"),
        (i64::MIN, i32::MIN, "-9223372036854775808 -2147483648"),
    ] {
        check(&rt, GitTime::new(seconds, offset).text().as_str() == text);
    }
}

#[test]
fn a_line_comes_back_if_it_is_written_so(rt: HostRuntime) {
    const LINES: [(&[u8], bool); 10] = [
        (b"A <a@b> 5 -0000", true),
        (b" <> 0 +0060", true),
        (b"J\xf6rg <j@e> 5 +51800\n<", true),
        (b"A  <a@b> 5 +0000", false),
        (b"A <a@b> 05 +0000", false),
        (b"A <a@b> 5 +0000 ", false),
        (b"A <a@b>5 +0000", false),
        (b"A <a@b> 5 --700", false),
        (b"A> <a@b> 5 +0000", false),
        (b"A <a@b> 5", false),
    ];
    for &(line, comes_back) in &LINES {
        let ident = IdentRef::from_bytes(line).expect(&rt, "an identity");
        check(&rt, ident.comes_back(line) == comes_back);
    }
}

#[test]
fn parts_are_written_as_they_are(rt: HostRuntime) {
    let mut time = GitTime::new(0, 0);
    time.minus_zero = true;
    let mut out = Device::new(Vec::new(rt.alloc()));
    check(
        &rt,
        write_ident_as_is(b". J\xf6rg ", b"", time, &mut out).is_ok(),
    );
    check(
        &rt,
        out.into_inner().as_slice() == b". J\xf6rg  <> 0 -0000".as_slice(),
    );
    let mut full = Dribble::new(3);
    let refused = write_ident_as_is(b"A", b"a", time, &mut full);
    check(
        &rt,
        matches!(refused, Err(SignatureError::Write(ErrorKind::StorageFull))),
    );
    laws::as_is_is_shown(b"A", b"a", time);
    laws::places_hold(b"A <a> 5 +0000");
}

#[test]
fn parts_that_no_line_has_are_refused_before_a_byte(rt: HostRuntime) {
    const PARTS: [(&[u8], &[u8]); 4] = [
        (b"A<", b"a"),
        (b"A", b"a>"),
        (b"A\n", b"a"),
        (b"A", b"\0"),
    ];
    for &(name, email) in &PARTS {
        let mut out = Dribble::new(99);
        let refused = write_ident_as_is(name, email, GitTime::new(0, 0), &mut out);
        check(
            &rt,
            matches!(refused, Err(SignatureError::BadPart)) && out.calls == 0,
        );
    }
}

// What `git log` and `git for-each-ref` show of such objects.
#[test]
fn a_header_names_whom_git_shows(rt: HostRuntime) {
    const COMMIT: &[u8] =
        b"tree 4b82\nauthor A <a> 1 +0000\nauthor B <b> 2 +0000\ncommitter C <c> 3 +0000\n\nauthor D <d> 4 +0000\n";
    let author = named(COMMIT, Role::Author).expect(&rt, "an author");
    check(&rt, author.first == b"A <a> 1 +0000".as_slice());
    check(&rt, author.last == b"B <b> 2 +0000".as_slice());
    let committer = named(COMMIT, Role::Committer).expect(&rt, "a committer");
    check(&rt, committer.first == b"C <c> 3 +0000".as_slice());
    check(&rt, named(COMMIT, Role::Tagger).is_none());
    let tagger = named(b"object 4b82\ntagger T <t> 1 +0000", Role::Tagger).expect(&rt, "a tagger");
    check(&rt, tagger.last == b"T <t> 1 +0000".as_slice());
    check(
        &rt,
        named(b"\nauthor A <a> 1 +0000", Role::Author).is_none(),
    );
    let shown = commit_author(COMMIT).expect(&rt, "an identity");
    check(&rt, shown.name == b"B".as_slice() && shown.date.is_some());
    check(&rt, commit_author(b"tree 4b82\n").is_none());
}
