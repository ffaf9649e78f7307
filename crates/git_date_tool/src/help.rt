//! What the program says of itself.

/// How the program is called.
pub(crate) const USAGE: &str =
    "usage: git_date [--now NOW] [--zone ZONE] [--as READER] [--show MODE] [--strict|--lenient] [--] [TEXT]...\n";

/// The version of this repository, which `test_all` compares with that of the library for C.
pub(crate) const VERSION: &str = "git_date 2.0.0\n";

/// What `--help` prints. The script that builds the program prints it from here.
pub(crate) const HELP: &str =
    r#"usage: git_date [--now NOW] [--zone ZONE] [--as READER] [--show MODE] [--strict|--lenient] [--] [TEXT]...

Reads dates as Git does. Answers each text by a line: the date, or `error`, the refusal's name and its place in bytes. Quote a text of
words. Without a text each line of standard input is one, answered before more is read; where it is not UTF-8, careful, gix and
header answer `not text`.

    $ git_date --now @1251660000 --zone +0000 'last friday at noon' '5 mins ago' friday
    1251460800 +0000
    1249500000 +0000
    git_date: text 2: ignored from byte 2: mins
    error not-understood
    git_date: each word is a text by itself; quote a text of several words

--now NOW      the moment that dates are relative to; else the clock's: a date as `exact` reads it, all of it, in ZONE where it names no
               offset, or else as gix reads it, but for relative ones
--zone ZONE    the zone of dates without an offset: an offset (+0200), a rule (EST5EDT,M3.2.0,M11.1.0), a name of the time zone
               database (Europe/Berlin), or a TZif file by its path, which begins with / or ./; else that of TZ, or the machine's.
               Files that count leap seconds are refused.
--as READER    approxidate   as Git reads --since and REF@{..} (the default)
               exact         as Git reads GIT_COMMITTER_DATE
               careful       by gix-date, where each character of the text has to count
               gix           as the crate gix-date reads dates: in UTC without an offset, but for relative ones
               header        as gix-date reads the time of a commit's header, leniently: 1660874655 +0800
--show MODE    what `git log --date=MODE` shows: relative, iso8601-strict (iso-strict), iso8601 (iso), rfc2822 (rfc), short, default,
               human, raw (the default) or unix, alone or before -local, and local; format:FORMAT or format-local:FORMAT, as in
               format:%Y-%m-%d, also of more lines than one; or a format of gix-date: SHORT, RFC2822, GIT_RFC2822, ISO8601,
               ISO8601_STRICT, GITOXIDE, DEFAULT, UNIX or RAW
--strict       a text of which a word is ignored is an error, and so is a header that is not canonical. Else a line on standard
               error tells of such a word.
--lenient      a text of which approxidate understands nothing is now, as for Git. Else it is an error. (Each number counts as
               understood: 12345 is now, and a line tells that it is ignored.)
--help, -h     prints this
--version      prints the version

A value may stand after `=`, as in --zone=+0200. The status is 0 if each text was read and shown, 1 if one was not or on a fault, and 2
where the command line is not as above or there is no zone: then a line on standard error says what is wrong.

Of refusals, unreadable, unknown-format, no-header, unclear and not-understood mean that the reader does not understand the text, or what
stands at the place, and ignored, by --strict, that it skips a word. number-too-large, back-too-far, year-refused, range and
date-conversion mean that there is no such date, or Git refuses it; after-year-9999, that seconds for careful are perhaps milliseconds,
or a date and a clock in digits alone (`@` before them reads them); missing-moment, that the date is relative where none may be;
not-canonical, that a header is not as Git writes it; not-shown, that MODE cannot show the date.
"#;
