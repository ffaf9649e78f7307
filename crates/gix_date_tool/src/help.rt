//! What the program says of itself.
ghost use Rattle.std.specs.Prelude.{◌≡◌, map, option_map, string_bytes};
ghost use Rattle.gix_date_tool.specs as Spec;

/// The version of this repository, which `test_all` compares with that of the library for C.
pub(crate) const VERSION: &str = "gix_date_tool 2.0.0\n";

/// What `--help` prints. The script that builds the program prints it from here.
pub(crate) const HELP: &str = r#"usage: gix_date_tool MODE [NOW]

Answers each line of standard input by a line of standard output.

check   whether the line is the text of a time in a commit header, as Git writes it:
        `canonical`, otherwise the time that it is (leniently) read as, otherwise `none`
            $ printf '1660874655 +0800\n12abc\n' | gix_date_tool check
            canonical
            read 12 0
parse   the date that the line says, as the text of a commit header, or an error that says why there is none
            $ printf '@0\nThu, 14 Feb 2008 20:30:45 -0500\n2008-02-14\n12abc\n' | gix_date_tool parse
            0 +0000
            1203039045 -0500
            1202947200 +0000
            error unknown-format
        With NOW, which is a date that is not relative itself, also dates relative to it, such as `yesterday` or `2 weeks ago`:
            $ printf '2 days ago\nlast week\n' | gix_date_tool parse '1698400800 +0200'
            1698228000 +0200
            1697796000 +0200
sign    the line of a commit or tag that says who wrote it and when, written again from its name, email and time
        (read leniently): a line that Git wrote comes back; `none` where it is no such line
            $ printf 'A U Thor <author@example.com> 1660874655 +0800\nA <a>  12abc\nA <a>\n' | gix_date_tool sign
            A U Thor <author@example.com> 1660874655 +0800
            A <a> 12 +0000
            none
--help, -h   prints this
--version    prints the version

A line that is not UTF-8 is answered by `not text`. Without NOW a relative date is answered by `error missing-moment`. With NOW a
relative date that leads to no time is answered by `error range`. A day that has no instant, such as 9999-12-31, is answered by
`error date-conversion`.
The status is 0 at the end of the input, 1 on a fault, and 2 where the command line is not as above or NOW is not a moment. One
line on standard error reports a fault, or what is wrong with the command line.
For more than 1000000 lines: split -l 1000000 --filter='gix_date_tool MODE' FILE
"#;

/// The text that the words ask for: the first of them does, whatever follows it.
pub(crate) fn text_asked(words: &[String]) -> Option<&'static str>
    ensures { option_map (λ text. text.now) result ≡ Spec.printed_of (map string_bytes words.now) }
{
    match words {
        [word, ..] => text_named(word.as_str()),
        [] => None,
    }
}

/// The text that a word asks for.
fn text_named(word: &str) -> Option<&'static str>
    ensures { option_map (λ text. text.now) result ≡ Spec.text_named word.now }
{
    if word == "--help" || word == "-h" {
        Some(HELP)
    } else if word == "--version" {
        Some(VERSION)
    } else {
        None
    }
}
