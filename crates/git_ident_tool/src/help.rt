//! What the program says of itself.

/// How the program is called.
pub(crate) const USAGE: &str = "usage: git_ident [--all] [--lines]\n";

/// The version of this repository, which `test_all` compares with that of the library for C.
pub(crate) const VERSION: &str = "git_ident 2.0.0\n";

/// What `--help` prints. The script that builds the program prints it from here.
pub(crate) const HELP: &str = r#"usage: git_ident [--all] [--lines]

Finds the identity lines that `git fsck` says something of. It reads what `git cat-file --batch` prints:

    $ git cat-file --batch-all-objects --batch | git_ident
    003d700453dc16da57e30513e4e4f1c95bf7c170 author badDate: A U Thor <author@example.com> 1660874655

Each such author, committer or tagger line is printed after its object's id, its role and Git's message, and no other. Trees and blobs
are skipped. Of a commit or tag only its own header is looked at, a line at a time.

--all          prints each such line, with `ok` where `git fsck` says nothing
--lines        takes lines without ids and roles: MESSAGE: LINE
--help, -h     prints this
--version      prints the version

The status is 0 if `git fsck` says nothing of any line, 1 if it does or on a fault, and 2 where the command line is not as above. One line
on standard error reports a fault. `git fsck` ends an object at its first error; this prints each line.
"#;
