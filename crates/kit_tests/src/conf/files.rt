//! Flat configurations of files that include one another (slapd.conf(5)), and the faults of such files.

use crate::conf::flat::after_own_types;
use dir_conf::{ConfFault, ConfFile, FileFault, Flat, flat_of_files, includes_in};
use dir_names::{Bytes, Dn, Schema};
use std::alloc::{AllocError, Global};
use std::process::Abort;

/// A configuration: each file's path in a line of its own after `== `, with its text below; and what the flat configuration of dc=com has after its
/// first line and slapd's own types.
struct Row {
    files: &'static str,
    flat: &'static str,
}

static FLAT: [Row; 8] = [
    // rules before the first database are the frontend's, and come after those of the database
    Row {
        files: "== a\naccess to * by * read\ndatabase mdb\nsuffix dc=com\nrootdn \"cn=a b,dc=com\"\nrootpw secret\naccess to attrs=cn\n by * none\n",
        flat: "database mdb\nsuffix dc=com\nrootdn \"cn=a b,dc=com\"\naccess to attrs=cn by * none\naccess to * by * read\n",
    },
    // a file that is included stands where its line is, and the part that it begins goes on after it
    Row {
        files: "== a\ninclude b\naccess to cn=* by * read\n== b\ndatabase mdb\nsuffix dc=com\ninclude c\n== c\naccess to * by * none",
        flat: "database mdb\nsuffix dc=com\naccess to * by * none\naccess to cn=* by * read\n",
    },
    // of several databases one is taken; what is said of config and monitor is passed over, and of the frontend taken
    Row {
        files: "== a\ndatabase config\naccess to * by * manage\ndatabase mdb\nsuffix dc=net\naccess to * by * write\n\
database FRONTEND\naccess to * by * auth\nDatabase mdb\nSuffix DC=com\noverlay memberof\nAccess to * by * search\ndatabase monitor\naccess to * by * read\n",
        flat: "database mdb\nsuffix DC=com\naccess to * by * search\naccess to * by * auth\n",
    },
    // macros, and the first words that a definition can have
    Row {
        files: "== a\nobjectidentifier Site 1.2\nObjectIdentifier Types Site:1\nattributetype ( Types:7\n\tNAME 'room' )\nATTRIBUTE ( 1.3 )\n\
attributeoptions x-\ndatabase mdb\nsuffix dc=com\nattributetypes ( Site:8 NAME \"a )\n",
        flat: "attributetype ( 1.2.1.7 NAME 'room' )\nattributetype ( 1.3 )\nattributetype ( 1.2.8 NAME \"a )\ndatabase mdb\nsuffix dc=com\n",
    },
    // a file is included as often as a line says so; a path may stand in quotes
    Row {
        files: "== a\ndatabase mdb\nsuffix dc=net\ninclude \"r s\"\ndatabase mdb\nsuffix dc=com\ninclude \"r s\"\n== r s\n# rules\naccess to * by * read\n",
        flat: "database mdb\nsuffix dc=com\naccess to * by * read\n",
    },
    // a backslash that ends a line takes the next line to it as it is, also in a comment
    Row {
        files: "== a\n# note \\\naccess to cn=x by * read\ndatabase mdb\nsuffix dc=com\naccess to attrs=c\\\nn,sn\\\\\n by * read\n",
        flat: "database mdb\nsuffix dc=com\naccess to \"attrs=cn,sn\\\\\" by * read\n",
    },
    // a line that includes a file is never continued
    Row {
        files: "== a\ninclude b\n access to attrs=cn by * read\ndatabase mdb\nsuffix dc=com\n== b\n",
        flat: "database mdb\nsuffix dc=com\naccess to attrs=cn by * read\n",
    },
    // words are written so that they are read as they were
    Row {
        files: "== a\ndatabase mdb\nsuffix \"dc=com\"\naccess to dn.base=\"cn=a\\\\2Cb,dc=com\" by * none\n",
        flat: "database mdb\nsuffix dc=com\naccess to \"dn.base=cn=a\\\\2Cb,dc=com\" by * none\n",
    },
];

#[test]
fn files_have_flat_configurations(rt: HostRuntime) {
    for row in &FLAT {
        assert_flat(&rt, rt.alloc(), row);
    }
}

fn assert_flat(rt: &impl Abort, alloc: Global, row: &Row) {
    let flat = flat(rt, alloc, row.files).expect(rt, row.files);
    assert!(rt;
        after_own_types(rt, flat.text.as_slice()) == row.flat.as_bytes(),
        "{}",
        row.files
    );
}

fn flat(rt: &impl Abort, alloc: Global, files: &str) -> Result<Flat, FileFault> {
    let schema = Schema::builtin(alloc).expect(rt, "memory");
    let name = Dn::read(alloc, b"dc=com").expect(rt, "a name");
    let suffix = name.key(alloc, &schema).expect(rt, "a key");
    let files = files_in(rt, alloc, files);
    flat_of_files(alloc, &schema, &suffix, files.as_slice())
}

/// The files that a text has. The text of one is its own, but for `-`, which says that it can't be read.
fn files_in(rt: &impl Abort, alloc: Global, text: &str) -> Vec<ConfFile> {
    let mut files = Vec::new(alloc);
    for part in text.split("== ") {
        if let Some((path, text)) = part.split_once('\n') {
            let path = Bytes::copy_of(alloc, path.as_bytes()).expect(rt, "memory");
            let text = (text != "-\n").then_some(text);
            let text = text.map(|text| Bytes::copy_of(alloc, text.as_bytes()).expect(rt, "memory"));
            files.push(ConfFile { path, text }).expect(rt, "memory");
        }
    }
    files
}

/// Configurations, and their faults with the file and the number of the line.
static FAULTS: [(&str, &str); 23] = [
    ("", "K4 NoDatabase"),
    ("== a\ndatabase mdb\nsuffix dc=net\n", "K4 NoDatabase"),
    ("== a\nsuffix dc=com\n", "K4 NoDatabase"),
    ("== a\n\ninclude b\n", "a 2 K1 BadInclude"),
    ("== a\ninclude b\n== b\n-\n", "a 1 K1 BadInclude"),
    ("== a\ninclude b\n== b\n#\ninclude a\n", "b 2 K1 BadInclude"),
    ("== a\ninclude\n", "a 1 K1 BadInclude"),
    ("== a\ninclude b c\n== b\n== c\n", "a 1 K1 BadInclude"),
    (
        "== a\ninclude b\nx \"\n== b\nx\ny \\\n",
        "b 2 K3 BadArguments",
    ),
    ("== a\ninclude b\nx \"\n== b\nx\n", "a 2 K3 BadArguments"),
    // slapd takes these as definitions
    (
        "== a\n\"attributetype\" ( 1.2 NAME 'a' )\n",
        "a 1 K3 BadArguments",
    ),
    (
        "== a\ninclude b\n== b\n\nattr\"ibute\" ( 1.2 )\n",
        "b 2 K3 BadArguments",
    ),
    ("== a\nobjectidentifier Site\n", "a 1 K3 BadArguments"),
    ("== a\nobjectidentifier Site 1.2 x\n", "a 1 K3 BadArguments"),
    ("== a\ndatabase\n", "a 1 K3 BadArguments"),
    ("== a\ndatabase mdb\nsuffix\n", "a 2 K3 BadArguments"),
    (
        "== a\ndatabase mdb\nsuffix dc=net dc=com\n",
        "a 2 K3 BadArguments",
    ),
    ("== a\ndatabase mdb\nsuffix com\n", "a 2 K8 BadName"),
    (
        "== a\ndatabase mdb\nsuffix dc=com\ninclude b\n== b\ndatabase mdb\nsuffix DC=COM\n",
        "b 2 K5 SecondDatabase",
    ),
    (
        "== a\ndatabase mdb\nsuffix dc=com\ndatabase mdb\nsuffix dc=x,dc=com\n",
        "a 4 K6 Subordinate",
    ),
    (
        "== a\ndatabase mdb\nsuffix dc=x,dc=com\ndatabase mdb\nsuffix dc=com\n",
        "a 2 K6 Subordinate",
    ),
    // the faults of lines come before those of definitions, and these before those of databases
    (
        "== a\ndatabase\nobjectidentifier x\nx \"\n",
        "a 3 K3 BadArguments",
    ),
    (
        "== a\ndatabase\nobjectidentifier x\n",
        "a 2 K3 BadArguments",
    ),
];

#[test]
fn faults_have_their_files_and_lines(rt: HostRuntime) {
    for (files, want) in &FAULTS {
        assert_fault(&rt, rt.alloc(), files, want);
    }
}

fn assert_fault(rt: &impl Abort, alloc: Global, files: &str, want: &str) {
    let Err(fault) = flat(rt, alloc, files) else {
        panic!(rt; "{files}");
    };
    let text = shown(alloc, &fault).expect(rt, "memory");
    assert!(rt; text.as_str() == want, "{files}: {text}");
}

fn shown(alloc: Global, fault: &FileFault) -> Result<String, AllocError> {
    let cause = fault.fault;
    match (&fault.file, cause.line()) {
        (Some(file), Some(line)) => match str::from_utf8(file.as_slice()) {
            Ok(file) => format!(in alloc; "{file} {line} {cause}"),
            Err(_) => format!(in alloc; "? {line} {cause}"),
        },
        (Some(_), None) | (None, Some(_)) => format!(in alloc; "a place without a line"),
        (None, None) => format!(in alloc; "{cause}"),
    }
}

/// A file that includes itself is 16 files deep once it is refused, and its lines stand in all of them.
#[test]
fn the_sixteenth_file_includes_no_other(rt: HostRuntime) {
    let alloc = rt.alloc();
    let chain =
        "== 1\ninclude 2\n== 2\ninclude 3\n== 3\ninclude 4\n== 4\ninclude 5\n== 5\ninclude 6\n== 6\ninclude 7\n== 7\ninclude 8\n\
== 8\ninclude 9\n== 9\ninclude 10\n== 10\ninclude 11\n== 11\ninclude 12\n== 12\ninclude 13\n== 13\ninclude 14\n== 14\ninclude 15\n\
== 15\ninclude 16\n== 16\ndatabase mdb\nsuffix dc=com\n";
    assert!(&rt; flat(&rt, alloc, chain).is_ok());
    assert_fault(&rt, alloc, "== a\ninclude a\n", "a 1 K1 BadInclude");
    let longer = format!(in alloc; "{chain}include 17\n== 17\n").expect(&rt, "memory");
    assert_fault(&rt, alloc, longer.as_str(), "16 3 K1 BadInclude");
}

/// Twice eight million bytes and a little are too many, though the files have less.
#[test]
fn a_text_counts_as_often_as_it_is_included(rt: HostRuntime) {
    let alloc = rt.alloc();
    let mut text = Vec::new(alloc);
    text.resize(8_388_600, b'#').expect(&rt, "memory");
    let mut files = files_in(&rt, alloc, "== a\ninclude b\ninclude b\n");
    let path = Bytes::copy_of(alloc, b"b").expect(&rt, "memory");
    let text = Some(Bytes::new(text));
    files.push(ConfFile { path, text }).expect(&rt, "memory");
    let schema = Schema::builtin(alloc).expect(&rt, "memory");
    let name = Dn::read(alloc, b"dc=com").expect(&rt, "a name");
    let suffix = name.key(alloc, &schema).expect(&rt, "a key");
    let Err(fault) = flat_of_files(alloc, &schema, &suffix, files.as_slice()) else {
        panic!(&rt; "no fault");
    };
    assert!(&rt; fault.fault == ConfFault::TooLong && fault.file.is_none());
}

#[test]
fn a_text_has_the_paths_that_it_includes(rt: HostRuntime) {
    let text =
        b"include a\n# include b\nInclude \"c d\"\naccess include e\nINCLUDE\n f\ninclude g h\n";
    let paths = includes_in(rt.alloc(), text).expect(&rt, "memory");
    let wanted = ["a", "c d"];
    assert!(&rt; paths.as_slice().len() == wanted.len());
    for (path, want) in paths.as_slice().iter().zip(&wanted) {
        assert!(&rt; path.as_slice() == want.as_bytes(), "{want}");
    }
}
