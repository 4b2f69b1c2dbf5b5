//! Flat configurations that are made over a folder in memory: the files that are opened, and the calls that make the file.

use crate::folder::Folder;
use crate::runs::{ALL, push_calls};
use dir_files::slapconf::{SuffixTeller, run};
use dir_files::{ConfSource, ConfWords};
use dir_names::Texts;
use std::alloc::Global;
use std::process::Abort;

/// How the flat configuration ends, and the report on it.
pub(super) const FLAT: &[u8] =
    b"\ndatabase mdb\nsuffix dc=com\naccess to * by users read\naccess to attrs=cn by * read\n";

pub(super) const COUNTS: &[u8] = b"types 0, rules 1, frontend 1\n";

/// It includes the rules at `changes` twice, and a file that isn't there.
const MAIN: &[u8] = b"include changes\ndatabase mdb\nsuffix dc=net\ninclude changes\n\
database mdb\nsuffix dc=com\naccess to * by users read\n";

const RULE: &[u8] = b"access to attrs=cn by * read\n";

const MISSING: &[u8] = b"include none\ninclude changes\ndatabase mdb\nsuffix dc=com\n";

const NO_PATH: &[u8] = b"include \xff\ndatabase mdb\nsuffix dc=com\n";

const LDIF: &[u8] = b"dn: cn=f\nolcDatabase: {-1}frontend\nolcAccess: {0}to attrs=cn by * read\n\n\
dn: cn=d\nolcSuffix: dc=com\nolcAccess: {0}to * by users read\n";

/// A run over a folder with a configuration at `config`, and what must come of it.
#[derive(Clone, Copy)]
struct Made {
    shows: &'static str,
    config: &'static [u8],
    /// The text at `changes`.
    included: &'static [u8],
    suffix: &'static str,
    source: ConfSource<'static>,
    out: &'static str,
    /// How many calls are done before one is refused.
    good: u64,
    /// The calls, and the fault in which it ends.
    told: &'static str,
}

const MADE: Made = Made {
    shows: "",
    config: MAIN,
    included: RULE,
    suffix: "dc=com",
    source: ConfSource::SlapdConf("config"),
    out: "out",
    good: ALL,
    told: "",
};

static RUNS: [Made; 16] = [
    Made {
        shows: "a file that is included twice is opened once, and all are before the flat configuration is made",
        told: "open config;open changes;create out 644;sync out FLAT;publish out FLAT;report COUNTS;",
        ..MADE
    },
    Made {
        shows: "cn=config is in one file",
        config: LDIF,
        source: ConfSource::CnConfig("config"),
        told: "open config;create out 644;sync out FLAT;publish out FLAT;report COUNTS;",
        ..MADE
    },
    Made {
        shows: "an empty text has no database",
        source: ConfSource::CnConfig("copy"),
        told: "open copy;config: K4 NoDatabase",
        ..MADE
    },
    Made {
        shows: "the flat configuration is not the configuration",
        out: "config",
        told: "same path twice: config",
        ..MADE
    },
    Made {
        shows: "a suffix without RDNs ends it before a file is opened",
        suffix: "",
        told: "bad question: suffix",
        ..MADE
    },
    Made {
        shows: "so does one that is no name",
        suffix: "com",
        told: "bad question: suffix",
        ..MADE
    },
    Made {
        shows: "a configuration that is not there",
        source: ConfSource::SlapdConf("none"),
        told: "open none, refused;cannot open none",
        ..MADE
    },
    Made {
        shows: "LDIF that is not there",
        source: ConfSource::CnConfig("none"),
        told: "open none, refused;cannot open none",
        ..MADE
    },
    Made {
        shows: "a file that can't be opened is told where it is included, and the others are opened",
        config: MISSING,
        told: "open config;open none, refused;open changes;config, line 1: K1 BadInclude",
        ..MADE
    },
    Made {
        shows: "a path that is no UTF-8 is not opened",
        config: NO_PATH,
        told: "open config;config, line 1: K1 BadInclude",
        ..MADE
    },
    Made {
        shows: "a fault in a file that is included has its path",
        included: b"#\ndatabase\n",
        told: "open config;open changes;changes, line 2: K3 BadArguments",
        ..MADE
    },
    Made {
        shows: "a fault of LDIF has none",
        config: b"dn: cn=d\nolcSuffix: com\n",
        source: ConfSource::CnConfig("config"),
        told: "open config;config, line 2: K8 BadName",
        ..MADE
    },
    Made {
        shows: "a file that is there already is left as it is",
        out: "copy",
        told: "open config;open changes;create copy 644, which exists;exists already: copy",
        ..MADE
    },
    Made {
        shows: "a flat configuration that can't be synced",
        good: 1,
        told: "open config;open changes;create out 644;sync out FLAT, refused;discard out;cannot write flat configuration",
        ..MADE
    },
    Made {
        shows: "one that can't be published",
        good: 2,
        told: "open config;open changes;create out 644;sync out FLAT;publish out FLAT, refused;cannot write flat configuration",
        ..MADE
    },
    Made {
        shows: "a report that can't be written",
        good: 3,
        told: "open config;open changes;create out 644;sync out FLAT;publish out FLAT;report COUNTS, refused;withdraw out;cannot write report",
        ..MADE
    },
];

#[test]
fn each_flat_configuration_makes_its_calls_in_their_order(rt: HostRuntime) {
    for made in &RUNS {
        assert_made(&rt, rt.alloc(), made);
    }
}

/// How many suffixes it was handed, if any were.
#[derive(Drop)]
struct Counted(Option<usize>);

impl SuffixTeller for Counted {
    fn keep(&mut self, suffixes: Texts) {
        self.0 = Some(suffixes.as_slice().len());
    }
}

#[test]
fn suffixes_are_told_where_none_is_the_wanted_one(rt: HostRuntime) {
    for (source, suffix, told) in &SUFFIXES {
        let folder = Folder::new(rt.alloc(), b"", RULE, b"", ALL);
        let config = if matches!(source, ConfSource::CnConfig(_)) {
            LDIF
        } else {
            MAIN
        };
        let mut folder = folder.with_config(config);
        let words = ConfWords {
            suffix: *suffix,
            source: *source,
            out: "out",
        };
        let mut teller = Counted(None);
        let is_made = run(rt.alloc(), &mut folder, &mut teller, &words).is_ok();
        assert!(rt; teller.0 == *told && is_made == told.is_none(), "{suffix}");
    }
}

/// Configurations, a suffix, and how many suffixes are told: none where it is found.
static SUFFIXES: [(ConfSource<'static>, &str, Option<usize>); 4] = [
    (ConfSource::SlapdConf("config"), "dc=com", None),
    (ConfSource::SlapdConf("config"), "dc=org", Some(2)),
    (ConfSource::CnConfig("config"), "dc=com", None),
    (ConfSource::CnConfig("config"), "dc=org", Some(1)),
];

fn assert_made(rt: &impl Abort, alloc: Global, made: &Made) {
    let folder = Folder::new(alloc, b"", made.included, b"", made.good);
    let mut folder = folder.with_config(made.config);
    let words = ConfWords {
        suffix: made.suffix,
        source: made.source,
        out: made.out,
    };
    let answer = run(alloc, &mut folder, &mut Counted(None), &words);
    let mut told = String::new(alloc);
    push_calls(rt, &mut told, &folder);
    if let Err(fault) = &answer {
        write!(told, "{fault}").expect(rt, "memory");
    }
    assert!(rt; told.as_str() == made.told, "{}: {told}", made.shows);
}
