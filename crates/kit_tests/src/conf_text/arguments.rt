//! How arguments are written (slapd.conf(5): quotes keep white space together, and a backslash takes the next byte as it is).

use dir_conf_text::push_argument;

/// Arguments, and what is appended to a line.
static ARGUMENTS: [(&str, &str); 6] = [
    ("suffix", " suffix"),
    ("dc=com", " dc=com"),
    ("", " \"\""),
    ("cn=a b,dc=com", " \"cn=a b,dc=com\""),
    ("cn=J\\C3,dc=com", " \"cn=J\\\\C3,dc=com\""),
    ("say\"so\"", " \"say\\\"so\\\"\""),
];

#[test]
fn an_argument_is_written_so_that_it_is_read(rt: HostRuntime) {
    for (argument, want) in &ARGUMENTS {
        let mut line = Vec::new(rt.alloc());
        push_argument(&mut line, argument.as_bytes()).expect(&rt, "memory");
        assert!(&rt; line.as_slice() == want.as_bytes(), "{argument}");
    }
}
