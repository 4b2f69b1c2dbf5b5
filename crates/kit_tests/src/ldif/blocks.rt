//! The blocks of texts that are read at once, and the names and values of their lines.

use dir_ldif::{Line, StreamFault, line_parts, read_blocks};
use std::alloc::Global;
use std::process::Abort;

/// Texts, and their lines: of each its number, and its name and its value or its fault. A block ends in a `;`. What a text ends
/// in, if that is a fault, is all that is told of it. The first four are parts of the examples of RFC 2849.
static TEXTS: [(&str, &str); 12] = [
    (
        "version: 1\ndn: cn=Barbara Jensen, ou=Product Development, dc=airius, dc=com\ncn: Barbara Jensen\n\ndn: cn=Bjorn Jensen, ou=Accounting, dc=airius, dc=com\nsn: Jensen\n",
        "2 dn=cn=Barbara Jensen, ou=Product Development, dc=airius, dc=com|3 cn=Barbara Jensen|;5 dn=cn=Bjorn Jensen, ou=Accounting, dc=airius, dc=com|6 sn=Jensen|;",
    ),
    (
        "version: 1\ndn:cn=Barbara Jensen, ou=Product Development, dc=airius, dc=com\ndescription:Babs is a big sailing fan, and travels extensively in sea\n rch of perfect sailing conditions.\ntitle:Product Manager, Rod and Reel Division\n",
        "2 dn=cn=Barbara Jensen, ou=Product Development, dc=airius, dc=com|3 description=Babs is a big sailing fan, and travels extensively in search of perfect sailing conditions.|5 title=Product Manager, Rod and Reel Division|;",
    ),
    (
        "version: 1\ndn:: b3U95Za25qWt6YOoLG89QWlyaXVz\n# dn:: ou=<JapaneseOU>,o=Airius\nobjectclass: top\nou;lang-en: Sales\n",
        "2 dn=ou=営業部,o=Airius|4 objectclass=top|5 ou;lang-en=Sales|;",
    ),
    (
        "version: 1\ndn: cn=Horatio Jensen, ou=Product Testing, dc=airius, dc=com\ntelephonenumber: +1 408 555 1212\njpegphoto:< file:///usr/local/directory/photos/hjensen.jpg\n",
        "2 dn=cn=Horatio Jensen, ou=Product Testing, dc=airius, dc=com|3 telephonenumber=+1 408 555 1212|4 L3 UrlValue|;",
    ),
    ("", ""),
    ("version: 1\n\n\n# a comment\n\n", ""),
    // A line may be no line of a record: its fault is its own, and reading goes on.
    (
        "\n-\n: a\na:: YQ\na: \0\na:\n\n\n b\r\na:b\r\n\r\nc: d",
        "2 L1 BadLine|3 L1 BadLine|4 L2 BadBase64|5 L1 BadLine|6 a=|;9 L1 BadLine|10 a=b|;12 c=d|;",
    ),
    // A later version line is a line like any other; a first one must say 1.
    ("a: b\nversion: 2\n", "1 a=b|2 version=2|;"),
    ("VERSION: 1\nversion: 2\n", "2 version=2|;"),
    ("# a\nversion: 2\n\na: b\n", "L15 BadVersion"),
    ("version:: MQ==\n", "L15 BadVersion"),
    // A mark of a group is a comment.
    ("# undo 2\na: b\n\n# undo 7\n", "2 a=b|;"),
];

#[test]
fn blocks_are_read(rt: HostRuntime) {
    for (text, want) in &TEXTS {
        let out = shown(&rt, rt.alloc(), text.as_bytes());
        assert!(rt; out.as_str() == *want, "{out}");
    }
}

#[test]
fn line_that_is_too_long_ends_the_text(rt: HostRuntime) {
    assert!(rt; fault_of_long(&rt, rt.alloc(), 2_097_152).is_none());
    assert!(rt; fault_of_long(&rt, rt.alloc(), 2_097_153) == Some(StreamFault::LineTooLong));
}

/// The fault in which a text ends that has, after a block, a comment of so many bytes.
fn fault_of_long(rt: &impl Abort, alloc: Global, length: usize) -> Option<StreamFault> {
    let comment = vec![in alloc; b'#'; length].expect(rt, "memory");
    let mut text = b"a: b\n\n".to_vec(alloc).expect(rt, "memory");
    text.extend_from_slice(comment.as_slice())
        .expect(rt, "memory");
    read_blocks(alloc, text.as_slice()).err()
}

/// What a text reads as.
fn shown(rt: &impl Abort, alloc: Global, text: &[u8]) -> String {
    let mut out = String::new(alloc);
    match read_blocks(alloc, text) {
        Ok(blocks) => {
            for block in &blocks {
                push_block(rt, alloc, &mut out, block.as_slice());
            }
        }
        Err(fault) => write!(out, "{fault}").expect(rt, "memory"),
    }
    out
}

fn push_block(rt: &impl Abort, alloc: Global, out: &mut String, block: &[Line]) {
    for line in block {
        push_parts(rt, alloc, out, line);
    }
    out.push(';').expect(rt, "memory");
}

/// Appends a line's number, and its name and its value, or its fault.
fn push_parts(rt: &impl Abort, alloc: Global, out: &mut String, line: &Line) {
    let number = line.number();
    match line_parts(alloc, line.text()).expect(rt, "memory") {
        Ok((name, value)) => {
            let name = str::from_utf8(name).expect(rt, "UTF-8");
            let value = String::from_utf8(value).expect(rt, "UTF-8");
            write!(out, "{number} {name}={value}|").expect(rt, "memory");
        }
        Err(fault) => write!(out, "{number} {fault}|").expect(rt, "memory"),
    }
}
