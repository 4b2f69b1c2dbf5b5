//! The lines of a configuration (slapd.conf(5), "GENERAL FORMAT"), and what each says.

use dir_conf_text::{
    ConfigLine, ConfigText, Joining, TextLine, begins_with, is_space, line_with_words, line_words,
    text_lines,
};
use dir_names::Bytes;
use std::process::Abort;

/// A comment, an empty line, the definition of a type, and words over two physical lines.
static TEXT: &[u8] = b"# a comment\n\nattributetype ( 1.1 )\naccess to *\r\n  by \"a b\" \"c\n";

#[test]
fn a_text_is_cut_into_the_lines_that_say_something(rt: HostRuntime) {
    let text = ConfigText::cut(rt.alloc(), TEXT).expect(&rt, "memory");
    match text.lines() {
        [definition, words] => {
            assert!(&rt; definition.number == 3 && defines(definition));
            assert!(&rt; words.number == 4 && are_words(words));
        }
        _ => panic!(&rt; "two lines"),
    }
}

#[test]
fn the_definitions_of_a_text_are_cut_alone(rt: HostRuntime) {
    let text = ConfigText::cut_definitions(rt.alloc(), TEXT).expect(&rt, "memory");
    match text.lines() {
        [definition] => assert!(&rt; definition.number == 3 && defines(definition)),
        _ => panic!(&rt; "one line"),
    }
}

fn defines(line: &ConfigLine) -> bool {
    line.words().is_empty() && line.definition() == Some(b" ( 1.1 )".as_slice())
}

fn are_words(line: &ConfigLine) -> bool {
    if line.definition().is_some() {
        return false;
    }
    match line.words() {
        [
            Some(access),
            Some(to),
            Some(all),
            Some(by),
            Some(quoted),
            None,
        ] => {
            is(access, b"access")
                && is(to, b"to")
                && is(all, b"*")
                && is(by, b"by")
                && is(quoted, b"a b")
        }
        _ => false,
    }
}

fn is(word: &Bytes, text: &[u8]) -> bool {
    word.as_slice() == text
}

#[test]
fn a_word_begins_on_its_physical_line(rt: HostRuntime) {
    assert_eq!(&rt; line_with_words(rt.alloc(), TEXT, 4, 3), Ok(4));
    assert_eq!(&rt; line_with_words(rt.alloc(), TEXT, 4, 4), Ok(5));
}

#[test]
fn a_line_with_an_open_quote_has_no_words(rt: HostRuntime) {
    let whole = line_words(rt.alloc(), b"include acl.conf").expect(&rt, "memory");
    match whole {
        Some(words) => assert!(&rt; words.as_slice().len() == 2),
        None => panic!(&rt; "no words"),
    }
    let open = line_words(rt.alloc(), b"include \"acl.conf").expect(&rt, "memory");
    assert!(&rt; open.is_none());
}

/// A line that ends in a backslash, one that begins with a form feed, and an include that ends with its line.
static JOINED: &[u8] = b"access to *\\\n by self\n\x0Cread\ninclude a\n b\n";

#[test]
fn lines_are_joined_as_slapd_does(rt: HostRuntime) {
    let lines = text_lines(rt.alloc(), JOINED, Joining::AsSlapd).expect(&rt, "memory");
    match lines.as_slice() {
        [rule, include, white] => {
            assert!(&rt; is_at(rule, 1, b"access to * by self read"));
            assert!(&rt; is_at(include, 4, b"include a") && is_at(white, 5, b" b"));
        }
        _ => panic!(&rt; "three lines"),
    }
}

#[test]
fn lines_are_joined_plainly(rt: HostRuntime) {
    let lines = text_lines(rt.alloc(), JOINED, Joining::Plain).expect(&rt, "memory");
    match lines.as_slice() {
        [rule, read, include, end] => {
            assert!(&rt; is_at(rule, 1, b"access to *\\ by self") && is_at(read, 3, b"\x0Cread"));
            assert!(&rt; is_at(include, 4, b"include a b") && is_at(end, 6, b""));
        }
        _ => panic!(&rt; "four lines"),
    }
}

fn is_at(line: &TextLine, number: u64, text: &[u8]) -> bool {
    line.number == number && line.text.as_slice() == text
}

#[test]
fn lines_are_taken_with_their_words(rt: HostRuntime) {
    let text = ConfigText::cut(rt.alloc(), TEXT).expect(&rt, "memory");
    let lines = text.into_lines();
    assert!(&rt; lines.len() == 2 && lines.as_slice().iter().all(|line| line.number > 2));
}

#[test]
fn keywords_and_white_space_are_told(rt: HostRuntime) {
    assert!(&rt; begins_with(b"Include a", b"include") && !begins_with(b"incl", b"include"));
    assert!(&rt; is_space(b'\x0B') && !is_space(b'\0'));
}
