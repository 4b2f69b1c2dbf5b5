//! Questions that are read by themselves, the notes on their words, and then the answers.

use crate::questions::make::{CONFIG, COPY, schema};
use dir_acl::{Note, NoteCause};
use dir_ldif::Reader;
use dir_names::Schema;
use dir_questions::{
    Block, QuestionOptions, answer_questions, read_lines, read_questions, with_notes_on_questions,
};
use dir_tools::{Buffer, HeldMemory, read_config};
use std::alloc::Global;
use std::process::Abort;

const QUESTIONS: &str =
    "dn: dc=com\ngn:\nentry:\n\n# a comment\ndn: dc=com\nmail/read:\nchildren/write:\ngn/read:\n";

const ANSWERS: &str =
    "dn: dc=com\ngn: =rscxd\nentry: =rscxd\n\ndn: dc=com\nmail/read: ALLOWED\nchildren/write: DENIED\ngn/read: ALLOWED\n\n";

const REPORT: &str = "as expected 0, otherwise 0, asked 5\n";

#[test]
fn words_of_unknown_types_have_notes_and_answers(rt: HostRuntime) {
    let alloc = rt.alloc();
    let schema = schema(&rt, alloc);
    let lines = read_lines(alloc, &mut Reader::new(QUESTIONS.as_bytes())).expect(&rt, "lines");
    let blocks = read_questions(alloc, &schema, lines.as_slice()).expect(&rt, "questions");
    assert_noted(&rt, alloc, &schema, blocks.as_slice());
    assert_answered(&rt, alloc, &schema, blocks.as_slice());
}

fn assert_noted(rt: &impl Abort, alloc: Global, schema: &Schema, blocks: &[Block<'_>]) {
    let notes = with_notes_on_questions(alloc, schema, Vec::new(alloc), blocks);
    let notes = notes.expect(rt, "memory");
    let notes = notes.as_slice();
    assert!(rt; notes.len() == 2);
    assert!(rt; is_note_on(notes.get(0), 2, b"gn", b"gn"));
    assert!(rt; is_note_on(notes.get(1), 9, b"gn/read", b"gn"));
}

/// Whether this is the note on a word at this line, which asks for an attribute of this description.
fn is_note_on(note: Option<&Note>, at: u64, word: &[u8], attr: &[u8]) -> bool {
    let Some(Note { line, cause }) = note else {
        return false;
    };
    match cause {
        NoteCause::UnknownInWord(text, description) => {
            *line == at && text.as_slice() == word && description.as_slice() == attr
        }
        _ => false,
    }
}

fn assert_answered(rt: &impl Abort, alloc: Global, schema: &Schema, blocks: &[Block<'_>]) {
    let config = read_config(alloc, schema, &mut Reader::new(CONFIG.as_bytes()));
    let (_, config) = config.expect(rt, "a configuration");
    let options = QuestionOptions {
        answers: true,
        verbose: false,
    };
    let mut answers = Buffer::new(alloc);
    let mut report = Buffer::new(alloc);
    let tally = answer_questions(
        alloc,
        HeldMemory::Freed,
        schema,
        options,
        &config,
        blocks,
        &mut Reader::new(COPY.as_bytes()),
        &mut answers,
        &mut report,
    );
    assert!(rt; tally.expect(rt, "answers").asked == 5);
    assert!(rt; report.as_slice() == REPORT.as_bytes());
    assert!(rt; answers.as_slice() == ANSWERS.as_bytes());
}
