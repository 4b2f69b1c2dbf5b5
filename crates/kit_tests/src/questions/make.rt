//! What the tests are asked of: a configuration, a copy, and a run over them.

use dir_ldif::Reader;
use dir_names::Schema;
use dir_questions::{QuestionOptions, QuestionsFault, Tally, run_questions};
use dir_tools::Buffer;
use std::alloc::Global;
use std::process::Abort;

/// Trainees may compare mail, and nobody but its owner sees a password (slapd.access(5)).
pub(crate) const CONFIG: &str =
    "database mdb\nsuffix dc=com\naccess to attrs=userPassword by self write by anonymous auth by * none\naccess to attrs=mail by dn.children=\"ou=trainees,dc=com\" compare by * read\naccess to attrs=telephoneNumber by * none\naccess to * by * read\n";

pub(crate) const COPY: &str =
    "dn: dc=com\nobjectClass: domain\n\ndn: ou=people,dc=com\nobjectClass: organizationalUnit\n\ndn: uid=zoe,ou=people,dc=com\nobjectClass: inetOrgPerson\nmail: zoe@example.com\n\n";

pub(crate) fn schema(rt: &impl Abort, alloc: Global) -> Schema {
    Schema::builtin(alloc).expect(rt, "a schema")
}

/// A run over a configuration, questions and a copy.
fn run(
    alloc: Global,
    schema: &Schema,
    texts: [&str; 3],
    answers: &mut Buffer,
    report: &mut Buffer,
) -> Result<Tally, QuestionsFault> {
    let options = QuestionOptions {
        answers: true,
        verbose: true,
    };
    run_questions(
        alloc,
        schema,
        options,
        &mut Reader::new(texts[0].as_bytes()),
        &mut Reader::new(texts[1].as_bytes()),
        &mut Reader::new(texts[2].as_bytes()),
        answers,
        report,
    )
}

/// The verbose report, a line `--`, and the questions with their answers; or the fault, and all that was written.
pub(crate) fn told(rt: &impl Abort, alloc: Global, texts: [&str; 3]) -> String {
    let schema = schema(rt, alloc);
    let mut answers = Buffer::new(alloc);
    let mut report = Buffer::new(alloc);
    let result = run(alloc, &schema, texts, &mut answers, &mut report);
    shown(rt, alloc, result, report.as_slice(), answers.as_slice())
}

fn shown(
    rt: &impl Abort,
    alloc: Global,
    outcome: Result<Tally, QuestionsFault>,
    report: &[u8],
    answers: &[u8],
) -> String {
    let report = str::from_utf8(report).expect(rt, "UTF-8");
    let answers = str::from_utf8(answers).expect(rt, "UTF-8");
    match outcome {
        Ok(_) => format!(in alloc; "{report}--\n{answers}").expect(rt, "memory"),
        Err(fault) => format!(in alloc; "{fault}{report}{answers}").expect(rt, "memory"),
    }
}
