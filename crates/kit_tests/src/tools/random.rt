//! Runs of changes drawn at random, there and back, over a tree and over a flat directory.

use crate::tools::running::{
    ACCEPTED, COM, GO_ON, Ran, Run, STOP, WHOLE, assert_text, run_back, run_both, with_texts,
};
use dir_tools::ModifyOptions;
use std::alloc::Global;
use std::process::Abort;

/// Numbers that look random, the same for each seed: the generator of Knuth's MMIX.
#[derive(Drop)]
struct Draws {
    state: u64,
}

impl Draws {
    /// The next number below `bound`.
    fn below(&mut self, bound: u64) -> u64 {
        self.state = self
            .state
            .wrapping_mul(6364136223846793005)
            .wrapping_add(1442695040888963407);
        (self.state >> 33) % bound.max(1)
    }

    /// One of these texts.
    fn pick<'a>(&mut self, texts: &[&'a str]) -> &'a str {
        let at = self.below(texts.len() as u64);
        texts.get(at as usize).copied().unwrap_or("")
    }
}

/// Names of entries, spelled in more than one way. Some are below others.
const NAMES: [&str; 8] = [
    "cn=a,dc=com",
    "CN=A,dc=com",
    "cn=b,dc=com",
    "cn=c,cn=a,dc=com",
    "cn=a,cn=b,dc=com",
    "sn=x+cn=a,dc=com",
    "cn=c,cn=c,cn=a,dc=com",
    "cn=b,cn=a,cn=b,dc=com",
];

/// What follows the name of an add.
const ADDS: [&str; 4] = [
    "changetype: add\n",
    "changetype: add\nsn: X\ndescription: one\n",
    "changetype: add\nCN: A\ndescription:: IHR3byA=\n",
    "changetype: add\nuidNumber: 7\nSN: y\n",
];

/// What follows the name of a modify.
const MODIFIES: [&str; 6] = [
    "changetype: modify\nadd: description\ndescription: two\n-\n",
    "changetype: modify\nreplace: Description\nDescription: One\n-\n",
    "changetype: modify\ndelete: description\n-\nadd: sn\nsn: z\n-\n",
    "changetype: modify\nreplace: cn\ncn: a\ncn: b\n-\n",
    "changetype: modify\ndelete: cn\ncn: b\n-\n",
    "changetype: modify\nreplace: uidNumber\nuidNumber: 8\n-\n",
];

/// What follows the name of a rename.
const RENAMES: [&str; 8] = [
    "changetype: modrdn\nnewrdn: cn=a\ndeleteoldrdn: 1\n",
    "changetype: modrdn\nnewrdn: CN=A\ndeleteoldrdn: 0\n",
    "changetype: modrdn\nnewrdn: cn=b\ndeleteoldrdn: 1\n",
    "changetype: modrdn\nnewrdn: cn=c+sn=X\ndeleteoldrdn: 1\n",
    "changetype: modrdn\nnewrdn: cn=a\ndeleteoldrdn: 1\nnewsuperior: dc=com\n",
    "changetype: modrdn\nnewrdn: cn=c\ndeleteoldrdn: 0\nnewsuperior: CN=A,dc=com\n",
    "changetype: modrdn\nnewrdn: cn=a\ndeleteoldrdn: 1\nnewsuperior: cn=b,dc=com\n",
    "changetype: modrdn\nnewrdn: cn=b\ndeleteoldrdn: 1\nnewsuperior: cn=a,cn=b,dc=com\n",
];

/// What follows a name: more adds than deletes, so that most names have an entry.
fn body_of(draws: &mut Draws) -> &'static str {
    match draws.below(8) {
        0 => "changetype: delete\n",
        1 | 2 | 3 => draws.pick(&ADDS),
        4 | 5 => draws.pick(&MODIFIES),
        _ => draws.pick(&RENAMES),
    }
}

/// A text of as many changes.
fn changes_of(rt: &impl Abort, alloc: Global, draws: &mut Draws, count: usize) -> String {
    let mut changes = String::new(alloc);
    for _ in 0..count {
        let name = draws.pick(&NAMES);
        let body = body_of(draws);
        write!(changes, "dn: {name}\n{body}\n").expect(rt, "memory");
    }
    changes
}

#[test]
fn random_changes_are_taken_back_over_both_directories(rt: HostRuntime) {
    for seed in 0..20u64 {
        assert_taken_back(&rt, rt.alloc(), seed);
    }
}

static DRAWN: Run<'static> = Run {
    options: GO_ON,
    ..ACCEPTED
};

/// Asserts that a hundred changes drawn from this seed are taken back.
fn assert_taken_back(rt: &impl Abort, alloc: Global, seed: u64) {
    let changes = changes_of(rt, alloc, &mut Draws { state: seed }, 100);
    let one = with_texts(&DRAWN, COM, changes.as_str());
    let there = run_both(rt, alloc, &WHOLE, &one);
    let back = run_back(rt, alloc, &one, &there);
    assert_text(rt, changes.as_str(), back.out.as_str(), COM);
}

#[test]
fn random_changes_go_back_to_their_middle(rt: HostRuntime) {
    for seed in 0..20u64 {
        assert_goes_back(&rt, rt.alloc(), seed);
    }
}

fn accepted(ran: &Ran) -> u64 {
    match ran.answer {
        Ok(summary) => summary.accepted,
        Err(_) => 0,
    }
}

/// Asserts that after a hundred changes drawn from this seed what was accepted of the last fifty is taken back, and made again.
fn assert_goes_back(rt: &impl Abort, alloc: Global, seed: u64) {
    let there = ran_of(rt, alloc, seed, 100);
    let middle = ran_of(rt, alloc, seed, 50);
    assert_goes_back_to(rt, alloc, &there, &middle);
}

/// The run of as many changes drawn from this seed.
fn ran_of(rt: &impl Abort, alloc: Global, seed: u64, count: usize) -> Ran {
    let changes = changes_of(rt, alloc, &mut Draws { state: seed }, count);
    run_both(
        rt,
        alloc,
        &WHOLE,
        &with_texts(&DRAWN, COM, changes.as_str()),
    )
}

/// Asserts that a run goes back to the end of another, whose changes are its first ones, and forth again.
fn assert_goes_back_to(rt: &impl Abort, alloc: Global, there: &Ran, middle: &Ran) {
    let one = Run {
        options: ModifyOptions {
            last: Some(accepted(there).saturating_sub(accepted(middle))),
            ..STOP
        },
        ..with_texts(&DRAWN, there.out.as_str(), there.undo.as_str())
    };
    let back = run_both(rt, alloc, &WHOLE, &one);
    assert_text(
        rt,
        "back to the middle",
        back.out.as_str(),
        middle.out.as_str(),
    );
    let forth = run_back(rt, alloc, &one, &back);
    assert_text(
        rt,
        "and forth again",
        forth.out.as_str(),
        there.out.as_str(),
    );
}
