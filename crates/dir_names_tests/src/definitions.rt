//! Definitions of attribute types, as the RFCs and OpenLDAP's schema files have them.

use crate::make::{Case, each, fields};
use dir_names::{Bytes, Schema, TypeDefinition};
use std::alloc::Global;
use std::process::Abort;

/// Texts, and what each says: the number, the names, `<` with the type that it is derived from, `=` with the rule for equality, and `!`
/// where an attribute takes one value.
static DEFINITIONS: [&str; 20] = [
    // RFC 4519, sections 2.2, 2.3, 2.4, 2.18 and 2.40
    "( 2.5.4.15 NAME 'businessCategory' EQUALITY caseIgnoreMatch SUBSTR caseIgnoreSubstringsMatch SYNTAX 1.3.6.1.4.1.1466.115.121.1.15 ) | 2.5.4.15 businessCategory =caseIgnoreMatch",
    "( 2.5.4.6 NAME 'c' SUP name SYNTAX 1.3.6.1.4.1.1466.115.121.1.11 SINGLE-VALUE ) | 2.5.4.6 c <name !",
    "( 2.5.4.3 NAME 'cn' SUP name ) | 2.5.4.3 cn <name",
    "( 2.5.4.41 NAME 'name' EQUALITY caseIgnoreMatch SUBSTR caseIgnoreSubstringsMatch SYNTAX 1.3.6.1.4.1.1466.115.121.1.15 ) | 2.5.4.41 name =caseIgnoreMatch",
    "( 2.5.4.50 NAME 'uniqueMember' EQUALITY uniqueMemberMatch SYNTAX 1.3.6.1.4.1.1466.115.121.1.34 ) | 2.5.4.50 uniqueMember =uniqueMemberMatch",
    // RFC 4512, sections 3.4.1 and 3.4.2
    "( 2.5.18.3 NAME 'creatorsName' EQUALITY distinguishedNameMatch SYNTAX 1.3.6.1.4.1.1466.115.121.1.12 SINGLE-VALUE NO-USER-MODIFICATION USAGE directoryOperation ) | 2.5.18.3 creatorsName =distinguishedNameMatch !",
    "( 2.5.18.1 NAME 'createTimestamp' EQUALITY generalizedTimeMatch ORDERING generalizedTimeOrderingMatch SYNTAX 1.3.6.1.4.1.1466.115.121.1.24 SINGLE-VALUE NO-USER-MODIFICATION USAGE directoryOperation ) | 2.5.18.1 createTimestamp =generalizedTimeMatch !",
    // as OpenLDAP's core.schema and cosine.schema have them
    "( 2.5.4.4 NAME ( 'sn' 'surname' )\tDESC 'RFC2256: last (family) name(s) for which the entity is known by'\tSUP name ) | 2.5.4.4 sn surname <name",
    "( 0.9.2342.19200300.100.1.1\tNAME ( 'uid' 'userid' ) EQUALITY caseIgnoreMatch SUBSTR caseIgnoreSubstringsMatch SYNTAX 1.3.6.1.4.1.1466.115.121.1.15{256} ) | 0.9.2342.19200300.100.1.1 uid userid =caseIgnoreMatch",
    "( 1.3.6.1.4.1.4203.1.12.2.3.0.1 NAME 'olcAccess' EQUALITY caseIgnoreMatch SYNTAX OMsDirectoryString X-ORDERED 'VALUES' ) | 1.3.6.1.4.1.4203.1.12.2.3.0.1 olcAccess =caseIgnoreMatch",
    // the parts in another order, in other cases, and without white space where none is needed
    "( 1.2.3 single-value equality 'integerMatch' Name ( 'a''b' ) ) | 1.2.3 a b =integerMatch !",
    "(1.2.3 NAME'a'SINGLE-VALUE) | 1.2.3 a !",
    "\t (1.2.3) \t | 1.2.3",
    "( 1.2.3 NAME ( ) ) | 1.2.3",
    "( 1.2.3 SUP 2.5.4.3 ) | 1.2.3 <2.5.4.3",
    "( 1.2.3 DESC '' OBSOLETE COLLECTIVE ) | 1.2.3",
    "( 1.2.3 DESC '( NAME \"x )' NAME 'a' ) | 1.2.3 a",
    "( 1.2.3 NAME 'a b' ) | 1.2.3 a b",
    "( 1.2.3 X-ORIGIN 'one' x-origin ( 'two' 'three' ) X- 'four' ) | 1.2.3",
    "( 1.2.3 SUP SUP EQUALITY NAME ) | 1.2.3 <SUP =NAME",
];

/// Texts that are no definitions.
static OTHERS: [&str; 22] = [
    "",
    "1.2.3",
    "( )",
    "( 1.2.3",
    "( 1.2.3 ) )",
    "( 1.2.3 ) NAME 'a'",
    "( '1.2.3' )",
    "( 1.02.3 )",
    "( 1 )",
    "( OLcfgAt:1 NAME 'a' )",
    "( NAME 'a' 1.2.3 )",
    "( 1.2.3 NAME a )",
    "( 1.2.3 NAME ( 'a' b ) )",
    "( 1.2.3 NAME ( 'a' )",
    "( 1.2.3 NAME 'a' NAME 'b' )",
    "( 1.2.3 SINGLE-VALUE single-value )",
    "( 1.2.3 DESC word )",
    "( 1.2.3 DESC 'open )",
    "( 1.2.3 SINGLE-VALUE 'x' )",
    "( 1.2.3 SUP ( a $ b ) )",
    "( 1.2.3 SYNTAX )",
    "( 1.2.3 NAMES 'a' )",
];

#[test]
fn a_definition_says_its_number_names_rule_and_count_of_values(rt: HostRuntime) {
    each::<SaysThis>(&rt, rt.alloc(), &DEFINITIONS);
}

#[test]
fn other_texts_are_no_definitions(rt: HostRuntime) {
    each::<SaysThis>(&rt, rt.alloc(), &OTHERS);
}

/// A text is a definition that says this, or none, where nothing is said.
struct SaysThis;

impl Case for SaysThis {
    fn holds(rt: &impl Abort, alloc: Global, _schema: &Schema, row: &str) -> bool {
        let [text, want, ..] = fields(row);
        let found = TypeDefinition::read(alloc, text.as_bytes()).expect(rt, "memory");
        let is_said = is_said(rt, alloc, &found, want);
        drop(found);
        is_said
    }
}

fn is_said(rt: &impl Abort, alloc: Global, found: &Option<TypeDefinition>, want: &str) -> bool {
    match found {
        Some(definition) => shown(rt, alloc, definition).as_slice() == want.as_bytes(),
        None => want.is_empty(),
    }
}

/// What a definition says.
fn shown(rt: &impl Abort, alloc: Global, definition: &TypeDefinition) -> Vec<u8> {
    let mut out = Vec::new(alloc);
    put(rt, &mut out, b"", definition.number.as_slice());
    for name in definition.names.as_slice() {
        put(rt, &mut out, b" ", name.as_slice());
    }
    put_if_any(rt, &mut out, b" <", &definition.sup);
    put_if_any(rt, &mut out, b" =", &definition.equality);
    if definition.single {
        put(rt, &mut out, b" ", b"!");
    }
    out
}

fn put_if_any(rt: &impl Abort, out: &mut Vec<u8>, sign: &[u8], text: &Option<Bytes>) {
    if let Some(text) = text {
        put(rt, out, sign, text.as_slice());
    }
}

fn put(rt: &impl Abort, out: &mut Vec<u8>, sign: &[u8], text: &[u8]) {
    out.extend_from_slice(sign).expect(rt, "memory");
    out.extend_from_slice(text).expect(rt, "memory");
}
