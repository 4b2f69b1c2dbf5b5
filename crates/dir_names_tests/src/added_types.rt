//! Attribute types that definitions add to a schema (RFC 4512, section 4.1.2).

mod openldap;
mod refused;
mod values;

use crate::added_types::openldap::OPENLDAP;
use crate::make::{Case, attr_key, check, copy_of, each, fields, gives, schema};
use crate::types::{is_told, means};
use dir_names::{AttrKey, Schema};
use std::alloc::Global;
use std::process::Abort;

const ROOM: &str =
    "( 1.3.6.1.4.1.32473.1 NAME ( 'room' 'roomName' )  EQUALITY caseIgnoreMatch SINGLE-VALUE )";

const LEVEL: &str = "( 1.3.6.1.4.1.32473.2 NAME 'level' SUP uidNumber )";

/// As OpenLDAP's cosine.schema has it.
const MOBILE: &str =
    "( 0.9.2342.19200300.100.1.41\tNAME ( 'mobile' 'mobileTelephoneNumber' )\tDESC 'RFC1274: mobile telephone number'\tEQUALITY telephoneNumberMatch\tSUBSTR telephoneNumberSubstringsMatch\tSYNTAX 1.3.6.1.4.1.1466.115.121.1.50 )";

/// As OpenLDAP's nis.schema has it.
const GECOS: &str =
    "( 1.3.6.1.1.1.1.2 NAME 'gecos'\tDESC 'The GECOS field; the common name'\tEQUALITY caseIgnoreIA5Match\tSUBSTR caseIgnoreIA5SubstringsMatch\tSYNTAX 1.3.6.1.4.1.1466.115.121.1.26 SINGLE-VALUE )";

/// Definitions that are added to the built-in types (none, one, or two with ` & ` between them), a text, and what it means
/// then: a text in lower case that is the key of its type, the rule of the type (`Octet` where it is not known), whether
/// it is known, and whether an attribute takes one value or many.
static ADDED: [&str; 21] = [
    // a new type, by each of its names and its number
    "ROOM | room | room | CaseIgnore known one",
    "ROOM | roomName | room | CaseIgnore known one",
    "ROOM | 1.3.6.1.4.1.32473.1 | room | CaseIgnore known one",
    "ROOM | level | level | Octet unknown many",
    "ROOM & LEVEL | room | room | CaseIgnore known one",
    "( 1.2.9 NAME ( 'First' 'second' ) ) | second | first | Octet known many",
    "( 1.2.9 NAME ( 'x' 'X' ) ) | x | x | Octet known many",
    // no name: the number is the key, and stays it
    "( 1.2.9 NAME ( ) ) | 1.2.9 | 1.2.9 | Octet known many",
    "( 1.2.9 SUP cn ) | 1.2.9 | 1.2.9 | CaseIgnore known many",
    "( 1.2.9 SUP cn ) & ( 1.2.9 NAME 'x' ) | x | 1.2.9 | CaseIgnore known many",
    // a known number: its key, its rule and the count of its values stay, and it has the names that are new
    "( 2.5.4.3 NAME 'fullName' ) | fullName | cn | CaseIgnore known many",
    "( 2.5.4.3 NAME ( 'x' 'cn' 'fullName' ) EQUALITY integerMatch SINGLE-VALUE ) | x | cn | CaseIgnore known many",
    "( 2.5.4.3 NAME ( 'x' 'cn' 'fullName' ) EQUALITY integerMatch SINGLE-VALUE ) | fullName | cn | CaseIgnore known many",
    "( 2.5.4.3 NAME ( 'x' 'cn' 'fullName' ) EQUALITY integerMatch SINGLE-VALUE ) | commonName | cn | CaseIgnore known many",
    "( 2.5.4.3 NAME 'x' SUP nothing ) | x | cn | CaseIgnore known many",
    "( 2.5.4.3 NAME ( ) ) | cn | cn | CaseIgnore known many",
    "( 1.3.6.1.1.1.1.0 NAME 'x' EQUALITY caseIgnoreMatch ) | x | uidnumber | Integer known one",
    "( 2.5.4.3 NAME ( 'CN' 'COMMONNAME' ) ) | commonName | cn | CaseIgnore known many",
    "( 2.5.4.3 NAME 'x' ) & ( 2.5.4.4 NAME 'y' ) | y | sn | CaseIgnore known many",
    "ROOM & ROOM | roomName | room | CaseIgnore known one",
    "ROOM & ( 1.3.6.1.4.1.32473.1 NAME ( 'x' 'ROOM' ) EQUALITY integerMatch ) | x | room | CaseIgnore known one",
];

/// The same, of the rules of types, and of types that copies use often.
static RULES: [&str; 28] = [
    // the rule of the type after `SUP`, but not its count of values
    "LEVEL | level | level | Integer known many",
    "( 1.2.9 NAME 'x' SUP 2.5.4.20 ) | x | x | Telephone known many",
    "( 1.2.9 NAME 'x' SUP domainComponent ) | x | x | Ia5CaseIgnore known many",
    "( 1.2.9 NAME 'x' SUP 'LOGINSHELL' ) | x | x | Ia5CaseExact known many",
    "ROOM & ( 1.2.9 NAME 'x' SUP ROOMNAME ) | x | x | CaseIgnore known many",
    "( 1.2.9 NAME 'x' SUP Name ) | x | x | CaseIgnore known many",
    "( 1.2.9 NAME 'x' SUP Name ) | name | name | Octet unknown many",
    "( 1.2.9 NAME 'x' SUP distinguishedNAME ) | x | x | Name known many",
    "( 2.5.4.41 NAME 'name' EQUALITY caseExactIA5Match ) & ( 1.2.9 NAME 'x' SUP name ) | x | x | Ia5CaseExact known many",
    "( 2.5.4.49 NAME 'distinguishedName' ) & ( 1.2.9 NAME 'x' SUP distinguishedName ) | x | x | Octet known many",
    // `EQUALITY` comes before it
    "( 1.2.9 NAME 'x' SUP cn EQUALITY integerMatch ) | x | x | Integer known many",
    "( 1.2.9 NAME 'x' EQUALITY telephoneNumberMatch SUP nothing ) | x | x | Telephone known many",
    "( 1.2.9 NAME 'x' SUP cn EQUALITY 2.5.13.2 ) | x | x | Octet known many",
    "( 1.2.9 NAME 'x' SUP cn EQUALITY noMatch ) | x | x | Octet known many",
    "( 1.2.9 NAME 'x' EQUALITY caseExactMatch ) | x | x | Octet known many",
    "( 1.2.9 NAME 'x' SUP cn EQUALITY octetStringMatch ) | x | x | Octet known many",
    "( 1.2.9 NAME 'x' EQUALITY 'CASEIGNOREMATCH' ) | x | x | CaseIgnore known many",
    "( 1.2.9 NAME 'x' EQUALITY ObjectIdentifierMatch ) | x | x | ObjectId known many",
    // types that copies use often, which are not built in
    " | mobile | mobile | Octet unknown many",
    " | gecos | gecos | Octet unknown many",
    "MOBILE | mobile | mobile | Telephone known many",
    "MOBILE | mobileTelephoneNumber | mobile | Telephone known many",
    "MOBILE | gecos | gecos | Octet unknown many",
    "GECOS | gecos | gecos | Ia5CaseIgnore known one",
    "GECOS & MOBILE | 1.3.6.1.1.1.1.2 | gecos | Ia5CaseIgnore known one",
    "( 1.2.9 NAME ( 'x' 'pager' ) EQUALITY telephoneNumberMatch SINGLE-VALUE ) | pager | x | Telephone known one",
    "( 2.5.4.3 NAME 'pager' ) | pager | cn | CaseIgnore known many",
    "MOBILE & ( 0.9.2342.19200300.100.1.41 NAME 'pager' ) | pager | mobile | Telephone known many",
];

#[test]
fn a_definition_adds_a_type_or_names(rt: HostRuntime) {
    each::<Adds>(&rt, rt.alloc(), &ADDED);
    each::<Adds>(&rt, rt.alloc(), &RULES);
    each::<Adds>(&rt, rt.alloc(), &OPENLDAP);
}

/// The definitions are accepted, and the text means this then, also under a copy.
struct Adds;

impl Case for Adds {
    fn holds(rt: &impl Abort, alloc: Global, schema: &Schema, row: &str) -> bool {
        let key = key_of(rt, alloc, schema, row);
        let added = with_types(rt, alloc, row);
        check(rt, has_meaning(rt, alloc, &added, row, &key), row);
        has_meaning(rt, alloc, &copy_of(rt, alloc, &added), row, &key)
    }
}

/// The frequent types, which `add_type` forgets, are found again: the answers are those before.
#[test]
fn frequent_types_are_found_again(rt: HostRuntime) {
    let mut schema = schema(&rt, rt.alloc());
    add(&rt, &mut schema, MOBILE);
    let mobile = attr_key(&rt, rt.alloc(), &schema, "mobileTelephoneNumber");
    let given_name = attr_key(&rt, rt.alloc(), &schema, "givenName");
    let told = (
        schema.rule(&mobile),
        schema.knows(&mobile),
        schema.knows(&given_name),
    );
    schema.find_frequent();
    let again = (
        schema.rule(&mobile),
        schema.knows(&mobile),
        schema.knows(&given_name),
    );
    assert!(&rt; told == again && told.1 && told.2);
    assert!(&rt; attr_key(&rt, rt.alloc(), &schema, "mobileTelephoneNumber") == mobile);
}

/// The built-in types and those of the definitions of a row, each of which is accepted.
fn with_types(rt: &impl Abort, alloc: Global, row: &str) -> Schema {
    let [definitions, ..] = fields(row);
    let mut schema = schema(rt, alloc);
    match definitions.split_once(" & ") {
        Some((first, second)) => {
            add(rt, &mut schema, first);
            add(rt, &mut schema, second);
        }
        None => add(rt, &mut schema, definitions),
    }
    schema
}

/// Adds a type, unless the text is empty.
fn add(rt: &impl Abort, schema: &mut Schema, text: &str) {
    if !text.is_empty() {
        check(
            rt,
            gives(rt, schema.add_type(definition(text).as_bytes()), &()),
            text,
        );
    }
}

/// The definition that a row has, by its name here or as it is.
fn definition(text: &str) -> &str {
    match text {
        "ROOM" => ROOM,
        "LEVEL" => LEVEL,
        "MOBILE" => MOBILE,
        "GECOS" => GECOS,
        _ => text,
    }
}

/// The key that the text of a row has then, by its name under the built-in types.
fn key_of(rt: &impl Abort, alloc: Global, schema: &Schema, row: &str) -> AttrKey {
    let [_, _, name, ..] = fields(row);
    attr_key(rt, alloc, schema, name)
}

/// Whether the text of a row means what it says, in any case.
fn has_meaning(rt: &impl Abort, alloc: Global, schema: &Schema, row: &str, key: &AttrKey) -> bool {
    let [_, text, _, told, ..] = fields(row);
    means(rt, alloc, schema, text, key) && is_told(rt, alloc, schema, key, told)
}
