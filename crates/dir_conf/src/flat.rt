//! The flat slapd.conf of a site.

ghost use Rattle.std.specs.Prelude.{◌≡◌, ◌++◌, IfOk, OnOk};
ghost use Rattle.std.specs.List.{count_by, flat_map};
ghost use Rattle.dir_conf_text.specs.Quoting.{preceded};
ghost use Rattle.dir_conf.specs.Flat.{content_of, directive_line, flat_of_site, flat_parts, is_rule, site_text, tally_of, type_line};
ghost use Rattle.dir_conf.specs.Outcome.{GivesConf};
ghost use Rattle.dir_conf.specs.OwnTypes.{own_types};

use crate::fault::ConfFault;
use crate::own_types::own_text;
use crate::site::{Directive, Line, Site, Tally};
use dir_conf_text::{MAX_CONFIG, push_argument};
use dir_names::{Bytes, Memory};
use std::alloc::Global;

/// A flat configuration.
#[derive(Debug, Drop)]
pub struct Flat {
    /// Its text.
    pub text: Vec<u8>,
    /// What it has.
    pub tally: Tally,
}

/// The flat configuration of a site.
pub(crate) fn flat_of_site(alloc: Global, site: &Site) -> Result<Flat, ConfFault>
    ensures { GivesConf flat_parts result (flat_of_site (content_of site.now)) }
{
    let text = flat_text(alloc, site)?;
    if text.len() > MAX_CONFIG {
        return Err(ConfFault::TooLong);
    }
    let tally = tally_of(site);
    Ok(Flat { text, tally })
}

/// The text of a slapd.conf that says what a site has, and nothing else: slapd's own attribute types and each definition, in a line of
/// `attributetype`, then `database mdb`, its lines, and the frontend's rules. Where an argument is empty or has white space, a quote or a backslash, it stands in quotes.
pub fn flat_text(alloc: Global, site: &Site) -> Result<Vec<u8>, Memory>
    ensures { IfOk result (λ text. text.items ≡ site_text (content_of site.now)) }
{
    let mut text = Vec::new(alloc);
    text.extend_from_slice(b"# slapkit slapconf\n")?;
    push_all_types(&mut text, site.types.as_slice())?;
    text.extend_from_slice(b"database mdb\n")?;
    push_all_lines(&mut text, site.own.as_slice(), site.frontend.as_slice())?;
    Ok(text)
}

/// Appends the lines of a database, and then those of the frontend.
fn push_all_lines(text: &mut Vec<u8>, own: &[Line], frontend: &[Line]) -> Result<(), Memory>
    ensures { OnOk result (text.new.items ≡ text.old.items ++ flat_map directive_line (own.now ++ frontend.now)) }
{
    push_lines(text, own)?;
    push_lines(text, frontend)?;
    Ok(())
}

/// Appends slapd's own types, and then these.
fn push_all_types(text: &mut Vec<u8>, types: &[Bytes]) -> Result<(), Memory>
    ensures { OnOk result (text.new.items ≡ text.old.items ++ flat_map type_line (own_types ++ types.now)) }
{
    text.extend_from_slice(own_text())?;
    push_types(text, types)?;
    Ok(())
}

fn push_types(text: &mut Vec<u8>, types: &[Bytes]) -> Result<(), Memory>
    ensures { OnOk result (text.new.items ≡ text.old.items ++ flat_map type_line types.now) }
{
    for definition in types {
        push_type(text, definition.as_slice())?;
    }
    Ok(())
}

fn push_type(text: &mut Vec<u8>, definition: &[u8]) -> Result<(), Memory>
    ensures { OnOk result (text.new.items ≡ text.old.items ++ type_line definition.now) }
{
    text.extend_from_slice(b"attributetype ")?;
    text.extend_from_slice(definition)?;
    text.push(b'\n')?;
    Ok(())
}

fn push_lines(text: &mut Vec<u8>, lines: &[Line]) -> Result<(), Memory>
    ensures { OnOk result (text.new.items ≡ text.old.items ++ flat_map directive_line lines.now) }
{
    for line in lines {
        push_line(text, line)?;
    }
    Ok(())
}

fn push_line(text: &mut Vec<u8>, line: &Line) -> Result<(), Memory>
    ensures { OnOk result (text.new.items ≡ text.old.items ++ directive_line line.now) }
{
    text.extend_from_slice(line.directive.name())?;
    push_arguments(text, line.arguments.as_slice())?;
    text.push(b'\n')?;
    Ok(())
}

/// Appends arguments, each after a space.
fn push_arguments(text: &mut Vec<u8>, arguments: &[Bytes]) -> Result<(), Memory>
    ensures { OnOk result (text.new.items ≡ text.old.items ++ flat_map preceded arguments.now) }
{
    for argument in arguments {
        push_argument(text, argument.as_slice())?;
    }
    Ok(())
}

/// How much a site says.
pub(crate) fn tally_of(site: &Site) -> Tally
    ensures { result ≡ tally_of (content_of site.now) }
{
    Tally {
        types: site.types.as_slice().len(),
        rules: rules_among(site.own.as_slice()),
        frontend: site.frontend.len(),
    }
}

/// How many lines are access rules.
fn rules_among(lines: &[Line]) -> usize
    ensures { result ≡ count_by is_rule lines.now }
{
    lines.iter().filter(|line| is_rule(line)).count()
}

fn is_rule(line: &Line) -> bool
    ensures { result ≡ is_rule line.now }
{
    match line.directive {
        Directive::Access => true,
        Directive::Suffix | Directive::RootDn => false,
    }
}
