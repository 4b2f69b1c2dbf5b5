//! Laws of the definitions, which no code needs.

ghost use Rattle.dir_conf.specs.Laws.{FlatConfigsAreRead, FlatFilesAreRead, FlatReads};

/// A flat configuration says what its site has: its text defines these attribute types, in their order and each at its line, and is read as
/// these directives with these arguments, in their order and each at its line.
pub fn flat_texts_are_read()
    ensures { FlatReads }
{}

/// The flat configuration of a database is read as what cn=config says of it: these attribute types, and these directives with these arguments, in
/// their order.
pub fn flat_configs_are_read()
    ensures { FlatConfigsAreRead }
{}

/// The flat configuration of a database is read as what the files of a slapd.conf say of it.
pub fn flat_files_are_read()
    ensures { FlatFilesAreRead }
{}
