//! Laws of the definitions, as contracts of calls that do nothing.

ghost use Rattle.dir_conf_text.specs.Quoting.{WrittenArgumentsAreRead};

/// Arguments that were written are read as they were.
pub fn written_arguments_are_read()
    ensures { WrittenArgumentsAreRead }
{}
