//! Tests of `dir_conf_text`: calls of its functions. How its lines and words are read is tried through the program.

mod arguments;
mod lines;
