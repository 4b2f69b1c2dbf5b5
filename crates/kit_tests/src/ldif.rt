//! Tests of `dir_ldif`: each public call, texts in pieces, sources that fail or never end, checks, and the devices. What can be seen through the program as
//! well, `tests/trial/records.py` tests: RFC 2849's examples, the faults of records, limits and written values.

mod blocks;
mod checking;
mod devices;
mod ends;
mod faults;
mod limits;
mod make;
mod reading;
mod tapes;
mod writing;
