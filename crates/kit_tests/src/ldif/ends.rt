//! How much of a source is read before a record comes.

use crate::ldif::devices::{Way, script};
use crate::ldif::make::schema;
use crate::ldif::reading::{CUT, next};
use dir_ldif::{DeviceFault, RecordReader, Script, Source};

/// A script that counts its calls.
#[derive(Drop)]
struct Counted<'a> {
    script: Script<'a>,
    calls: usize,
}

impl Source for Counted<'_> {
    ghost use Rattle.std.specs.Prelude.{⊤};
    ghost use Rattle.dir_ldif.specs.TestDevices.{failures_of, left_of};

    ghost left = { λ c. left_of c.script };

    ghost failures = { λ c. failures_of c.script };

    ghost is_same = { λ _ _. ⊤ };

    ghost same_refl = { λ _. tt };

    ghost same_trans = { λ _ _ _ _ _. tt };

    fn read(&mut self, buffer: &mut [u8]) -> Result<usize, DeviceFault> {
        self.calls = self.calls.saturating_add(1);
        self.script.read(buffer)
    }
}

#[test]
fn a_record_comes_before_the_next_read(rt: HostRuntime) {
    let schema = schema(&rt, rt.alloc());
    let mut source = Counted {
        script: script(CUT, &[Way::FailingFrom(2)]),
        calls: 0,
    };
    let mut reader = RecordReader::new(rt.alloc(), &schema, &mut source).expect(&rt, "a reader");
    match next(&mut reader) {
        Ok(Some((line, Ok(_)))) => assert!(rt; line == 1),
        _ => panic!(rt; "no record"),
    }
    assert!(rt; reader.into_source().calls == 1);
}
