//! The records of a text, taken one after the other: by a copy as it is loaded, and by a run of changes.

ghost use Rattle.std.specs.Prelude.{◌≡◌};
ghost use Rattle.dir_ldif.specs.Reader.{IsReading, schema_of, source_of};
ghost use Rattle.dir_tools.specs.Inside.Taking.{EndsIn};

use crate::ToolFault;
use dir_ldif::{Record, RecordFault, RecordReader, Source, StreamFault};
use dir_names::Schema;
use std::alloc::Global;

/// What takes the records of a text.
pub(crate) trait Taker {
    ghost use Rattle.std.specs.Prelude.{ℕ, Bool, List, Result, IfOk, ◌+◌, ◌-◌, ◌^◌, ◌<◌, ◌≤◌};
    ghost use Rattle.dir_names.specs.declared.schema.TypeRow.{TypeRow};
    ghost use Rattle.dir_ldif.specs.Records.{Found};
    ghost use Rattle.dir_tools.specs.declared.fault.ToolFault.{ToolFault};

    /// What taking a record answers, and the taker after it.
    ghost take_gives: { List TypeRow → Found → Self → Result Bool ToolFault → Self → Type 0 };

    /// How many records it counted.
    ghost counted: { Self → ℕ };

    /// Takes the next record, and tells whether more are wanted.
    fn take(
        &mut self,
        alloc: Global,
        schema: &Schema,
        line: u64,
        found: Result<Record, RecordFault>,
    ) -> Result<bool, ToolFault>
        requires { counted self.old < 2 ^ 64 - 1 }
        ensures gives { take_gives schema.now (line, found) self.old result self.new }
        ensures counted { IfOk result (λ _. counted self.new ≤ counted self.old + 1) };
}

/// Why no further record was taken.
#[derive(Clone, Copy)]
pub(crate) enum End {
    /// The text has no further record.
    AtEnd,
    /// No more are wanted.
    Enough,
    /// The text ended in a fault.
    TextFault(StreamFault),
    /// A record could not be taken.
    TakeFault(ToolFault),
}

/// Takes the records of a text to its end, or up to the first after which no more are wanted.
pub(crate) fn take_records<T: Taker, S: Source + Drop>(
    taker: &mut T,
    alloc: Global,
    schema: &Schema,
    records: &mut RecordReader<'_, S>,
) -> End
    requires counted { T.counted taker.old ≡ 0 }
    requires reading { IsReading records.old }
    requires schema { schema_of records.old ≡ schema.now }
    ensures ends { EndsIn schema.now (T.take_gives schema.now) S.left S.failures result taker.old taker.new records.old records.new }
    ensures same { S.is_same (source_of records.old) (source_of records.new) }
{
    loop {
        match records.next() {
            Ok(Some((line, found))) => match taker.take(alloc, schema, line, found) {
                Ok(true) => {}
                Ok(false) => return End::Enough,
                Err(fault) => return End::TakeFault(fault),
            },
            Ok(None) => return End::AtEnd,
            Err(fault) => return End::TextFault(fault),
        }
    }
}
