// Lines of their own.
ghost use Rattle.cd_base.specs.Ends.{WriteAll};
ghost use Rattle.cd_report.specs.Texts.{usage_line, fault_line};

use cd_base::{Sink, WriteStop, write_all};

const USAGE: &str = "usage: cd check|read|run|make|lift [--workers N] [--record] [--size N]\n";

const READ_FAULT: &str = "read fault\n";

/// Writes how the program is called. It takes no memory of its own.
pub fn write_usage<K: Sink>(sink: &mut K) -> Result<(), WriteStop>
    ensures { WriteAll (K.model sink.old) (K.model sink.new) usage_line result }
{
    write_all(sink, USAGE.as_bytes())
}

/// Writes that the source could not be read. It takes no memory of its own.
pub fn write_read_fault<K: Sink>(sink: &mut K) -> Result<(), WriteStop>
    ensures { WriteAll (K.model sink.old) (K.model sink.new) fault_line result }
{
    write_all(sink, READ_FAULT.as_bytes())
}
