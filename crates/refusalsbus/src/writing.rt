//! Writers that a thread of its own writes to.

ghost use Rattle.std.specs.Prelude.{◌≡◌, ◌<◌, IfErr, IfOk, OnOk, false, length, min, true};
ghost use Rattle.std.specs.IoError.{error_kind};
ghost use Rattle.std.specs.declared.io.ErrorKind.TheVariants.{TimedOut};

use liveline::TimedWriter;
use std::io;
use std::io::Write;
use std::sync::Wait;
use std::time::Clock;

/// `a_flush_waits_for_nothing`: it succeeded though the thread had not given the writer back.
pub fn writer_is_back_after_a_flush<R: Wait + Clock + Drop, W: Drop>(
    writer: &mut TimedWriter<R, W>,
) -> io::Result<()>
    ensures { OnOk result (writer.new ≡ false) }
{
    writer.flush()
}

/// `a_late_writer_is_told_as_gone`: a flush that was not over in time failed as one whose other end
/// is gone.
pub fn late_flush_is_timed_out<R: Wait + Clock + Drop, W: Drop>(
    writer: &mut TimedWriter<R, W>,
) -> io::Result<()>
    ensures { IfErr result (λ error. writer.new ≡ true → error_kind error ≡ TimedOut) }
{
    writer.flush()
}

/// `nothing_is_handed_on`: a write took its bytes, and the thread did not get the writer.
pub fn write_lends_the_writer<R: Wait + Clock + Drop, W: Drop>(
    writer: &mut TimedWriter<R, W>,
    bytes: &[u8],
) -> io::Result<usize>
    requires { 0 < length bytes.now }
    ensures lent { OnOk result (writer.new ≡ true) }
    ensures count { IfOk result (λ count. count ≡ min 32 (length bytes.now)) }
{
    writer.write(bytes)
}

/// `no_writer_is_stuck`: a writer that the thread still had was said to be free.
pub fn lent_writer_is_stuck<R: Wait + Clock + Drop, W: Drop>(writer: &mut TimedWriter<R, W>) -> bool
    ensures { result ≡ writer.new }
{
    writer.is_stuck()
}
