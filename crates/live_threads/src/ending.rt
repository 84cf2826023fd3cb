// What became of the input and the output, once all threads have ended.
ghost use Rattle.std.specs.Prelude.{◌≡◌, ◌&&◌, ℕ, true, IsTrue, Ok};
ghost use Rattle.std.specs.Result.{is_ok};
ghost use Rattle.io_model.specs.Streams.{CountsReading};
ghost use Rattle.report_text.specs.Sinks.{Causes};
ghost use Rattle.live_streams.specs.declared.reading.Read.TheVariants.{Whole};
ghost use Rattle.live_threads.specs.Ends.{WritesAs};

use io_model::ReadError;
use live_streams::Read;
use report_text::ReportError;

/// Where a reply was left that nothing hindered, memory was wanting.
pub fn written_as(
    written: Result<(), ReportError>,
    is_done: bool,
    is_told: bool,
) -> Result<(), ReportError>
    ensures as_ { WritesAs written (is_done && is_told) result }
    ensures cause { (before now : ℕ) → Causes before now written → Causes before now result }
{
    match written {
        Ok(()) => {
            if !is_done || !is_told {
                return Err(ReportError::Memory);
            }
            Ok(())
        }
        Err(error) => Err(error),
    }
}

/// Where lines were left, and the answers aren't to blame, memory was wanting.
pub fn read_as(
    read: Result<Read, ReadError>,
    is_all: bool,
    is_written: bool,
) -> Result<(), ReadError>
    ensures whole { result ≡ Ok (tt {0}) → IsTrue is_written → (read ≡ Ok Whole) × IsTrue is_all }
    ensures cause { (before now : ℕ) → CountsReading before now read → CountsReading before now result }
{
    match read {
        Ok(Read::Whole) => {
            if is_all || !is_written {
                Ok(())
            } else {
                Err(ReadError::Memory)
            }
        }
        Ok(Read::Gone) => {
            if is_written {
                Err(ReadError::Memory)
            } else {
                Ok(())
            }
        }
        Err(error) => Err(error),
    }
}
