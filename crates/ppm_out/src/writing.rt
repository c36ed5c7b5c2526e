//! Pictures written to a sink of bytes.
ghost use Rattle.std.specs.Prelude.{◌≡◌, ℕ, ◌+◌, ◌<◌, ◌≤◌, ◌++◌, ◌^◌, length, take, IfOk, IfErr, OnOk, OnErr};
ghost use Rattle.std.specs.Io.KnownBytes.{append_known};
ghost use Rattle.pf_io.specs.Causes.{HasCause};
ghost use Rattle.pf_io.specs.Streams.{MarksFault, AppendsFront};
ghost use Rattle.ppm_out.specs.Ppm.{ppm_bytes};

use crate::Image;
use pf_io::{Sink, WriteError, write_all};

/// Writes the picture of an image with no copy of its bytes, or up to a fault, after which the sink gets no more.
pub fn write_ppm<S: Sink>(image: &Image, sink: &mut S) -> Result<(), WriteError>
    ensures whole { OnOk result (S.written sink.new ≡ append_known (S.written sink.old) (ppm_bytes image.now)) }
    ensures cut { IfErr result (λ error. (error.written < length (ppm_bytes image.now)) ×
        (S.written sink.new ≡ append_known (S.written sink.old) (take error.written (ppm_bytes image.now)))) }
    ensures front { OnErr result (AppendsFront (S.written sink.old) (S.written sink.new) (ppm_bytes image.now)) }
    ensures cause { HasCause (S.faults sink.old) (S.faults sink.new) result }

    // Nothing is written after a fault.
    ensures last { MarksFault (S.at_fault sink.old) (S.at_fault sink.new) (S.written sink.new) result }
{
    let header = image.header();
    write_all(sink, header)?;
    let mut written = header.len();
    for i in 0..image.bands() {
        let band = image.band(i);
        match write_all(sink, band) {
            Ok(()) => written += band.len(),
            Err(error) => {
                return Err(WriteError {
                    written: written + error.written,
                });
            }
        }
    }
    Ok(())
}
