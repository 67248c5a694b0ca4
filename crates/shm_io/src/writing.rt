//! A whole text into a sink.
ghost use Rattle.std.specs.Prelude.{◌≡◌, ◌≤◌, OnOk, OnErr};
ghost use Rattle.shm_io.specs.{Faults.Rose, Writing.{Appends, AppendsFront}};

use crate::{Failed, Sink};

/// Writes the whole text in as many writes as it takes. Where one fails, the sink holds a front of the text.
pub fn write_all<K: Sink>(sink: &mut K, text: &[u8]) -> Result<(), Failed>
    ensures written { OnOk result (Appends (K.held sink.old) (K.held sink.new) text.now) }
    ensures no_fault { OnOk result (K.faults sink.new ≡ K.faults sink.old) }
    ensures front { OnErr result (AppendsFront (K.held sink.old) (K.held sink.new) text.now) }
    ensures failed { OnErr result (Rose (K.faults sink.old) (K.faults sink.new)) }
    ensures rising { K.faults sink.old ≤ K.faults sink.new }
{
    let mut written = 0;
    while written < text.len() {
        written += sink.write(&text[written..])?;
    }
    Ok(())
}
