//! The answer as text.

ghost use Rattle.std.specs.Prelude.{◌≡◌, ◌++◌, IfOk, string_bytes, OnOk};
ghost use Rattle.std.specs.List.{flat_map};
ghost use Rattle.closure_text.specs.Reports.{fault_line, stage_line, stage_lines, count_line, answer_of, Responds};

use crate::line::LineFault;
use crate::reading::{Reading, read};
use closure::silent_arcs::reached;
use sets::small_set::SmallSet;
use std::alloc::{AllocError, Global};

/// Writes a line for each refused line.
fn write_faults(out: &mut String, faults: &[LineFault]) -> Result<(), AllocError>
    ensures { OnOk result (string_bytes out.new ≡ string_bytes out.old ++ flat_map fault_line faults.now) }
{
    for fault in faults {
        writeln!(out, "{fault}")?;
    }
    Ok(())
}

/// Writes the line that tells of a reached stage.
// No `Display`, and none for the counts below: no type holds a stage with its steps, or the three counts, but here.
fn write_stage(out: &mut String, stage: usize, steps: u16) -> Result<(), AllocError>
    ensures { OnOk result (string_bytes out.new ≡ string_bytes out.old ++ stage_line stage steps) }
{
    writeln!(out, "stage {stage}, silent steps {steps}")
}

/// Writes a line for each reached stage, in ascending order.
fn write_stages(out: &mut String, steps: &[Option<u16>; 256]) -> Result<(), AllocError>
    ensures { OnOk result (string_bytes out.new ≡ string_bytes out.old ++ stage_lines 0 steps.now) }
{
    for (stage, fewest) in steps.iter().enumerate() {
        if let Some(fewest) = *fewest {
            write_stage(out, stage, fewest)?;
        }
    }
    Ok(())
}

/// Writes the last line.
fn write_counts(
    out: &mut String,
    reached: u16,
    starts: usize,
    faults: usize,
) -> Result<(), AllocError>
    ensures { OnOk result (string_bytes out.new ≡ string_bytes out.old ++ count_line reached starts faults) }
{
    writeln!(
        out,
        "stages reached {reached}, starts {starts}, lines refused {faults}"
    )
}

/// The whole answer: the refused lines, the reached stages, and the counts.
fn answer(heap: Global, reading: &Reading, steps: &[Option<u16>; 256]) -> Result<String, AllocError>
    ensures { IfOk result (λ s. string_bytes s ≡ answer_of reading.now.faults.items reading.now.starts.items steps.now) }
{
    let mut out = String::new(heap);
    write_faults(&mut out, reading.faults.as_slice())?;
    write_stages(&mut out, steps)?;
    let count = reached(steps).count();
    write_counts(&mut out, count, reading.starts.len(), reading.faults.len())?;
    Ok(out)
}

/// Reads silent arcs and start stages, a line each, and answers a line for each refused line, then a line for each
/// stage that is reached from a start by silent arcs, with the fewest such arcs, and last the counts. Fails
/// only for want of memory.
pub fn respond(heap: Global, input: &[u8]) -> Result<String, AllocError>
    ensures { IfOk result (λ s. Responds input.now (string_bytes s)) }
{
    let reading = read(heap, input)?;
    let Ok(steps) = reading.arcs.steps_from(reading.starts.as_slice()) else {
        unreachable()
    };
    answer(heap, &reading, &steps)
}
