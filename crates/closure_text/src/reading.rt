//! What the whole input asks for.

ghost use Rattle.std.specs.Prelude.{IfOk, OnOk};
ghost use Rattle.text.specs.Split.{lines};
ghost use Rattle.closure_text.specs.Readings.{Blank, Added, Reads};

use crate::line::{LineFault, Request, read_line};
use closure::silent_arcs::SilentArcs;
use std::alloc::{AllocError, Global};
use text::Parts;

/// The arcs, the starts in their order, and the refused lines in theirs.
#[derive(Drop)]
pub struct Reading {
    pub arcs: SilentArcs,
    pub starts: Vec<u16>,
    pub faults: Vec<LineFault>,
}

impl Reading {
    /// Before the first line.
    fn new(heap: Global) -> Reading
        ensures { Blank result }
    {
        Reading {
            arcs: SilentArcs::new(),
            starts: Vec::new(heap),
            faults: Vec::new(heap),
        }
    }

    /// With what one more line asks for.
    fn add(&mut self, answer: Result<Option<Request>, LineFault>) -> Result<(), AllocError>
        ensures { OnOk result (Added answer self.old self.new) }
    {
        match answer {
            Ok(None) => {}
            Ok(Some(Request::Start { stage })) => self.starts.push(stage)?,
            Ok(Some(Request::Arc { from, to })) => {
                self.arcs.insert(from, to);
            }
            Err(fault) => self.faults.push(fault)?,
        }
        Ok(())
    }
}

/// Reads every line; a wrong one is noted, and the reading goes on. Fails only for want of memory.
pub fn read(heap: Global, input: &[u8]) -> Result<Reading, AllocError>
    ensures { IfOk result (Reads (lines input.now)) }
{
    let mut reading = Reading::new(heap);
    for line in Parts::lines(input) {
        reading.add(read_line(line))?;
    }
    Ok(reading)
}
