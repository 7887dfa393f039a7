//! Reads a season's text from standard input: the number of events, and sheets. Prints for each sheet whether the rule
//! book takes it, and at the end the book that results. `season::respond` does the work, and its contract gives what is
//! printed.

#![tactic(auto)]

use season::respond;
use std::io;
use std::io::Read;

// The main of `silent_closure` is the same but for `respond`. A function for both would have to require that what it is
// given can be called, which no public function here does, or take a trait of its own: more lines than these.
fn main(rt: HostRuntime) -> io::Result<()> {
    let mut input = Vec::new(rt.alloc());
    rt.stdin().read_to_end(&mut input)?;
    let answer = respond(rt.alloc(), input.as_slice())?;
    rt.print(answer.as_str())
}
