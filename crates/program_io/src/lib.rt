// Standard input and output of a program. What fails is told on standard error: a program has no exit status.
#![tactic(auto)]

ghost use Rattle.std.specs.Prelude.{length};
ghost use Rattle.program_io.specs.Inputs.{InputFits};

use std::io::Read;

fn tell_read(rt: &impl Eprint) {
    let _ = eprintln!(rt; "standard input could not be read");
}

// Reads until the buffer is full or the input ends. How many bytes stand at the start of the buffer; none where a read failed, which is told.
pub fn read_input(rt: &impl Eprint, input: &mut impl Read, buffer: &mut [u8]) -> Option<usize>
    ensures { InputFits result (length buffer.old) }
{
    let mut done = 0;
    // A while: a read brings as many bytes as it will.
    while done < buffer.len() {
        match input.read(&mut buffer[done..]) {
            Err(_) => {
                tell_read(rt);
                return None;
            }
            Ok(0) => return Some(done),
            Ok(more) => done += more,
        }
    }
    Some(done)
}

// A write failed.
pub fn tell_write(rt: &impl Eprint) {
    let _ = eprintln!(rt; "standard output could not be written");
}

// Writes all bytes.
pub fn write_output(rt: &(impl Print + Eprint), bytes: &[u8]) {
    if rt.write_all(bytes).is_err() {
        tell_write(rt);
    }
}
