// Reads command lines on its input and writes the answers.
#![tactic(auto)]

use console::line::Line;
use console::new_store;
use console::office::Office;
use std::io;
use std::io::{BufWriter, Read, Write};

const CHUNK: usize = 8192;

// Answers a line; the answer is whole on the page before any of it is written.
fn serve<W: Write>(office: &mut Office, line: &[u8], output: &mut W) -> io::Result<()> {
    // kept: no text on the page is no error of writing
    let Some(long) = office.answer(line) else {
        return Ok(());
    };
    output.write_all(office.text(long))
}

fn main(rt: HostRuntime) -> io::Result<()> {
    let mut store = new_store!();
    let mut office = store.open();
    let mut chunk = [0; CHUNK];
    let mut input = rt.stdin();
    let mut output = BufWriter::new(rt.alloc(), rt.stdout())?;
    let mut line = Line::new();
    // kept: a loop that waits on input has nothing that falls, so it counts up to what no input reaches
    for _ in 0..u64::MAX {
        output.flush()?;
        let count = input.read(&mut chunk)?;
        if count == 0 {
            break;
        }
        for byte in &chunk[..count] {
            if *byte == b'\n' {
                serve(&mut office, line.bytes(), &mut output)?;
                line.clear();
            } else {
                line.push(*byte);
            }
        }
    }
    if !line.bytes().is_empty() {
        serve(&mut office, line.bytes(), &mut output)?;
    }
    output.flush()
}
