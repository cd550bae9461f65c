// Reads a recorder's 24-bit samples from standard input and prints how many lie in each band.
#![tactic(auto)]

use std::io;
use std::io::Read;
use tally::Tally;

// The tally of standard input to its end, a chunk at a time, so that memory stays constant.
fn read_all(rt: &HostRuntime) -> io::Result<Tally> {
    let mut tally = Tally::new();
    let mut chunk = vec![in rt.alloc(); 0u8; 65536]?;
    // how input is read to its end where nothing may wait: a `loop` would owe a proof that it ends
    for _ in 0..u64::MAX {
        let n = rt.stdin().read(chunk.as_mut_slice())?;
        if n == 0 {
            return Ok(tally);
        }
        tally.take(&chunk[..n]);
    }
    Err(io::ErrorKind::FileTooLarge.into())
}

fn main(rt: HostRuntime) -> io::Result<()> {
    let tally = read_all(&rt)?;
    print!(rt; "{tally}")
}
