// Prints the check of each 510 bytes from standard input, a number a line; fewer bytes at the end are left.
#![tactic(auto)]

use std::io;

fn replay(rt: &impl Print, text: &[u8]) -> io::Result<()> {
    for front in text.chunks_exact(image_block::FRONT) {
        let sum = image_block::check(front);
        println!(rt; "{sum}")?;
    }
    Ok(())
}

fn main(rt: HostRuntime) -> io::Result<()> {
    let mut text = [0u8; 65536];
    let got = reading::read_full(&mut rt.stdin(), &mut text)?;
    replay(&rt, &text[..got])
}
