// The program `check`: a job on standard input, its report on standard output.
#![tactic(auto)]

fn main() {
    // One byte more than a file may have, so that a file that is too long is seen to be.
    let mut file = [0u8; 65537];
    let n = io::read_full(0, &mut file);
    let mut out = [0u8; 131072];
    let length = report::report(&file[..n], &mut out) as usize;
    io::write_all(1, &out[..length]);
}
