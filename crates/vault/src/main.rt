// The program: a sheet on standard input, its answer lines on standard output.
#![tactic(auto)]

use console::print_answers;
use sheet::start::enough;
use std::io;
use std::io::Read;

fn main(rt: HostRuntime) -> io::Result<()> {
    let mut sheet = Vec::new(rt.alloc());
    rt.stdin().take(enough()).read_to_end(&mut sheet)?;
    print_answers(&rt, &sheet)
}
