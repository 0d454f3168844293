// Many sheets, each with its answers below its name. What has to be printed was derived from the rules, not from this program.
#![tactic(auto)]

use console::print_answers;
use std::{fs, io};

fn main(rt: HostRuntime) -> io::Result<()> {
    let names = fs::read_to_string(&rt, "names")?;
    for name in names.lines() {
        println!(rt; "# {name}")?;
        let path = format!(in rt.alloc(); "{name}.sheet")?;
        let sheet = fs::read(&rt, path.as_str())?;
        print_answers(&rt, &sheet)?;
    }
    Ok(())
}
