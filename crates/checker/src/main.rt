// The program: reads a sheet on standard input and prints what is found.
#![tactic(auto)]

ghost use Rattle.std.specs.Prelude.{◌≤◌, length};

use report::Report;

// Prints the text for the first n bytes of what was read.
fn print(rt: &(impl Print + Eprint), sheet: &[u8], n: usize)
    requires { n ≤ length sheet.now }
{
    let mut room = [0u8; Report::BYTES];
    let k = report::page::page(&sheet[..n], &mut room);
    if rt.write_all(&room[..k]).is_err() {
        let _ = rt.eprint("checker: the text could not be written\n");
    }
}

// Reads one byte more than a sheet may have, so that a longer one is known, and prints.
fn main(rt: HostRuntime) {
    let mut sheet = [0u8; 32769];
    let mut input = rt.stdin();
    let n = intake::read_full(&mut input, &mut sheet);
    if n < sheet.len() && !intake::ended(&mut input) {
        let _ = rt.eprint("checker: the sheet could not be read to its end\n");
        return;
    }
    print(&rt, &sheet, n);
}
