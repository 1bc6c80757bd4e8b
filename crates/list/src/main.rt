// Lists the book that is on standard input.
#![tactic(auto)]

use std::io;

fn main(rt: HostRuntime) -> io::Result<()> {
    listing::list_book(&rt, &mut rt.stdin(), &mut rt.stdout())
}
