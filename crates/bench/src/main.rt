//! Measures how long the stack takes for messages and forests. It judges nothing.
//!
//! Without words it does each piece of work once and prints its size, so two runs print the same. With a word, such as
//! `times`, each line also says how many microseconds the work took.
#![tactic(auto)]

mod answers;
mod blocks;
mod buffers;
mod ends;
mod forests;
mod lines;
mod work;

use std::{env, io};
use work::Watch;

fn main(rt: HostRuntime) -> io::Result<()> {
    let timed = env::args(&rt)?.nth(1).is_some();
    let mut watch = Watch::new(&rt, timed)?;
    tell_each(&rt, &mut watch);
    watch.ended()
}

/// Does each piece of work, and prints it.
fn tell_each(rt: &HostRuntime, watch: &mut Watch) {
    answers::decode_each(rt, watch);
    blocks::decode_each(rt, watch);
    forests::judge_each(rt, watch);
    ends::exchange_longest(rt, watch);
}
