//! The program `test_random`: random clients of all operations, run on segments and on a model of objects without bytes. Its
//! arguments are a seed and the number of clients. It fails at the first client that does something else than the model.
#![tactic(auto)]

mod abstract_openers;
mod abstract_plain;
mod abstract_run;
mod containers;
mod counts;
mod generator;
mod lines;
mod model;
mod objects;
mod owners;
mod parts;
mod plain;
mod position;
mod random_clients;
mod values;

use crate::random_clients::follow_rounds;
use std::env;
use std::rt::Env;
use std::test::Fail;

fn main(rt: HostRuntime) -> Result<(), Fail> {
    let (seed, clients) = asked(&rt)?;
    let counts = follow_rounds(&rt, seed, clients)?;
    if !counts.are_varied(clients) {
        return Err(Fail::new(format_args!("too few of {clients}: {counts:?}")));
    }
    println!(rt; "{clients} clients agree with the model")?;
    Ok(())
}

/// The seed and the number of clients in the arguments.
fn asked(rt: &(impl Env + AllocGlobal)) -> Result<(u32, u32), Fail> {
    let words = env::args(rt)?.collect::<Vec<String>>(rt.alloc())?;
    match words.as_slice() {
        [_, seed, clients] => Ok((seed.as_str().parse()?, clients.as_str().parse()?)),
        _ => Err(Fail::new("usage: test_random SEED CLIENTS")),
    }
}
