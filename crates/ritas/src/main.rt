//! Replays schedules of events that happen to a world of replicas, makes such schedules, and writes what came of them; deals keys, serves
//! nodes and clusters, hands requests to them, and watches their logs.
#![tactic(auto)]

mod configs;
mod drives;
mod host;
mod keys;
mod lines;
mod refusals;
mod requests;
mod run;
mod sessions;
mod watches;

use outside::{FileDisk, FromRead, ToWrite};
use ritas_base::Mem;
use run::run;
use std::alloc::{AllocGlobal, Global};
use std::env::Env;
use std::io::ErrorKind;
use std::process::ExitCode;
use std::{env, io};
use tcp_link::TcpLink;

// The words of the command line. A command line with a word that isn't UTF-8 is a faulty one, as that with no words is.
fn read_words<R: Env + AllocGlobal>(rt: &R) -> Result<Vec<String>, Mem> {
    let mut words = Vec::new(rt.alloc());
    match env::args(rt) {
        Ok(args) => {
            for word in args {
                words.push(word)?;
            }
        }
        Err(error) => {
            if error.kind() == ErrorKind::OutOfMemory {
                return Err(Mem);
            }
        }
    }
    Ok(words)
}

fn main(rt: HostRuntime) -> ExitCode {
    let Ok(words) = read_words(&rt) else {
        return ExitCode::from(8);
    };
    let mut input = FromRead::new(rt.reader());
    let mut output = ToWrite::new(io::writer(&rt));
    let mut link = TcpLink::with_clock(rt.alloc(), rt);
    let mut disk = FileDisk::new(rt);
    let status = run(
        &rt,
        rt.alloc(),
        &words,
        &mut input,
        &mut output,
        &mut link,
        &mut disk,
    );
    link.flush();
    ExitCode::from(status)
}
