//! Tests of the words of command lines: the jobs that they name, and words that name none.

use cluster_config::{Job, read_words};
use ritas_base::{DriveWhat, What};
use std::alloc::Global;
use std::test::*;

// The job that these words name, if they name one. It promises nothing, so that what calls it has a short proof.
fn named(alloc: Global, list: &[&str]) -> Result<Option<Job>, Fail> {
    let mut words: Vec<String> = Vec::new(alloc);
    for word in list {
        words.push(String::from_str(alloc, word)?)?;
    }
    Ok(read_words(alloc, &words).ok())
}

#[test]
fn words(rt: HostRuntime) -> Result<(), Fail> {
    let alloc = rt.alloc();
    let job = named(alloc, &["ritas", "replay", "vectors"])?;
    assert!(rt; job == Some(Job::Replay(What::Vectors)));
    let job = named(alloc, &["--help", "drive", "report"])?;
    assert!(rt; job == Some(Job::Drive(DriveWhat::Report)));
    assert!(rt; named(alloc, &["ritas", "node", "--"])? == Some(Job::Node));
    assert!(rt; named(alloc, &["ritas", "drive", "vectors"])?.is_none());
    Ok(())
}
