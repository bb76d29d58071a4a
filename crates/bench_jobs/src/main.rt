//! The jobs that users of a workbench wait for, on inputs that are made by a number.
//!
//! `bench_jobs JOB SIZE SEED` plays the sessions of a job, and prints for each the digest of its replies and how
//! many bytes they have. JOB is `edits`, `first_trace`, `files`, `script`, `plan`, `full_bus` or `all`; SIZE
//! is `whole` or `small`; another SEED gives other inputs of the same kind and size. With the number of a session
//! behind them, `bench_jobs JOB SIZE SEED NUMBER` prints its input in place of that.
#![tactic(auto)]

mod digest;
mod digits;
mod editing;
mod files;
mod full_bus;
mod job;
mod network;
mod objects;
mod plan;
mod random;
mod script;
mod sheet;
mod size;
mod traces;
mod words;

use anyhow::{Result, anyhow, bail};
use digest::Digest;
use job::Job;
use random::Random;
use size::Size;
use std::env;
use std::io::Write;
use words::Words;
use workbench::{Counted, session_of_process};

/// Plays a session, and prints the digest of its replies.
fn play(rt: &HostRuntime, job: Job, number: u32, script: &[u8]) -> Result<()> {
    let mut reader = Counted::new(script);
    let mut writer = Counted::new(Digest::new());
    session_of_process(rt.alloc(), &mut reader, &mut writer)?;
    let digest = writer.inner();
    let name = job.name();
    let value = digest.value();
    let bytes = digest.bytes();
    println!(rt; "{name} {number} {value:016x} {bytes} bytes")?;
    Ok(())
}

/// The input of a session of a job.
fn input(rt: &HostRuntime, job: Job, words: &Words, number: u32) -> Result<String> {
    let mut random = Random::of(words.seed, job.number(), number);
    let script = job.script(rt.alloc(), words.size, &mut random, number)?;
    Ok(script)
}

/// Plays the sessions of a job.
fn play_all(rt: &HostRuntime, job: Job, words: &Words) -> Result<()> {
    for number in 0..job.sessions(words.size) {
        let script = input(rt, job, words, number)?;
        play(rt, job, number, script.as_bytes())?;
    }
    Ok(())
}

/// Prints the input of a session of a job.
fn show(rt: &HostRuntime, job: Job, words: &Words, number: u32) -> Result<()> {
    let script = input(rt, job, words, number)?;
    rt.stdout().write_all(script.as_bytes())?;
    Ok(())
}

fn main(rt: HostRuntime) -> Result<()> {
    let mut given = Vec::new(rt.alloc());
    for word in env::args(&rt)? {
        given.push(word)?;
    }
    let words = Words::read(&given).ok_or(anyhow!("JOB SIZE SEED [NUMBER]"))?;
    match (words.job, words.number) {
        (Some(job), Some(number)) => show(&rt, job, &words, number),
        (Some(job), None) => play_all(&rt, job, &words),
        (None, None) => {
            for job in Job::ALL {
                play_all(&rt, job, &words)?;
            }
            Ok(())
        }
        (None, Some(_)) => bail!("of all jobs, which?"),
    }
}
