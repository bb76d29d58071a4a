//! The words of the command line.

use crate::job::Job;
use crate::size::Size;

/// What the words ask for.
#[derive(Drop)]
pub struct Words {
    /// None for all jobs.
    pub job: Option<Job>,
    pub size: Size,
    pub seed: u64,
    /// The session whose input is to be printed.
    pub number: Option<u32>,
}

fn size_of(word: &str) -> Option<Size> {
    match word {
        "small" => Some(Size::Small),
        "whole" => Some(Size::Whole),
        _ => None,
    }
}

impl Words {
    /// Reads the words, of which the first is the program's name.
    pub fn read(words: &[String]) -> Option<Words> {
        let job = words.get(1)?;
        let size = words.get(2)?;
        let seed = words.get(3)?;
        let number = match words.get(4) {
            None => None,
            Some(word) => Some(word.parse::<u32>().ok()?),
        };
        let job = match job.as_str() {
            "all" => None,
            name => Some(Job::named(name)?),
        };
        Some(Words {
            job,
            size: size_of(size.as_str())?,
            seed: seed.parse::<u64>().ok()?,
            number,
        })
    }
}
