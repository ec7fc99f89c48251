//! A laboratory for stores. It reads cases from standard input and carries them out on disks in memory. For
//! each case it prints how many of its checks passed and how many failed, and what was found instead.
//!
//! A script works on one disk and a list of calls (`calls disk`, `calls journal`, `calls keeper`,
//! `calls desk`). It makes the calls (`run`), stops them at each device call (`fuse`) or lets each device
//! call fail (`fail`), and checks what is found afterwards.
#![tactic(auto)]

mod act;
mod bench;
mod checks;
mod desks;
mod disks;
mod formats;
mod images;
mod journals;
mod keepers;
mod level;
mod lies;
mod made;
mod names;
mod shown;
mod tally;
mod trial;
mod trouble;
mod words;

use bench::Bench;
use checks::Verdict;
use std::io;
use trouble::Trouble;
use words::first_word;

/// How many checks of a case passed, and how many failed.
#[derive(Clone, Copy)]
struct Score {
    good: u64,
    wrong: u64,
}

const NONE: Score = Score { good: 0, wrong: 0 };

fn end_case(rt: &impl Print, name: &str, score: Score) -> Result<(), Trouble> {
    if name.is_empty() {
        return Ok(());
    }
    let Score { good, wrong } = score;
    println!(rt; "{name}: {good} good, {wrong} wrong")?;
    Ok(())
}

// Carries out a line of a case.
fn count_line(
    rt: &impl Print,
    bench: &mut Bench,
    line: &str,
    mut score: Score,
) -> Result<Score, Trouble> {
    match bench.obey(line)? {
        Verdict::Done => {}
        Verdict::Good => score.good = score.good.saturating_add(1),
        Verdict::Wrong(found) => {
            score.wrong = score.wrong.saturating_add(1);
            println!(rt; "found: {found}; where it says: {line}")?;
        }
    }
    Ok(score)
}

fn run_script(rt: &impl Print, bench: &mut Bench, text: &str) -> Result<(), Trouble> {
    let mut name = "";
    let mut score = NONE;
    for line in text.lines() {
        let (word, rest) = first_word(line);
        if word == "case" {
            end_case(rt, name, score)?;
            name = rest;
            score = NONE;
        } else if !line.is_empty() && !line.starts_with('#') {
            score = count_line(rt, bench, line, score)?;
        }
    }
    end_case(rt, name, score)
}

fn main(rt: HostRuntime) -> Result<(), Trouble> {
    let text = io::read_to_string(rt.alloc(), rt.reader())?;
    let mut bench = Bench::new(rt.alloc())?;
    let ran = run_script(&rt, &mut bench, text.as_str());
    drop(bench);
    ran
}
