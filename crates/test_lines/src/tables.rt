//! Tables, line by line.
ghost use Rattle.std.specs.Prelude.{◌≡◌, ◌≢◌, ◌<◌, ◌≤◌, ◌↔◌, true, false, IfOk, OnOk};
ghost use Rattle.std.specs.Process.{exit_status};

use crate::bench::{Bench, Tables};
use crate::faults::{Fault, Why, show_refusal};
use crate::lines::{Line, line_of};
use crate::report::Report;
use crate::words::count_of;
use std::alloc::Global;
use std::process::ExitCode;
use std::{env, fs};

/// A table's name and its text.
#[derive(Drop)]
pub struct Table<'a> {
    pub name: &'a str,
    pub text: &'a str,
}

// Adds the answer of the line's call, or the last answer if the call is repeated.
fn answer_times<'a, B: Bench<'a>>(
    bench: &mut B,
    line: &Line<'a>,
    text: &mut String,
) -> Result<(), Fault> {
    for _ in 0..line.times.unwrap_or(1) {
        text.clear();
        bench.answer(line, text)?;
    }
    Ok(())
}

// Makes the line's call, and once more if it ran out of memory. The state must be the same before and after the
// failure; if not, returns `false` and puts the new state into `text`.
fn answer_again<'a, B: Bench<'a>>(
    alloc: Global,
    bench: &mut B,
    line: &Line<'a>,
    refused: &mut bool,
    text: &mut String,
) -> Result<bool, Fault> {
    let mut before = String::new(alloc);
    bench.show_state(&mut before)?;
    match answer_times(bench, line, text) {
        Err(Fault::Memory) => {}
        Err(fault) => return Err(fault),
        Ok(()) => return Ok(true),
    }
    *refused = true;
    let mut after = String::new(alloc);
    bench.show_state(&mut after)?;
    if after.as_str() == before.as_str() {
        answer_times(bench, line, text)?;
        return Ok(true);
    }
    text.clear();
    text.push_str("after a refusal: ")?;
    text.push_str(after.as_str())?;
    Ok(false)
}

// Whether the call gave the expected answer. `text` holds the answer, or receives the error.
fn is_wanted(
    wanted: Option<&str>,
    answer: Result<(), Fault>,
    text: &mut String,
) -> Result<bool, Fault> {
    let mut answers = true;
    let mut refused = false;
    if let Err(fault) = answer {
        text.clear();
        refused = true;
        answers = show_refusal(fault, text)?;
    }
    match wanted {
        Some(wanted) => Ok(answers && text.as_str() == wanted),
        None => Ok(!refused),
    }
}

// Whether the line's call gives the expected answer; `text` receives the answer.
fn is_right<'a, B: Bench<'a>>(
    alloc: Global,
    bench: &mut B,
    line: &'a str,
    report: &mut Report,
    text: &mut String,
) -> Result<bool, Fault> {
    match line_of(alloc, line) {
        Ok(line) if report.again && line.times.is_none() => {
            match answer_again(alloc, bench, &line, &mut report.refused, text) {
                Ok(true) => is_wanted(line.wanted, Ok(()), text),
                Ok(false) => Ok(false),
                Err(fault) => is_wanted(line.wanted, Err(fault), text),
            }
        }
        Ok(line) => is_wanted(line.wanted, answer_times(bench, &line, text), text),
        Err(fault) => is_wanted(None, Err(fault), text),
    }
}

/// Checks each line of a table except the first one, comments and empty lines. A line `new` starts with a new bench. A
/// table in which no line is counted is an error (`NoLines`).
pub fn check_lines<'a, B: Bench<'a>>(
    rt: &HostRuntime,
    table: &Table<'a>,
    report: &mut Report,
) -> Result<(), Fault>
    ensures counted { OnOk result (report.new.lines ≢ report.old.lines) }
{
    let mut bench = B::new(rt.alloc());
    let mut text = String::new(rt.alloc());
    let before = report.lines;
    for (place, line) in table.text.lines().enumerate() {
        report.at = place.saturating_add(1);
        if place == 0 || line.is_empty() || line.starts_with('#') {
            continue;
        }
        if line == "new" {
            bench = B::new(rt.alloc());
            continue;
        }
        text.clear();
        let right = is_right(rt.alloc(), &mut bench, line, report, &mut text)?;
        report.count(rt, table.name, line, right, text.as_str())?;
    }
    if report.lines == before {
        return Err(Fault::Unreadable(Why::NoLines));
    }
    Ok(())
}

// Checks a table by its head.
fn check_table<T: Tables>(
    rt: &HostRuntime,
    name: &str,
    text: &str,
    report: &mut Report,
) -> Result<(), Fault>
    ensures counted { OnOk result (report.new.lines ≢ report.old.lines) }
{
    report.at = 1;
    match text.split_once('\n') {
        Some((first, _)) => match first.split_once(' ') {
            Some(("#", head)) => T::check(rt, head, &Table { name, text }, report),
            _ => Err(Fault::Unreadable(Why::NoSuchTable)),
        },
        None => Err(Fault::Unreadable(Why::NoSuchTable)),
    }
}

// Checks the table in a file. Returns whether all of it could be checked.
fn check_file<T: Tables>(rt: &HostRuntime, name: &str, report: &mut Report) -> Result<bool, Fault> {
    report.at = 0;
    let checked = match fs::read_to_string(rt, name) {
        Ok(text) => check_table::<T>(rt, name, text.as_str(), report),
        Err(error) => Err(Fault::from(error)),
    };
    if let Err(fault) = checked {
        let at = report.at;
        println!(rt; "{name}:{at}: gave up: {fault:?}")?;
        return Ok(false);
    }
    Ok(true)
}

// The status: 0 if each table was checked to its end, there are lines, at least as many as expected, and none differs; 2
// if some table was not checked to its end; otherwise 1.
fn status_of(whole: bool, least: usize, report: &Report) -> u8
    ensures good { (result ≡ 0) ↔ ((whole ≡ true) × (0 < report.now.lines)
        × (least ≤ report.now.lines) × (report.now.differ ≡ 0)) }
    ensures broken { (result ≡ 2) ↔ (whole ≡ false) }
    ensures status { result ≤ 2 }
{
    if !whole {
        2
    } else if report.lines == 0 || report.lines < least || report.differ > 0 {
        1
    } else {
        0
    }
}

// Prints the number of lines, only the expected one if there are as many, and how many of them differ.
fn print_counts(rt: &HostRuntime, least: usize, report: &Report) -> Result<(), Fault> {
    let (lines, differ) = (report.lines, report.differ);
    if least > 0 && lines >= least {
        println!(rt; "at least {least} lines, {differ} differ")?;
    } else {
        println!(rt; "{lines} lines, {differ} differ")?;
    }
    Ok(())
}

// Checks the table of each word, and returns the status.
fn check_all<T: Tables>(rt: &HostRuntime) -> Result<u8, Fault>
    ensures { IfOk result (λ status. status ≤ 2) }
{
    let mut report = Report::new(false);
    let mut whole = true;
    let mut least = 0;
    for word in env::args(rt)?.skip(1) {
        if word.as_str() == "again" {
            report.again = true;
        } else if let Some(number) = word.strip_prefix("least=") {
            least = count_of(number)?;
        } else if !check_file::<T>(rt, word.as_str(), &mut report)? {
            whole = false;
        }
    }
    print_counts(rt, least, &report)?;
    Ok(status_of(whole, least, &report))
}

/// Checks the tables that the program's arguments name. After an argument `again`, each call that runs out of memory is
/// made once more. Prints each line that differs, then the number of lines and how many of them differ. An argument
/// `least=N` expects at least N lines, and prints only N if there are as many.
pub fn run<T: Tables>(rt: &HostRuntime) -> ExitCode
    ensures status { exit_status result ≤ 2 }
{
    match check_all::<T>(rt) {
        Ok(status) => ExitCode::from(status),
        Err(fault) => {
            let _ = eprintln!(rt; "gave up: {fault:?}");
            ExitCode::from(2)
        }
    }
}
