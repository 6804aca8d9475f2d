// Solves the tile files of data/ by both cut makers, and prints the text for each; once more with more records where the shape
// was too large.
#![tactic(auto)]

mod both;

use both::Both;
use std::fs;

const FILES: u16 = 160;

const RECORDS: usize = 1_024;

const MORE_RECORDS: usize = 4_096;

// What is printed for a shape that has more cells than there are records.
const TOO_LARGE: &str = "refused 14 2 5 2\n";

// The folder of the files: data/ where the program runs in the crate's folder, else the one that it runs in.
fn files_folder(rt: &HostRuntime) -> anyhow::Result<&'static str> {
    if fs::exists(rt, "data")? {
        Ok("data")
    } else {
        Ok(".")
    }
}

// The bytes of the file of this number.
fn file(rt: &HostRuntime, folder: &str, number: u16) -> anyhow::Result<Vec<u8>> {
    let path = format!(in rt.alloc(); "{folder}/{number:03}.tile")?;
    Ok(fs::read(rt, path.as_str())?)
}

// Prints the text for a file, and whether the makers differ.
fn print_texts(rt: &HostRuntime, texts: &Both) -> anyhow::Result<()> {
    print!(rt; "{}", texts.by_push)?;
    if texts.differ() {
        println!(rt; "the makers differ")?;
    }
    Ok(())
}

// Prints the number of a file and its text, and tells whether its shape is too large.
fn print_file(rt: &HostRuntime, folder: &str, number: u16) -> anyhow::Result<bool> {
    let bytes = file(rt, folder, number)?;
    let texts = Both::solve(rt.alloc(), &bytes, RECORDS)?;
    println!(rt; "{number:03}")?;
    print_texts(rt, &texts)?;
    Ok(texts.by_push.as_str() == TOO_LARGE)
}

// Prints the number of a file and its text, with more records.
fn print_large_file(rt: &HostRuntime, folder: &str, number: u16) -> anyhow::Result<()> {
    let bytes = file(rt, folder, number)?;
    let texts = Both::solve(rt.alloc(), &bytes, MORE_RECORDS)?;
    println!(rt; "{number:03} with {MORE_RECORDS} records")?;
    print_texts(rt, &texts)
}

// Prints all files, and then those that are too large once more.
fn print_files(rt: &HostRuntime, folder: &str) -> anyhow::Result<()> {
    let mut large = Vec::new(rt.alloc());
    for number in 1..=FILES {
        if print_file(rt, folder, number)? {
            large.push(number)?;
        }
    }
    for number in large.iter() {
        print_large_file(rt, folder, *number)?;
    }
    Ok(())
}

fn main(rt: HostRuntime) -> anyhow::Result<()> {
    print_files(&rt, files_folder(&rt)?)
}
