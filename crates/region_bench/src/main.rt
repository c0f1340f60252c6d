//! Operations on regions, for checks and benchmarks. The words are the operation, a count and the edges of rectangles: the first
//! region is made of so many of them, the second of the rest. The result's rectangles are printed, or their number if too many.
//!
//! Without edges both are made of so many columns, those of the second right below those of the first. `line` is one region of such
//! columns, `grid` one of so many columns across as many rows; of these the number is printed.
//!
//! With a shape (rows, columns, checkers, combs) and a number in the place of the edges both are made of so many rectangles of that
//! shape, and the operation is done so often and once more: union, intersect, subtract, xor, offset, or rects, which makes the first
//! region anew. The number of the last result's rectangles is printed.
#![tactic(auto)]

mod asked;
mod made;
mod shapes;

use asked::asked;
use made::{grid, line, stacked};
use region::{Region, RegionRefusal};
use shapes::{repeated, shape_named};
use std::process::ExitCode;
use std::{env, io};

/// Prints a region, or why there is none.
fn print(rt: &HostRuntime, region: &Result<Region, RegionRefusal>) -> io::Result<()> {
    match region {
        Ok(region) => {
            for r in region.rects() {
                println!(rt; "{} {} {} {}", r.left, r.top, r.right, r.bottom)?;
            }
            Ok(())
        }
        Err(RegionRefusal::TooMany(count)) => println!(rt; "too many {count}"),
        Err(RegionRefusal::NoMemory) => println!(rt; "no memory"),
    }
}

/// Prints how many rectangles a region has.
fn print_count(rt: &HostRuntime, region: &Result<Region, RegionRefusal>) -> io::Result<()> {
    match region {
        Ok(region) => println!(rt; "{}", region.rects().len()),
        Err(_) => print(rt, region),
    }
}

/// The number of a word, 0 where it is none.
fn number(word: &String) -> i32 {
    word.as_str().parse::<i32>().unwrap_or(0)
}

fn run(rt: &HostRuntime) -> io::Result<()> {
    let alloc = rt.alloc();
    let mut words = env::args(rt)?.skip(1);
    let (Some(name), Some(count)) = (words.next(), words.next()) else {
        return println!(rt;
            "usage: region_bench OPERATION COUNT EDGES.. or OPERATION COUNT SHAPE TIMES"
        );
    };
    let name = name.as_str();
    let count = count.as_str().parse::<u16>().unwrap_or(0);
    let mut edges = Vec::new(alloc);
    if let Some(word) = words.next() {
        if let Some(shape) = shape_named(word.as_str()) {
            let times = words.next().map_or(0, |word| number(&word));
            return print_count(rt, &repeated(alloc, name, shape, count, times));
        }
        if edges.push(number(&word)).is_err() {
            return println!(rt; "no memory");
        }
    }
    for word in words {
        if edges.push(number(&word)).is_err() {
            return println!(rt; "no memory");
        }
    }
    match name {
        "line" => print_count(rt, &line(alloc, count)),
        "grid" => print_count(rt, &grid(alloc, count)),
        _ if edges.is_empty() => print_count(rt, &stacked(alloc, name, count)),
        _ => print(rt, &asked(alloc, name, count, &edges)),
    }
}

fn main(rt: HostRuntime) -> ExitCode {
    if run(&rt).is_err() {
        return ExitCode::FAILURE;
    }
    ExitCode::SUCCESS
}
