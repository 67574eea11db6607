// Measures the pairs of bodies on standard input, one pair to a line, and prints D, W, p and q of each: what it prints is compared with what an
// independent program worked out (tools/oracle.py). A line has two counts and then the coordinates of that many corners of each body.
#![tactic(auto)]

use anyhow::Context;
use exact::corner::Corner;
use exact::fraction::Fraction;
use exact::gap::Gap;
use exact::point::Point;
use nearest::corners::Corners;
use nearest::measure::measure;
use std::alloc::Global;
use std::slice::Iter;

// The numbers of a line.
fn numbers(heap: Global, line: &str) -> anyhow::Result<Vec<i64>> {
    let mut all = Vec::new(heap);
    for word in line.split_whitespace() {
        all.push(word.parse::<i64>()?)?;
    }
    Ok(all)
}

// The next number of a line.
fn number(rest: &mut Iter<'_, i64>) -> anyhow::Result<i64> {
    rest.next().copied().context("a line has too few numbers")
}

// The next count corners of a line.
fn corners(heap: Global, rest: &mut Iter<'_, i64>, count: usize) -> anyhow::Result<Vec<Corner>> {
    let mut list = Vec::new(heap);
    for _ in 0..count {
        let x = number(rest)?;
        let y = number(rest)?;
        let z = number(rest)?;
        list.push(Corner::try_from(Point { x, y, z })?)?;
    }
    Ok(list)
}

// The measurement of one line.
fn compared(rt: &(impl Print + AllocGlobal), line: &str) -> anyhow::Result<()> {
    let heap = rt.alloc();
    let all = numbers(heap, line)?;
    let mut rest = all.iter();
    let n = usize::try_from(number(&mut rest)?)?;
    let m = usize::try_from(number(&mut rest)?)?;
    let first = corners(heap, &mut rest, n)?;
    let second = corners(heap, &mut rest, m)?;
    let a = Corners::try_from(first.as_slice())?;
    let b = Corners::try_from(second.as_slice())?;
    match measure(&a, &b) {
        Ok(found) => {
            let Fraction { point, over: w } = found.difference;
            let Point { x, y, z } = point;
            let Gap { p, q } = found.gap;
            println!(rt; "{x} {y} {z} {w} {p} {q}")?;
        }
        Err(_) => println!(rt; "refused")?,
    }
    Ok(())
}

fn run(rt: &(impl Input + Print + AllocGlobal)) -> anyhow::Result<()> {
    for line in rt.lines(rt.alloc()) {
        let line = line?;
        compared(rt, line.as_str())?;
    }
    Ok(())
}

fn main(rt: HostRuntime) -> anyhow::Result<()> {
    run(&rt)
}
