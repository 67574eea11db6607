// Times the measurement: nanoseconds for one, over bodies of 4, 8, 16 and 50 corners. It is no test: with no argument it only says how to run it.
#![tactic(auto)]

use exact::corner::Corner;
use exact::point::Point;
use nearest::corners::Corners;
use nearest::measure::measure;
use std::alloc::Global;
use std::env;
use std::rt::{Clock, Env};
use std::time::Instant;

// A simple generator of numbers.
#[derive(Drop)]
struct Noise(u64);

impl Noise {
    // The next coordinate, within ±7.
    fn coordinate(&mut self) -> i64 {
        // Below 15, so that nothing is lost.
        let x = (self.0.rotate_left(20) % 15) as i64 - 7;
        self.0 = self
            .0
            .wrapping_mul(6364136223846793005)
            .wrapping_add(1442695040888963407);
        x
    }
}

// As many corners as asked for within ±7 steps of a middle.
fn cloud(heap: Global, count: usize, from: u64, middle: i64) -> anyhow::Result<Vec<Corner>> {
    let mut list = Vec::new(heap);
    let mut noise = Noise(from);
    for _ in 0..count {
        let x = noise.coordinate().saturating_add(middle);
        let y = noise.coordinate();
        let z = noise.coordinate();
        list.push(Corner::try_from(Point { x, y, z })?)?;
    }
    Ok(list)
}

// How many pairs of bodies are measured, and how often each.
const PAIRS: u64 = 16;

const TIMES: u64 = 20000;

// How many of the measurements found a gap: the answers are used, so that the work is done.
fn measured(heap: Global, count: usize) -> anyhow::Result<u64> {
    let mut apart = 0u64;
    for k in 0..PAIRS {
        let first = cloud(heap, count, k.wrapping_mul(977).wrapping_add(1), -6)?;
        let second = cloud(heap, count, k.wrapping_mul(7919).wrapping_add(5), 6)?;
        let a = Corners::try_from(first.as_slice())?;
        let b = Corners::try_from(second.as_slice())?;
        for _ in 0..TIMES {
            if measure(&a, &b).is_ok_and(|found| found.gap.p > 0) {
                apart = apart.saturating_add(1);
            }
        }
    }
    Ok(apart)
}

fn timed(rt: &HostRuntime, count: usize) -> anyhow::Result<()> {
    let start = Instant::now(rt)?;
    let apart = measured(rt.alloc(), count)?;
    let spent = start.elapsed(rt)?;
    let all = PAIRS * TIMES;
    let each = spent.as_nanos() / u128::from(all);
    println!(rt; "{count} corners: {each} ns a measurement, {apart} of {all} apart")?;
    Ok(())
}

fn run(rt: &HostRuntime) -> anyhow::Result<()> {
    if env::args(rt)?.count() < 2 {
        println!(rt;
            "timing run: prints nanoseconds for one measurement of bodies of 4, 8, 16 and 50 corners"
        )?;
        return Ok(());
    }
    for count in [4, 8, 16, 50] {
        timed(rt, count)?;
    }
    Ok(())
}

fn main(rt: HostRuntime) -> anyhow::Result<()> {
    run(&rt)
}
