//! Reads vectors from standard input, a line `a b c result` of patterns in hexadecimal digits each, and prints each of which `fused` gives
//! another result.
#![tactic(auto)]

use anyhow::{Context, Result, ensure};
use fused::fused;
use std::io::{BufRead, BufReader};
use std::num::f32_to_bits_with_nan;
use vector::{Vector, is_same};

mod vector;

fn run(rt: &(impl Input + Print + AllocGlobal)) -> Result<()> {
    let alloc = rt.alloc();
    let mut vectors = 0u64;
    let mut differ = 0u64;
    for line in BufReader::new(alloc, rt.reader())?.lines(alloc) {
        let line = line?;
        vectors = vectors.saturating_add(1);
        let vector: Vector = line.parse().context(format_args!("line {vectors}"))?;
        let result = fused(vector.a, vector.b, vector.c);
        if !is_same(result, vector.result) {
            differ = differ.saturating_add(1);
            println!(rt; "{line}: {:08x}", f32_to_bits_with_nan(result))?;
        }
    }
    println!(rt; "{vectors} vectors, {differ} differ")?;
    ensure!(differ == 0, "{differ} differ");
    Ok(())
}

fn main(rt: HostRuntime) -> Result<()> {
    run(&rt)
}
