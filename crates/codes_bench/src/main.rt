//! Prints how fast the loops of `codes` are: `codes_bench NAME` runs one bench and prints a line with its
//! rate; with no name it prints the names.
#![tactic(auto)]

mod bench;
mod codes;
mod counts;
mod decoders;
mod kernel;
mod limits;
mod linear;
mod messages;
mod near;
mod rate;
mod scripts;
mod searches;
mod stacks;
mod words;

use bench::{BENCHES, Bench, Decoder, Searches, bench_named};
use rate::{Failure, Rate};
use std::alloc::AllocGlobal;
use std::env;
use std::process::ExitCode;
use std::rt::{Clock, Env, Runtime};
use std::thread::Threads;

// The first word after the program's name, if there is one.
fn first_word<R: Env + AllocGlobal>(rt: &R) -> Result<Option<String>, Failure> {
    Ok(env::args(rt)?.nth(1))
}

// The rate of a bench of decoders.
fn measure_decoder<R: Clock + AllocGlobal>(rt: &R, decoder: Decoder) -> Result<Rate, Failure> {
    match decoder {
        Decoder::Leaders => decoders::leaders_rate(rt),
        Decoder::Nearest => decoders::nearest_rate(rt),
        Decoder::Algebraic(q, n, d) => decoders::decode_rate(rt, q, n, d),
    }
}

// The rate of a bench of searches.
fn measure_searches<R: Clock + AllocGlobal + Threads + Sync>(
    rt: &R,
    searches: Searches,
) -> Result<Rate, Failure> {
    match searches {
        Searches::Rounds(n, k, workers) => searches::rounds_rate(rt, n, k, workers),
        Searches::Whole(workers) => searches::search_rate(rt, workers),
    }
}

// The rate of a bench.
fn measure<R: Clock + AllocGlobal + Threads + Sync>(rt: &R, bench: Bench) -> Result<Rate, Failure> {
    match bench {
        Bench::AddScaled(q) => linear::add_scaled_rate(rt, q),
        Bench::Echelon(q) => linear::echelon_rate(rt, q),
        Bench::Infosets(q) => linear::infosets_rate(rt, q),
        Bench::Bch(q, d) => codes::bch_rate(rt, q, d),
        Bench::Product => codes::product_rate(rt),
        Bench::Concatenated => codes::concatenated_rate(rt),
        Bench::StepBinary => messages::step_rate(rt, 45, 5, 2),
        Bench::StepQuaternary => messages::step_rate(rt, 20, 4, 4),
        Bench::Least(q, n, k, level) => kernel::least_rate(rt, q, n, k, level),
        Bench::Stack(q, n) => stacks::stack_rate(rt, q, n),
        Bench::Near(q, n, k) => near::near_rate(rt, q, n, k),
        Bench::Count(q, k) => counts::count_rate(rt, q, k),
        Bench::Limit(planes) => limits::limit_rate(rt, planes),
        Bench::Decoder(decoder) => measure_decoder(rt, decoder),
        Bench::Search(searches) => measure_searches(rt, searches),
        Bench::ParseWeights => scripts::weights_rate(rt),
        Bench::ParseMatrix => scripts::matrix_rate(rt),
    }
}

// Prints the names of all benches.
fn print_names<R: Runtime + AllocGlobal>(rt: &R) -> Result<(), Failure> {
    for row in &BENCHES {
        println!(rt; "{}", row.0)?;
    }
    Ok(())
}

// Prints the line of the bench with a name.
fn print_rate<R: Runtime + AllocGlobal + Threads + Sync>(
    rt: &R,
    word: &str,
) -> Result<(), Failure> {
    let Some(bench) = bench_named(word) else {
        return Err(Failure::Unknown);
    };
    let rate = measure(rt, bench)?;
    println!(rt; "{word}: {rate}")?;
    Ok(())
}

// Prints the line of the bench with a name, or the names of all.
fn run<R: Runtime + AllocGlobal + Threads + Sync>(rt: &R) -> Result<(), Failure> {
    match first_word(rt)? {
        Some(word) => print_rate(rt, &word),
        None => print_names(rt),
    }
}

fn main(rt: HostRuntime) -> ExitCode {
    match run(&rt) {
        Ok(()) => ExitCode::SUCCESS,
        Err(failure) => {
            let _ = eprintln!(rt; "codes_bench: {failure}");
            ExitCode::FAILURE
        }
    }
}
