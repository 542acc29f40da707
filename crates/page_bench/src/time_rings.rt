//! A request and its verdict through a pair of rings, on one thread and between two.
use crate::server::{Server, new_pair, serve_one};
use crate::step::{Refusal, print_step};
use page_model::Verdict;
use share_rings::Port;
use std::alloc::Global;
use std::rt::Clock;
use std::sync::Wait;
use std::thread::Threads;
use std::time::Instant;
use std::{io, thread};

// How many round trips a try makes.
const FEW: u32 = 1000;

const STEPS: [(&str, bool); 2] = [("on one thread", false), ("between two", true)];

/// Makes as many round trips as asked for, and prints how many came back in order. With no number it makes a few.
pub fn time_rings<R: Clock + Threads + Wait + Print + Sync>(
    rt: &R,
    alloc: Global,
    asked: Option<u32>,
) -> io::Result<()> {
    let rounds = asked.unwrap_or(FEW);
    for (name, between_two) in &STEPS {
        let start = Instant::now(rt)?;
        let calls = round_trips(rt, alloc, rounds, *between_two);
        print_step(rt, start, asked.is_some(), name, calls)?;
    }
    Ok(())
}

// Returns how many round trips ended with the verdict of their own request.
fn round_trips<R: Threads + Wait + Sync>(
    rt: &R,
    alloc: Global,
    rounds: u32,
    between_two: bool,
) -> Result<u64, Refusal> {
    let Some((port, server)) = new_pair(alloc) else {
        return Err("no memory");
    };
    if between_two {
        between_two_threads(rt, port, server, rounds)
    } else {
        Ok(on_one_thread(port, server, rounds))
    }
}

fn on_one_thread(port: Port, server: Server, rounds: u32) -> u64 {
    let (mut port, mut server) = (port, server);
    let mut in_order = 0u64;
    for ppn in 0..rounds {
        let sent = port.propose(ppn).is_ok();
        let served = serve_one(&mut server);
        if sent && served && is_joined(port.verdict(), ppn) {
            in_order = in_order.wrapping_add(1);
        }
    }
    in_order
}

fn between_two_threads<R: Threads>(
    rt: &R,
    port: Port,
    server: Server,
    rounds: u32,
) -> Result<u64, Refusal> {
    let mut server = server;
    let Ok(guest) = thread::spawn(rt, move || ask(port, rounds)) else {
        return Err("no thread");
    };
    serve(&mut server, rounds);
    Ok(guest.join(rt))
}

fn is_joined(verdict: Option<Verdict>, ppn: u32) -> bool {
    match verdict {
        Some(Verdict::Joined(number)) => number == ppn,
        _ => false,
    }
}

// Plays the guest's part between two threads: it sends the next request once the verdict of the last has come.
fn ask(port: Port, rounds: u32) -> u64 {
    let mut port = port;
    let mut in_order = 0u64;
    for ppn in 0..rounds {
        if port.propose(ppn).is_ok() && is_joined(wait_for_verdict(&mut port), ppn) {
            in_order = in_order.wrapping_add(1);
        }
    }
    in_order
}

// Waits for the verdict of a request.
fn wait_for_verdict(port: &mut Port) -> Option<Verdict> {
    for _ in 0..u64::MAX {
        if let Some(verdict) = port.verdict() {
            return Some(verdict);
        }
        thread::yield_now();
    }
    None
}

// Plays the merger's part between two threads.
fn serve(server: &mut Server, rounds: u32) {
    let mut left = rounds;
    for _ in 0..u64::MAX {
        if left == 0 {
            return;
        }
        if serve_one(server) {
            left -= 1;
        } else {
            thread::yield_now();
        }
    }
}
