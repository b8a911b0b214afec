//! `rangelock serial` plays the trace on standard input and writes its transcript to standard output, and so do
//! `rangelock crew`, `rangelock live` and `rangelock cut` by so many threads. `rangelock store` plays the script on standard input.
//! `rangelock make` and `rangelock sum` make a trace of three numbers, and write it or the numbers of its run.
#![tactic(auto)]

use lt_barrier::MarkBarrier;
use lt_crew::OpenGate;
use lt_edge::{ReadSource, WriteSink};
use lt_program::{run, status};
use lt_watch::{ListWatch, Watchers};
use std::alloc::{AllocError, Global};
use std::process::ExitCode;
use std::rt::Env;
use std::{env, io};

/// How many items the watch of a run may be told: a join is one item, and each range behind it is another.
const WATCHED_ITEMS: usize = 65_536;

fn main(rt: HostRuntime) -> ExitCode {
    let status = match (words(&rt), list_watch(rt.alloc()), no_marks(rt.alloc())) {
        (Ok(words), Ok(list), Ok(barrier)) => {
            let mut watch = Watchers::new(rt.alloc());
            let mut source = ReadSource::new(rt.reader());
            let mut sink = WriteSink::new(io::writer(&rt));
            let status = match watch.add(list) {
                Ok(()) => run(
                    &rt,
                    rt.alloc(),
                    words.as_slice(),
                    &mut source,
                    &mut sink,
                    &mut watch,
                    &OpenGate,
                    barrier,
                ),
                Err(_) => status::NO_MEMORY,
            };
            let joins = watch.take_back(0).map_or(0, |told| told.joins());
            if joins != 0 {
                let _ = eprintln!(rt; "escalations: {joins}");
            }
            status
        }
        (Err(status), _, _) => status,
        (Ok(_), _, _) => status::NO_MEMORY,
    };
    if status == status::USAGE {
        // Where standard error fails too, the status alone has to tell.
        let _ = eprintln!(rt;
            "usage: rangelock serial | crew N | live N | cut N KEY | store | make SEED TXNS LINES | sum SEED TXNS LINES"
        );
    }
    ExitCode::from(status)
}

/// The words behind the program's name, or the status for a word that is no text or for want of memory.
fn words(rt: &(impl Env + Alloc<A = Global>)) -> Result<Vec<String>, u8> {
    match env::args(rt) {
        Ok(args) => args
            .skip(1)
            .collect(rt.alloc())
            .map_err(|_| status::NO_MEMORY),
        Err(error) if error.kind() == io::ErrorKind::OutOfMemory => Err(status::NO_MEMORY),
        Err(_) => Err(status::USAGE),
    }
}

/// A watch that was told nothing.
fn list_watch(alloc: Global) -> Result<Box<ListWatch>, AllocError> {
    Ok(Box::new(alloc, ListWatch::new(alloc, WATCHED_ITEMS)?)?)
}

/// A barrier without marks.
fn no_marks(alloc: Global) -> Result<Box<MarkBarrier>, AllocError> {
    Ok(Box::new(alloc, MarkBarrier::new(alloc))?)
}
