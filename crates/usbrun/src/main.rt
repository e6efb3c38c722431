//! `usbrun`: reads a scene from standard input, and prints the report of its run or the list of its devices; or prints how the
//! scene of a number goes.
#![tactic(auto)]

ghost use Rattle.std.specs.Prelude.{◌≡◌, [], drop, IfOk, OnErr};
ghost use Rattle.std.specs.Vec.Iter.{into_iter_items};

use std::alloc::{AllocError, Global};
use std::io::ErrorKind;
use std::process::ExitCode;
use std::{env, io};
use usb_run::{Status, usbrun};
use usb_types::{Free, StdSink, StdSource};

// The words after the first, which is the program's name.
fn words_after_name(alloc: Global, args: env::Args) -> Result<Vec<String>, AllocError>
    ensures { IfOk result (λ words. words.items ≡ drop 1 (into_iter_items args)) }
{
    args.skip(1).collect(alloc)
}

// The words after the program's name. Where one of them is no text there are none, which is no command.
fn words_of(alloc: Global, args: io::Result<env::Args>) -> Result<Vec<String>, AllocError>
    ensures all { IfOk args (λ given. IfOk result (λ words. words.items ≡ drop 1 (into_iter_items given))) }
    ensures none { OnErr args (IfOk result (λ words. words.items ≡ [])) }
{
    match args {
        Ok(args) => words_after_name(alloc, args),
        Err(error) if error.kind() == ErrorKind::OutOfMemory => Err(AllocError),
        Err(_) => Ok(Vec::new(alloc)),
    }
}

fn main(rt: HostRuntime) -> ExitCode {
    let alloc = rt.alloc();
    let mut input = StdSource::new(rt.stdin());
    let mut out = StdSink::new(rt.stdout());
    let status = match words_of(alloc, env::args(&rt)) {
        Ok(words) => usbrun(&rt, alloc, &words, &mut input, &mut out, &Free),
        Err(_) => Status::Memory,
    };
    if status != Status::Done {
        let _ = eprintln!(rt; "{status}");
    }
    ExitCode::from(status)
}
