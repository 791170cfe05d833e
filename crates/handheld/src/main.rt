// The handheld: plays a visit on a tape, and shows that its fill makes no difference.
#![tactic(auto)]

use command::failures::Failure;
use command::fills::compare_fills;
use command::requests::read_requests;
use command::words::{Command, command_of};
use hexadecimal::encode;
use link::Link;
use link::visits::read_reply;
use std::process::ExitCode;
use std::{env, fs};
use tape::Tape;

fn main(rt: HostRuntime) -> ExitCode {
    match run(&rt) {
        Ok(()) => ExitCode::SUCCESS,
        Err(failure) => {
            let _ = eprintln!(rt; "handheld: {failure}");
            ExitCode::FAILURE
        }
    }
}

fn run(rt: &HostRuntime) -> Result<(), Failure> {
    let words: Vec<String> = env::args(rt)?.skip(1).collect(rt.alloc())?;
    match command_of(words.as_slice()).ok_or(Failure::Usage)? {
        Command::Help => help(rt),
        Command::Visit { tape, requests } => visit(rt, tape, requests),
    }
}

const HELP: &str = "handheld visit TAPE REQUEST...
  opens the tape in the file TAPE, sends each REQUEST and prints its reply or silence;
  then plays the same visit beside a tape with every fill byte inverted, and compares.
  A REQUEST is bytes in hexadecimal, as 03 or 0902; - is a request of no bytes.
handheld --help
  prints these lines.";

fn help(rt: &HostRuntime) -> Result<(), Failure> {
    println!(rt; "{HELP}")?;
    Ok(())
}

fn visit(rt: &HostRuntime, path: &str, words: &[String]) -> Result<(), Failure> {
    let requests = read_requests(rt.alloc(), words)?;
    let bytes = fs::read(rt, path).map_err(|_| Failure::NoFile)?;
    let mut tape = Tape::new(rt.alloc())?;
    let entries = tape.open(bytes.as_slice())?;
    println!(rt; "tape {path}: {entries} entries")?;
    let replies = play(rt, &mut tape, requests.as_slice())?;
    match compare_fills(rt.alloc(), bytes.as_slice(), requests.as_slice())? {
        None => println!(rt;
            "beside the same tape with every fill byte inverted: nothing differs"
        )?,
        Some(k) => println!(rt;
            "beside the same tape with every fill byte inverted: request #{k} differs"
        )?,
    }
    let sent = requests.len();
    let silent = sent.saturating_sub(replies);
    println!(rt;
        "done: tape opened; requests sent: {sent}, answered: {replies}, silent: {silent}; fill compared"
    )?;
    Ok(())
}

// Sends each request, prints what it gets, and counts the replies.
fn play(rt: &HostRuntime, tape: &mut Tape, requests: &[Vec<u8>]) -> Result<usize, Failure> {
    let mut replies = 0usize;
    for request in requests {
        let mut asked = encode(rt.alloc(), request.as_slice())?;
        if request.is_empty() {
            asked.push_str("-")?;
        }
        if tape.send(request.as_slice()) {
            let reply = read_reply(tape, rt.alloc())?;
            let given = encode(rt.alloc(), reply.as_slice())?;
            println!(rt; "{asked} -> {given}")?;
            replies = replies.saturating_add(1);
        } else {
            println!(rt; "{asked} -> silence")?;
        }
    }
    Ok(replies)
}
