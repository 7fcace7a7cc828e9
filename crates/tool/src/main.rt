// The program behind ./saltreeve: `tool check FILE` prints the findings of a sheet, `tool why FILE` prints them with their reasons, `tool why FILE QUESTION` the answer to a question.
#![tactic(auto)]

ghost use Rattle.std.specs.Prelude.{◌≤◌, length};

use report::Report;
use std::env::FillError;
use std::fs::File;
use std::io;
use std::io::{Read, Write};
use std::rt::{Env, Files};
use store::Store;

// Says on standard error what went wrong.
fn complain(rt: &impl Eprint, text: &str) {
    let _ = rt.eprint(text);
}

// Writes a text to standard output.
fn say(rt: &(impl Print + Eprint), text: &[u8]) {
    if rt.write_all(text).is_err() {
        complain(rt, "tool: the text could not be written\n");
    }
}

// Writes the first n bytes of the room, unless they are the line of a refusal and that is not wanted.
fn say_unless(rt: &(impl Print + Eprint), room: &[u8], n: usize, refusals: bool) {
    if room.len() < n {
        complain(rt, "tool: the reason is too long to be printed\n");
        return;
    }
    let text = &room[..n];
    if refusals || text.first() != Some(&b'r') {
        say(rt, text);
    }
}

// Writes the answer to a question about a sheet into the room, with the store that its edition needs; gives its length.
fn write_answer(sheet: &[u8], question: &[u8], room: &mut [u8]) -> usize {
    if sheet::edition::wide(sheet) {
        answer::reply::reply_large(sheet, question, room)
    } else {
        answer::reply::reply(sheet, question, room)
    }
}

// Prints the answer to a question about a sheet; the line of a refusal only if it is wanted.
fn print_answer(rt: &(impl Print + Eprint), sheet: &[u8], question: &[u8], refusals: bool) {
    let mut room = [0u8; 65536];
    let n = write_answer(sheet, question, &mut room);
    say_unless(rt, &room, n, refusals);
}

// Prints a line of a sheet's text, and below it, if it is that of a finding, its reason.
fn print_line(rt: &(impl Print + Eprint), sheet: &[u8], line: &[u8]) {
    say(rt, line);
    if line.first() == Some(&b'f') {
        print_answer(rt, sheet, line, false);
    }
}

// Prints the lines of a sheet's text, and below those of findings their reasons.
fn print_lines(rt: &(impl Print + Eprint), sheet: &[u8], lines: &[u8]) {
    for line in lines.split_inclusive(|b| *b == b'\n') {
        print_line(rt, sheet, line);
    }
}

// Writes the text of a sheet of edition 2 into the room, with the larger store; gives its length.
fn write_large(sheet: &[u8], room: &mut [u8]) -> usize {
    let mut words = [0u64; Store::LARGE_WORDS];
    report::page::page_in(sheet, &mut words, room)
}

// Writes the text of a sheet into the room, with the store that its edition needs; gives its length.
fn write_text(sheet: &[u8], room: &mut [u8]) -> usize {
    if sheet::edition::wide(sheet) {
        write_large(sheet, room)
    } else {
        report::page::page(sheet, room)
    }
}

// Prints the findings of a sheet and their total; each with its reason below it where it has one, if `reasons`.
fn print_all(rt: &(impl Print + Eprint), sheet: &[u8], reasons: bool) {
    let mut room = [0u8; Report::LARGE_BYTES];
    let n = write_text(sheet, &mut room);
    let text = text::part::part(&room, 0, n);
    if reasons {
        print_lines(rt, sheet, text);
    } else {
        say(rt, text);
    }
}

// Answers the question that the program was started with, or all questions if there is none. One that is cut at 1,024 bytes is still answered rightly: no statement and no finding has so many.
fn answer_all(rt: &(impl Env + Print + Eprint), sheet: &[u8]) {
    let mut question = [0u8; 1024];
    match rt.arg(3, &mut question) {
        Ok(n) => print_answer(rt, sheet, &question[..n], true),
        Err(FillError::TooLong) => print_answer(rt, sheet, &question, true),
        Err(FillError::NotPresent) => print_all(rt, sheet, true),
    }
}

// Reads one byte more than a sheet may have, so that a longer one is known, and checks it, or answers.
fn read_sheet(rt: &(impl Env + Print + Eprint), input: &mut impl Read, check: bool) {
    let mut sheet = [0u8; 32769];
    let n = intake::read_full(input, &mut sheet);
    if n < sheet.len() && !intake::ended(input) {
        complain(rt, "tool: the sheet could not be read to its end\n");
        return;
    }
    if check {
        print_all(rt, &sheet[..n], false);
    } else {
        answer_all(rt, &sheet[..n]);
    }
}

// Whether the program was started with a verb.
fn asked(rt: &impl Env, known: &[u8]) -> bool {
    let mut verb = [0u8; 8];
    matches!(rt.arg(1, &mut verb), Ok(n) if &verb[..n] == known)
}

// Says on standard error why a file could not be opened, in std's words without the number behind them.
fn fail(rt: &impl Eprint, name: &str, error: io::Error) {
    let mut room = [0u8; 128];
    let mut rest = &mut room[..];
    let _ = write!(rest, "{error}");
    let n = 128usize.saturating_sub(rest.len());
    let text = std::str::from_utf8(text::part::part(&room, 0, n)).unwrap_or("");
    let words = text.split(" (os error ").next().unwrap_or("");
    let _ = eprintln!(rt; "{name}: {words}");
}

// Does what the verb says with the sheet in a file.
fn serve(rt: &(impl Env + Files + Print + Eprint), path: &[u8]) {
    let check = asked(rt, b"check");
    if !check && !asked(rt, b"why") {
        complain(rt, "tool: the verb is not known: there are check and why\n");
        return;
    }
    let Ok(name) = std::str::from_utf8(path) else {
        let _ = eprintln!(rt; "{}: the name is not UTF-8", path.escape_ascii());
        return;
    };
    match File::open(rt, name) {
        Ok(mut file) => read_sheet(rt, &mut file, check),
        Err(error) => fail(rt, name, error),
    }
}

// Takes the name of the file that the program was started with.
fn main(rt: HostRuntime) {
    let mut path = [0u8; 4096];
    match rt.arg(2, &mut path) {
        Ok(n) => serve(&rt, &path[..n]),
        Err(_) => complain(
            &rt,
            "tool: give a verb and a file whose name is not too long, as in: tool why FILE\n",
        ),
    }
}
