// The program `lister`, for the tests: prints what the entry points give that write into a list of records. It reads on standard input a byte that says which store is lent, a few rules by number,
// and a sheet. The store is the smaller by 0, the smaller without its last word by 1, the larger by 2, and the larger without its last word by any other. A rule is a byte a number: how many items
// more are declared than the sheet does, then its words.
#![tactic(auto)]

ghost use Rattle.std.specs.Prelude.{◌≤◌};

use judge::RuleRefusal;
use rule::{Finding, Rule};
use sheet::{Accepted, Refused};
use spelled::Spelled;
use std::io;
use store::{Counts, Item, Store};

// How many records a list has.
const ROOM: usize = 24;

// How many rules are given.
const RULES: usize = 3;

// The bytes of a rule: how many items more are declared, then its words.
const RULE_BYTES: usize = 1 + Spelled::RULE;

// The bytes before the sheet.
const HEAD: usize = 1 + RULES * RULE_BYTES;

// One byte more than there can be, so that a longer sheet is known.
const INPUT: usize = HEAD + 32769;

// The words of the stores that are lent: of the smaller and the larger, whole and without the last word.
const SMALL: usize = Store::WORDS;

const SMALL_SHORT: usize = Store::WORDS - 1;

const LARGE: usize = Store::LARGE_WORDS;

const LARGE_SHORT: usize = Store::LARGE_WORDS - 1;

// What the words of a store are before.
const GARBAGE: u64 = 0x5555_5555_5555_5555;

// What reading a sheet with a list gave: the answer, and the list afterwards.
#[derive(Clone, Copy)]
struct Listed {
    pub answer: Result<Accepted, Refused>,
    pub list: [Finding; ROOM],
}

// What listing a rule's findings gave: the answer, and the list afterwards.
#[derive(Clone, Copy)]
struct Found {
    pub answer: Result<u64, RuleRefusal>,
    pub list: [Finding; ROOM],
}

// A list of records that no rule gives.
fn marked() -> [Finding; ROOM] {
    let mark = Finding {
        rule: 1000,
        item: Item(1000),
        second: Some(Item(1000)),
    };
    [mark; ROOM]
}

// Reads a sheet into the lent store, and the findings of its rules into a list that holds the records given.
fn read_list(sheet: &[u8], words: &mut [u64], given: [Finding; ROOM]) -> Listed {
    let mut list = given;
    let answer = listing::read(sheet, words, &mut list);
    Listed { answer, list }
}

// Lists the findings of a rule in a list that holds the records given.
fn find_list(
    words: &[u64],
    counts: Counts,
    number: usize,
    rule: Rule,
    given: [Finding; ROOM],
) -> Found {
    let mut list = given;
    let answer = listing::findings(words, counts, number, rule, &mut list);
    Found { answer, list }
}

// Prints a word.
fn word(rt: &impl Print, bytes: &[u8]) -> io::Result<()> {
    rt.write_all(bytes)
}

// Prints a number after a tab.
fn number(rt: &impl Print, n: u64) -> io::Result<()> {
    print!(rt; "\t{n}")
}

// Prints the end of a line.
fn end(rt: &impl Print) -> io::Result<()> {
    word(rt, b"\n")
}

// Prints a record.
fn record(rt: &impl Print, f: Finding) -> io::Result<()> {
    word(rt, b"record")?;
    number(rt, f.rule as u64)?;
    let item = f.item;
    let second = f.second;
    number(rt, item.0 as u64)?;
    match second {
        None => {}
        Some(b) => number(rt, b.0 as u64)?,
    }
    end(rt)
}

// Prints a list of records.
fn records(rt: &impl Print, list: [Finding; ROOM]) -> io::Result<()> {
    for f in list {
        record(rt, f)?;
    }
    Ok(())
}

// Prints a refusal.
fn refused(rt: &impl Print, line: usize, k: u64) -> io::Result<()> {
    word(rt, b"refused")?;
    number(rt, line as u64)?;
    number(rt, k)?;
    end(rt)
}

// Prints the answer of reading a sheet.
fn print_reading(rt: &impl Print, answer: Result<Accepted, Refused>) -> io::Result<()> {
    match answer {
        Ok(a) => {
            word(rt, b"accepted")?;
            number(rt, a.counts.items as u64)?;
            number(rt, a.counts.concepts as u64)?;
            number(rt, a.counts.roles as u64)?;
            number(rt, a.rules as u64)?;
            number(rt, a.findings)?;
            end(rt)
        }
        Err(r) => refused(rt, r.line, r.why as u64),
    }
}

// Prints the number of a rule's refusal.
fn refusal(rt: &impl Print, k: RuleRefusal) -> io::Result<()> {
    match k {
        RuleRefusal::Size => refused(rt, 0, 1),
        RuleRefusal::NotClosed => refused(rt, 0, 2),
        RuleRefusal::Malformed => refused(rt, 0, 3),
        RuleRefusal::Number => refused(rt, 0, 4),
    }
}

// Prints what is asked of a rule, and the answer.
fn print_total(rt: &impl Print, asked: &[u8], answer: Result<u64, RuleRefusal>) -> io::Result<()> {
    match answer {
        Ok(n) => {
            word(rt, asked)?;
            number(rt, n)?;
            end(rt)
        }
        Err(k) => refusal(rt, k),
    }
}

// The byte at a place, 0 past the end.
fn byte_at(given: &[u8], i: usize) -> u8 {
    given.get(i).copied().unwrap_or(0)
}

// The words of a rule.
fn words_of(given: &[u8]) -> [u64; Spelled::RULE] {
    let mut words = [0u64; Spelled::RULE];
    for i in 0..Spelled::RULE {
        words[i] = byte_at(given, 1 + i) as u64;
    }
    words
}

// The declared counts with so many items more.
fn with_more(declared: Counts, n: u8) -> Counts {
    let more = if declared.items <= Store::LARGE_ITEMS {
        n as usize
    } else {
        0
    };
    Counts {
        items: declared.items + more,
        ..declared
    }
}

// Prints what is counted and listed of the rule with the number k, in the store that a sheet with these counts left.
fn judge_rule(
    rt: &impl Print,
    given: &[u8],
    k: usize,
    words: &[u64],
    declared: Counts,
) -> io::Result<()> {
    let coded = words_of(given);
    let rule = spelled::rules::rule_of(&coded);
    let counts = with_more(declared, byte_at(given, 0));
    print_total(rt, b"count", judge::count(words, counts, rule))?;
    let found = find_list(words, counts, k, rule, marked());
    print_total(rt, b"list", found.answer)?;
    records(rt, found.list)
}

// Prints what is counted and listed of each of the rules.
fn judge_rules(rt: &impl Print, input: &[u8], words: &[u64], counts: Counts) -> io::Result<()> {
    for k in 0..RULES {
        let given = text::part::part(input, 1 + k * RULE_BYTES, RULE_BYTES);
        judge_rule(rt, given, k, words, counts)?;
    }
    Ok(())
}

// Prints what reading a sheet gave.
fn print_listed(rt: &impl Print, listed: Listed) -> io::Result<()> {
    print_reading(rt, listed.answer)?;
    records(rt, listed.list)
}

// Prints what reading the sheet into the lent store gives, and of an accepted one what its store gives for the rules.
fn print_in(rt: &impl Print, input: &[u8], words: &mut [u64]) -> io::Result<()> {
    let sheet = text::part::part(input, HEAD, input.len());
    let listed = read_list(sheet, words, marked());
    let answer = listed.answer;
    print_listed(rt, listed)?;
    match answer {
        Ok(a) => judge_rules(rt, input, words, a.counts),
        Err(_) => Ok(()),
    }
}

// Prints it with a store of N words.
fn print_with<const N: usize, P: Print>(rt: &P, input: &[u8]) -> io::Result<()>
    requires { N ≤ 100000 }
{
    let mut words = [GARBAGE; N];
    print_in(rt, input, &mut words)
}

// Prints what is asked for.
fn print_all(rt: &impl Print, input: &[u8]) -> io::Result<()> {
    match byte_at(input, 0) {
        0 => print_with::<SMALL, _>(rt, input),
        1 => print_with::<SMALL_SHORT, _>(rt, input),
        2 => print_with::<LARGE, _>(rt, input),
        _ => print_with::<LARGE_SHORT, _>(rt, input),
    }
}

// Reads the input, and prints.
fn main(rt: HostRuntime) -> io::Result<()> {
    let mut input = [0u8; INPUT];
    let n = intake::read_full(&mut rt.stdin(), &mut input);
    print_all(&rt, text::part::part(&input, 0, n))
}
