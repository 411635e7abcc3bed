// Requests, of the words of a line and of an input.
ghost use Rattle.std.specs.Prelude.{◌≡◌, ◌^◌, ◌≤◌, false, IsTrue, IfOk};

use crate::playing::unknown;
use cmd_read::{body_count, read_request};
use grid_mem::MemSource;
use grid_model::Texts;
use req_lines::{Heard, Next, ReadError, Requests};
use req_words::words;
use std::alloc::{AllocError, Global};

pub(crate) fn play(
    alloc: Global,
    call: &str,
    text: &[u8],
    fails: &[u8],
) -> Result<String, AllocError> {
    match call {
        "words" => of_words(alloc, text),
        "body" => body(alloc, text),
        "input" => of_input(alloc, text, fails),
        _ => unknown(alloc),
    }
}

// What the words of a line ask for.
fn of_words(alloc: Global, line: &[u8]) -> Result<String, AllocError> {
    match words(alloc, line) {
        Ok(words) => asked(alloc, &words),
        Err(error) => format!(in alloc; "{error}"),
    }
}

fn asked(alloc: Global, words: &Texts) -> Result<String, AllocError> {
    match read_request(alloc, words) {
        Ok(request) => format!(in alloc; "{} {:?}", request.session, request.verb),
        Err(error) => format!(in alloc; "{error:?}"),
    }
}

// How many bytes the words of a line promise.
fn body(alloc: Global, line: &[u8]) -> Result<String, AllocError> {
    match words(alloc, line) {
        Ok(words) => format!(in alloc; "{:?}", body_count(&words)),
        Err(error) => format!(in alloc; "{error}"),
    }
}

// The first requests of an input, and how it ends. Its calls of these digits fail.
fn of_input(alloc: Global, input: &[u8], fails: &[u8]) -> Result<String, AllocError> {
    let mut requests = Requests::new(alloc)?;
    let mut source = MemSource::new(input.to_vec(alloc)?, numbers(alloc, fails)?);
    let mut shown = String::new(alloc);
    let mut goes_on = true;
    for _ in 0..9 {
        if goes_on {
            goes_on = add_next(alloc, &mut shown, &mut requests, &mut source)?;
        }
    }
    Ok(shown)
}

// The values of some digits.
fn numbers(alloc: Global, digits: &[u8]) -> Result<Vec<u64>, AllocError> {
    let mut numbers = Vec::new(alloc);
    for digit in digits {
        numbers.push(u64::from(digit.wrapping_sub(b'0')))?;
    }
    Ok(numbers)
}

// Adds the next request or why there is none, and answers whether there was one.
fn add_next(
    alloc: Global,
    shown: &mut String,
    requests: &mut Requests,
    source: &mut MemSource,
) -> Result<bool, AllocError>
    requires { requests.old.taken ≤ 2 ^ 48 }
    ensures { IfOk result (λ goes_on. IsTrue goes_on → requests.new.taken ≤ 2 ^ 48) }
{
    match requests.next(alloc, source) {
        Ok(Next::Request(heard)) => {
            add_request(alloc, shown, &heard)?;
            Ok(true)
        }
        Ok(Next::End) => add_last(shown, "end"),
        Ok(Next::Long) => add_last(shown, "long"),
        Err(ReadError::Source) => add_last(shown, "Source"),
        Err(ReadError::Memory) => Err(AllocError),
    }
}

fn add_request(alloc: Global, shown: &mut String, heard: &Heard) -> Result<(), AllocError> {
    shown.push_str(in_short(alloc, heard)?.as_str())
}

// Adds why there is no request more.
fn add_last(shown: &mut String, why: &str) -> Result<bool, AllocError>
    ensures { IfOk result (λ goes_on. goes_on ≡ false) }
{
    shown.push_str(why)?;
    Ok(false)
}

// What a request asks for or why it is refused, the length of its body, whether the input ended with it, and its line.
fn in_short(alloc: Global, heard: &Heard) -> Result<String, AllocError> {
    let body = heard.body.as_slice().len();
    let line = heard.line.as_slice().escape_ascii();
    match &heard.asked {
        Ok(request) => format!(in alloc;
            "{} {:?} {body} {} [{line}] ",
            request.session, request.verb, heard.ends
        ),
        Err(refusal) => format!(in alloc; "{refusal:?} {body} {} [{line}] ", heard.ends),
    }
}
