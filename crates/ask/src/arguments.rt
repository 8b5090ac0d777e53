// The arguments as one question: joined by single spaces. A person asks so, and is told on standard error why a question has no answer.
use crate::lines::{Answers, one_line};
use std::env::{Env, FillError};
use std::io::Write;

// Whether there is an argument with that number, 0 being the program's name.
pub fn is_there<E: Env>(env: &E, i: usize) -> bool {
    let mut room = [0u8; 1];
    !matches!(env.arg(i, &mut room), Err(FillError::NotPresent))
}

// Where a write fails there is nobody to tell: the rest is not written.
pub fn answer<E: Env, W: Write, X: Write>(env: &E, output: &mut W, errors: &mut X) {
    let mut line = one_line();
    let question = match join_all(env, &mut line) {
        Some(n) => line.get(..n),
        None => None,
    };
    if question == Some(b"--help") {
        let _ = crate::help::print(output);
    } else {
        reply(output, errors, question);
    }
}

// None is a question that is too long.
fn reply<W: Write, X: Write>(output: &mut W, errors: &mut X, question: Option<&[u8]>) {
    let mut answers = Answers::none();
    answers.add(question);
    let _ = answers.write_out(output);
    let _ = match question {
        Some(line) => reasons::tell(errors, line),
        None => reasons::tell_too_long(errors),
    };
}

// How many bytes the question has; None where a line cannot hold them.
fn join_all<E: Env>(env: &E, line: &mut [u8]) -> Option<usize> {
    let mut length = next_argument(env, line, 0, 1)?;
    for i in 2..usize::MAX {
        if !is_there(env, i) {
            break;
        }
        length = behind_space(env, line, length, i)?;
    }
    Some(length)
}

fn behind_space<E: Env>(env: &E, line: &mut [u8], at: usize, i: usize) -> Option<usize> {
    let next = spelled::words(line, at, " ");
    if next == at {
        return None;
    }
    next_argument(env, line, next, i)
}

fn next_argument<E: Env>(env: &E, line: &mut [u8], at: usize, i: usize) -> Option<usize> {
    if line.len() < at {
        return None;
    }
    let left = line.len() - at;
    match env.arg(i, &mut line[at..]) {
        Ok(n) if n <= left => Some(at + n),
        _ => None,
    }
}
