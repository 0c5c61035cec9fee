use mesamon::{Job, line};
use std::rt::{Env, Files};
use std::{env, fs, io};

// What a command takes whatever its text is, in bytes. A sixth of it was measured.
const BASE: usize = 1 << 20;

// What each byte of a statement takes. An expression is a tree as deep as it has operators in a row, each of which has two
// bytes at least, and what goes over a tree calls itself. Of an operator 209 bytes were measured, and this has 512.
const FOR_A_BYTE: usize = 256;

// The most bytes of a text of which a tree is made: a longer one is refused.
const MOST_BYTES: usize = 1 << 20;

// How large the stack of the first thread may get, where the system doesn't say.
const USUAL: usize = 8 << 20;

// A thread is started where this many times its stack may be had, so that most of the memory is left for all else.
const SHARE: usize = 4;

/// The stack, in bytes, of the thread for the command that the words of the command line ask for; None where half of the
/// first thread's stack is enough, or where the limits of this process leave no room for more.
pub fn stack_for<R: Env + Files + AllocGlobal>(rt: &R) -> Option<usize> {
    let limits = fs::read_to_string(rt, "/proc/self/limits").ok();
    let enough = limit_of(&limits, "Max stack size").unwrap_or(USUAL) / 2;
    let wanted = stack_by_words(rt, enough).ok()?;
    let most = limit_of(&limits, "Max address space").unwrap_or(usize::MAX) / SHARE;
    if wanted <= enough || wanted > most {
        None
    } else {
        Some(wanted)
    }
}

// The limit of this name in the system's table of limits; None where there is none, or no table.
fn limit_of(limits: &Option<String>, name: &str) -> Option<usize> {
    let table = limits.as_ref()?;
    for line in table.as_str().split('\n') {
        if let Some(values) = line.strip_prefix(name) {
            return values.split_whitespace().next()?.parse().ok();
        }
    }
    None
}

// The stack that a statement of so many bytes takes.
fn stack_of(bytes: usize) -> usize {
    bytes.saturating_mul(FOR_A_BYTE).saturating_add(BASE)
}

// The stack for the job that the words of the command line ask for. Where it is seen to be no more than is enough, the text
// isn't read.
fn stack_by_words<R: Env + Files + AllocGlobal>(rt: &R, enough: usize) -> io::Result<usize> {
    let words: Vec<String> = env::args(rt)?.skip(1).collect(rt.alloc())?;
    let texts: Vec<&str> = words.iter().map(|word| word.as_str()).collect(rt.alloc())?;
    match line(rt.alloc(), texts.as_slice()) {
        Ok(job) => stack_by_text(rt, text_of(job), enough),
        Err(_) => Ok(BASE),
    }
}

// The file of the source text of a job.
fn text_of<'a>(job: Job<'a>) -> Option<&'a str> {
    match job {
        Job::Check { file, .. }
        | Job::Compile { file, .. }
        | Job::Run { file, .. }
        | Job::Replay { file, .. }
        | Job::Explain { file, .. }
        | Job::Emit { file, .. }
        | Job::Explore { file, .. }
        | Job::Shrink { file, .. } => Some(file),
        Job::List {
            image,
            linux: true,
            ..
        } => Some(image),
        Job::List { source, .. } => source,
        _ => None,
    }
}

// The stack for a text, of which `-` is standard input. What is no regular file can be read once alone, and may have a
// statement as long as a text.
fn stack_by_text<R: Files + AllocGlobal>(
    rt: &R,
    name: Option<&str>,
    enough: usize,
) -> io::Result<usize> {
    let Some(name) = name else {
        return Ok(BASE);
    };
    let path = if name == "-" { "/dev/stdin" } else { name };
    let stands = fs::metadata(rt, path)?;
    if !stands.is_file() {
        return Ok(stack_of(MOST_BYTES));
    }
    let bytes = usize::try_from(stands.len()).unwrap_or(usize::MAX);
    if bytes > MOST_BYTES {
        return Ok(BASE);
    }
    if stack_of(bytes) <= enough {
        return Ok(stack_of(bytes));
    }
    let text = fs::read(rt, path)?;
    Ok(stack_of(longest_statement(text.as_slice())))
}

// The most bytes that stand between two semicolons of a text, white space and comments apart.
fn longest_statement(text: &[u8]) -> usize {
    let mut longest = 0;
    let mut bytes: usize = 0;
    let mut last = b' ';
    let mut is_comment = false;
    for byte in text {
        is_comment = if is_comment {
            *byte != b'\n'
        } else {
            *byte == b'-' && last == b'-'
        };
        last = *byte;
        if *byte == b';' && !is_comment {
            bytes = 0;
        } else if !is_comment && !byte.is_ascii_whitespace() {
            bytes = bytes.saturating_add(1);
        }
        longest = bytes.max(longest);
    }
    longest
}
