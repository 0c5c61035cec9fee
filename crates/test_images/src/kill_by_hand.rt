ghost use Rattle.std.specs.Prelude.{◌≡◌, ◌^◌};

use crate::failure::Failure;
use crate::show::{show_log, show_run};
use isa::Image;
use runner::{PARTS, Piece, RunName, Share, Shared};
use std::alloc::Global;
use std::io;
use std::marker::Brand;
use std::str::SplitWhitespace;
use std::sync::ledger::Blank;
use words::Addr;

// What is done next.
#[derive(Clone, Copy, Debug)]
enum Deed {
    // One entry of a thread.
    Step(u32),
    // Entries of a thread as long as it can move.
    Finish(u32),
    // The kill of a thread.
    Kill(u32),
    // The piece of a thread is taken out, and kept.
    Keep(u32),
    // The piece that was kept is handed in for a thread.
    HandIn(u32),
    // The word at an address is printed.
    Word(u32),
}

// The run so far beside its machine: the share that counts it, the piece that was kept, and how many entries were
// printed, if any.
#[derive(Drop)]
struct Hand<J: RunName> {
    share: Share<J>,
    kept: Option<Piece<J>>,
    printed: Option<usize>,
}

/// Runs an image by what these words say is done next, and prints the log from the entry before the first kill on, the
/// answers, and how the run ends.
pub fn run_with_kills<R: Print>(
    rt: &R,
    alloc: Global,
    image: &Image,
    limit: u32,
    words: SplitWhitespace,
) -> Result<(), Failure> {
    run_as::<Brand, R>(rt, alloc, image, limit, words, Blank::new(u64::from(PARTS)))
}

fn run_as<J: RunName, R: Print>(
    rt: &R,
    alloc: Global,
    image: &Image,
    limit: u32,
    words: SplitWhitespace,
    blank: Blank,
) -> Result<(), Failure>
    requires image { image.now ≡ J.program }
    requires limit { limit ≡ J.limit }
    requires blank { (blank.name ≡ J.name) × (blank.parts ≡ J.parts) × (J.parts ≡ 1024) }
    requires kills { J.outside.kills ≡ 2 ^ 32 }
{
    let mut shared = Shared::<J>::new(alloc, image, limit, blank)?;
    go_by(rt, &mut shared, image, words)?;
    let (log, machine) = shared.into_parts();
    show_run(rt, alloc, log, machine)
}

// Does what the words say, and prints what its share has counted.
fn go_by<J: RunName, R: Print>(
    rt: &R,
    shared: &mut Shared<J>,
    image: &Image,
    words: SplitWhitespace,
) -> Result<(), Failure>
    requires image { image.now ≡ J.program }
    requires kills { J.outside.kills ≡ 2 ^ 32 }
{
    let Some(share) = shared.share() else {
        return Ok(());
    };
    let mut hand = Hand {
        share,
        kept: None,
        printed: None,
    };
    for word in words {
        do_next(rt, shared, image, &mut hand, word)?;
    }
    let is_whole = shared.audit(&mut hand.share);
    let count = hand.share.count();
    println!(rt; "  {count} entries, whole {is_whole}")?;
    Ok(())
}

// Does what a word says, and prints what is new.
fn do_next<J: RunName, R: Print>(
    rt: &R,
    shared: &mut Shared<J>,
    image: &Image,
    hand: &mut Hand<J>,
    word: &str,
) -> Result<(), Failure>
    requires image { image.now ≡ J.program }
    requires kills { J.outside.kills ≡ 2 ^ 32 }
{
    let deed = deed_of(word)?;
    perform(rt, shared, image, hand, deed)?;
    Ok(show_new(rt, shared, hand)?)
}

// What a word says.
fn deed_of(word: &str) -> Result<Deed, Failure> {
    match word.as_bytes() {
        [b'e', digits @ ..] => Ok(Deed::Finish(number_of(digits)?)),
        [b'k', digits @ ..] => Ok(Deed::Kill(number_of(digits)?)),
        [b'p', digits @ ..] => Ok(Deed::Keep(number_of(digits)?)),
        [b'h', digits @ ..] => Ok(Deed::HandIn(number_of(digits)?)),
        [b'w', digits @ ..] => Ok(Deed::Word(number_of(digits)?)),
        digits => Ok(Deed::Step(number_of(digits)?)),
    }
}

fn number_of(digits: &[u8]) -> Result<u32, Failure> {
    let text = str::from_utf8(digits).map_err(|_| Failure::Row)?;
    text.parse().map_err(|_| Failure::Row)
}

fn perform<J: RunName, R: Print>(
    rt: &R,
    shared: &mut Shared<J>,
    image: &Image,
    hand: &mut Hand<J>,
    deed: Deed,
) -> Result<(), Failure>
    requires image { image.now ≡ J.program }
    requires kills { J.outside.kills ≡ 2 ^ 32 }
{
    match deed {
        Deed::Step(thread) => {
            if !is_stepped(shared, image, hand, thread) {
                println!(rt; "  thread {thread} has no entry")?;
            }
        }
        Deed::Finish(thread) => finish(shared, image, hand, thread),
        Deed::Kill(thread) => kill(rt, shared, hand, thread)?,
        Deed::Keep(thread) => hand.kept = shared.piece(thread),
        Deed::HandIn(thread) => hand_in(rt, shared, image, hand, thread)?,
        Deed::Word(address) => show_word(rt, shared, address)?,
    }
    Ok(())
}

// Hands in the next entry of a thread; false where there is none that is taken.
fn is_stepped<J: RunName>(
    shared: &mut Shared<J>,
    image: &Image,
    hand: &mut Hand<J>,
    thread: u32,
) -> bool
    requires { image.now ≡ J.program }
{
    match shared.piece(thread) {
        Some(piece) => shared
            .step(thread, piece.run(image), &mut hand.share)
            .is_ok(),
        None => false,
    }
}

fn finish<J: RunName>(shared: &mut Shared<J>, image: &Image, hand: &mut Hand<J>, thread: u32)
    requires { image.now ≡ J.program }
{
    for _ in 0..u32::MAX {
        if !is_stepped(shared, image, hand, thread) {
            break;
        }
    }
}

fn kill<J: RunName, R: Print>(
    rt: &R,
    shared: &mut Shared<J>,
    hand: &mut Hand<J>,
    thread: u32,
) -> io::Result<()>
    requires kills { J.outside.kills ≡ 2 ^ 32 }
{
    let before = shared.log().len().saturating_sub(1);
    // Each number that there may be of kills is below 2^32.
    let _killed = shared.kills();
    if let Err(fault) = shared.kill(thread, &mut hand.share) {
        return println!(rt; "  kill of {thread}: {fault:?}");
    }
    if hand.printed.is_none() {
        hand.printed = Some(before);
    }
    Ok(())
}

// Hands in the piece that was kept, and prints the answer.
fn hand_in<J: RunName, R: Print>(
    rt: &R,
    shared: &mut Shared<J>,
    image: &Image,
    hand: &mut Hand<J>,
    thread: u32,
) -> io::Result<()>
    requires { image.now ≡ J.program }
{
    let Some(piece) = hand.kept.take() else {
        return println!(rt; "  no piece was kept");
    };
    match shared.step(thread, piece.run(image), &mut hand.share) {
        Ok(_) => println!(rt; "  kept piece for {thread}: taken"),
        Err(fault) => println!(rt; "  kept piece for {thread}: {fault:?}"),
    }
}

fn show_word<J: RunName, R: Print>(
    rt: &R,
    shared: &Shared<J>,
    address: u32,
) -> Result<(), Failure> {
    let machine = shared.machine();
    if address as usize >= machine.memory_len() {
        return Err(Failure::Address(address));
    }
    let word = machine.word(Addr(address));
    println!(rt; "  word {address}: {word:x}")?;
    Ok(())
}

// Prints the entries that are new, once there was a kill.
fn show_new<J: RunName, R: Print>(
    rt: &R,
    shared: &Shared<J>,
    hand: &mut Hand<J>,
) -> io::Result<()> {
    let Some(printed) = hand.printed else {
        return Ok(());
    };
    let log = shared.log();
    hand.printed = Some(log.len());
    show_log(rt, log, printed)
}
