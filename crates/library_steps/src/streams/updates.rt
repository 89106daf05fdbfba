//! Processors of synchronized updates.
//!
//! A call of a processor is proved against all that it has read before. So each call has one caller, which all steps
//! share.

ghost use Rattle.std.specs.Prelude.{⊤};

use super::log::Log;
use case_player::{Answer, StepError, Words};
use std::alloc::Global;
use std::cell::Cell;
use std::rc::Rc;
use std::time::Duration;
use vte::ansi::{Clock, Processor, StdSyncHandler, Timeout};

/// How many words a step has at most.
const MOST_WORDS: usize = 64;

/// A timeout that is pending while the flag beside it is up, and how often it was set.
#[derive(Drop)]
pub struct Flagged {
    flag: Rc<Cell<bool>>,
    sets: usize,
}

impl Flagged {
    /// A timeout that wasn't set.
    pub fn new(flag: Rc<Cell<bool>>) -> Flagged {
        Flagged { flag, sets: 0 }
    }
}

impl Timeout for Flagged {
    ghost ticking = { record { sets = λ _ _ _. ⊤; clears = λ _ _. ⊤; answers = λ _ _. ⊤ } };

    fn set_timeout(&mut self, _duration: Duration) {
        self.flag.set(true);
        self.sets = self.sets.saturating_add(1);
    }

    fn clear_timeout(&mut self) {
        self.flag.set(false);
    }

    fn pending_timeout(&self) -> bool {
        self.flag.get()
    }
}

/// A stopped clock.
#[derive(Drop)]
struct Still(Duration);

impl Clock for Still {
    ghost may_be = { λ _ _. ⊤ };

    fn now(&self) -> Duration {
        self.0
    }
}

/// A processor with this timeout.
pub fn new_processor<T: Timeout + Drop>(
    alloc: Global,
    timeout: T,
) -> Result<Processor<T, Global>, StepError> {
    Processor::new(alloc, timeout).map_err(|_| StepError::Memory)
}

/// Hands a piece over. The log writes down the calls that the processor makes.
pub fn advance<T: Timeout + Drop>(
    processor: &mut Processor<T, Global>,
    log: &mut Log,
    piece: &[u8],
) {
    processor.advance(log, piece);
}

// Stops an update. The log writes down the calls that the processor makes.
fn stop<T: Timeout + Drop>(processor: &mut Processor<T, Global>, log: &mut Log) {
    processor.stop_sync(log);
}

/// Plays words on a processor whose timeout is a flag. `give PIECE`, `times N PIECE` and `stop` answer the calls that
/// the processor makes then, and how many bytes it holds. `pending` and `sets` answer whether the timeout is pending,
/// and how often it was set. `up` and `down` set the flag. After `watch` each call is followed by `true` or `false`:
/// whether the flag is up. After `count` inputs are counted, and not written down.
pub fn tell_updates(alloc: Global, words: &Words, answer: &mut Answer) -> Result<(), StepError> {
    let flag = Rc::new(alloc, Cell::new(false))?;
    let mut log = Log::new(alloc)?;
    log.flag = Some(flag.clone()?);
    play_words(alloc, flag, &mut log, words, answer)?;
    log.check()
}

fn play_words(
    alloc: Global,
    flag: Rc<Cell<bool>>,
    log: &mut Log,
    words: &Words,
    answer: &mut Answer,
) -> Result<(), StepError> {
    let mut processor = new_processor(alloc, Flagged::new(flag.clone()?))?;
    for _ in 0..MOST_WORDS {
        if !words.is_empty() {
            play_word(&mut processor, &flag, log, words, answer);
        }
    }
    Ok(())
}

fn play_word(
    processor: &mut Processor<Flagged, Global>,
    flag: &Cell<bool>,
    log: &mut Log,
    words: &Words,
    answer: &mut Answer,
) {
    match words.word() {
        "up" => flag.set(true),
        "down" => flag.set(false),
        "watch" => log.watches = true,
        "count" => log.inputs = Some(0),
        "pending" => answer.line(if flag.get() { "yes" } else { "no" }),
        "sets" => {
            answer.push("set ");
            answer.number(processor.sync_timeout().sets as u64);
            answer.line(" times");
        }
        name => {
            log.restart();
            hand(processor, log, name, words);
            tell_held(processor, log, answer);
        }
    }
}

// Hands a piece over, once or a number of times, or stops the processor.
fn hand(processor: &mut Processor<Flagged, Global>, log: &mut Log, name: &str, words: &Words) {
    match name {
        "stop" => stop(processor, log),
        "give" => advance(processor, log, words.bytes()),
        "times" => {
            let (times, piece) = (words.count(), words.bytes());
            for _ in 0..times {
                advance(processor, log, piece);
            }
        }
        _ => words.want("give, times, stop, pending, sets, up, down, watch or count"),
    }
}

// Appends the calls that were made, how many bytes are held, and how many inputs there were if they are counted.
fn tell_held(processor: &Processor<Flagged, Global>, log: &Log, answer: &mut Answer) {
    answer.line(log.told());
    answer.number(processor.sync_bytes_count() as u64);
    answer.push(" held");
    if let Some(inputs) = log.inputs {
        answer.push(", ");
        answer.number(inputs as u64);
        answer.push(" inputs");
    }
    answer.end_line();
}

/// Appends how many bytes are held after each piece, and when the update's time is over. The clock is stopped at 1
/// second.
pub fn tell_times(alloc: Global, words: &Words, answer: &mut Answer) -> Result<(), StepError> {
    let mut log = Log::new(alloc)?;
    let timeout = StdSyncHandler::new(Still(Duration::from_secs(1)));
    let mut processor = new_processor(alloc, timeout)?;
    for _ in 0..MOST_WORDS {
        if words.is_empty() {
            break;
        }
        advance(&mut processor, &mut log, words.bytes());
        push_end(&processor, answer);
    }
    log.check()
}

fn push_end(processor: &Processor<StdSyncHandler<Still>, Global>, answer: &mut Answer) {
    answer.number(processor.sync_bytes_count() as u64);
    answer.push(" held, ");
    answer.debug(&processor.sync_timeout().sync_timeout());
    answer.end_line();
}

/// Appends when a fresh timeout is due to end and whether it is pending, then when it is set for 150 milliseconds, and
/// then when it is cleared. The clock is stopped at a number of seconds, or at the `last` moment.
pub fn tell_timeout(words: &Words, answer: &mut Answer) {
    let now = match words.word() {
        "last" => Duration::MAX,
        word => Duration::from_secs(words.named(word.parse::<u64>().ok(), "seconds, or last", 0)),
    };
    let mut timeout = StdSyncHandler::new(Still(now));
    push_timeout(&timeout, answer);
    timeout.set_timeout(Duration::from_millis(150));
    push_timeout(&timeout, answer);
    timeout.clear_timeout();
    push_timeout(&timeout, answer);
}

fn push_timeout(timeout: &StdSyncHandler<Still>, answer: &mut Answer) {
    answer.debug(&timeout.sync_timeout());
    answer.push(" ");
    answer.display(&timeout.pending_timeout());
    answer.end_line();
}
