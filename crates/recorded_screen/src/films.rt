//! Films: pictures in SVG that play a recording.

ghost use Rattle.std.specs.Prelude.{◌≡◌, ◌⊎◌, ◌≤◌, ◌<◌, ◌+◌, ◌-◌, IfOk, IfErr, OnOk, length, max, min, not, nat_le};
ghost use Rattle.std.specs.Prelude.{if◌then◌else◌};
ghost use Rattle.std.specs.Option.{option_map_or};
ghost use Rattle.picture_page.specs.Page.{IsPage, IsSafe};
ghost use Rattle.recorded_screen.specs.Film.{IsFilm, IsTooLong, TakesShot, TakesShotIf, cols_set};
ghost use Rattle.recorded_screen.specs.Film.{film_time, may_stand as may_stand_of, slot as slot_of, slot_start};
ghost use Rattle.recorded_screen.specs.Film.{poster_time, time_in_film};
ghost use Rattle.recorded_screen.specs.Film.{count_until as count_until_of};
ghost use Rattle.recorded_screen.specs.Film.{is_moment as is_moment_of, most_cols, most_rows, paced, played_to};
ghost use Rattle.recorded_screen.specs.Film.{reached, rows_set};
ghost use Rattle.recorded_screen.specs.Shots.{IsReel};
ghost use Rattle.recorded_screen.specs.declared.error.FilmError.TheVariants.{Memory, TooLong};

use crate::error::FilmError;
use crate::moment::act;
use crate::picture::{cells_of, cursor_in};
use crate::reel::{LONGEST_FILM, Reel};
use recordings::{Change, Event, ScreenSize};
use row_pictures::Look;
use std::alloc::Global;
use std::num::NonZeroU16;
use vt100::{Parser, Screen};

/// How a film plays: how fast, how often, and from when on; and what is shown where nothing plays.
#[derive(Clone, Copy)]
pub struct Pace {
    /// How many millionths of the recorded speed.
    pub speed: u64,
    /// The longest time for which a screen stays, in microseconds of the recording.
    pub idle: Option<u64>,
    /// How many screens a second a film shows at most.
    pub rate: u16,
    /// How often a film plays; 0 counts as 1. Then its last screen stays. Without a number it plays over and over.
    pub plays: Option<u16>,
    /// The time of the recording at which a film begins, in microseconds. What came before is there at once.
    pub from: u64,
    /// The time of the recording whose screen is shown where nothing plays, in microseconds, if it isn't the last one.
    pub poster: Option<u64>,
}

impl Pace {
    /// The recorded speed.
    pub const AS_RECORDED: u64 = 1_000_000;

    // How long a time of the recording is in the film.
    fn of_time(self, time: u64) -> u64
        ensures { result ≡ paced self time }
    {
        let film = u128::from(self.standing(time)) * u128::from(Self::AS_RECORDED);
        u64::try_from(film / u128::from(self.speed.max(1))).unwrap_or(u64::MAX)
    }

    // The slot of a time of the film.
    fn slot(self, time: u64) -> u128
        ensures { result ≡ slot_of self time }
    {
        u128::from(time) * u128::from(self.rate.max(1)) / 1_000_000
    }

    // When the slot of a time of the film begins.
    fn slot_start(self, time: u64) -> u64
        ensures { result ≡ slot_start self time }
    {
        let start = self.slot(time) * 1_000_000 / u128::from(self.rate.max(1));
        u64::try_from(start).unwrap_or(u64::MAX)
    }

    // How much of a time a screen stays.
    fn standing(self, time: u64) -> u64
        ensures { result ≡ option_map_or (min time) self.idle time }
    {
        match self.idle {
            Some(idle) => time.min(idle),
            None => time,
        }
    }
}

/// A picture in SVG that plays the events from the time on that the pace says, up to a moment, and needs no script. It
/// begins with the screen of that time, and plays as often as the pace says. A row that occurs more than once is drawn
/// once. The last screen is shown for a second.
///
/// Where nothing plays, and for a reader who prefers less motion, it is as at the poster's time, or else as at its end.
pub fn film(
    alloc: Global,
    size: ScreenSize,
    events: &[Event],
    moment: u64,
    look: &Look,
    pace: Pace,
) -> Result<Vec<u8>, FilmError>
    ensures film { IfOk result (λ bytes. IsFilm look.now size pace moment events.now bytes.items) }
    ensures page { IfOk result (λ bytes. IsPage bytes.items) }
    ensures safe { IfOk result (λ bytes. IsSafe bytes.items) }
    ensures short { IfOk result (λ bytes. length bytes.items ≤ LONGEST_FILM) }
    ensures fault { IfErr result (λ e. (e ≡ Memory) ⊎ ((e ≡ TooLong)
        × IsTooLong LONGEST_FILM look.now size pace moment events.now)) }
{
    let mut terminal = Parser::new(alloc, size.rows, size.cols, 0)?;
    let mut reel = Reel::new(alloc, widest(size, events, moment))?;
    let first = may_stand(pace, events, 0, reel.time());
    shoot_if(first, &mut reel, alloc, pace, terminal.screen(), look)?;
    reel.check()?;
    for i in 0..count_until(events, moment) {
        reel.wait(pace.of_time(gap_before(pace, events, i)));
        act(&mut terminal, &events[i].change)?;
        let on = may_stand(pace, events, i + 1, reel.time());
        shoot_if(on, &mut reel, alloc, pace, terminal.screen(), look)?;
        reel.check()?;
    }
    reel.develop(alloc, look, pace.plays, poster_time(pace, events))
}

// Takes a shot of the screen if `on`.
fn shoot_if(
    on: bool,
    reel: &mut Reel,
    alloc: Global,
    pace: Pace,
    screen: &Screen,
    look: &Look,
) -> Result<(), FilmError>
    requires reel { IsReel reel.old }
    ensures reel { OnOk result (IsReel reel.new) }
    ensures shot { OnOk result (TakesShotIf on look.now screen.now.state (slot_start pace reel.old.time) reel.old
        reel.new) }
    ensures memory { IfErr result (λ e. e ≡ Memory) }
{
    if on {
        shoot(reel, alloc, pace, screen, look)
    } else {
        Ok(())
    }
}

// Takes a shot of the screen, which is shown from the beginning of this slot on.
fn shoot(
    reel: &mut Reel,
    alloc: Global,
    pace: Pace,
    screen: &Screen,
    look: &Look,
) -> Result<(), FilmError>
    requires reel { IsReel reel.old }
    ensures reel { OnOk result (IsReel reel.new) }
    ensures shot { OnOk result (TakesShot look.now screen.now.state (slot_start pace reel.old.time) reel.old reel.new) }
    ensures memory { IfErr result (λ e. e ≡ Memory) }
{
    let time = pace.slot_start(reel.time());
    for row in 0..reel.height() {
        let cells = cells_of(screen, row);
        let cursor = cursor_in(screen, row, look);
        reel.show(alloc, row, time, cells, cursor, look)?;
    }
    Ok(())
}

// How many events there are before the first one that comes later than a moment.
fn count_until(events: &[Event], moment: u64) -> usize
    ensures count { result ≡ count_until_of moment events.now }
    ensures within { result ≤ length events.now }
{
    for (i, event) in events.iter().enumerate() {
        if event.time > moment {
            return i;
        }
    }
    events.len()
}

// The time between an event and the one before it, or the beginning of the film. It is 0 before the film begins.
fn gap_before(pace: Pace, events: &[Event], i: usize) -> u64
    requires { i < length events.now }
    ensures { result ≡ played_to pace events.now (i + 1) - played_to pace events.now i }
{
    played_to(pace, events, i + 1).saturating_sub(played_to(pace, events, i))
}

// The time of what is shown where nothing plays, if the pace has a poster.
fn poster_time(pace: Pace, events: &[Event]) -> Option<u64>
    ensures { result ≡ poster_time pace events.now }
{
    match pace.poster {
        Some(time) => Some(time_in_film(pace, events, time)),
        None => None,
    }
}

// The time of the film at a time of the recording.
fn time_in_film(pace: Pace, events: &[Event], time: u64) -> u64
    ensures { result ≡ time_in_film pace events.now time }
{
    let count = count_until(events, time);
    let left = pace
        .from
        .max(time)
        .saturating_sub(played_to(pace, events, count));
    film_time(pace, events, count).saturating_add(pace.of_time(left))
}

// The time of the film that has been reached after `count` events.
fn film_time(pace: Pace, events: &[Event], count: usize) -> u64
    requires { count ≤ length events.now }
    ensures { result ≡ film_time pace events.now count }
{
    let mut time: u64 = 0;
    for i in 0..count {
        time = time.saturating_add(pace.of_time(gap_before(pace, events, i)));
    }
    time
}

// The time of the recording to which a film has played after `count` events.
fn played_to(pace: Pace, events: &[Event], count: usize) -> u64
    ensures { result ≡ played_to pace events.now count }
{
    pace.from.max(time_after(events, count))
}

// The time of the recording that has been reached after `count` events.
fn time_after(events: &[Event], count: usize) -> u64
    ensures { result ≡ reached events.now count }
{
    if count == 0 {
        return 0;
    }
    match events.get(count - 1) {
        Some(event) => event.time,
        None => 0,
    }
}

// Whether a film, which has reached this time, may show the screen after `count` events: the next event comes in
// another slot, or there is none.
fn may_stand(pace: Pace, events: &[Event], count: usize, time: u64) -> bool
    requires { time ≡ film_time pace events.now count }
    ensures { result ≡ may_stand_of pace events.now count }
{
    if count >= events.len() {
        return true;
    }
    let next = time.saturating_add(pace.of_time(gap_before(pace, events, count)));
    pace.slot(next) != pace.slot(time)
}

// Whether the event after the first `count` comes at another time than they, or there is none.
fn is_moment(events: &[Event], count: usize) -> bool
    ensures { result ≡ is_moment_of events.now count }
{
    match events.get(count) {
        Some(next) => next.time != time_after(events, count),
        None => true,
    }
}

/// Whether there is no time before the first event.
pub fn begins_at_once(events: &[Event]) -> bool
    ensures { result ≡ not (is_moment_of events.now 0) }
{
    !is_moment(events, 0)
}

/// Whether the next event comes at the same time.
pub fn is_followed(events: &[Event], i: usize) -> bool
    requires { i < length events.now }
    ensures { result ≡ not (is_moment_of events.now (i + 1)) }
{
    !is_moment(events, i + 1)
}

/// The most rows and columns that the screen has up to a moment.
pub fn widest(size: ScreenSize, events: &[Event], moment: u64) -> ScreenSize
    ensures rows { result.rows.value ≡ most_rows moment size events.now }
    ensures cols { result.cols.value ≡ most_cols moment size events.now }
{
    let mut widest = size;
    for event in events {
        widest = widened(widest, event, moment);
    }
    widest
}

// At least the size that an event sets, unless it comes later than a moment.
fn widened(size: ScreenSize, event: &Event, moment: u64) -> ScreenSize
    ensures rows { result.rows.value ≡ max size.rows.value (if nat_le event.now.time moment
        then rows_set event.now.change else 0) }
    ensures cols { result.cols.value ≡ max size.cols.value (if nat_le event.now.time moment
        then cols_set event.now.change else 0) }
{
    if event.time > moment {
        return size;
    }
    match &event.change {
        Change::Resize(other) => ScreenSize {
            rows: larger(size.rows, other.rows),
            cols: larger(size.cols, other.cols),
        },
        Change::Output(_) | Change::Marker(_) => size,
    }
}

// The larger one.
fn larger(one: NonZeroU16, other: NonZeroU16) -> NonZeroU16
    ensures { result.value ≡ max one.value other.value }
{
    if one.get() < other.get() { other } else { one }
}
