//! The rows and the moments of a recording, as the page has them.

ghost use Rattle.std.specs.Prelude.{◌≡◌, ◌+◌, ◌<◌, ◌^◌, ◌++◌, ◌∷◌, ℕ, suc, [], List, IfErr, IfOk, IsTrue, OnOk, length, map};
ghost use Rattle.picture_page.specs.Page.{Adds};
ghost use Rattle.row_pictures.specs.Text.{row_text};
ghost use Rattle.recordings.specs.declared.recording.Event.{Event};
ghost use Rattle.recordings.specs.declared.recording.ScreenSize.{ScreenSize};
ghost use Rattle.recorded_screen.specs.Picture.{cells_shown};
ghost use Rattle.player_page.specs.Moments.{IsPainted};
ghost use Rattle.player_page.specs.Pages.{HasLongPart, row_bytes};
ghost use Rattle.player_page.specs.Strips.{AddsNumbers, AreNumbers, Draws, FailsFor, HasLongRows, IsDue, IsStrip};
ghost use Rattle.player_page.specs.Strips.{KeepsDrawn, Takes, TellsLine};
ghost use Rattle.player_page.specs.declared.error.PlayerError.TheVariants.{Memory};

use crate::error::PlayerError;
use crate::page::{LONGEST_PLAYER, check_length};
use indexmap::IndexSet;
use recorded_screen::{act, begins_at_once, cells_of, cursor_in, is_followed, push_decimal};
use recordings::{Event, ScreenSize};
use row_pictures::{Look, Page, Tag, push_html_row};
use std::alloc::{AllocError, Global};
use vt100::{Parser, Screen};

// After at most this many moments that list only changes, a moment lists all its rows. So each moment is found in a
// bounded number of steps.
const WHOLE: usize = 64;

/// The rows that are drawn, each once, and the moments, each a line of numbers.
#[derive(Drop)]
pub(crate) struct Strip {
    /// The rows as they are in the page.
    pub(crate) rows: Page,
    /// Which rows are shown from when on.
    pub(crate) moments: Page,
    // The rows as they are painted.
    known: IndexSet<Vec<u8>>,
    // The numbers of the rows of the last moment.
    last: Vec<u32>,
    // How many moments came after the last one that lists all its rows.
    since: usize,
}

/// The rows and moments of a recording. Events at the same time are one moment, and a screen that is painted as before
/// is no moment of its own.
pub(crate) fn strip_of(
    alloc: Global,
    size: ScreenSize,
    events: &[Event],
    look: &Look,
) -> Result<Strip, PlayerError>
    ensures strip { IfOk result (λ s. IsStrip look.now size events.now (suc (length events.now)) s) }
    ensures fault { IfErr result (FailsFor (HasLongPart LONGEST_PLAYER look.now size events.now)) }
{
    let mut terminal = Parser::new(alloc, size.rows, size.cols, 0)?;
    let mut strip = Strip::new(alloc);
    if !begins_at_once(events) {
        strip.shoot(alloc, 0, terminal.screen(), look)?;
    }
    for (i, event) in events.iter().enumerate() {
        act(&mut terminal, &event.change)?;
        if !is_followed(events, i) {
            strip.shoot(alloc, event.time, terminal.screen(), look)?;
        }
    }
    Ok(strip)
}

impl Strip {
    fn new(alloc: Global) -> Self
        ensures { (look : Look) (size : ScreenSize) (events : List Event) → IsStrip look size events 0 result }
    {
        Strip {
            rows: Page::new(alloc),
            moments: Page::new(alloc),
            known: IndexSet::new(alloc),
            last: Vec::new(alloc),
            since: 0,
        }
    }

    // Records that the screen is shown from this time on.
    fn shoot(
        &mut self,
        alloc: Global,
        time: u64,
        screen: &Screen,
        look: &Look,
    ) -> Result<(), PlayerError>
        ensures strip { OnOk result ((size : ScreenSize) (events : List Event) (n : ℕ)
            → IsDue size events n time screen.now.state → IsStrip look.now size events n self.old
            → IsStrip look.now size events (suc n) self.new) }
        ensures fault { IfErr result (FailsFor ((size : ScreenSize) (events : List Event) (n : ℕ)
            → IsDue size events n time screen.now.state → IsStrip look.now size events n self.old
            → HasLongPart LONGEST_PLAYER look.now size events)) }
    {
        let numbers = self.row_numbers(alloc, screen, look)?;
        if numbers == self.last {
            return Ok(());
        }
        self.tell(time, numbers)?;
        check_length(&self.moments)
    }

    // The numbers of the rows of the screen. Each row that is new is drawn.
    fn row_numbers(
        &mut self,
        alloc: Global,
        screen: &Screen,
        look: &Look,
    ) -> Result<Vec<u32>, PlayerError>
        ensures count { IfOk result (λ numbers. length numbers.items ≡ screen.now.state.shown.height) }
        ensures few { IfOk result (λ numbers. length numbers.items < 2 ^ 16) }
        ensures numbers { IfOk result (λ numbers.
            AreNumbers look.now screen.now.state self.old self.new numbers.items) }
        ensures drawn { OnOk result (KeepsDrawn look.now screen.now.state self.old self.new) }
        ensures fault { IfErr result (FailsFor (HasLongRows LONGEST_PLAYER look.now screen.now.state self.old)) }
    {
        let mut numbers = Vec::new(alloc);
        let (rows, _) = screen.size();
        for row in 0..rows.get() {
            numbers.push(self.row_number(alloc, screen, row, look)?)?;
        }
        Ok(numbers)
    }

    // The number of a row of the screen, which is drawn if it is new.
    fn row_number(
        &mut self,
        alloc: Global,
        screen: &Screen,
        row: u16,
        look: &Look,
    ) -> Result<u32, PlayerError>
        ensures number { IfOk result (λ number. (painted : List ℕ)
            × IsPainted look.now screen.now.state row painted × Draws painted self.old self.new number) }
        ensures drawn { OnOk result (KeepsDrawn look.now screen.now.state self.old self.new) }
        ensures fault { IfErr result (FailsFor (HasLongRows LONGEST_PLAYER look.now screen.now.state self.old)) }
    {
        let painted = paint(alloc, screen, row, look)?;
        let number = self.draw(alloc, &painted)?;
        check_length(&self.rows)?;
        let Ok(number) = u32::try_from(number) else {
            return Err(PlayerError::TooLong);
        };
        Ok(number)
    }

    // The number of a painted row, which is drawn if it is new.
    fn draw(&mut self, alloc: Global, painted: &Page) -> Result<usize, PlayerError>
        ensures draws { IfOk result (λ number. Draws painted.now self.old self.new number) }
        ensures memory { IfErr result (λ e. e ≡ Memory) }
    {
        let mut row = Page::new(alloc);
        row.append(painted)?;
        let (number, new) = insert_row(&mut self.known, row.into_bytes())?;
        if new {
            push_row(&mut self.rows, painted)?;
        }
        Ok(number)
    }

    // Appends a line: the rows with these numbers are shown from this time on.
    fn tell(&mut self, time: u64, numbers: Vec<u32>) -> Result<(), AllocError>
        requires few { length numbers.items < 2 ^ 16 }
        ensures { OnOk result (TellsLine time numbers.items self.old self.new) }
    {
        push_decimal(&mut self.moments, time, 1_000_000)?;
        self.push_numbers(&numbers)?;
        self.moments.markup(Tag::Newline)?;
        self.last = numbers;
        Ok(())
    }

    // Appends the numbers of all rows, or those of the rows that differ from the moment before.
    fn push_numbers(&mut self, numbers: &[u32]) -> Result<(), AllocError>
        requires few { length numbers.now < 2 ^ 16 }
        ensures numbers { OnOk result (AddsNumbers self.old.last.items numbers.now self.old.moments self.new.moments) }
        ensures rows { OnOk result (self.new.rows ≡ self.old.rows) }
        ensures known { OnOk result (self.new.known ≡ self.old.known) }
        ensures last { OnOk result (self.new.last ≡ self.old.last) }
    {
        if self.since < WHOLE && are_mostly_same(&self.last, numbers) {
            self.since += 1;
            push_changed(&mut self.moments, &self.last, numbers)
        } else {
            self.since = 0;
            push_whole(&mut self.moments, numbers)
        }
    }
}

/// A row of the screen, painted in HTML with the cursor.
pub(crate) fn paint(
    alloc: Global,
    screen: &Screen,
    row: u16,
    look: &Look,
) -> Result<Page, AllocError>
    ensures painted { IfOk result (λ page. IsPainted look.now screen.now.state row page) }
    ensures text { IfOk result (λ page. Adds [] page (row_text (cells_shown screen.now.state.shown row))) }
{
    let mut page = Page::new(alloc);
    push_html_row(
        &mut page,
        cells_of(screen, row),
        cursor_in(screen, row, look),
        look,
    )?;
    Ok(page)
}

/// Appends a painted row as an element.
pub(crate) fn push_row(page: &mut Page, painted: &Page) -> Result<(), AllocError>
    ensures bytes { OnOk result (page.new ≡ page.old ++ row_bytes painted.now) }
    ensures adds { OnOk result ((text : List ℕ) → Adds [] painted.now text → Adds page.old page.new (text ++ 10 ∷ [])) }
{
    page.markup(Tag::Line)?;
    page.append(painted)?;
    page.markup(Tag::LineEnd)?;
    page.end_row()
}

// Inserts a painted row. Returns its number and whether it is new.
fn insert_row(known: &mut IndexSet<Vec<u8>>, row: Vec<u8>) -> Result<(usize, bool), PlayerError>
    ensures takes { IfOk result (λ r. Takes row.items (map (λ v. v.items) known.old.keys)
        (map (λ v. v.items) known.new.keys) r.0 r.1) }
    ensures memory { IfErr result (λ e. e ≡ Memory) }
{
    Ok(known.insert_full(row)?)
}

// Whether both have the same number of rows, and at most a third of these have another number.
fn are_mostly_same(old: &[u32], new: &[u32]) -> bool
    ensures { IsTrue result → length old.now ≡ length new.now }
{
    if old.len() != new.len() {
        return false;
    }
    let mut others: usize = 0;
    for (one, other) in old.iter().zip(new) {
        if one != other {
            others = others.saturating_add(1);
        }
    }
    others <= new.len() / 3
}

// Appends the rows whose number differs, each with its new number.
fn push_changed(page: &mut Page, old: &[u32], new: &[u32]) -> Result<(), AllocError>
    requires count { length old.now ≡ length new.now }
    requires few { length new.now < 2 ^ 16 }
    ensures { OnOk result (AddsNumbers old.now new.now page.old page.new) }
{
    page.markup(Tag::Changed)?;
    for (row, number) in new.iter().enumerate() {
        if old[row] != *number {
            page.numbers(&[(Tag::Space, row as u32), (Tag::Space, *number)])?;
        }
    }
    Ok(())
}

// Appends the numbers of all rows.
fn push_whole(page: &mut Page, numbers: &[u32]) -> Result<(), AllocError>
    ensures { (before : List ℕ) → OnOk result (AddsNumbers before numbers.now page.old page.new) }
{
    page.markup(Tag::Whole)?;
    for number in numbers {
        page.numbers(&[(Tag::Space, *number)])?;
    }
    Ok(())
}
