//! Pictures and films in frames.

ghost use Rattle.std.specs.Prelude.{◌≡◌, ◌⊎◌, ◌≤◌, ◌<◌, IfOk, IfErr, OnOk, length};
ghost use Rattle.picture_page.specs.Page.{IsPage, IsSafe, Shows, escaped};
ghost use Rattle.picture_page.specs.Seen.{seen};
ghost use Rattle.row_pictures.specs.Frames.{frame_said, framed_seen};
ghost use Rattle.recorded_screen.specs.Film.{IsFilm, most_cols, most_rows};
ghost use Rattle.recorded_screen.specs.Framed.{IsFramed, IsFramedTooLong};
ghost use Rattle.recorded_screen.specs.Picture.{font_text, kept_pictured, rows_pictured, scrolled, svg_seen};
ghost use Rattle.recorded_screen.specs.Picture.{written_text};
ghost use Rattle.recorded_screen.specs.Placed.{IsSvg};
ghost use Rattle.recorded_screen.specs.Titles.{title_line};
ghost use Rattle.recorded_screen.specs.declared.error.FilmError.TheVariants.{Memory, TooLong};

use crate::error::FilmError;
use crate::films::{Pace, film, widest};
use crate::picture::{kept_of, rows_of, svg};
use crate::reel::LONGEST_FILM;
use recordings::{Event, ScreenSize};
use row_pictures::{Frame, Look, framed};
use std::alloc::{AllocError, Global};
use vt100::Screen;

/// The picture of [`svg`] in a frame. The frame is in the colours of the look.
pub fn framed_svg(
    alloc: Global,
    screen: &mut Screen,
    history: usize,
    look: &Look,
    frame: &Frame,
) -> Result<Vec<u8>, AllocError>
    ensures text { IfOk result (λ bytes. Shows bytes.items (written_text look.now history screen.old.state)) }
    ensures seen { IfOk result (λ bytes. seen bytes.items
        ≡ framed_seen (frame_said frame.now) (svg_seen (title_line look.now)
        (escaped (font_text look.now history screen.old.state)))) }
    ensures placed { IfOk result (λ bytes. IsFramed (frame_said frame.now) look.now.theme
        (rows_pictured history screen.old.state) screen.old.state.shown.width
        (IsSvg look.now history screen.old.state) bytes.items) }
    ensures page { IfOk result (λ bytes. IsPage bytes.items) }
    ensures safe { IfOk result (λ bytes. IsSafe bytes.items) }
    ensures left { OnOk result (screen.new.state
        ≡ scrolled screen.old.state (kept_pictured history screen.old.state) (rows_pictured history screen.old.state)) }
{
    let (_, cols) = screen.size();
    let rows = rows_of(screen, kept_of(screen, history));
    let picture = svg(alloc, screen, history, look)?;
    framed(alloc, picture, rows, cols.get(), look.theme, frame)
}

/// The film of [`film`] in a frame. With the frame it has at most [`LONGEST_FILM`] bytes.
pub fn framed_film(
    alloc: Global,
    size: ScreenSize,
    events: &[Event],
    moment: u64,
    look: &Look,
    pace: Pace,
    frame: &Frame,
) -> Result<Vec<u8>, FilmError>
    ensures film { IfOk result (λ bytes. IsFramed (frame_said frame.now) look.now.theme
        (most_rows moment size events.now) (most_cols moment size events.now)
        (IsFilm look.now size pace moment events.now) bytes.items) }
    ensures page { IfOk result (λ bytes. IsPage bytes.items) }
    ensures safe { IfOk result (λ bytes. IsSafe bytes.items) }
    ensures short { IfOk result (λ bytes. length bytes.items ≤ LONGEST_FILM) }
    ensures fault { IfErr result (λ e. (e ≡ Memory) ⊎ ((e ≡ TooLong)
        × IsFramedTooLong (frame_said frame.now) LONGEST_FILM look.now size pace moment events.now)) }
{
    let picture = film(alloc, size, events, moment, look, pace)?;
    let most = widest(size, events, moment);
    let framed = framed(
        alloc,
        picture,
        most.rows.get(),
        most.cols.get(),
        look.theme,
        frame,
    )?;
    short(framed)
}

// Fails if a film is longer than the longest one.
fn short(film: Vec<u8>) -> Result<Vec<u8>, FilmError>
    ensures same { IfOk result (λ bytes. bytes.items ≡ film.items) }
    ensures page { IsPage film.items → IfOk result (λ bytes. IsPage bytes.items) }
    ensures safe { IsSafe film.items → IfOk result (λ bytes. IsSafe bytes.items) }
    ensures short { IfOk result (λ bytes. length bytes.items ≤ LONGEST_FILM) }
    ensures long { IfErr result (λ e. (e ≡ TooLong) × (LONGEST_FILM < length film.items)) }
{
    if film.len() > LONGEST_FILM {
        return Err(FilmError::TooLong);
    }
    Ok(film)
}
