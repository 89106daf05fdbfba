//! How pictures are asked for.

ghost use Rattle.std.specs.Prelude.{◌≡◌, ◌&&◌, is_some, true, false, nat_lt, IfOk, IfSome, Some};
ghost use Rattle.std.specs.Option.{option_map, option_map_or};
ghost use Rattle.clap.specs.Words.{found_of, rows_of};
ghost use Rattle.recordings.specs.Themes.{theme_reported};
ghost use Rattle.row_pictures.specs.Themes.{is_theme};
ghost use Rattle.screentext_command.specs.Asked.{SaysManner, bold_meant, manner_of, theme_meant};
ghost use Rattle.screentext_command.specs.Texts.{IsLook, pace_shown, theme_shown};
ghost use Rattle.screentext_command.specs.Words.{are_pictures, is_bold};

use crate::frames::frame_of;
use crate::pace::pace_of;
use crate::source::{Moments, owned};
use clap::ArgMatches;
use recorded_screen::{Frame, Look, Pace, Recording, Theme};
use std::alloc::{AllocError, Global};

/// What the arguments say of pictures.
#[derive(Drop)]
pub(crate) struct Pictures {
    /// The theme that is named.
    pub(crate) theme: Option<Theme>,
    /// The font that is named.
    pub(crate) font: Option<String>,
    /// Whether bold texts are in bright colours, where it is said.
    pub(crate) bold_is_bright: Option<bool>,
    /// Whether the cursor isn't shown.
    pub(crate) hides_cursor: bool,
    /// How fast a film plays, as far as the arguments say it.
    pub(crate) pace: Pace,
    /// What is around pictures in SVG, and how large they are shown.
    pub(crate) frame: Frame,
}

impl Pictures {
    /// How pictures of a recording look.
    pub(crate) fn look(&self, alloc: Global, recording: &Recording) -> Result<Look, AllocError>
        ensures { IfOk result (IsLook (manner_of self.now) recording.now) }
    {
        Ok(Look {
            theme: theme_shown(self.theme, recording),
            font: owned(alloc, self.font.as_deref())?,
            bold_is_bright: self.bold_is_bright,
            hides_cursor: self.hides_cursor,
            title: owned(alloc, recording.title.as_deref())?,
        })
    }

    /// How fast a film of a recording plays. Where the arguments don't say how long a screen stays the same at most,
    /// the recording does.
    pub(crate) fn pace_of(&self, recording: &Recording, moments: Moments) -> Pace
        ensures { result ≡ pace_shown self.now.pace recording.now moments }
    {
        Pace {
            speed: self.pace.speed,
            idle: self.pace.idle.or(recording.idle),
            rate: self.pace.rate,
            plays: self.pace.plays,
            from: moments.from.unwrap_or(0),
            poster: moments.poster,
        }
    }
}

// The theme of the arguments, or else that of the recording, or else the usual one.
fn theme_shown(named: Option<Theme>, recording: &Recording) -> Theme
    ensures { result ≡ theme_shown named (theme_reported recording.now.theme) }
{
    match (named, recording.theme) {
        (Some(theme), _) => theme,
        (None, Some(theme)) => Theme::of_colors(&theme.colors),
        (None, None) => Theme::new(),
    }
}

/// Reads from the arguments how pictures look.
pub(crate) fn pictures_of(
    alloc: Global,
    matches: &ArgMatches<'_>,
) -> Result<Option<Pictures>, AllocError>
    ensures pictures { IfOk result (λ p. is_some p ≡ are_pictures (rows_of (found_of matches.now))) }
    ensures says { IfOk result (λ p. IfSome p (λ pictures.
        SaysManner (rows_of (found_of matches.now)) (manner_of pictures))) }
{
    let theme = theme_of(matches.get_str("theme"));
    let pace = pace_of(alloc, matches)?;
    let font = owned(alloc, matches.get_str("font"))?;
    let bold = bold_of(
        matches.get_count("bold-is-bright") > 0,
        matches.get_count("bold-is-plain") > 0,
    );
    let hides_cursor = matches.get_count("no-cursor") > 0;
    let frame = frame_of(alloc, matches)?;
    Ok(new_pictures(theme, bold, pace, font, hides_cursor, frame))
}

fn new_pictures(
    theme: Option<Option<Theme>>,
    bold: Option<Option<bool>>,
    pace: Option<Pace>,
    font: Option<String>,
    hides_cursor: bool,
    frame: Option<Frame>,
) -> Option<Pictures>
    ensures pictures { is_some result ≡ (is_some theme && (is_some bold && (is_some pace && is_some frame))) }
    ensures found { IfSome result (λ p. (theme ≡ Some p.theme) × (bold ≡ Some p.bold_is_bright)
        × (pace ≡ Some p.pace) × (frame ≡ Some p.frame)) }
    ensures given { IfSome result (λ p. (p.font ≡ font) × (p.hides_cursor ≡ hides_cursor)) }
{
    Some(Pictures {
        theme: theme?,
        font,
        bold_is_bright: bold?,
        hides_cursor,
        pace: pace?,
        frame: frame?,
    })
}

/// The theme of this name. `Some(None)` without an argument.
pub(crate) fn theme_of(word: Option<&str>) -> Option<Option<Theme>>
    ensures theme { is_some result ≡ option_map_or is_theme (option_map (λ w. w.now) word.entry) true }
    ensures value { result ≡ theme_meant (option_map (λ w. w.now) word.entry) }
{
    match word {
        None => Some(None),
        Some(word) => Some(Some(Theme::of_name(word)?)),
    }
}

/// Whether bold texts are in bright colours: two arguments say it, of which at most one is given.
pub(crate) fn bold_of(bright: bool, plain: bool) -> Option<Option<bool>>
    ensures bold { is_some result ≡ is_bold bright plain }
    ensures value { result ≡ bold_meant bright plain }
{
    match (bright, plain) {
        (false, false) => Some(None),
        (true, false) => Some(Some(true)),
        (false, true) => Some(Some(false)),
        (true, true) => None,
    }
}
