//! The frame of pictures that is asked for.

ghost use Rattle.std.specs.Prelude.{◌≡◌, ◌&&◌, is_some, IfOk, IfSome, Some};
ghost use Rattle.std.specs.Option.{option_map};
ghost use Rattle.clap.specs.Words.{found_of, rows_of};
ghost use Rattle.row_pictures.specs.Frames.{frame_said};
ghost use Rattle.screentext_command.specs.Frames.{SaysFrame, are_frames, font_size_meant, padding_meant};
ghost use Rattle.screentext_command.specs.Frames.{pixels_in as pixels_said};

use crate::source::owned;
use clap::ArgMatches;
use command_line::parse_count;
use recorded_screen::Frame;
use std::alloc::{AllocError, Global};

// How many pixels high letters are without an argument.
const USUAL_SIZE: u8 = 15;

/// Reads the frame from the arguments.
pub(crate) fn frame_of(alloc: Global, matches: &ArgMatches<'_>) -> Result<Option<Frame>, AllocError>
    ensures frame { IfOk result (λ f. is_some f ≡ are_frames (rows_of (found_of matches.now))) }
    ensures says { IfOk result (λ f. IfSome f (λ frame.
        SaysFrame (rows_of (found_of matches.now)) (frame_said frame))) }
{
    let padding = padding_of(matches.get_str("padding"));
    let size = font_size_of(matches.get_str("font-size"));
    let title = owned(alloc, matches.get_str("window"))?;
    Ok(new_frame(padding, size, title))
}

fn new_frame(padding: Option<u8>, size: Option<u8>, title: Option<String>) -> Option<Frame>
    ensures frame { is_some result ≡ (is_some padding && is_some size) }
    ensures found { IfSome result (λ f. (padding ≡ Some f.padding) × (size ≡ Some f.font_size) × (f.title ≡ title)) }
{
    Some(Frame {
        padding: padding?,
        font_size: size?,
        title,
    })
}

/// How many pixels there are between a picture and each edge: 0 without an argument.
pub(crate) fn padding_of(word: Option<&str>) -> Option<u8>
    ensures { result ≡ padding_meant (option_map (λ w. w.now) word.entry) }
{
    match word {
        None => Some(0),
        Some(word) => pixels_in(word),
    }
}

/// How many pixels high letters are: 1 to 255.
pub(crate) fn font_size_of(word: Option<&str>) -> Option<u8>
    ensures { result ≡ font_size_meant (option_map (λ w. w.now) word.entry) }
{
    match word {
        None => Some(USUAL_SIZE),
        Some(word) => pixels_in(word).filter(|size| *size > 0),
    }
}

// A number of pixels: 0 to 255.
fn pixels_in(word: &str) -> Option<u8>
    ensures { result ≡ pixels_said word.now }
{
    match u8::try_from(parse_count(word)?) {
        Ok(pixels) => Some(pixels),
        Err(_) => None,
    }
}
