//! The markup of pictures.

ghost use Rattle.std.specs.Prelude.{◌≡◌};
ghost use Rattle.picture_page.specs.Tags.{tag_bytes};

use crate::player::{PLAYER_CONTROLS, PLAYER_HEAD, PLAYER_SCRIPT, PLAYER_STYLE};

/// A piece of markup: the only bytes of a picture that aren't digits, names or the escaped texts of cells.
#[derive(Clone, Copy)]
pub enum Tag {
    /// What comes before the title of a page in HTML.
    PageHead,
    /// The title of a page without one of its own.
    PageTitle,
    /// What comes between the title of a page and its block.
    PageBody,
    /// What comes after it.
    PageFoot,
    /// The beginning of a block of rows in HTML.
    Block,
    /// What comes before the name of its font.
    BlockFont,
    /// What comes after it, with the fonts that are tried last.
    BlockFontEnd,
    /// What comes before its rows.
    BlockRows,
    /// What ends it.
    BlockEnd,
    /// A newline after it.
    Newline,
    /// The beginning of a run of cells in HTML.
    Span,
    /// Its colour.
    Color,
    /// Its background.
    Background,
    /// Bold.
    SpanBold,
    /// Italic.
    SpanItalic,
    /// Underlined.
    SpanUnderline,
    /// Two columns wide.
    SpanWide,
    /// What comes before the text of a run.
    SpanText,
    /// What comes after it.
    SpanEnd,
    /// The beginning of a picture in SVG.
    Svg,
    /// What comes before the name of its font.
    SvgFont,
    /// What comes after it.
    SvgFontEnd,
    /// The fonts that are tried last.
    Monospace,
    /// What comes before the width of the part that is seen.
    ViewBox,
    /// A space between two numbers.
    Space,
    /// What comes before the rows of a picture in SVG.
    SvgRows,
    /// What comes before the title of a picture in SVG.
    Title,
    /// What comes after it.
    TitleEnd,
    /// What ends it.
    SvgFoot,
    /// The beginning of a row in SVG, before how far down it is.
    Row,
    /// What comes before its cells.
    RowCells,
    /// What ends it.
    RowEnd,
    /// The beginning of a rectangle.
    Rect,
    /// The beginning of a text.
    Text,
    /// How far down it is.
    Y,
    /// How wide it is.
    Width,
    /// How high it is.
    Height,
    /// How wide a text is.
    Length,
    /// A text whose characters are stretched to that width.
    Stretched,
    /// What it is filled with.
    Fill,
    /// Bold.
    TextBold,
    /// Italic.
    TextItalic,
    /// Underlined.
    TextUnderline,
    /// The end of a rectangle or a path.
    Close,
    /// What comes before the text itself.
    TextStart,
    /// What comes after it.
    TextEnd,
    /// The beginning of a path, before its colour.
    Lines,
    /// How opaque a path is, in hundredths.
    Opacity,
    /// What comes before the parts of a path.
    LinesData,
    /// What comes before the characters that it draws.
    LinesLabel,
    /// A part of a path begins at this place.
    MoveTo,
    /// A line to the right, this long.
    Right,
    /// A line down, this long.
    Down,
    /// A line to the left, this long.
    Left,
    /// The end of a part of a path.
    Shut,
    /// The beginning of what is drawn elsewhere.
    DefsStart,
    /// What ends it.
    DefsEnd,
    /// The beginning of a row that is drawn elsewhere, before its number.
    RowName,
    /// What comes before its cells.
    RowNameEnd,
    /// The beginning of a film's times, before its length in seconds.
    FilmLength,
    /// What comes between its length in seconds and how often it plays.
    FilmLengthEnd,
    /// It plays over and over.
    Endless,
    /// What comes after how often it plays: it stays as it is at its end.
    Forwards,
    /// The end of a film, in percent.
    AtEnd,
    /// The beginning of the times of a film's track, before the track's number.
    Keyframes,
    /// What comes after the number.
    KeyframesStart,
    /// What comes after a part of the film's length, before the place that is shown then.
    Percent,
    /// What comes after the place.
    PercentEnd,
    /// What comes after the places, before the track's number.
    KeyframesEnd,
    /// What comes between the track's number and the same number, which names its key frames.
    Animation,
    /// What comes after that.
    AnimationEnd,
    /// The end of a film's times: nothing plays for a reader who prefers less motion.
    Still,
    /// The point of a number.
    Point,
    /// The beginning of a track of a film, before its number.
    Track,
    /// What comes before the place that is shown if nothing plays.
    TrackPlace,
    /// What comes before the rows of a track.
    TrackRows,
    /// What ends it.
    TrackEnd,
    /// A row that was drawn elsewhere, before its number.
    Use,
    /// How far to the right it is.
    X,
    /// The beginning of a picture in SVG around another.
    Frame,
    /// The beginning of the place of a picture in another, before how far to the right it is.
    Inner,
    /// The beginning of the outline that cuts off the corners of a window.
    ClipStart,
    /// What comes after the outline, before what is cut.
    ClipEnd,
    /// How round a corner is.
    Corner,
    /// The edge of a window: a line along the outline, before its colour.
    Edge,
    /// The end of the edge, and of what is cut.
    EdgeEnd,
    /// The beginning of a round button, before where its middle is.
    Button,
    /// How far down its middle is.
    MiddleY,
    /// How far its edge is from there.
    Radius,
    /// A text that is a title, before how high its letters are.
    TitleSize,
    /// What comes before the title of a page that plays.
    PlayerHead,
    /// What comes between its title and its heading.
    PlayerStyle,
    /// What comes between its heading and the length of the recording in seconds.
    PlayerLength,
    /// The longest time for which a moment stays.
    PlayerIdle,
    /// The speed at first.
    PlayerSpeed,
    /// The time of the moment that is shown at first.
    PlayerPoster,
    /// The most rows that the screen has.
    PlayerRows,
    /// The most columns that it has.
    PlayerCols,
    /// What comes between these and the colours of the screen.
    PlayerScreen,
    /// The beginning of a row that is an element.
    Line,
    /// What ends it.
    LineEnd,
    /// What comes between the screen and the markers.
    PlayerControls,
    /// The beginning of a marker, before its time.
    MarkerTime,
    /// What comes before its name.
    MarkerName,
    /// What ends it.
    MarkerEnd,
    /// What comes between the markers and the rows that are drawn.
    PlayerTable,
    /// What comes between these and the moments.
    PlayerMoments,
    /// What comes before the numbers of all rows of a moment.
    Whole,
    /// What comes before the rows that differ from those of the moment before, each with its number.
    Changed,
    /// The script that plays, and what ends the page.
    PlayerScript,
}

impl Tag {
    /// Its bytes.
    pub fn bytes(self) -> &'static [u8]
        ensures { result.now ≡ tag_bytes self }
    {
        match self {
            Tag::PageHead => b"<!DOCTYPE html>\n<html><head><meta charset=\"utf-8\"><title>",
            Tag::PageTitle => b"screentext",
            Tag::PageBody => b"</title></head>\n<body>",
            Tag::PageFoot => b"</body></html>\n",
            Tag::Block => b"<pre style=\"display:inline-block;\
font-family:ui-monospace,Menlo,Consolas,'DejaVu Sans Mono',monospace;line-height:normal;",
            Tag::BlockFont => b";font-family:'",
            Tag::BlockFontEnd => b"',ui-monospace,Menlo,Consolas,'DejaVu Sans Mono',monospace",
            Tag::BlockRows => b"\">\n",
            Tag::BlockEnd => b"</pre>",
            Tag::Newline => b"\n",
            Tag::Span => b"<span style=\"",
            Tag::Color => b"color:#",
            Tag::Background => b";background:#",
            Tag::SpanBold => b";font-weight:bold",
            Tag::SpanItalic => b";font-style:italic",
            Tag::SpanUnderline => b";text-decoration:underline",
            Tag::SpanWide => b";display:inline-block;width:2ch",
            Tag::SpanText => b"\">",
            Tag::SpanEnd => b"</span>",
            Tag::Svg =>
                b"<svg xmlns=\"http://www.w3.org/2000/svg\" shape-rendering=\"crispEdges\" font-size=\"15\" font-family=\"",
            Tag::SvgFont => b"'",
            Tag::SvgFontEnd => b"',",
            Tag::Monospace => b"ui-monospace,Menlo,Consolas,'DejaVu Sans Mono',monospace",
            Tag::ViewBox => b"\" viewBox=\"0 0 ",
            Tag::Space => b" ",
            Tag::SvgRows => b"\">\n",
            Tag::Title => b"<title>",
            Tag::TitleEnd => b"</title>\n",
            Tag::SvgFoot => b"</svg>\n",
            Tag::Row => b"<g transform=\"translate(0 ",
            Tag::RowCells => b")\">",
            Tag::RowEnd => b"</g>",
            Tag::Rect => b"<rect x=\"",
            Tag::Text => b"<text xml:space=\"preserve\" x=\"",
            Tag::Y => b"\" y=\"",
            Tag::Width => b"\" width=\"",
            Tag::Height => b"\" height=\"",
            Tag::Length => b"\" textLength=\"",
            Tag::Stretched => b"\" lengthAdjust=\"spacingAndGlyphs",
            Tag::Fill => b"\" fill=\"#",
            Tag::TextBold => b"\" font-weight=\"bold",
            Tag::TextItalic => b"\" font-style=\"italic",
            Tag::TextUnderline => b"\" text-decoration=\"underline",
            Tag::Close => b"\"/>",
            Tag::TextStart => b"\">",
            Tag::TextEnd => b"</text>",
            Tag::Lines => b"<path fill=\"#",
            Tag::Opacity => b"\" fill-opacity=\".",
            Tag::LinesData => b"\" d=\"",
            Tag::LinesLabel => b"\" role=\"img\" aria-label=\"",
            Tag::MoveTo => b"M",
            Tag::Right => b"h",
            Tag::Down => b"v",
            Tag::Left => b"h-",
            Tag::Shut => b"z",
            Tag::DefsStart => b"<defs>\n",
            Tag::DefsEnd => b"</defs>\n",
            Tag::RowName => b"<g id=\"r",
            Tag::RowNameEnd => b"\">",
            Tag::FilmLength => b"<style>.film{animation:",
            Tag::FilmLengthEnd => b"s steps(1,end) ",
            Tag::Endless => b"infinite}\n",
            Tag::Forwards => b" forwards}\n",
            Tag::AtEnd => b"100",
            Tag::Keyframes => b"@keyframes t",
            Tag::KeyframesStart => b"{",
            Tag::Percent => b"%{transform:translate(-",
            Tag::PercentEnd => b"px)}",
            Tag::KeyframesEnd => b"}.t",
            Tag::Animation => b"{animation-name:t",
            Tag::AnimationEnd => b"}\n",
            Tag::Still =>
                b"@media (prefers-reduced-motion:reduce){.film{animation:none}}</style>\n",
            Tag::Point => b".",
            Tag::Track => b"<g class=\"film t",
            Tag::TrackPlace => b"\" transform=\"translate(-",
            Tag::TrackRows => b")\">",
            Tag::TrackEnd => b"</g>\n",
            Tag::Use => b"<use href=\"#r",
            Tag::X => b"\" x=\"",
            Tag::Frame => b"<svg xmlns=\"http://www.w3.org/2000/svg",
            Tag::Inner => b"<svg x=\"",
            Tag::ClipStart => b"<clipPath id=\"window\">",
            Tag::ClipEnd => b"\"/></clipPath><g clip-path=\"url(#window)\">",
            Tag::Corner => b"\" rx=\"",
            Tag::Edge => b"\" fill=\"none\" stroke-width=\"2\" stroke-opacity=\".4\" stroke=\"#",
            Tag::EdgeEnd => b"\"/></g>",
            Tag::Button => b"<circle cx=\"",
            Tag::MiddleY => b"\" cy=\"",
            Tag::Radius => b"\" r=\"",
            Tag::TitleSize =>
                b"\" font-family=\"system-ui,sans-serif\" text-anchor=\"middle\" font-size=\"",
            Tag::PlayerHead => PLAYER_HEAD,
            Tag::PlayerStyle => PLAYER_STYLE,
            Tag::PlayerLength => b"</bdi></h1>\n<main id=\"player\" data-length=\"",
            Tag::PlayerIdle => b"\" data-idle=\"",
            Tag::PlayerSpeed => b"\" data-speed=\"",
            Tag::PlayerPoster => b"\" data-poster=\"",
            Tag::PlayerRows => b"\" style=\"--rows:",
            Tag::PlayerCols => b";--cols:",
            Tag::PlayerScreen =>
                b"\">\n<div id=\"screen\" lang=\"\" role=\"group\" aria-label=\"Screen\" tabindex=\"0\" style=\"",
            Tag::Line => b"<div>",
            Tag::LineEnd => b"</div>",
            Tag::PlayerControls => PLAYER_CONTROLS,
            Tag::MarkerTime => b"<li><button type=\"button\" value=\"",
            Tag::MarkerName => b"\"><bdi>",
            Tag::MarkerEnd => b"</bdi></button></li>\n",
            Tag::PlayerTable => b"</ol>\n</main>\n<template id=\"rows\">\n",
            Tag::PlayerMoments => b"</template>\n<template id=\"moments\">\n",
            Tag::Whole => b"=",
            Tag::Changed => b":",
            Tag::PlayerScript => PLAYER_SCRIPT,
        }
    }
}
